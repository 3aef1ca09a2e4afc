//! The numbers of the records of bytes.

ghost use Rattle.std.specs.Prelude.{◌≡◌, ℕ, List, IfNone, IfOk, IfSome};
ghost use Rattle.prost_reflect_wire.specs.Front.{FieldFront};
ghost use Rattle.prost_reflect_wire.specs.Grammar.{LEVEL_LIMIT};
ghost use Rattle.prost_reflect_wire.specs.Record.{Record};
ghost use Rattle.prost_reflect_fields.specs.Known.{known_of};
ghost use Rattle.prost_reflect_fields.specs.WholeOneofs.{HasWholeOneofs};
ghost use Rattle.prost_reflect_rows.specs.RecordNumbers.{BeginsWith, HasNumbersOf};

use prost_reflect_fields::number_sets::add_number;
use prost_reflect_pool::PooledType;
use prost_reflect_wire::{RECURSION_LIMIT, decode_key, skip_value};
use std::alloc::{AllocError, Global};
use std::collections::BTreeSet;

/// The numbers of the records that the bytes begin with, and the other members of their fields' oneofs in the message type:
/// what reading the bytes into a message of the type may change.
///
/// # Errors
///
/// `AllocError` if out of memory.
pub fn numbers_in(
    alloc: Global,
    message_type: &PooledType,
    bytes: &[u8],
) -> Result<BTreeSet<u32>, AllocError>
    ensures whole { IfOk result (λ numbers. HasWholeOneofs (known_of message_type.now) numbers) }
    ensures numbers { IfOk result (λ numbers. HasNumbersOf bytes.now numbers) }
{
    let mut numbers = BTreeSet::new(alloc);
    let mut rest = bytes;
    while let Some((number, after)) = first_number(rest) {
        add_number(&mut numbers, message_type, number)?;
        rest = after;
    }
    Ok(numbers)
}

/// The number of the record that the bytes begin with, and what follows it.
fn first_number(bytes: &[u8]) -> Option<(u32, &[u8])>
    ensures some { IfSome result (λ x. BeginsWith x.0 bytes.now x.1.now) }
    ensures none { IfNone result ((r : Record) (rest : List ℕ) → FieldFront LEVEL_LIMIT r bytes.now rest → ⊥) }
{
    let Ok((number, wire_type, after)) = decode_key(bytes) else {
        return None;
    };
    let Ok(rest) = skip_value(number, wire_type, after, RECURSION_LIMIT) else {
        return None;
    };
    Some((number.get(), rest))
}
