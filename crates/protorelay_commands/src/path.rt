//! The numbers that a path spells, and the value of a field that a text spells.

ghost use Rattle.std.specs.Prelude.{◌≡◌, ◌⊎◌, IfOk, IfErr, option_map};
ghost use Rattle.prost_reflect_wire.specs.Varint.{◌>>=◌ as and_then};
ghost use Rattle.prost_reflect_pool.specs.SharedPools.{pool_rows};
ghost use Rattle.prost_reflect_dynamic.specs.NamedField as named;
ghost use Rattle.prost_reflect_dynamic.specs.View.{value_of};
ghost use Rattle.protorelay_commands.specs.Editing.{number_in, number_spelled, path_spelled, text_value};
ghost use Rattle.protorelay_commands.specs.declared.refusal.Refusal.TheVariants as refusals;

use crate::refusal::Refusal;
use prost_reflect::{FieldDescriptor, Value};
use prost_reflect_flat::written_default;
use prost_reflect_tables::{TableKind, WrittenDefault};
use std::alloc::{AllocError, Global};

/// The numbers that the text spells, each in decimal digits alone, joined by dots.
pub fn numbers_of(alloc: Global, text: &str) -> Result<Option<Vec<u32>>, AllocError>
    ensures { IfOk result (λ numbers. option_map (λ v. v.items) numbers ≡ path_spelled text.now) }
{
    let mut numbers = Vec::new(alloc);
    for digits in text.split('.') {
        match number_of(alloc, digits)? {
            Some(number) => numbers.push(number)?,
            None => return Ok(None),
        }
    }
    Ok(Some(numbers))
}

/// The number that decimal digits alone spell, up to the greatest `u32`.
fn number_of(alloc: Global, digits: &str) -> Result<Option<u32>, AllocError>
    ensures { IfOk result (λ number. number ≡ number_spelled digits.now) }
{
    let read = written_default(alloc, TableKind::Uint32, None, digits)?;
    match read {
        Some(default) => Ok(number_in(default)),
        None => Ok(None),
    }
}

/// The number of a `U32`.
fn number_in(default: WrittenDefault) -> Option<u32>
    ensures { result ≡ number_in default }
{
    match default {
        WrittenDefault::U32(number) => Some(number),
        _ => None,
    }
}

/// The value that the text spells, if the field takes it: a list, a map, a message and a group take none.
///
/// # Errors
///
/// `ValueUnread` if memory runs out where the text is read, and `Memory` if it does before.
pub fn value_for(
    alloc: Global,
    field: &FieldDescriptor,
    text: &str,
) -> Result<Option<Value>, Refusal>
    ensures value { IfOk result
        (λ value. option_map value_of value
        ≡ and_then (named.row_at field.now) (λ f. text_value (pool_rows field.now.message.pool.inner) f text.now)) }
    ensures refused { IfErr result (λ refusal. (refusal ≡ refusals.ValueUnread) ⊎ (refusal ≡ refusals.Memory)) }
{
    let kind = field.kind()?;
    let Ok(read) = Value::from_text(alloc, &kind, text) else {
        return Err(Refusal::ValueUnread);
    };
    let Some(value) = read else {
        return Ok(None);
    };
    if value.is_valid_for_field(field) {
        Ok(Some(value))
    } else {
        Ok(None)
    }
}
