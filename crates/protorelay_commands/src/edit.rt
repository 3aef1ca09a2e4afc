//! Editing a message: its bytes are read by its type, a value is set in it, and it is written again.

ghost use Rattle.std.specs.Prelude.{IfOk, IfErr, string_bytes};
ghost use Rattle.prost_reflect_pool.specs.SharedPools.{pool_rows};
ghost use Rattle.prost_reflect_dynamic.specs.Named.{type_named};
ghost use Rattle.prost_reflect_dynamic.specs.View.{value_of};
ghost use Rattle.protorelay_commands.specs.Editing.{IsChange, IsEdited, IsEditedIn, RefusesChange, RefusesEdit, RefusesEditIn};

use crate::path::{numbers_of, value_for};
use crate::reading::{message_type, pool_of};
use crate::refusal::Refusal;
use prost_reflect::{MessageDescriptor, Value, relay_with};
use std::alloc::Global;

/// The message that the hex digits spell, read by the message type of the name in the descriptor set and written again with
/// the value that the text spells set at the path, as a line of lower-case hex digits.
///
/// # Errors
///
/// The first step that fails: `Hex`, `Set` or `Pool` of the set, `Name`, `Hex` of the message, `Number` of the path,
/// `Value` of the text, `Decode`, `Encode`. Where memory runs out, `ValueUnread` in reading the text, and else `Memory`.
pub fn edit(
    alloc: Global,
    set: &str,
    name: &str,
    digits: &str,
    path: &str,
    text: &str,
) -> Result<String, Refusal>
    ensures edited { IfOk result (λ line. IsEdited set.now name.now digits.now path.now text.now (string_bytes line)) }
    ensures refused { IfErr result (RefusesEdit set.now name.now digits.now path.now text.now) }
{
    let pool = pool_of(alloc, set)?;
    let older = message_type(&pool, name)?;
    let bytes = hex::decode(alloc, digits)?;
    edit_bytes(alloc, &older, bytes.as_slice(), path, text)
}

/// Sets the value that the text spells at the path in what the bytes mean to the message type, and gives what is written then.
fn edit_bytes(
    alloc: Global,
    older: &MessageDescriptor,
    bytes: &[u8],
    path: &str,
    text: &str,
) -> Result<String, Refusal>
    ensures edited { IfOk result
        (λ line. IsEditedIn (pool_rows older.now.pool.inner) (type_named older.now) bytes.now path.now text.now
        (string_bytes line)) }
    ensures refused { IfErr result (RefusesEditIn (pool_rows older.now.pool.inner) (type_named older.now) bytes.now path.now text.now) }
{
    let (numbers, value) = change(alloc, older, path, text)?;
    let written = relay_with(alloc, older, bytes, numbers.as_slice(), value)?;
    let mut line = hex::encode(alloc, written.as_slice())?;
    line.push_str("\n")?;
    Ok(line)
}

/// Which value is set, and at which numbers.
fn change(
    alloc: Global,
    older: &MessageDescriptor,
    path: &str,
    text: &str,
) -> Result<(Vec<u32>, Value), Refusal>
    ensures change { IfOk result
        (λ p. IsChange (pool_rows older.now.pool.inner) (type_named older.now) path.now text.now p.0.items
        (value_of p.1)) }
    ensures refused { IfErr result (RefusesChange (pool_rows older.now.pool.inner) (type_named older.now) path.now text.now) }
{
    let spelled = numbers_of(alloc, path)?;
    let Some(numbers) = spelled else {
        return Err(Refusal::Number);
    };
    let found = older.get_field_by_path(numbers.as_slice())?;
    let Some(field) = found else {
        return Err(Refusal::Number);
    };
    match value_for(alloc, &field, text) {
        Ok(Some(value)) => Ok((numbers, value)),
        Ok(None) => Err(Refusal::Value),
        Err(refusal) => Err(refusal),
    }
}
