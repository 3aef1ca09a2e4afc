//! Editing: bytes are read by an older message type, a value is set in what they mean, and it is written again.

ghost use Rattle.std.specs.Prelude.{◌≡◌, true, false, None, Err, IfOk, IfErr, IfSome};
ghost use Rattle.std.specs.List.{list_any};
ghost use Rattle.std.specs.BTreeMap.{IsOrdered};
ghost use Rattle.prost_reflect_wire.specs.Schema.{Field};
ghost use Rattle.prost_reflect_wire.specs.Content.{value_ordered};
ghost use Rattle.prost_reflect_wire.specs.Edit.{holds_message};
ghost use Rattle.prost_reflect_wire.specs.Typing.{value_valid};
ghost use Rattle.prost_reflect_dynamic.specs.ContentLaws.{compare_keys};
ghost use Rattle.prost_reflect.specs.Edits.{edit_refusal, is_message, IsEdited, RefusesEdit, PassesEdit};
ghost use Rattle.prost_reflect_dynamic.specs.Named.{schema_named, type_named};
ghost use Rattle.prost_reflect.specs.Relaying.{OlderAccepts};
ghost use Rattle.prost_reflect_dynamic.specs.View.{value_of};
ghost use Rattle.prost_reflect.specs.declared.relaying.edit.RelayWithError.TheVariants as errors;

use crate::relaying::decode_by;
use prost_reflect_dynamic::{MapKey, MessageDescriptor, Value, set_at_path, takes_at_path};
use prost_reflect_wire::{DecodeError, EncodeError};
use std::alloc::{AllocError, Global};
use std::collections::BTreeMap;
use thiserror::Error;

/// Why a value is not set in bytes.
#[derive(Clone, Copy, Debug, PartialEq, Eq, Error)]
pub enum RelayWithError {
    /// The path leads to no field.
    #[error("the path leads to no field")]
    NotFound,
    /// The field does not take the value.
    #[error("the field does not take the value")]
    InvalidType,
    /// The field takes the value, and the value is a message or holds one.
    #[error("the value holds a message")]
    HoldsMessage,
    /// The older type does not accept the bytes, or memory ran out in reading them.
    #[error("the bytes are not read: {0}")]
    Decode(DecodeError),
    /// The message is not written.
    #[error("the message is not written: {0}")]
    Encode(EncodeError),
    /// Out of memory in setting the value.
    #[error("out of memory")]
    OutOfMemory,
}

impl From<AllocError> for RelayWithError {
    ghost from_gives = { λ _ e. e ≡ errors.OutOfMemory };

    fn from(_error: AllocError) -> RelayWithError {
        RelayWithError::OutOfMemory
    }
}

impl From<DecodeError> for RelayWithError {
    ghost from_gives = { λ error e. e ≡ errors.Decode error };

    fn from(error: DecodeError) -> RelayWithError {
        RelayWithError::Decode(error)
    }
}

impl From<EncodeError> for RelayWithError {
    ghost from_gives = { λ error e. e ≡ errors.Encode error };

    fn from(error: EncodeError) -> RelayWithError {
        RelayWithError::Encode(error)
    }
}

/// What the bytes mean to the older type with the value set at the path, written again.
///
/// The path is the numbers of the fields that lead from the older type to the value: each before the last is that of a
/// field of one message or group, and the last is that of the field to set. A message on the way that is not there is made,
/// and at each number the other members of its oneof go. What the older type does not know stays as unknown fields, so a
/// newer type that it is a reduction of, and that accepts the bytes, reads from what is written what it reads from them
/// with that value set at that path. Of no bytes the message with that value alone is written.
///
/// ```
/// // Of the type `builtin.Plain`, `50 83 00 28 96 01` becomes `28 07 50 03` with 7 at the number 5, so this is true.
/// fn edits(alloc: Global, plain: &MessageDescriptor) -> Result<bool, RelayWithError> {
///     let written = relay_with(alloc, plain, &[0x50, 0x83, 0, 0x28, 0x96, 1], &[5], Value::I32(7))?;
///     Ok(written.as_slice() == [0x28, 7, 0x50, 3].as_slice())
/// }
/// ```
///
/// # Errors
///
/// The first of these, before a byte is read: `NotFound` if the path is empty or has more than 101 numbers, if a number
/// before the last is not that of a field of one message or group, or the last not that of a field, where an extension is
/// no field; `InvalidType` if the field does not take the value; `HoldsMessage` if the value is a message, or a list or a
/// map with one. Then `Decode` with a fault that the bytes have, and only if the older type does not accept them; `Encode`
/// with `TooLong` if what is written passes the greatest `usize`; and `OutOfMemory`, or either of these with `OutOfMemory`,
/// if memory runs out.
pub fn relay_with(
    alloc: Global,
    older: &MessageDescriptor,
    bytes: &[u8],
    path: &[u32],
    value: Value,
) -> Result<Vec<u8>, RelayWithError>
    ensures first { IfSome (edit_refusal (schema_named older.now) (type_named older.now) path.now (value_of value)) (λ e. result ≡ Err e) }
    ensures edited { IfOk result
        (λ written. IsEdited (schema_named older.now) (type_named older.now) bytes.now path.now (value_of value)
        written.items) }
    ensures refused { IfErr result (RefusesEdit (schema_named older.now) (type_named older.now) bytes.now path.now (value_of value)) }
    ensures older_accepts { OlderAccepts (schema_named older.now) (type_named older.now) bytes.now }
    ensures passes { IfOk result
        (λ written. PassesEdit (schema_named older.now) (type_named older.now) bytes.now path.now (value_of value)
        written.items) }
{
    if let Some(refusal) = refusal_of(older, path, &value) {
        return Err(refusal);
    }
    let mut message = decode_by(alloc, older, bytes)?;
    set_at_path(&mut message, alloc, path, value)?;
    let written = message.encode_to_vec(alloc)?;
    Ok(written)
}

/// Why the value is not set at the path, whatever the bytes.
fn refusal_of(older: &MessageDescriptor, path: &[u32], value: &Value) -> Option<RelayWithError>
    ensures refusal { result ≡ edit_refusal (schema_named older.now) (type_named older.now) path.now (value_of value.now) }
    ensures ordered { result ≡ None → value_ordered (value_of value.now) ≡ true }
{
    let Some(takes) = takes_at_path(older, path, value) else {
        return Some(RelayWithError::NotFound);
    };
    if !takes {
        return Some(RelayWithError::InvalidType);
    }
    if holds_message(value) {
        Some(RelayWithError::HoldsMessage)
    } else {
        None
    }
}

/// Whether a value that some field takes is a message, or holds one.
fn holds_message(value: &Value) -> bool
    ensures holds { (f : Field) → value_valid f (value_of value.now) ≡ true → result ≡ holds_message (value_of value.now) }
    ensures ordered { (f : Field) → value_valid f (value_of value.now) ≡ true → result ≡ false → value_ordered (value_of value.now) ≡ true }
{
    match value {
        Value::Message(_) => true,
        Value::List(values) => any_message(values.as_slice()),
        Value::Map(pairs) => any_message_in(pairs),
        _ => false,
    }
}

/// Whether the value is a message.
fn is_message(value: &Value) -> bool
    ensures { result ≡ is_message (value_of value.now) }
{
    match value {
        Value::Message(_) => true,
        _ => false,
    }
}

/// Whether one of the values is a message.
fn any_message(values: &[Value]) -> bool
    ensures { result ≡ list_any (λ v. is_message (value_of v)) values.now }
{
    for value in values {
        if is_message(value) {
            return true;
        }
    }
    false
}

/// Whether one of the values of a map is a message.
fn any_message_in(pairs: &BTreeMap<MapKey, Value>) -> bool
    ensures holds { result ≡ list_any (λ e. is_message (value_of e.1)) pairs.now.entries }
    ensures ordered { IsOrdered compare_keys pairs.now }
{
    for (_, value) in pairs.iter() {
        if is_message(value) {
            return true;
        }
    }
    false
}
