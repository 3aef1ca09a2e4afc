//! Values that are taken, shown or made in one place and set in another, with no test between that could fail.

ghost use Rattle.std.specs.Prelude.{◌≡◌, false, true, IfOk, Some, option_map};
ghost use Rattle.prost_reflect_dynamic.specs.Access.{IsOwnField};
ghost use Rattle.prost_reflect_dynamic.specs.NamedField.{row_at};
ghost use Rattle.prost_reflect_dynamic.specs.View.{message_type_of};

use crate::programs::error::ClientError;
use prost_reflect::{
    DynamicMessage, FieldDescriptor, MessageDescriptor, OneofDescriptor, Value, laws,
};
use std::alloc::{AllocError, Global};

/// Takes the field of a number out of a message that was read, sets it in another, and writes that.
pub fn move_and_write(
    alloc: Global,
    from: MessageDescriptor,
    to: MessageDescriptor,
    bytes: &[u8],
    number: u32,
) -> Result<Vec<u8>, ClientError> {
    let mut source = DynamicMessage::decode(alloc, from, bytes)?;
    let mut message = DynamicMessage::new(alloc, to);
    if let Some(value) = source.take_field_by_number(number) {
        message.try_set_field_by_number(number, value)?;
    }
    Ok(message.encode_to_vec(alloc)?)
}

/// Takes a field and sets it again: it fits, and the message can be written.
pub fn take_and_set_again(
    alloc: Global,
    message_type: MessageDescriptor,
    bytes: &[u8],
    number: u32,
) -> Result<Vec<u8>, ClientError> {
    let mut message = DynamicMessage::decode(alloc, message_type, bytes)?;
    if let Some(value) = message.take_field_by_number(number) {
        message.set_field_by_number(number, value)?;
    }
    Ok(message.encode_to_vec(alloc)?)
}

/// Takes a field by its name and sets it again.
pub fn take_by_name_and_write(
    alloc: Global,
    message_type: MessageDescriptor,
    bytes: &[u8],
    name: &str,
) -> Result<Vec<u8>, ClientError> {
    let mut message = DynamicMessage::decode(alloc, message_type, bytes)?;
    if let Some(value) = message.take_field_by_name(name) {
        message.set_field_by_name(name, value)?;
    }
    Ok(message.encode_to_vec(alloc)?)
}

/// Takes a field of the message's own type, sets it again and merges.
pub fn take_own_and_merge(
    alloc: Global,
    message_type: MessageDescriptor,
    bytes: &[u8],
    field: &FieldDescriptor,
) -> Result<DynamicMessage, ClientError> {
    let mut message = DynamicMessage::decode(alloc, message_type, bytes)?;
    if message.owns_field(field) {
        if let Some(value) = message.take_field(field) {
            message.try_set_field(field, value)?;
        }
    }
    message.merge(bytes)?;
    Ok(message)
}

/// Takes a field of the message's own type, sets it again, which it takes in any case, and writes.
pub fn take_own_and_set_again(
    alloc: Global,
    message_type: MessageDescriptor,
    bytes: &[u8],
    field: &FieldDescriptor,
) -> Result<Vec<u8>, ClientError> {
    laws::takes_found();
    let mut message = DynamicMessage::decode(alloc, message_type, bytes)?;
    if message.owns_field(field) {
        let _ = field.number();
        if let Some(value) = message.take_field(field) {
            message.set_field(field, value)?;
        }
    }
    Ok(message.encode_to_vec(alloc)?)
}

/// Copies what the field of a number shows, a stored value or the default, to another message, and writes that.
pub fn copy_and_write(
    alloc: Global,
    from: MessageDescriptor,
    to: MessageDescriptor,
    bytes: &[u8],
    number: u32,
) -> Result<Vec<u8>, ClientError> {
    let source = DynamicMessage::decode(alloc, from, bytes)?;
    let mut message = DynamicMessage::new(alloc, to);
    if let Some(shown) = source.get_field_by_number(alloc, number)? {
        let value: &Value = &shown;
        message.try_set_field_by_number(number, value.clone()?)?;
    }
    Ok(message.encode_to_vec(alloc)?)
}

/// Sets a field of the message's own type to its default, and writes.
pub fn set_default_and_write(
    alloc: Global,
    message_type: MessageDescriptor,
    bytes: &[u8],
    name: &str,
) -> Result<Vec<u8>, ClientError> {
    let mut message = DynamicMessage::decode(alloc, message_type, bytes)?;
    let descriptor = message.descriptor()?;
    if let Some(field) = descriptor.get_field_by_name(name)? {
        let value = field.default_value(alloc)?;
        message.set_field(&field, value)?;
    }
    Ok(message.encode_to_vec(alloc)?)
}

/// Sets a field, which shows then what was set.
pub fn shows_what_was_set(alloc: Global, message: &mut DynamicMessage) -> Result<bool, ClientError>
    ensures { IfOk result (λ same. same ≡ true) }
{
    message.try_set_field_by_number(5, Value::I32(7))?;
    match message.get_field_by_number(alloc, 5)? {
        Some(shown) => Ok(shown.as_i32() == Some(7)),
        None => Ok(false),
    }
}

/// How many messages there are, at every depth, in a message whose fields are taken out of it.
#[cycle(draining)]
pub fn messages_drained(alloc: Global, message: &mut DynamicMessage) -> Result<u32, AllocError> {
    let mut count = 1u32;
    for (_, value) in message.take_fields(alloc)? {
        count = count.saturating_add(messages_drained_of(alloc, value)?);
    }
    Ok(count)
}

#[cycle(draining)]
fn messages_drained_of(alloc: Global, value: Value) -> Result<u32, AllocError> {
    match value {
        Value::Message(mut message) => messages_drained(alloc, &mut message),
        _ => Ok(0),
    }
}

/// Whether a message has both of two fields of its own type that are of one oneof, which no message has.
pub fn has_two_members(
    message: &DynamicMessage,
    one: &FieldDescriptor,
    other: &FieldDescriptor,
) -> Result<bool, AllocError>
    ensures { IfOk result (λ both. both ≡ false) }
{
    if !message.owns_field(one) || !message.owns_field(other) {
        return Ok(false);
    }
    let Some(first) = one.containing_oneof()? else {
        return Ok(false);
    };
    let Some(second) = other.containing_oneof()? else {
        return Ok(false);
    };
    Ok(has_both(message, one, &first, other, &second))
}

/// Whether a message has both of two fields of its own type, where their oneofs, which stand behind each, are one.
fn has_both(
    message: &DynamicMessage,
    one: &FieldDescriptor,
    first: &OneofDescriptor,
    other: &FieldDescriptor,
    second: &OneofDescriptor,
) -> bool
    requires one { IsOwnField (message_type_of message.now) one.now }
    requires first { option_map (λ field. field.oneof) (row_at one.now) ≡ Some (Some first.now.index) }
    requires other { IsOwnField (message_type_of message.now) other.now }
    requires second { option_map (λ field. field.oneof) (row_at other.now) ≡ Some (Some second.now.index) }
    ensures { result ≡ false }
{
    laws::one_member(message);
    if one.number() == other.number() || first != second {
        return false;
    }
    message.has_field(one) && message.has_field(other)
}

/// Reads, clears a field of the message in the field of another number, and writes.
pub fn clear_inside_and_write(
    alloc: Global,
    message_type: MessageDescriptor,
    bytes: &[u8],
    path: u32,
    number: u32,
) -> Result<Vec<u8>, ClientError> {
    let mut message = DynamicMessage::decode(alloc, message_type, bytes)?;
    if let Value::Message(inside) = message.get_field_by_number_mut(alloc, path)? {
        inside.clear_field_by_number(number);
    }
    Ok(message.encode_to_vec(alloc)?)
}

/// Reads, sets a field of the message in the field of another number, and writes.
pub fn set_inside_and_write(
    alloc: Global,
    message_type: MessageDescriptor,
    bytes: &[u8],
    path: u32,
    number: u32,
) -> Result<Vec<u8>, ClientError> {
    let mut message = DynamicMessage::decode(alloc, message_type, bytes)?;
    if let Value::Message(inside) = message.get_field_by_number_mut(alloc, path)? {
        inside.try_set_field_by_number(number, Value::I32(7))?;
    }
    Ok(message.encode_to_vec(alloc)?)
}
