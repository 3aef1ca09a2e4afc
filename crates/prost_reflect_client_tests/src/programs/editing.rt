//! Messages that are read, changed and written again, with no test between these that could fail.

ghost use Rattle.std.specs.Prelude.{◌≡◌, false, true, IfOk};
ghost use Rattle.prost_reflect_dynamic.specs.DeepTypes.{all_typed};
ghost use Rattle.prost_reflect_dynamic.specs.Stored.{message_stored};
ghost use Rattle.prost_reflect_dynamic.specs.View.{message_type_of};
ghost use Rattle.prost_reflect_fields.specs.Known.{known_of, are_siblings};

use crate::programs::error::ClientError;
use prost_reflect::{DynamicMessage, ExtensionDescriptor, MessageDescriptor, Value, laws};
use std::alloc::{AllocError, Global};

/// Reads and writes.
pub fn read_and_write(
    alloc: Global,
    message_type: MessageDescriptor,
    bytes: &[u8],
) -> Result<Vec<u8>, ClientError> {
    let message = DynamicMessage::decode(alloc, message_type, bytes)?;
    Ok(message.encode_to_vec(alloc)?)
}

/// Reads, clears a field and writes.
pub fn clear_and_write(
    alloc: Global,
    message_type: MessageDescriptor,
    bytes: &[u8],
) -> Result<Vec<u8>, ClientError> {
    let mut message = DynamicMessage::decode(alloc, message_type, bytes)?;
    message.clear_field_by_number(5);
    Ok(message.encode_to_vec(alloc)?)
}

/// Reads, clears all and writes.
pub fn clear_all_and_write(
    alloc: Global,
    message_type: MessageDescriptor,
    bytes: &[u8],
) -> Result<Vec<u8>, ClientError> {
    let mut message = DynamicMessage::decode(alloc, message_type, bytes)?;
    message.clear();
    Ok(message.encode_to_vec(alloc)?)
}

/// Reads, sets a field and writes.
pub fn set_and_write(
    alloc: Global,
    message_type: MessageDescriptor,
    bytes: &[u8],
) -> Result<Vec<u8>, ClientError> {
    let mut message = DynamicMessage::decode(alloc, message_type, bytes)?;
    message.try_set_field_by_number(5, Value::I32(7))?;
    Ok(message.encode_to_vec(alloc)?)
}

/// Reads, takes a field by its name and writes.
pub fn take_and_write(
    alloc: Global,
    message_type: MessageDescriptor,
    bytes: &[u8],
) -> Result<Vec<u8>, ClientError> {
    let mut message = DynamicMessage::decode(alloc, message_type, bytes)?;
    let _ = message.take_field_by_name("name");
    Ok(message.encode_to_vec(alloc)?)
}

/// Makes a message, sets a field of it and writes.
pub fn make_and_write(
    alloc: Global,
    message_type: MessageDescriptor,
) -> Result<Vec<u8>, ClientError> {
    let mut message = DynamicMessage::new(alloc, message_type);
    message.try_set_field_by_number(5, Value::I32(7))?;
    Ok(message.encode_to_vec(alloc)?)
}

/// Reads two messages, sets the one as a field of the other, and writes that.
pub fn nest_and_write(
    alloc: Global,
    outer: MessageDescriptor,
    inner: MessageDescriptor,
    bytes: &[u8],
) -> Result<Vec<u8>, ClientError> {
    let inside = DynamicMessage::decode(alloc, inner, bytes)?;
    let mut message = DynamicMessage::new(alloc, outer);
    message.try_set_field_by_number(5, Value::Message(inside))?;
    Ok(message.encode_to_vec(alloc)?)
}

/// Makes a message and writes it at once.
pub fn make_and_write_nothing(
    alloc: Global,
    message_type: MessageDescriptor,
) -> Result<Vec<u8>, ClientError> {
    Ok(DynamicMessage::new(alloc, message_type).encode_to_vec(alloc)?)
}

/// Reads, clears an extension if it is the message's own, takes all fields and all unknown fields, and writes.
pub fn take_all_and_write(
    alloc: Global,
    message_type: MessageDescriptor,
    bytes: &[u8],
    extension: &ExtensionDescriptor,
) -> Result<Vec<u8>, ClientError> {
    let mut message = DynamicMessage::decode(alloc, message_type, bytes)?;
    if message.owns_extension(extension) {
        message.clear_extension(extension);
    }
    drop(message.take_fields(alloc)?);
    drop(message.take_unknown_fields(alloc)?);
    Ok(message.encode_to_vec(alloc)?)
}

/// Reads and merges twice.
pub fn merge_twice(
    alloc: Global,
    message_type: MessageDescriptor,
    bytes: &[u8],
    more: &[u8],
) -> Result<DynamicMessage, ClientError> {
    let mut message = DynamicMessage::decode(alloc, message_type, bytes)?;
    message.merge(more)?;
    message.merge(more)?;
    Ok(message)
}

/// The options of a message type without the field of a number, and with what the bytes say besides; they are written.
pub fn options_changed(
    alloc: Global,
    message_type: &MessageDescriptor,
    number: u32,
    more: &[u8],
) -> Result<Vec<u8>, ClientError> {
    let Ok(mut options) = message_type.options() else {
        return Ok(Vec::new(alloc));
    };
    options.clear_field_by_number(number);
    options.merge(more)?;
    Ok(options.encode_to_vec(alloc)?)
}

/// Merges into a message that was made by others, if it may be.
pub fn test_and_merge(message: &mut DynamicMessage, more: &[u8]) -> Result<bool, ClientError> {
    message.clear_field_by_number(5);
    let is_whole = message.is_encodable() && message.is_typed();
    if is_whole {
        message.merge(more)?;
    }
    Ok(is_whole)
}

/// Reads, clears a field and merges.
pub fn clear_and_merge(
    alloc: Global,
    message_type: MessageDescriptor,
    bytes: &[u8],
    more: &[u8],
) -> Result<DynamicMessage, ClientError> {
    let mut message = DynamicMessage::decode(alloc, message_type, bytes)?;
    message.clear_field_by_number(5);
    message.merge(more)?;
    Ok(message)
}

/// Reads, sets, clears, takes, and writes.
pub fn edit_and_write(
    alloc: Global,
    message_type: MessageDescriptor,
    bytes: &[u8],
) -> Result<Vec<u8>, ClientError> {
    let mut message = DynamicMessage::decode(alloc, message_type, bytes)?;
    message.try_set_field_by_number(5, Value::I32(7))?;
    message.clear_field_by_number(6);
    let _ = message.take_field_by_number(7);
    Ok(message.encode_to_vec(alloc)?)
}

/// Reads and sets; the messages inside are of their fields' types.
pub fn set_keeps_types(
    alloc: Global,
    message_type: MessageDescriptor,
    bytes: &[u8],
) -> Result<DynamicMessage, ClientError>
    ensures { IfOk result (λ message. all_typed (message_stored message) ≡ true) }
{
    let mut message = DynamicMessage::decode(alloc, message_type, bytes)?;
    message.try_set_field_by_number(5, Value::I32(7))?;
    Ok(message)
}

/// Clears a field, which the message then does not have.
pub fn has_what_was_cleared(message: &mut DynamicMessage) -> bool
    ensures { result ≡ false }
{
    message.clear_field_by_number(5);
    message.has_field_by_number(5)
}

/// Takes a field by its name, which the message then does not have.
pub fn has_what_was_taken(message: &mut DynamicMessage, name: &str) -> bool
    ensures { result ≡ false }
{
    let _ = message.take_field_by_name(name);
    message.has_field_by_name(name)
}

/// Sets a field, clears it and sets it again: what fitted once fits again.
pub fn set_again(message: &mut DynamicMessage, name: &str) -> Result<(), ClientError> {
    message.try_set_field_by_name(name, Value::I32(7))?;
    message.clear_field_by_name(name);
    message.set_field_by_name(name, Value::I32(7))?;
    Ok(())
}

/// Sets a field of the message's own type to its default.
pub fn set_default(
    alloc: Global,
    message: &mut DynamicMessage,
    name: &str,
) -> Result<(), AllocError> {
    let descriptor = message.descriptor()?;
    if let Some(field) = descriptor.get_field_by_name(name)? {
        let value = field.default_value(alloc)?;
        message.set_field(&field, value)?;
    }
    Ok(())
}

/// Sets a field of the message's own type to a value, if that fits it.
pub fn set_own(message: &mut DynamicMessage, name: &str, value: Value) -> Result<(), AllocError> {
    let descriptor = message.descriptor()?;
    if let Some(field) = descriptor.get_field_by_name(name)? {
        if value.is_valid_for_field(&field) {
            message.set_field(&field, value)?;
        }
    }
    Ok(())
}

/// Sets the field of a name to a value, if that fits the field that the message's own type has of the name.
pub fn set_named_where_it_fits(
    message: &mut DynamicMessage,
    name: &str,
    value: Value,
) -> Result<(), AllocError> {
    let descriptor = message.descriptor()?;
    if let Some(field) = descriptor.get_field_by_name(name)? {
        if value.is_valid_for_field(&field) {
            message.set_field_by_name(name, value)?;
        }
    }
    Ok(())
}

/// Clears a field of the message's own type.
pub fn clear_own(message: &mut DynamicMessage, name: &str) -> Result<(), AllocError> {
    let descriptor = message.descriptor()?;
    if let Some(field) = descriptor.get_field_by_name(name)? {
        message.clear_field(&field);
    }
    Ok(())
}

/// Sets a field twice, where the first time tells that the value fits.
pub fn set_twice(message: &mut DynamicMessage, name: &str) -> Result<(), AllocError> {
    if message.try_set_field_by_name(name, Value::I32(7)).is_err() {
        return Ok(());
    }
    message.set_field_by_name(name, Value::I32(7))
}

/// Sets the field of a number twice, where the first time tells that the value fits.
pub fn set_number_twice(message: &mut DynamicMessage, number: u32) -> Result<(), AllocError> {
    if message
        .try_set_field_by_number(number, Value::I32(7))
        .is_err()
    {
        return Ok(());
    }
    message.set_field_by_number(number, Value::I32(7))
}

/// Whether the message has two members of a oneof, which no message does.
pub fn has_two_members(message: &DynamicMessage, one: u32, other: u32) -> bool
    requires { are_siblings (known_of (message_type_of message.now)) one other ≡ true }
    ensures { result ≡ false }
{
    laws::one_member(message);
    message.has_field_by_number(one) && message.has_field_by_number(other)
}

/// Clears each field of the message's own type, by its number.
pub fn clear_each(message: &mut DynamicMessage) -> Result<(), AllocError> {
    let descriptor = message.descriptor()?;
    for field in descriptor.fields() {
        message.clear_field_by_number(field?.number());
    }
    Ok(())
}

/// Clears each field of the message's own type, by the field itself: a loop does not know of a message that it changes whose
/// field it is, so it asks.
pub fn clear_owned(message: &mut DynamicMessage) -> Result<(), AllocError> {
    let descriptor = message.descriptor()?;
    for field in descriptor.fields() {
        let field = field?;
        if message.owns_field(&field) {
            message.clear_field(&field);
        }
    }
    Ok(())
}
