//! Values that are written where a field or an extension lends its own, with no test after that which could fail.

ghost use Rattle.std.specs.Prelude.{◌≡◌, true, false, IfNone, IfOk, IfSome, IsTrue, OnErr, Some};
ghost use Rattle.prost_reflect_dynamic.specs.Access.{is_field_number, takes_at};
ghost use Rattle.prost_reflect_dynamic.specs.Edits.{Sets};
ghost use Rattle.prost_reflect_dynamic.specs.Setting.{DescribesField};
ghost use Rattle.prost_reflect_dynamic.specs.View.{message_type_of};
ghost use Rattle.prost_reflect_dynamic.specs.declared.descriptor.field.FieldDescriptor.{FieldDescriptor};

use crate::programs::error::ClientError;
use prost_reflect::{DynamicMessage, ExtensionDescriptor, MessageDescriptor, Value, laws};
use std::alloc::{AllocError, Global};

/// Reads, writes 7 where the field of a number lends its value, if 7 fits that field, and writes.
pub fn write_through_and_write(
    alloc: Global,
    message_type: MessageDescriptor,
    bytes: &[u8],
    number: u32,
) -> Result<Vec<u8>, ClientError> {
    let mut message = DynamicMessage::decode(alloc, message_type, bytes)?;
    let value = Value::I32(7);
    let descriptor = message.descriptor()?;
    if let Some(field) = descriptor.get_field(number)? {
        if value.is_valid_for_field(&field) {
            *message.get_field_by_number_mut(alloc, number)? = value;
        }
    }
    Ok(message.encode_to_vec(alloc)?)
}

/// Writes a value where the field of a number lends its own, if it fits that field: the message is as where it was set. Whether
/// it fits, or nothing where no field has the number; where it does not, nothing changes.
pub fn put_through(
    alloc: Global,
    message: &mut DynamicMessage,
    number: u32,
    value: Value,
) -> Result<Option<bool>, AllocError>
    ensures found { IfOk result (λ answer. IfSome answer (λ _. is_field_number (message_type_of message.old) number ≡ true)) }
    ensures missing { IfOk result
        (λ answer. IfNone answer
        ((field : FieldDescriptor) → DescribesField (message_type_of message.old) number field → ⊥)) }
    ensures fits { IfOk result (λ answer. IfSome answer (λ fits. fits ≡ takes_at (message_type_of message.old) number value)) }
    ensures sets { IfOk result (λ answer. IfSome answer (λ fits. IsTrue fits → Sets (Some number) value message.old message.new)) }
    ensures unchanged { IfOk result (λ answer. IfNone answer (message.new ≡ message.old)) }
    ensures refused { IfOk result (λ answer. IfSome answer (λ fits. fits ≡ false → message.new ≡ message.old)) }
    ensures err { OnErr result (message.new ≡ message.old) }
{
    laws::number_found();
    let descriptor = message.descriptor()?;
    let Some(field) = descriptor.get_field(number)? else {
        return Ok(None);
    };
    if !value.is_valid_for_field(&field) {
        return Ok(Some(false));
    }
    match message.get_field_by_number_mut(alloc, number) {
        Ok(lent) => *lent = value,
        Err(_) => return Err(AllocError),
    }
    Ok(Some(true))
}

/// Reads, writes 7 where an extension lends its value, if the extension is the message's own and takes 7, and writes.
pub fn write_through_extension_and_write(
    alloc: Global,
    message_type: MessageDescriptor,
    bytes: &[u8],
    extension: &ExtensionDescriptor,
) -> Result<Vec<u8>, ClientError> {
    let mut message = DynamicMessage::decode(alloc, message_type, bytes)?;
    let value = Value::I32(7);
    if message.owns_extension(extension) && value.is_valid_for_extension(extension) {
        *message.get_extension_mut(alloc, extension)? = value;
    }
    Ok(message.encode_to_vec(alloc)?)
}
