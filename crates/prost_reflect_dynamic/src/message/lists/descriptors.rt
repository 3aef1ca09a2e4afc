//! The descriptors of fields and extensions by their numbers.

ghost use Rattle.std.specs.Prelude.{◌≡◌, true, false, IfOk};
ghost use Rattle.prost_reflect_fields.specs.Known.{known_of, is_listed};
ghost use Rattle.prost_reflect_dynamic.specs.Access.{IsOwnField, number_of};
ghost use Rattle.prost_reflect_dynamic.specs.ExtensionAccess.{IsOwnExtension, extension_number};

use crate::descriptor::{ExtensionDescriptor, FieldDescriptor, MessageDescriptor};
use prost_reflect_pool::PooledType;
use std::alloc::AllocError;

/// The field of a number of the message type.
pub(super) fn field_at(
    message_type: &PooledType,
    number: u32,
) -> Result<FieldDescriptor, AllocError>
    requires { is_listed false (known_of message_type.now) number ≡ true }
    ensures own { IfOk result (λ field. IsOwnField message_type.now field) }
    ensures number { IfOk result (λ field. number_of field ≡ number) }
{
    let message = MessageDescriptor::of_type(message_type)?;
    match message.get_field(number)? {
        Some(field) => Ok(field),
        None => unreachable!(),
    }
}

/// The extension of a number of the message type.
pub(super) fn extension_at(
    message_type: &PooledType,
    number: u32,
) -> Result<ExtensionDescriptor, AllocError>
    requires { is_listed true (known_of message_type.now) number ≡ true }
    ensures own { IfOk result (λ extension. IsOwnExtension message_type.now extension) }
    ensures number { IfOk result (λ extension. extension_number extension ≡ number) }
{
    let message = MessageDescriptor::of_type(message_type)?;
    match message.get_extension(number)? {
        Some(extension) => Ok(extension),
        None => unreachable!(),
    }
}
