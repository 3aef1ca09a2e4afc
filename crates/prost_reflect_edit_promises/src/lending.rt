//! What a message gives away and lends for writing of what is inside: each part is as the message is, and nests less deep; and
//! where a message inside is changed, what it keeps the message around it keeps. What stands there is promised in `editing`.

ghost use Rattle.std.specs.Prelude.{◌≡◌, ◌<◌, is_some, IfErr, IfOk, IfSome, Some};
ghost use Rattle.prost_reflect_dynamic.specs.Access.{IsOwnField, had_at, number_declared, number_of};
ghost use Rattle.prost_reflect_dynamic.specs.Depths.{LendsInside};
ghost use Rattle.prost_reflect_dynamic.specs.Edits.{IsPart, LeavesMessage};
ghost use Rattle.prost_reflect_dynamic.specs.ExtensionAccess.{IsOwnExtension, extension_number};
ghost use Rattle.prost_reflect_dynamic.specs.Lending.{RefusesLoan};
ghost use Rattle.prost_reflect_dynamic.specs.View.{message_type_of};
ghost use Rattle.prost_reflect_dynamic.specs.declared.message.DynamicMessage.{size-DynamicMessage};
ghost use Rattle.prost_reflect_dynamic.specs.declared.value.Value.{size-Value};

use prost_reflect_dynamic::{
    DynamicMessage, ExtensionDescriptor, FieldDescriptor, GetFieldError, Value,
};
use std::alloc::{AllocError, Global};

/// Takes the value of a field, as a part of the message. Where the message could be written, the value fits the field and the
/// messages in it can be written; where the message was well-stored, so are they; and where the messages inside it were of their
/// fields' types, so are they.
pub fn take_part(message: &mut DynamicMessage, field: &FieldDescriptor) -> Option<Value>
    requires { IsOwnField (message_type_of message.old) field.now }
    ensures found { is_some result ≡ is_some (had_at (number_of field.now) message.old) }
    ensures part { IfSome result (IsPart message.old (number_of field.now)) }
{
    message.take_field(field)
}

/// Takes the value of an extension: it nests less deep than the message that had it.
pub fn take_inside(message: &mut DynamicMessage, extension: &ExtensionDescriptor) -> Option<Value>
    requires { IsOwnExtension (message_type_of message.old) extension.now }
    ensures found { is_some result ≡ is_some (had_at (extension_number extension.now) message.old) }
    ensures inside { IfSome result (λ value. size-Value value < size-DynamicMessage message.old) }
{
    message.take_extension(extension)
}

/// Lends the value of the field of a number for writing, as a part of the message.
///
/// # Errors
///
/// `NotFound` if no field has the number, `OutOfMemory` if memory runs out.
pub fn lend_part(
    alloc: Global,
    message: &mut DynamicMessage,
    number: u32,
) -> Result<&mut Value, GetFieldError>
    ensures part { IfOk result (λ lent. IsPart message.old number lent.now) }
    ensures refused { IfErr result (RefusesLoan (number_declared (message_type_of message.old) number)) }
{
    message.get_field_by_number_mut(alloc, number)
}

/// Lends the value of an extension for writing. Where the message has the extension, it nests less deep than the message; and
/// where what is left there does, the message gets no deeper.
///
/// # Errors
///
/// `AllocError` if out of memory.
pub fn lend_inside<'a>(
    alloc: Global,
    message: &'a mut DynamicMessage,
    extension: &ExtensionDescriptor,
) -> Result<&'a mut Value, AllocError>
    requires { IsOwnExtension (message_type_of message.old) extension.now }
    ensures { IfOk result (λ lent. LendsInside (Some (extension_number extension.now)) message.old lent.now) }
{
    message.get_extension_mut(alloc, extension)
}

/// Lends the value of a field for writing. Where it is a message, and that is changed and can still be written, is still
/// well-stored, or its messages are still of their fields' types, then the same is still so of the message around it.
///
/// # Errors
///
/// `AllocError` if out of memory.
pub fn lend_message<'a>(
    alloc: Global,
    message: &'a mut DynamicMessage,
    field: &FieldDescriptor,
) -> Result<&'a mut Value, AllocError>
    requires { IsOwnField (message_type_of message.old) field.now }
    ensures { IfOk result (λ lent. LeavesMessage (Some (number_of field.now)) message.old lent.now) }
{
    message.get_field_mut(alloc, field)
}
