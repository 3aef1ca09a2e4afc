//! What a message has, what it shows of its fields, and what it is asked as a whole.

ghost use Rattle.std.specs.Prelude.{◌≡◌, ◌↔◌, false, IfOk, IsTrue};
ghost use Rattle.prost_reflect_wire.specs.Typing.{encodable};
ghost use Rattle.prost_reflect_dynamic.specs.Access.{IsOwnField, Shows, has_at, number_of};
ghost use Rattle.prost_reflect_dynamic.specs.DeepTypes.{all_typed};
ghost use Rattle.prost_reflect_dynamic.specs.ExtensionAccess.{IsOwnExtension, extension_number};
ghost use Rattle.prost_reflect_dynamic.specs.Same.{equal_messages};
ghost use Rattle.prost_reflect_dynamic.specs.Stored.{message_stored};
ghost use Rattle.prost_reflect_dynamic.specs.UnknownLists.{all_unknown, unknown_left};
ghost use Rattle.prost_reflect_dynamic.specs.ValueLists.{fields_left, had_pairs};
ghost use Rattle.prost_reflect_dynamic.specs.View.{content_of, message_type_of, stored_in};

use prost_reflect_dynamic::{
    DynamicMessage, ExtensionDescriptor, FieldDescriptor, Fields, UnknownFields, Value,
};
use std::alloc::{AllocError, Global};
use std::borrow::Cow;

/// Whether a field is one of the message's own type.
pub fn owns(message: &DynamicMessage, field: &FieldDescriptor) -> bool
    ensures { IsTrue result ↔ IsOwnField (message_type_of message.now) field.now }
{
    message.owns_field(field)
}

/// Whether the message has a value of a field. A default without presence is none, nor is an empty list or map.
pub fn has(message: &DynamicMessage, field: &FieldDescriptor) -> bool
    requires { IsOwnField (message_type_of message.now) field.now }
    ensures { result ≡ has_at (number_of field.now) (content_of message.now) }
{
    message.has_field(field)
}

/// Whether the message has a value of an extension.
pub fn has_extended(message: &DynamicMessage, extension: &ExtensionDescriptor) -> bool
    requires { IsOwnExtension (message_type_of message.now) extension.now }
    ensures { result ≡ has_at (extension_number extension.now) (content_of message.now) }
{
    message.has_extension(extension)
}

/// The value of a field: the stored one, lent, or else the default.
///
/// # Errors
///
/// `AllocError` if the default needs memory and memory runs out.
pub fn get<'a>(
    alloc: Global,
    message: &'a DynamicMessage,
    field: &FieldDescriptor,
) -> Result<Cow<'a, Value>, AllocError>
    requires { IsOwnField (message_type_of message.now) field.now }
    ensures { IfOk result (Shows message.now (number_of field.now)) }
{
    message.get_field(alloc, field)
}

/// The fields that the message has, in ascending number, each with its value.
pub fn fields_had(message: &DynamicMessage) -> Fields<'_>
    ensures { fields_left result ≡ had_pairs false message.now }
{
    message.fields()
}

/// The unknown fields of the message, in ascending number, also the numbers that its closed enums do not declare.
pub fn unknown_had(message: &DynamicMessage) -> UnknownFields<'_>
    ensures { unknown_left result ≡ all_unknown (stored_in message.now) }
{
    message.unknown_fields()
}

/// Whether each value that is stored fits its field, in the message and in every message inside.
pub fn may_be_written(message: &DynamicMessage) -> bool
    ensures { result ≡ encodable (content_of message.now) }
{
    message.is_encodable()
}

/// Whether each message inside is of its field's type, at every depth.
pub fn is_typed(message: &DynamicMessage) -> bool
    ensures { result ≡ all_typed (message_stored message.now) }
{
    message.is_typed()
}

/// Whether two messages are of one type and store the same.
pub fn store_the_same(first: &DynamicMessage, second: &DynamicMessage) -> bool
    ensures { result ≡ equal_messages first.now second.now }
{
    first == second
}
