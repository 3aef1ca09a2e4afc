//! What a message and a value show of what is inside: each part is as the message is, and nests less deep. What stands there is
//! promised in `asking`.

ghost use Rattle.std.specs.Prelude.{◌≡◌, ◌<◌, is_some, IfOk, IfSome};
ghost use Rattle.std.specs.Cow.{cow_value};
ghost use Rattle.std.specs.List.{All};
ghost use Rattle.prost_reflect_dynamic.specs.Access.{IsOwnField, number_of};
ghost use Rattle.prost_reflect_dynamic.specs.Depths.{GivesInside, ShownInside};
ghost use Rattle.prost_reflect_dynamic.specs.Edits.{IsPart};
ghost use Rattle.prost_reflect_dynamic.specs.ExtensionAccess.{IsOwnExtension};
ghost use Rattle.prost_reflect_dynamic.specs.ValueLists.{fields_steps};
ghost use Rattle.prost_reflect_dynamic.specs.Variants.{list_in};
ghost use Rattle.prost_reflect_dynamic.specs.View.{message_type_of};
ghost use Rattle.prost_reflect_dynamic.specs.declared.value.Value.{out-Value, size-Value};

use prost_reflect_dynamic::{DynamicMessage, ExtensionDescriptor, FieldDescriptor, Fields, Value};
use std::alloc::{AllocError, Global};
use std::borrow::Cow;

/// The value of a field, as a part of the message. Where the message can be written, the value fits the field and the messages
/// in it can be written; where the message is well-stored, so are they; and where the messages inside it are of their fields'
/// types, so are they.
///
/// # Errors
///
/// `AllocError` if the default needs memory and memory runs out.
pub fn part_shown<'a>(
    alloc: Global,
    message: &'a DynamicMessage,
    field: &FieldDescriptor,
) -> Result<Cow<'a, Value>, AllocError>
    requires { IsOwnField (message_type_of message.now) field.now }
    ensures { IfOk result (λ shown. IsPart message.now (number_of field.now) (cow_value shown)) }
{
    message.get_field(alloc, field)
}

/// The value of an extension: one that is lent as it is stored nests less deep than the message.
///
/// # Errors
///
/// `AllocError` if the default needs memory and memory runs out.
pub fn shown_inside<'a>(
    alloc: Global,
    message: &'a DynamicMessage,
    extension: &ExtensionDescriptor,
) -> Result<Cow<'a, Value>, AllocError>
    requires { IsOwnExtension (message_type_of message.now) extension.now }
    ensures { IfOk result (ShownInside message.now) }
{
    message.get_extension(alloc, extension)
}

/// The fields that the message has, with values that nest less deep than the message.
pub fn fields_inside(message: &DynamicMessage) -> Fields<'_>
    ensures { GivesInside fields_steps message.now result }
{
    message.fields()
}

/// The elements of a list, which nest less deep than it; of another value there are none.
pub fn elements(value: &Value) -> Option<&[Value]>
    ensures found { is_some result ≡ is_some (list_in (out-Value value.now)) }
    ensures inside { IfSome result (λ values. All (λ inside. size-Value inside < size-Value value.now) values.now) }
{
    value.as_list()
}
