//! What a message has and shows after a change: a field that was changed does not touch another one, and what was cleared is
//! gone.

ghost use Rattle.std.specs.Prelude.{◌≡◌, ◌≢◌, ◌&&◌, false, is_some, IfErr, IfOk, IfSome, IsOk};
ghost use Rattle.prost_reflect_fields.specs.Known.{known_of, are_siblings};
ghost use Rattle.prost_reflect_dynamic.specs.Access.{has_at, is_field_number, number_declared, ShowsHeld};
ghost use Rattle.prost_reflect_dynamic.specs.Setting.{RefusesFound};
ghost use Rattle.prost_reflect_dynamic.specs.View.{content_of, message_type_of};

use crate::programs::error::ClientError;
use prost_reflect::{DynamicMessage, SetFieldError, Value};
use std::alloc::{AllocError, Global};
use std::borrow::Cow;

/// Clears the field of a number. The message has that of another number where it had it.
pub fn has_another_after_clear(message: &mut DynamicMessage, number: u32, other: u32) -> bool
    ensures before { other ≢ number → has_at other (content_of message.new) ≡ has_at other (content_of message.old) }
    ensures result { other ≢ number
        → result ≡ (is_field_number (message_type_of message.old) other && has_at other (content_of message.old)) }
{
    message.clear_field_by_number(number);
    message.has_field_by_number(other)
}

/// Sets the field of a number. The message has that of another number, which is of no oneof with it, where it had it.
pub fn has_another_after_set(
    message: &mut DynamicMessage,
    number: u32,
    value: Value,
    other: u32,
) -> Result<bool, ClientError>
    ensures before { other ≢ number → are_siblings (known_of (message_type_of message.old)) number other ≡ false
        → IfOk result (λ _. has_at other (content_of message.new) ≡ has_at other (content_of message.old)) }
    ensures result { other ≢ number → are_siblings (known_of (message_type_of message.old)) number other ≡ false
        → IfOk result
        (λ had. had
        ≡ (is_field_number (message_type_of message.old) other && has_at other (content_of message.old))) }
{
    message.try_set_field_by_number(number, value)?;
    Ok(message.has_field_by_number(other))
}

/// What the field of a number shows, stored or the default; nothing where no field has the number.
fn value_shown(
    alloc: Global,
    message: &DynamicMessage,
    number: u32,
) -> Result<Option<Cow<'_, Value>>, AllocError>
    ensures found { IfOk result (λ found. is_some found ≡ is_field_number (message_type_of message.now) number) }
    ensures missing { is_field_number (message_type_of message.now) number ≡ false → IsOk result }
    ensures shown { IfOk result (λ found. IfSome found (ShowsHeld message.now number)) }
{
    match message.get_field_by_number(alloc, number)? {
        Some(shown) => Ok(Some(shown)),
        None => Ok(None),
    }
}

/// Clears the field of a number. What the field of another one shows: what it showed. Nothing where no field has that number.
pub fn shown_after_clear(
    alloc: Global,
    message: &mut DynamicMessage,
    number: u32,
    other: u32,
) -> Result<Option<Cow<'_, Value>>, AllocError>
    ensures found { IfOk result (λ found. is_some found ≡ is_field_number (message_type_of message.old) other) }
    ensures missing { is_field_number (message_type_of message.old) other ≡ false → IsOk result }
    ensures shown { other ≢ number → IfOk result (λ found. IfSome found (ShowsHeld message.old other)) }
{
    message.clear_field_by_number(number);
    value_shown(alloc, message, other)
}

/// Sets the field of a number. What the field of another one shows, which is of no oneof with it: what it showed. Nothing where
/// no field has that number; and a refusal is that of the set, or memory is out.
pub fn shown_after_set(
    alloc: Global,
    message: &mut DynamicMessage,
    number: u32,
    value: Value,
    other: u32,
) -> Result<Option<Cow<'_, Value>>, SetFieldError>
    ensures found { IfOk result (λ found. is_some found ≡ is_field_number (message_type_of message.old) other) }
    ensures shown { other ≢ number → are_siblings (known_of (message_type_of message.old)) number other ≡ false
        → IfOk result (λ found. IfSome found (ShowsHeld message.old other)) }
    ensures refused { IfErr result
        (RefusesFound (message_type_of message.old) (number_declared (message_type_of message.old) number) value) }
{
    message.try_set_field_by_number(number, value)?;
    Ok(value_shown(alloc, message, other)?)
}

/// Clears all. The message has no field then.
pub fn has_after_clearing_all(message: &mut DynamicMessage, number: u32) -> bool
    ensures { result ≡ false }
{
    message.clear();
    message.has_field_by_number(number)
}

/// Takes all fields. The message has none then.
pub fn has_after_taking_all(
    alloc: Global,
    message: &mut DynamicMessage,
    number: u32,
) -> Result<bool, AllocError>
    ensures { IfOk result (λ had. had ≡ false) }
{
    drop(message.take_fields(alloc)?);
    Ok(message.has_field_by_number(number))
}
