//! Ways to name a field, and what is asked of it and done to it by each.

use prost_reflect::{DynamicMessage, ExtensionDescriptor, FieldDescriptor, Value};
use prost_reflect_samples::leaked;
use std::alloc::{AllocError, Global};
use std::borrow::Cow;
use std::test::Fail;

/// A field by its number, its name or its descriptor, or an extension. One that is not the message's own is answered as none.
#[derive(Clone, Copy)]
pub(crate) enum Named<'a> {
    Number(u32),
    Name(&'a str),
    Field(&'a FieldDescriptor),
    Extension(&'a ExtensionDescriptor),
}

/// The number, as a value.
pub(crate) fn int(alloc: Global, number: i32) -> Result<&'static Value, AllocError> {
    Ok(leaked(alloc, Value::I32(number))?)
}

/// Whether the field or the extension is the message's own, where its descriptor names it.
pub(crate) fn owns(message: &DynamicMessage, named: Named<'_>) -> bool {
    match named {
        Named::Number(_) | Named::Name(_) => true,
        Named::Field(field) => message.owns_field(field),
        Named::Extension(extension) => message.owns_extension(extension),
    }
}

/// Whether the message has it.
pub(crate) fn has(message: &DynamicMessage, named: Named<'_>) -> bool {
    match named {
        Named::Number(number) => message.has_field_by_number(number),
        Named::Name(name) => message.has_field_by_name(name),
        Named::Field(field) => message.owns_field(field) && message.has_field(field),
        Named::Extension(extension) => {
            message.owns_extension(extension) && message.has_extension(extension)
        }
    }
}

/// Whether the value that is shown is this one, and is lent if it is stored.
fn is_shown(found: &Cow<'_, Value>, value: &Value, is_stored: bool) -> bool {
    match found {
        Cow::Borrowed(found) => is_stored && **found == *value,
        Cow::Owned(found) => !is_stored && *found == *value,
    }
}

/// The same of a value that may not be there.
fn is_found(found: &Option<Cow<'_, Value>>, value: &Value, is_stored: bool) -> bool {
    match found {
        Some(found) => is_shown(found, value, is_stored),
        None => false,
    }
}

/// Whether the message shows the value, and lends it if it is stored.
pub(crate) fn shows(
    alloc: Global,
    message: &DynamicMessage,
    named: Named<'_>,
    value: &Value,
    is_stored: bool,
) -> Result<bool, AllocError> {
    match named {
        Named::Number(number) => {
            let found = message.get_field_by_number(alloc, number)?;
            Ok(is_found(&found, value, is_stored))
        }
        Named::Name(name) => {
            let found = message.get_field_by_name(alloc, name)?;
            Ok(is_found(&found, value, is_stored))
        }
        Named::Field(field) => Ok(
            message.owns_field(field)
                && is_shown(&message.get_field(alloc, field)?, value, is_stored),
        ),
        Named::Extension(extension) => Ok(
            message.owns_extension(extension)
                && is_shown(&message.get_extension(alloc, extension)?, value, is_stored),
        ),
    }
}

/// Takes the value.
pub(crate) fn take(message: &mut DynamicMessage, named: Named<'_>) -> Option<Value> {
    match named {
        Named::Number(number) => message.take_field_by_number(number),
        Named::Name(name) => message.take_field_by_name(name),
        Named::Field(field) => {
            if message.owns_field(field) {
                message.take_field(field)
            } else {
                None
            }
        }
        Named::Extension(extension) => {
            if message.owns_extension(extension) {
                message.take_extension(extension)
            } else {
                None
            }
        }
    }
}

/// Whether it takes the value, by the call that refuses others; an extension is asked first.
pub(crate) fn takes(
    message: &mut DynamicMessage,
    named: Named<'_>,
    value: &Value,
) -> Result<bool, AllocError> {
    match named {
        Named::Number(number) => {
            Ok(
                message
                    .try_set_field_by_number(number, value.clone()?)
                    .is_ok(),
            )
        }
        Named::Name(name) => Ok(message.try_set_field_by_name(name, value.clone()?).is_ok()),
        Named::Field(field) => Ok(
            message.owns_field(field) && message.try_set_field(field, value.clone()?).is_ok(),
        ),
        Named::Extension(extension) => Ok(
            message.owns_extension(extension)
                && value.is_valid_for_extension(extension)
                && message.set_extension(extension, value.clone()?).is_ok(),
        ),
    }
}

/// Whether it takes the number, by the calls that are made once it is known to: where it was cleared, and by a name over a value
/// too.
pub(crate) fn takes_known(message: &mut DynamicMessage, named: Named<'_>, number: i32) -> bool {
    match named {
        Named::Number(at) => {
            if message
                .try_set_field_by_number(at, Value::I32(number))
                .is_err()
            {
                return false;
            }
            message.clear_field_by_number(at);
            message.set_field_by_number(at, Value::I32(number)).is_ok()
        }
        Named::Name(name) => {
            if message
                .try_set_field_by_name(name, Value::I32(number))
                .is_err()
                || message.set_field_by_name(name, Value::I32(number)).is_err()
                || message
                    .try_set_field_by_name(name, Value::I32(number))
                    .is_err()
            {
                return false;
            }
            message.clear_field_by_name(name);
            message.set_field_by_name(name, Value::I32(number)).is_ok()
        }
        Named::Field(field) => {
            message.owns_field(field)
                && Value::I32(number).is_valid_for_field(field)
                && message.set_field(field, Value::I32(number)).is_ok()
        }
        Named::Extension(extension) => {
            message.owns_extension(extension)
                && Value::I32(number).is_valid_for_extension(extension)
                && message.set_extension(extension, Value::I32(number)).is_ok()
        }
    }
}

/// Whether the value that is lent for writing is the first, in whose place the second is put.
fn replaces(lent: &mut Value, first: &Value, second: &Value) -> Result<bool, AllocError> {
    let is_first = *lent == *first;
    *lent = second.clone()?;
    Ok(is_first)
}

/// Whether the message lends the first value for writing, in whose place the second is put.
pub(crate) fn lends(
    alloc: Global,
    message: &mut DynamicMessage,
    named: Named<'_>,
    first: &Value,
    second: &Value,
) -> Result<bool, Fail> {
    match named {
        Named::Number(number) => {
            Ok(replaces(
                message.get_field_by_number_mut(alloc, number)?,
                first,
                second,
            )?)
        }
        Named::Name(name) => Ok(replaces(
            message.get_field_by_name_mut(alloc, name)?,
            first,
            second,
        )?),
        Named::Field(field) => Ok(
            message.owns_field(field)
                && replaces(message.get_field_mut(alloc, field)?, first, second)?,
        ),
        Named::Extension(extension) => Ok(
            message.owns_extension(extension)
                && replaces(message.get_extension_mut(alloc, extension)?, first, second)?,
        ),
    }
}

/// The same of two numbers.
pub(crate) fn lends_numbers(
    alloc: Global,
    message: &mut DynamicMessage,
    named: Named<'_>,
    (first, second): (i32, i32),
) -> Result<bool, Fail> {
    let (first, second) = (int(alloc, first)?, int(alloc, second)?);
    lends(alloc, message, named, first, second)
}

/// Clears it.
pub(crate) fn clear(message: &mut DynamicMessage, named: Named<'_>) {
    match named {
        Named::Number(number) => message.clear_field_by_number(number),
        Named::Name(name) => message.clear_field_by_name(name),
        Named::Field(field) => {
            if message.owns_field(field) {
                message.clear_field(field);
            }
        }
        Named::Extension(extension) => {
            if message.owns_extension(extension) {
                message.clear_extension(extension);
            }
        }
    }
}
