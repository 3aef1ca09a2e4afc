//! The fields that one of two message types alone has.

use prost_reflect::MessageDescriptor;
use std::alloc::AllocError;

/// Appends a line for each field or extension of the older type whose number the newer type has not, and then one for each
/// of the newer type whose number the older type has not.
pub fn push_changes(
    text: &mut String,
    older: &MessageDescriptor,
    newer: &MessageDescriptor,
) -> Result<(), AllocError> {
    push_lacking(text, older, newer, "removed")?;
    push_lacking(text, newer, older, "added")
}

/// Appends a line, with what became of it, for each field or extension of a type whose number the other type has not.
fn push_lacking(
    text: &mut String,
    message: &MessageDescriptor,
    other: &MessageDescriptor,
    change: &str,
) -> Result<(), AllocError> {
    for field in message.fields() {
        let field = field?;
        if !has_number(other, field.number())? {
            write!(text, "  {} ({}) {change}\n", field.name(), field.number())?;
        }
    }
    push_lacking_extensions(text, message, other, change)
}

/// Appends a line for each extension of a type whose number the other type has not.
fn push_lacking_extensions(
    text: &mut String,
    message: &MessageDescriptor,
    other: &MessageDescriptor,
    change: &str,
) -> Result<(), AllocError> {
    for extension in message.extensions() {
        let extension = extension?;
        let number = extension.number();
        if !has_number(other, number)? {
            write!(text, "  [{}] ({number}) {change}\n", extension.full_name())?;
        }
    }
    Ok(())
}

/// Whether a field or an extension of the type has the number.
fn has_number(message: &MessageDescriptor, number: u32) -> Result<bool, AllocError> {
    Ok(message.get_field(number)?.is_some() || message.get_extension(number)?.is_some())
}
