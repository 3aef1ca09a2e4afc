//! The types of the values that fields and extensions have.

ghost use Rattle.std.specs.Prelude.{◌≡◌, IfOk, Some, option_map, true};
ghost use Rattle.prost_reflect_dynamic.specs.Named.{message_row_named};
ghost use Rattle.prost_reflect_dynamic.specs.declared.descriptor.kind.Kind.TheVariants.{Message};
ghost use Rattle.prototool_commands.specs.Naming.{HasInside};

use prost_reflect::{Kind, MessageDescriptor};
use std::alloc::AllocError;

/// The kind of the field or of the extension of the number, or none where the message type has neither.
///
/// # Errors
///
/// `AllocError` if out of memory.
pub fn kind_at(descriptor: &MessageDescriptor, number: u32) -> Result<Option<Kind>, AllocError> {
    if let Some(field) = descriptor.get_field(number)? {
        return Ok(Some(field.kind()?));
    }
    match descriptor.get_extension(number)? {
        Some(extension) => Ok(Some(extension.kind()?)),
        None => Ok(None),
    }
}

/// The message type of the values of a kind, or of the values of a map whose entries are of the kind; none where these are no
/// messages.
///
/// # Errors
///
/// `AllocError` if out of memory.
pub fn message_inside(kind: Kind) -> Result<Option<MessageDescriptor>, AllocError>
    ensures { IfOk result (HasInside kind) }
{
    match kind {
        Kind::Message(message) => message_within(message),
        _ => Ok(None),
    }
}

/// The message type itself, or that of the values in a map, if the type is that of the map's entries.
fn message_within(message: MessageDescriptor) -> Result<Option<MessageDescriptor>, AllocError>
    ensures { IfOk result (HasInside (Message message)) }
{
    if message.is_map_entry() {
        return message_of_values(message);
    }
    Ok(Some(message))
}

/// The message type of the values in a map, if they are messages.
fn message_of_values(entry: MessageDescriptor) -> Result<Option<MessageDescriptor>, AllocError>
    requires { option_map (λ message. message.is_map_entry) (message_row_named entry) ≡ Some true }
    ensures { IfOk result (HasInside (Message entry)) }
{
    let value = entry.map_entry_value_field()?;
    let kind = value.kind()?;
    match kind {
        Kind::Message(message) => Ok(Some(message)),
        _ => Ok(None),
    }
}

/// Appends the name of the field of a number, or that of an extension in brackets, and answers whether the type has one.
///
/// # Errors
///
/// `AllocError` if out of memory.
pub fn push_known_name(
    text: &mut String,
    message: &MessageDescriptor,
    number: u32,
) -> Result<bool, AllocError> {
    if let Some(field) = message.get_field(number)? {
        text.push_str(field.name())?;
        return Ok(true);
    }
    match message.get_extension(number)? {
        Some(extension) => {
            write!(text, "[{}]", extension.full_name())?;
            Ok(true)
        }
        None => Ok(false),
    }
}
