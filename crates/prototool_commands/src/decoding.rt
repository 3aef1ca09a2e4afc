//! Where bytes stand at fault that a message type does not accept, by the names of fields.

ghost use Rattle.std.specs.Prelude.{◌≡◌, false};
ghost use Rattle.prototool_commands.specs.Refusals.{is_path};

use crate::refusal::Refusal;
use crate::types::{kind_at, push_known_name};
use prost_reflect::{DecodeError, DecodeFault, Kind, MessageDescriptor};
use std::alloc::{AllocError, Global};

/// A refusal to read bytes as a message of the type, with the place of the fault where the bytes have one.
pub fn with_place(
    alloc: Global,
    descriptor: MessageDescriptor,
    bytes: &[u8],
    refusal: Refusal,
) -> Refusal
    ensures { is_path result ≡ is_path refusal }
{
    match refusal {
        Refusal::Decode(error) => refused(alloc, descriptor, bytes, error),
        other => other,
    }
}

/// The refusal of bytes that have a fault.
fn refused(
    alloc: Global,
    descriptor: MessageDescriptor,
    bytes: &[u8],
    error: DecodeError,
) -> Refusal
    ensures { is_path result ≡ false }
{
    let Some(fault) = descriptor.decode_fault(bytes) else {
        return Refusal::Decode(error);
    };
    match place_text(alloc, descriptor, &fault) {
        Ok(place) => Refusal::Message(fault.error(), place),
        Err(_) => Refusal::Memory,
    }
}

/// The offset of a fault, and the names of the fields that it stands in, as `at 12 in user.email`.
fn place_text(
    alloc: Global,
    descriptor: MessageDescriptor,
    fault: &DecodeFault,
) -> Result<String, AllocError> {
    let mut text = format!(in alloc; "at {}", fault.offset())?;
    let mut at = Some(descriptor);
    let mut between = " in ";
    for number in fault.path() {
        text.push_str(between)?;
        at = push_step(&mut text, at, *number)?;
        between = ".";
    }
    Ok(text)
}

/// Appends the name of the field of a number, or the number where the type has none, and gives the message type inside.
fn push_step(
    text: &mut String,
    at: Option<MessageDescriptor>,
    number: u32,
) -> Result<Option<MessageDescriptor>, AllocError> {
    if let Some(message) = &at {
        if push_known_name(text, message, number)? {
            return message_at(message, number);
        }
    }
    write!(text, "{number}")?;
    Ok(None)
}

/// The message type of the field of a number, or none where it has no messages.
fn message_at(
    message: &MessageDescriptor,
    number: u32,
) -> Result<Option<MessageDescriptor>, AllocError> {
    let Some(kind) = kind_at(message, number)? else {
        return Ok(None);
    };
    match kind {
        Kind::Message(inside) => Ok(Some(inside)),
        _ => Ok(None),
    }
}
