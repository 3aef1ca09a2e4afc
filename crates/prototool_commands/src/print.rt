//! Messages in protobuf's text format, as `protoc --decode` and `protoc --decode_raw` print them.

mod decimal;
mod fields;
mod float;
mod leftover;
mod message;
mod scalar;
mod text;
mod unknown;
mod written;

use crate::refusal::Refusal;
use fields::fields_in;
pub use float::{double_text, float_text};
use message::{push_entry, push_message};
use prost_reflect::{DynamicMessage, MessageDescriptor, RECURSION_LIMIT, UnknownField};
use std::alloc::{AllocError, Global};
use text::Text;
use unknown::{GUESSES, push_unknown};

/// The text of the message of the type that the bytes are the encoding of.
///
/// # Errors
///
/// `Decode` if the bytes are no such message, or `Memory`.
pub fn message_text(
    alloc: Global,
    descriptor: MessageDescriptor,
    bytes: &[u8],
) -> Result<String, Refusal> {
    let is_entry = descriptor.is_map_entry();
    let message = DynamicMessage::decode(alloc, descriptor, bytes)?;
    let fields = fields_in(alloc, bytes, RECURSION_LIMIT)?;
    let written = fields.as_ref().map(|fields| fields.as_slice());
    let mut text = Text::new(alloc, 0);
    if is_entry {
        push_entry(&mut text, &message, written)?;
    } else {
        push_message(&mut text, &message, written)?;
    }
    Ok(text.into_string())
}

/// The text of a message of a type that is not known, field by field in the order of the bytes.
///
/// # Errors
///
/// `Decode` if the bytes are no fields, or `Memory`.
pub fn raw_text(alloc: Global, bytes: &[u8]) -> Result<String, Refusal> {
    let mut text = Text::new(alloc, 0);
    let mut cursor = bytes;
    for _ in 0..bytes.len() {
        if cursor.is_empty() {
            break;
        }
        let field = UnknownField::decode(alloc, &mut cursor, RECURSION_LIMIT)?;
        push_unknown(&mut text, &field, GUESSES)?;
    }
    Ok(text.into_string())
}
