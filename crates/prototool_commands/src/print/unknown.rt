//! The text of fields whose types are not known.

use crate::print::fields::fields_in;
use crate::print::text::Text;
use prost_reflect::{UnknownField, UnknownFieldValue};
use std::alloc::AllocError;

/// How many levels of messages are looked for in bytes that may be messages.
pub const GUESSES: u32 = 10;

/// Appends a field whose type is not known. Bytes that read as fields are printed as a message, in so many levels.
#[cycle(guessing)]
pub fn push_unknown(text: &mut Text, field: &UnknownField, guesses: u32) -> Result<(), AllocError> {
    let Some(fewer) = guesses.checked_sub(1) else {
        return push_plain(text, field);
    };
    match field.value() {
        UnknownFieldValue::Group(fields) => {
            push_fields(text, field.number(), fields.iter().as_slice(), fewer)
        }
        UnknownFieldValue::LengthDelimited(bytes) => {
            match fields_in(text.allocator(), bytes.as_slice(), guesses)? {
                Some(fields) => push_fields(text, field.number(), fields.as_slice(), fewer),
                None => push_plain(text, field),
            }
        }
        _ => push_plain(text, field),
    }
}

/// Appends a message or a group of these fields, under a number.
#[cycle(guessing)]
fn push_fields(
    text: &mut Text,
    number: u32,
    fields: &[UnknownField],
    guesses: u32,
) -> Result<(), AllocError> {
    text.open(number)?;
    for field in fields {
        push_unknown(text, field, guesses)?;
    }
    text.close()
}

/// Appends a field whose type is not known, with bytes as they are.
fn push_plain(text: &mut Text, field: &UnknownField) -> Result<(), AllocError> {
    if let UnknownFieldValue::Group(fields) = field.value() {
        text.open(field.number())?;
        for field in fields.iter() {
            push_plain(text, field)?;
        }
        return text.close();
    }
    text.begin(field.number())?;
    text.push(": ")?;
    push_payload(text, field.value())?;
    text.push("\n")
}

/// Appends what an unknown field has, if it is no group.
fn push_payload(text: &mut Text, value: &UnknownFieldValue) -> Result<(), AllocError> {
    let alloc = text.allocator();
    match value {
        UnknownFieldValue::Varint(x) => text.push(*x),
        UnknownFieldValue::ThirtyTwoBit(x) => {
            text.push(format!(in alloc; "0x{:08x}", u32::from_le_bytes(*x))?)
        }
        UnknownFieldValue::SixtyFourBit(x) => {
            text.push(format!(in alloc; "0x{:016x}", u64::from_le_bytes(*x))?)
        }
        UnknownFieldValue::LengthDelimited(bytes) => text.push_quoted(bytes.as_slice()),
        UnknownFieldValue::Group(_) => Ok(()),
    }
}
