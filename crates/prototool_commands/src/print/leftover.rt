//! The text of the unknown fields of messages whose types are known.

use crate::print::fields::varints_in;
use crate::print::text::Text;
use crate::print::unknown::{GUESSES, push_unknown};
use crate::print::written::Written;
use crate::types::kind_at;
use prost_reflect::{
    DynamicMessage, EnumDescriptor, MessageDescriptor, UnknownField, UnknownFieldValue,
};
use std::alloc::AllocError;

/// How many numbers 32 bits count.
const WORD: u64 = 0x1_0000_0000;

/// The least of 32 bits that counts as negative.
const NEGATIVE: u64 = 0x8000_0000;

/// What is added to the 32 bits of a negative number, to have it in 64.
const SIGN: u64 = 0xffff_ffff_0000_0000;

/// Appends the unknown fields of a message: in the order of its bytes, or in ascending number where that is not known.
pub fn push_leftover(
    text: &mut Text,
    message: &DynamicMessage,
    written: Written<'_>,
) -> Result<(), AllocError> {
    let descriptor = message.descriptor()?;
    for field in written.unwrap_or(&[]) {
        push_if_unknown(text, &descriptor, field)?;
    }
    for field in message.unknown_fields() {
        if written.is_none() || is_entry(&descriptor, field.number())? {
            push_unknown(text, field, GUESSES)?;
        }
    }
    Ok(())
}

/// Whether the number is that of a map.
fn is_entry(descriptor: &MessageDescriptor, number: u32) -> Result<bool, AllocError> {
    match descriptor.get_field(number)? {
        Some(field) => Ok(field.is_map()),
        None => Ok(false),
    }
}

/// Appends a field of a message of the type, if the type does not know it.
fn push_if_unknown(
    text: &mut Text,
    descriptor: &MessageDescriptor,
    field: &UnknownField,
) -> Result<(), AllocError> {
    match kind_at(descriptor, field.number())? {
        Some(kind) => match kind.as_enum() {
            Some(known) if known.is_closed() => push_undeclared(text, known, field),
            _ => Ok(()),
        },
        None => push_unknown(text, field, GUESSES),
    }
}

/// Appends those numbers of a field that its enum does not declare: of a packed list the varints as they are, and else what
/// their low 32 bits count.
fn push_undeclared(
    text: &mut Text,
    known: &EnumDescriptor,
    field: &UnknownField,
) -> Result<(), AllocError> {
    match field.value() {
        UnknownFieldValue::Varint(varint) => {
            push_if_undeclared(text, known, field.number(), with_sign(*varint))
        }
        UnknownFieldValue::LengthDelimited(bytes) => {
            for varint in varints_in(text.allocator(), bytes.as_slice())? {
                push_if_undeclared(text, known, field.number(), varint)?;
            }
            Ok(())
        }
        _ => Ok(()),
    }
}

/// Appends a number of an enum, if the enum does not declare it.
fn push_if_undeclared(
    text: &mut Text,
    known: &EnumDescriptor,
    number: u32,
    varint: u64,
) -> Result<(), AllocError> {
    let low = (varint % WORD) as u32;
    let value = i32::from_le_bytes(low.to_le_bytes());
    if known.get_value(value)?.is_some() {
        return Ok(());
    }
    text.begin(number)?;
    text.push(": ")?;
    text.push(varint)?;
    text.push("\n")
}

/// The low 32 bits of a varint, with their sign in 64 bits.
fn with_sign(varint: u64) -> u64 {
    let low = varint % WORD;
    if low < NEGATIVE { low } else { low + SIGN }
}
