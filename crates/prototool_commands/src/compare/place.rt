//! Where a fault stands, by the names of fields.

use crate::types::{kind_at, message_inside, push_known_name};
use prost_reflect::{MessageDescriptor, ReductionFault};
use std::alloc::AllocError;

/// Appends the place of a fault of two types, and what differs there: the names of the fields that lead to it, joined by
/// dots, and the number of the field at fault.
pub fn push_fault(
    text: &mut String,
    older: &MessageDescriptor,
    newer: &MessageDescriptor,
    fault: &ReductionFault,
) -> Result<(), AllocError> {
    let mut at = older.clone()?;
    let mut other = newer.clone()?;
    for number in fault.path() {
        push_name(text, &at, &other, *number)?;
        text.push_str(if fault.number().is_some() { "." } else { " " })?;
        at = message_behind(at, *number)?;
        other = message_behind(other, *number)?;
    }
    if let Some(number) = fault.number() {
        push_name(text, &at, &other, number)?;
        write!(text, " ({number}) ")?;
    }
    text.push_str(fault.kind().as_str())
}

/// Appends the name of the field of a number, or that of an extension in brackets: of the older type, or of the newer one
/// where the older one has no such number.
fn push_name(
    text: &mut String,
    older: &MessageDescriptor,
    newer: &MessageDescriptor,
    number: u32,
) -> Result<(), AllocError> {
    if push_known_name(text, older, number)? {
        return Ok(());
    }
    push_known_name(text, newer, number)?;
    Ok(())
}

/// The message type of the values of the field or extension of a number; the type itself where it has none.
fn message_behind(
    message: MessageDescriptor,
    number: u32,
) -> Result<MessageDescriptor, AllocError> {
    let Some(kind) = kind_at(&message, number)? else {
        return Ok(message);
    };
    Ok(message_inside(kind)?.unwrap_or(message))
}
