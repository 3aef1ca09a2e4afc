//! The fields of messages in the order in which the bytes have them.

use crate::print::fields::fields_in;
use prost_reflect::{FieldDescriptor, RECURSION_LIMIT, UnknownField, UnknownFieldValue};
use std::alloc::{AllocError, Global};

/// The fields of a message in the order of its bytes; none where the order is not known.
pub type Written<'a> = Option<&'a [UnknownField]>;

/// The fields of the messages that a list of the number has, message by message.
pub fn written_each(
    alloc: Global,
    written: Written<'_>,
    number: u32,
) -> Result<Vec<Vec<UnknownField>>, AllocError> {
    let mut messages = Vec::new(alloc);
    for field in written.unwrap_or(&[]) {
        if field.number() == number {
            messages.push(fields_inside(alloc, field)?)?;
        }
    }
    Ok(messages)
}

/// The fields of the one message of the number, which all its records write together; a record of one of the others, which
/// are of the same oneof, begins it anew.
pub fn written_one(
    alloc: Global,
    written: Written<'_>,
    number: u32,
    others: &[u32],
) -> Result<Vec<Vec<UnknownField>>, AllocError> {
    let mut message = Vec::new(alloc);
    for field in written.unwrap_or(&[]) {
        if field.number() == number {
            append(&mut message, fields_inside(alloc, field)?)?;
        } else if others.contains(&field.number()) {
            message.clear();
        }
    }
    let mut messages = Vec::new(alloc);
    if written.is_some() {
        messages.push(message)?;
    }
    Ok(messages)
}

/// The numbers of the fields of the oneof that the field is a member of.
pub fn members_beside(alloc: Global, field: &FieldDescriptor) -> Result<Vec<u32>, AllocError> {
    let mut numbers = Vec::new(alloc);
    if let Some(oneof) = field.containing_oneof()? {
        for member in oneof.fields() {
            numbers.push(member?.number())?;
        }
    }
    Ok(numbers)
}

/// The fields of the message or group that a record has.
fn fields_inside(alloc: Global, field: &UnknownField) -> Result<Vec<UnknownField>, AllocError> {
    match field.value() {
        UnknownFieldValue::LengthDelimited(bytes) => {
            match fields_in(alloc, bytes.as_slice(), RECURSION_LIMIT)? {
                Some(fields) => Ok(fields),
                None => Ok(Vec::new(alloc)),
            }
        }
        UnknownFieldValue::Group(fields) => {
            let mut inside = Vec::new(alloc);
            for field in fields.iter() {
                inside.push(field.clone()?)?;
            }
            Ok(inside)
        }
        _ => Ok(Vec::new(alloc)),
    }
}

/// Appends the fields.
fn append(to: &mut Vec<UnknownField>, fields: Vec<UnknownField>) -> Result<(), AllocError> {
    for field in fields {
        to.push(field)?;
    }
    Ok(())
}
