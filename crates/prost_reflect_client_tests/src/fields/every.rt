//! A field and an extension of each kind, merged, listed, asked, taken, set and lent.

use crate::fields::types::{lent, message_type};
use crate::fields::ways::{Named, has, lends, shows, take, takes};
use prost_reflect::{DynamicMessage, MessageDescriptor, Present, Value};
use prost_reflect_samples::every::{Row, extensions, fields};
use prost_reflect_samples::{leaked, sets};
use std::alloc::{AllocError, Global};
use std::test::Fail;

/// Whether the field or the extension is had, taken, set, shown and lent.
fn goes(
    alloc: Global,
    whole: &DynamicMessage,
    empty: &DynamicMessage,
    named: Named<'_>,
) -> Result<bool, Fail> {
    let message = leaked(alloc, whole.clone()?)?;
    let had = has(message, named);
    let Some(value) = take(message, named) else {
        return Ok(false);
    };
    let value: &Value = leaked(alloc, value)?;
    let is_taken = *message == *empty && !has(message, named);
    let is_set = takes(message, named, value)? && *message == *whole;
    let is_shown = shows(alloc, message, named, value, true)?;
    Ok(had && is_taken && is_set && is_shown && lends(alloc, message, named, value, value)?)
}

/// Whether the bytes are merged into a new message of the type as the whole one.
fn merges(
    alloc: Global,
    every: &MessageDescriptor,
    whole: &DynamicMessage,
    bytes: &[u8],
) -> Result<bool, Fail> {
    let mut message = DynamicMessage::new(alloc, every.clone()?);
    message.merge(bytes)?;
    Ok(message == *whole)
}

/// Whether what is present is one field or extension, which has the number.
fn is_present(message: &DynamicMessage, number: u32) -> Result<bool, AllocError> {
    let (mut count, mut all) = (0_usize, true);
    for item in message.present() {
        let present = item?;
        all &= match &present {
            Present::Field(field, _) => field.number() == number,
            Present::Extension(extension, _) => extension.number() == number,
            Present::Unknown(_, _) => false,
        };
        count = count.wrapping_add(1);
    }
    Ok(all && count == 1)
}

/// Whether one field or extension is listed, which has the number.
fn is_listed(message: &DynamicMessage, number: u32) -> Result<bool, AllocError> {
    let (mut count, mut all) = (0_usize, true);
    for item in message.fields() {
        all &= item?.0.number() == number;
        count = count.wrapping_add(1);
    }
    for item in message.extensions() {
        all &= item?.0.number() == number;
        count = count.wrapping_add(1);
    }
    Ok(all && count == 1)
}

/// Whether one field or extension is taken with all of its sort, which has the number, and then nothing is left.
fn gives_all(
    alloc: Global,
    whole: &DynamicMessage,
    empty: &DynamicMessage,
    number: u32,
) -> Result<bool, Fail> {
    let message = leaked(alloc, whole.clone()?)?;
    let (mut count, mut all) = (0_usize, true);
    for (field, value) in message.take_fields(alloc)? {
        all &= field.number() == number && value.is_valid_for_field(&field);
        count = count.wrapping_add(1);
    }
    for (extension, value) in message.take_extensions(alloc)? {
        all &= extension.number() == number && value.is_valid_for_extension(&extension);
        count = count.wrapping_add(1);
    }
    Ok(all && count == 1 && *message == *empty)
}

/// Whether the row's field or extension is merged, is all that is listed and present, and is taken with all others.
fn goes_alone(
    alloc: Global,
    every: &MessageDescriptor,
    whole: &DynamicMessage,
    empty: &DynamicMessage,
    row: &Row,
) -> Result<bool, Fail> {
    Ok(
        merges(alloc, every, whole, row.1)?
            && is_listed(whole, row.0)?
            && is_present(whole, row.0)?
            && gives_all(alloc, whole, empty, row.0)?,
    )
}

/// Whether the row's field goes in each way, or its extension.
fn row_goes(alloc: Global, every: &MessageDescriptor, row: &Row) -> Result<bool, Fail> {
    let whole = leaked(alloc, DynamicMessage::decode(alloc, every.clone()?, row.1)?)?;
    let empty = leaked(alloc, DynamicMessage::new(alloc, every.clone()?))?;
    if !goes_alone(alloc, every, whole, empty, row)? {
        return Ok(false);
    }
    match every.get_field(row.0)? {
        Some(field) => {
            let field = leaked(alloc, field)?;
            for named in [
                Named::Number(row.0),
                Named::Name(field.name()),
                Named::Field(field),
            ] {
                if !goes(alloc, whole, empty, named)? {
                    return Ok(false);
                }
            }
            Ok(true)
        }
        None => {
            let extension = lent(alloc, every.get_extension(row.0))?;
            goes(alloc, whole, empty, Named::Extension(extension))
        }
    }
}

#[test]
fn fields_and_extensions_of_each_kind_go_in_each_way(rt: HostRuntime) -> Result<(), Fail> {
    let every = message_type(rt.alloc(), sets::every(), "e.Every")?;
    for row in fields() {
        assert!(rt; row_goes(rt.alloc(), every, row)?, "{}", row.0);
    }
    for row in extensions() {
        assert!(rt; row_goes(rt.alloc(), every, row)?, "{}", row.0);
    }
    Ok(())
}
