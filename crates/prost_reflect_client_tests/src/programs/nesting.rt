//! Recursions over the messages inside of a message, with no measure.

use crate::programs::error::ClientError;
use prost_reflect::{DynamicMessage, Value};
use std::alloc::{AllocError, Global};
use std::borrow::Cow;

/// How many messages there are, in fields and extensions, lists and maps, at every depth.
#[cycle(counting)]
pub fn messages_in(message: &DynamicMessage) -> Result<u32, AllocError> {
    let mut count = 1u32;
    for item in message.fields() {
        let (_, value) = item?;
        count = count.saturating_add(messages_of(value)?);
    }
    for item in message.extensions() {
        let (_, value) = item?;
        count = count.saturating_add(messages_of(value)?);
    }
    Ok(count)
}

#[cycle(counting)]
fn messages_of(value: &Value) -> Result<u32, AllocError> {
    let mut count = 0u32;
    if let Some(message) = value.as_message() {
        count = count.saturating_add(messages_in(message)?);
    }
    if let Some(values) = value.as_list() {
        for value in values {
            count = count.saturating_add(messages_of(value)?);
        }
    }
    if let Some(entries) = value.as_map() {
        for (_, value) in entries {
            count = count.saturating_add(messages_of(value)?);
        }
    }
    Ok(count)
}

/// How deep lists nest.
pub fn list_depth(value: &Value) -> u32 {
    match value {
        Value::List(values) => {
            let mut most = 0u32;
            for value in values {
                most = most.max(list_depth(value));
            }
            most.saturating_add(1)
        }
        _ => 0,
    }
}

/// Clears a field of a name in the message and in each message that fields of another name lead to, one inside of the next.
#[cycle(clearing)]
pub fn clear_along(
    alloc: Global,
    message: &mut DynamicMessage,
    path: &str,
    name: &str,
) -> Result<(), ClientError> {
    if message.has_field_by_name(path) {
        clear_inside(
            alloc,
            message.get_field_by_name_mut(alloc, path)?,
            path,
            name,
        )?;
    }
    message.clear_field_by_name(name);
    Ok(())
}

#[cycle(clearing)]
fn clear_inside(
    alloc: Global,
    value: &mut Value,
    path: &str,
    name: &str,
) -> Result<(), ClientError> {
    let mut done = Ok(());
    match value {
        Value::Message(message) => clear_along(alloc, message, path, name)?,
        Value::List(values) => {
            for value in values.iter_mut() {
                clear_inside(alloc, value, path, name)?;
            }
        }
        Value::Map(entries) => {
            for value in entries.values_mut() {
                if done.is_ok() {
                    done = clear_inside(alloc, value, path, name);
                }
            }
        }
        _ => {}
    }
    done
}

/// Clears a field of a name in the message, and goes then to the message in a field of another name, and so on.
pub fn clear_before(
    alloc: Global,
    message: &mut DynamicMessage,
    path: &str,
    name: &str,
) -> Result<(), ClientError> {
    message.clear_field_by_name(name);
    if message.has_field_by_name(path) {
        if let Value::Message(inside) = message.get_field_by_name_mut(alloc, path)? {
            clear_before(alloc, inside, path, name)?;
        }
    }
    Ok(())
}

/// How many messages stand one inside the next in the fields of a number; each is taken out of the one around it.
pub fn levels_taken(message: &mut DynamicMessage, number: u32) -> u32 {
    let Some(value) = message.take_field_by_number(number) else {
        return 0;
    };
    match value {
        Value::Message(mut inside) => levels_taken(&mut inside, number).saturating_add(1),
        _ => 0,
    }
}

/// How many messages stand one inside the next in the fields of a number, as each shows them.
pub fn levels_shown(
    alloc: Global,
    message: &DynamicMessage,
    number: u32,
) -> Result<u32, AllocError> {
    if let Some(Cow::Borrowed(value)) = message.get_field_by_number(alloc, number)? {
        if let Some(inside) = value.as_message() {
            return Ok(levels_shown(alloc, inside, number)?.saturating_add(1));
        }
    }
    Ok(0)
}

/// Clears the field of a number in the message that the value is, and in each inside of its fields of another number.
pub fn clear_in_value(
    alloc: Global,
    value: &mut Value,
    path: u32,
    number: u32,
) -> Result<(), ClientError> {
    if let Some(message) = value.as_message_mut() {
        message.clear_field_by_number(number);
        if message.has_field_by_number(path) {
            let inside = message.get_field_by_number_mut(alloc, path)?;
            clear_in_value(alloc, inside, path, number)?;
        }
    }
    Ok(())
}

/// Clears the field of a number in the message and in each message inside of fields, lists among them, at every depth: each
/// field is taken, changed and set again.
#[cycle(clearing_all)]
pub fn clear_everywhere(
    alloc: Global,
    message: &mut DynamicMessage,
    number: u32,
) -> Result<(), ClientError> {
    for (field, value) in message.take_fields(alloc)? {
        let mut value = value;
        clear_everywhere_in(alloc, &mut value, number)?;
        if message.owns_field(&field) {
            message.try_set_field(&field, value)?;
        }
    }
    message.clear_field_by_number(number);
    Ok(())
}

#[cycle(clearing_all)]
fn clear_everywhere_in(alloc: Global, value: &mut Value, number: u32) -> Result<(), ClientError> {
    match value {
        Value::Message(message) => clear_everywhere(alloc, message, number)?,
        Value::List(values) => {
            for value in values.iter_mut() {
                clear_everywhere_in(alloc, value, number)?;
            }
        }
        _ => {}
    }
    Ok(())
}
