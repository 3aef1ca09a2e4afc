//! The text of messages whose types are known.

use crate::print::leftover::push_leftover;
use crate::print::scalar::{push_key, push_scalar};
use crate::print::text::Text;
use crate::print::written::{Written, members_beside, written_each, written_one};
use prost_reflect::{DynamicMessage, FieldDescriptor, Kind, MapKey, UnknownField, Value};
use std::alloc::{AllocError, Global};
use std::collections::BTreeMap;

/// Appends what a message has: its fields and extensions in ascending number, and then its unknown fields.
#[cycle(printing)]
pub fn push_message(
    text: &mut Text,
    message: &DynamicMessage,
    written: Written<'_>,
) -> Result<(), AllocError> {
    let extensions = extension_texts(text, message, written)?;
    let mut waiting = extensions.as_slice();
    for item in message.fields() {
        let (field, value) = item?;
        waiting = push_below(text, waiting, field.number())?;
        push_field(text, &field, value, written)?;
    }
    push_below(text, waiting, u32::MAX)?;
    push_leftover(text, message, written)
}

/// Appends a message of the type of a map's entries: its key and its value, also where it does not have them, and then its
/// unknown fields.
pub fn push_entry(
    text: &mut Text,
    message: &DynamicMessage,
    written: Written<'_>,
) -> Result<(), AllocError> {
    let alloc = text.allocator();
    for field in message.descriptor()?.fields() {
        let field = field?;
        if let Some(value) = message.get_field_by_number(alloc, field.number())? {
            push_field(text, &field, value.as_ref(), written)?;
        }
    }
    push_leftover(text, message, written)
}

/// Appends a field that a message has.
#[cycle(printing)]
fn push_field(
    text: &mut Text,
    field: &FieldDescriptor,
    value: &Value,
    written: Written<'_>,
) -> Result<(), AllocError> {
    let kind = field.kind()?;
    let name = match kind.as_message() {
        Some(group) if field.is_group() => group.name(),
        _ => field.name(),
    };
    let inside = written_in_field(text.allocator(), field, value, written)?;
    push_value(text, name, &kind, value, inside.as_slice())
}

/// The fields of the messages that a field has, in the order of the bytes.
fn written_in_field(
    alloc: Global,
    field: &FieldDescriptor,
    value: &Value,
    written: Written<'_>,
) -> Result<Vec<Vec<UnknownField>>, AllocError> {
    match value {
        Value::Message(_) => {
            let others = members_beside(alloc, field)?;
            written_one(alloc, written, field.number(), others.as_slice())
        }
        Value::List(_) => written_each(alloc, written, field.number()),
        _ => Ok(Vec::new(alloc)),
    }
}

/// The extensions that a message has, in ascending number, each as a text of its own.
#[cycle(printing)]
fn extension_texts(
    text: &Text,
    message: &DynamicMessage,
    written: Written<'_>,
) -> Result<Vec<(u32, Text)>, AllocError> {
    let alloc = text.allocator();
    let mut texts = Vec::new(alloc);
    for item in message.extensions() {
        let (extension, value) = item?;
        let name = format!(in alloc; "[{}]", extension.full_name())?;
        let inside = if extension.is_list() {
            written_each(alloc, written, extension.number())?
        } else {
            written_one(alloc, written, extension.number(), &[])?
        };
        let mut beside = text.beside();
        push_value(
            &mut beside,
            name.as_str(),
            &extension.kind()?,
            value,
            inside.as_slice(),
        )?;
        texts.push((extension.number(), beside))?;
    }
    Ok(texts)
}

/// Appends those of the texts whose numbers are below one, and answers those that are left.
fn push_below<'a>(
    text: &mut Text,
    texts: &'a [(u32, Text)],
    number: u32,
) -> Result<&'a [(u32, Text)], AllocError> {
    let count = texts.iter().take_while(|entry| entry.0 < number).count();
    let (below, left) = texts.split_at(count);
    for entry in below {
        text.push(entry.1.as_str())?;
    }
    Ok(left)
}

/// Appends a value under a name: a list element by element, and a map entry by entry. The fields of the messages are those of
/// the value or of the elements of the list, as far as their order is known.
#[cycle(printing)]
fn push_value(
    text: &mut Text,
    name: &str,
    kind: &Kind,
    value: &Value,
    inside: &[Vec<UnknownField>],
) -> Result<(), AllocError> {
    match value {
        Value::Message(message) => {
            text.open(name)?;
            push_message(
                text,
                message,
                inside.first().map(|fields| fields.as_slice()),
            )?;
            text.close()
        }
        Value::List(values) => {
            let mut rest = inside;
            for value in values {
                let (own, left) = rest.split_at(rest.len().min(1));
                push_value(text, name, kind, value, own)?;
                rest = left;
            }
            Ok(())
        }
        Value::Map(entries) => push_entries(text, name, kind, entries),
        _ => {
            text.begin(name)?;
            text.push(": ")?;
            push_scalar(text, kind, value)?;
            text.push("\n")
        }
    }
}

/// Appends the entries of a map, whose kind is the message type of its entries.
#[cycle(printing)]
fn push_entries(
    text: &mut Text,
    name: &str,
    kind: &Kind,
    entries: &BTreeMap<MapKey, Value>,
) -> Result<(), AllocError> {
    let Some(entry) = kind.as_message() else {
        return Ok(());
    };
    let Some(field) = entry.get_field(2)? else {
        return Ok(());
    };
    let value_kind = field.kind()?;
    for (key, value) in entries {
        text.open(name)?;
        text.begin("key: ")?;
        push_key(text, key)?;
        text.push("\n")?;
        push_value(text, "value", &value_kind, value, &[])?;
        text.close()?;
    }
    Ok(())
}
