//! What messages have, as texts.

use crate::worked::lent;
use prost_reflect::{
    DynamicMessage, MapKey, PresentNumber, UnknownField, UnknownFieldValue, Value,
};
use std::alloc::Global;
use std::process::Abort;

/// What is present in a message, in ascending order of the numbers, a space behind each: `1=` and the value of a field,
/// `[100]=` and that of an extension, and for each unknown field its number, `?` and its value.
///
/// A list stands in square brackets, a map in round ones, a message in braces; a float is its bits, and bytes are an `x` and
/// their digits.
pub(crate) fn shown(rt: &impl Abort, alloc: Global, message: &DynamicMessage) -> &'static str {
    let out = lent(rt, alloc, String::new(alloc));
    let mut unknown = message.unknown_fields();
    let numbers = lent(
        rt,
        alloc,
        message.present_numbers(alloc).expect(rt, "memory"),
    );
    for present in numbers.as_slice() {
        match *present {
            PresentNumber::Field(number) => write_field(rt, out, message, number),
            PresentNumber::Extension(number) => write_extension(rt, out, message, number),
            PresentNumber::Unknown(number, count) => {
                for _ in 0..count {
                    let field = unknown.next().expect(rt, "an unknown field");
                    assert!(rt; field.number() == number);
                    write_unknown(rt, out, field);
                }
            }
        }
    }
    assert!(rt; unknown.next().is_none());
    out.as_str()
}

/// Writes the number and the value of a field.
fn write_field(rt: &impl Abort, out: &mut String, message: &DynamicMessage, number: u32) {
    write!(out, "{number}=").expect(rt, "memory");
    let alloc = *out.allocator();
    let found = message
        .get_field_by_number(alloc, number)
        .expect(rt, "memory");
    write_value(rt, out, lent(rt, alloc, found.expect(rt, "a field")));
}

/// Writes the number and the value of an extension.
fn write_extension(rt: &impl Abort, out: &mut String, message: &DynamicMessage, number: u32) {
    write!(out, "[{number}]=").expect(rt, "memory");
    let alloc = *out.allocator();
    let descriptor = lent(rt, alloc, message.descriptor().expect(rt, "memory"));
    let found = descriptor.get_extension(number).expect(rt, "memory");
    let extension = lent(rt, alloc, found.expect(rt, "an extension"));
    assert!(rt; message.owns_extension(extension));
    let value = message.get_extension(alloc, extension).expect(rt, "memory");
    write_value(rt, out, lent(rt, alloc, value));
}

/// Writes an unknown field.
fn write_unknown(rt: &impl Abort, out: &mut String, field: &UnknownField) {
    let number = field.number();
    write!(out, "{number}?").expect(rt, "memory");
    let written = match field.value() {
        UnknownFieldValue::Varint(value) => write!(out, "{value} "),
        UnknownFieldValue::LengthDelimited(bytes) => {
            let digits = hex::encode(*out.allocator(), bytes.as_slice()).expect(rt, "memory");
            write!(out, "x{digits} ")
        }
        _ => out.push_str("? "),
    };
    written.expect(rt, "memory");
}

/// Writes a value, a space behind it.
fn write_value(rt: &impl Abort, out: &mut String, value: &Value) {
    if let Some(items) = value.as_list() {
        out.push('[').expect(rt, "memory");
        for item in items {
            write_item(rt, out, item);
        }
        out.push_str("] ").expect(rt, "memory");
    } else if let Some(pairs) = value.as_map() {
        out.push('(').expect(rt, "memory");
        for (key, value) in pairs.iter() {
            write_key(rt, out, key);
            write_item(rt, out, value);
        }
        out.push_str(") ").expect(rt, "memory");
    } else {
        write_item(rt, out, value);
    }
}

fn write_key(rt: &impl Abort, out: &mut String, key: &MapKey) {
    let written = match key {
        MapKey::I32(number) => write!(out, "{number}:"),
        MapKey::String(text) => write!(out, "{text}:"),
        _ => out.push('?'),
    };
    written.expect(rt, "memory");
}

/// Writes a value that is no list and no map, a space behind it.
fn write_item(rt: &impl Abort, out: &mut String, value: &Value) {
    let Some(message) = value.as_message() else {
        write_scalar(rt, out, value);
        return;
    };
    out.push('{').expect(rt, "memory");
    for item in message.fields() {
        let (field, value) = item.expect(rt, "memory");
        let number = field.number();
        drop(field);
        write_member(rt, out, number, value);
    }
    for field in message.unknown_fields() {
        write_unknown(rt, out, field);
    }
    out.push_str("} ").expect(rt, "memory");
}

/// Writes the number and the value of a field that has no message, and is no map.
fn write_member(rt: &impl Abort, out: &mut String, number: u32, value: &Value) {
    write!(out, "{number}=").expect(rt, "memory");
    let Some(items) = value.as_list() else {
        write_scalar(rt, out, value);
        return;
    };
    out.push('[').expect(rt, "memory");
    for item in items {
        write_scalar(rt, out, item);
    }
    out.push_str("] ").expect(rt, "memory");
}

fn write_scalar(rt: &impl Abort, out: &mut String, value: &Value) {
    let written = match value {
        Value::I32(number) | Value::EnumNumber(number) => write!(out, "{number} "),
        Value::F32(bits) => write!(out, "{bits} "),
        _ => out.push_str("? "),
    };
    written.expect(rt, "memory");
}
