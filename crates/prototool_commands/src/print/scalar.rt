//! The text of values that are no messages, lists or maps, and of the keys of maps.

use crate::print::float::{double_text, float_text};
use crate::print::text::Text;
use prost_reflect::{EnumDescriptor, Kind, MapKey, Value};
use std::alloc::AllocError;

/// Appends a scalar of the kind; a message, a list and a map have no text here.
pub fn push_scalar(text: &mut Text, kind: &Kind, value: &Value) -> Result<(), AllocError> {
    match value {
        Value::Bool(x) => text.push(*x),
        Value::I32(x) => text.push(*x),
        Value::I64(x) => text.push(*x),
        Value::U32(x) => text.push(*x),
        Value::U64(x) => text.push(*x),
        Value::F32(bits) => text.push(float_text(text.allocator(), *bits)?),
        Value::F64(bits) => text.push(double_text(text.allocator(), *bits)?),
        Value::String(x) => text.push_quoted(x.as_bytes()),
        Value::Bytes(x) => text.push_quoted(x.as_slice()),
        Value::EnumNumber(number) => push_enum(text, kind.as_enum(), *number),
        _ => Ok(()),
    }
}

/// Appends the name of the first value of the number that the enum declares, or else the number.
fn push_enum(
    text: &mut Text,
    descriptor: Option<&EnumDescriptor>,
    number: i32,
) -> Result<(), AllocError> {
    if let Some(descriptor) = descriptor {
        if let Some(value) = descriptor.get_value(number)? {
            return text.push(value.name());
        }
    }
    text.push(number)
}

/// Appends the key of an entry of a map.
pub fn push_key(text: &mut Text, key: &MapKey) -> Result<(), AllocError> {
    match key {
        MapKey::Bool(x) => text.push(*x),
        MapKey::I32(x) => text.push(*x),
        MapKey::I64(x) => text.push(*x),
        MapKey::U32(x) => text.push(*x),
        MapKey::U64(x) => text.push(*x),
        MapKey::String(x) => text.push_quoted(x.as_bytes()),
    }
}
