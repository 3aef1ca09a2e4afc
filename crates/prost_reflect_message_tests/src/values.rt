//! Each variant by its accessors.

use crate::shown::{Form, Shown, form_of, key_of, put};
use crate::types::{KEPT, lent};
use prost_reflect::{MapKey, Value};
use prost_reflect_samples::leaked;
use std::alloc::Global;
use std::mem::size_of;
use std::process::Abort;

// A list of a million numbers takes a million of these.
const _: () = prove!(size_of::<Value>() == 40);

/// Messages of `Kept`, the first of which stores something.
const MESSAGE: Form = Form::One(Shown::Message(KEPT, b"\x28\x01"));

const EMPTY: Form = Form::One(Shown::Message(KEPT, b""));

/// A value, what it is once it is written, and whether that is another value.
static VALUES: [(Form, Form, bool); 14] = [
    (
        Form::One(Shown::Bool(false)),
        Form::One(Shown::Bool(true)),
        true,
    ),
    (Form::One(Shown::I32(0)), Form::One(Shown::I32(-1)), true),
    (Form::One(Shown::I64(0)), Form::One(Shown::I64(-2)), true),
    (Form::One(Shown::U32(0)), Form::One(Shown::U32(3)), true),
    (Form::One(Shown::U64(0)), Form::One(Shown::U64(4)), true),
    (Form::One(Shown::F32(0)), Form::One(Shown::F32(5)), true),
    (Form::One(Shown::F64(0)), Form::One(Shown::F64(6)), true),
    (
        Form::One(Shown::Number(0)),
        Form::One(Shown::Number(-7)),
        true,
    ),
    (
        Form::One(Shown::Text("")),
        Form::One(Shown::Text("x")),
        true,
    ),
    (
        Form::One(Shown::Bytes(b"")),
        Form::One(Shown::Bytes(b"\x08")),
        true,
    ),
    (
        Form::One(Shown::NoItems),
        Form::List(0, &[Shown::Bool(true)]),
        true,
    ),
    (
        Form::One(Shown::NoPairs),
        Form::Map(&[(Shown::I32(9), Shown::Bool(true))]),
        true,
    ),
    (MESSAGE, EMPTY, true),
    (EMPTY, EMPTY, false),
];

/// Writes to a number, or to a bool, through the accessor that finds something.
fn overwrite_scalar(value: &mut Value) {
    if let Some(flag) = value.as_bool_mut() {
        *flag = true;
    }
    if let Some(number) = value.as_i32_mut() {
        *number = -1;
    }
    if let Some(number) = value.as_i64_mut() {
        *number = -2;
    }
    if let Some(number) = value.as_u32_mut() {
        *number = 3;
    }
    if let Some(number) = value.as_u64_mut() {
        *number = 4;
    }
    if let Some(bits) = value.as_f32_mut() {
        *bits = 5;
    }
    if let Some(bits) = value.as_f64_mut() {
        *bits = 6;
    }
    if let Some(number) = value.as_enum_number_mut() {
        *number = -7;
    }
}

/// Appends to a text, bytes or a list; puts `true` at the key 9 of a map; empties a message.
fn fill(rt: &impl Abort, value: &mut Value) {
    if let Some(text) = value.as_string_mut() {
        text.push('x').expect(rt, "memory");
    }
    if let Some(bytes) = value.as_bytes_mut() {
        bytes.push(8).expect(rt, "memory");
    }
    if let Some(items) = value.as_list_mut() {
        items.push(Value::Bool(true)).expect(rt, "memory");
    }
    if let Some(pairs) = value.as_map_mut() {
        put(rt, pairs, MapKey::I32(9), Value::Bool(true));
    }
    if let Some(message) = value.as_message_mut() {
        message.clear();
    }
}

/// Whether the value is read as it was written.
fn is_read(value: &Value) -> bool {
    match value {
        Value::Bool(_) => value.as_bool() == Some(true),
        Value::I32(_) => value.as_i32() == Some(-1),
        Value::I64(_) => value.as_i64() == Some(-2),
        Value::U32(_) => value.as_u32() == Some(3),
        Value::U64(_) => value.as_u64() == Some(4),
        Value::F32(_) => value.as_f32() == Some(5),
        Value::F64(_) => value.as_f64() == Some(6),
        Value::EnumNumber(_) => value.as_enum_number() == Some(-7),
        Value::String(_) => value.as_str() == Some("x"),
        Value::Bytes(_) => value.as_bytes() == Some([8_u8].as_slice()),
        Value::List(_) => match value.as_list() {
            Some(items) => items.len() == 1,
            None => false,
        },
        Value::Map(_) => match value.as_map() {
            Some(pairs) => pairs.len() == 1,
            None => false,
        },
        Value::Message(_) => value.as_message().is_some(),
    }
}

/// Whether the value is written, read as what was written, and equal to its copy then.
fn is_written(rt: &impl Abort, alloc: Global, row: &(Form, Form, bool)) -> bool {
    let (before, behind, changes) = *row;
    let behind = lent(rt, alloc, form_of(rt, alloc, behind));
    let value = leaked(alloc, form_of(rt, alloc, before)).expect(rt, "memory");
    let is_changed = *value != *behind;
    overwrite_scalar(value);
    fill(rt, value);
    let copy = lent(rt, alloc, value.clone().expect(rt, "memory"));
    is_changed == changes && is_read(value) && *value == *behind && *value == *copy
}

#[test]
fn a_value_is_written_and_read(rt: HostRuntime) {
    for (place, row) in VALUES.iter().enumerate() {
        assert!(rt; is_written(&rt, rt.alloc(), row), "{place}");
    }
}

/// A key, and what it is once it is written.
static KEYS: [(Shown, Shown); 6] = [
    (Shown::Bool(false), Shown::Bool(true)),
    (Shown::I32(0), Shown::I32(-1)),
    (Shown::I64(0), Shown::I64(-2)),
    (Shown::U32(0), Shown::U32(3)),
    (Shown::U64(0), Shown::U64(4)),
    (Shown::Text(""), Shown::Text("x")),
];

/// Writes to a key through the accessor that finds something.
fn overwrite_key(rt: &impl Abort, key: &mut MapKey) {
    if let Some(flag) = key.as_bool_mut() {
        *flag = true;
    }
    if let Some(number) = key.as_i32_mut() {
        *number = -1;
    }
    if let Some(number) = key.as_i64_mut() {
        *number = -2;
    }
    if let Some(number) = key.as_u32_mut() {
        *number = 3;
    }
    if let Some(number) = key.as_u64_mut() {
        *number = 4;
    }
    if let Some(text) = key.as_string_mut() {
        text.push('x').expect(rt, "memory");
    }
}

/// Whether the key is read as it was written.
fn is_read_key(key: &MapKey) -> bool {
    match key {
        MapKey::Bool(_) => key.as_bool() == Some(true),
        MapKey::I32(_) => key.as_i32() == Some(-1),
        MapKey::I64(_) => key.as_i64() == Some(-2),
        MapKey::U32(_) => key.as_u32() == Some(3),
        MapKey::U64(_) => key.as_u64() == Some(4),
        MapKey::String(_) => key.as_str() == Some("x"),
    }
}

/// Whether the key is written, and read as what was written.
fn is_written_key(rt: &impl Abort, alloc: Global, before: Shown, behind: Shown) -> bool {
    let key = leaked(alloc, key_of(rt, alloc, before)).expect(rt, "memory");
    overwrite_key(rt, key);
    is_read_key(key) && *key == *lent(rt, alloc, key_of(rt, alloc, behind))
}

#[test]
fn a_key_is_written_and_read(rt: HostRuntime) {
    for (place, (before, behind)) in KEYS.iter().enumerate() {
        assert!(rt;
            is_written_key(&rt, rt.alloc(), *before, *behind),
            "{place}"
        );
    }
}

/// Whether the value is nothing but a bool.
fn is_no_more_than_bool(value: &Value) -> bool {
    value.as_i32().is_none()
        && value.as_i64().is_none()
        && value.as_u32().is_none()
        && value.as_u64().is_none()
        && value.as_f32().is_none()
        && value.as_f64().is_none()
        && value.as_enum_number().is_none()
        && value.as_str().is_none()
        && value.as_bytes().is_none()
        && value.as_list().is_none()
        && value.as_map().is_none()
        && value.as_message().is_none()
}

/// Whether the key is no number and no text.
fn is_no_other_key(key: &MapKey) -> bool {
    key.as_i32().is_none()
        && key.as_i64().is_none()
        && key.as_u32().is_none()
        && key.as_u64().is_none()
        && key.as_str().is_none()
}

#[test]
fn a_bool_is_nothing_else(rt: HostRuntime) {
    let alloc = rt.alloc();
    assert!(rt; is_no_more_than_bool(lent(&rt, alloc, Value::Bool(true))));
    assert!(rt; is_no_other_key(lent(&rt, alloc, MapKey::Bool(true))));
}
