//! Values, as they are written in tables.

use crate::types::{Type, decoded};
use prost_reflect::{MapKey, Value};
use std::alloc::Global;
use std::collections::BTreeMap;
use std::process::Abort;

/// A value without values inside.
#[derive(Clone, Copy)]
pub(crate) enum Shown {
    Bool(bool),
    I32(i32),
    I64(i64),
    U32(u32),
    U64(u64),
    F32(u32),
    F64(u64),
    Text(&'static str),
    Bytes(&'static [u8]),
    /// The number of an enum.
    Number(i32),
    /// The message that the bytes mean to the type.
    Message(Type, &'static [u8]),
    NoItems,
    NoPairs,
}

/// A value of any form.
#[derive(Clone, Copy)]
pub(crate) enum Form {
    One(Shown),
    /// 5000 times `x`.
    LongText,
    /// 5000 times 255.
    LongBytes,
    /// A list of these, inside so many further lists.
    List(u32, &'static [Shown]),
    /// A list of the numbers from 0 on, as many as this, inside so many further lists.
    Numbers(u32, u32),
    /// A map of these, put into it in this order.
    Map(&'static [(Shown, Shown)]),
    /// A map of the numbers from 0 on, as many as this, to texts.
    NumberMap(u32),
}

/// The value that a table shows.
pub(crate) fn made(rt: &impl Abort, alloc: Global, shown: Shown) -> Value {
    match shown {
        Shown::Bool(flag) => Value::Bool(flag),
        Shown::I32(number) => Value::I32(number),
        Shown::I64(number) => Value::I64(number),
        Shown::U32(number) => Value::U32(number),
        Shown::U64(number) => Value::U64(number),
        Shown::F32(bits) => Value::F32(bits),
        Shown::F64(bits) => Value::F64(bits),
        Shown::Text(text) => Value::String(String::from_str(alloc, text).expect(rt, "memory")),
        Shown::Bytes(bytes) => Value::Bytes(Vec::from_slice(alloc, bytes).expect(rt, "memory")),
        Shown::Number(number) => Value::EnumNumber(number),
        Shown::Message(owner, bytes) => Value::Message(decoded(rt, alloc, owner, bytes)),
        Shown::NoItems => Value::List(Vec::new(alloc)),
        Shown::NoPairs => Value::Map(BTreeMap::new(alloc)),
    }
}

/// The key that a table shows.
pub(crate) fn key_of(rt: &impl Abort, alloc: Global, shown: Shown) -> MapKey {
    match shown {
        Shown::Bool(flag) => MapKey::Bool(flag),
        Shown::I32(number) => MapKey::I32(number),
        Shown::I64(number) => MapKey::I64(number),
        Shown::U32(number) => MapKey::U32(number),
        Shown::U64(number) => MapKey::U64(number),
        Shown::Text(text) => MapKey::String(String::from_str(alloc, text).expect(rt, "memory")),
        _ => panic!(rt; "no key"),
    }
}

/// The value of a form that a table shows.
pub(crate) fn form_of(rt: &impl Abort, alloc: Global, form: Form) -> Value {
    match form {
        Form::One(shown) => made(rt, alloc, shown),
        Form::LongText => {
            let bytes = vec![in alloc; b'x'; 5000].expect(rt, "memory");
            Value::String(String::from_utf8(bytes).expect(rt, "a text"))
        }
        Form::LongBytes => Value::Bytes(vec![in alloc; 0xff; 5000].expect(rt, "memory")),
        Form::List(levels, items) => list_of(rt, alloc, levels, items),
        Form::Numbers(levels, length) => numbers(rt, alloc, levels, length),
        Form::Map(pairs) => map_of(rt, alloc, pairs),
        Form::NumberMap(length) => number_map(rt, alloc, length),
    }
}

/// The value inside so many lists.
fn in_lists(rt: &impl Abort, alloc: Global, levels: u32, value: Value) -> Value {
    let mut outer = value;
    for _ in 0..levels {
        outer = Value::List(vec![in alloc; outer].expect(rt, "memory"));
    }
    outer
}

/// A list of these, inside so many further lists.
fn list_of(rt: &impl Abort, alloc: Global, levels: u32, shown: &[Shown]) -> Value {
    let mut items = Vec::new(alloc);
    for item in shown {
        items.push(made(rt, alloc, *item)).expect(rt, "memory");
    }
    in_lists(rt, alloc, levels, Value::List(items))
}

/// A list of so many numbers, inside so many further lists.
fn numbers(rt: &impl Abort, alloc: Global, levels: u32, length: u32) -> Value {
    let mut items = Vec::new(alloc);
    for number in 0..length {
        items.push(Value::U32(number)).expect(rt, "memory");
    }
    in_lists(rt, alloc, levels, Value::List(items))
}

/// Puts the value at the key.
pub(crate) fn put(rt: &impl Abort, pairs: &mut BTreeMap<MapKey, Value>, key: MapKey, value: Value) {
    let inserted: Result<_, _> = pairs.insert(key, value);
    drop(inserted.expect(rt, "memory"));
}

/// A map of these, put into it in this order.
fn map_of(rt: &impl Abort, alloc: Global, shown: &[(Shown, Shown)]) -> Value {
    let mut pairs = BTreeMap::new(alloc);
    for (key, value) in shown {
        let key = key_of(rt, alloc, *key);
        put(rt, &mut pairs, key, made(rt, alloc, *value));
    }
    Value::Map(pairs)
}

/// A map of so many numbers to texts.
fn number_map(rt: &impl Abort, alloc: Global, length: u32) -> Value {
    let mut pairs = BTreeMap::new(alloc);
    for number in 0..length {
        put(
            rt,
            &mut pairs,
            MapKey::U32(number),
            made(rt, alloc, Shown::Text("v")),
        );
    }
    Value::Map(pairs)
}
