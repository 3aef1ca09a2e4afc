//! Equality of values and messages.

ghost use Rattle.std.specs.Prelude.{◌≡◌, ◌↔◌, IsTrue};
ghost use Rattle.prost_reflect_dynamic.specs.Stored.{stored_items, stored_pairs, value_stored, message_stored};
ghost use Rattle.prost_reflect_dynamic.specs.Same.{same_items, same_pairs, equal_values, equal_messages, value_laws, message_laws};
ghost use Rattle.prost_reflect_dynamic.specs.View.{content_of, value_of};

use crate::message::DynamicMessage;
use crate::value::{MapKey, Value};
use prost_reflect_fields::slot::FieldSlot;
use prost_reflect_rows::types::are_equal_types;
use std::collections::BTreeMap;

impl PartialEq for Value {
    ghost eq = { equal_values };

    ghost laws = { value_laws };

    /// Whether both store the same, at every depth: values of one variant, floats of the same bits, lists in the same
    /// order, maps of the same keys with the same values, and messages of the same type.
    fn eq(&self, other: &Value) -> bool
        ensures value { result ≡ equal_values self.now other.now }
        ensures same { IsTrue result ↔ (value_stored self.now ≡ value_stored other.now) }
        ensures content { IsTrue result → value_of self.now ≡ value_of other.now }
    {
        are_equal_values(self, other)
    }
}

impl PartialEq for DynamicMessage {
    ghost eq = { equal_messages };

    ghost laws = { message_laws };

    /// Whether both are of one type, by what their pools' files hold and its place there, and store the same at each number,
    /// at every depth. A stored default counts, also where the field has no presence, and so do unknown fields and their order.
    fn eq(&self, other: &DynamicMessage) -> bool
        ensures value { result ≡ equal_messages self.now other.now }
        ensures same { IsTrue result ↔ (message_stored self.now ≡ message_stored other.now) }
        ensures content { IsTrue result → content_of self.now ≡ content_of other.now }
    {
        are_equal_messages(self, other)
    }
}

#[cycle(equality)]
fn are_equal_values(a: &Value, b: &Value) -> bool
    ensures { result ≡ equal_values a.now b.now }
{
    match (a, b) {
        (Value::Bool(a), Value::Bool(b)) => a == b,
        (Value::I32(a), Value::I32(b)) => a == b,
        (Value::I64(a), Value::I64(b)) => a == b,
        (Value::U32(a), Value::U32(b)) => a == b,
        (Value::U64(a), Value::U64(b)) => a == b,
        (Value::F32(a), Value::F32(b)) => a == b,
        (Value::F64(a), Value::F64(b)) => a == b,
        (Value::String(a), Value::String(b)) => a == b,
        (Value::Bytes(a), Value::Bytes(b)) => a == b,
        (Value::EnumNumber(a), Value::EnumNumber(b)) => a == b,
        (Value::Message(a), Value::Message(b)) => are_equal_messages(a, b),
        (Value::List(a), Value::List(b)) => are_equal_lists(a, b),
        (Value::Map(a), Value::Map(b)) => are_equal_maps(a, b),
        _ => false,
    }
}

#[cycle(equality)]
fn are_equal_lists(a: &Vec<Value>, b: &Vec<Value>) -> bool
    ensures { result ≡ same_items (stored_items value_stored a.now.items) (stored_items value_stored b.now.items) }
{
    let mut others = b.iter();
    for value in a {
        let Some(other) = others.next() else {
            return false;
        };
        if !are_equal_values(value, other) {
            return false;
        }
    }
    others.next().is_none()
}

#[cycle(equality)]
fn are_equal_maps(a: &BTreeMap<MapKey, Value>, b: &BTreeMap<MapKey, Value>) -> bool
    ensures { result ≡ same_pairs (stored_pairs value_stored a.now.entries) (stored_pairs value_stored b.now.entries) }
{
    let mut others = b.iter();
    for (key, value) in a.iter() {
        let Some((other_key, other)) = others.next() else {
            return false;
        };
        if *key != *other_key || !are_equal_values(value, other) {
            return false;
        }
    }
    others.next().is_none()
}

#[cycle(equality)]
fn are_equal_messages(a: &DynamicMessage, b: &DynamicMessage) -> bool
    ensures { result ≡ equal_messages a.now b.now }
{
    if !are_equal_types(a.fields.message_type(), b.fields.message_type()) {
        return false;
    }
    let mut others = b.fields.slots();
    for (number, entry) in a.fields.slots() {
        let Some((other_number, other)) = others.next() else {
            return false;
        };
        if number != other_number {
            return false;
        }
        let same = match (entry, other) {
            (FieldSlot::Value(a), FieldSlot::Value(b)) => are_equal_values(a, b),
            (FieldSlot::Unknown(a), FieldSlot::Unknown(b)) => a == b,
            (FieldSlot::Both(a, u), FieldSlot::Both(b, t)) => are_equal_values(a, b)
                && u.get() == t.get(),
            _ => false,
        };
        if !same {
            return false;
        }
    }
    others.next().is_none()
}
