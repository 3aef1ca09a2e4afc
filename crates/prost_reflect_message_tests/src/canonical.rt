//! Messages that are made in different ways, and are written the same.

use crate::worked::{
    Set, bytes_of, decoded, empty, is_written, is_written_and_shown, lent, message_type,
};
use prost_reflect::{DynamicMessage, MapKey, Value};
use std::alloc::Global;
use std::collections::BTreeMap;
use std::process::Abort;

/// Whether nothing is written nor present of the message, and its field 1 is 0.
fn has_nothing(rt: &impl Abort, alloc: Global, message: &DynamicMessage) -> bool {
    let found = message.get_field_by_number(alloc, 1).expect(rt, "memory");
    let value = lent(rt, alloc, found.expect(rt, "a field"));
    value.as_i32() == Some(0) && is_written_and_shown(rt, alloc, message, "", "")
}

/// A default without presence is stored and is no value, and nothing is written of it.
#[test]
fn a_stored_default_is_written_as_none(rt: HostRuntime) {
    let alloc = rt.alloc();
    let descriptor = message_type(&rt, alloc, Set::Worked, "package.MyMessage");
    let fresh = empty(&rt, alloc, descriptor);
    let message = empty(&rt, alloc, descriptor);
    message
        .try_set_field_by_number(1, Value::I32(5))
        .expect(&rt, "a value that fits");
    message
        .try_set_field_by_number(1, Value::I32(0))
        .expect(&rt, "a value that fits");
    assert!(rt; *message != *fresh);
    assert!(rt; has_nothing(&rt, alloc, message));
    assert!(rt; has_nothing(&rt, alloc, fresh));
}

/// A worked type, a message of which stands in the field 3 of `MyMessage`, whether it is of the field's type, and what is shown
/// of the outer message.
static INSIDE: [(&str, bool, &str); 2] = [
    ("b.Foo", false, "3={1=[1 ] } "),
    ("package.MyMessage", true, "3={1=1 } "),
];

/// Whether the outer message is written and shown as the row says, and is the one that is read of these bytes only if the
/// message inside is of the field's type.
fn is_around(rt: &impl Abort, alloc: Global, row: &(&str, bool, &str)) -> bool {
    let (name, is_typed, text) = *row;
    let inner = message_type(rt, alloc, Set::Worked, name);
    let inside = decoded(rt, alloc, inner, b"\x08\x01")
        .clone()
        .expect(rt, "memory");
    let outer = message_type(rt, alloc, Set::Worked, "package.MyMessage");
    let message = empty(rt, alloc, outer);
    let outcome = message.try_set_field_by_number(3, Value::Message(inside));
    outcome.expect(rt, "a value that fits");
    message.is_typed() == is_typed
        && (*message == *decoded(rt, alloc, outer, b"\x1a\x02\x08\x01")) == is_typed
        && is_written_and_shown(rt, alloc, message, "1a020801", text)
}

/// A message inside is written by its own type. So one that is not of its field's type may be written as one that is, though
/// what they mean differs.
#[test]
fn an_untyped_message_is_written_as_a_typed_one(rt: HostRuntime) {
    for row in &INSIDE {
        assert!(rt; is_around(&rt, rt.alloc(), row), "{}", row.0);
    }
}

/// Two entries of a map, put into it in this order.
type Puts = [(&'static str, i32); 2];

static ENTRIES: [Puts; 2] = [[("b", 1), ("a", 2)], [("a", 2), ("b", 1)]];

/// Whether a message whose map has the entries is written with the least key first.
fn is_written_in_order(rt: &impl Abort, alloc: Global, entries: &Puts) -> bool {
    let mut map = BTreeMap::new(alloc);
    for (key, value) in entries {
        let key = MapKey::String(String::from_str(alloc, key).expect(rt, "memory"));
        let inserted: Result<_, _> = map.insert(key, Value::I32(*value));
        drop(inserted.expect(rt, "memory"));
    }
    let message = empty(rt, alloc, message_type(rt, alloc, Set::Worked, "a.P"));
    let outcome = message.try_set_field_by_number(1, Value::Map(map));
    outcome.expect(rt, "a value that fits");
    let expected = bytes_of(rt, alloc, "0a050a016110020a050a01621001");
    is_written(rt, alloc, message, expected)
}

#[test]
fn entries_are_written_in_one_order(rt: HostRuntime) {
    for entries in &ENTRIES {
        assert!(rt; is_written_in_order(&rt, rt.alloc(), entries));
    }
}
