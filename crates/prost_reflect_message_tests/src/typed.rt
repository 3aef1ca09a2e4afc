//! Whether messages may be encoded, and whether the messages inside are of their fields' types.

use crate::shown::{Shown, made, put};
use crate::types::{
    FOO, MY_MESSAGE, OLDER_MESSAGE, P, Q, Type, V, decoded, field_at, lent, lent_message,
    named_field,
};
use prost_reflect::{DynamicMessage, MapKey, Value};
use prost_reflect_samples::leaked;
use std::alloc::Global;
use std::collections::BTreeMap;
use std::process::Abort;

/// A message type, a field of it, and whether a value is put at the key 1 of a map there.
type Holder = (Type, &'static str, bool);

const IN_FOO: Holder = (MY_MESSAGE, "foo", false);

const IN_NESTED: Holder = (MY_MESSAGE, "nested", false);

const IN_NUMBERS: Holder = (P, "m", true);

const IN_MESSAGES: Holder = (P, "q", true);

const AS_MESSAGES: Holder = (P, "q", false);

const IN_CLOSED: Holder = (V, "e", false);

const TEXT: Shown = Shown::Text("x");

const OWN: Shown = Shown::Message(MY_MESSAGE, b"\x08\x05");

const OTHER: Shown = Shown::Message(FOO, b"\x08\x01");

/// A value, messages that hold it, each inside the next, and whether the last one may be encoded, and is typed.
static ROWS: [(Shown, &[Holder], [bool; 2]); 19] = [
    // A text in the place of a number.
    (TEXT, &[IN_FOO], [false, true]),
    (TEXT, &[IN_FOO, IN_NESTED], [false, true]),
    (TEXT, &[IN_FOO, IN_MESSAGES], [false, true]),
    // A message of another type.
    (OTHER, &[IN_NESTED], [true, false]),
    (OTHER, &[IN_NESTED, IN_NESTED], [true, false]),
    (OTHER, &[IN_MESSAGES], [true, false]),
    // Pools that are made of one set are equal; the older set has the type at the same place, and lacks a field.
    (
        Shown::Message(MY_MESSAGE, b"\x10\x01"),
        &[IN_NESTED],
        [true, true],
    ),
    (
        Shown::Message(OLDER_MESSAGE, b"\x10\x01"),
        &[IN_NESTED],
        [true, false],
    ),
    (Shown::I32(1), &[IN_NUMBERS], [false, true]),
    (OWN, &[IN_MESSAGES], [true, true]),
    // A message by itself is no map.
    (OWN, &[AS_MESSAGES], [false, false]),
    // The closed enum declares 1 and 0.
    (Shown::Number(5), &[IN_CLOSED], [false, true]),
    (Shown::Number(1), &[IN_CLOSED], [true, true]),
    // What is read is both.
    (
        Shown::Message(MY_MESSAGE, b"\x1a\x02\x08\x05\x1a\x02\x10\x42"),
        &[],
        [true, true],
    ),
    (Shown::Message(MY_MESSAGE, b"\x28\x01"), &[], [true, true]),
    (Shown::Message(FOO, b"\x08\x01\x08\x02"), &[], [true, true]),
    (
        Shown::Message(P, b"\x0a\x05\x0a\x01\x61\x10\x01\x12\x00"),
        &[],
        [true, true],
    ),
    (Shown::Message(Q, b"\x12\x02\x10\x42"), &[], [true, true]),
    (Shown::Message(V, b"\x28\x05\x28\x01"), &[], [true, true]),
];

/// Writes the value at the field of a name, through a loan.
fn write(rt: &impl Abort, alloc: Global, message: &mut DynamicMessage, name: &str, value: Value) {
    let descriptor = lent(rt, alloc, message.descriptor().expect(rt, "memory"));
    let field = named_field(rt, alloc, descriptor, name);
    assert!(rt; message.owns_field(field));
    match message.get_field_mut(alloc, field) {
        Ok(place) => *place = value,
        Err(_) => panic!(rt; "memory"),
    }
}

/// The value in a message of the holder.
fn held_by(rt: &impl Abort, alloc: Global, holder: &Holder, value: Value) -> Value {
    let (owner, name, is_pair) = *holder;
    let mut message = decoded(rt, alloc, owner, b"");
    if is_pair {
        let mut pairs = BTreeMap::new(alloc);
        put(rt, &mut pairs, MapKey::I32(1), value);
        write(rt, alloc, &mut message, name, Value::Map(pairs));
    } else {
        write(rt, alloc, &mut message, name, value);
    }
    Value::Message(message)
}

/// The message that holds the value as the holders say, lent to the end of the run.
fn held(
    rt: &impl Abort,
    alloc: Global,
    shown: Shown,
    holders: &[Holder],
) -> &'static mut DynamicMessage {
    let mut value = made(rt, alloc, shown);
    for holder in holders {
        value = held_by(rt, alloc, holder, value);
    }
    match value {
        Value::Message(message) => leaked(alloc, message).expect(rt, "memory"),
        _ => panic!(rt; "no message"),
    }
}

/// What both calls answer.
fn asked(message: &DynamicMessage) -> [bool; 2] {
    [message.is_encodable(), message.is_typed()]
}

#[test]
fn what_does_not_fit_is_found(rt: HostRuntime) {
    for (place, (shown, holders, expected)) in ROWS.iter().enumerate() {
        let message = held(&rt, rt.alloc(), *shown, holders);
        assert!(rt; asked(message) == *expected, "{place}");
    }
}

/// Whether a value that does not fit is found no more where one that fits takes its place, and where its field is cleared.
fn is_mended(rt: &impl Abort, alloc: Global) -> bool {
    let closed = held(rt, alloc, Shown::Number(5), &[IN_CLOSED]);
    write(rt, alloc, closed, "e", Value::EnumNumber(1));
    let message = held(rt, alloc, TEXT, &[IN_FOO]);
    let descriptor = lent(rt, alloc, message.descriptor().expect(rt, "memory"));
    let first = field_at(rt, alloc, descriptor, 1);
    assert!(rt; message.owns_field(first));
    message.clear_field(first);
    asked(closed) == [true, true] && asked(message) == [true, true]
}

/// Whether a message with one of another type in it is written, by its own type.
fn is_written(rt: &impl Abort, alloc: Global) -> bool {
    let message = held(rt, alloc, OTHER, &[IN_NESTED]);
    assert!(rt; message.is_encodable());
    let written = lent(rt, alloc, message.encode_to_vec(alloc).expect(rt, "memory"));
    written.as_slice() == b"\x1a\x02\x08\x01".as_slice()
}

/// Whether a message that was made by hand is merged into once both calls say that it may be.
fn is_merged_into(rt: &impl Abort, alloc: Global) -> bool {
    let message = held(rt, alloc, OWN, &[IN_NESTED]);
    message.is_encodable()
        && message.is_typed()
        && message.merge(b"\x10\x01").is_ok()
        && *message == *lent_message(rt, alloc, MY_MESSAGE, b"\x1a\x02\x08\x05\x10\x01")
}

#[test]
fn what_is_held_is_mended_and_written_and_merged_into(rt: HostRuntime) {
    let alloc = rt.alloc();
    assert!(rt; is_mended(&rt, alloc));
    assert!(rt; is_written(&rt, alloc));
    assert!(rt; is_merged_into(&rt, alloc));
}
