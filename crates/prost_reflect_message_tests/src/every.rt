//! Values of each kind that pass through a type which knows them, and are set by it.

use crate::relay::{relays_bytes, relays_digits};
use crate::worked::{Set, decoded, lent, message_type};
use prost_reflect::{MessageDescriptor, relay_with};
use prost_reflect_samples::every::{Row, extensions, fields};
use std::alloc::Global;
use std::process::Abort;

/// Whether the bytes are relayed as they are, and so are their digits.
fn is_relayed(rt: &impl Abort, alloc: Global, every: &MessageDescriptor, bytes: &[u8]) -> bool {
    let digits = lent(rt, alloc, hex::encode(alloc, bytes).expect(rt, "memory")).as_str();
    relays_bytes(rt, alloc, every, bytes, bytes) && relays_digits(rt, alloc, every, digits, digits)
}

/// Whether each row's bytes are relayed as they are, and so are those of all rows.
fn are_relayed(rt: &impl Abort, alloc: Global, every: &MessageDescriptor, rows: &[Row]) -> bool {
    let joined = lent(rt, alloc, Vec::new(alloc));
    for row in rows {
        assert!(rt; is_relayed(rt, alloc, every, row.1), "{}", row.0);
        joined.extend_from_slice(row.1).expect(rt, "memory");
    }
    is_relayed(rt, alloc, every, joined.as_slice())
}

/// Whether no bytes with the row's value set are written as the row's bytes, or the value is or
/// holds a message.
fn is_edited(rt: &impl Abort, alloc: Global, every: &MessageDescriptor, row: &Row) -> bool {
    let (number, bytes) = *row;
    let message = decoded(rt, alloc, every, bytes);
    if number % 20 == 10 || number % 20 == 11 {
        return true;
    }
    let value = message.take_field_by_number(number).expect(rt, "a value");
    let written = relay_with(alloc, every, b"", &[number], value).expect(rt, "an edit");
    written.as_slice() == bytes
}

#[test]
fn each_kind_is_relayed_and_set(rt: HostRuntime) {
    let alloc = rt.alloc();
    let every = message_type(&rt, alloc, Set::Every, "e.Every");
    assert!(rt; are_relayed(&rt, alloc, every, fields()));
    assert!(rt; are_relayed(&rt, alloc, every, extensions()));
    for row in fields() {
        assert!(rt; is_edited(&rt, alloc, every, row), "{}", row.0);
    }
}
