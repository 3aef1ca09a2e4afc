//! Which messages are equal.

use crate::types::{KEPT, MY_MESSAGE, P, Type, lent_message};

/// A message type and the bytes of a message of it, the same of another one, and whether both messages are equal.
type Row = (Type, &'static [u8], Type, &'static [u8], bool);

static ROWS: [Row; 5] = [
    // A stored default of a field without presence is unequal to none.
    (MY_MESSAGE, b"", MY_MESSAGE, b"\x08\x00", false),
    // The numbers 10 and 11 are of no field.
    (KEPT, b"P\x03P\x04X\x01", KEPT, b"P\x03X\x01P\x04", true),
    (KEPT, b"P\x03P\x04X\x01", KEPT, b"P\x04P\x03X\x01", false),
    // Pools that were made apart show the same, and types are told apart by their places.
    (MY_MESSAGE, b"", MY_MESSAGE, b"", true),
    (MY_MESSAGE, b"", P, b"", false),
];

#[test]
fn messages_are_equal_by_their_types_and_what_they_store(rt: HostRuntime) {
    let alloc = rt.alloc();
    for (owner, bytes, other, others, same) in &ROWS {
        let message = lent_message(&rt, alloc, *owner, bytes);
        let second = lent_message(&rt, alloc, *other, others);
        assert!(rt; (*message == *second) == *same, "{others:?}");
    }
}

#[test]
fn a_cleared_message_stores_nothing(rt: HostRuntime) {
    let message = lent_message(&rt, rt.alloc(), MY_MESSAGE, b"\x08\x00");
    message.clear();
    assert!(rt; *message == *lent_message(&rt, rt.alloc(), MY_MESSAGE, b""));
}
