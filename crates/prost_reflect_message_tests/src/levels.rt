//! Messages and groups that nest as deep as is allowed, and one level deeper; and a thousand entries of one key.

use crate::worked::{Set, bytes_of, fault, is_rewritten, lent, message_type, passes};
use prost_reflect::DecodeError;
use std::alloc::Global;
use std::process::Abort;

/// Bytes that nest.
#[derive(Clone, Copy)]
enum Nest {
    /// The digits' bytes as the field 3 of so many messages inside one another.
    Messages(usize, &'static str),
    /// So many groups inside one another, by the bytes that open and that close one.
    Groups(usize, u8, u8),
}

/// The bytes as the field 3.
fn as_field(rt: &impl Abort, alloc: Global, body: &[u8]) -> &'static [u8] {
    let bytes = lent(rt, alloc, Vec::new(alloc));
    bytes.push(0x1a).expect(rt, "memory");
    if body.len() < 128 {
        bytes.push(body.len() as u8).expect(rt, "memory");
    } else {
        bytes
            .push((body.len() % 128) as u8 + 128)
            .expect(rt, "memory");
        bytes
            .push((body.len() / 128 % 128) as u8)
            .expect(rt, "memory");
    }
    bytes.extend_from_slice(body).expect(rt, "memory");
    bytes.as_slice()
}

/// The digits' bytes as the field 3 of so many messages inside one another.
pub(crate) fn in_messages(
    rt: &impl Abort,
    alloc: Global,
    levels: usize,
    digits: &str,
) -> &'static [u8] {
    let mut bytes = bytes_of(rt, alloc, digits);
    for _ in 0..levels {
        bytes = as_field(rt, alloc, bytes);
    }
    bytes
}

/// The bytes that nest so.
fn nested(rt: &impl Abort, alloc: Global, nest: Nest) -> &'static [u8] {
    match nest {
        Nest::Messages(levels, digits) => in_messages(rt, alloc, levels, digits),
        Nest::Groups(levels, open, close) => {
            let bytes = lent(rt, alloc, vec![in alloc; open; levels].expect(rt, "memory"));
            let ends = lent(
                rt,
                alloc,
                vec![in alloc; close; levels].expect(rt, "memory"),
            );
            bytes
                .extend_from_slice(ends.as_slice())
                .expect(rt, "memory");
            bytes.as_slice()
        }
    }
}

/// A message type with a message of its own as the field 3 or with groups, bytes of it that nest a hundred levels deep, and
/// those that are written again.
static DEEP: [(&str, Nest, Nest); 5] = [
    (
        "package.MyMessage",
        Nest::Messages(100, ""),
        Nest::Messages(100, ""),
    ),
    // The empty message of an entry is the hundredth level, and an unknown group.
    (
        "a.P",
        Nest::Messages(99, "1200"),
        Nest::Messages(99, "12021200"),
    ),
    (
        "package.MyMessage",
        Nest::Messages(99, "2b2c"),
        Nest::Messages(99, "2b2c"),
    ),
    // Unknown groups, and groups of a field.
    (
        "package.MyMessage",
        Nest::Groups(100, 0x2b, 0x2c),
        Nest::Groups(100, 0x2b, 0x2c),
    ),
    (
        "b.L",
        Nest::Groups(100, 0x0b, 0x0c),
        Nest::Groups(100, 0x0b, 0x0c),
    ),
];

/// Likewise, with one level too many.
static TOO_DEEP: [(&str, Nest); 5] = [
    ("package.MyMessage", Nest::Messages(101, "")),
    ("a.P", Nest::Messages(100, "1200")),
    ("package.MyMessage", Nest::Messages(99, "2b2b2c2c")),
    ("package.MyMessage", Nest::Groups(101, 0x2b, 0x2c)),
    ("b.L", Nest::Groups(101, 0x0b, 0x0c)),
];

/// Whether the bytes are read, and written as the row says.
fn is_deep(rt: &impl Abort, alloc: Global, row: &(&str, Nest, Nest)) -> bool {
    let (name, nest, again) = *row;
    let descriptor = message_type(rt, alloc, Set::Worked, name);
    passes(
        rt,
        alloc,
        descriptor,
        nested(rt, alloc, nest),
        nested(rt, alloc, again),
    )
}

#[test]
fn a_hundred_levels_are_read(rt: HostRuntime) {
    let alloc = rt.alloc();
    for (place, row) in DEEP.iter().enumerate() {
        assert!(rt; is_deep(&rt, alloc, row), "{place}");
    }
    // Empty messages inside one another take two bytes each, and three from the length 128 on.
    assert!(rt; in_messages(&rt, alloc, 100, "").len() == 236);
    assert!(rt; in_messages(&rt, alloc, 101, "").len() == 239);
}

/// Whether the bytes are refused, and the fault stands inside of as many messages and groups as may be open.
fn is_too_deep(rt: &impl Abort, alloc: Global, name: &str, nest: Nest) -> bool {
    let descriptor = message_type(rt, alloc, Set::Worked, name);
    let bytes = nested(rt, alloc, nest);
    let found = lent(
        rt,
        alloc,
        descriptor.decode_fault(bytes).expect(rt, "a fault"),
    );
    fault(rt, alloc, descriptor, bytes) == Some(DecodeError::Depth)
        && found.error() == DecodeError::Depth
        && found.path().len() == 100
}

#[test]
fn one_level_more_is_refused(rt: HostRuntime) {
    for (place, (name, nest)) in TOO_DEEP.iter().enumerate() {
        assert!(rt; is_too_deep(&rt, rt.alloc(), name, *nest), "{place}");
    }
}

/// Entries of the key `a` with the values from 1 to 1000.
fn entries(rt: &impl Abort, alloc: Global) -> &'static [u8] {
    let bytes = lent(rt, alloc, Vec::new(alloc));
    for value in 1..1001_u32 {
        let (low, high) = ((value % 128) as u8, (value / 128 % 128) as u8);
        let entry = [0x0a, 6, 0x0a, 1, b'a', 0x10, low + 128, high];
        bytes.extend_from_slice(&entry).expect(rt, "memory");
    }
    bytes.as_slice()
}

#[test]
fn the_last_of_a_thousand_entries_counts(rt: HostRuntime) {
    let bytes = entries(&rt, rt.alloc());
    let again = [0x0a, 6, 0x0a, 1, b'a', 0x10, 0xe8, 7];
    assert!(rt; is_rewritten(&rt, rt.alloc(), "a.P", bytes, &again));
}
