//! Worked bytes that are refused, and a worked message that ends too early.

use crate::worked::{Set, bytes_of, fault, lent, message_type};
use prost_reflect::DecodeError;
use std::alloc::Global;
use std::process::Abort;

/// A message type, the digits of bytes, why they are refused, how many bytes stand before the record at fault, and the numbers of
/// the fields that it stands in.
type Row = (
    &'static str,
    &'static str,
    DecodeError,
    usize,
    &'static [u32],
);

static REFUSED: [Row; 27] = [
    // A tenth byte above 1, and an eleventh byte.
    (
        "package.MyMessage",
        "08ffffffffffffffffff02",
        DecodeError::Varint,
        0,
        &[],
    ),
    (
        "package.MyMessage",
        "088080808080808080808000",
        DecodeError::Varint,
        0,
        &[],
    ),
    // No number, no such wire type, and a key past 32 bits.
    ("package.MyMessage", "00", DecodeError::Key, 0, &[]),
    ("package.MyMessage", "0e", DecodeError::Key, 0, &[]),
    ("package.MyMessage", "8080808010", DecodeError::Key, 0, &[]),
    ("package.MyMessage", "080108010e", DecodeError::Key, 4, &[]),
    // A number for a map, and for its entry's key; a message for a group, and four bytes for a number.
    ("a.P", "0805", DecodeError::WireType, 0, &[]),
    ("a.P", "0a020801", DecodeError::WireType, 2, &[1]),
    ("a.P", "1a040a020801", DecodeError::WireType, 4, &[3, 1]),
    ("b.G", "0a020801", DecodeError::WireType, 0, &[]),
    ("b.Foo", "0d00000000", DecodeError::WireType, 0, &[]),
    ("package.MyMessage", "1b1c", DecodeError::WireType, 0, &[]),
    // A group is closed by its own number, where it stands.
    ("b.G", "0b080114", DecodeError::EndGroup, 3, &[1]),
    ("package.MyMessage", "0c", DecodeError::EndGroup, 0, &[]),
    (
        "package.MyMessage",
        "1a010c",
        DecodeError::EndGroup,
        2,
        &[3],
    ),
    ("package.MyMessage", "2b34", DecodeError::EndGroup, 1, &[5]),
    ("package.MyMessage", "2b3300", DecodeError::Key, 2, &[5, 6]),
    ("a.S", "0a01ff", DecodeError::Utf8, 0, &[]),
    // A text, a number, a message and a group that end too early, and a message that ends inside a record.
    ("a.S", "0a0561", DecodeError::Truncated, 0, &[]),
    ("package.MyMessage", "0896", DecodeError::Truncated, 0, &[]),
    ("package.MyMessage", "1a05", DecodeError::Truncated, 0, &[]),
    (
        "package.MyMessage",
        "1affffffffffffffffff01",
        DecodeError::Truncated,
        0,
        &[],
    ),
    (
        "package.MyMessage",
        "1a031a05080801",
        DecodeError::Truncated,
        2,
        &[3],
    ),
    ("package.MyMessage", "2b", DecodeError::Truncated, 1, &[5]),
    ("b.Foo", "0a0180", DecodeError::Truncated, 0, &[]),
    // The last record of a message, and of the message in the entry of a map.
    (
        "package.MyMessage",
        "08011a0210ff",
        DecodeError::Truncated,
        4,
        &[3],
    ),
    ("a.P", "1204120208ff", DecodeError::Truncated, 4, &[2, 2]),
];

/// Whether the digits' bytes are refused as a message of the worked type, and the fault stands where it does.
fn is_refused(rt: &impl Abort, alloc: Global, row: &Row) -> bool {
    let (name, digits, error, offset, path) = *row;
    let descriptor = message_type(rt, alloc, Set::Worked, name);
    let bytes = bytes_of(rt, alloc, digits);
    let found = lent(
        rt,
        alloc,
        descriptor.decode_fault(bytes).expect(rt, "a fault"),
    );
    fault(rt, alloc, descriptor, bytes) == Some(error)
        && found.error() == error
        && found.offset() == offset
        && found.path() == path
}

#[test]
fn worked_bytes_are_refused(rt: HostRuntime) {
    for row in &REFUSED {
        assert!(rt; is_refused(&rt, rt.alloc(), row), "{}", row.1);
    }
}

/// Bytes that are refused, and the text of their fault, which names the path, where there is one, and the offset.
static SHOWN: [(&[u8], &str); 2] = [
    (b"\x0e", "at 0: a key has no field number or no wire type"),
    (
        b"\x2b\x33\x00",
        "5.6 at 2: a key has no field number or no wire type",
    ),
];

/// Whether the fault of the bytes is shown as the text.
fn is_shown(rt: &impl Abort, alloc: Global, bytes: &[u8], text: &str) -> bool {
    let descriptor = message_type(rt, alloc, Set::Worked, "package.MyMessage");
    let found = descriptor.decode_fault(bytes).expect(rt, "a fault");
    let shown = format!(in alloc; "{found}").expect(rt, "memory");
    shown.as_str() == text
}

#[test]
fn faults_are_shown(rt: HostRuntime) {
    for (bytes, text) in &SHOWN {
        assert!(rt; is_shown(&rt, rt.alloc(), bytes, text), "{text}");
    }
}

/// A part that ends between records is read.
#[test]
fn a_message_ends_between_its_records(rt: HostRuntime) {
    let bytes = [0x08, 0x96, 0x01, 0x1a, 0x02, 0x10, 0x42];
    let descriptor = message_type(&rt, rt.alloc(), Set::Worked, "package.MyMessage");
    for len in 0..7 {
        let found = fault(&rt, rt.alloc(), descriptor, &bytes[..len]);
        let is_cut = len != 0 && len != 3;
        assert!(rt; found == is_cut.then_some(DecodeError::Truncated), "{len}");
    }
}
