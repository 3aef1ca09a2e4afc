//! Bytes that are merged into messages.

use crate::worked::{Set, bytes_of, decoded, empty, is_written, message_type};
use prost_reflect::{DecodeError, DynamicMessage};
use std::alloc::Global;
use std::process::Abort;

/// A message type, the digits of what is merged into a new message of it and of what is merged behind that, why the latter is
/// refused, if it is, and the digits that mean what the message is then, and those of what it is written as.
type Row = (
    &'static str,
    &'static str,
    &'static str,
    Option<DecodeError>,
    &'static str,
    &'static str,
);

static ROWS: [Row; 11] = [
    // Pieces that are merged mean what they mean as one: messages join, and a scalar is its last record,
    (
        "package.MyMessage",
        "1a020805",
        "1a021042",
        None,
        "1a0208051a021042",
        "1a0408051042",
    ),
    ("package.MyMessage", "0805", "0800", None, "08050800", ""),
    (
        "package.MyMessage",
        "0805",
        "0807",
        None,
        "08050807",
        "0807",
    ),
    ("package.MyMessage", "1005", "", None, "1005", "1005"),
    // a list's elements stand behind those that are there, and an entry replaces one of its key,
    (
        "Foo",
        "08010802",
        "0a0103",
        None,
        "080108020a0103",
        "080108020803",
    ),
    (
        "P",
        "0a050a01611001",
        "0a050a01611002",
        None,
        "0a050a016110010a050a01611002",
        "0a050a01611002",
    ),
    // and the other member of the oneof goes, and unknown fields stay in their order.
    ("Q", "0805", "12021042", None, "080512021042", "12021042"),
    (
        "package.MyMessage",
        "280130012802",
        "28033002",
        None,
        "28013001280228033002",
        "28012802280330013002",
    ),
    // A merge that is refused changes nothing.
    (
        "package.MyMessage",
        "0805",
        "08011800",
        Some(DecodeError::WireType),
        "0805",
        "0805",
    ),
    (
        "package.MyMessage",
        "1a020805",
        "1a0210421a0310",
        Some(DecodeError::Truncated),
        "1a020805",
        "1a020805",
    ),
    (
        "package.MyMessage",
        "0805",
        "00",
        Some(DecodeError::Key),
        "0805",
        "0805",
    ),
];

/// Merges the digits' bytes into the message, and answers why they are refused, if they are.
fn merge_digits(
    rt: &impl Abort,
    alloc: Global,
    message: &mut DynamicMessage,
    digits: &str,
) -> Option<DecodeError> {
    let bytes = bytes_of(rt, alloc, digits);
    assert!(rt; message.is_encodable());
    assert!(rt; message.is_typed());
    message.merge(bytes).err()
}

/// Whether both merges answer as the row says, and the message is then as it says.
fn becomes(rt: &impl Abort, alloc: Global, row: &Row) -> bool {
    let (name, front, behind, refusal, meant, again) = *row;
    let descriptor = message_type(rt, alloc, Set::Newer, name);
    let message = empty(rt, alloc, descriptor);
    merge_digits(rt, alloc, message, front).is_none()
        && merge_digits(rt, alloc, message, behind) == refusal
        && *message == *decoded(rt, alloc, descriptor, bytes_of(rt, alloc, meant))
        && is_written(rt, alloc, message, bytes_of(rt, alloc, again))
}

#[test]
fn pieces_are_merged_or_change_nothing(rt: HostRuntime) {
    for row in &ROWS {
        assert!(rt; becomes(&rt, rt.alloc(), row), "{} {}", row.1, row.2);
    }
}

/// A 0 that is merged takes the place of a 5, and is no value of a field without presence.
#[test]
fn a_merged_default_is_not_had(rt: HostRuntime) {
    let descriptor = message_type(&rt, rt.alloc(), Set::Newer, "package.MyMessage");
    let message = empty(&rt, rt.alloc(), descriptor);
    assert!(rt; merge_digits(&rt, rt.alloc(), message, "0805").is_none());
    assert!(rt; message.has_field_by_number(1));
    assert!(rt; merge_digits(&rt, rt.alloc(), message, "0800").is_none());
    assert!(rt; !message.has_field_by_number(1));
}
