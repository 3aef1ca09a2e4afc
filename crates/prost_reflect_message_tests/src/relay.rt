//! What older message types relay, and what newer ones read of it.

use crate::contents::shown;
use crate::levels::in_messages;
use crate::worked::{Set, bytes_of, decoded, lent, message_type, passes};
use prost_reflect::{
    DecodeError, MessageDescriptor, RelayError, RelayHexError, RelayWithError, Value, relay,
    relay_hex, relay_with,
};
use std::alloc::Global;
use std::process::Abort;

/// A message type, the digits of bytes, those of what its older form relays them as, and what its newer form shows of both.
/// The older forms of `Q` and `C` are no reductions: members of a oneof are missing, and a number of a closed enum.
type Row = (
    &'static str,
    &'static str,
    &'static str,
    &'static str,
    &'static str,
);

static ROWS: [Row; 6] = [
    (
        "package.MyMessage",
        "1a0410420805",
        "1a0408051042",
        "3={1=5 2=66 } ",
        "3={1=5 2=66 } ",
    ),
    (
        "package.MyMessage",
        "1A0410420805",
        "1a0408051042",
        "3={1=5 2=66 } ",
        "3={1=5 2=66 } ",
    ),
    (
        "P",
        "12000a00",
        "0a0012021200",
        "1=(:0 ) 2=(0:{} ) ",
        "1=(:0 ) 2=(0:{} ) ",
    ),
    ("Foo", "08010802", "0a020102", "1=[1 2 ] ", "1=[1 2 ] "),
    ("Q", "12000801", "08011200", "1=1 ", "2={} "),
    ("C", "08010800", "08000801", "1=0 ", "1=1 "),
];

/// Whether the newer form of a type shows this text of the digits' bytes.
fn is_shown_by_newer(rt: &impl Abort, alloc: Global, name: &str, digits: &str, text: &str) -> bool {
    let newer = message_type(rt, alloc, Set::Newer, name);
    shown(
        rt,
        alloc,
        decoded(rt, alloc, newer, bytes_of(rt, alloc, digits)),
    ) == text
}

/// Whether the bytes are relayed as others by an older type.
pub(crate) fn relays_bytes(
    rt: &impl Abort,
    alloc: Global,
    older: &MessageDescriptor,
    bytes: &[u8],
    again: &[u8],
) -> bool {
    let relayed = relay(alloc, older, bytes).expect(rt, "a message");
    relayed.as_slice() == again
}

/// Whether the digits are relayed as others by an older type.
pub(crate) fn relays_digits(
    rt: &impl Abort,
    alloc: Global,
    older: &MessageDescriptor,
    digits: &str,
    again: &str,
) -> bool {
    let relayed = relay_hex(alloc, older, digits).expect(rt, "a message");
    relayed.as_str() == again
}

/// Whether the digits, and the bytes that they spell, are relayed as the row says by the older type, as they are read and written
/// by it; and the newer type shows what the row says.
fn is_relayed(rt: &impl Abort, alloc: Global, row: &Row) -> bool {
    let (name, digits, again, first, second) = *row;
    let older = message_type(rt, alloc, Set::Older, name);
    let bytes = bytes_of(rt, alloc, digits);
    let expected = bytes_of(rt, alloc, again);
    relays_digits(rt, alloc, older, digits, again)
        && relays_bytes(rt, alloc, older, bytes, expected)
        && passes(rt, alloc, older, bytes, expected)
        && is_shown_by_newer(rt, alloc, name, digits, first)
        && is_shown_by_newer(rt, alloc, name, again, second)
}

#[test]
fn messages_pass_through_older_types(rt: HostRuntime) {
    for row in &ROWS {
        assert!(rt; is_relayed(&rt, rt.alloc(), row), "{}", row.1);
    }
}

/// Texts that `MyMessage` in its older form does not relay.
static REFUSED: [(&str, RelayHexError); 3] = [
    ("1a0", RelayHexError::Hex),
    ("1x", RelayHexError::Hex),
    (
        "1a04104208",
        RelayHexError::Relay(RelayError::Decode(DecodeError::Truncated)),
    ),
];

#[test]
fn what_is_not_relayed_is_named(rt: HostRuntime) {
    let older = message_type(&rt, rt.alloc(), Set::Older, "package.MyMessage");
    for (digits, refusal) in &REFUSED {
        let found = relay_hex(rt.alloc(), older, digits).err();
        assert!(rt; found == Some(*refusal), "{digits}");
    }
}

/// A value to set.
#[derive(Clone, Copy)]
enum Setting {
    I32(i32),
    EnumNumber(i32),
    EmptyList,
}

/// What is written of the bytes with the value set at the path, or why it is not set.
fn edited(
    alloc: Global,
    older: &MessageDescriptor,
    bytes: &[u8],
    path: &[u32],
    setting: Setting,
) -> Result<Vec<u8>, RelayWithError> {
    let value = match setting {
        Setting::I32(number) => Value::I32(number),
        Setting::EnumNumber(number) => Value::EnumNumber(number),
        Setting::EmptyList => Value::List(Vec::new(alloc)),
    };
    relay_with(alloc, older, bytes, path, value)
}

/// A descriptor set, a message type, the digits of bytes, a path, the value that is set there, and the digits of what is written
/// then, or why it is not set.
type Edit = (
    Set,
    &'static str,
    &'static str,
    &'static [u32],
    Setting,
    Result<&'static str, RelayWithError>,
);

static EDITS: [Edit; 15] = [
    (
        Set::Older,
        "package.MyMessage",
        "08051042",
        &[2],
        Setting::I32(7),
        Ok("08051007"),
    ),
    (
        Set::Older,
        "package.MyMessage",
        "1a0408051042",
        &[3, 2],
        Setting::I32(7),
        Ok("1a0408051007"),
    ),
    (
        Set::Older,
        "package.MyMessage",
        "",
        &[3, 3, 2],
        Setting::I32(0),
        Ok("1a041a021000"),
    ),
    // Values take the place of others.
    (
        Set::Newer,
        "Q",
        "12021042",
        &[1],
        Setting::I32(0),
        Ok("0800"),
    ),
    (
        Set::Newer,
        "C",
        "0807",
        &[1],
        Setting::EnumNumber(1),
        Ok("08010807"),
    ),
    (
        Set::Worked,
        "C",
        "0807",
        &[1],
        Setting::EnumNumber(1),
        Ok("08010807"),
    ),
    // A list of groups is emptied, and one of messages, beside which what is unknown is kept.
    (
        Set::Groups,
        "G",
        "0b08010c",
        &[1],
        Setting::EmptyList,
        Ok(""),
    ),
    (
        Set::Repeated,
        "R",
        "0a001003",
        &[1],
        Setting::EmptyList,
        Ok("1003"),
    ),
    // No path, a number of no field, a path that goes on through a scalar, and an extension.
    (
        Set::Newer,
        "package.MyMessage",
        "",
        &[],
        Setting::I32(0),
        Err(RelayWithError::NotFound),
    ),
    (
        Set::Newer,
        "package.MyMessage",
        "08",
        &[42],
        Setting::I32(0),
        Err(RelayWithError::NotFound),
    ),
    (
        Set::Newer,
        "package.MyMessage",
        "08",
        &[1, 1],
        Setting::I32(0),
        Err(RelayWithError::NotFound),
    ),
    (
        Set::Newer,
        "Foo",
        "",
        &[100],
        Setting::EmptyList,
        Err(RelayWithError::NotFound),
    ),
    (
        Set::Newer,
        "C",
        "0807",
        &[1],
        Setting::EnumNumber(7),
        Err(RelayWithError::InvalidType),
    ),
    (
        Set::Worked,
        "C",
        "0807",
        &[1],
        Setting::EnumNumber(7),
        Err(RelayWithError::InvalidType),
    ),
    (
        Set::Newer,
        "package.MyMessage",
        "08",
        &[1],
        Setting::I32(5),
        Err(RelayWithError::Decode(DecodeError::Truncated)),
    ),
];

/// Whether the bytes are edited as the row says, or refused.
fn is_edited(rt: &impl Abort, alloc: Global, edit: &Edit) -> bool {
    let (set, name, digits, path, setting, answer) = *edit;
    let older = message_type(rt, alloc, set, name);
    let bytes = bytes_of(rt, alloc, digits);
    match edited(alloc, older, bytes, path, setting) {
        Ok(written) => match answer {
            Ok(again) => written.as_slice() == bytes_of(rt, alloc, again),
            Err(_) => false,
        },
        Err(refusal) => answer.err() == Some(refusal),
    }
}

#[test]
fn values_are_set_through_types(rt: HostRuntime) {
    for (place, edit) in EDITS.iter().enumerate() {
        assert!(rt; is_edited(&rt, rt.alloc(), edit), "{place}");
    }
    assert!(rt; is_shown_by_newer(&rt, rt.alloc(), "package.MyMessage", "08051007", "1=5 2=7 "));
}

#[test]
fn a_path_goes_down_a_hundred_levels(rt: HostRuntime) {
    let alloc = rt.alloc();
    let older = message_type(&rt, alloc, Set::Older, "package.MyMessage");
    let newer = message_type(&rt, alloc, Set::Newer, "package.MyMessage");
    let mut path = [3; 102];
    path[101] = 2;
    let expected = in_messages(&rt, alloc, 100, "1000");
    let written = edited(alloc, older, &[], &path[1..], Setting::I32(0));
    let written = lent(&rt, alloc, written.expect(&rt, "an edit"));
    assert!(rt; written.as_slice() == expected);
    assert!(rt; decoded(&rt, alloc, newer, expected).has_field_by_number(3));
    let refused = edited(alloc, older, &[], &path, Setting::I32(0)).err();
    assert!(rt; refused == Some(RelayWithError::NotFound));
}

/// Why an empty message is not set at the field 3 in the bytes, if it is not.
fn message_refusal(rt: &impl Abort, alloc: Global, bytes: &[u8]) -> Option<RelayWithError> {
    let descriptor = message_type(rt, alloc, Set::Newer, "package.MyMessage");
    let message = decoded(rt, alloc, descriptor, b"")
        .clone()
        .expect(rt, "memory");
    relay_with(alloc, descriptor, bytes, &[3], Value::Message(message)).err()
}

#[test]
fn messages_are_not_set(rt: HostRuntime) {
    let refused = Some(RelayWithError::HoldsMessage);
    assert!(rt; message_refusal(&rt, rt.alloc(), b"") == refused);
    assert!(rt; message_refusal(&rt, rt.alloc(), b"\x08") == refused);
}
