//! Unknown fields, listed and taken.

use crate::fields::types::{is_written, message_of, my_message};
use prost_reflect::{
    DynamicMessage, TakenUnknownFields, UnknownField, UnknownFieldValue, UnknownFields, Value,
};
use std::alloc::Global;
use std::test::Fail;

/// What protoc writes for `c`, of proto2: `message C { oneof o { E x = 4; int32 y = 5; } } enum E { A = 0; B = 1; }`.
static CLOSED: &[u8] =
    b"\x0aD\x0a\x01c\",\x0a\x01C\x12\x12\x0a\x01x\x18\x04 \x01(\x0e2\x02.EH\x00R\x01x\x12\x0e\x0a\
    \x01y\x18\x05 \x01(\x05H\x00R\x01yB\x03\x0a\x01o*\x11\x0a\x01E\x12\x05\x0a\x01A\x10\x00\x12\
    \x05\x0a\x01B\x10\x01";

/// The bytes of a message of `MyMessage`, its unknown varints in ascending number, what is written of it, and what it means once
/// they are taken. A number that no field has is unknown, and a stored default is not.
static UNKNOWN: [UnknownRow; 2] = [
    (
        b"\x30\x01\x28\x02\x28\x01",
        &[(5, 2), (5, 1), (6, 1)],
        b"\x28\x02\x28\x01\x30\x01",
        b"",
    ),
    (b"\x28\x02\x08\x00", &[(5, 2)], b"\x28\x02", b"\x08\x00"),
];

/// The same of messages of `C`: a 7 is a stray of `x`, and stays beside a value of it and beside a sibling.
static STRAYS: [UnknownRow; 2] = [
    (
        b"\x20\x07\x20\x01",
        &[(4, 7)],
        b"\x20\x01\x20\x07",
        b"\x20\x01",
    ),
    (
        b"\x20\x07\x28\x05",
        &[(4, 7)],
        b"\x20\x07\x28\x05",
        b"\x28\x05",
    ),
];

type UnknownRow = (
    &'static [u8],
    &'static [(u32, u64)],
    &'static [u8],
    &'static [u8],
);

/// The message of `C` that the bytes mean.
fn closed(alloc: Global, bytes: &[u8]) -> Result<&'static mut DynamicMessage, Fail> {
    message_of(alloc, CLOSED, "C", bytes)
}

/// Whether there is a row, and the field is a varint of its number and its value.
pub(crate) fn is_varint(field: &UnknownField, row: Option<&(u32, u64)>) -> bool {
    match (field.value(), row) {
        (UnknownFieldValue::Varint(value), Some(row)) => {
            field.number() == row.0 && *value == row.1
        }
        _ => false,
    }
}

/// Whether these unknown fields are varints of the numbers and the values.
fn are_varints(fields: UnknownFields<'_>, expected: &[(u32, u64)]) -> bool {
    let mut rows = expected.iter();
    let mut all = true;
    for field in fields {
        all &= is_varint(field, rows.next());
    }
    all && rows.next().is_none()
}

/// The same of fields that were taken.
fn are_taken_varints(fields: TakenUnknownFields, expected: &[(u32, u64)]) -> bool {
    let mut rows = expected.iter();
    let mut all = true;
    for field in fields {
        all &= is_varint(&field, rows.next());
    }
    all && rows.next().is_none()
}

/// Whether the unknown fields are the row's, are written in their order, and are taken, and the rest of the message is left.
fn gives_unknown(
    alloc: Global,
    message: &mut DynamicMessage,
    rest: &DynamicMessage,
    (_, rows, written, _): &UnknownRow,
) -> Result<bool, Fail> {
    let are_listed = are_varints(message.unknown_fields(), rows);
    let are_written = is_written(alloc, message, written)?;
    let are_taken = are_taken_varints(message.take_unknown_fields(alloc)?, rows);
    Ok(are_listed && are_written && are_taken && *message == *rest)
}

/// Whether a stray of 7 stays where `y`, of the same oneof, is set to what it is.
fn keeps_stray(alloc: Global) -> Result<bool, Fail> {
    let message = closed(alloc, &[0x20, 7, 0x28, 5])?;
    message.try_set_field_by_name("y", Value::I32(5))?;
    Ok(
        are_varints(message.unknown_fields(), &[(4, 7)])
            && *message == *closed(alloc, &[0x20, 7, 0x28, 5])?,
    )
}

#[test]
fn unknown_fields_are_listed_written_and_taken(rt: HostRuntime) -> Result<(), Fail> {
    for row in &UNKNOWN {
        let (message, rest) = (
            my_message(rt.alloc(), row.0)?,
            my_message(rt.alloc(), row.3)?,
        );
        assert!(rt; gives_unknown(rt.alloc(), message, rest, row)?);
    }
    for row in &STRAYS {
        let (message, rest) = (closed(rt.alloc(), row.0)?, closed(rt.alloc(), row.3)?);
        assert!(rt; gives_unknown(rt.alloc(), message, rest, row)?);
    }
    assert!(rt; keeps_stray(rt.alloc())?);
    Ok(())
}
