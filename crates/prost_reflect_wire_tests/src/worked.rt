//! The parts of worked fields: a group, values of fixed width, varints, and what is delimited.

use prost_reflect_wire::{
    DecodeError, RECURSION_LIMIT, UnknownField, UnknownFieldSet, UnknownFieldValue,
};
use std::alloc::Global;
use std::test::Fail;

/// The group of the number 3 with `hello`, 10 and 11, and what stands behind it.
static GROUP_AND_TAIL: &[u8] = b"\x1b\x0a\x05hello\x10\x0a\x10\x0b\x1ctail";

/// Whether the set has `hello` at the number 1, and 10 and 11 at the number 2.
fn is_hello_10_11(set: &UnknownFieldSet) -> bool {
    let mut fields = set.iter();
    let (Some(hello), Some(ten), Some(eleven)) = (fields.next(), fields.next(), fields.next())
    else {
        return false;
    };
    let UnknownFieldValue::LengthDelimited(text) = hello.value() else {
        return false;
    };
    set.len() == 3
        && (hello.number(), ten.number(), eleven.number()) == (1, 2, 2)
        && text.as_slice() == b"hello".as_slice()
        && *ten.value() == UnknownFieldValue::Varint(10)
        && *eleven.value() == UnknownFieldValue::Varint(11)
}

/// Whether the value is the group with these fields.
fn is_group_of_three(value: &UnknownFieldValue) -> bool {
    match value {
        UnknownFieldValue::Group(set) => is_hello_10_11(set),
        _ => false,
    }
}

#[test]
fn a_group_has_its_fields_in_order(rt: HostRuntime) -> Result<(), Fail> {
    let mut cursor = GROUP_AND_TAIL;
    let field = UnknownField::decode(rt.alloc(), &mut cursor, RECURSION_LIMIT)?;
    assert!(rt; cursor == b"tail".as_slice() && is_group_of_three(field.value()));
    Ok(())
}

/// Where no level may be opened, the cursor stays.
#[test]
fn a_refused_group_is_not_passed(rt: HostRuntime) -> Result<(), Fail> {
    let mut cursor = GROUP_AND_TAIL;
    let refused = UnknownField::decode(rt.alloc(), &mut cursor, 0).err();
    assert!(rt; refused == Some(DecodeError::Depth) && cursor == GROUP_AND_TAIL);
    Ok(())
}

/// Bytes of a field, its wire type's number, its number, and its value in eight bytes at most, the last of least weight.
static NUMBERS: [(&[u8], u8, u32, u64); 4] = [
    (
        b"\x09\x9a\x99\x99\x99\x99\x99\xf1\x3f",
        1,
        1,
        0x3ff1_9999_9999_999a,
    ),
    (b"\x15\xcd\xcc\x0c\x40", 5, 2, 0x400c_cccd),
    (b"\x18\x03", 0, 3, 3),
    (b"\x18\x83\x00", 0, 3, 3),
];

/// The number that the value is, unless it is delimited or a group.
fn number_in(value: &UnknownFieldValue) -> Option<u64> {
    match value {
        UnknownFieldValue::Varint(number) => Some(*number),
        UnknownFieldValue::SixtyFourBit(bytes) => Some(u64::from_le_bytes(*bytes)),
        UnknownFieldValue::ThirtyTwoBit(bytes) => Some(u64::from(u32::from_le_bytes(*bytes))),
        _ => None,
    }
}

/// Whether the bytes are a field of the wire type and of the number, with this value.
fn has_number(
    alloc: Global,
    bytes: &[u8],
    code: u8,
    number: u32,
    value: u64,
) -> Result<bool, Fail> {
    let mut cursor = bytes;
    let field = UnknownField::decode(alloc, &mut cursor, RECURSION_LIMIT)?;
    let is_numbered = field.number() == number && field.wire_type().code() == code;
    Ok(is_numbered && number_in(field.value()) == Some(value))
}

/// The bytes of a delimited field, its number, and what is delimited.
static DELIMITED: [(&[u8], u32, &[u8]); 2] = [
    (
        b"\x7a\x07\x69\xa6\xbe\x6d\xb6\xff\x58",
        15,
        b"\x69\xa6\xbe\x6d\xb6\xff\x58",
    ),
    (b"\x1a\x02\x10\x42", 3, b"\x10\x42"),
];

/// Whether the field is of the number, and these bytes are delimited.
fn is_delimited(field: &UnknownField, number: u32, inside: &[u8]) -> bool {
    match field.value() {
        UnknownFieldValue::LengthDelimited(held) => {
            held.as_slice() == inside && field.number() == number
        }
        _ => false,
    }
}

/// Whether the bytes are a field of the number with these bytes in it.
fn has_bytes(alloc: Global, bytes: &[u8], number: u32, inside: &[u8]) -> Result<bool, Fail> {
    let mut cursor = bytes;
    let field = UnknownField::decode(alloc, &mut cursor, RECURSION_LIMIT)?;
    Ok(is_delimited(&field, number, inside))
}

#[test]
fn fields_have_their_values(rt: HostRuntime) -> Result<(), Fail> {
    for (bytes, code, number, value) in NUMBERS {
        assert!(rt;
            has_number(rt.alloc(), bytes, code, number, value)?,
            "{bytes:?}"
        );
    }
    for (bytes, number, inside) in DELIMITED {
        assert!(rt; has_bytes(rt.alloc(), bytes, number, inside)?, "{bytes:?}");
    }
    Ok(())
}
