//! Defaults as they are written in files, and what they are read as.

use prost_reflect_flat::written_default;
use prost_reflect_tables::{TableKind, WrittenDefault};
use std::alloc::{AllocError, Global};
use std::test::Fail;

/// A default that is no text and no bytes.
#[derive(Clone, Copy, PartialEq)]
enum Number {
    Bool(bool),
    I32(i32),
    I64(i64),
    U32(u32),
    U64(u64),
    F32(u32),
    F64(u64),
    Enum(i32),
}

/// A kind, a text, and the default that it is read as, or none.
static NUMBERS: [(TableKind, &str, Option<Number>); 40] = [
    (TableKind::Int32, "-0", Some(Number::I32(0))),
    (
        TableKind::Int32,
        "-2147483648",
        Some(Number::I32(-2_147_483_648)),
    ),
    (TableKind::Int32, "2147483648", None),
    (
        TableKind::Sint32,
        "2147483647",
        Some(Number::I32(2_147_483_647)),
    ),
    (TableKind::Sint32, "-2147483649", None),
    (TableKind::Sfixed32, "00012", Some(Number::I32(12))),
    (TableKind::Sfixed32, "-", None),
    (
        TableKind::Int64,
        "-9223372036854775808",
        Some(Number::I64(-9_223_372_036_854_775_808)),
    ),
    (TableKind::Int64, "9223372036854775808", None),
    (
        TableKind::Sint64,
        "9223372036854775807",
        Some(Number::I64(9_223_372_036_854_775_807)),
    ),
    (TableKind::Sint64, "0x1", None),
    (TableKind::Sfixed64, "-7", Some(Number::I64(-7))),
    (
        TableKind::Uint32,
        "4294967295",
        Some(Number::U32(4_294_967_295)),
    ),
    (TableKind::Uint32, "4294967296", None),
    (TableKind::Fixed32, "00012", Some(Number::U32(12))),
    (TableKind::Fixed32, "-0", None),
    (
        TableKind::Uint64,
        "18446744073709551615",
        Some(Number::U64(18_446_744_073_709_551_615)),
    ),
    (TableKind::Uint64, "18446744073709551616", None),
    (TableKind::Fixed64, "150", Some(Number::U64(150))),
    (TableKind::Fixed64, "", None),
    (TableKind::Bool, "true", Some(Number::Bool(true))),
    (TableKind::Bool, "false", Some(Number::Bool(false))),
    (TableKind::Bool, "True", None),
    (TableKind::Float, "1", Some(Number::F32(0x3f80_0000))),
    (TableKind::Float, "16777216", Some(Number::F32(0x4b80_0000))),
    (TableKind::Float, "16777217", None),
    (TableKind::Float, "-0", Some(Number::F32(0x8000_0000))),
    (TableKind::Float, "inf", Some(Number::F32(0x7f80_0000))),
    (TableKind::Float, "-inf", Some(Number::F32(0xff80_0000))),
    (TableKind::Float, "nan", Some(Number::F32(0x7fc0_0000))),
    (TableKind::Float, "1.5", None),
    (
        TableKind::Double,
        "9007199254740992",
        Some(Number::F64(0x4340_0000_0000_0000)),
    ),
    (
        TableKind::Double,
        "-9007199254740992",
        Some(Number::F64(0xc340_0000_0000_0000)),
    ),
    (TableKind::Double, "9007199254740993", None),
    (
        TableKind::Double,
        "-0",
        Some(Number::F64(0x8000_0000_0000_0000)),
    ),
    (
        TableKind::Double,
        "inf",
        Some(Number::F64(0x7ff0_0000_0000_0000)),
    ),
    (
        TableKind::Double,
        "-inf",
        Some(Number::F64(0xfff0_0000_0000_0000)),
    ),
    (
        TableKind::Double,
        "nan",
        Some(Number::F64(0x7ff8_0000_0000_0000)),
    ),
    (TableKind::Enum(0), "ONE", Some(Number::Enum(1))),
    (TableKind::Message(0), "", None),
];

/// The default as a number, unless it is a text or bytes.
fn number_of(default: &WrittenDefault) -> Option<Number> {
    match default {
        WrittenDefault::Bool(flag) => Some(Number::Bool(*flag)),
        WrittenDefault::I32(number) => Some(Number::I32(*number)),
        WrittenDefault::I64(number) => Some(Number::I64(*number)),
        WrittenDefault::U32(number) => Some(Number::U32(*number)),
        WrittenDefault::U64(number) => Some(Number::U64(*number)),
        WrittenDefault::F32(bits) => Some(Number::F32(*bits)),
        WrittenDefault::F64(bits) => Some(Number::F64(*bits)),
        WrittenDefault::EnumNumber(number) => Some(Number::Enum(*number)),
        WrittenDefault::String(_) | WrittenDefault::Bytes(_) => None,
    }
}

/// Whether the text is read as this number, or as nothing.
fn reads_number(
    alloc: Global,
    kind: TableKind,
    text: &str,
    expected: Option<Number>,
) -> Result<bool, AllocError> {
    match written_default(alloc, kind, Some(1), text)? {
        Some(default) => Ok(number_of(&default) == expected && expected.is_some()),
        None => Ok(expected.is_none()),
    }
}

/// A default of each kind of number is read, and one that is out of its range is not.
#[test]
fn defaults_of_numbers(rt: HostRuntime) -> Result<(), Fail> {
    for (kind, text, expected) in &NUMBERS {
        assert!(rt; reads_number(rt.alloc(), *kind, text, *expected)?, "{text}");
    }
    Ok(())
}

/// A text, and the bytes that it is read as, or none.
static BYTES: [(&str, Option<&[u8]>); 14] = [
    ("", Some(b"")),
    ("\\1012\\n", Some(b"A2\n")),
    ("\\n\\r\\t\\\"\\'\\\\", Some(&[10, 13, 9, 34, 39, 92])),
    ("\\0\\12\\377", Some(&[0, 10, 255])),
    ("\\0089", Some(&[0, b'8', b'9'])),
    ("\\18", Some(&[1, b'8'])),
    ("\\1234", Some(&[0x53, b'4'])),
    ("\u{e9}\"'", Some(&[0xc3, 0xa9, 34, 39])),
    ("\\400", None),
    ("\\8", None),
    ("\\", None),
    ("a\\", None),
    ("\\x41", None),
    ("\\a", None),
];

/// The bytes that the text is read as, or none.
fn bytes_of(alloc: Global, text: &str) -> Result<Option<Vec<u8>>, Fail> {
    match written_default(alloc, TableKind::Bytes, None, text)? {
        Some(WrittenDefault::Bytes(bytes)) => Ok(Some(bytes)),
        Some(_) => Err(Fail::from("a default of another kind")),
        None => Ok(None),
    }
}

/// Whether the text is read as these bytes, or as none.
fn reads_bytes(alloc: Global, text: &str, expected: Option<&[u8]>) -> Result<bool, Fail> {
    match bytes_of(alloc, text)? {
        Some(bytes) => Ok(expected == Some(bytes.as_slice())),
        None => Ok(expected.is_none()),
    }
}

/// Escapes of a letter, of a quote and of a backslash, and of one to three octal digits.
#[test]
fn defaults_of_bytes(rt: HostRuntime) -> Result<(), Fail> {
    for (text, expected) in &BYTES {
        assert!(rt; reads_bytes(rt.alloc(), text, *expected)?, "{text}");
    }
    Ok(())
}

/// A text is the default as it stands.
#[test]
fn a_default_of_a_text(rt: HostRuntime) -> Result<(), Fail> {
    let text = String::from_str(rt.alloc(), "a\\n")?;
    let read = written_default(rt.alloc(), TableKind::String, None, "a\\n")?;
    assert!(rt; read == Some(WrittenDefault::String(text)));
    Ok(())
}
