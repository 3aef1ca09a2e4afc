//! The fields and extensions of messages as lists, and taking them all.

use crate::fields::types::{choices, message_of};
use prost_reflect::{DynamicMessage, Present, TakenExtensions, TakenFields, Value};
use prost_reflect_samples::{leaked, sets};
use std::alloc::{AllocError, Global};
use std::test::Fail;

/// A number of a field or an extension, and its value.
type Row = (u32, i32);

/// Whether there is a row of the number and the value.
fn is_row(row: Option<&Row>, number: u32, value: &Value) -> bool {
    match row {
        Some(row) => row.0 == number && value.as_i32() == Some(row.1),
        None => false,
    }
}

/// Whether the message has these fields, each with its number.
fn has_fields(message: &DynamicMessage, expected: &[Row]) -> Result<bool, AllocError> {
    let mut rows = expected.iter();
    let mut all = true;
    for item in message.fields() {
        let (field, value) = item?;
        all &= is_row(rows.next(), field.number(), &value);
    }
    Ok(all && rows.next().is_none())
}

fn has_extensions(message: &DynamicMessage, expected: &[Row]) -> Result<bool, AllocError> {
    let mut rows = expected.iter();
    let mut all = true;
    for item in message.extensions() {
        let (extension, value) = item?;
        all &= is_row(rows.next(), extension.number(), &value);
    }
    Ok(all && rows.next().is_none())
}

/// Whether these fields were taken, each with its number.
fn are_fields(taken: TakenFields, expected: &[Row]) -> bool {
    let mut rows = expected.iter();
    let mut all = true;
    for (field, value) in taken {
        all &= is_row(rows.next(), field.number(), &value);
    }
    all && rows.next().is_none()
}

fn are_extensions(taken: TakenExtensions, expected: &[Row]) -> bool {
    let mut rows = expected.iter();
    let mut all = true;
    for (extension, value) in taken {
        all &= is_row(rows.next(), extension.number(), &value);
    }
    all && rows.next().is_none()
}

/// Whether these are the numbers of the rows.
fn are_numbers(numbers: &[u32], expected: &[Row]) -> bool {
    let mut rows = expected.iter();
    let mut all = true;
    for number in numbers {
        all &= match rows.next() {
            Some(row) => row.0 == *number,
            None => false,
        };
    }
    all && rows.next().is_none()
}

/// 5 in the field `f1`, an undeclared number of the closed enum in `f5`, 7 in the extension `f12`, and an unknown field of the number 20.
const MIXED: &[u8] = &[0x08, 5, 0x28, 7, 0x60, 7, 0xa0, 1, 3];

/// A message of a type of a name in `worked`, or of `Choices`.
struct Case {
    name: &'static str,
    bytes: &'static [u8],
    fields: &'static [Row],
    extensions: &'static [Row],
    /// What is left where the extensions are taken, where the fields are, and where both are.
    without_extensions: &'static [u8],
    without_fields: &'static [u8],
    without_both: &'static [u8],
}

static CASES: [Case; 5] = [
    // 0 has presence in a oneof, and a stored 0 has none elsewhere.
    Case {
        name: "package.MyMessage",
        bytes: b"\x08\x96\x01\x10\x00",
        fields: &[(1, 150), (2, 0)],
        extensions: &[],
        without_extensions: b"\x08\x96\x01\x10\x00",
        without_fields: b"",
        without_both: b"",
    },
    Case {
        name: "package.MyMessage",
        bytes: b"\x08\x00\x10\x00",
        fields: &[(2, 0)],
        extensions: &[],
        without_extensions: b"\x08\x00\x10\x00",
        without_fields: b"",
        without_both: b"",
    },
    Case {
        name: "package.MyMessage",
        bytes: b"\x08\x00",
        fields: &[],
        extensions: &[],
        without_extensions: b"\x08\x00",
        without_fields: b"",
        without_both: b"",
    },
    // What is neither stays.
    Case {
        name: "Choices",
        bytes: MIXED,
        fields: &[(1, 5)],
        extensions: &[(12, 7)],
        without_extensions: &[0x08, 5, 0x28, 7, 0xa0, 1, 3],
        without_fields: &[0x28, 7, 0x60, 7, 0xa0, 1, 3],
        without_both: &[0x28, 7, 0xa0, 1, 3],
    },
    // A packed record without numbers stores an empty list, which is no value and is taken away with the others.
    Case {
        name: "b.Foo",
        bytes: b"\x0a\x00\xa2\x06\x00",
        fields: &[],
        extensions: &[],
        without_extensions: b"\x0a\x00",
        without_fields: b"\xa2\x06\x00",
        without_both: b"",
    },
];

/// The message of the type that the bytes mean.
fn message_named(
    alloc: Global,
    name: &str,
    bytes: &[u8],
) -> Result<&'static mut DynamicMessage, Fail> {
    if name == "Choices" {
        choices(alloc, bytes)
    } else {
        message_of(alloc, sets::worked(), name, bytes)
    }
}

/// Whether the fields and the extensions are listed apart, and so are their numbers.
fn lists_apart(alloc: Global, message: &DynamicMessage, case: &Case) -> Result<bool, AllocError> {
    let fields = leaked(alloc, message.field_numbers(alloc)?)?;
    let extensions = leaked(alloc, message.extension_numbers(alloc)?)?;
    Ok(
        has_fields(message, case.fields)?
            && has_extensions(message, case.extensions)?
            && are_numbers(fields.as_slice(), case.fields)
            && are_numbers(extensions.as_slice(), case.extensions),
    )
}

/// Whether the extensions are taken, and then the fields, and the rest is left.
fn gives_both(alloc: Global, case: &Case) -> Result<bool, Fail> {
    let message = message_named(alloc, case.name, case.bytes)?;
    Ok(
        lists_apart(alloc, message, case)?
            && are_extensions(message.take_extensions(alloc)?, case.extensions)
            && *message == *message_named(alloc, case.name, case.without_extensions)?
            && are_fields(message.take_fields(alloc)?, case.fields)
            && *message == *message_named(alloc, case.name, case.without_both)?,
    )
}

/// Whether the fields alone are taken.
fn gives_fields(alloc: Global, case: &Case) -> Result<bool, Fail> {
    let message = message_named(alloc, case.name, case.bytes)?;
    Ok(
        are_fields(message.take_fields(alloc)?, case.fields)
            && *message == *message_named(alloc, case.name, case.without_fields)?,
    )
}

/// Adds a line of what the message has at a number: an `int32` with its value, unknown fields with how many there are.
fn add_line(lines: &mut String, present: &Present<'_>) -> Result<(), AllocError> {
    match present {
        Present::Field(field, value) => {
            write!(lines, "field {} {:?}\n", field.number(), value.as_i32())
        }
        Present::Extension(extension, value) => {
            write!(
                lines,
                "extension {} {:?}\n",
                extension.number(),
                value.as_i32()
            )
        }
        Present::Unknown(number, unknown) => write!(lines, "unknown {number} {}\n", unknown.len()),
    }
}

/// The lines of all that the message has.
fn lines_of(alloc: Global, message: &DynamicMessage) -> Result<&'static String, AllocError> {
    let lines = leaked(alloc, String::new(alloc))?;
    for item in message.present() {
        add_line(lines, &item?)?;
    }
    Ok(lines)
}

/// The bytes of a message of `Choices`, and the lines of what it has.
static PRESENT: &[(&[u8], &str)] = &[
    (b"", ""),
    (
        MIXED,
        "field 1 Some(5)\nunknown 5 1\nextension 12 Some(7)\nunknown 20 1\n",
    ),
    (
        b"\xa0\x01\x03\x28\x07\x28\x01\x98\x01\x02\xa0\x01\x04",
        "field 5 None\nunknown 5 1\nunknown 19 1\nunknown 20 2\n",
    ),
];

/// All that a message has comes in ascending number, a value in front of the strays of its number.
#[test]
fn what_is_present_is_listed_and_taken(rt: HostRuntime) -> Result<(), Fail> {
    for (place, case) in CASES.iter().enumerate() {
        assert!(rt; gives_both(rt.alloc(), case)?, "{place}");
        assert!(rt; gives_fields(rt.alloc(), case)?, "{place}");
    }
    for row in PRESENT {
        let lines = lines_of(rt.alloc(), choices(rt.alloc(), row.0)?)?;
        assert!(rt; lines.as_str() == row.1, "{lines}");
    }
    Ok(())
}
