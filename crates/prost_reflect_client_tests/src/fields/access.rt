//! Fields and extensions of messages by their descriptors.

use crate::fields::types::{decoded, empty, is_message, lent, worked_field, worked_type};
use crate::fields::ways::{
    Named, clear, has, int, lends_numbers, owns, shows, take, takes, takes_known,
};
use prost_reflect::{DecodeError, DynamicMessage, ExtensionDescriptor, FieldDescriptor, Value};
use prost_reflect_samples::leaked;
use std::alloc::{AllocError, Global};
use std::mem;
use std::test::Fail;

/// A message type, the digits of a message, the number of a field of the kind int32, whether the message has it, and its value;
/// and the digits of the message where that value is taken away, where it is then set, and where it is cleared again.
type FieldRow = (
    &'static str,
    &'static str,
    u32,
    bool,
    i32,
    &'static str,
    &'static str,
    &'static str,
);

static FIELDS: [FieldRow; 8] = [
    ("package.MyMessage", "0805", 1, true, 5, "", "0805", ""),
    ("package.MyMessage", "0800", 1, false, 0, "", "0800", ""),
    (
        "package.MyMessage",
        "08001000",
        1,
        false,
        0,
        "1000",
        "08001000",
        "1000",
    ),
    (
        "package.MyMessage",
        "08001000",
        2,
        true,
        0,
        "0800",
        "08001000",
        "0800",
    ),
    (
        "package.MyMessage",
        "0805",
        2,
        false,
        0,
        "0805",
        "08051000",
        "0805",
    ),
    (
        "package.MyMessage",
        "08051000",
        2,
        true,
        0,
        "0805",
        "08051000",
        "0805",
    ),
    ("C", "20072805", 5, true, 5, "2007", "20072805", "2007"),
    ("C", "20012007", 5, false, 0, "20012007", "20072800", "2007"),
];

/// The same of extensions.
static EXTENSIONS: [FieldRow; 3] = [
    ("b.X", "a00607", 100, true, 7, "", "a00607", ""),
    ("b.X", "a00600", 100, true, 0, "", "a00600", ""),
    (
        "b.X",
        "08aa01",
        100,
        false,
        0,
        "08aa01",
        "08aa01a00600",
        "08aa01",
    ),
];

/// Whether the value that was taken is the number, or there is none if the message did not have it.
pub(crate) fn is_taken(value: &Option<Value>, number: i32, had: bool) -> bool {
    match value {
        Some(value) => had && value.as_i32() == Some(number),
        None => !had,
    }
}

/// Whether the field is the message's own, and the message has it or not, and shows the value, which is lent if it is stored.
pub(crate) fn is_asked(
    alloc: Global,
    message: &DynamicMessage,
    named: Named<'_>,
    (had, value, is_stored): (bool, i32, bool),
) -> Result<bool, AllocError> {
    let value = int(alloc, value)?;
    Ok(
        owns(message, named)
            && has(message, named) == had
            && shows(alloc, message, named, value, is_stored)?,
    )
}

/// Whether the row's message is what the row says at each step, where its field is asked, taken, set, cleared, and set anew to
/// the value that it took.
fn follows(alloc: Global, named: Named<'_>, row: &FieldRow) -> Result<bool, Fail> {
    let (name, digits, _, had, value, left, written, cleared) = row;
    let message = decoded(alloc, name, digits)?;
    let is_asked = is_asked(alloc, message, named, (*had, *value, digits == written))?;
    let is_taken = is_taken(&take(message, named), *value, *had);
    let is_left = is_message(alloc, message, name, left)?;
    let is_set = takes(message, named, int(alloc, *value)?)?;
    let is_written = is_message(alloc, message, name, written)?;
    clear(message, named);
    let is_cleared = is_message(alloc, message, name, cleared)?;
    let is_known = takes_known(message, named, *value);
    let is_written_again = is_message(alloc, message, name, written)?;
    Ok(
        is_asked
            && is_taken
            && is_left
            && is_set
            && is_written
            && is_cleared
            && is_known
            && is_written_again,
    )
}

/// The extension of a number of the message type of a name in `worked`.
fn worked_extension(
    alloc: Global,
    name: &str,
    number: u32,
) -> Result<&'static ExtensionDescriptor, Fail> {
    lent(alloc, worked_type(alloc, name)?.get_extension(number))
}

#[test]
fn fields_and_extensions_are_asked_set_and_taken(rt: HostRuntime) -> Result<(), Fail> {
    for row in &FIELDS {
        let field = worked_field(rt.alloc(), row.0, row.2)?;
        for named in [
            Named::Field(field),
            Named::Number(row.2),
            Named::Name(field.name()),
        ] {
            assert!(rt; follows(rt.alloc(), named, row)?, "{} {}", row.0, row.1);
        }
    }
    for row in &EXTENSIONS {
        let extension = worked_extension(rt.alloc(), row.0, row.2)?;
        assert!(rt;
            follows(rt.alloc(), Named::Extension(extension), row)?,
            "{}",
            row.1
        );
    }
    Ok(())
}

/// Whether a 0 that `foo` is set to is written and not taken, and leaves nothing. A default that is set is no value of a field
/// without presence, and is removed where it is taken.
fn drops_default(alloc: Global) -> Result<bool, Fail> {
    let foo = Named::Field(worked_field(alloc, "package.MyMessage", 1)?);
    let message = empty(alloc, "package.MyMessage")?;
    Ok(
        takes_known(message, foo, 0)
            && is_message(alloc, message, "package.MyMessage", "0800")?
            && is_taken(&take(message, foo), 0, false)
            && *message == *empty(alloc, "package.MyMessage")?,
    )
}

/// Whether a 7 is written through the loan of the extension, and is what the message has afterwards.
fn lends_extension(alloc: Global) -> Result<bool, Fail> {
    let extension = Named::Extension(worked_extension(alloc, "b.X", 100)?);
    let message = decoded(alloc, "b.X", "")?;
    Ok(
        lends_numbers(alloc, message, extension, (0, 7))?
            && is_message(alloc, message, "b.X", "a00607")?,
    )
}

/// Whether the field is the message's own, and is lent for writing as an empty message.
fn lends_empty(
    alloc: Global,
    message: &mut DynamicMessage,
    field: &FieldDescriptor,
) -> Result<bool, Fail> {
    if !message.owns_field(field) {
        return Ok(false);
    }
    match message.get_field_mut(alloc, field)?.as_message() {
        Some(inner) => is_message(alloc, inner, "package.MyMessage", ""),
        None => Ok(false),
    }
}

/// Whether `a` is set, and `b`, of the same oneof, takes its place where it is lent, and is empty at first.
fn replaces_sibling(alloc: Global) -> Result<bool, Fail> {
    let a = Named::Field(worked_field(alloc, "a.Q", 1)?);
    let b = worked_field(alloc, "a.Q", 2)?;
    let message = empty(alloc, "a.Q")?;
    Ok(
        takes_known(message, a, 5)
            && is_message(alloc, message, "a.Q", "0805")?
            && lends_empty(alloc, message, b)?
            && !has(message, a)
            && has(message, Named::Field(b))
            && is_message(alloc, message, "a.Q", "1200")?,
    )
}

#[test]
fn fields_are_lent_and_defaults_dropped(rt: HostRuntime) -> Result<(), Fail> {
    assert!(rt; drops_default(rt.alloc())?);
    assert!(rt; lends_extension(rt.alloc())?);
    assert!(rt; replaces_sibling(rt.alloc())?);
    Ok(())
}

/// Puts an empty message of the same type around the message, in its place. Whether the field
/// `nested` takes the message.
fn wraps(
    alloc: Global,
    message: &mut DynamicMessage,
    nested: &FieldDescriptor,
) -> Result<bool, AllocError> {
    let outer = DynamicMessage::new(alloc, message.descriptor()?);
    let inner = mem::replace(message, outer);
    Ok(message.owns_field(nested) && message.try_set_field(nested, Value::Message(inner)).is_ok())
}

/// A message of `MyMessage` in so many others, each in the field `nested`.
fn nested(alloc: Global, levels: u32) -> Result<&'static mut DynamicMessage, Fail> {
    let field = worked_field(alloc, "package.MyMessage", 3)?;
    let message = decoded(alloc, "package.MyMessage", "")?;
    for _ in 0..levels {
        if !wraps(alloc, message, field)? {
            return Err(Fail::from("a message that the field does not take"));
        }
    }
    Ok(message)
}

/// Whether the message is written in so many bytes, and these are refused or not.
fn is_refused(
    alloc: Global,
    message: &DynamicMessage,
    length: usize,
    fault: Option<DecodeError>,
) -> Result<bool, Fail> {
    if !message.is_encodable() {
        return Ok(false);
    }
    let bytes = leaked(alloc, message.encode_to_vec(alloc)?)?;
    let refusal = DynamicMessage::decode(alloc, message.descriptor()?, bytes.as_slice()).err();
    Ok(bytes.len() == length && refusal == fault)
}

/// Messages that were made by hand nest deeper than those that are read, and are written.
#[test]
fn what_is_written_may_nest_deeper(rt: HostRuntime) -> Result<(), Fail> {
    for (levels, length) in [(100, 236), (150, 386), (1000, 2936)] {
        let fault = (levels > 100).then_some(DecodeError::Depth);
        assert!(rt; is_refused(rt.alloc(), nested(rt.alloc(), levels)?, length, fault)?);
    }
    Ok(())
}
