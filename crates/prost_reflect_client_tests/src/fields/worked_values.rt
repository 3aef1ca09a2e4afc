//! Which values the fields of worked messages take, and which types are reductions.

use crate::fields::types::{is_message, is_written, message_type, worked_field};
use prost_reflect::{DynamicMessage, FieldDescriptor, MapKey, SetFieldError, Value};
use prost_reflect_samples::{leaked, sets};
use std::alloc::{AllocError, Global};
use std::test::Fail;

/// The value that a word stands for: `list` for the list of 1 and -1.
fn meant(alloc: Global, word: &str) -> Result<Value, AllocError> {
    match word {
        "list" => Ok(Value::List(vec![in alloc; Value::I32(1), Value::I32(-1)]?)),
        "i32" => Ok(Value::I32(1)),
        "5" => Ok(Value::I32(5)),
        "number 7" => Ok(Value::EnumNumber(7)),
        text => Ok(Value::String(String::from_str(alloc, text)?)),
    }
}

/// Whether the refusal says the text.
fn says(alloc: Global, refused: &SetFieldError, text: &str) -> Result<bool, AllocError> {
    Ok(format!(in alloc; "{refused}")?.as_str() == text)
}

/// Whether the field is the message's own, and refuses the value that the word stands for with the text, or takes it where there is
/// none.
fn answers(
    alloc: Global,
    message: &mut DynamicMessage,
    field: &FieldDescriptor,
    (word, text): (&str, &str),
) -> Result<bool, AllocError> {
    if !message.owns_field(field) {
        return Ok(false);
    }
    match message.try_set_field(field, meant(alloc, word)?) {
        Ok(()) => Ok(text.is_empty()),
        Err(refused) => says(alloc, &refused, text),
    }
}

/// A message type, a value that its field 1 takes, or none, one that it then refuses, what the refusal says, and the digits of the
/// message that is left.
type Row = (
    &'static str,
    &'static str,
    &'static str,
    &'static str,
    &'static str,
);

static ROWS: [Row; 6] = [
    (
        "package.MyMessage",
        "",
        "bar",
        "expected a value of type 'int32'",
        "",
    ),
    (
        "b.Foo",
        "",
        "i32",
        "expected a value of type 'repeated int32'",
        "",
    ),
    (
        "a.P",
        "",
        "i32",
        "expected a value of type 'map<string, int32>'",
        "",
    ),
    ("C", "", "number 7", "expected a value of type 'E'", ""),
    (
        "a.Foo",
        "list",
        "bar",
        "expected a value of type 'repeated int32'",
        "0a0b01ffffffffffffffffff01",
    ),
    (
        "package.MyMessage",
        "5",
        "bar",
        "expected a value of type 'int32'",
        "0805",
    ),
];

/// Whether the row's field takes its value, which stays where the other one is refused, and is written as one that is read.
fn is_kept(alloc: Global, row: &Row) -> Result<bool, Fail> {
    let (name, taken, refused, text, digits) = row;
    let field = worked_field(alloc, name, 1)?;
    let message = leaked(
        alloc,
        DynamicMessage::new(alloc, field.parent_message().clone()?),
    )?;
    let written = leaked(alloc, hex::decode(alloc, digits)?)?;
    Ok(
        (taken.is_empty() || answers(alloc, message, field, (*taken, ""))?)
            && answers(alloc, message, field, (*refused, *text))?
            && is_written(alloc, message, written.as_slice())?
            && is_message(alloc, message, name, digits)?,
    )
}

/// Whether there is a key, which is the text.
fn is_text(key: &Option<MapKey>, text: &str) -> bool {
    match key {
        Some(key) => key.as_str() == Some(text),
        None => false,
    }
}

/// Whether the text `foo` and the number 5 become keys, and bytes none.
fn become_keys(alloc: Global) -> Result<bool, AllocError> {
    let five = leaked(alloc, Some(MapKey::I32(5)))?;
    let text = Value::String(String::from_str(alloc, "foo")?);
    Ok(
        is_text(&text.into_map_key(), "foo")
            && Value::I32(5).into_map_key() == *five
            && Value::Bytes(Vec::new(alloc)).into_map_key().is_none(),
    )
}

/// Whether the older type of the name is a reduction of the newer one.
fn is_reduction(alloc: Global, name: &str) -> Result<bool, Fail> {
    let older = message_type(alloc, sets::older(), name)?;
    let newer = message_type(alloc, sets::newer(), name)?;
    Ok(older.is_reduction_of(newer)?)
}

/// Values are taken, refused, or become keys. A type without a field is a reduction, and one without the members of a oneof is
/// none.
#[test]
fn worked_values_are_taken_or_refused(rt: HostRuntime) -> Result<(), Fail> {
    for row in &ROWS {
        assert!(rt; is_kept(rt.alloc(), row)?, "{} {}", row.0, row.1);
    }
    assert!(rt; become_keys(rt.alloc())?);
    for (name, answer) in [
        ("package.MyMessage", true),
        ("P", true),
        ("Foo", true),
        ("Q", false),
        ("C", false),
    ] {
        assert_eq!(rt; is_reduction(rt.alloc(), name)?, answer, "{name}");
    }
    Ok(())
}
