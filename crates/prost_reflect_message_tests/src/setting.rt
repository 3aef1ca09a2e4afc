//! Setting fields to values that may not fit, and the texts of refusals.

use crate::shown::{Form, Shown, form_of};
use crate::types::{C, MY_MESSAGE, Type, V, lent, lent_message, named_field};
use prost_reflect::{DynamicMessage, FieldDescriptor, SetFieldError, Value};
use std::alloc::Global;
use std::process::Abort;

/// How a field is found.
#[derive(Clone, Copy)]
pub(crate) enum Way {
    Number(u32),
    Name(&'static str),
    /// By its descriptor, which the name finds.
    Field(&'static str),
}

/// What a call that tries to set a field answers.
#[derive(Clone, Copy)]
pub(crate) enum Answer {
    Taken,
    NotFound,
    /// The field of the name and the value are handed back, and the refusal reads so.
    Refused(&'static str, &'static str),
}

/// Sets the field to the value if it fits.
fn outcome(
    rt: &impl Abort,
    alloc: Global,
    message: &mut DynamicMessage,
    way: Way,
    value: Value,
) -> Result<(), SetFieldError> {
    match way {
        Way::Number(number) => message.try_set_field_by_number(number, value),
        Way::Name(name) => message.try_set_field_by_name(name, value),
        Way::Field(name) => {
            let descriptor = lent(rt, alloc, message.descriptor().expect(rt, "memory"));
            let field = named_field(rt, alloc, descriptor, name);
            assert!(rt; message.owns_field(field));
            message.try_set_field(field, value)
        }
    }
}

/// Whether the field and the value are handed back.
fn hands_back(refusal: &SetFieldError, wanted: &FieldDescriptor, sent: &Value) -> bool {
    match refusal {
        SetFieldError::InvalidType { field, value } => *field == *wanted && *value == *sent,
        _ => false,
    }
}

/// Whether the refusal reads as this text, and a copy equals it.
fn reads_as(rt: &impl Abort, alloc: Global, refusal: &SetFieldError, text: &str) -> bool {
    let copy = lent(rt, alloc, refusal.clone().expect(rt, "memory"));
    let is_equal = *copy == *refusal;
    let shown = format!(in alloc; "{refusal}").expect(rt, "memory");
    shown.as_str() == text && is_equal
}

/// Whether the call that tries to set the field to the value answers so.
pub(crate) fn answers(
    rt: &impl Abort,
    alloc: Global,
    message: &mut DynamicMessage,
    way: Way,
    form: Form,
    answer: Answer,
) -> bool {
    let sent = form_of(rt, alloc, form);
    match (
        lent(rt, alloc, outcome(rt, alloc, message, way, sent)),
        answer,
    ) {
        (Ok(()), Answer::Taken) => true,
        (Err(refusal), Answer::NotFound) => {
            *refusal == SetFieldError::NotFound && reads_as(rt, alloc, refusal, "field not found")
        }
        (Err(refusal), Answer::Refused(name, text)) => {
            let descriptor = lent(rt, alloc, message.descriptor().expect(rt, "memory"));
            let wanted = named_field(rt, alloc, descriptor, name);
            let sent = lent(rt, alloc, form_of(rt, alloc, form));
            let copy = lent(rt, alloc, refusal.clone().expect(rt, "memory"));
            reads_as(rt, alloc, refusal, text)
                && hands_back(refusal, wanted, sent)
                && hands_back(copy, wanted, sent)
        }
        _ => false,
    }
}

/// A message type, the bytes of a message of it, a field of it, a value, what the call answers that tries to set the field to
/// the value, and the bytes of what the message is then.
type Row = (Type, &'static [u8], Way, Shown, Answer, &'static [u8]);

static ROWS: [Row; 16] = [
    (
        V,
        b"",
        Way::Field("n"),
        Shown::U32(5),
        Answer::Refused("n", "expected a value of type 'int32'"),
        b"",
    ),
    (
        V,
        b"",
        Way::Field("values"),
        Shown::U32(5),
        Answer::Refused("values", "expected a value of type 'repeated int32'"),
        b"",
    ),
    (
        V,
        b"",
        Way::Field("m"),
        Shown::U32(5),
        Answer::Refused("m", "expected a value of type 'map<string, int32>'"),
        b"",
    ),
    (
        V,
        b"",
        Way::Field("e"),
        Shown::U32(5),
        Answer::Refused("e", "expected a value of type 'v.E'"),
        b"",
    ),
    (
        V,
        b"",
        Way::Field("v"),
        Shown::U32(5),
        Answer::Refused("v", "expected a value of type 'v.V'"),
        b"",
    ),
    (
        V,
        b"",
        Way::Field("b"),
        Shown::U32(5),
        Answer::Refused("b", "expected a value of type 'bytes'"),
        b"",
    ),
    (
        C,
        b"",
        Way::Field("e"),
        Shown::U32(5),
        Answer::Refused("e", "expected a value of type 'E'"),
        b"",
    ),
    // What fits is set, and stays where another value does not fit.
    (
        V,
        b"",
        Way::Field("n"),
        Shown::I32(7),
        Answer::Taken,
        b"\x30\x07",
    ),
    (
        V,
        b"\x30\x07",
        Way::Field("n"),
        Shown::I64(8),
        Answer::Refused("n", "expected a value of type 'int32'"),
        b"\x30\x07",
    ),
    // The field `foo` has the number 1, and is 5.
    (
        MY_MESSAGE,
        b"\x08\x05",
        Way::Number(1),
        Shown::Text("bar"),
        Answer::Refused("foo", "expected a value of type 'int32'"),
        b"\x08\x05",
    ),
    (
        MY_MESSAGE,
        b"\x08\x05",
        Way::Name("foo"),
        Shown::Text("bar"),
        Answer::Refused("foo", "expected a value of type 'int32'"),
        b"\x08\x05",
    ),
    (
        MY_MESSAGE,
        b"\x08\x05",
        Way::Field("foo"),
        Shown::Text("bar"),
        Answer::Refused("foo", "expected a value of type 'int32'"),
        b"\x08\x05",
    ),
    (
        MY_MESSAGE,
        b"\x08\x05",
        Way::Number(42),
        Shown::I32(5),
        Answer::NotFound,
        b"\x08\x05",
    ),
    (
        MY_MESSAGE,
        b"\x08\x05",
        Way::Name("notfound"),
        Shown::I32(5),
        Answer::NotFound,
        b"\x08\x05",
    ),
    (
        MY_MESSAGE,
        b"\x08\x05",
        Way::Number(2),
        Shown::I32(66),
        Answer::Taken,
        b"\x08\x05\x10\x42",
    ),
    (
        MY_MESSAGE,
        b"\x08\x05\x10\x42",
        Way::Name("foo"),
        Shown::I32(7),
        Answer::Taken,
        b"\x08\x07\x10\x42",
    ),
];

/// Whether the call answers as the row says, and the message is then as it says.
fn is_answered(rt: &impl Abort, alloc: Global, row: &Row) -> bool {
    let (owner, before, way, shown, answer, behind) = *row;
    let message = lent_message(rt, alloc, owner, before);
    answers(rt, alloc, message, way, Form::One(shown), answer)
        && *message == *lent_message(rt, alloc, owner, behind)
}

#[test]
fn fields_are_set_to_what_fits(rt: HostRuntime) {
    let alloc = rt.alloc();
    for (place, row) in ROWS.iter().enumerate() {
        assert!(rt; is_answered(&rt, alloc, row), "{place}");
    }
    assert!(rt; reads_as(&rt, alloc, &SetFieldError::OutOfMemory, "out of memory"));
}
