//! Which values fields, kinds and extensions take.

use crate::shown::{Form, Shown, form_of};
use crate::types::{ENTRY, V, W, descriptor_of, extension_at, field_at, lent, named_field};
use prost_reflect::{Kind, MapKey, Value};
use std::alloc::Global;
use std::process::Abort;

/// A field of `V`, a value, and whether the field takes it.
static ROWS: [(&str, Form, bool); 21] = [
    ("values", Form::List(0, &[Shown::I32(1)]), true),
    ("values", Form::One(Shown::NoItems), true),
    ("values", Form::One(Shown::I32(1)), false),
    ("values", Form::List(0, &[Shown::U32(1)]), false),
    ("values", Form::One(Shown::NoPairs), false),
    ("m", Form::Map(&[(Shown::Text("k"), Shown::I32(1))]), true),
    ("m", Form::One(Shown::NoPairs), true),
    ("m", Form::One(Shown::Message(ENTRY, b"")), false),
    ("m", Form::Map(&[(Shown::I32(1), Shown::I32(1))]), false),
    ("m", Form::Map(&[(Shown::Text("k"), Shown::I64(1))]), false),
    ("m", Form::One(Shown::NoItems), false),
    ("e", Form::One(Shown::Number(0)), true),
    ("e", Form::One(Shown::Number(7)), false),
    ("open", Form::One(Shown::Number(7)), true),
    ("n", Form::One(Shown::I32(1)), true),
    ("n", Form::One(Shown::Number(0)), false),
    ("n", Form::List(0, &[Shown::I32(1)]), false),
    ("v", Form::One(Shown::Message(W, b"")), true),
    ("v", Form::One(Shown::I32(1)), false),
    ("f", Form::One(Shown::F32(1)), true),
    ("f", Form::One(Shown::I32(1)), false),
];

/// Whether the field of a name of `V` takes the value of the form.
fn takes(rt: &impl Abort, alloc: Global, name: &str, form: Form) -> bool {
    let field = named_field(rt, alloc, descriptor_of(rt, alloc, V), name);
    lent(rt, alloc, form_of(rt, alloc, form)).is_valid_for_field(field)
}

#[test]
fn fields_take_what_fits(rt: HostRuntime) {
    for (place, (name, form, is_taken)) in ROWS.iter().enumerate() {
        assert!(rt;
            takes(&rt, rt.alloc(), name, *form) == *is_taken,
            "{name}: the row {place}"
        );
    }
}

/// A list of an int32.
static LIST: Form = Form::List(0, &[Shown::I32(1)]);

/// A value of one kind, by that kind alone: the enum is closed and has no number 7, and the extension is of sint64.
fn found_values(rt: &impl Abort, alloc: Global) -> [bool; 4] {
    let v = descriptor_of(rt, alloc, V);
    let closed = field_at(rt, alloc, v, 5).kind().expect(rt, "memory");
    let seven = lent(rt, alloc, Value::EnumNumber(7)).is_valid(lent(rt, alloc, closed));
    let extension = extension_at(rt, alloc, v, 100);
    let long = lent(rt, alloc, Value::I64(1)).is_valid_for_extension(extension);
    let short = lent(rt, alloc, Value::I32(1)).is_valid_for_extension(extension);
    let list = lent(rt, alloc, form_of(rt, alloc, LIST)).is_valid(&Kind::Int32);
    [seven, long, short, list]
}

/// A value of one kind, by that kind alone.
fn written_values() -> [bool; 3] {
    let number = Value::I32(1).is_valid(&Kind::Sfixed32);
    let flag = MapKey::Bool(true).is_valid(&Kind::Bool);
    let other = MapKey::I32(1).is_valid(&Kind::String);
    [number, flag, other]
}

#[test]
fn kinds_and_extensions_take_what_fits(rt: HostRuntime) {
    assert!(rt; found_values(&rt, rt.alloc()) == [false, true, false, false]);
    assert!(rt; written_values() == [true, true, false]);
}
