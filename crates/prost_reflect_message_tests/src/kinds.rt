//! Each kind: its name, also in refusals, its wire type, and its default.

use crate::setting::{Answer, Way, answers};
use crate::shown::{Form, Shown, made};
use crate::types::{EVERY, descriptor_of, field_at, lent, lent_message};
use prost_reflect::{Cardinality, Kind, MessageDescriptor, Value};
use std::alloc::Global;
use std::process::Abort;

/// A field of `Every`, its name, and the text of the refusal of a value that does not fit it.
static TYPES: [(u32, &str, &str); 54] = [
    (1, "f1", "expected a value of type 'double'"),
    (2, "f2", "expected a value of type 'float'"),
    (3, "f3", "expected a value of type 'int64'"),
    (4, "f4", "expected a value of type 'uint64'"),
    (5, "f5", "expected a value of type 'int32'"),
    (6, "f6", "expected a value of type 'fixed64'"),
    (7, "f7", "expected a value of type 'fixed32'"),
    (8, "f8", "expected a value of type 'bool'"),
    (9, "f9", "expected a value of type 'string'"),
    (10, "f10", "expected a value of type 'e.Every'"),
    (11, "f11", "expected a value of type 'e.Every'"),
    (12, "f12", "expected a value of type 'bytes'"),
    (13, "f13", "expected a value of type 'uint32'"),
    (14, "f14", "expected a value of type 'e.Color'"),
    (15, "f15", "expected a value of type 'sfixed32'"),
    (16, "f16", "expected a value of type 'sfixed64'"),
    (17, "f17", "expected a value of type 'sint32'"),
    (18, "f18", "expected a value of type 'sint64'"),
    (21, "f21", "expected a value of type 'repeated double'"),
    (22, "f22", "expected a value of type 'repeated float'"),
    (23, "f23", "expected a value of type 'repeated int64'"),
    (24, "f24", "expected a value of type 'repeated uint64'"),
    (25, "f25", "expected a value of type 'repeated int32'"),
    (26, "f26", "expected a value of type 'repeated fixed64'"),
    (27, "f27", "expected a value of type 'repeated fixed32'"),
    (28, "f28", "expected a value of type 'repeated bool'"),
    (29, "f29", "expected a value of type 'repeated string'"),
    (30, "f30", "expected a value of type 'repeated e.Every'"),
    (31, "f31", "expected a value of type 'repeated e.Every'"),
    (32, "f32", "expected a value of type 'repeated bytes'"),
    (33, "f33", "expected a value of type 'repeated uint32'"),
    (34, "f34", "expected a value of type 'repeated e.Color'"),
    (35, "f35", "expected a value of type 'repeated sfixed32'"),
    (36, "f36", "expected a value of type 'repeated sfixed64'"),
    (37, "f37", "expected a value of type 'repeated sint32'"),
    (38, "f38", "expected a value of type 'repeated sint64'"),
    (41, "f41", "expected a value of type 'map<int64, double>'"),
    (42, "f42", "expected a value of type 'map<uint64, float>'"),
    (43, "f43", "expected a value of type 'map<int32, int64>'"),
    (44, "f44", "expected a value of type 'map<fixed64, uint64>'"),
    (45, "f45", "expected a value of type 'map<fixed32, int32>'"),
    (46, "f46", "expected a value of type 'map<bool, fixed64>'"),
    (47, "f47", "expected a value of type 'map<string, fixed32>'"),
    (48, "f48", "expected a value of type 'map<uint32, bool>'"),
    (
        49,
        "f49",
        "expected a value of type 'map<sfixed32, string>'",
    ),
    (
        51,
        "f51",
        "expected a value of type 'map<sfixed64, e.Every>'",
    ),
    (52, "f52", "expected a value of type 'map<sint32, bytes>'"),
    (53, "f53", "expected a value of type 'map<sint64, uint32>'"),
    (54, "f54", "expected a value of type 'map<int64, e.Color>'"),
    (
        55,
        "f55",
        "expected a value of type 'map<uint64, sfixed32>'",
    ),
    (56, "f56", "expected a value of type 'map<int32, sfixed64>'"),
    (57, "f57", "expected a value of type 'map<fixed64, sint32>'"),
    (58, "f58", "expected a value of type 'map<fixed32, sint64>'"),
    (65, "f65", "expected a value of type 'int32'"),
];

/// Whether the field of the number refuses a list, or a map if it is a list itself, and the refusal reads so.
fn refuses_as(rt: &impl Abort, alloc: Global, row: &(u32, &'static str, &'static str)) -> bool {
    let (number, name, text) = *row;
    let unfit = if field_at(rt, alloc, descriptor_of(rt, alloc, EVERY), number).is_list() {
        Shown::NoPairs
    } else {
        Shown::NoItems
    };
    let message = lent_message(rt, alloc, EVERY, b"");
    let answer = Answer::Refused(name, text);
    answers(
        rt,
        alloc,
        message,
        Way::Number(number),
        Form::One(unfit),
        answer,
    )
}

#[test]
fn refusals_name_each_type(rt: HostRuntime) {
    for row in &TYPES {
        assert!(rt; refuses_as(&rt, rt.alloc(), row), "{}", row.0);
    }
}

/// An empty message of `Every`.
const EMPTY: Shown = Shown::Message(EVERY, b"");

/// The type code of a kind, its name, the number of its wire type (the encoding guide, "Message Structure"), and its default. A
/// kind does not tell a group from a message.
static KINDS: [(u32, &str, u8, Shown); 18] = [
    (1, "double", 1, Shown::F64(0)),
    (2, "float", 5, Shown::F32(0)),
    (3, "int64", 0, Shown::I64(0)),
    (4, "uint64", 0, Shown::U64(0)),
    (5, "int32", 0, Shown::I32(0)),
    (6, "fixed64", 1, Shown::U64(0)),
    (7, "fixed32", 5, Shown::U32(0)),
    (8, "bool", 0, Shown::Bool(false)),
    (9, "string", 2, Shown::Text("")),
    (10, "e.Every", 2, EMPTY),
    (11, "e.Every", 2, EMPTY),
    (12, "bytes", 2, Shown::Bytes(b"")),
    (13, "uint32", 0, Shown::U32(0)),
    (14, "e.Color", 0, Shown::Number(1)),
    (15, "sfixed32", 5, Shown::I32(0)),
    (16, "sfixed64", 1, Shown::I64(0)),
    (17, "sint32", 0, Shown::I32(0)),
    (18, "sint64", 0, Shown::I64(0)),
];

/// Whether the kind is shown as the name.
fn is_shown(rt: &impl Abort, alloc: Global, kind: &Kind, name: &str) -> bool {
    let shown = format!(in alloc; "{kind}").expect(rt, "memory");
    shown.as_str() == name
}

/// Whether the kind of the field of the number is as the row says, and so is a copy of it.
fn is_kind(
    rt: &impl Abort,
    alloc: Global,
    every: &MessageDescriptor,
    row: &(u32, &str, u8, Shown),
) -> bool {
    let (number, name, wire, zero) = *row;
    let kind = field_at(rt, alloc, every, number)
        .kind()
        .expect(rt, "memory");
    let kind = lent(rt, alloc, kind);
    let copy = lent(rt, alloc, kind.clone().expect(rt, "memory"));
    let expected = lent(rt, alloc, made(rt, alloc, zero));
    let default = lent(rt, alloc, kind.default_value(alloc).expect(rt, "memory"));
    let again = lent(
        rt,
        alloc,
        Value::default_value(alloc, kind).expect(rt, "memory"),
    );
    is_shown(rt, alloc, kind, name)
        && kind.wire_type().code() == wire
        && copy.wire_type().code() == wire
        && *default == *expected
        && *again == *expected
        && default.is_default(kind)
}

/// A label, and its name.
static LABELS: [(Cardinality, &str); 3] = [
    (Cardinality::Optional, "optional"),
    (Cardinality::Required, "required"),
    (Cardinality::Repeated, "repeated"),
];

/// Whether the label has this name.
fn is_label(rt: &impl Abort, alloc: Global, label: Cardinality, name: &str) -> bool {
    let shown = format!(in alloc; "{label}").expect(rt, "memory");
    shown.as_str() == name
}

#[test]
fn kinds_and_labels_have_names(rt: HostRuntime) {
    let alloc = rt.alloc();
    let every = descriptor_of(&rt, alloc, EVERY);
    for row in &KINDS {
        assert!(rt; is_kind(&rt, alloc, every, row), "{}", row.1);
    }
    for (label, name) in &LABELS {
        assert!(rt; is_label(&rt, alloc, *label, name), "{name}");
    }
}
