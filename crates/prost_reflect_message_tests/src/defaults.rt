//! What kinds, fields and extensions have where nothing is stored.

use crate::shown::{Shown, key_of, made};
use crate::types::{EVERY, Type, V, W, descriptor_of, extension_at, field_at, lent};
use prost_reflect::{FieldDescriptorLike, Kind, MapKey, MessageDescriptor, Value};
use std::alloc::Global;
use std::process::Abort;

/// A message type, the numbers of fields and extensions of it, and the default of these.
static DEFAULTS: [(Type, &[u32], Shown); 40] = [
    (EVERY, &[1], Shown::F64(0)),
    (EVERY, &[2], Shown::F32(0)),
    (EVERY, &[3, 16, 18], Shown::I64(0)),
    (EVERY, &[4, 6], Shown::U64(0)),
    (EVERY, &[5, 15, 17], Shown::I32(0)),
    (EVERY, &[7, 13], Shown::U32(0)),
    (EVERY, &[8], Shown::Bool(false)),
    (EVERY, &[9], Shown::Text("")),
    (EVERY, &[10, 11, 110, 111], Shown::Message(EVERY, b"")),
    (EVERY, &[12], Shown::Bytes(b"")),
    (EVERY, &[14], Shown::Number(1)),
    // Lists and maps.
    (
        EVERY,
        &[
            21, 22, 23, 24, 25, 26, 27, 28, 29, 30, 31, 32, 33, 34, 35, 36, 37, 38,
        ],
        Shown::NoItems,
    ),
    (
        EVERY,
        &[
            121, 122, 123, 124, 125, 126, 127, 128, 129, 130, 131, 132, 133, 134, 135, 136, 137,
            138,
        ],
        Shown::NoItems,
    ),
    (
        EVERY,
        &[
            41, 42, 43, 44, 45, 46, 47, 48, 49, 51, 52, 53, 54, 55, 56, 57, 58,
        ],
        Shown::NoPairs,
    ),
    // Those that the definitions write.
    (EVERY, &[61, 101], Shown::F64(0xfff0_0000_0000_0000)),
    (EVERY, &[62, 102], Shown::F32(0x4b80_0000)),
    (EVERY, &[63, 103], Shown::I64(-7)),
    (EVERY, &[64, 104], Shown::U64(18_446_744_073_709_551_615)),
    (EVERY, &[65, 105], Shown::I32(-2_147_483_648)),
    (EVERY, &[66, 106], Shown::U64(8)),
    (EVERY, &[67, 107], Shown::U32(9)),
    (EVERY, &[68, 108], Shown::Bool(true)),
    (EVERY, &[69, 109], Shown::Text("text\\n")),
    (EVERY, &[72, 112], Shown::Bytes(b"A2\n")),
    (EVERY, &[73, 113], Shown::U32(10)),
    (EVERY, &[74, 114], Shown::Number(0)),
    (EVERY, &[75, 115], Shown::I32(-11)),
    (EVERY, &[76, 116], Shown::I64(-12)),
    (EVERY, &[77, 117], Shown::I32(13)),
    (EVERY, &[78, 118], Shown::I64(-14)),
    (V, &[1], Shown::F32(0x3f80_0000)),
    (V, &[8], Shown::F32(0)),
    (V, &[6], Shown::I32(0)),
    (V, &[5], Shown::Number(1)),
    (V, &[9], Shown::Number(0)),
    (V, &[2], Shown::Bytes(b"A2")),
    (V, &[3], Shown::NoItems),
    (V, &[4], Shown::NoPairs),
    (V, &[7], Shown::Message(V, b"")),
    (V, &[100], Shown::I64(-3)),
];

/// Whether the default of a field or an extension is the value, by the calls of their trait.
fn like_has<F: FieldDescriptorLike>(
    rt: &impl Abort,
    alloc: Global,
    field: &F,
    expected: &Value,
) -> bool {
    let default = lent(rt, alloc, field.default_value(alloc).expect(rt, "memory"));
    *default == *expected && field.is_default_value(default)
}

/// Whether the default of the field of the number is the one that is shown, by all calls.
fn field_has(
    rt: &impl Abort,
    alloc: Global,
    descriptor: &MessageDescriptor,
    number: u32,
    shown: Shown,
) -> bool {
    let field = field_at(rt, alloc, descriptor, number);
    let expected = lent(rt, alloc, made(rt, alloc, shown));
    let default = lent(rt, alloc, field.default_value(alloc).expect(rt, "memory"));
    let again = Value::default_value_for_field(alloc, field).expect(rt, "memory");
    let again = lent(rt, alloc, again);
    *default == *expected
        && *again == *expected
        && default.is_default_for_field(field)
        && like_has(rt, alloc, field, expected)
}

/// Whether the default of the extension of the number is the one that is shown, by all calls.
fn extension_has(
    rt: &impl Abort,
    alloc: Global,
    descriptor: &MessageDescriptor,
    number: u32,
    shown: Shown,
) -> bool {
    let extension = extension_at(rt, alloc, descriptor, number);
    let expected = lent(rt, alloc, made(rt, alloc, shown));
    let default = lent(
        rt,
        alloc,
        extension.default_value(alloc).expect(rt, "memory"),
    );
    let again = Value::default_value_for_extension(alloc, extension).expect(rt, "memory");
    let again = lent(rt, alloc, again);
    *default == *expected
        && *again == *expected
        && default.is_default_for_extension(extension)
        && like_has(rt, alloc, extension, expected)
}

/// Whether the default of the field of the number, or of the extension if the number is 100 or more, is the one that is shown.
fn has_default(rt: &impl Abort, alloc: Global, owner: Type, number: u32, shown: Shown) -> bool {
    let descriptor = descriptor_of(rt, alloc, owner);
    if number < 100 {
        field_has(rt, alloc, descriptor, number, shown)
    } else {
        extension_has(rt, alloc, descriptor, number, shown)
    }
}

#[test]
fn fields_and_extensions_have_defaults(rt: HostRuntime) {
    for (owner, numbers, shown) in &DEFAULTS {
        for number in *numbers {
            assert!(rt;
                has_default(&rt, rt.alloc(), *owner, *number, *shown),
                "{number}"
            );
        }
    }
}

/// A message of `V`, and one that stores 0 in `n`.
const EMPTY: Shown = Shown::Message(V, b"");

const WITH_ZERO: Shown = Shown::Message(V, b"\x30\x00");

/// A field of `V` or the extension 100, a value, and whether it is the default of its kind, and of the field or the extension. A
/// message is the default of its own type alone, and only where it stores nothing.
static ASKED: [(u32, Shown, [bool; 2]); 11] = [
    (1, Shown::F32(0), [true, false]),
    (1, Shown::F32(0x8000_0000), [false, false]),
    (1, Shown::F32(0x3f80_0000), [false, true]),
    (3, Shown::I32(0), [true, false]),
    (4, Shown::I32(0), [false, false]),
    (7, Shown::I32(0), [false, false]),
    (7, EMPTY, [true, true]),
    (7, WITH_ZERO, [false, false]),
    (7, Shown::Message(W, b""), [false, false]),
    (100, Shown::I64(0), [true, false]),
    (100, Shown::I64(-3), [false, true]),
];

/// Whether the value is the default of the kind of the field of the number, and of the field.
fn is_default(rt: &impl Abort, alloc: Global, number: u32, shown: Shown) -> [bool; 2] {
    let descriptor = descriptor_of(rt, alloc, V);
    let value = lent(rt, alloc, made(rt, alloc, shown));
    if number < 100 {
        let field = field_at(rt, alloc, descriptor, number);
        let kind = lent(rt, alloc, field.kind().expect(rt, "memory"));
        [value.is_default(kind), value.is_default_for_field(field)]
    } else {
        let extension = extension_at(rt, alloc, descriptor, number);
        let kind = lent(rt, alloc, extension.kind().expect(rt, "memory"));
        [
            value.is_default(kind),
            value.is_default_for_extension(extension),
        ]
    }
}

#[test]
fn other_values_are_no_defaults(rt: HostRuntime) {
    for (number, shown, expected) in &ASKED {
        assert!(rt;
            is_default(&rt, rt.alloc(), *number, *shown) == *expected,
            "{number}"
        );
    }
}

/// Whether the default of the kind of the field of the number 7 of `V` is told as one.
fn is_default_of_kind(rt: &impl Abort, alloc: Global) -> bool {
    let field = field_at(rt, alloc, descriptor_of(rt, alloc, V), 7);
    let kind = lent(rt, alloc, field.kind().expect(rt, "memory"));
    lent(
        rt,
        alloc,
        Value::default_value(alloc, kind).expect(rt, "memory"),
    )
    .is_default(kind)
}

/// Whether the default of a key of sint32 is 0.
fn is_zero_by_default(rt: &impl Abort, alloc: Global) -> bool {
    let default = lent(rt, alloc, MapKey::default_value(alloc, &Kind::Sint32));
    *default == *lent(rt, alloc, MapKey::I32(0))
}

/// Whether the key is the default of the kind.
fn is_default_key(rt: &impl Abort, alloc: Global, kind: Kind, shown: Shown) -> bool {
    let key = lent(rt, alloc, key_of(rt, alloc, shown));
    key.is_default(lent(rt, alloc, kind))
}

#[test]
fn kinds_have_defaults(rt: HostRuntime) {
    let alloc = rt.alloc();
    assert!(rt; is_default_of_kind(&rt, alloc));
    assert!(rt; is_zero_by_default(&rt, alloc));
    assert!(rt; is_default_key(&rt, alloc, Kind::Bool, Shown::Bool(false)));
    assert!(rt; !is_default_key(&rt, alloc, Kind::Int32, Shown::U32(0)));
}
