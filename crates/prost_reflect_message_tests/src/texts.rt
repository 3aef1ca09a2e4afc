//! Values that texts spell.

use crate::shown::{Shown, made};
use crate::types::{EVERY, Type, V, descriptor_of, field_at, lent};
use prost_reflect::Value;
use std::alloc::Global;
use std::process::Abort;

/// A message type, a field of it, whose kind is looked at, a text, and what it spells.
static TEXTS: [(Type, u32, &str, Option<Shown>); 45] = [
    (EVERY, 1, "-inf", Some(Shown::F64(0xfff0_0000_0000_0000))),
    (EVERY, 1, "0", Some(Shown::F64(0))),
    (EVERY, 2, "16777216", Some(Shown::F32(0x4b80_0000))),
    (EVERY, 3, "-7", Some(Shown::I64(-7))),
    (
        EVERY,
        4,
        "18446744073709551615",
        Some(Shown::U64(18_446_744_073_709_551_615)),
    ),
    (EVERY, 4, "0", Some(Shown::U64(0))),
    (EVERY, 5, "-2147483648", Some(Shown::I32(-2_147_483_648))),
    (EVERY, 6, "8", Some(Shown::U64(8))),
    (EVERY, 7, "9", Some(Shown::U32(9))),
    (EVERY, 8, "true", Some(Shown::Bool(true))),
    (EVERY, 9, "text\\n", Some(Shown::Text("text\\n"))),
    (EVERY, 10, "", None),
    (EVERY, 11, "", None),
    (EVERY, 12, "\\1012\\n", Some(Shown::Bytes(b"A2\n"))),
    (EVERY, 13, "10", Some(Shown::U32(10))),
    (EVERY, 14, "GREEN", Some(Shown::Number(0))),
    (EVERY, 14, "BLUE", Some(Shown::Number(-1))),
    (EVERY, 15, "-11", Some(Shown::I32(-11))),
    (EVERY, 16, "-12", Some(Shown::I64(-12))),
    (EVERY, 17, "13", Some(Shown::I32(13))),
    (EVERY, 18, "-14", Some(Shown::I64(-14))),
    (EVERY, 4, "-1", None),
    (EVERY, 6, "x", None),
    (EVERY, 13, "4294967296", None),
    (EVERY, 7, "", None),
    (EVERY, 14, "0", None),
    (EVERY, 14, "green", None),
    (EVERY, 18, "9223372036854775808", None),
    (EVERY, 1, "1.5", None),
    (EVERY, 12, "\\", None),
    (V, 6, "-0", Some(Shown::I32(0))),
    (V, 6, "+1", None),
    (V, 6, "-2147483648", Some(Shown::I32(-2_147_483_648))),
    (V, 6, "2147483648", None),
    (V, 6, "", None),
    (V, 1, "16777216", Some(Shown::F32(0x4b80_0000))),
    (V, 1, "-0", Some(Shown::F32(0x8000_0000))),
    (V, 1, "nan", Some(Shown::F32(0x7fc0_0000))),
    (V, 1, "1.5", None),
    (EVERY, 8, "1", None),
    // An enum has names; a message has no texts.
    (V, 5, "B", Some(Shown::Number(1))),
    (V, 5, "C", None),
    (V, 7, "", None),
    (V, 2, "\\1012", Some(Shown::Bytes(b"A2"))),
    (EVERY, 9, "\\1", Some(Shown::Text("\\1"))),
];

/// Whether the kind of the field reads the text so.
fn reads(rt: &impl Abort, alloc: Global, row: &(Type, u32, &str, Option<Shown>)) -> bool {
    let (owner, number, text, expected) = *row;
    let descriptor = descriptor_of(rt, alloc, owner);
    let kind = field_at(rt, alloc, descriptor, number)
        .kind()
        .expect(rt, "memory");
    let read = Value::from_text(alloc, lent(rt, alloc, kind), text).expect(rt, "memory");
    match (lent(rt, alloc, read), expected) {
        (Some(value), Some(shown)) => *value == *lent(rt, alloc, made(rt, alloc, shown)),
        (None, None) => true,
        _ => false,
    }
}

#[test]
fn texts_spell_values_of_each_kind(rt: HostRuntime) {
    for row in &TEXTS {
        assert!(rt; reads(&rt, rt.alloc(), row), "{} {}", row.1, row.2);
    }
}
