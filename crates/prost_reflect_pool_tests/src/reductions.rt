//! Which message types are reductions of which, and why others are none.

use crate::named::{message_of, pool_of};
use prost_reflect::MessageDescriptor;
use std::alloc::Global;
use std::test::Fail;

/// `t.proto`, of proto3, with the package `t`:
///
///     message M { int32 foo = 1; oneof optional { int32 bar = 2; } M nested = 3; }
///     message WithoutBar { int32 foo = 1; WithoutBar nested = 3; }
///     message TextBelow { int32 foo = 1; oneof optional { int32 bar = 2; } Text nested = 3; }
///     message Text { string foo = 1; oneof optional { int32 bar = 2; } Text nested = 3; }
///     message P { map<string, int32> m = 1; map<int32, M> q = 2; P p = 3; }
///     message WithoutQ { map<string, int32> m = 1; WithoutQ p = 3; }
///     message Q { oneof c { int32 a = 1; M b = 2; } }
///     message Empty {}
///     message Foo { repeated int32 values = 1; }
///
/// And `s.proto`, of proto2, with the package `s`:
///
///     message Foo { repeated int32 values = 1; extensions 100 to 199; }
///     message C { enum E { A = 0; B = 1; } optional E e = 1; }
///     message Fewer { enum E { A = 0; } optional E e = 1; }
///     message Turned { enum E { B = 1; A = 0; } optional E e = 1; }
///     message Declared { optional int32 x = 1; }
///     message Extended { extensions 1; }
///     extend Foo { repeated int32 ext_values = 100; }
///     extend Extended { optional int32 x = 1; }
static TYPES: &[u8] =
    b"\x0a\x80\x05\x0a\x07t.proto\x12\x01t\"A\x0a\x01M\x12\x0b\x0a\x03foo\x18\x01 \x01(\x05\x12\x0d\
    \x0a\x03bar\x18\x02 \x01(\x05H\x00\x12\x14\x0a\x06nested\x18\x03 \x01(\x0b2\x04.t.MB\x0a\x0a\
    \x08optional\"8\x0a\x0aWithoutBar\x12\x0b\x0a\x03foo\x18\x01 \x01(\x05\x12\x1d\x0a\x06nested\
    \x18\x03 \x01(\x0b2\x0d.t.WithoutBar\"L\x0a\x09TextBelow\x12\x0b\x0a\x03foo\x18\x01 \x01(\x05\
    \x12\x0d\x0a\x03bar\x18\x02 \x01(\x05H\x00\x12\x17\x0a\x06nested\x18\x03 \x01(\x0b2\x07.t.Text\
    B\x0a\x0a\x08optional\"G\x0a\x04Text\x12\x0b\x0a\x03foo\x18\x01 \x01(\x09\x12\x0d\x0a\x03bar\
    \x18\x02 \x01(\x05H\x00\x12\x17\x0a\x06nested\x18\x03 \x01(\x0b2\x07.t.TextB\x0a\x0a\x08option\
    al\"\x9e\x01\x0a\x01P\x12\x16\x0a\x01m\x18\x01 \x03(\x0b2\x0b.t.P.MEntry\x12\x16\x0a\x01q\x18\
    \x02 \x03(\x0b2\x0b.t.P.QEntry\x12\x0f\x0a\x01p\x18\x03 \x01(\x0b2\x04.t.P\x1a(\x0a\x06MEntry\
    \x12\x0b\x0a\x03key\x18\x01 \x01(\x09\x12\x0d\x0a\x05value\x18\x02 \x01(\x05:\x028\x01\x1a.\
    \x0a\x06QEntry\x12\x0b\x0a\x03key\x18\x01 \x01(\x05\x12\x13\x0a\x05value\x18\x02 \x01(\x0b2\
    \x04.t.M:\x028\x01\"k\x0a\x08WithoutQ\x12\x1d\x0a\x01m\x18\x01 \x03(\x0b2\x12.t.WithoutQ.MEntr\
    y\x12\x16\x0a\x01p\x18\x03 \x01(\x0b2\x0b.t.WithoutQ\x1a(\x0a\x06MEntry\x12\x0b\x0a\x03key\x18\
    \x01 \x01(\x09\x12\x0d\x0a\x05value\x18\x02 \x01(\x05:\x028\x01\"(\x0a\x01Q\x12\x0b\x0a\x01a\
    \x18\x01 \x01(\x05H\x00\x12\x11\x0a\x01b\x18\x02 \x01(\x0b2\x04.t.MH\x00B\x03\x0a\x01c\"\x07\
    \x0a\x05Empty\"\x15\x0a\x03Foo\x12\x0e\x0a\x06values\x18\x01 \x03(\x05b\x06proto3\x0a\x93\x02\
    \x0a\x07s.proto\x12\x01s\"\x1c\x0a\x03Foo\x12\x0e\x0a\x06values\x18\x01 \x03(\x05*\x05\x08d\
    \x10\xc8\x01\")\x0a\x01C\x12\x11\x0a\x01e\x18\x01 \x01(\x0e2\x06.s.C.E\"\x11\x0a\x01E\x12\x05\
    \x0a\x01A\x10\x00\x12\x05\x0a\x01B\x10\x01\"*\x0a\x05Fewer\x12\x15\x0a\x01e\x18\x01 \x01(\x0e2\
    \x0a.s.Fewer.E\"\x0a\x0a\x01E\x12\x05\x0a\x01A\x10\x00\"3\x0a\x06Turned\x12\x16\x0a\x01e\x18\
    \x01 \x01(\x0e2\x0b.s.Turned.E\"\x11\x0a\x01E\x12\x05\x0a\x01B\x10\x01\x12\x05\x0a\x01A\x10\
    \x00\"\x15\x0a\x08Declared\x12\x09\x0a\x01x\x18\x01 \x01(\x05\"\x10\x0a\x08Extended*\x04\x08\
    \x01\x10\x02:\x1a\x0a\x0aext_values\x12\x06.s.Foo\x18d \x03(\x05:\x16\x0a\x01x\x12\x0b.s.Exten\
    ded\x18\x01 \x01(\x05";
/// An older type, a newer one, and why the older one is no reduction of the newer, or nothing where it is one.
static ROWS: [(&str, &str, &str); 24] = [
    ("t.M", "t.M", ""),
    ("t.WithoutBar", "t.M", ""),
    ("t.M", "t.WithoutBar", "2: number"),
    ("t.TextBelow", "t.M", "3.1: kind"),
    ("t.Text", "t.M", "1: kind"),
    ("t.TextBelow", "t.TextBelow", ""),
    ("t.P", "t.P", ""),
    ("t.WithoutQ", "t.P", ""),
    ("t.P", "t.WithoutQ", "2: number"),
    ("t.WithoutQ.MEntry", "t.P.MEntry", ""),
    ("t.Empty", "t.P.MEntry", "map entry"),
    ("t.Q", "t.Q", ""),
    ("t.Empty", "t.Q", "1: oneof"),
    ("t.Empty", "t.M", ""),
    ("t.Foo", "s.Foo", ""),
    ("s.Foo", "t.Foo", "100: number"),
    ("s.Foo", "s.Foo", ""),
    ("s.C", "s.C", ""),
    ("s.Fewer", "s.C", "1: enum"),
    ("s.C", "s.Fewer", "1: enum"),
    ("s.Turned", "s.C", "1: enum"),
    ("s.Declared", "s.Extended", "1: extension"),
    ("s.Extended", "s.Declared", "1: extension"),
    ("s.Extended", "s.Extended", ""),
];

/// Whether the older type is a reduction of the newer one exactly where the text is empty, and has otherwise the fault that is
/// shown as the text.
fn is_told(
    alloc: Global,
    older: &MessageDescriptor,
    newer: &MessageDescriptor,
    text: &str,
) -> Result<bool, Fail> {
    if older.is_reduction_of(newer)? != text.is_empty() {
        return Ok(false);
    }
    match older.reduction_fault(newer)? {
        Some(fault) => Ok(format!(in alloc; "{fault}")?.as_str() == text),
        None => Ok(text.is_empty()),
    }
}

/// A type with fields left out is a reduction, and a fault names what differs.
#[test]
fn reductions_are_told_from_others(rt: HostRuntime) -> Result<(), Fail> {
    let pool = pool_of(rt.alloc(), TYPES)?;
    for (older, newer, text) in &ROWS {
        let first = message_of(rt.alloc(), pool, older)?;
        let second = message_of(rt.alloc(), pool, newer)?;
        assert!(rt;
            is_told(rt.alloc(), first, second, text)?,
            "{older} {newer}"
        );
    }
    Ok(())
}
