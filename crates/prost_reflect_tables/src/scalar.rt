//! Scalars, wherever they are kept.

ghost use Rattle.std.specs.Prelude.{◌≡◌, IsSome, IsSomeAnd};
ghost use Rattle.prost_reflect_wire.specs.Scalar.{kind_default, scalar_eq};
ghost use Rattle.prost_reflect_tables.specs.Rows.{written_scalar};
ghost use Rattle.prost_reflect_tables.specs.Scalars.{scalar_of};
ghost use Rattle.prost_reflect_tables.specs.WrittenDefaults.{plain_kind};

use crate::tables::{TableKind, WrittenDefault};

/// A scalar, borrowed from a value, a key of a map or a written default. Floating-point numbers are bits.
#[derive(Clone, Copy)]
pub enum ScalarRef<'a> {
    /// Of a bool field.
    Bool(bool),
    /// Of an int32, sint32 or sfixed32 field.
    I32(i32),
    /// Of an int64, sint64 or sfixed64 field.
    I64(i64),
    /// Of a uint32 or fixed32 field.
    U32(u32),
    /// Of a uint64 or fixed64 field.
    U64(u64),
    /// Of a float field.
    F32(u32),
    /// Of a double field.
    F64(u64),
    /// Of a string field.
    String(&'a str),
    /// Of a bytes field.
    Bytes(&'a [u8]),
    /// Of an enum field.
    EnumNumber(i32),
}

impl<'a> ScalarRef<'a> {
    /// The scalar of a default that a field's definition writes.
    pub fn written(default: &'a WrittenDefault) -> ScalarRef<'a>
        ensures { scalar_of result ≡ written_scalar default.now }
    {
        match default {
            WrittenDefault::Bool(value) => ScalarRef::Bool(*value),
            WrittenDefault::I32(value) => ScalarRef::I32(*value),
            WrittenDefault::I64(value) => ScalarRef::I64(*value),
            WrittenDefault::U32(value) => ScalarRef::U32(*value),
            WrittenDefault::U64(value) => ScalarRef::U64(*value),
            WrittenDefault::F32(bits) => ScalarRef::F32(*bits),
            WrittenDefault::F64(bits) => ScalarRef::F64(*bits),
            WrittenDefault::String(text) => ScalarRef::String(text.as_str()),
            WrittenDefault::Bytes(bytes) => ScalarRef::Bytes(bytes.as_slice()),
            WrittenDefault::EnumNumber(number) => ScalarRef::EnumNumber(*number),
        }
    }

    /// Zero, false or empty, by the scalar kind.
    pub fn zero(kind: TableKind) -> ScalarRef<'a>
        requires { IsSome (plain_kind kind) }
        ensures { IsSomeAnd (plain_kind kind) (λ k. scalar_of result ≡ kind_default k) }
    {
        match kind {
            TableKind::Double => ScalarRef::F64(0),
            TableKind::Float => ScalarRef::F32(0),
            TableKind::Int32 | TableKind::Sint32 | TableKind::Sfixed32 => ScalarRef::I32(0),
            TableKind::Int64 | TableKind::Sint64 | TableKind::Sfixed64 => ScalarRef::I64(0),
            TableKind::Uint32 | TableKind::Fixed32 => ScalarRef::U32(0),
            TableKind::Uint64 | TableKind::Fixed64 => ScalarRef::U64(0),
            TableKind::Bool => ScalarRef::Bool(false),
            TableKind::String => ScalarRef::String(""),
            TableKind::Bytes => ScalarRef::Bytes(&[]),
            TableKind::Enum(_) => ScalarRef::EnumNumber(0),
            TableKind::Message(_) => unreachable!(),
        }
    }

    /// Whether the other is of the same variant, and its value the same; floating-point numbers bit by bit.
    pub fn equals(self, other: ScalarRef<'_>) -> bool
        ensures { result ≡ scalar_eq (scalar_of self.entry) (scalar_of other.entry) }
    {
        match (self, other) {
            (ScalarRef::Bool(value), ScalarRef::Bool(other)) => value == other,
            (ScalarRef::I32(value), ScalarRef::I32(other)) => value == other,
            (ScalarRef::I64(value), ScalarRef::I64(other)) => value == other,
            (ScalarRef::U32(value), ScalarRef::U32(other)) => value == other,
            (ScalarRef::U64(value), ScalarRef::U64(other)) => value == other,
            (ScalarRef::F32(bits), ScalarRef::F32(other)) => bits == other,
            (ScalarRef::F64(bits), ScalarRef::F64(other)) => bits == other,
            (ScalarRef::String(text), ScalarRef::String(other)) => text == other,
            (ScalarRef::Bytes(bytes), ScalarRef::Bytes(other)) => bytes == other,
            (ScalarRef::EnumNumber(number), ScalarRef::EnumNumber(other)) => number == other,
            _ => false,
        }
    }
}
