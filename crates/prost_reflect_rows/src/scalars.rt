//! Scalar kinds: their wire types, which scalars they take, and what their fields have where nothing is stored (the encoding
//! guide, "Message Structure"; the guide on field presence).

ghost use Rattle.std.specs.Prelude.{◌≡◌, ◌^◌, IsSome, false, nat_lt, true};
ghost use Rattle.std.specs.Option.{option_copied};
ghost use Rattle.std.specs.Str.{is_utf8};
ghost use Rattle.prost_reflect_wire.specs.Scalar.{in_i32, in_i64, scalar_eq};
ghost use Rattle.prost_reflect_wire.specs.Typing.{kind_takes};
ghost use Rattle.prost_reflect_wire.specs.Varint.{are_bytes};
ghost use Rattle.prost_reflect_tables.specs.Rows.{field_row};
ghost use Rattle.prost_reflect_tables.specs.Scalars.{scalar_of};
ghost use Rattle.prost_reflect_tables.specs.Shown.{own_type, schema_kind};
ghost use Rattle.prost_reflect_tables.specs.WrittenDefaults.{plain_kind};
ghost use Rattle.prost_reflect_pool.specs.Pools.{pool_rows};
ghost use Rattle.prost_reflect_pool.specs.SharedPools.{pool_rows as shared_rows};
ghost use Rattle.prost_reflect_rows.specs.KindNames.{enums_in};
ghost use Rattle.prost_reflect_rows.specs.Scalars.{HasWire};

use crate::enums::takes_number;
use prost_reflect_pool::{LinkedPool, PooledType};
use prost_reflect_tables::{FieldTable, ScalarRef, TableKind};
use prost_reflect_wire::WireType;

/// The wire type of a scalar kind's payloads.
pub fn wire_type_of(kind: TableKind) -> WireType
    requires { IsSome (plain_kind kind) }
    ensures { HasWire kind result }
{
    match kind {
        TableKind::Double | TableKind::Fixed64 | TableKind::Sfixed64 => WireType::SixtyFourBit,
        TableKind::Float | TableKind::Fixed32 | TableKind::Sfixed32 => WireType::ThirtyTwoBit,
        TableKind::String | TableKind::Bytes => WireType::LengthDelimited,
        _ => WireType::Varint,
    }
}

/// The default of the values of a field of the pool: the one that the definition writes, else that of the kind.
pub fn scalar_default<'a>(pool: &LinkedPool, field: &'a FieldTable) -> ScalarRef<'a>
    ensures { scalar_of result ≡ (own_type (pool_rows pool.now).enums (field_row field.now)).default }
{
    pool.tables().scalar_default(field)
}

/// Whether a scalar is the default of a field of the message type's pool: the one that the definition writes, else that of the
/// kind. A scalar that is not of the kind is none.
pub fn is_default(message_type: &PooledType, field: &FieldTable, scalar: ScalarRef<'_>) -> bool
    ensures { result
        ≡ scalar_eq (scalar_of scalar.entry)
        (own_type (shared_rows message_type.now.pool).enums (field_row field.now)).default }
{
    scalar.equals(scalar_default(message_type.pool(), field))
}

/// Whether a scalar is one of the kind. A kind that is a closed enum of the pool takes the numbers that it declares.
pub fn scalar_valid(pool: Option<&LinkedPool>, kind: TableKind, scalar: ScalarRef<'_>) -> bool
    ensures { result ≡ kind_takes (schema_kind (enums_in (option_copied pool.entry)) kind false) (scalar_of scalar.entry) }
{
    match (kind, scalar) {
        (TableKind::Double, ScalarRef::F64(bits)) => fits_u64(bits),
        (TableKind::Float, ScalarRef::F32(bits)) => fits_u32(bits),
        (TableKind::Int32, ScalarRef::I32(number)) => fits_i32(number),
        (TableKind::Sint32, ScalarRef::I32(number)) => fits_i32(number),
        (TableKind::Sfixed32, ScalarRef::I32(number)) => fits_i32(number),
        (TableKind::Int64, ScalarRef::I64(number)) => fits_i64(number),
        (TableKind::Sint64, ScalarRef::I64(number)) => fits_i64(number),
        (TableKind::Sfixed64, ScalarRef::I64(number)) => fits_i64(number),
        (TableKind::Uint32, ScalarRef::U32(number)) => fits_u32(number),
        (TableKind::Fixed32, ScalarRef::U32(number)) => fits_u32(number),
        (TableKind::Uint64, ScalarRef::U64(number)) => fits_u64(number),
        (TableKind::Fixed64, ScalarRef::U64(number)) => fits_u64(number),
        (TableKind::Bool, ScalarRef::Bool(_)) => true,
        (TableKind::String, ScalarRef::String(text)) => is_text(text),
        (TableKind::Bytes, ScalarRef::Bytes(bytes)) => are_bytes(bytes),
        (TableKind::Enum(place), ScalarRef::EnumNumber(number)) => {
            fits_i32(number) && takes_number(pool, place, number)
        }
        _ => false,
    }
}

/// Every i32 is in range.
fn fits_i32(_number: i32) -> bool
    ensures result { result ≡ true }
    ensures range { in_i32 _number ≡ true }
{
    true
}

/// Every i64 is in range.
fn fits_i64(_number: i64) -> bool
    ensures result { result ≡ true }
    ensures range { in_i64 _number ≡ true }
{
    true
}

/// Every u32 is in range.
fn fits_u32(_number: u32) -> bool
    ensures result { result ≡ true }
    ensures range { nat_lt _number (2 ^ 32) ≡ true }
{
    true
}

/// Every u64 is in range.
fn fits_u64(_number: u64) -> bool
    ensures result { result ≡ true }
    ensures range { nat_lt _number (2 ^ 64) ≡ true }
{
    true
}

/// Every text is UTF-8.
fn is_text(_text: &str) -> bool
    ensures result { result ≡ true }
    ensures utf8 { is_utf8 _text.now ≡ true }
{
    true
}

/// Every u8 is a byte.
fn are_bytes(_bytes: &[u8]) -> bool
    ensures result { result ≡ true }
    ensures range { are_bytes _bytes.now ≡ true }
{
    true
}
