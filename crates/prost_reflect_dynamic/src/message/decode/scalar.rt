//! Scalar values and their payloads (the encoding guide, "Base 128 Varints", "More Integer Types", "Non-varint Numbers"
//! and "Length-Delimited Records").

ghost use Rattle.std.specs.Prelude.{◌≡◌, ◌≢◌, ◌⊎◌, IsSome, IfOk, IfErr, false};
ghost use Rattle.std.specs.Str.{is_utf8};
ghost use Rattle.prost_reflect_wire.specs.Record.{Flat, Var, Fix64, Fix32, Len};
ghost use Rattle.prost_reflect_wire.specs.declared.key.WireType.TheVariants as wires;
ghost use Rattle.prost_reflect_dynamic.specs.Scalars.{plain_kind, IsElement, ReadsScalar, RefusesScalar};
ghost use Rattle.prost_reflect_rows.specs.Scalars.{HasWire};

use crate::value::Value;
use prost_reflect_rows::scalars::wire_type_of;
use prost_reflect_tables::TableKind;
use prost_reflect_wire::{
    DecodeError, WireType, decode_delimited, decode_fixed32, decode_fixed64, decode_varint,
    low_i32, low_u32, unzigzag32, unzigzag64,
};
use std::alloc::Global;

/// The value of a varint.
#[inline(always)]
fn varint_value(kind: TableKind, value: u64) -> Value
    requires { HasWire kind wires.Varint }
    ensures { IsElement kind (Flat (Var value)) result }
{
    match kind {
        TableKind::Int32 => Value::I32(low_i32(value)),
        TableKind::Int64 => Value::I64(value.cast_signed()),
        TableKind::Uint32 => Value::U32(low_u32(value)),
        TableKind::Uint64 => Value::U64(value),
        TableKind::Sint32 => Value::I32(unzigzag32(low_u32(value))),
        TableKind::Sint64 => Value::I64(unzigzag64(value)),
        TableKind::Bool => Value::Bool(value != 0),
        TableKind::Enum(_) => Value::EnumNumber(low_i32(value)),
        _ => unreachable!(),
    }
}

/// The value of eight bytes.
fn fixed64_value(kind: TableKind, bytes: [u8; 8]) -> Value
    requires { HasWire kind wires.SixtyFourBit }
    ensures { IsElement kind (Flat (Fix64 bytes)) result }
{
    let value = u64::from_le_bytes(bytes);
    match kind {
        TableKind::Double => Value::F64(value),
        TableKind::Fixed64 => Value::U64(value),
        TableKind::Sfixed64 => Value::I64(value.cast_signed()),
        _ => unreachable!(),
    }
}

/// The value of four bytes.
fn fixed32_value(kind: TableKind, bytes: [u8; 4]) -> Value
    requires { HasWire kind wires.ThirtyTwoBit }
    ensures { IsElement kind (Flat (Fix32 bytes)) result }
{
    let value = u32::from_le_bytes(bytes);
    match kind {
        TableKind::Float => Value::F32(value),
        TableKind::Fixed32 => Value::U32(value),
        TableKind::Sfixed32 => Value::I32(value.cast_signed()),
        _ => unreachable!(),
    }
}

/// The value of delimited bytes.
#[inline(never)]
fn delimited_value(alloc: Global, kind: TableKind, bytes: &[u8]) -> Result<Value, DecodeError>
    requires { HasWire kind wires.LengthDelimited }
    ensures ok { IfOk result (λ v. IsElement kind (Flat (Len bytes.now)) v) }
    ensures err { IfErr result
        (λ e. (e ≡ DecodeError.OutOfMemory)
        ⊎ ((e ≡ DecodeError.Utf8) × (kind ≡ TableKind.String) × (is_utf8 bytes.now ≡ false))) }
{
    match kind {
        TableKind::Bytes => Ok(Value::Bytes(Vec::from_slice(alloc, bytes)?)),
        TableKind::String => match std::str::from_utf8(bytes) {
            Ok(text) => Ok(Value::String(String::from_str(alloc, text)?)),
            Err(_) => Err(DecodeError::Utf8),
        },
        _ => unreachable!(),
    }
}

/// Reads the value of a scalar kind behind its key, and gives it and the bytes behind it. Of an enum it reads any number.
///
/// # Errors
///
/// `WireType` if the kind's payloads have another wire type, `EndGroup` at an end key, `Truncated` and `Varint` as the
/// payload's reader, `Utf8` if the kind is a string and the bytes are no text, `OutOfMemory` if memory runs out.
#[inline(always)]
pub(crate) fn scalar_at(
    alloc: Global,
    kind: TableKind,
    wire_type: WireType,
    bytes: &[u8],
) -> Result<(Value, &[u8]), DecodeError>
    requires { IsSome (plain_kind kind) }
    ensures ok { IfOk result (λ x. ReadsScalar kind wire_type x.0 bytes.now x.1.now) }
    ensures fault { IfErr result (λ e. e ≢ DecodeError.OutOfMemory → RefusesScalar kind wire_type e bytes.now) }
{
    if wire_type == WireType::EndGroup {
        return Err(DecodeError::EndGroup);
    }
    if wire_type != wire_type_of(kind) {
        return Err(DecodeError::WireType);
    }
    match wire_type {
        WireType::Varint => {
            let (value, rest) = decode_varint(bytes)?;
            Ok((varint_value(kind, value), rest))
        }
        WireType::SixtyFourBit => {
            let (payload, rest) = decode_fixed64(bytes)?;
            Ok((fixed64_value(kind, payload), rest))
        }
        WireType::LengthDelimited => {
            let (payload, rest) = decode_delimited(bytes)?;
            Ok((delimited_value(alloc, kind, payload)?, rest))
        }
        WireType::ThirtyTwoBit => {
            let (payload, rest) = decode_fixed32(bytes)?;
            Ok((fixed32_value(kind, payload), rest))
        }
        WireType::StartGroup | WireType::EndGroup => unreachable!(),
    }
}
