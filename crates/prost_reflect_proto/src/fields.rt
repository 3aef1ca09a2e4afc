//! Finding the values of a descriptor record's fields in its bytes.

ghost use Rattle.std.specs.Prelude.{◌≡◌, ◌≢◌, true, false, [], ◌∷◌, Some, IfOk, IfErr, IfSome, IfNone};
ghost use Rattle.std.specs.Str.{is_utf8};
ghost use Rattle.prost_reflect_wire.specs.declared.key.WireType.TheVariants as wires;
ghost use Rattle.prost_reflect_wire.specs.Record.{Flat, Var, Len};
ghost use Rattle.prost_reflect_wire.specs.Fault.{ElementFault, StandsInMessage, takes};
ghost use Rattle.prost_reflect_types.specs.DescriptorTable.{type_place, record_schema, form_of, value_type_of, field_of_row};
ghost use Rattle.prost_reflect_wire.specs.Decoding.{FieldFault};
ghost use Rattle.prost_reflect_proto.specs.DescriptorReading.{Fields, FieldRead, DelimitedRead, DelimitedFault, PackedRead, found_of, all_found, kind_at, found_in};

use prost_reflect_types::{FieldKind, RecordType};
use prost_reflect_wire::{
    DecodeError, WireType, decode_delimited, decode_key, decode_varint, low_i32, skip_value,
};
use std::alloc::Global;

/// A value of a field, in the bytes that it was read from.
#[derive(Clone, Copy)]
pub enum RawValue<'a> {
    /// A text.
    Text(&'a str),
    /// An `int32`.
    Number(i32),
    /// A `bool`.
    Flag(bool),
    /// Raw bytes.
    Bytes(&'a [u8]),
    /// The bytes of a nested record.
    Record(&'a [u8]),
}

/// Such a value under the number of its field.
#[derive(Clone, Copy)]
pub struct RawField<'a> {
    /// The number of the field.
    pub number: u32,
    /// The value.
    pub value: RawValue<'a>,
}

/// The values that the record of a field has, and so most records: room for them is made at once.
const MOST_RECORDS: usize = 8;

/// The values of the record's fields in its body, in their order. Nested records are not looked into, and fields of
/// unknown numbers are passed over.
///
/// # Errors
///
/// `Truncated`, `Varint`, `Key`, `WireType`, `EndGroup`, `Utf8` or `Depth` if the body has this fault;
/// `OutOfMemory` if memory runs out.
pub fn fields_in<'a>(
    alloc: Global,
    record_type: RecordType,
    body: &'a [u8],
    levels: u32,
) -> Result<Vec<RawField<'a>>, DecodeError>
    ensures ok { IfOk result (λ fields. Fields levels record_type (all_found fields.items) body.now []) }
    ensures fault { IfErr result
        (λ e. e ≢ DecodeError.OutOfMemory → StandsInMessage record_schema (type_place record_type) levels e body.now) }
{
    let rows = record_type.rows();
    let mut fields = Vec::with_capacity(alloc, MOST_RECORDS)?;
    let mut rest = body;
    while !rest.is_empty() {
        let (number, wire_type, after) = decode_key(rest)?;
        rest = match kind_of(rows, number.get()) {
            Some(kind) => push_values(&mut fields, number.get(), kind, wire_type, after)?,
            None => skip_value(number, wire_type, after, levels)?,
        };
    }
    Ok(fields)
}

/// The kind of the field of the number, if there is one.
fn kind_of(rows: &[(u32, FieldKind)], number: u32) -> Option<FieldKind>
    ensures { result ≡ kind_at rows.now number }
{
    for (own, kind) in rows {
        if *own == number {
            return Some(*kind);
        }
    }
    None
}

/// Adds the values behind the key of a field, and gives the bytes behind them.
fn push_values<'a>(
    fields: &mut Vec<RawField<'a>>,
    number: u32,
    kind: FieldKind,
    wire_type: WireType,
    bytes: &'a [u8],
) -> Result<&'a [u8], DecodeError>
    ensures ok { IfOk result
        (λ rest. FieldRead kind number wire_type (all_found fields.old.items) (all_found fields.new.items) bytes.now
        rest.now) }
    ensures fault { IfErr result (λ e. e ≢ DecodeError.OutOfMemory → FieldFault e (field_of_row (number, kind)) wire_type bytes.now) }
{
    match wire_type {
        WireType::Varint => {
            let (value, rest) = decode_varint(bytes)?;
            let Some(value) = varint_value(kind, value) else {
                return Err(DecodeError::WireType);
            };
            fields.push(RawField { number, value })?;
            Ok(rest)
        }
        WireType::LengthDelimited => {
            let (body, rest) = decode_delimited(bytes)?;
            push_delimited(fields, number, kind, body)?;
            Ok(rest)
        }
        WireType::EndGroup => Err(DecodeError::EndGroup),
        WireType::SixtyFourBit => Err(DecodeError::WireType),
        WireType::StartGroup => Err(DecodeError::WireType),
        WireType::ThirtyTwoBit => Err(DecodeError::WireType),
    }
}

/// The value of a varint, if the kind takes varints.
fn varint_value<'a>(kind: FieldKind, value: u64) -> Option<RawValue<'a>>
    ensures some { IfSome result (λ x. found_in kind (Flat (Var value)) ≡ Some (found_of x ∷ [])) }
    ensures none { IfNone result (takes (form_of kind) (value_type_of kind).kind wires.Varint ≡ false) }
{
    match kind {
        FieldKind::Number => Some(RawValue::Number(low_i32(value))),
        FieldKind::Numbers => Some(RawValue::Number(low_i32(value))),
        FieldKind::Flag => Some(RawValue::Flag(value != 0)),
        FieldKind::Text => None,
        FieldKind::Texts => None,
        FieldKind::Bytes => None,
        FieldKind::Records(_) => None,
    }
}

/// Adds the values of delimited bytes.
fn push_delimited<'a>(
    fields: &mut Vec<RawField<'a>>,
    number: u32,
    kind: FieldKind,
    body: &'a [u8],
) -> Result<(), DecodeError>
    ensures ok { IfOk result (λ _. DelimitedRead kind number (all_found fields.old.items) (all_found fields.new.items) body.now) }
    ensures fault { IfErr result (λ e. e ≢ DecodeError.OutOfMemory → DelimitedFault e kind body.now) }
{
    match kind {
        FieldKind::Numbers => push_packed(fields, number, body),
        _ => {
            let value = delimited_value(kind, body)?;
            fields.push(RawField { number, value })?;
            Ok(())
        }
    }
}

/// The value of delimited bytes, if they are one value of the kind.
fn delimited_value<'a>(kind: FieldKind, body: &'a [u8]) -> Result<RawValue<'a>, DecodeError>
    requires { kind ≢ FieldKind.Numbers }
    ensures ok { IfOk result (λ x. found_in kind (Flat (Len body.now)) ≡ Some (found_of x ∷ [])) }
    ensures fault { IfErr result (λ e. DelimitedFault e kind body.now) }
{
    match kind {
        FieldKind::Text => Ok(RawValue::Text(text_of(body)?)),
        FieldKind::Texts => Ok(RawValue::Text(text_of(body)?)),
        FieldKind::Bytes => Ok(RawValue::Bytes(body)),
        FieldKind::Records(_) => Ok(RawValue::Record(body)),
        FieldKind::Number => Err(DecodeError::WireType),
        FieldKind::Flag => Err(DecodeError::WireType),
        FieldKind::Numbers => unreachable!(),
    }
}

/// The text of bytes.
fn text_of(bytes: &[u8]) -> Result<&str, DecodeError>
    ensures ok { IfOk result (λ text. (is_utf8 bytes.now ≡ true) × (text.now ≡ bytes.now)) }
    ensures fault { IfErr result (λ e. (e ≡ DecodeError.Utf8) × (is_utf8 bytes.now ≡ false)) }
{
    match std::str::from_utf8(bytes) {
        Ok(text) => Ok(text),
        Err(_) => Err(DecodeError::Utf8),
    }
}

/// Adds the numbers of a packed record.
fn push_packed(fields: &mut Vec<RawField<'_>>, number: u32, body: &[u8]) -> Result<(), DecodeError>
    ensures ok { IfOk result (λ _. PackedRead number (all_found fields.old.items) (all_found fields.new.items) body.now) }
    ensures fault { IfErr result (λ e. e ≢ DecodeError.OutOfMemory → ElementFault wires.Varint e body.now) }
{
    let mut rest = body;
    while !rest.is_empty() {
        let (value, after) = decode_varint(rest)?;
        fields.push(RawField {
            number,
            value: RawValue::Number(low_i32(value)),
        })?;
        rest = after;
    }
    Ok(())
}
