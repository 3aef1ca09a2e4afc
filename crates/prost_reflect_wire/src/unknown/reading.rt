//! Reading a field that no descriptor knows (the encoding guide, "Message Structure" and "Groups").

ghost use Rattle.std.specs.Prelude.{◌≡◌, ◌≢◌, ◌≤◌, ◌<◌, ◌^◌, ℕ, List, IfOk, IfErr, OnErr, IsErrAnd, MatchResult};
ghost use Rattle.prost_reflect_wire.specs.Record.{Record, Payload, payload_wire, payload_levels};
ghost use Rattle.prost_reflect_wire.specs.Grammar.{LEVEL_LIMIT};
ghost use Rattle.prost_reflect_wire.specs.Front.{PayloadFront, RecordFront, ValueFront, FieldFront};
ghost use Rattle.prost_reflect_wire.specs.Fault.{ValueFault, StandsInField, StandsInValue};
ghost use Rattle.prost_reflect_wire.specs.Unknown.{payload_of, unknown_record, records_of, ReadsGroup};
ghost use Rattle.prost_reflect_wire.specs.declared.key.WireType.TheVariants as wires;

use crate::error::DecodeError;
use crate::key::{FieldNumber, WireType, decode_key};
use crate::payload::{decode_delimited, decode_fixed32, decode_fixed64};
use crate::unknown::{UnknownField, UnknownFieldSet, UnknownFieldValue};
use crate::varint::decode_varint;
use std::alloc::Global;

/// How many levels of messages and groups are read below the top.
pub const RECURSION_LIMIT: u32 = 100;

/// Reads what follows the key of a field, with at most `levels` groups open at once, and gives it and the bytes behind it.
///
/// # Errors
///
/// As `UnknownField::decode_value`.
pub fn decode_value(
    alloc: Global,
    number: FieldNumber,
    wire_type: WireType,
    bytes: &[u8],
    levels: u32,
) -> Result<(UnknownFieldValue, &[u8]), DecodeError>
    ensures ok { IfOk result (λ x. ValueFront number.value wire_type levels (payload_of x.0) bytes.now x.1.now) }
    ensures only { (p : Payload) (rest : List ℕ) → ValueFront number.value wire_type levels p bytes.now rest →
        MatchResult result (λ x. (payload_of x.0 ≡ p) × (x.1.now ≡ rest)) (λ e. e ≡ DecodeError.OutOfMemory) }
    ensures fault { IfErr result (λ e. e ≢ DecodeError.OutOfMemory → ValueFault e number.value wire_type levels bytes.now) }
{
    decode_payload(alloc, number, wire_type, bytes, levels)
}

/// Reads what follows a key of the wire type, as `decode_value` does.
#[cycle(reading)]
fn decode_payload(
    alloc: Global,
    number: FieldNumber,
    wire_type: WireType,
    bytes: &[u8],
    levels: u32,
) -> Result<(UnknownFieldValue, &[u8]), DecodeError>
    ensures ok { IfOk result (λ x. ValueFront number.value wire_type levels (payload_of x.0) bytes.now x.1.now) }
    ensures fault { IfErr result (λ e. e ≢ DecodeError.OutOfMemory → ValueFault e number.value wire_type levels bytes.now) }
{
    match wire_type {
        WireType::Varint => {
            let (value, rest) = decode_varint(bytes)?;
            Ok((UnknownFieldValue::Varint(value), rest))
        }
        WireType::SixtyFourBit => {
            let (payload, rest) = decode_fixed64(bytes)?;
            Ok((UnknownFieldValue::SixtyFourBit(payload), rest))
        }
        WireType::LengthDelimited => {
            let (payload, rest) = decode_delimited(bytes)?;
            let payload = Vec::from_slice(alloc, payload)?;
            Ok((UnknownFieldValue::LengthDelimited(payload), rest))
        }
        WireType::StartGroup => {
            let (fields, rest) = decode_group(alloc, number, bytes, levels)?;
            Ok((UnknownFieldValue::Group(fields), rest))
        }
        WireType::EndGroup => Err(DecodeError::EndGroup),
        WireType::ThirtyTwoBit => {
            let (payload, rest) = decode_fixed32(bytes)?;
            Ok((UnknownFieldValue::ThirtyTwoBit(payload), rest))
        }
    }
}

/// Reads the records of a group, and its end key.
#[cycle(reading)]
fn decode_group(
    alloc: Global,
    number: FieldNumber,
    bytes: &[u8],
    levels: u32,
) -> Result<(UnknownFieldSet, &[u8]), DecodeError>
    ensures ok { IfOk result (λ x. ReadsGroup number.value levels (records_of x.0) bytes.now x.1.now) }
    ensures fault { IfErr result (λ e. e ≢ DecodeError.OutOfMemory → ValueFault e number.value wires.StartGroup levels bytes.now) }
{
    if levels == 0 {
        return Err(DecodeError::Depth);
    }
    let mut fields = UnknownFieldSet::new(alloc);
    let mut rest = bytes;
    loop {
        let (key, wire_type, after) = decode_key(rest)?;
        match wire_type {
            WireType::EndGroup if key.get() == number.get() => return Ok((fields, after)),
            WireType::EndGroup => return Err(DecodeError::EndGroup),
            _ => {}
        }
        let (value, after) = decode_payload(alloc, key, wire_type, after, levels - 1)?;
        fields.insert(UnknownField::new(key, value))?;
        rest = after;
    }
}

impl UnknownField {
    /// Reads the field at the cursor, and moves the cursor past it.
    ///
    /// `levels` is how many levels of groups may still be opened, at most `RECURSION_LIMIT`.
    ///
    /// ```
    /// // The number of the field that the bytes begin with: 5 for 28 96 01, which is field 5 with the varint 150.
    /// fn first_number(alloc: Global, bytes: &[u8]) -> Result<u32, DecodeError> {
    ///     let mut cursor = bytes;
    ///     let field = UnknownField::decode(alloc, &mut cursor, RECURSION_LIMIT)?;
    ///     Ok(field.number())
    /// }
    /// ```
    ///
    /// # Errors
    ///
    /// `Truncated` if the field is cut short, `Varint` if a varint does not fit 64 bits, `Key` if a key has no field number or no
    /// wire type, `EndGroup` if an end key closes no open group, `Depth` if more groups would be open than `levels`; each is a
    /// fault that the bytes have there. `OutOfMemory` if memory runs out. A whole field is refused only if it nests deeper than
    /// `levels`, or if out of memory. The cursor stays.
    pub fn decode(
        alloc: Global,
        cursor: &mut &[u8],
        levels: u32,
    ) -> Result<UnknownField, DecodeError>
        requires { levels ≤ LEVEL_LIMIT }
        ensures ok { IfOk result (λ f. FieldFront levels (unknown_record f) cursor.old.now cursor.new.now) }
        ensures only { (r : Record) (rest : List ℕ) → FieldFront levels r cursor.old.now rest →
            MatchResult result (λ f. (unknown_record f ≡ r) × (cursor.new.now ≡ rest)) (λ e. e ≡ DecodeError.OutOfMemory) }
        ensures deep { (r : Record) (rest : List ℕ) → RecordFront r cursor.old.now rest → levels < payload_levels r.payload →
            IsErrAnd result (λ e. e ≢ DecodeError.OutOfMemory → e ≡ DecodeError.Depth) }
        ensures fault { IfErr result (λ e. e ≢ DecodeError.OutOfMemory → StandsInField levels e cursor.old.now) }
        ensures err { OnErr result (cursor.new.now ≡ cursor.old.now) }
    {
        let (number, wire_type, rest) = decode_key(cursor)?;
        let (value, rest) = decode_payload(alloc, number, wire_type, rest, levels)?;
        *cursor = rest;
        Ok(UnknownField::new(number, value))
    }

    /// Reads a field whose key was read already: what is at the cursor is read as `decode` reads what follows a key. Moves the
    /// cursor past it.
    ///
    /// `number` and `wire_type` are those of the key; the number is from 1 to 536870911. `levels` is how many levels of groups may
    /// still be opened, at most `RECURSION_LIMIT`.
    ///
    /// # Errors
    ///
    /// As `decode`, and `EndGroup` for the wire type `EndGroup`. The cursor stays.
    pub fn decode_value(
        alloc: Global,
        number: u32,
        wire_type: WireType,
        cursor: &mut &[u8],
        levels: u32,
    ) -> Result<UnknownField, DecodeError>
        requires some { 1 ≤ number }
        requires below { number < 2 ^ 29 }
        requires levels { levels ≤ LEVEL_LIMIT }
        ensures number { IfOk result (λ f. (unknown_record f).number ≡ number) }
        ensures ok { IfOk result (λ f. ValueFront number wire_type levels (unknown_record f).payload cursor.old.now cursor.new.now) }
        ensures only { (p : Payload) (rest : List ℕ) → ValueFront number wire_type levels p cursor.old.now rest →
            MatchResult result (λ f. ((unknown_record f).payload ≡ p) × (cursor.new.now ≡ rest)) (λ e. e ≡ DecodeError.OutOfMemory) }
        ensures deep { (p : Payload) (rest : List ℕ) → payload_wire p ≡ wire_type → PayloadFront number p cursor.old.now rest → levels < payload_levels p →
            IsErrAnd result (λ e. e ≢ DecodeError.OutOfMemory → e ≡ DecodeError.Depth) }
        ensures fault { IfErr result (λ e. e ≢ DecodeError.OutOfMemory → StandsInValue levels number wire_type e cursor.old.now) }
        ensures err { OnErr result (cursor.new.now ≡ cursor.old.now) }
    {
        let number = FieldNumber::new(number);
        let (value, rest) = decode_payload(alloc, number, wire_type, cursor, levels)?;
        *cursor = rest;
        Ok(UnknownField::new(number, value))
    }
}
