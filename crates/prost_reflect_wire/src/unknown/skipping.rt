//! Passing over a field that no descriptor knows, without memory for what it contains.

ghost use Rattle.std.specs.Prelude.{◌≡◌, ℕ, List, IfOk, IfErr, IsOkAnd};
ghost use Rattle.prost_reflect_wire.specs.Record.{Payload};
ghost use Rattle.prost_reflect_wire.specs.Front.{ValueFront};
ghost use Rattle.prost_reflect_wire.specs.Fault.{ValueFault};
ghost use Rattle.prost_reflect_wire.specs.Unknown.{SkipsValue, SkipsGroup};
ghost use Rattle.prost_reflect_wire.specs.declared.key.WireType.TheVariants as wires;

use crate::error::DecodeError;
use crate::key::{FieldNumber, WireType, decode_key};
use crate::payload::{decode_delimited, decode_fixed32, decode_fixed64};
use crate::varint::decode_varint;

/// Gives what follows the value behind the key of a field, with at most `levels` groups open at once.
///
/// # Errors
///
/// As `UnknownField::decode_value`, and never `OutOfMemory`.
pub fn skip_value(
    number: FieldNumber,
    wire_type: WireType,
    bytes: &[u8],
    levels: u32,
) -> Result<&[u8], DecodeError>
    ensures ok { IfOk result (λ rest. SkipsValue number.value wire_type levels bytes.now rest.now) }
    ensures only { (p : Payload) (rest : List ℕ) → ValueFront number.value wire_type levels p bytes.now rest →
        IsOkAnd result (λ x. x.now ≡ rest) }
    ensures fault { IfErr result (λ e. ValueFault e number.value wire_type levels bytes.now) }
{
    skip_payload(number, wire_type, bytes, levels)
}

/// Passes over what follows a key of the wire type, as `skip_value` does.
#[cycle(skipping)]
fn skip_payload(
    number: FieldNumber,
    wire_type: WireType,
    bytes: &[u8],
    levels: u32,
) -> Result<&[u8], DecodeError>
    ensures ok { IfOk result (λ rest. SkipsValue number.value wire_type levels bytes.now rest.now) }
    ensures fault { IfErr result (λ e. ValueFault e number.value wire_type levels bytes.now) }
{
    match wire_type {
        WireType::Varint => {
            let (_, rest) = decode_varint(bytes)?;
            Ok(rest)
        }
        WireType::SixtyFourBit => {
            let (_, rest) = decode_fixed64(bytes)?;
            Ok(rest)
        }
        WireType::LengthDelimited => {
            let (_, rest) = decode_delimited(bytes)?;
            Ok(rest)
        }
        WireType::StartGroup => skip_group(number, bytes, levels),
        WireType::EndGroup => Err(DecodeError::EndGroup),
        WireType::ThirtyTwoBit => {
            let (_, rest) = decode_fixed32(bytes)?;
            Ok(rest)
        }
    }
}

/// Gives what follows the records of a group and its end key.
#[cycle(skipping)]
fn skip_group(number: FieldNumber, bytes: &[u8], levels: u32) -> Result<&[u8], DecodeError>
    ensures ok { IfOk result (λ rest. SkipsGroup number.value levels bytes.now rest.now) }
    ensures fault { IfErr result (λ e. ValueFault e number.value wires.StartGroup levels bytes.now) }
{
    if levels == 0 {
        return Err(DecodeError::Depth);
    }
    let mut rest = bytes;
    loop {
        let (key, wire_type, after) = decode_key(rest)?;
        match wire_type {
            WireType::EndGroup if key.get() == number.get() => return Ok(after),
            WireType::EndGroup => return Err(DecodeError::EndGroup),
            _ => {}
        }
        rest = skip_payload(key, wire_type, after, levels - 1)?;
    }
}
