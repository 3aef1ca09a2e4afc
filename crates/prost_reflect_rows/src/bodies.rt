//! What stands behind the keys of fields, before any value of it is read (the encoding guide, "Message Structure", "Packed
//! Repeated Fields" and "Maps").

ghost use Rattle.std.specs.Prelude.{◌≡◌, ◌≤◌, pos, IfErr, IfOk, OnOk};
ghost use Rattle.prost_reflect_wire.specs.declared.key.WireType.TheVariants as wires;
ghost use Rattle.prost_reflect_wire.specs.Decoding.{ScalarFault};
ghost use Rattle.prost_reflect_wire.specs.EntryReading.{BodyFault};
ghost use Rattle.prost_reflect_wire.specs.Front.{DelimitedFront, VarintFront};
ghost use Rattle.prost_reflect_wire.specs.Scalar.{Enum, Open};
ghost use Rattle.prost_reflect_rows.specs.Nested.{NestedFault, nested_wire};

use prost_reflect_wire::{DecodeError, WireType, decode_delimited, decode_varint};

/// Reads the varint of a record of one number of an enum behind its key, and gives it and the bytes behind it.
///
/// # Errors
///
/// `WireType` if the wire type is another one, `EndGroup` at an end key, `Truncated` and `Varint` as `decode_varint`.
pub fn number_at(wire_type: WireType, bytes: &[u8]) -> Result<(u64, &[u8]), DecodeError>
    ensures wire { IfOk result (λ _. wire_type ≡ wires.Varint) }
    ensures ok { IfOk result (λ x. VarintFront x.0 bytes.now x.1.now) }
    ensures fault { IfErr result (λ e. ScalarFault (Enum (pos 0) Open) wire_type e bytes.now) }
{
    match wire_type {
        WireType::Varint => decode_varint(bytes),
        WireType::EndGroup => Err(DecodeError::EndGroup),
        _ => Err(DecodeError::WireType),
    }
}

/// How many elements of the wire type a packed record's body has, if it has nothing else. Only speed rests on it.
pub fn elements_in(wire_type: WireType, body: &[u8]) -> usize {
    match wire_type {
        WireType::SixtyFourBit => body.len() / 8,
        WireType::ThirtyTwoBit => body.len() / 4,
        _ => last_digits(body),
    }
}

/// How many of the bytes are the last of a varint: the number of varints, if the bytes have nothing else. Only speed rests on
/// it.
pub fn last_digits(body: &[u8]) -> usize {
    let mut count = 0usize;
    for byte in body {
        count = count.wrapping_add(usize::from(*byte < 0x80));
    }
    count
}

/// The body of an entry behind a map field's key, and the bytes behind it.
///
/// # Errors
///
/// `EndGroup` at an end key, `WireType` if the record is not delimited, `Truncated` and `Varint` as `decode_delimited`.
pub fn entry_body(wire_type: WireType, bytes: &[u8]) -> Result<(&[u8], &[u8]), DecodeError>
    ensures ok { IfOk result (λ x. (wire_type ≡ wires.LengthDelimited) × DelimitedFront x.0.now bytes.now x.1.now) }
    ensures fault { IfErr result (λ e. BodyFault e wire_type bytes.now) }
{
    match wire_type {
        WireType::LengthDelimited => decode_delimited(bytes),
        WireType::EndGroup => Err(DecodeError::EndGroup),
        WireType::Varint => Err(DecodeError::WireType),
        WireType::SixtyFourBit => Err(DecodeError::WireType),
        WireType::StartGroup => Err(DecodeError::WireType),
        WireType::ThirtyTwoBit => Err(DecodeError::WireType),
    }
}

/// Whether a message or a group may be read behind a key: the wire type is its own, and a level is left.
///
/// # Errors
///
/// `EndGroup` at an end key, `WireType` if the wire type is another one, `Depth` if no level is left.
pub fn check_nested(is_group: bool, wire_type: WireType, levels: u32) -> Result<(), DecodeError>
    ensures wire { OnOk result (wire_type ≡ nested_wire is_group) }
    ensures levels { OnOk result (1 ≤ levels) }
    ensures fault { IfErr result (λ e. NestedFault is_group wire_type levels e) }
{
    let wanted = if is_group {
        WireType::StartGroup
    } else {
        WireType::LengthDelimited
    };
    if wire_type == WireType::EndGroup {
        return Err(DecodeError::EndGroup);
    }
    if wire_type != wanted {
        return Err(DecodeError::WireType);
    }
    if levels == 0 {
        return Err(DecodeError::Depth);
    }
    Ok(())
}
