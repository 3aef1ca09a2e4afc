//! Keys: field numbers and wire types (the encoding guide, "Message Structure").

ghost use Rattle.std.specs.Prelude.{◌≡◌, ◌+◌, ◌*◌, ◌≤◌, ◌<◌, ◌^◌, ℕ, List, IfOk, IfErr, IsOkAnd};
ghost use Rattle.prost_reflect_wire.specs.Record.{wire_code};
ghost use Rattle.prost_reflect_wire.specs.Front.{KeyFront, KeyFault};
ghost use Rattle.prost_reflect_wire.specs.declared.key.WireType.{WireType as Wire};

use crate::error::DecodeError;
use crate::varint::decode_varint;

/// What kind of payload follows a key (the encoding guide, "Message Structure").
#[derive(Clone, Copy, Debug, PartialEq, Eq)]
pub enum WireType {
    /// A varint.
    Varint,
    /// Eight bytes.
    SixtyFourBit,
    /// A length, and so many bytes.
    LengthDelimited,
    /// The records of a group, and its end key.
    StartGroup,
    /// The end of a group, behind which there is no payload.
    EndGroup,
    /// Four bytes.
    ThirtyTwoBit,
}

impl WireType {
    /// The low three bits of a key of this wire type.
    pub fn code(self) -> u8
        ensures code { result ≡ wire_code self }
        ensures known { result ≤ 5 }
    {
        match self {
            WireType::Varint => 0,
            WireType::SixtyFourBit => 1,
            WireType::LengthDelimited => 2,
            WireType::StartGroup => 3,
            WireType::EndGroup => 4,
            WireType::ThirtyTwoBit => 5,
        }
    }
}

/// The number of a field, from 1 to 536870911.
#[derive(Clone, Copy, Debug, PartialEq, Eq)]
pub struct FieldNumber {
    value: u32,
    pub ghost some: { 1 ≤ value },
    pub ghost below: { value < 2 ^ 29 },
}

impl FieldNumber {
    /// The number, which is from 1 to 536870911.
    pub fn new(value: u32) -> FieldNumber
        requires some { 1 ≤ value }
        requires below { value < 2 ^ 29 }
        ensures { result.value ≡ value }
    {
        FieldNumber { value }
    }

    /// The number as a `u32`.
    pub fn get(self) -> u32
        ensures value { result ≡ self.value }
        ensures some { 1 ≤ result }
        ensures below { result < 2 ^ 29 }
    {
        self.value
    }
}

/// Reads the key at the front: a field number, a wire type, and the bytes behind them.
///
/// A key is a varint below 2^32, eight times the number plus the wire type's code.
///
/// # Errors
///
/// `Truncated` if the bytes end inside the varint, `Varint` if its tenth byte is above 1, `Key` if it is 2^32 or more,
/// or has the number 0, or the wire type 6 or 7.
#[inline]
pub fn decode_key(bytes: &[u8]) -> Result<(FieldNumber, WireType, &[u8]), DecodeError>
    ensures ok { IfOk result (λ x. KeyFront x.0.value x.1 bytes.now x.2.now) }
    ensures only { (n : ℕ) (w : Wire) (rest : List ℕ) → KeyFront n w bytes.now rest →
        IsOkAnd result (λ x. (x.0.value ≡ n) × (x.1 ≡ w) × (x.2.now ≡ rest)) }
    ensures fault { IfErr result (λ e. KeyFault e bytes.now) }
{
    let (value, rest) = decode_varint(bytes)?;
    let Ok(key) = u32::try_from(value) else {
        return Err(DecodeError::Key);
    };
    let wire_type = match key % 8 {
        0 => WireType::Varint,
        1 => WireType::SixtyFourBit,
        2 => WireType::LengthDelimited,
        3 => WireType::StartGroup,
        4 => WireType::EndGroup,
        5 => WireType::ThirtyTwoBit,
        _ => return Err(DecodeError::Key),
    };
    let number = key / 8;
    if number == 0 {
        return Err(DecodeError::Key);
    }
    Ok((FieldNumber::new(number), wire_type, rest))
}

/// The varint that a key is: eight times the number, plus the wire type's code.
pub fn key_value(number: u32, wire_type: WireType) -> u64
    ensures { result ≡ 8 * number + wire_code wire_type }
{
    8 * u64::from(number) + u64::from(wire_type.code())
}
