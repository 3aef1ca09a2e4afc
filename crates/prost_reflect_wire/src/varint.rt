//! Varints: numbers below 2^64 in base 128, least digit first (the encoding guide, "Base 128 Varints").

ghost use Rattle.std.specs.Prelude.{◌≡◌, ◌≤◌, ℕ, List, length, IfOk, IfErr, IsOkAnd};
ghost use Rattle.prost_reflect_wire.specs.Varint.{short};
ghost use Rattle.prost_reflect_wire.specs.Front.{VarintFront, VarintFault};

use crate::error::DecodeError;

/// Reads the varint at the front, and gives its value and the bytes behind it.
///
/// A varint has 1 to 10 bytes. Needless zero digits are read.
///
/// # Errors
///
/// `Truncated` if the bytes end inside the varint, `Varint` if its tenth byte is above 1.
#[inline]
pub fn decode_varint(bytes: &[u8]) -> Result<(u64, &[u8]), DecodeError>
    ensures ok { IfOk result (λ x. VarintFront x.0 bytes.now x.1.now) }
    ensures only { (value : ℕ) (rest : List ℕ) → VarintFront value bytes.now rest →
        IsOkAnd result (λ x. (x.0 ≡ value) × (x.1.now ≡ rest)) }
    ensures fault { IfErr result (λ e. VarintFault e bytes.now) }
{
    match bytes.split_first() {
        Some((byte, rest)) if *byte < 0x80 => Ok((u64::from(*byte), rest)),
        _ => decode_steps(bytes),
    }
}

/// Reads a varint in at most ten steps. A loop of so many is unrolled, and each digit's scale is then a constant.
#[inline(never)]
fn decode_steps(bytes: &[u8]) -> Result<(u64, &[u8]), DecodeError>
    ensures ok { IfOk result (λ x. VarintFront x.0 bytes.now x.1.now) }
    ensures fault { IfErr result (λ e. VarintFault e bytes.now) }
{
    let mut value = 0u64;
    let mut scale = 1u64;
    for index in 0..10 {
        if index >= bytes.len() {
            return Err(DecodeError::Truncated);
        }
        let byte = bytes[index];
        if index == 9 && byte > 1 {
            return Err(DecodeError::Varint);
        }
        value += scale * u64::from(byte & 0x7f);
        if byte < 0x80 {
            return Ok((value, &bytes[index + 1..]));
        }
        scale *= 0x80;
    }
    unreachable!()
}

/// The plain form of `decode_varint`, digit by digit as far as they go. It gives the same, more slowly.
///
/// # Errors
///
/// As `decode_varint`.
pub fn decode_varint_plain(bytes: &[u8]) -> Result<(u64, &[u8]), DecodeError>
    ensures ok { IfOk result (λ x. VarintFront x.0 bytes.now x.1.now) }
    ensures only { (value : ℕ) (rest : List ℕ) → VarintFront value bytes.now rest →
        IsOkAnd result (λ x. (x.0 ≡ value) × (x.1.now ≡ rest)) }
    ensures fault { IfErr result (λ e. VarintFault e bytes.now) }
{
    let mut value = 0u64;
    let mut scale = 1u64;
    for (place, byte) in bytes.iter().enumerate() {
        let byte = *byte;
        if place == 9 && byte > 1 {
            return Err(DecodeError::Varint);
        }
        value += scale * u64::from(byte & 0x7f);
        if byte < 0x80 {
            return Ok((value, &bytes[place + 1..]));
        }
        scale *= 0x80;
    }
    Err(DecodeError::Truncated)
}

/// How many bytes the shortest varint of the value takes, from 1 to 10.
pub fn varint_len(value: u64) -> usize
    ensures len { result ≡ length (short value) }
    ensures few { result ≤ 10 }
{
    let mut rest = value;
    let mut len = 1;
    while rest >= 0x80 {
        rest /= 0x80;
        len += 1;
    }
    len
}
