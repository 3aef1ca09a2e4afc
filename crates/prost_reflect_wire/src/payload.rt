//! Payloads behind a key, and the numbers in them (the encoding guide, "More Integer Types", "Non-varint Numbers" and
//! "Length-Delimited Records").

ghost use Rattle.std.specs.Prelude.{◌≡◌, ◌^◌, ◌<◌, ℕ, List, IfOk, IfErr, IsOkAnd};
ghost use Rattle.std.specs.Int.{w32, w64, cast_unsigned};
ghost use Rattle.prost_reflect_wire.specs.Record.{Fix64, Fix32};
ghost use Rattle.prost_reflect_wire.specs.Scalar.{low_32, low_i32, zigzag, unzigzag};
ghost use Rattle.prost_reflect_wire.specs.Front.{PlainFront, DelimitedFront, PlainFault};
ghost use Rattle.prost_reflect_wire.specs.declared.key.WireType.TheVariants as wires;

use crate::error::DecodeError;
use crate::varint::decode_varint;

/// Reads eight bytes, and gives them and the bytes behind them.
///
/// # Errors
///
/// `Truncated` if there are fewer than eight.
pub fn decode_fixed64(bytes: &[u8]) -> Result<([u8; 8], &[u8]), DecodeError>
    ensures ok { IfOk result (λ x. PlainFront (Fix64 x.0) bytes.now x.1.now) }
    ensures only { (eight rest : List ℕ) → PlainFront (Fix64 eight) bytes.now rest →
        IsOkAnd result (λ x. (x.0 ≡ eight) × (x.1.now ≡ rest)) }
    ensures fault { IfErr result (λ e. PlainFault e wires.SixtyFourBit bytes.now) }
{
    match bytes.split_first_chunk::<8>() {
        Some((eight, rest)) => Ok((*eight, rest)),
        None => Err(DecodeError::Truncated),
    }
}

/// Reads four bytes, and gives them and the bytes behind them.
///
/// # Errors
///
/// `Truncated` if there are fewer than four.
pub fn decode_fixed32(bytes: &[u8]) -> Result<([u8; 4], &[u8]), DecodeError>
    ensures ok { IfOk result (λ x. PlainFront (Fix32 x.0) bytes.now x.1.now) }
    ensures only { (four rest : List ℕ) → PlainFront (Fix32 four) bytes.now rest →
        IsOkAnd result (λ x. (x.0 ≡ four) × (x.1.now ≡ rest)) }
    ensures fault { IfErr result (λ e. PlainFault e wires.ThirtyTwoBit bytes.now) }
{
    match bytes.split_first_chunk::<4>() {
        Some((four, rest)) => Ok((*four, rest)),
        None => Err(DecodeError::Truncated),
    }
}

/// Reads a length and so many bytes, and gives these bytes and those behind them.
///
/// # Errors
///
/// `Truncated` if the bytes end inside the length, or the length passes their end; `Varint` if the tenth byte of the
/// length is above 1.
#[inline]
pub fn decode_delimited(bytes: &[u8]) -> Result<(&[u8], &[u8]), DecodeError>
    ensures ok { IfOk result (λ x. DelimitedFront x.0.now bytes.now x.1.now) }
    ensures only { (body rest : List ℕ) → DelimitedFront body bytes.now rest →
        IsOkAnd result (λ x. (x.0.now ≡ body) × (x.1.now ≡ rest)) }
    ensures fault { IfErr result (λ e. PlainFault e wires.LengthDelimited bytes.now) }
{
    let (len, rest) = decode_varint(bytes)?;
    if (rest.len() as u64) < len {
        return Err(DecodeError::Truncated);
    }
    Ok(rest.split_at(len as usize))
}

/// The low 32 bits of a varint, as a `uint32` reads them.
pub fn low_u32(value: u64) -> u32
    ensures { result ≡ low_32 value }
{
    (value & 0xffff_ffff) as u32
}

/// The low 32 bits of a varint as a signed number, as an `int32` or an enum reads them.
pub fn low_i32(value: u64) -> i32
    ensures { result ≡ low_i32 value }
{
    low_u32(value).cast_signed()
}

/// The varint of an `int32` or of an enum's number: its sign fills 64 bits.
pub fn sign_extended(value: i32) -> u64
    ensures { result ≡ cast_unsigned w64 value }
{
    i64::from(value).cast_unsigned()
}

/// The varint of a `sint32`: 0, -1, 1, -2 are 0, 1, 2, 3.
pub fn zigzag32(value: i32) -> u32
    ensures { result ≡ zigzag value }
{
    if value < 0 {
        2 * ((-1 - value) as u32) + 1
    } else {
        2 * (value as u32)
    }
}

/// The `sint32` of a varint's low 32 bits.
pub fn unzigzag32(value: u32) -> i32
    ensures { result ≡ unzigzag value }
{
    let half = (value / 2) as i32;
    if value % 2 == 0 { half } else { -1 - half }
}

/// The varint of a `sint64`: 0, -1, 1, -2 are 0, 1, 2, 3.
pub fn zigzag64(value: i64) -> u64
    ensures { result ≡ zigzag value }
{
    if value < 0 {
        2 * ((-1 - value) as u64) + 1
    } else {
        2 * (value as u64)
    }
}

/// The `sint64` of a varint.
pub fn unzigzag64(value: u64) -> i64
    ensures { result ≡ unzigzag value }
{
    let half = (value / 2) as i64;
    if value % 2 == 0 { half } else { -1 - half }
}
