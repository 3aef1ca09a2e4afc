//! Fields that bytes may be, read as leniently as `protoc` reads them where it looks for a message in bytes: of a number
//! that is too great the low bits are taken.

use prost_reflect::{FieldNumber, UnknownField, UnknownFieldSet, UnknownFieldValue};
use std::alloc::{AllocError, Global};

/// The code of the wire type of a varint.
const VARINT: u32 = 0;

/// The code of the wire type of eight bytes.
const SIXTY_FOUR_BIT: u32 = 1;

/// The code of the wire type of a length and as many bytes.
const LENGTH_DELIMITED: u32 = 2;

/// The code of the wire type that opens a group.
const START_GROUP: u32 = 3;

/// The code of the wire type that ends a group.
const END_GROUP: u32 = 4;

/// The code of the wire type of four bytes.
const THIRTY_TWO_BIT: u32 = 5;

/// How many bytes a varint has at most.
const VARINT_BYTES: u32 = 10;

/// How many numbers 32 bits count.
const WORD: u64 = 0x1_0000_0000;

/// The fields that the bytes read as, if they are not empty and read as fields to their end, in at most so many levels of
/// groups.
pub fn fields_in(
    alloc: Global,
    bytes: &[u8],
    levels: u32,
) -> Result<Option<Vec<UnknownField>>, AllocError> {
    if bytes.is_empty() {
        return Ok(None);
    }
    match read_fields(alloc, bytes, None, levels)? {
        Some((fields, _)) => Ok(Some(fields)),
        None => Ok(None),
    }
}

/// Reads fields up to the key that ends the group of the number, and answers them with what follows it; where no group is
/// open, reads them to the end of the bytes. Answers none where the bytes are no such fields.
#[cycle(reading)]
fn read_fields<'a>(
    alloc: Global,
    bytes: &'a [u8],
    group: Option<u32>,
    levels: u32,
) -> Result<Option<(Vec<UnknownField>, &'a [u8])>, AllocError> {
    let mut fields = Vec::new(alloc);
    let mut rest = bytes;
    for _ in 0..bytes.len() {
        let Some((number, code, after)) = read_key(rest) else {
            return Ok(None);
        };
        if code == END_GROUP {
            return Ok(if group == Some(number.get()) {
                Some((fields, after))
            } else {
                None
            });
        }
        let Some((value, after)) = read_value(alloc, after, number.get(), code, levels)? else {
            return Ok(None);
        };
        fields.push(UnknownField::new(number, value))?;
        rest = after;
        if rest.is_empty() {
            break;
        }
    }
    Ok(if group.is_none() {
        Some((fields, rest))
    } else {
        None
    })
}

/// Reads what follows a key of the number and of the wire type of the code, and answers it with what comes after it.
#[cycle(reading)]
fn read_value<'a>(
    alloc: Global,
    bytes: &'a [u8],
    number: u32,
    code: u32,
    levels: u32,
) -> Result<Option<(UnknownFieldValue, &'a [u8])>, AllocError> {
    if code != START_GROUP {
        return read_plain(alloc, bytes, code);
    }
    let Some(fewer) = levels.checked_sub(1) else {
        return Ok(None);
    };
    match read_fields(alloc, bytes, Some(number), fewer)? {
        Some((fields, rest)) => {
            let group = UnknownFieldSet::from_fields(fields);
            Ok(Some((UnknownFieldValue::Group(group), rest)))
        }
        None => Ok(None),
    }
}

/// Reads what follows a key of the wire type of the code, if that opens no group, and answers it with what comes after it.
fn read_plain(
    alloc: Global,
    bytes: &[u8],
    code: u32,
) -> Result<Option<(UnknownFieldValue, &[u8])>, AllocError> {
    match code {
        VARINT => Ok(read_varint(bytes).map(|(value, rest)| (
            UnknownFieldValue::Varint(value),
            rest,
        ))),
        SIXTY_FOUR_BIT => Ok(
            bytes.split_first_chunk::<8>().map(|(value, rest)| (
                UnknownFieldValue::SixtyFourBit(*value),
                rest,
            )),
        ),
        THIRTY_TWO_BIT => Ok(
            bytes.split_first_chunk::<4>().map(|(value, rest)| (
                UnknownFieldValue::ThirtyTwoBit(*value),
                rest,
            )),
        ),
        LENGTH_DELIMITED => match read_delimited(bytes) {
            Some((value, rest)) => {
                let value = Vec::from_slice(alloc, value)?;
                Ok(Some((UnknownFieldValue::LengthDelimited(value), rest)))
            }
            None => Ok(None),
        },
        _ => Ok(None),
    }
}

/// Reads a key: the number of a field, and the code of a wire type.
fn read_key(bytes: &[u8]) -> Option<(FieldNumber, u32, &[u8])> {
    let (varint, rest) = read_varint(bytes)?;
    let key = (varint % WORD) as u32;
    let number = key / 8;
    if number == 0 {
        return None;
    }
    Some((FieldNumber::new(number), key % 8, rest))
}

/// Reads a length, and as many bytes after it.
fn read_delimited(bytes: &[u8]) -> Option<(&[u8], &[u8])> {
    let (varint, rest) = read_varint(bytes)?;
    let length = (varint % WORD) as usize;
    if length > rest.len() {
        return None;
    }
    Some(rest.split_at(length))
}

/// The varints that the bytes are a packed list of.
pub fn varints_in(alloc: Global, bytes: &[u8]) -> Result<Vec<u64>, AllocError> {
    let mut varints = Vec::new(alloc);
    let mut rest = bytes;
    for _ in 0..bytes.len() {
        let Some((varint, after)) = read_varint(rest) else {
            break;
        };
        varints.push(varint)?;
        rest = after;
    }
    Ok(varints)
}

/// Reads a varint, of which the low 64 bits are taken.
fn read_varint(bytes: &[u8]) -> Option<(u64, &[u8])> {
    let mut value = 0u64;
    let mut scale = 1u64;
    let mut rest = bytes;
    for _ in 0..VARINT_BYTES {
        let (byte, after) = rest.split_first()?;
        value = value.wrapping_add(u64::from(*byte % 128).wrapping_mul(scale));
        if *byte < 128 {
            return Some((value, after));
        }
        scale = scale.wrapping_mul(128);
        rest = after;
    }
    None
}
