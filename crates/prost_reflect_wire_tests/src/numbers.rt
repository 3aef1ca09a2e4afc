//! Numbers, keys and payloads: the tables of the encoding guide, and the limits.

use crate::unknown::in_groups;
use prost_reflect_wire::{
    DecodeError, WireType, decode_delimited, decode_fixed32, decode_fixed64, decode_key,
    decode_varint, decode_varint_plain, key_value, low_i32, low_u32, sign_extended, unzigzag32,
    unzigzag64, varint_len, zigzag32, zigzag64,
};
use std::alloc::Global;
use std::test::Fail;

/// Numbers, and what stands for them: the table of the encoding guide, and the limits.
static ZIGZAG: [(i32, u32); 6] = [
    (0, 0),
    (-1, 1),
    (1, 2),
    (-2, 3),
    (0x7fff_ffff, 0xffff_fffe),
    (-0x8000_0000, 0xffff_ffff),
];

/// Whether the signed number is written as the unsigned one, and read of it, in 32 and in 64 bits.
fn is_zigzag(signed: i32, unsigned: u32) -> bool {
    zigzag32(signed) == unsigned
        && unzigzag32(unsigned) == signed
        && zigzag64(i64::from(signed)) == u64::from(unsigned)
        && unzigzag64(u64::from(unsigned)) == i64::from(signed)
}

#[test]
fn signed_numbers(rt: HostRuntime) {
    for (signed, unsigned) in &ZIGZAG {
        assert!(rt; is_zigzag(*signed, *unsigned), "{signed}");
    }
    assert!(rt; zigzag64(i64::MIN) == u64::MAX && unzigzag64(u64::MAX - 1) == i64::MAX);
    assert!(rt; sign_extended(-1) == u64::MAX);
    assert!(rt; low_i32(0x1_8000_0000) == i32::MIN && low_u32(0x1_8000_0000) == 0x8000_0000);
}

/// Varints in hex, with a byte behind each that is none of theirs.
static VARINTS: [(&str, u64, usize); 10] = [
    ("00ff", 0, 1),
    ("7fff", 127, 1),
    ("8001ff", 128, 2),
    ("9601ff", 150, 2),
    ("ff7fff", 16_383, 2),
    ("808001ff", 16_384, 3),
    ("ffffffff0fff", 0xffff_ffff, 5),
    ("ffffffffffffffff7fff", 0x7fff_ffff_ffff_ffff, 9),
    ("80808080808080808001ff", 0x8000_0000_0000_0000, 10),
    ("ffffffffffffffffff01ff", 0xffff_ffff_ffff_ffff, 10),
];

/// Whether both calls read the value up to the last byte, and it takes so many bytes.
fn is_varint(alloc: Global, text: &str, value: u64, len: usize) -> Result<bool, Fail> {
    let input = in_groups(alloc, 0, text)?;
    Ok(
        value_and_rest(decode_varint(&input)) == Some((value, 1))
            && value_and_rest(decode_varint_plain(&input)) == Some((value, 1))
            && varint_len(value) == len,
    )
}

#[test]
fn varints(rt: HostRuntime) -> Result<(), Fail> {
    for (text, value, len) in &VARINTS {
        assert!(rt; is_varint(rt.alloc(), text, *value, *len)?, "at {text}");
    }
    Ok(())
}

/// The value, and how many bytes are left.
fn value_and_rest(read: Result<(u64, &[u8]), DecodeError>) -> Option<(u64, usize)> {
    match read {
        Ok((value, rest)) => Some((value, rest.len())),
        Err(_) => None,
    }
}

/// The greatest key of wire type 5.
#[test]
fn keys(rt: HostRuntime) -> Result<(), Fail> {
    let (number, wire_type, rest) = decode_key(&[0xfd, 0xff, 0xff, 0xff, 0x0f])?;
    assert!(rt; number.get() == 536_870_911 && rest.is_empty());
    assert!(rt; wire_type == WireType::ThirtyTwoBit && wire_type.code() == 5);
    assert!(rt; key_value(number.get(), wire_type) == 0xffff_fffd);
    Ok(())
}

#[test]
fn payloads(rt: HostRuntime) -> Result<(), Fail> {
    let (body, rest) = decode_delimited(&[0x02, 0x41, 0x42, 0x43])?;
    assert!(rt; body == [0x41, 0x42].as_slice() && rest == [0x43].as_slice());
    let (eight, rest) = decode_fixed64(&[1, 2, 3, 4, 5, 6, 7, 8, 9])?;
    assert!(rt; u64::from_le_bytes(eight) == 0x0807_0605_0403_0201 && rest == [9].as_slice());
    let (four, rest) = decode_fixed32(&[1, 2, 3, 4, 5])?;
    assert!(rt; u32::from_le_bytes(four) == 0x0403_0201 && rest == [5].as_slice());
    Ok(())
}
