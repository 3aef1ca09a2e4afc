//! Reading the default that a field's definition writes as text.

ghost use Rattle.std.specs.Prelude.{◌≡◌, ◌<◌, ◌≤◌, ◌+◌, ◌-◌, ◌*◌, ◌^◌, ◌≤ℤ◌, ◌<ℤ◌, pos, neg_ℤ, List, option_map, IfOk, IfSome};
ghost use Rattle.prost_reflect_tables.specs.Rows.{EnumValueRow, written_scalar};
ghost use Rattle.prost_reflect_tables.specs.WrittenDefaults.{is_octal, is_digit, whole_number, up_to, signed, whole_bits, magnitude_bits, float_bits, binary32, binary64, front, octal_digit, octal, letter, escaped, front_byte, unescaped, boolean, number_named, field_default};

use prost_reflect_tables::{TableKind, WrittenDefault};
use std::alloc::{AllocError, Global};

/// Reads the default of a singular field of a proto2 file, as protoc writes it into the field's record. A text that gives no
/// value of the field's kind is none.
///
/// The number is that of the value that the text names, where the field is of an enum: of its first value of that name.
///
/// Of a float or double field the texts `inf`, `-inf`, `nan` and whole numbers up to 2^24 or 2^53 are read.
///
/// # Errors
///
/// `AllocError` if out of memory.
#[tactic(auto, unfolding(prost_reflect_tables::specs::WrittenDefaults::written_default))]
pub fn written_default(
    alloc: Global,
    kind: TableKind,
    number: Option<i32>,
    text: &str,
) -> Result<Option<WrittenDefault>, AllocError>
    ensures { IfOk result
        (λ d. (values : List EnumValueRow) → number_named values text.now ≡ number
        → option_map written_scalar d ≡ field_default kind values text.now) }
{
    let bytes = text.as_bytes();
    match kind {
        TableKind::Double => Ok(double_bits(bytes).map(WrittenDefault::F64)),
        TableKind::Float => Ok(float_bits(bytes).map(WrittenDefault::F32)),
        TableKind::Int32 | TableKind::Sint32 | TableKind::Sfixed32 => {
            Ok(int32(bytes).map(WrittenDefault::I32))
        }
        TableKind::Int64 | TableKind::Sint64 | TableKind::Sfixed64 => {
            Ok(signed(bytes, 1 << 63).map(WrittenDefault::I64))
        }
        TableKind::Uint32 | TableKind::Fixed32 => Ok(uint32(bytes).map(WrittenDefault::U32)),
        TableKind::Uint64 | TableKind::Fixed64 => {
            Ok(whole_number(bytes, u64::MAX).map(WrittenDefault::U64))
        }
        TableKind::Bool => Ok(boolean(text).map(WrittenDefault::Bool)),
        TableKind::String => Ok(Some(WrittenDefault::String(String::from_str(alloc, text)?))),
        TableKind::Bytes => Ok(unescaped(alloc, bytes)?.map(WrittenDefault::Bytes)),
        TableKind::Enum(_) => Ok(number.map(WrittenDefault::EnumNumber)),
        TableKind::Message(_) => Ok(None),
    }
}

fn boolean(text: &str) -> Option<bool>
    ensures { result ≡ boolean text.now }
{
    match text {
        "true" => Some(true),
        "false" => Some(false),
        _ => None,
    }
}

// WHOLE NUMBERS

fn is_digit(byte: u8) -> bool
    ensures { result ≡ is_digit byte }
{
    byte >= b'0' && byte <= b'9'
}

/// The number of decimal digits, at least one, if it is at most the limit.
fn whole_number(text: &[u8], limit: u64) -> Option<u64>
    ensures value { result ≡ up_to limit (whole_number text.now) }
    ensures range { IfSome result (λ n. n ≤ limit) }
{
    if text.is_empty() {
        return None;
    }
    let mut number = 0u64;
    for byte in text {
        let byte = *byte;
        if !is_digit(byte) {
            return None;
        }
        let digit = u64::from(byte - b'0');
        if number > limit / 10 || digit > limit - 10 * number {
            return None;
        }
        number = 10 * number + digit;
    }
    Some(number)
}

fn uint32(text: &[u8]) -> Option<u32>
    ensures { result ≡ up_to (2 ^ 32 - 1) (whole_number text.now) }
{
    match whole_number(text, 0xffff_ffff) {
        Some(number) => Some(number as u32),
        None => None,
    }
}

fn negated(number: u64) -> i64
    requires { number ≤ 2 ^ 63 }
    ensures { result ≡ neg_ℤ (pos number) }
{
    if number == 0 {
        0
    } else {
        -1 - (number - 1) as i64
    }
}

/// The number of digits behind an optional `-`, from -limit to limit - 1.
fn signed(text: &[u8], limit: u64) -> Option<i64>
    requires some { 0 < limit }
    requires fits { limit ≤ 2 ^ 63 }
    ensures value { result ≡ signed limit text.now }
    ensures low { IfSome result (λ z. neg_ℤ (pos limit) ≤ℤ z) }
    ensures high { IfSome result (λ z. z <ℤ pos limit) }
{
    match text.split_first() {
        Some((first, digits)) if *first == b'-' => match whole_number(digits, limit) {
            Some(number) => Some(negated(number)),
            None => None,
        },
        _ => match whole_number(text, limit - 1) {
            Some(number) => Some(number as i64),
            None => None,
        },
    }
}

fn int32(text: &[u8]) -> Option<i32>
    ensures { result ≡ signed (2 ^ 31) text.now }
{
    match signed(text, 0x8000_0000) {
        Some(number) => Some(number as i32),
        None => None,
    }
}

// FLOATING-POINT NUMBERS

fn power_of_two(exponent: u64) -> u64
    requires { exponent ≤ 52 }
    ensures { result ≡ 2 ^ exponent }
{
    1 << exponent
}

/// The bits of a whole number in a format whose fraction has so many bits and whose exponent has this bias.
fn whole_bits(number: u64, fraction_bits: u64, bias: u64) -> u64
    requires fits { number ≤ 2 ^ (fraction_bits + 1) }
    requires width { fraction_bits ≤ 52 }
    requires bias { bias ≤ 1023 }
    ensures value { result ≡ whole_bits fraction_bits bias number }
    ensures below { result < (fraction_bits + bias + 2) * 2 ^ fraction_bits }
{
    if number == 0 {
        return 0;
    }
    let one = power_of_two(fraction_bits);
    if number == 2 * one {
        return (fraction_bits + 1 + bias) * one;
    }
    let mut significand = number;
    let mut exponent = fraction_bits;
    while significand < one {
        significand *= 2;
        exponent -= 1;
    }
    (exponent + bias) * one + (significand - one)
}

fn float_magnitude(text: &[u8]) -> Option<u32>
    ensures value { result ≡ magnitude_bits binary32 text.now }
    ensures below { IfSome result (λ n. n < 2 ^ 31) }
{
    if text == b"inf".as_slice() {
        return Some(0x7f80_0000);
    }
    match whole_number(text, 1 << 24) {
        Some(number) => Some(whole_bits(number, 23, 127) as u32),
        None => None,
    }
}

fn float_bits(text: &[u8]) -> Option<u32>
    ensures { result ≡ float_bits binary32 text.now }
{
    if text == b"nan".as_slice() {
        return Some(0x7fc0_0000);
    }
    match text.split_first() {
        Some((first, digits)) if *first == b'-' => match float_magnitude(digits) {
            Some(bits) => Some(0x8000_0000 + bits),
            None => None,
        },
        _ => float_magnitude(text),
    }
}

fn double_magnitude(text: &[u8]) -> Option<u64>
    ensures value { result ≡ magnitude_bits binary64 text.now }
    ensures below { IfSome result (λ n. n < 2 ^ 63) }
{
    if text == b"inf".as_slice() {
        return Some(0x7ff0_0000_0000_0000);
    }
    match whole_number(text, 1 << 53) {
        Some(number) => Some(whole_bits(number, 52, 1023)),
        None => None,
    }
}

fn double_bits(text: &[u8]) -> Option<u64>
    ensures { result ≡ float_bits binary64 text.now }
{
    if text == b"nan".as_slice() {
        return Some(0x7ff8_0000_0000_0000);
    }
    match text.split_first() {
        Some((first, digits)) if *first == b'-' => match double_magnitude(digits) {
            Some(bits) => Some(0x8000_0000_0000_0000 + bits),
            None => None,
        },
        _ => double_magnitude(text),
    }
}

// BYTES

fn is_octal(byte: u8) -> bool
    ensures { result ≡ is_octal byte }
{
    byte >= b'0' && byte <= b'7'
}

/// One octal digit more behind a number, if one stands there.
#[tactic(auto, unfolding(prost_reflect_tables::specs::WrittenDefaults::octal_digit))]
fn octal_digit(value: u32, text: &[u8]) -> (u32, &[u8])
    requires { value < 2 ^ 16 }
    ensures value { front result.0 result.1.now ≡ octal_digit (front value text.now) text.now }
    ensures below { result.0 ≤ 8 * value + 7 }
{
    match text.split_first() {
        Some((digit, rest)) if is_octal(*digit) => (8 * value + u32::from(*digit - b'0'), rest),
        _ => (value, text),
    }
}

/// The octal digits in front, at most three.
fn octal(text: &[u8]) -> (u32, &[u8])
    ensures value { front result.0 result.1.now ≡ octal text.now }
{
    let (value, rest) = octal_digit(0, text);
    let (value, rest) = octal_digit(value, rest);
    octal_digit(value, rest)
}

fn letter(byte: u8) -> Option<u8>
    ensures { result ≡ letter byte }
{
    match byte {
        b'n' => Some(b'\n'),
        b'r' => Some(b'\r'),
        b't' => Some(b'\t'),
        b'"' | b'\'' | b'\\' => Some(byte),
        _ => None,
    }
}

/// What stands behind a backslash: the byte that it means, and what follows.
fn escaped(text: &[u8]) -> Option<(u8, &[u8])>
    ensures { option_map (λ x. front x.0 x.1.now) result ≡ escaped text.now }
{
    let (first, rest) = text.split_first()?;
    if is_octal(*first) {
        let (value, rest) = octal(text);
        if value <= 255 {
            Some((value as u8, rest))
        } else {
            None
        }
    } else {
        match letter(*first) {
            Some(byte) => Some((byte, rest)),
            None => None,
        }
    }
}

/// The byte that a text with this first byte begins with, and what follows.
fn front_byte(first: u8, text: &[u8]) -> Option<(u8, &[u8])>
    ensures { option_map (λ x. front x.0 x.1.now) result ≡ front_byte first text.now }
{
    if first == b'\\' {
        escaped(text)
    } else {
        Some((first, text))
    }
}

/// The bytes of a text with escapes, or none where an escape means nothing.
fn unescaped(alloc: Global, text: &[u8]) -> Result<Option<Vec<u8>>, AllocError>
    ensures { IfOk result (λ o. option_map (λ v. v.items) o ≡ unescaped text.now) }
{
    let mut bytes = Vec::new(alloc);
    let mut rest = text;
    while let Some((first, behind)) = rest.split_first() {
        match front_byte(*first, behind) {
            Some((byte, follows)) => {
                bytes.push(byte)?;
                rest = follows;
            }
            None => return Ok(None),
        }
    }
    Ok(Some(bytes))
}
