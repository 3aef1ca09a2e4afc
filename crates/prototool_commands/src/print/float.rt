//! The text of floats: what C's `printf` writes by `%g`, in the fewer of two numbers of digits if these read back as the same
//! float, and else in the greater one.

use crate::print::decimal::Decimal;
use std::alloc::{AllocError, Global};
use std::num::{
    f32_from_bits_with_nan, f32_to_bits_with_nan, f64_from_bits_with_nan, f64_to_bits_with_nan,
};

/// The bits of the positive infinity of a `double`.
const DOUBLE_INFINITY: u64 = 0x7ff0_0000_0000_0000;

/// The bit of the sign of a `double`.
const DOUBLE_SIGN: u64 = 0x8000_0000_0000_0000;

/// The bits of the positive infinity of a `float`.
const FLOAT_INFINITY: u32 = 0x7f80_0000;

/// The bit of the sign of a `float`.
const FLOAT_SIGN: u32 = 0x8000_0000;

/// The bits of the least normal `float`.
const FLOAT_NORMAL: u32 = 0x0080_0000;

/// The text of a `double` of the bits, in 15 digits or 17.
pub fn double_text(alloc: Global, bits: u64) -> Result<String, AllocError> {
    let size = bits % DOUBLE_SIGN;
    if size >= DOUBLE_INFINITY {
        return special_text(alloc, size > DOUBLE_INFINITY, bits >= DOUBLE_SIGN);
    }
    let double = f64_from_bits_with_nan(bits);
    let short = format!(in alloc; "{double:.14e}")?;
    if double_of(short.as_str()) == Some(bits) {
        return general_text(alloc, short.as_str(), 15);
    }
    let long = format!(in alloc; "{double:.16e}")?;
    general_text(alloc, long.as_str(), 17)
}

/// The text of a `float` of the bits, in 6 digits or 9. One below the normal ones has 9, since C's `strtof` reports that
/// reading it loses digits, and `protoc` takes this for an error.
pub fn float_text(alloc: Global, bits: u32) -> Result<String, AllocError> {
    let size = bits % FLOAT_SIGN;
    if size >= FLOAT_INFINITY {
        return special_text(alloc, size > FLOAT_INFINITY, bits >= FLOAT_SIGN);
    }
    let float = f32_from_bits_with_nan(bits);
    let short = format!(in alloc; "{float:.5e}")?;
    let is_exact = size == 0 || size >= FLOAT_NORMAL;
    if is_exact && float_of(short.as_str()) == Some(bits) {
        return general_text(alloc, short.as_str(), 6);
    }
    let long = format!(in alloc; "{float:.8e}")?;
    general_text(alloc, long.as_str(), 9)
}

/// The text of what is no finite number.
fn special_text(alloc: Global, is_nan: bool, is_negative: bool) -> Result<String, AllocError> {
    let text = if is_nan {
        "nan"
    } else if is_negative {
        "-inf"
    } else {
        "inf"
    };
    String::from_str(alloc, text)
}

/// The bits of the `double` that a text reads as.
fn double_of(text: &str) -> Option<u64> {
    match text.parse::<f64>() {
        Ok(double) => Some(f64_to_bits_with_nan(double)),
        Err(_) => None,
    }
}

/// The bits of the `float` that a text reads as.
fn float_of(text: &str) -> Option<u32> {
    match text.parse::<f32>() {
        Ok(float) => Some(f32_to_bits_with_nan(float)),
        Err(_) => None,
    }
}

/// The number that a text with an exponent spells, as `%g` writes it in so many digits.
fn general_text(alloc: Global, scientific: &str, digits: u32) -> Result<String, AllocError> {
    match Decimal::parse(scientific) {
        Some(decimal) => decimal.general_text(alloc, digits),
        None => String::from_str(alloc, scientific),
    }
}
