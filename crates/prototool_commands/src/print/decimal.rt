//! Numbers in decimal digits with an exponent.

use std::alloc::{AllocError, Global};

/// A decimal number: its sign, a digit, the digits after the point without zeros at the end, and an exponent of ten.
#[derive(Clone, Copy, Debug, PartialEq, Eq)]
pub struct Decimal<'a> {
    sign: &'a str,
    first: &'a str,
    rest: &'a str,
    exponent: i32,
}

impl<'a> Decimal<'a> {
    /// The number that a text such as `-1.250e-7` spells.
    pub fn parse(text: &'a str) -> Option<Decimal<'a>> {
        let (sign, digits) = match text.strip_prefix('-') {
            Some(digits) => ("-", digits),
            None => ("", text),
        };
        let (mantissa, exponent) = digits.split_once('e')?;
        let (first, rest) = mantissa.split_once('.')?;
        Some(Decimal {
            sign,
            first,
            rest: rest.trim_end_matches('0'),
            exponent: exponent.parse::<i32>().ok()?,
        })
    }

    /// The number as C's `%g` writes it: with an exponent where that is below -4, or as great as the number of digits.
    pub fn general_text(self, alloc: Global, digits: u32) -> Result<String, AllocError> {
        let places = self.exponent.unsigned_abs();
        let mut text = String::from_str(alloc, self.sign)?;
        if self.exponent < -4 || (self.exponent >= 0 && places >= digits) {
            self.push_scientific(&mut text, places)?;
        } else if self.exponent < 0 {
            self.push_below_one(&mut text, places)?;
        } else {
            self.push_from_one(&mut text, places)?;
        }
        Ok(text)
    }

    /// Appends the digits with an exponent of two digits or more.
    fn push_scientific(self, text: &mut String, places: u32) -> Result<(), AllocError> {
        text.push_str(self.first)?;
        if !self.rest.is_empty() {
            text.push_str(".")?;
            text.push_str(self.rest)?;
        }
        let sign = if self.exponent < 0 { "-" } else { "+" };
        write!(text, "e{sign}{places:02}")
    }

    /// Appends the digits so many places after the point.
    fn push_below_one(self, text: &mut String, places: u32) -> Result<(), AllocError> {
        text.push_str("0.")?;
        push_zeros(text, places.saturating_sub(1) as usize)?;
        text.push_str(self.first)?;
        text.push_str(self.rest)
    }

    /// Appends the digits with the point so many places after the first one, and zeros up to there.
    fn push_from_one(self, text: &mut String, places: u32) -> Result<(), AllocError> {
        let places = places as usize;
        text.push_str(self.first)?;
        for (place, digit) in self.rest.chars().enumerate() {
            if place == places {
                text.push_str(".")?;
            }
            text.push(digit)?;
        }
        push_zeros(text, places.saturating_sub(self.rest.len()))
    }
}

/// Appends so many zeros.
fn push_zeros(text: &mut String, count: usize) -> Result<(), AllocError> {
    for _ in 0..count {
        text.push_str("0")?;
    }
    Ok(())
}
