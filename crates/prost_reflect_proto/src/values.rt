//! Making the fields of a descriptor record of the values that were found.

ghost use Rattle.std.specs.Prelude.{◌≡◌, [], ◌∷◌, None, Some, map, option_map, IfOk};
ghost use Rattle.prost_reflect_types.specs.DescriptorViews.{of_text, of_number, of_flag, of_bytes, of_texts, of_numbers};
ghost use Rattle.prost_reflect_proto.specs.DescriptorReading.{all_found, found_of, last_at, text_at, number_at, flag_at, bytes_at, texts_at, numbers_at, joined_to, at_number, record_in};

use crate::fields::{RawField, RawValue};
use std::alloc::{AllocError, Global};

/// The last value of the number.
fn last<'a>(fields: &[RawField<'a>], number: u32) -> Option<RawValue<'a>>
    ensures { option_map found_of result ≡ last_at number (all_found fields.now) }
{
    let mut found = None;
    for field in fields {
        if field.number == number {
            found = Some(field.value);
        }
    }
    found
}

/// The text of the number: the last one.
///
/// # Errors
///
/// `AllocError` if out of memory.
#[tactic(auto, unfolding(crate::specs::DescriptorReading::text_at, prost_reflect_types::specs::DescriptorViews::of_text))]
pub fn text(
    alloc: Global,
    fields: &[RawField<'_>],
    number: u32,
) -> Result<Option<String>, AllocError>
    ensures { IfOk result (λ text. of_text text ≡ text_at number (all_found fields.now)) }
{
    match last(fields, number) {
        Some(RawValue::Text(text)) => Ok(Some(String::from_str(alloc, text)?)),
        _ => Ok(None),
    }
}

/// The number under the number: the last one.
#[tactic(auto, unfolding(crate::specs::DescriptorReading::number_at, prost_reflect_types::specs::DescriptorViews::of_number))]
pub fn number(fields: &[RawField<'_>], number: u32) -> Option<i32>
    ensures { of_number result ≡ number_at number (all_found fields.now) }
{
    match last(fields, number) {
        Some(RawValue::Number(value)) => Some(value),
        _ => None,
    }
}

/// The flag of the number: the last one.
#[tactic(auto, unfolding(crate::specs::DescriptorReading::flag_at, prost_reflect_types::specs::DescriptorViews::of_flag))]
pub fn flag(fields: &[RawField<'_>], number: u32) -> Option<bool>
    ensures { of_flag result ≡ flag_at number (all_found fields.now) }
{
    match last(fields, number) {
        Some(RawValue::Flag(value)) => Some(value),
        _ => None,
    }
}

/// The raw bytes of the number: all its pieces, joined.
///
/// # Errors
///
/// `AllocError` if out of memory.
#[tactic(auto, unfolding(crate::specs::DescriptorReading::bytes_at, prost_reflect_types::specs::DescriptorViews::of_bytes))]
pub fn bytes(
    alloc: Global,
    fields: &[RawField<'_>],
    number: u32,
) -> Result<Option<Vec<u8>>, AllocError>
    ensures { IfOk result (λ bytes. of_bytes bytes ≡ bytes_at number (all_found fields.now)) }
{
    let mut found = None;
    for field in fields {
        if field.number == number {
            if let RawValue::Bytes(piece) = field.value {
                found = Some(longer(alloc, found, piece)?);
            }
        }
    }
    Ok(found)
}

/// What there is, and a piece behind it.
fn longer(alloc: Global, bytes: Option<Vec<u8>>, piece: &[u8]) -> Result<Vec<u8>, AllocError>
    ensures { IfOk result (λ all. joined_to (option_map (λ b. b.items) bytes) (piece.now ∷ []) ≡ Some all.items) }
{
    match bytes {
        None => piece.to_vec(alloc),
        Some(mut bytes) => {
            bytes.extend_from_slice(piece)?;
            Ok(bytes)
        }
    }
}

/// The texts of the number.
///
/// # Errors
///
/// `AllocError` if out of memory.
#[tactic(auto, unfolding(crate::specs::DescriptorReading::texts_at, prost_reflect_types::specs::DescriptorViews::of_texts))]
pub fn texts(alloc: Global, fields: &[RawField<'_>], number: u32) -> Result<Vec<String>, AllocError>
    ensures { IfOk result (λ texts. of_texts texts ≡ texts_at number (all_found fields.now)) }
{
    let mut texts = Vec::new(alloc);
    for field in fields {
        if field.number == number {
            if let RawValue::Text(text) = field.value {
                texts.push(String::from_str(alloc, text)?)?;
            }
        }
    }
    texts.shrink_to_fit();
    Ok(texts)
}

/// The numbers under the number.
///
/// # Errors
///
/// `AllocError` if out of memory.
#[tactic(auto, unfolding(crate::specs::DescriptorReading::numbers_at, prost_reflect_types::specs::DescriptorViews::of_numbers))]
pub fn numbers(alloc: Global, fields: &[RawField<'_>], number: u32) -> Result<Vec<i32>, AllocError>
    ensures { IfOk result (λ numbers. of_numbers numbers ≡ numbers_at number (all_found fields.now)) }
{
    let mut numbers = Vec::new(alloc);
    for field in fields {
        if field.number == number {
            if let RawValue::Number(value) = field.value {
                numbers.push(value)?;
            }
        }
    }
    numbers.shrink_to_fit();
    Ok(numbers)
}

/// The bodies of the nested records of the number.
///
/// # Errors
///
/// `AllocError` if out of memory.
pub fn bodies<'a>(
    alloc: Global,
    fields: &[RawField<'a>],
    number: u32,
) -> Result<Vec<&'a [u8]>, AllocError>
    ensures { IfOk result (λ bodies. map (λ b. b.now) bodies.items ≡ at_number record_in number (all_found fields.now)) }
{
    let mut bodies = Vec::new(alloc);
    for field in fields {
        if field.number == number {
            if let RawValue::Record(body) = field.value {
                bodies.push(body)?;
            }
        }
    }
    Ok(bodies)
}
