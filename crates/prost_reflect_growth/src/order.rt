//! Places in the order of what stands at them.

ghost use Rattle.std.specs.Prelude.{◌≡◌, IfOk, OnOk};
ghost use Rattle.std.specs.Ordering.{nat_cmp, int_cmp};
ghost use Rattle.std.specs.Cmp.Lexicographic.{slice_cmp};
ghost use Rattle.prost_reflect_flat.specs.FlatViews.{text_list};
ghost use Rattle.prost_reflect_tables.specs.Gathered.{all_places};
ghost use Rattle.prost_reflect_tables.specs.Orders.{text_at, by_text, number_at, by_number};

use std::alloc::{AllocError, Global};
use std::cmp::Ordering;

/// The text at a place, empty where none stands there.
pub fn text_at<'f>(texts: &[&'f str], place: usize) -> &'f str
    ensures { result.now ≡ text_at (text_list texts.now) place }
{
    match texts.get(place) {
        Some(text) => text,
        None => "",
    }
}

fn compare_texts(texts: &[&str], first: usize, second: usize) -> Ordering
    ensures { result ≡ slice_cmp nat_cmp (text_at (text_list texts.now) first) (text_at (text_list texts.now) second) }
{
    text_at(texts, first).cmp(text_at(texts, second))
}

/// Sorts places by the texts that stand at them; places of equal texts stay in their order.
///
/// # Errors
///
/// `AllocError` if out of memory.
pub fn sort_by_text(texts: &[&str], places: &mut Vec<usize>) -> Result<(), AllocError>
    ensures { OnOk result (places.new.items ≡ by_text (text_list texts.now) places.old.items) }
{
    places.sort_by(|first, second| compare_texts(texts, *first, *second))?;
    Ok(())
}

fn number_at(numbers: &[i32], place: usize) -> i32
    ensures { result ≡ number_at numbers.now place }
{
    match numbers.get(place) {
        Some(number) => *number,
        None => 0,
    }
}

fn compare_numbers(numbers: &[i32], first: usize, second: usize) -> Ordering
    ensures { result ≡ int_cmp (number_at numbers.now first) (number_at numbers.now second) }
{
    number_at(numbers, first).cmp(&number_at(numbers, second))
}

/// Sorts places by the numbers that stand at them; places of equal numbers stay in their order.
fn sort_by_number(numbers: &[i32], places: &mut Vec<usize>) -> Result<(), AllocError>
    ensures { OnOk result (places.new.items ≡ by_number numbers.now places.old.items) }
{
    places.sort_by(|first, second| compare_numbers(numbers, *first, *second))?;
    Ok(())
}

fn all_places<T>(alloc: Global, items: &[T]) -> Result<Vec<usize>, AllocError>
    ensures { IfOk result (λ v. v.items ≡ all_places items.now) }
{
    let mut places = Vec::with_capacity(alloc, items.len())?;
    for (place, _) in items.iter().enumerate() {
        places.push(place)?;
    }
    Ok(places)
}

/// The places of texts, by the texts.
///
/// # Errors
///
/// `AllocError` if out of memory.
pub fn ordered_texts(alloc: Global, texts: &[&str]) -> Result<Vec<usize>, AllocError>
    ensures { IfOk result (λ v. v.items ≡ by_text (text_list texts.now) (all_places (text_list texts.now))) }
{
    let mut places = all_places(alloc, texts)?;
    sort_by_text(texts, &mut places)?;
    Ok(places)
}

/// The places of numbers, by the numbers.
///
/// # Errors
///
/// `AllocError` if out of memory.
pub fn ordered_numbers(alloc: Global, numbers: &[i32]) -> Result<Vec<usize>, AllocError>
    ensures { IfOk result (λ v. v.items ≡ by_number numbers.now (all_places numbers.now)) }
{
    let mut places = all_places(alloc, numbers)?;
    sort_by_number(numbers, &mut places)?;
    Ok(places)
}
