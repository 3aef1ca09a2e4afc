//! The places of definitions by their names: those of a pool, with added ones among them.

ghost use Rattle.std.specs.Prelude.{◌≡◌, ◌+◌, ◌++◌, length, IfOk, map};
ghost use Rattle.std.specs.Ordering.{nat_cmp};
ghost use Rattle.std.specs.Cmp.Lexicographic.{slice_cmp};
ghost use Rattle.prost_reflect_growth.specs.Merging.{grown_order};
ghost use Rattle.prost_reflect_sorted.specs.Sorts.{names_below, order_below};
ghost use Rattle.prost_reflect_flat.specs.FlatViews.{text_list};
ghost use Rattle.prost_reflect_tables.specs.Orders.{text_at, text_before};

use prost_reflect_base::Base;
use prost_reflect_growth::{merged, ordered_texts, text_at};
use prost_reflect_shared::shared_slice::SharedSlice;
use std::alloc::{AllocError, Global};

/// A sort of definitions.
#[derive(Clone, Copy)]
pub enum Sort {
    /// Files, by their names.
    File,
    /// Message types, by their full names.
    Message,
    /// Enums, alike.
    Enum,
    /// Extensions, alike.
    Extension,
    /// Services, alike.
    Service,
}

/// How many of the sort a pool has.
fn count_below(base: Base<'_>, sort: Sort) -> usize
    ensures { result ≡ length (names_below base.entry sort) }
{
    match sort {
        Sort::File => base.file_count(),
        Sort::Message => base.message_count(),
        Sort::Enum => base.enum_count(),
        Sort::Extension => base.extension_count(),
        Sort::Service => base.service_count(),
    }
}

/// The name of the one at a place of a pool.
fn name_below<'p>(base: Base<'p>, sort: Sort, place: usize) -> &'p str
    ensures { result.now ≡ text_at (names_below base.entry sort) place }
{
    match sort {
        Sort::File => base.file_name(place),
        Sort::Message => base.message_name(place),
        Sort::Enum => base.enum_name(place),
        Sort::Extension => base.extension_name(place),
        Sort::Service => base.service_name(place),
    }
}

/// The places in a pool, in the order of the names.
fn order_below<'p>(base: Base<'p>, sort: Sort) -> &'p SharedSlice<usize>
    ensures { result.now ≡ order_below base.entry sort }
{
    let places = &base.pool().catalog().by_name;
    match sort {
        Sort::File => &places.files,
        Sort::Message => &places.messages,
        Sort::Enum => &places.enums,
        Sort::Extension => &places.extensions,
        Sort::Service => &places.services,
    }
}

/// The name of the one at a place of a pool, or, behind that, among those of added ones.
fn name_at<'f>(base: Base<'f>, sort: Sort, added: &[&'f str], place: usize) -> &'f str
    ensures { result.now ≡ text_at (names_below base.entry sort ++ text_list added.now) place }
{
    let count = count_below(base, sort);
    if place < count {
        name_below(base, sort, place)
    } else {
        text_at(added, place - count)
    }
}

fn is_before(base: Base<'_>, sort: Sort, added: &[&str], first: usize, second: usize) -> bool
    ensures { result ≡ text_before (text_at (names_below base.entry sort ++ text_list added.now)) first second }
{
    let name = name_at(base, sort, added, first);
    name.cmp(name_at(base, sort, added, second)).is_lt()
}

/// Places, so many further on.
fn later_places(alloc: Global, count: usize, places: &[usize]) -> Result<Vec<usize>, AllocError>
    ensures { IfOk result (λ v. v.items ≡ map (λ i. count + i) places.now) }
{
    let mut later = Vec::with_capacity(alloc, places.len())?;
    for place in places {
        later.push(count.checked_add(*place).ok_or(AllocError)?)?;
    }
    Ok(later)
}

/// The places of all of a sort in the order of their names, of those in a pool and of added ones of these names. Those of the pool
/// are shared where none of the sort is added, and else copied.
///
/// # Errors
///
/// `AllocError` if out of memory.
pub fn merged_by_name(
    alloc: Global,
    base: Base<'_>,
    sort: Sort,
    added: &[&str],
) -> Result<SharedSlice<usize>, AllocError>
    ensures { IfOk result
        (λ places. places
        ≡ grown_order (names_below base.entry sort) (text_list added.now) (order_below base.entry sort)) }
{
    let old = order_below(base, sort);
    if added.is_empty() {
        return Ok(old.clone()?);
    }
    let places = ordered_texts(alloc, added)?;
    let later = later_places(alloc, count_below(base, sort), places.as_slice())?;
    let before = |first: &usize, second: &usize| is_before(base, sort, added, *first, *second);
    let mut all = merged(alloc, old.as_slice(), later.as_slice(), &before)?;
    all.shrink_to_fit();
    Ok(SharedSlice::from_vec(alloc, all)?)
}
