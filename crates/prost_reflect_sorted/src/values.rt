//! The values of all enums, of a pool and of added files, in the order of their full names.

ghost use Rattle.std.specs.Prelude.{◌≡◌, ◌-◌, ◌^◌, ◌++◌, IfOk, OnOk, length, map, min};
ghost use Rattle.prost_reflect_base.specs.Below.{rows_below, catalog_below};
ghost use Rattle.prost_reflect_growth.specs.Merging.{grown_values, later_value, ordered_values};
ghost use Rattle.prost_reflect_resolving.specs.Indexed.{all_rows};
ghost use Rattle.std.specs.Cmp.Lexicographic.{slice_cmp};
ghost use Rattle.std.specs.List.{sum_by};
ghost use Rattle.std.specs.Ordering.{nat_cmp};
ghost use Rattle.prost_reflect_tables.specs.Faults.{names_of};
ghost use Rattle.prost_reflect_flat.specs.FlatViews.{definition_row, enum_row, flat_rows};
ghost use Rattle.prost_reflect_tables.specs.Gathered.{pairs_at, all_pairs};
ghost use Rattle.prost_reflect_tables.specs.LinkedCatalog.{value_places, value_full_name};
ghost use Rattle.prost_reflect_tables.specs.Orders.{sorted_by, text_at, text_in, text_before};

use prost_reflect_base::Base;
use prost_reflect_flat::{Definition, Flat, FlatEnum};
use prost_reflect_growth::merged;
use prost_reflect_shared::shared_slice::SharedSlice;
use prost_reflect_types::EnumValueDescriptorProto;
use std::alloc::{AllocError, Global};
use std::cmp::Ordering;

// PLACES

/// How many values the enums have, or as many as a `usize` can say.
fn value_count(enums: &[FlatEnum]) -> usize
    ensures { result ≡ min (sum_by (λ e. length e.values) (map enum_row enums.now)) (2 ^ 64 - 1) }
{
    let mut count = 0usize;
    for declared in enums {
        count = count.saturating_add(declared.values.len());
    }
    count
}

/// Adds the places of the items of the list at a place, each behind that place.
fn add_pairs<T>(pairs: &mut Vec<(usize, usize)>, list: usize, items: &[T]) -> Result<(), AllocError>
    ensures { OnOk result (pairs.new.items ≡ pairs.old.items ++ pairs_at list items.now) }
{
    for (place, _) in items.iter().enumerate() {
        pairs.push((list, place))?;
    }
    Ok(())
}

/// The values of enums, by enum and then by declaration: each as the place of its enum and its place there.
fn value_places(alloc: Global, enums: &[FlatEnum]) -> Result<Vec<(usize, usize)>, AllocError>
    ensures { IfOk result (λ v. v.items ≡ all_pairs (map (λ e. e.values) (map enum_row enums.now))) }
{
    let mut pairs = Vec::with_capacity(alloc, value_count(enums))?;
    for (list, declared) in enums.iter().enumerate() {
        add_pairs(&mut pairs, list, declared.values.as_slice())?;
    }
    Ok(pairs)
}

// FULL NAMES

fn full_name_at<'f, 'a>(
    values: &'f [Definition<'a, EnumValueDescriptorProto>],
    place: usize,
) -> &'f str
    ensures { result.now ≡ text_at (names_of (map definition_row values.now)) place }
{
    match values.get(place) {
        Some(value) => value.full_name.as_str(),
        None => "",
    }
}

fn full_name_in<'f, 'a>(enums: &'f [FlatEnum<'a>], pair: (usize, usize)) -> &'f str
    ensures { result.now ≡ text_in (map (λ e. names_of e.values) (map enum_row enums.now)) pair }
{
    match enums.get(pair.0) {
        Some(declared) => full_name_at(declared.values.as_slice(), pair.1),
        None => "",
    }
}

fn compare_full_names(enums: &[FlatEnum], first: (usize, usize), second: (usize, usize)) -> Ordering
    ensures { let names = map (λ e. names_of e.values) (map enum_row enums.now) in
        result ≡ slice_cmp nat_cmp (text_in names first) (text_in names second) }
{
    full_name_in(enums, first).cmp(full_name_in(enums, second))
}

/// Sorts values by their full names; values of equal full names stay in their order.
fn sort_by_full_name(enums: &[FlatEnum], pairs: &mut Vec<(usize, usize)>) -> Result<(), AllocError>
    ensures { let names = map (λ e. names_of e.values) (map enum_row enums.now) in
        OnOk result (pairs.new.items ≡ sorted_by (text_before (text_in names)) pairs.old.items) }
{
    pairs.sort_by(|first, second| compare_full_names(enums, *first, *second))?;
    Ok(())
}

/// The values of the added enums, by their full names: each as the place of its enum and its place there.
fn ordered_values(alloc: Global, flat: &Flat) -> Result<Vec<(usize, usize)>, AllocError>
    ensures { IfOk result (λ v. v.items ≡ ordered_values (flat_rows flat.now)) }
{
    let enums = flat.enums.as_slice();
    let mut pairs = value_places(alloc, enums)?;
    sort_by_full_name(enums, &mut pairs)?;
    Ok(pairs)
}

// WITH THOSE OF A POOL

/// The full name of a value of a pool, or, behind its enums, of an added one.
fn full_name_of<'f, 'a>(base: Base<'f>, flat: &'f Flat<'a>, pair: (usize, usize)) -> &'f str
    ensures { result.now ≡ value_full_name (all_rows base.entry (flat_rows flat.now)) pair }
{
    let count = base.enum_count();
    if pair.0 < count {
        base.value_name(pair)
    } else {
        full_name_in(flat.enums.as_slice(), (pair.0 - count, pair.1))
    }
}

fn is_before(base: Base<'_>, flat: &Flat, first: (usize, usize), second: (usize, usize)) -> bool
    ensures { result ≡ text_before (value_full_name (all_rows base.entry (flat_rows flat.now))) first second }
{
    let name = full_name_of(base, flat, first);
    name.cmp(full_name_of(base, flat, second)).is_lt()
}

/// Values, in enums so many further on.
fn later_values(
    alloc: Global,
    count: usize,
    pairs: &[(usize, usize)],
) -> Result<Vec<(usize, usize)>, AllocError>
    ensures { IfOk result (λ v. v.items ≡ map (later_value count) pairs.now) }
{
    let mut later = Vec::with_capacity(alloc, pairs.len())?;
    for pair in pairs {
        let list = count.checked_add(pair.0).ok_or(AllocError)?;
        later.push((list, pair.1))?;
    }
    Ok(later)
}

/// The values of all enums, of a pool and of added files, by their full names: each as the place of its enum and its place there.
/// Those of the pool are shared where no enum with values is added, and else copied.
///
/// # Errors
///
/// `AllocError` if out of memory.
pub fn merged_values(
    alloc: Global,
    base: Base<'_>,
    flat: &Flat,
) -> Result<SharedSlice<(usize, usize)>, AllocError>
    ensures { IfOk result
        (λ places. places
        ≡ grown_values (rows_below base.entry) (flat_rows flat.now) (catalog_below base.entry).by_name.values) }
{
    let old = &base.pool().catalog().by_name.values;
    let pairs = ordered_values(alloc, flat)?;
    if pairs.is_empty() {
        return Ok(old.clone()?);
    }
    let later = later_values(alloc, base.enum_count(), pairs.as_slice())?;
    let before = |first: &(usize, usize), second: &(usize, usize)| is_before(
        base, flat, *first, *second,
    );
    let mut all = merged(alloc, old.as_slice(), later.as_slice(), &before)?;
    all.shrink_to_fit();
    Ok(SharedSlice::from_vec(alloc, all)?)
}
