//! The places of items by what the items belong to.

ghost use Rattle.std.specs.Prelude.{◌≡◌, [], ℕ, Option, IfOk, OnOk, map, slice_get, unwrap_or};
ghost use Rattle.prost_reflect_growth.specs.GatheredFrom.{gathered_from};
ghost use Rattle.prost_reflect_tables.specs.Indexing.{with_item};
ghost use Rattle.prost_reflect_tables.specs.Walks.{Computes};

use crate::belonging::{add_item, empty_lists};
use std::alloc::{AllocError, Global};

/// Adds a place to the list of what it belongs to, if there is one. The first list is that of the place `first`.
fn add_place(
    lists: &mut Vec<Vec<usize>>,
    first: usize,
    owner: Option<usize>,
    place: usize,
) -> Result<(), AllocError>
    ensures { OnOk result (map (λ l. l.items) lists.new.items ≡ with_item owner place first (map (λ l. l.items) lists.old.items)) }
{
    if let Some(owner) = owner {
        if first <= owner {
            add_item(lists, Some(owner - first), place)?;
        }
    }
    Ok(())
}

/// For each of `count` places from `first` on, the places of the items that belong to it, where the first item is at the place
/// `start`.
///
/// # Errors
///
/// `AllocError` if out of memory, or if a place passes the greatest `usize`, as no memory holds so many items.
pub fn gathered<T, F: Fn(&T) -> Option<usize>>(
    alloc: Global,
    first: usize,
    count: usize,
    start: usize,
    items: &[T],
    owner: &F,
) -> Result<Vec<Vec<usize>>, AllocError>
    requires { F.IsAlwaysCallable owner.now }
    ensures { IfOk result
        (λ v. (o : T → Option ℕ) → Computes F.Fn owner.now o
        → map (λ l. l.items) v.items ≡ gathered_from o start items.now first count) }
{
    let mut lists = empty_lists(alloc, count)?;
    for (offset, item) in items.iter().enumerate() {
        let place = start.checked_add(offset).ok_or(AllocError)?;
        add_place(&mut lists, first, owner(item), place)?;
    }
    Ok(lists)
}

/// A copy of the list of a place.
///
/// # Errors
///
/// `AllocError` if out of memory.
pub fn list_at(alloc: Global, lists: &[Vec<usize>], place: usize) -> Result<Vec<usize>, AllocError>
    ensures { IfOk result (λ v. v.items ≡ unwrap_or (slice_get (map (λ l. l.items) lists.now) place) []) }
{
    match lists.get(place) {
        Some(list) => list.to_vec(alloc),
        None => Ok(Vec::new(alloc)),
    }
}
