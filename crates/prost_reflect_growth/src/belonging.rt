//! Lists of what belongs to places, and places among the first ones.

ghost use Rattle.std.specs.Prelude.{◌≡◌, IfOk, OnOk, map};
ghost use Rattle.prost_reflect_growth.specs.FirstPlaces.{is_below};
ghost use Rattle.prost_reflect_tables.specs.Indexing.{empty_lists, with_item};

use std::alloc::{AllocError, Global};

/// So many empty lists.
///
/// # Errors
///
/// `AllocError` if out of memory.
pub fn empty_lists<T: Drop>(alloc: Global, count: usize) -> Result<Vec<Vec<T>>, AllocError>
    ensures { IfOk result (λ v. map (λ xs. xs.items) v.items ≡ empty_lists count) }
{
    let mut lists = Vec::with_capacity(alloc, count)?;
    for _ in 0..count {
        lists.push(Vec::new(alloc))?;
    }
    Ok(lists)
}

/// Adds an item to the list of a place, if there is one.
///
/// # Errors
///
/// `AllocError` if out of memory.
pub fn add_item<T: Drop>(
    lists: &mut Vec<Vec<T>>,
    place: Option<usize>,
    item: T,
) -> Result<(), AllocError>
    ensures { OnOk result (map (λ xs. xs.items) lists.new.items ≡ with_item place item 0 (map (λ xs. xs.items) lists.old.items)) }
{
    if let Some(place) = place {
        if place < lists.len() {
            lists[place].push(item)?;
        }
    }
    Ok(())
}

/// Whether a place is one of so many first ones. Where there is no place, it is none of them.
pub fn is_below(place: Option<usize>, count: usize) -> bool
    ensures { result ≡ is_below count place }
{
    match place {
        Some(place) => place < count,
        None => false,
    }
}
