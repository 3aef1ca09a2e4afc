//! Lists of pointers to items, and chunks of them.

ghost use Rattle.std.specs.Prelude.{◌≡◌, ◌+◌, ◌<◌, ◌≤◌, ◌∷◌, ◌++◌, [], length, vec_len, slice_set, IfOk, OnOk};
ghost use Rattle.std.specs.Vec.Iter.{into_iter_items, into_iter_len};
ghost use Rattle.prost_reflect_shared.specs.Chunks.{values};

use std::alloc::{AllocError, Global};
use std::rc::Rc;
use std::vec::IntoIter;

/// How many items stand in a chunk.
pub(crate) const CHUNK: usize = 64;

/// Pointers to the same values, with room for so many.
pub(crate) fn copied<X: Drop>(
    alloc: Global,
    pointers: &[Rc<X>],
    room: usize,
) -> Result<Vec<Rc<X>>, AllocError>
    ensures { IfOk result (λ copies. values copies.items ≡ values pointers.now) }
{
    let mut copies = Vec::with_capacity(alloc, room)?;
    for pointer in pointers {
        copies.push(pointer.clone()?)?;
    }
    Ok(copies)
}

/// Pointers to the next so many items.
pub(crate) fn taken<T: Drop>(
    alloc: Global,
    items: &mut IntoIter<T, Global>,
    count: usize,
) -> Result<Vec<Rc<T>>, AllocError>
    requires { count ≤ into_iter_len items.old }
    ensures taken { IfOk result (λ pointers. values pointers.items ++ into_iter_items items.new ≡ into_iter_items items.old) }
    ensures count { IfOk result (λ pointers. length pointers.items ≡ count) }
    ensures left { OnOk result (into_iter_len items.new + count ≡ into_iter_len items.old) }
{
    let mut pointers = Vec::with_capacity(alloc, count)?;
    for _ in 0..count {
        if let Some(item) = items.next() {
            pointers.push(Rc::new(alloc, item)?)?;
        }
    }
    Ok(pointers)
}

/// A chunk of these 64 pointers. It stands apart, so that its callers have no room for them in their frames.
#[inline(never)]
pub(crate) fn chunk_of<T: Drop>(
    alloc: Global,
    pointers: Vec<Rc<T>>,
) -> Result<Rc<[Rc<T>; CHUNK]>, AllocError>
    requires { vec_len pointers ≡ CHUNK }
    ensures { IfOk result (λ chunk. chunk.value ≡ pointers.items) }
{
    match <[Rc<T>; CHUNK]>::try_from(pointers) {
        Ok(chunk) => Ok(Rc::new(alloc, chunk)?),
        Err(_) => unreachable!(),
    }
}

/// A chunk of what these pointers point to, and of the item behind them.
pub(crate) fn chunk_with_last<T: Drop>(
    alloc: Global,
    pointers: &[Rc<T>],
    last: Rc<T>,
) -> Result<Rc<[Rc<T>; CHUNK]>, AllocError>
    requires { length pointers.now + 1 ≡ CHUNK }
    ensures { IfOk result (λ chunk. values chunk.value ≡ values pointers.now ++ last.value ∷ []) }
{
    let mut copies = copied(alloc, pointers, CHUNK)?;
    copies.push(last)?;
    chunk_of(alloc, copies)
}

/// A chunk of what these pointers point to, but for the item at the place.
pub(crate) fn chunk_with<T: Drop>(
    alloc: Global,
    pointers: &[Rc<T>],
    place: usize,
    item: Rc<T>,
) -> Result<Rc<[Rc<T>; CHUNK]>, AllocError>
    requires count { length pointers.now ≡ CHUNK }
    requires place { place < CHUNK }
    ensures { IfOk result (λ chunk. values chunk.value ≡ slice_set (values pointers.now) place item.value) }
{
    let mut copies = copied(alloc, pointers, CHUNK)?;
    copies[place] = item;
    chunk_of(alloc, copies)
}
