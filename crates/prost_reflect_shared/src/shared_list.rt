//! A list whose clones share what stands in it.

ghost use Rattle.std.specs.Prelude.{◌≡◌, ◌<◌, ◌^◌, ◌∷◌, ◌++◌, ◌↔◌, [], length, IsTrue, IfOk, OnOk, OnErr, Some, slice_get, slice_set};
ghost use Rattle.std.specs.Option.{option_copied};
ghost use Rattle.prost_reflect_shared.specs.Items.{items_of, items_left, GivesInOrder};

use crate::pointers::{CHUNK, chunk_of, chunk_with, chunk_with_last, copied, taken};
use crate::shared_items::SharedItems;
use std::alloc::{AllocError, Global};
use std::marker::Model;
use std::ops::Index;
use std::rc::Rc;

/// Below how many chunks a list stays, so that the number of its items is a `usize`.
const CHUNKS: usize = 1 << 58;

/// A list whose clones share what stands in it: a clone costs a count for each 64 items, and for each of the last few.
///
/// Contracts see the list of its items, in their order.
#[derive(Drop)]
pub struct SharedList<T> {
    /// The items but for the last few, 64 in each.
    chunks: Vec<Rc<[Rc<T>; CHUNK]>>,
    /// The last few items, fewer than 64.
    rest: Vec<Rc<T>>,
}

impl<T> Model for SharedList<T> {
    ghost use Rattle.std.specs.Prelude.{List};
    ghost use Rattle.prost_reflect_shared.specs.Chunks.{items_in, AreChunks};

    ghost Value = { List T };

    ghost view = { λ a. items_in a.chunks.items a.rest.items };

    ghost invariant = { λ a. AreChunks a.chunks.items a.rest.items };
}

impl<T> SharedList<T> {
    /// No items.
    pub fn new(alloc: Global) -> SharedList<T>
        ensures { items_of result ≡ [] }
    {
        SharedList {
            chunks: Vec::new(alloc),
            rest: Vec::new(alloc),
        }
    }

    /// How many items there are.
    #[inline]
    pub fn len(&self) -> usize
        ensures { result ≡ length (items_of self.now) }
    {
        CHUNK * self.chunks.len() + self.rest.len()
    }

    /// Whether there are no items.
    pub fn is_empty(&self) -> bool
        ensures { IsTrue result ↔ (items_of self.now ≡ []) }
    {
        self.len() == 0
    }

    /// The item at the place, if there is one.
    #[inline]
    pub fn get(&self, place: usize) -> Option<&T>
        ensures { option_copied result ≡ slice_get (items_of self.now) place }
    {
        if place < self.len() {
            Some(self.at(place))
        } else {
            None
        }
    }

    /// The item at the place, behind two pointers: that of its chunk and its own.
    #[inline]
    pub(crate) fn at(&self, place: usize) -> &T
        requires { place < length (items_of self.now) }
        ensures { slice_get (items_of self.now) place ≡ Some result.now }
    {
        let chunk = place / CHUNK;
        if chunk < self.chunks.len() {
            &self.chunks[chunk][place % CHUNK]
        } else {
            &self.rest[place % CHUNK]
        }
    }

    /// The items, the first one first.
    pub fn iter(&self) -> SharedItems<'_, T>
        ensures items { items_left result ≡ items_of self.now }
        ensures bound { length (items_left result) < 2 ^ 64 }
        ensures runs { GivesInOrder T }
    {
        SharedItems::new(self)
    }
}

impl<T: Drop> SharedList<T> {
    /// These items. Room is made once for the list of chunks, and once for each chunk.
    ///
    /// # Errors
    ///
    /// `AllocError` if out of memory.
    pub fn from_vec(alloc: Global, items: Vec<T>) -> Result<SharedList<T>, AllocError>
        ensures { IfOk result (λ list. items_of list ≡ items.items) }
    {
        let count = items.len();
        let mut items = items.into_iter();
        let mut chunks = Vec::with_capacity(alloc, count / CHUNK)?;
        for _ in 0..count / CHUNK {
            chunks.push(chunk_of(alloc, taken(alloc, &mut items, CHUNK)?)?)?;
        }
        let rest = taken(alloc, &mut items, count % CHUNK)?;
        Ok(SharedList { chunks, rest })
    }

    /// Puts the item behind all others. The time is constant on average.
    ///
    /// # Errors
    ///
    /// `AllocError` if out of memory; then nothing changes.
    pub fn push(&mut self, item: T) -> Result<(), AllocError>
        ensures ok { OnOk result (items_of self.new ≡ items_of self.old ++ item ∷ []) }
        ensures err { OnErr result (items_of self.new ≡ items_of self.old) }
    {
        let alloc = *self.rest.allocator();
        let item = Rc::new(alloc, item)?;
        if self.rest.len() + 1 < CHUNK {
            self.rest.push(item)?;
            return Ok(());
        }
        if CHUNKS <= self.chunks.len() + 1 {
            return Err(AllocError);
        }
        let chunk = chunk_with_last(alloc, &self.rest, item)?;
        self.chunks.push(chunk)?;
        self.rest.clear();
        Ok(())
    }

    /// Puts the items behind all others. Where there are none, room is made as in `from_vec`.
    ///
    /// # Errors
    ///
    /// `AllocError` if out of memory; then the first few of them may have been put there.
    pub fn append(&mut self, items: Vec<T>) -> Result<(), AllocError>
        ensures { OnOk result (items_of self.new ≡ items_of self.old ++ items.items) }
    {
        if self.is_empty() {
            *self = SharedList::from_vec(*self.rest.allocator(), items)?;
            return Ok(());
        }
        for item in items {
            self.push(item)?;
        }
        Ok(())
    }

    /// Puts the item at the place, for the one that is there. Clones keep that one: the pointers of its chunk are copied, and all
    /// else stays shared.
    ///
    /// # Errors
    ///
    /// `AllocError` if out of memory; then nothing changes.
    pub fn set(&mut self, place: usize, item: T) -> Result<(), AllocError>
        requires { place < length (items_of self.old) }
        ensures ok { OnOk result (items_of self.new ≡ slice_set (items_of self.old) place item) }
        ensures err { OnErr result (items_of self.new ≡ items_of self.old) }
    {
        let alloc = *self.rest.allocator();
        let item = Rc::new(alloc, item)?;
        let chunk = place / CHUNK;
        if chunk < self.chunks.len() {
            let old = self.chunks[chunk].as_slice();
            self.chunks[chunk] = chunk_with(alloc, old, place % CHUNK, item)?;
        } else {
            self.rest[place % CHUNK] = item;
        }
        Ok(())
    }
}

impl<T> Index<usize> for SharedList<T> {
    type Output = T;

    ghost use Rattle.std.specs.Prelude.{◌≡◌, ◌<◌, length, get_or};
    ghost use Rattle.prost_reflect_shared.specs.Items.{items_of};

    ghost can_index = { λ list place. place < length (items_of list) };

    ghost index_gives = { λ list place item. item ≡ get_or (items_of list) place item };

    /// The item at the place.
    #[inline]
    fn index(&self, place: usize) -> &T {
        self.at(place)
    }
}

impl<T: Drop> Clone for SharedList<T> {
    ghost use Rattle.std.specs.Prelude.{◌≡◌};
    ghost use Rattle.prost_reflect_shared.specs.Items.{items_of};

    ghost is_clone = { λ list copy. items_of copy ≡ items_of list };

    /// The same items: a count for each chunk, and for each of the last few items.
    ///
    /// # Errors
    ///
    /// `AllocError` if out of memory.
    fn clone(&self) -> Result<SharedList<T>, AllocError> {
        let alloc = *self.rest.allocator();
        Ok(SharedList {
            chunks: copied(alloc, &self.chunks, self.chunks.len())?,
            rest: copied(alloc, &self.rest, self.rest.len())?,
        })
    }
}
