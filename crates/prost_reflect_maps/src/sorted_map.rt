//! A map from numbers.

ghost use Rattle.std.specs.Prelude.{◌≡◌, ◌+◌, ◌≤◌, ◌++◌, ◌^◌, ◌∷◌, ℕ, List, [], length, OnOk, OnErr, IfOk, IfSome, IfNone, None, option_map, vec_len, vec_capacity};
ghost use Rattle.std.specs.Borrow.{LendsIf, sem};
ghost use Rattle.std.specs.Option.{option_copied, option_copied_mut};
ghost use Rattle.prost_reflect_maps.specs.contracts.sorted_map.SortedMap.{the_row};
ghost use Rattle.prost_reflect_maps.specs.Items.{IsAscending, item_at, with_item, put_item, without_item};

mod walks;
mod weaving;

use crate::boxed::Boxed;
use crate::items::{ItemList, join};
use crate::number_map::NumberMap;
use crate::runs::{FULL, RunMap};
use std::alloc::{AllocError, Global};
use std::collections::BTreeMap;
use std::marker::Model;
use std::mem;
pub use walks::{Items, ItemsBack};

/// How many items a map has room for at first, unless it is told.
const FIRST_ROOM: usize = 4;

/// A map from numbers. Few items stand in one list, and many in runs, so that an item moves few others, whatever the order in
/// which the numbers come.
///
/// Beside runs it may keep notes, which say whatever its user writes there.
#[derive(Debug, Drop)]
pub struct SortedMap<T> {
    held: Held<T>,
}

/// Where a map keeps its items. They are on the heap, so that the map itself is small.
#[derive(Debug, Drop)]
pub enum Held<T> {
    /// There are none. The first list has room for so many.
    Empty(Global, usize),
    /// In one list.
    Listed(Boxed<ItemList<T>>),
    /// In runs.
    Laid(Boxed<RunMap<T>>),
}

impl<T> Model for SortedMap<T> {
    ghost use Rattle.std.specs.Prelude.{ℕ, List, Option};
    ghost use Rattle.prost_reflect_maps.specs.Held.{held_items};

    ghost Value = { List (ℕ × T) × Option (List (ℕ × ℕ)) };

    ghost view = { λ a. held_items a.held };
}

impl<T> SortedMap<T> {
    /// No items, and no notes.
    pub fn new(alloc: Global) -> SortedMap<T>
        ensures { result ≡ ([], None) }
    {
        SortedMap::with_room(alloc, FIRST_ROOM)
    }

    /// No items, and no notes. The first item that is put in makes room for so many.
    pub fn with_room(alloc: Global, room: usize) -> SortedMap<T>
        ensures { result ≡ ([], None) }
    {
        SortedMap {
            held: Held::Empty(alloc, room),
        }
    }

    /// These items, whose numbers ascend, in a list that is there already, and no notes.
    pub fn from_items(list: Boxed<ItemList<T>>, items: Vec<(u32, T)>) -> SortedMap<T>
    where
        T: Drop,
        requires { IsAscending items.items }
        ensures { result ≡ (items.items, None) }
    {
        let mut list = list;
        *list.get_mut() = ItemList::from_items(items);
        SortedMap {
            held: Held::Listed(list),
        }
    }

    /// Puts all items behind those that are there, for which there is room. The notes go.
    pub fn move_items(&mut self, items: &mut Vec<(u32, T)>)
    where
        T: Drop,
        requires room { vec_len items.old + length self.old.0 ≤ vec_capacity items.old }
        ensures items { items.new.items ≡ items.old.items ++ self.old.0 }
        ensures left { self.new ≡ ([], None) }
        ensures ascending { IsAscending self.old.0 }
    {
        self.ascends();
        let alloc = self.allocator();
        match mem::replace(&mut self.held, Held::Empty(alloc, FIRST_ROOM)) {
            Held::Empty(_, _) => {}
            Held::Listed(list) => join(list.into_inner().into_items(), items),
            Held::Laid(map) => map.into_inner().move_items(items),
        }
    }

    /// What the items are stored with.
    pub fn allocator(&self) -> Global {
        match &self.held {
            Held::Empty(alloc, _) => *alloc,
            Held::Listed(list) => list.get().allocator(),
            Held::Laid(map) => map.get().allocator(),
        }
    }

    /// How many numbers have an item, unless no `usize` is so large.
    pub fn count(&self) -> Option<usize>
        ensures count { IfSome result (λ count. count ≡ length self.now.0) }
        ensures none { IfNone result (2 ^ 64 ≤ length self.now.0) }
    {
        match &self.held {
            Held::Empty(_, _) => Some(0),
            Held::Listed(list) => Some(list.get().items().len()),
            Held::Laid(map) => map.get().count(),
        }
    }

    /// The numbers ascend. A call does nothing, but its caller may then count on it.
    pub fn ascends(&self)
        ensures { IsAscending self.now.0 }
    {
        match &self.held {
            Held::Empty(_, _) => {}
            Held::Listed(list) => drop(list.get().items()),
            Held::Laid(map) => map.get().ascends(),
        }
    }

    /// All items, where they stand in one list.
    pub fn listed(&self) -> Option<&[(u32, T)]>
        ensures { IfSome result (λ items. items.now ≡ self.now.0) }
    {
        match &self.held {
            Held::Empty(_, _) => Some(&[]),
            Held::Listed(list) => Some(list.get().items()),
            Held::Laid(_) => None,
        }
    }

    /// The item at the number.
    pub fn get(&self, number: u32) -> Option<&T>
        ensures { option_copied result ≡ item_at self.now.0 number }
    {
        match &self.held {
            Held::Empty(_, _) => None,
            Held::Listed(list) => list.get().get(number),
            Held::Laid(map) => map.get().get(number),
        }
    }

    /// The item at the number, for writing.
    pub fn get_mut(&mut self, number: u32) -> Option<&mut T>
        ensures* writes_back { sem 𝓛
            (LendsIf (the_row T.row) T.row self.entry result (λ w. (with_item self.old.0 number w, self.old.1))
            self.old) }
        ensures value { option_copied_mut result ≡ item_at self.old.0 number }
    {
        match &mut self.held {
            Held::Empty(_, _) => None,
            Held::Listed(list) => list.get_mut().get_mut(number),
            Held::Laid(map) => map.get_mut().get_mut(number),
        }
    }

    /// Whether the items stand in runs, beside which notes may be kept, and there are none.
    pub fn lacks_notes(&self) -> bool {
        match &self.held {
            Held::Empty(_, _) => false,
            Held::Listed(_) => false,
            Held::Laid(map) => !map.get().has_notes(),
        }
    }

    /// Takes the notes, if there are any.
    pub fn take_notes(&mut self) -> Option<BTreeMap<usize, u32>>
        ensures notes { option_map (λ m. m.entries) result ≡ self.old.1 }
        ensures left { self.new ≡ (self.old.0, None) }
    {
        match &mut self.held {
            Held::Empty(_, _) => None,
            Held::Listed(_) => None,
            Held::Laid(map) => map.get_mut().take_notes(),
        }
    }

    /// Keeps these notes, in place of others, where the items stand in runs; else they are dropped.
    pub fn put_notes(&mut self, notes: BTreeMap<usize, u32>)
        ensures items { self.new.0 ≡ self.old.0 }
        ensures notes { IfSome self.new.1 (λ kept. kept ≡ notes.entries) }
    {
        match &mut self.held {
            Held::Empty(_, _) => {}
            Held::Listed(_) => {}
            Held::Laid(map) => map.get_mut().put_notes(notes),
        }
    }
}

impl<T: Drop> SortedMap<T> {
    /// Removes all items, and the notes. Where the items stand in one list, it keeps its room, so that as many further ones take no
    /// memory for it.
    pub fn clear(&mut self)
        ensures { self.new ≡ ([], None) }
    {
        let alloc = self.allocator();
        match &mut self.held {
            Held::Empty(_, _) => {}
            Held::Listed(list) => list.get_mut().clear(),
            Held::Laid(_) => self.held = Held::Empty(alloc, FIRST_ROOM),
        }
    }

    /// Puts the item at the number, in place of one that is there.
    ///
    /// # Errors
    ///
    /// `AllocError` if out of memory; then nothing changes.
    pub fn insert(&mut self, number: u32, item: T) -> Result<(), AllocError>
        ensures ok { OnOk result (self.new ≡ (put_item self.old.0 number item, self.old.1)) }
        ensures err { OnErr result (self.new ≡ self.old) }
    {
        self.lay()?;
        if let Held::Empty(alloc, room) = &self.held {
            let list = list_of(*alloc, *room, number, item)?;
            self.held = Held::Listed(list);
            return Ok(());
        }
        match &mut self.held {
            Held::Empty(_, _) => unreachable!(),
            Held::Listed(list) => list.get_mut().insert(number, item),
            Held::Laid(map) => map.get_mut().insert(number, item),
        }
    }

    /// Lays the items in runs, if a list has as many as a run may have. If out of memory, nothing changes.
    pub fn lay(&mut self) -> Result<(), AllocError>
        ensures { self.new ≡ self.old }
    {
        match &self.held {
            Held::Listed(list) if FULL <= list.get().items().len() => {}
            _ => return Ok(()),
        }
        let alloc = self.allocator();
        let runs = Vec::with_capacity(alloc, 1)?;
        let mut map = Boxed::new(alloc, RunMap::new(alloc))?;
        match mem::replace(&mut self.held, Held::Empty(alloc, FIRST_ROOM)) {
            Held::Listed(list) => {
                *map.get_mut() = RunMap::from_items(runs, list.into_inner().into_items());
                self.held = Held::Laid(map);
            }
            whole => self.held = whole,
        }
        Ok(())
    }

    /// Takes the item at the number.
    pub fn remove(&mut self, number: u32) -> Option<T>
        ensures removed { result ≡ item_at self.old.0 number }
        ensures entries { self.new ≡ (without_item self.old.0 number, self.old.1) }
    {
        match &mut self.held {
            Held::Empty(_, _) => None,
            Held::Listed(list) => list.get_mut().remove(number),
            Held::Laid(map) => map.get_mut().remove(number),
        }
    }
}

/// A list of one item, with room for so many.
fn list_of<T: Drop>(
    alloc: Global,
    room: usize,
    number: u32,
    item: T,
) -> Result<Boxed<ItemList<T>>, AllocError>
    ensures { IfOk result (λ list. list ≡ (number, item) ∷ []) }
{
    let mut list = ItemList::from_items(Vec::with_capacity(alloc, room)?);
    list.insert(number, item)?;
    Boxed::new(alloc, list)
}

impl<T: Drop> NumberMap<T> for SortedMap<T> {
    ghost entries = { λ m. m.0 };

    ghost noted = { λ m. m.1 };

    fn ascends(&self) {
        self.ascends();
    }

    fn listed(&self) -> Option<&[(u32, T)]> {
        self.listed()
    }

    #[inline]
    fn get(&self, number: u32) -> Option<&T> {
        self.get(number)
    }

    fn first_from(&self, number: u32) -> Option<(u32, &T)> {
        let (_, mut items) = self.walks_at(number);
        match items.next() {
            Some((number, item)) => Some((*number, item)),
            None => None,
        }
    }

    fn first_above(&self, number: u32) -> Option<(u32, &T)> {
        self.ascends();
        let (_, mut items) = self.walks_at(number);
        match items.next() {
            Some((first, item)) if *first != number => Some((*first, item)),
            Some(_) => match items.next() {
                Some((next, item)) => Some((*next, item)),
                None => None,
            },
            None => None,
        }
    }

    fn last_below(&self, number: u32) -> Option<(u32, &T)> {
        let (mut items, _) = self.walks_at(number);
        match items.next() {
            Some((number, item)) => Some((*number, item)),
            None => None,
        }
    }

    #[inline]
    fn get_mut(&mut self, number: u32) -> Option<&mut T> {
        self.get_mut(number)
    }

    #[inline]
    fn insert(&mut self, number: u32, item: T) -> Result<(), AllocError> {
        self.insert(number, item)
    }

    fn remove(&mut self, number: u32) -> Option<T> {
        self.remove(number)
    }

    fn take_notes(&mut self) -> Option<BTreeMap<usize, u32>> {
        self.take_notes()
    }

    fn put_notes(&mut self, notes: BTreeMap<usize, u32>) {
        self.put_notes(notes);
    }
}
