//! Maps from numbers.

ghost use Rattle.std.specs.Prelude.{◌≡◌, ℕ, List, Option, None, OnOk, OnErr, IfSome, option_map};
ghost use Rattle.std.specs.Borrow.{LendsSo, sem};
ghost use Rattle.std.specs.Option.{option_copied, option_copied_mut};
ghost use Rattle.prost_reflect_maps.specs.Items.{IsAscending, item_at, with_item, put_item, without_item, first_from, first_above, last_below, item_copied};

use std::alloc::AllocError;
use std::collections::BTreeMap;
use std::ops::Bound;

/// A map from numbers. Beside its items it may keep notes, which say whatever its user writes there.
pub trait NumberMap<T> {
    ghost entries: { Self → List (ℕ × T) };

    ghost noted: { Self → Option (List (ℕ × ℕ)) };

    /// The numbers ascend. A call does nothing, but its caller may then count on it.
    fn ascends(&self)
        ensures { IsAscending (entries self.now) };

    /// All items, where they stand in one list.
    fn listed(&self) -> Option<&[(u32, T)]>
        ensures { IfSome result (λ items. items.now ≡ entries self.now) };

    /// The item at the number.
    fn get(&self, number: u32) -> Option<&T>
        ensures { option_copied result ≡ item_at (entries self.now) number };

    /// The first item whose number is at least the given one.
    fn first_from(&self, number: u32) -> Option<(u32, &T)>
        ensures { item_copied result ≡ first_from (entries self.now) number };

    /// The first item whose number is above the given one.
    fn first_above(&self, number: u32) -> Option<(u32, &T)>
        ensures { item_copied result ≡ first_above (entries self.now) number };

    /// The last item whose number is below the given one.
    fn last_below(&self, number: u32) -> Option<(u32, &T)>
        ensures { item_copied result ≡ last_below (entries self.now) number };

    /// The item at the number, for writing.
    fn get_mut(&mut self, number: u32) -> Option<&mut T>
        ensures* writes_back { sem 𝓛
            (LendsSo Self.row T.row self.entry result
            (λ after w. (entries after ≡ with_item (entries self.old) number w) × (noted after ≡ noted self.old))
            (λ after. (entries after ≡ entries self.old) × (noted after ≡ noted self.old))) }
        ensures value { option_copied_mut result ≡ item_at (entries self.old) number };

    /// Puts the item at the number, in place of one that is there. If out of memory, nothing changes.
    fn insert(&mut self, number: u32, item: T) -> Result<(), AllocError>
        ensures ok { OnOk result (entries self.new ≡ put_item (entries self.old) number item) }
        ensures err { OnErr result (entries self.new ≡ entries self.old) }
        ensures notes { noted self.new ≡ noted self.old };

    /// Takes the item at the number.
    fn remove(&mut self, number: u32) -> Option<T>
        ensures removed { result ≡ item_at (entries self.old) number }
        ensures entries { entries self.new ≡ without_item (entries self.old) number }
        ensures notes { noted self.new ≡ noted self.old };

    /// Takes the notes, if there are any.
    fn take_notes(&mut self) -> Option<BTreeMap<usize, u32>>
        ensures notes { option_map (λ m. m.entries) result ≡ noted self.old }
        ensures left { noted self.new ≡ None }
        ensures entries { entries self.new ≡ entries self.old };

    /// Keeps these notes, in place of others. A map need not keep them.
    fn put_notes(&mut self, notes: BTreeMap<usize, u32>)
        ensures entries { entries self.new ≡ entries self.old }
        ensures notes { IfSome (noted self.new) (λ kept. kept ≡ notes.entries) };
}

/// The numbers of a map ascend. A call does nothing, but its caller may then count on it.
pub fn ascending<T, S: NumberMap<T>>(map: &S)
    ensures { IsAscending (S.entries map.now) }
{
    map.ascends();
}

impl<T: Drop> NumberMap<T> for BTreeMap<u32, T> {
    ghost entries = { λ m. m.entries };

    ghost noted = { λ _. None };

    fn ascends(&self) {
        let _ = self.len();
    }

    fn listed(&self) -> Option<&[(u32, T)]> {
        None
    }

    fn get(&self, number: u32) -> Option<&T> {
        self.get(&number)
    }

    fn first_from(&self, number: u32) -> Option<(u32, &T)> {
        match self.range(number..).next() {
            Some((number, item)) => Some((*number, item)),
            None => None,
        }
    }

    fn first_above(&self, number: u32) -> Option<(u32, &T)> {
        let above = (Bound::Excluded(number), Bound::Unbounded);
        match self.range(above).next() {
            Some((number, item)) => Some((*number, item)),
            None => None,
        }
    }

    fn last_below(&self, number: u32) -> Option<(u32, &T)> {
        match self.range(..number).next_back() {
            Some((number, item)) => Some((*number, item)),
            None => None,
        }
    }

    fn get_mut(&mut self, number: u32) -> Option<&mut T> {
        self.get_mut(&number)
    }

    fn insert(&mut self, number: u32, item: T) -> Result<(), AllocError> {
        self.insert(number, item)?;
        Ok(())
    }

    fn remove(&mut self, number: u32) -> Option<T> {
        self.remove(&number)
    }

    fn take_notes(&mut self) -> Option<BTreeMap<usize, u32>> {
        None
    }

    fn put_notes(&mut self, notes: BTreeMap<usize, u32>) {
        drop(notes);
    }
}
