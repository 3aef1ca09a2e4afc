//! Putting what another map has at the numbers of a set in place of what a map has there.

ghost use Rattle.std.specs.Prelude.{◌≡◌, ◌+◌, ◌≤◌, ◌++◌, [], length, OnOk, OnErr, IfNone, None, true, vec_len, vec_capacity};
ghost use Rattle.std.specs.Option.{option_to_list};
ghost use Rattle.std.specs.Vec.Iter.{into_iter_items, into_iter_len};
ghost use Rattle.prost_reflect_maps.specs.Items.{IsAscending, item_at, without_item};
ghost use Rattle.prost_reflect_maps.specs.NumberSets.{has, is_up_to, chosen_up_to, left_beyond, AreReplaced, HavePlaces, has_place, taken_over};

use crate::boxed::Boxed;
use crate::items::{ItemList, push_last};
use crate::sorted_map::SortedMap;
use std::alloc::{AllocError, Global};
use std::collections::BTreeSet;
use std::vec::IntoIter;

impl<T: Drop> SortedMap<T> {
    /// Puts what the other map has at the numbers of the set in place of what is there. The notes go. If out of memory, nothing changes.
    ///
    /// Where each item that is put in has one to take the place of, only these are looked for, and no memory is asked for; else all
    /// items are moved.
    pub fn replace(
        &mut self,
        numbers: &BTreeSet<u32>,
        others: SortedMap<T>,
    ) -> Result<(), AllocError>
        ensures ok { OnOk result (AreReplaced numbers.now self.old.0 others.0 self.new.0) }
        ensures notes { OnOk result (self.new.1 ≡ None) }
        ensures err { OnErr result (self.new ≡ self.old) }
    {
        if !self.has_places(numbers, &others) {
            return self.weave_in(numbers, others);
        }
        self.take_all_over(numbers, others);
        Ok(())
    }

    /// Whether each item of the other map at a number of the set has one here to take the place of.
    fn has_places(&self, numbers: &BTreeSet<u32>, others: &SortedMap<T>) -> bool
        ensures { result ≡ true → HavePlaces numbers.now.keys self.now.0 others.now.0 }
    {
        for number in numbers {
            if others.get(*number).is_some() && self.get(*number).is_none() {
                return false;
            }
        }
        true
    }

    /// Takes over what the other map has at each number of the set. The notes go.
    fn take_all_over(&mut self, numbers: &BTreeSet<u32>, others: SortedMap<T>)
        requires { HavePlaces numbers.now.keys self.old.0 others.0 }
        ensures items { AreReplaced numbers.now self.old.0 others.0 self.new.0 }
        ensures notes { self.new.1 ≡ None }
    {
        let mut others = others;
        self.ascends();
        others.ascends();
        drop(self.take_notes());
        for number in numbers {
            self.take_over(*number, &mut others);
        }
    }

    /// Takes over what the other map has at the number; where it has nothing, what is here goes.
    fn take_over(&mut self, number: u32, others: &mut SortedMap<T>)
        requires { has_place (item_at others.old.0 number) (item_at self.old.0 number) ≡ true }
        ensures items { self.new.0 ≡ taken_over (item_at others.old.0 number) self.old.0 number }
        ensures others { others.new.0 ≡ without_item others.old.0 number }
        ensures notes { self.new.1 ≡ self.old.1 }
    {
        match others.remove(number) {
            Some(item) => match self.get_mut(number) {
                Some(place) => *place = item,
                None => unreachable!(),
            },
            None => drop(self.remove(number)),
        }
    }

    /// Puts what the other map has at the numbers in place of what is there, in one walk over both.
    fn weave_in(&mut self, numbers: &BTreeSet<u32>, others: SortedMap<T>) -> Result<(), AllocError>
        ensures ok { OnOk result (AreReplaced numbers.now self.old.0 others.0 self.new.0) }
        ensures notes { OnOk result (self.new.1 ≡ None) }
        ensures err { OnErr result (self.new ≡ self.old) }
    {
        let mut others = others;
        let Some(old_count) = self.count() else {
            return Err(AllocError);
        };
        let Some(new_count) = others.count() else {
            return Err(AllocError);
        };
        let Some(count) = old_count.checked_add(new_count) else {
            return Err(AllocError);
        };
        let alloc = self.allocator();
        let mut olds = Vec::with_capacity(alloc, old_count)?;
        let mut news = Vec::with_capacity(alloc, new_count)?;
        let mut items = Vec::with_capacity(alloc, count)?;
        let list = Boxed::new(alloc, ItemList::new(alloc))?;
        self.move_items(&mut olds);
        others.move_items(&mut news);
        weave(&mut items, olds, news, numbers);
        *self = SortedMap::from_items(list, items);
        Ok(())
    }
}

/// Puts behind `items`, which are none yet, the others whose numbers are in the set and the old ones whose numbers are not, in
/// one walk over both in ascending order. There is room for all.
fn weave<T: Drop>(
    items: &mut Vec<(u32, T)>,
    olds: Vec<(u32, T)>,
    others: Vec<(u32, T)>,
    numbers: &BTreeSet<u32>,
)
    requires empty { items.old.items ≡ [] }
    requires room { vec_len olds + vec_len others ≤ vec_capacity items.old }
    requires olds { IsAscending olds.items }
    requires others { IsAscending others.items }
    ensures { AreReplaced numbers.now olds.items others.items items.new.items }
{
    let mut others = others.into_iter();
    let mut next = others.next();
    for (number, item) in olds {
        if !numbers.contains(&number) {
            next = push_up_to(items, next, &mut others, Some(number), numbers);
            push_last(items, (number, item));
        }
    }
    drop(push_up_to(items, next, &mut others, None, numbers));
}

/// Puts the others up to the bound, or all where there is none, behind `items`: those whose numbers are in the set. Answers the
/// first that is beyond the bound. There is room for all.
fn push_up_to<T: Drop>(
    items: &mut Vec<(u32, T)>,
    next: Option<(u32, T)>,
    others: &mut IntoIter<(u32, T), Global>,
    bound: Option<u32>,
    numbers: &BTreeSet<u32>,
) -> Option<(u32, T)>
    requires room { vec_len items.old + (length (option_to_list next) + into_iter_len others.old) ≤ vec_capacity items.old }
    requires ended { IfNone next (into_iter_items others.old ≡ []) }
    ensures items { items.new.items
        ≡ items.old.items ++ chosen_up_to (has numbers.now) bound (option_to_list next ++ into_iter_items others.old) }
    ensures left { option_to_list result ++ into_iter_items others.new
        ≡ left_beyond bound (option_to_list next ++ into_iter_items others.old) }
    ensures ended { IfNone result (into_iter_items others.new ≡ []) }
    ensures room { vec_len items.new + (length (option_to_list result) + into_iter_len others.new)
        ≤ vec_len items.old + (length (option_to_list next) + into_iter_len others.old) }
    ensures capacity { vec_capacity items.old ≤ vec_capacity items.new }
{
    let mut next = next;
    while let Some((number, item)) = next {
        if !is_up_to(number, bound) {
            return Some((number, item));
        }
        if numbers.contains(&number) {
            push_last(items, (number, item));
        }
        next = others.next();
    }
    None
}

/// Whether the number is not beyond the bound, if there is one.
fn is_up_to(number: u32, bound: Option<u32>) -> bool
    ensures { result ≡ is_up_to bound number }
{
    match bound {
        Some(bound) => number <= bound,
        None => true,
    }
}
