//! Items in ascending order of their numbers.

ghost use Rattle.std.specs.Prelude.{◌≡◌, ◌+◌, ◌<◌, ◌≤◌, ◌++◌, ◌∷◌, [], length, OnOk, OnErr, vec_len, vec_capacity};
ghost use Rattle.std.specs.Borrow.{LendsIf, LendsSo, sem};
ghost use Rattle.std.specs.Option.{option_copied, option_copied_mut};
ghost use Rattle.std.specs.Ordering.{nat_cmp};
ghost use Rattle.std_collections.specs.Layout.BTreeMap.{seek};
ghost use Rattle.prost_reflect_maps.specs.Items.{IsAscending, item_at, with_item, put_item, without_item, items_below, items_from};
ghost use Rattle.prost_reflect_maps.specs.ItemLists.{list_row};
ghost use Rattle.prost_reflect_maps.specs.contracts.items.ItemList.{the_row};

use std::alloc::{AllocError, Global};
use std::cmp::Ordering;
use std::marker::Model;

/// Items in one list. Their numbers ascend.
#[derive(Debug, Drop)]
pub struct ItemList<T> {
    items: Vec<(u32, T)>,
}

impl<T> Model for ItemList<T> {
    ghost use Rattle.std.specs.Prelude.{ℕ, List};
    ghost use Rattle.prost_reflect_maps.specs.Items.{IsAscending};

    ghost Value = { List (ℕ × T) };

    ghost view = { λ a. a.items.items };

    ghost invariant = { λ a. IsAscending a.items.items };
}

impl<T> ItemList<T> {
    /// No items.
    pub fn new(alloc: Global) -> ItemList<T>
        ensures { result ≡ [] }
    {
        ItemList {
            items: Vec::new(alloc),
        }
    }

    /// These items, whose numbers ascend.
    pub(crate) fn from_items(items: Vec<(u32, T)>) -> ItemList<T>
        requires { IsAscending items.items }
        ensures { result ≡ items.items }
    {
        ItemList { items }
    }

    /// The items with their numbers, ascending.
    pub fn into_items(self) -> Vec<(u32, T)>
        ensures items { result.items ≡ self }
        ensures ascending { IsAscending self }
    {
        let ItemList { items } = self;
        items
    }

    /// The items with their numbers, ascending.
    pub(crate) fn items(&self) -> &[(u32, T)]
        ensures items { result.now ≡ self.now }
        ensures ascending { IsAscending self.now }
    {
        &self.items
    }

    /// Removes all items. The list keeps its room.
    pub(crate) fn clear(&mut self)
    where
        T: Drop,
        ensures { self.new ≡ [] }
    {
        self.items.clear();
    }

    /// What the items are stored with.
    pub(crate) fn allocator(&self) -> Global {
        *self.items.allocator()
    }

    /// The item at the number.
    pub(crate) fn get(&self, number: u32) -> Option<&T>
        ensures { option_copied result ≡ item_at self.now number }
    {
        get_at(&self.items, number)
    }

    /// The item at the number, for writing.
    pub(crate) fn get_mut(&mut self, number: u32) -> Option<&mut T>
        ensures* writes_back { sem 𝓛 (LendsIf (the_row T.row) T.row self.entry result (with_item self.old number) self.old) }
        ensures value { option_copied_mut result ≡ item_at self.old number }
    {
        item_mut(&mut self.items, number)
    }
}

impl<T: Drop> ItemList<T> {
    /// Puts the item at the number, in place of one that is there. If out of memory, nothing changes.
    #[inline(always)]
    pub(crate) fn insert(&mut self, number: u32, item: T) -> Result<(), AllocError>
        ensures ok { OnOk result (self.new ≡ put_item self.old number item) }
        ensures err { OnErr result (self.new ≡ self.old) }
    {
        put(&mut self.items, number, item)
    }

    /// Takes the item at the number.
    pub(crate) fn remove(&mut self, number: u32) -> Option<T>
        ensures removed { result ≡ item_at self.old number }
        ensures items { self.new ≡ without_item self.old number }
    {
        remove_at(&mut self.items, number)
    }
}

/// Where the number stands among ascending ones, or where it would go. The last item is looked at first, since the records of a
/// message mostly come in ascending order, and those of a list one behind another.
#[inline]
pub(crate) fn place_in<T>(items: &[(u32, T)], number: u32) -> Result<usize, usize>
    requires { IsAscending items.now }
    ensures { result ≡ seek (nat_cmp number) items.now }
{
    match items.last() {
        Some(last) => match number.cmp(&last.0) {
            Ordering::Equal => Ok(items.len() - 1),
            Ordering::Greater => Err(items.len()),
            Ordering::Less => search(items, number),
        },
        None => Err(0),
    }
}

/// Where the number stands among ascending ones, or where it would go, by binary search.
fn search<T>(items: &[(u32, T)], number: u32) -> Result<usize, usize>
    requires { IsAscending items.now }
    ensures { result ≡ seek (nat_cmp number) items.now }
{
    items.binary_search_by_key(&number, |item| item.0)
}

/// The item at the number.
pub(crate) fn get_at<T>(items: &[(u32, T)], number: u32) -> Option<&T>
    requires { IsAscending items.now }
    ensures { option_copied result ≡ item_at items.now number }
{
    match place_in(items, number) {
        Ok(place) => Some(&items[place].1),
        Err(_) => None,
    }
}

/// The items below the number, and those from it on.
pub(crate) fn parted_at<T>(items: &[(u32, T)], number: u32) -> (&[(u32, T)], &[(u32, T)])
    requires { IsAscending items.now }
    ensures below { result.0.now ≡ items_below items.now number }
    ensures from { result.1.now ≡ items_from items.now number }
{
    match place_in(items, number) {
        Ok(place) | Err(place) => items.split_at(place),
    }
}

/// The item at the number, for writing.
pub(crate) fn item_mut<T>(items: &mut Vec<(u32, T)>, number: u32) -> Option<&mut T>
    requires { IsAscending items.old.items }
    ensures* writes_back { sem 𝓛
        (LendsSo (list_row T.row) T.row items.entry result (λ after w. after.items ≡ with_item items.old.items number w)
        (λ after. after.items ≡ items.old.items)) }
    ensures value { option_copied_mut result ≡ item_at items.old.items number }
{
    match place_in(items, number) {
        Ok(place) => {
            let item = &mut items[place];
            Some(&mut item.1)
        }
        Err(_) => None,
    }
}

/// Puts the item at the number, in place of one that is there. If out of memory, nothing changes.
#[inline(always)]
pub(crate) fn put<T: Drop>(
    items: &mut Vec<(u32, T)>,
    number: u32,
    item: T,
) -> Result<(), AllocError>
    requires { IsAscending items.old.items }
    ensures ok { OnOk result (items.new.items ≡ put_item items.old.items number item) }
    ensures err { OnErr result (items.new.items ≡ items.old.items) }
{
    match place_in(items, number) {
        Ok(index) => items[index] = (number, item),
        Err(index) => items.insert(index, (number, item))?,
    }
    Ok(())
}

/// Takes the item at the number.
pub(crate) fn remove_at<T: Drop>(items: &mut Vec<(u32, T)>, number: u32) -> Option<T>
    requires { IsAscending items.old.items }
    ensures removed { result ≡ item_at items.old.items number }
    ensures items { items.new.items ≡ without_item items.old.items number }
{
    match place_in(items, number) {
        Ok(place) => Some(items.remove(place).1),
        Err(_) => None,
    }
}

/// Puts an item behind those that are there, for which there is room.
pub fn push_last<T: Drop>(items: &mut Vec<T>, item: T)
    requires { vec_len items.old < vec_capacity items.old }
    ensures items { items.new.items ≡ items.old.items ++ item ∷ [] }
    ensures len { vec_len items.new ≡ vec_len items.old + 1 }
    ensures capacity { vec_capacity items.old ≤ vec_capacity items.new }
{
    match items.push(item) {
        Ok(()) => {}
        Err(_) => unreachable!(),
    }
}

/// Puts the items of a run behind those that are there, for which there is room.
pub(crate) fn join<T: Drop>(run: Vec<(u32, T)>, items: &mut Vec<(u32, T)>)
    requires { vec_len items.old + length run.items ≤ vec_capacity items.old }
    ensures items { items.new.items ≡ items.old.items ++ run.items }
    ensures len { vec_len items.new ≡ vec_len items.old + length run.items }
    ensures capacity { vec_capacity items.old ≤ vec_capacity items.new }
{
    let mut run = run;
    match items.append(&mut run) {
        Ok(()) => {}
        Err(_) => unreachable!(),
    }
}
