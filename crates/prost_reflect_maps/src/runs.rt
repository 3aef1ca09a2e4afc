//! Many items, in runs.

ghost use Rattle.std.specs.Prelude.{◌≡◌, ◌+◌, ◌<◌, ◌≤◌, ◌++◌, ◌^◌, [], length, OnOk, OnErr, IfNone, IfSome, Some, None, option_map, vec_len, vec_capacity};
ghost use Rattle.std.specs.Borrow.{LendsIf, sem};
ghost use Rattle.std.specs.Option.{option_copied, option_copied_mut};
ghost use Rattle.std.specs.Ordering.{nat_cmp};
ghost use Rattle.std_collections.specs.Layout.BTreeMap.{seek};
ghost use Rattle.prost_reflect_maps.specs.contracts.runs.RunMap.{the_row};
ghost use Rattle.prost_reflect_maps.specs.Items.{IsAscending, item_at, with_item, put_item, without_item, items_below, items_from};
ghost use Rattle.prost_reflect_maps.specs.Runs.{flat, IsLaid, run_at};

use crate::items::{get_at, join, place_in, put, remove_at};
use std::alloc::{AllocError, Global};
use std::collections::BTreeMap;
use std::marker::Model;
use std::mem;

/// A run of so many items is parted before it takes a further one.
pub(crate) const FULL: usize = 128;

/// A map from numbers, as runs of items in ascending order. With each run goes a number that is above the numbers of all items in
/// front of it, and not above those of its own.
///
/// An item goes into its run, and a run that is full is parted first. So an item moves no more than those of its run, whatever
/// the order in which the numbers come.
///
/// Beside its items it may keep notes, which say whatever its user writes there.
#[derive(Debug, Drop)]
pub struct RunMap<T> {
    runs: Vec<(u32, Vec<(u32, T)>)>,
    notes: Option<BTreeMap<usize, u32>>,
}

impl<T> Model for RunMap<T> {
    ghost use Rattle.std.specs.Prelude.{ℕ, List, Option, option_map};
    ghost use Rattle.prost_reflect_maps.specs.Runs.{flat, IsLaid};

    ghost Value = { List (ℕ × T) × Option (List (ℕ × ℕ)) };

    ghost view = { λ a. (flat a.runs.items, option_map (λ m. m.entries) a.notes) };

    ghost invariant = { λ a. IsLaid a.runs.items };
}

impl<T> RunMap<T> {
    /// No items, and no notes.
    pub(crate) fn new(alloc: Global) -> RunMap<T>
        ensures { result ≡ ([], None) }
    {
        RunMap {
            runs: Vec::new(alloc),
            notes: None,
        }
    }

    /// These items, whose numbers ascend, as one run, and no notes. There is room for the run.
    pub(crate) fn from_items(runs: Vec<(u32, Vec<(u32, T)>)>, items: Vec<(u32, T)>) -> RunMap<T>
        requires empty { runs.items ≡ [] }
        requires room { vec_len runs < vec_capacity runs }
        requires ascending { IsAscending items.items }
        ensures { result ≡ (items.items, None) }
    {
        let mut runs = runs;
        match runs.push((0, items)) {
            Ok(()) => {}
            Err(_) => unreachable!(),
        }
        RunMap { runs, notes: None }
    }

    /// Puts all items behind those that are there, for which there is room.
    pub(crate) fn move_items(self, items: &mut Vec<(u32, T)>)
    where
        T: Drop,
        requires room { vec_len items.old + length self.0 ≤ vec_capacity items.old }
        ensures items { items.new.items ≡ items.old.items ++ self.0 }
        ensures ascending { IsAscending self.0 }
    {
        let RunMap { runs, notes } = self;
        drop(notes);
        join_runs(runs, items);
    }

    /// What the items are stored with.
    pub(crate) fn allocator(&self) -> Global {
        *self.runs.allocator()
    }

    /// How many numbers have an item, unless no `usize` is so large.
    pub(crate) fn count(&self) -> Option<usize>
        ensures count { IfSome result (λ count. count ≡ length self.now.0) }
        ensures none { IfNone result (2 ^ 64 ≤ length self.now.0) }
    {
        count_items(&self.runs)
    }

    /// The numbers ascend. A call does nothing, but its caller may then count on it.
    pub(crate) fn ascends(&self)
        ensures { IsAscending self.now.0 }
    {
        let _ = self.runs.len();
    }

    /// The runs, whose items are all that there are.
    pub(crate) fn runs(&self) -> &[(u32, Vec<(u32, T)>)]
        ensures items { flat result.now ≡ self.now.0 }
        ensures laid { IsLaid result.now }
        ensures ascending { IsAscending self.now.0 }
    {
        &self.runs
    }

    /// The item at the number.
    pub(crate) fn get(&self, number: u32) -> Option<&T>
        ensures { option_copied result ≡ item_at self.now.0 number }
    {
        get_in(&self.runs, number)
    }

    /// The item at the number, for writing.
    pub(crate) fn get_mut(&mut self, number: u32) -> Option<&mut T>
        ensures* writes_back { sem 𝓛
            (LendsIf (the_row T.row) T.row self.entry result (λ w. (with_item self.old.0 number w, self.old.1))
            self.old) }
        ensures value { option_copied_mut result ≡ item_at self.old.0 number }
    {
        match run_of(&self.runs, number) {
            Some(index) => match place_in(&self.runs[index].1, number) {
                Ok(place) => {
                    let run = &mut self.runs[index];
                    let item = &mut run.1[place];
                    Some(&mut item.1)
                }
                Err(_) => None,
            },
            None => None,
        }
    }

    /// Whether there are notes.
    pub(crate) fn has_notes(&self) -> bool {
        self.notes.is_some()
    }

    /// Takes the notes, if there are any.
    pub(crate) fn take_notes(&mut self) -> Option<BTreeMap<usize, u32>>
        ensures notes { option_map (λ m. m.entries) result ≡ self.old.1 }
        ensures left { self.new ≡ (self.old.0, None) }
    {
        mem::replace(&mut self.notes, None)
    }

    /// Keeps these notes, in place of others.
    pub(crate) fn put_notes(&mut self, notes: BTreeMap<usize, u32>)
        ensures { self.new ≡ (self.old.0, Some notes.entries) }
    {
        self.notes = Some(notes);
    }
}

impl<T: Drop> RunMap<T> {
    /// Puts the item at the number, in place of one that is there. If out of memory, nothing changes.
    pub(crate) fn insert(&mut self, number: u32, item: T) -> Result<(), AllocError>
        ensures ok { OnOk result (self.new ≡ (put_item self.old.0 number item, self.old.1)) }
        ensures err { OnErr result (self.new ≡ self.old) }
    {
        make_room(&mut self.runs, number)?;
        put_in(&mut self.runs, number, item)
    }

    /// Takes the item at the number.
    pub(crate) fn remove(&mut self, number: u32) -> Option<T>
        ensures removed { result ≡ item_at self.old.0 number }
        ensures entries { self.new ≡ (without_item self.old.0 number, self.old.1) }
    {
        remove_in(&mut self.runs, number)
    }
}

/// The place of the run to which the number belongs: the last one whose items may have it.
fn run_of<T>(runs: &[(u32, Vec<(u32, T)>)], number: u32) -> Option<usize>
    requires { IsLaid runs.now }
    ensures run { result ≡ run_at (seek (nat_cmp number) runs.now) }
    ensures within { IfSome result (λ index. index < length runs.now) }
{
    match place_in(runs, number) {
        Ok(index) => Some(index),
        Err(0) => None,
        Err(index) => Some(index - 1),
    }
}

/// The item at the number in its run.
fn get_in<T>(runs: &[(u32, Vec<(u32, T)>)], number: u32) -> Option<&T>
    requires { IsLaid runs.now }
    ensures { option_copied result ≡ item_at (flat runs.now) number }
{
    match run_of(runs, number) {
        Some(index) => get_at(&runs[index].1, number),
        None => None,
    }
}

/// The runs in front of that to which the number belongs, the items of that run, and the runs behind it. Where no run has the
/// number, all runs are behind it.
pub(crate) fn around<T>(
    runs: &[(u32, Vec<(u32, T)>)],
    number: u32,
) -> (
    &[(u32, Vec<(u32, T)>)],
    &[(u32, T)],
    &[(u32, Vec<(u32, T)>)],
)
    requires { IsLaid runs.now }
    ensures own { IsAscending result.1.now }
    ensures below { items_below (flat runs.now) number ≡ flat result.0.now ++ items_below result.1.now number }
    ensures from { items_from (flat runs.now) number ≡ items_from result.1.now number ++ flat result.2.now }
{
    match run_of(runs, number) {
        Some(index) => (&runs[..index], &runs[index].1, &runs[index + 1..]),
        None => (&[], &[], runs),
    }
}

fn count_items<T>(runs: &[(u32, Vec<(u32, T)>)]) -> Option<usize>
    ensures count { IfSome result (λ count. count ≡ length (flat runs.now)) }
    ensures none { IfNone result (2 ^ 64 ≤ length (flat runs.now)) }
{
    let mut count: usize = 0;
    for run in runs {
        count = count.checked_add(run.1.len())?;
    }
    Some(count)
}

/// Parts the run to which the number belongs, where it is full. If out of memory, no item changes.
fn make_room<T: Drop>(runs: &mut Vec<(u32, Vec<(u32, T)>)>, number: u32) -> Result<(), AllocError>
    requires { IsLaid runs.old.items }
    ensures laid { IsLaid runs.new.items }
    ensures items { flat runs.new.items ≡ flat runs.old.items }
{
    match run_of(runs, number) {
        Some(index) if FULL <= runs[index].1.len() => part_run(runs, index),
        _ => Ok(()),
    }
}

/// Parts a run in the middle. If out of memory, no item changes.
fn part_run<T: Drop>(runs: &mut Vec<(u32, Vec<(u32, T)>)>, index: usize) -> Result<(), AllocError>
    requires laid { IsLaid runs.old.items }
    requires index { index < vec_len runs.old }
    ensures laid { IsLaid runs.new.items }
    ensures items { flat runs.new.items ≡ flat runs.old.items }
{
    runs.reserve(1)?;
    let run = &mut runs[index].1;
    let middle = run.len() / 2;
    if middle == 0 {
        return Ok(());
    }
    let number = run[middle].0;
    let high = run.split_off(middle)?;
    match runs.insert(index + 1, (number, high)) {
        Ok(()) => Ok(()),
        Err(_) => unreachable!(),
    }
}

/// Puts the item at the number, in place of one that is there. If out of memory, no item changes.
fn put_in<T: Drop>(
    runs: &mut Vec<(u32, Vec<(u32, T)>)>,
    number: u32,
    item: T,
) -> Result<(), AllocError>
    requires { IsLaid runs.old.items }
    ensures laid { IsLaid runs.new.items }
    ensures ok { OnOk result (flat runs.new.items ≡ put_item (flat runs.old.items) number item) }
    ensures err { OnErr result (flat runs.new.items ≡ flat runs.old.items) }
{
    match run_of(runs, number) {
        Some(index) => put(&mut runs[index].1, number, item),
        None => put_first(runs, number, item),
    }
}

/// Puts the item in front of all others, in a run of its own. If out of memory, no item changes.
fn put_first<T: Drop>(
    runs: &mut Vec<(u32, Vec<(u32, T)>)>,
    number: u32,
    item: T,
) -> Result<(), AllocError>
    requires laid { IsLaid runs.old.items }
    requires first { run_at (seek (nat_cmp number) runs.old.items) ≡ None }
    ensures laid { IsLaid runs.new.items }
    ensures ok { OnOk result (flat runs.new.items ≡ put_item (flat runs.old.items) number item) }
    ensures err { OnErr result (flat runs.new.items ≡ flat runs.old.items) }
{
    runs.reserve_exact(1)?;
    let mut run = Vec::new(*runs.allocator());
    run.push((number, item))?;
    runs.insert(0, (0, run))?;
    Ok(())
}

/// Takes the item at the number from its run.
fn remove_in<T: Drop>(runs: &mut Vec<(u32, Vec<(u32, T)>)>, number: u32) -> Option<T>
    requires { IsLaid runs.old.items }
    ensures laid { IsLaid runs.new.items }
    ensures removed { result ≡ item_at (flat runs.old.items) number }
    ensures items { flat runs.new.items ≡ without_item (flat runs.old.items) number }
{
    match run_of(runs, number) {
        Some(index) => remove_at(&mut runs[index].1, number),
        None => None,
    }
}

/// Puts the items of all runs behind those that are there, for which there is room.
fn join_runs<T: Drop>(runs: Vec<(u32, Vec<(u32, T)>)>, items: &mut Vec<(u32, T)>)
    requires { vec_len items.old + length (flat runs.items) ≤ vec_capacity items.old }
    ensures { items.new.items ≡ items.old.items ++ flat runs.items }
{
    for (_, run) in runs {
        join(run, items);
    }
}
