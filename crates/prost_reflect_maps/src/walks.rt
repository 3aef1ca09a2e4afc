//! Walks over all items of a map from numbers, by the calls of its trait alone.

ghost use Rattle.std.specs.Prelude.{◌≡◌, ◌<◌, ◌^◌, []};
ghost use Rattle.prost_reflect_wire.specs.Grammar.{last};
ghost use Rattle.prost_reflect_maps.specs.Items.{IsAscending, items_above, item_copied};
ghost use Rattle.prost_reflect_maps.specs.ItemsLeft.{left_up, left_down};

use crate::number_map::NumberMap;
use std::marker::PhantomData;

/// The items of a map with their numbers, ascending. Each step looks the next number up.
#[derive(Drop)]
pub struct WalkUp<'a, T: 'a, S: 'a> {
    map: &'a S,
    last: Option<u32>,
    items: PhantomData<T>,
}

/// All items of a map with their numbers, ascending.
pub fn walk_up<'a, T: 'a, S: NumberMap<T> + 'a>(map: &'a S) -> WalkUp<'a, T, S>
    ensures items { left_up S.entries result ≡ S.entries map.now }
    ensures ascending { IsAscending (S.entries map.now) }
{
    map.ascends();
    WalkUp {
        map,
        last: None,
        items: PhantomData,
    }
}

impl<'a, T: 'a, S: NumberMap<T>> Iterator for WalkUp<'a, T, S> {
    type Item = (u32, &'a T);

    ghost use Rattle.std.specs.Iterator.{YieldsFirstBy, item_count};
    ghost use Rattle.prost_reflect_maps.specs.ItemsLeft.{left_up};

    ghost next_gives = { YieldsFirstBy (λ x. (x.0, x.1.now)) (left_up S.entries) };

    ghost remaining = { item_count (left_up S.entries) };

    fn next(&mut self) -> Option<(u32, &'a T)> {
        let map = self.map;
        map.ascends();
        let next = match self.last {
            None => map.first_from(0),
            Some(last) => map.first_above(last),
        };
        match next {
            Some((number, item)) => {
                self.last = Some(number);
                Some((number, item))
            }
            None => None,
        }
    }

    fn size_hint(&self) -> (usize, Option<usize>) {
        (0, None)
    }
}

/// The items of a map with their numbers, the last one first. Each step looks the next number up.
#[derive(Drop)]
pub struct WalkDown<'a, T: 'a, S: 'a> {
    map: &'a S,
    last: Option<u32>,
    items: PhantomData<T>,
}

/// All items of a map with their numbers, the last one first.
pub fn walk_down<'a, T: 'a, S: NumberMap<T> + 'a>(map: &'a S) -> WalkDown<'a, T, S>
    ensures items { left_down S.entries result ≡ S.entries map.now }
    ensures ascending { IsAscending (S.entries map.now) }
{
    map.ascends();
    WalkDown {
        map,
        last: None,
        items: PhantomData,
    }
}

impl<'a, T: 'a, S: NumberMap<T>> Iterator for WalkDown<'a, T, S> {
    type Item = (u32, &'a T);

    ghost use Rattle.std.specs.Iterator.{YieldsLastBy, item_count};
    ghost use Rattle.prost_reflect_maps.specs.ItemsLeft.{left_down};

    ghost next_gives = { YieldsLastBy (λ x. (x.0, x.1.now)) (left_down S.entries) };

    ghost remaining = { item_count (left_down S.entries) };

    fn next(&mut self) -> Option<(u32, &'a T)> {
        let map = self.map;
        map.ascends();
        let next = match self.last {
            None => last_item(map),
            Some(last) => map.last_below(last),
        };
        match next {
            Some((number, item)) => {
                self.last = Some(number);
                Some((number, item))
            }
            None => None,
        }
    }

    fn size_hint(&self) -> (usize, Option<usize>) {
        (0, None)
    }
}

/// The last item of all.
pub fn last_item<'a, T: 'a, S: NumberMap<T> + 'a>(map: &'a S) -> Option<(u32, &'a T)>
    ensures { item_copied result ≡ last (S.entries map.now) }
{
    bounded(map);
    map.ascends();
    match map.get(u32::MAX) {
        Some(item) => Some((u32::MAX, item)),
        None => map.last_below(u32::MAX),
    }
}

/// No item stands above the largest `u32`. A call does nothing, but its caller may then count on it.
pub fn bounded<T, S: NumberMap<T>>(map: &S)
    ensures { items_above (S.entries map.now) 4294967295 ≡ [] }
{
    if let Some((number, _)) = map.first_above(u32::MAX) {
        is_u32(number);
        unreachable!();
    }
}

/// The number is one of 32 bits. A call does nothing, but its caller may then count on it.
fn is_u32(number: u32)
    ensures { number < 2 ^ 32 }
{
    let _ = number;
}
