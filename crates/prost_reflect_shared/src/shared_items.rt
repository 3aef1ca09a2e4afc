//! Walks over the items of a shared list.

ghost use Rattle.std.specs.Prelude.{◌≡◌, length};

use crate::shared_list::SharedList;

/// The items of a shared list, the first one first.
#[derive(Drop)]
pub struct SharedItems<'a, T> {
    list: &'a SharedList<T>,
    /// The place of the next item.
    place: usize,
    /// How many items the list has.
    end: usize,
    ghost ended: { end ≡ length list.now },
}

impl<'a, T> SharedItems<'a, T> {
    ghost use Rattle.std.specs.Prelude.{◌≡◌, ◌<◌, ◌^◌, length};
    ghost use Rattle.prost_reflect_shared.specs.Items.{items_of, items_left, GivesInOrder};

    /// All items of the list.
    pub(crate) fn new(list: &'a SharedList<T>) -> SharedItems<'a, T>
        ensures items { items_left result ≡ items_of list.now }
        ensures bound { length (items_left result) < 2 ^ 64 }
        ensures runs { GivesInOrder T }
    {
        SharedItems {
            list,
            place: 0,
            end: list.len(),
        }
    }
}

impl<'a, T> Iterator for SharedItems<'a, T> {
    type Item = &'a T;

    ghost use Rattle.std.specs.Prelude.{◌≡◌, length, Some, IfSome};
    ghost use Rattle.std.specs.Iterator.{UpTo, YieldsFirstRef, item_count};
    ghost use Rattle.std.specs.Iterator.SizeHint.{IsWithinCount};
    ghost use Rattle.prost_reflect_shared.specs.Items.{items_left};

    ghost next_gives = { YieldsFirstRef items_left };

    ghost remaining = { item_count items_left };

    fn next(&mut self) -> Option<&'a T> {
        let list = self.list;
        let place = self.place;
        if place < self.end {
            self.place = place + 1;
            Some(list.at(place))
        } else {
            None
        }
    }

    fn size_hint(&self) -> (usize, Option<usize>)
        ensures lower { IsWithinCount result.0 (item_count items_left self.now) }
        ensures upper { IfSome result.1 (UpTo (item_count items_left self.now)) }
        ensures exact { result ≡ (length (items_left self.now), Some (length (items_left self.now))) }
    {
        let left = self.end.saturating_sub(self.place);
        (left, Some(left))
    }
}

impl<'a, T> IntoIterator for &'a SharedList<T> {
    type Item = &'a T;

    type IntoIter = SharedItems<'a, T>;

    ghost use Rattle.std.specs.Prelude.{◌≡◌};
    ghost use Rattle.prost_reflect_shared.specs.Items.{items_of, items_left};

    ghost into_iter_gives = { λ list it. items_left it ≡ items_of list.now };

    fn into_iter(self) -> SharedItems<'a, T> {
        SharedItems::new(self)
    }
}
