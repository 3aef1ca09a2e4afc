//! The walks over the items of a map, wherever they stand.

ghost use Rattle.std.specs.Prelude.{◌≡◌, []};
ghost use Rattle.prost_reflect_maps.specs.Items.{IsAscending, items_below, items_from};
ghost use Rattle.prost_reflect_maps.specs.ItemsLeft.{items_left, items_left_back};

use crate::items::parted_at;
use crate::runs::around;
use crate::sorted_map::{Held, SortedMap};

/// The items of a map with their numbers, ascending.
#[derive(Drop)]
pub struct Items<'a, T> {
    run: &'a [(u32, T)],
    runs: &'a [(u32, Vec<(u32, T)>)],
}

impl<'a, T> Iterator for Items<'a, T> {
    type Item = &'a (u32, T);

    ghost use Rattle.std.specs.Iterator.{YieldsFirstRef, item_count};
    ghost use Rattle.prost_reflect_maps.specs.ItemsLeft.{items_left};

    ghost next_gives = { YieldsFirstRef items_left };

    ghost remaining = { item_count items_left };

    fn next(&mut self) -> Option<&'a (u32, T)> {
        self.fill();
        match self.run.split_first() {
            Some((item, rest)) => {
                self.run = rest;
                Some(item)
            }
            None => None,
        }
    }
}

impl<'a, T> Items<'a, T> {
    /// Goes on to the next run that has items, where all of the last one were given.
    fn fill(&mut self)
        ensures left { items_left self.new ≡ items_left self.old }
        ensures ready { self.new.run.now ≡ [] → self.new.runs.now ≡ [] }
    {
        let mut run = self.run;
        let mut runs = self.runs;
        while run.is_empty() {
            match runs.split_first() {
                Some((first, rest)) => {
                    run = &first.1;
                    runs = rest;
                }
                None => break,
            }
        }
        self.run = run;
        self.runs = runs;
    }
}

/// The items of a map with their numbers, the last one first.
#[derive(Drop)]
pub struct ItemsBack<'a, T> {
    runs: &'a [(u32, Vec<(u32, T)>)],
    run: &'a [(u32, T)],
}

impl<'a, T> Iterator for ItemsBack<'a, T> {
    type Item = &'a (u32, T);

    ghost use Rattle.std.specs.Iterator.{YieldsLastRef, item_count};
    ghost use Rattle.prost_reflect_maps.specs.ItemsLeft.{items_left_back};

    ghost next_gives = { YieldsLastRef items_left_back };

    ghost remaining = { item_count items_left_back };

    fn next(&mut self) -> Option<&'a (u32, T)> {
        self.fill();
        match self.run.split_last() {
            Some((item, rest)) => {
                self.run = rest;
                Some(item)
            }
            None => None,
        }
    }
}

impl<'a, T> ItemsBack<'a, T> {
    /// Goes back to the next run that has items, where all of the last one were given.
    fn fill(&mut self)
        ensures left { items_left_back self.new ≡ items_left_back self.old }
        ensures ready { self.new.run.now ≡ [] → self.new.runs.now ≡ [] }
    {
        let mut run = self.run;
        let mut runs = self.runs;
        while run.is_empty() {
            match runs.split_last() {
                Some((last, rest)) => {
                    run = &last.1;
                    runs = rest;
                }
                None => break,
            }
        }
        self.run = run;
        self.runs = runs;
    }
}

impl<T> SortedMap<T> {
    /// The items with their numbers, ascending.
    pub fn iter(&self) -> Items<'_, T>
        ensures items { items_left result ≡ self.now.0 }
        ensures ascending { IsAscending self.now.0 }
    {
        match &self.held {
            Held::Empty(_, _) => Items {
                run: &[],
                runs: &[],
            },
            Held::Listed(list) => Items {
                run: list.get().items(),
                runs: &[],
            },
            Held::Laid(map) => Items {
                run: &[],
                runs: map.get().runs(),
            },
        }
    }

    /// The items with their numbers, the last one first.
    pub fn iter_back(&self) -> ItemsBack<'_, T>
        ensures items { items_left_back result ≡ self.now.0 }
        ensures ascending { IsAscending self.now.0 }
    {
        match &self.held {
            Held::Empty(_, _) => ItemsBack {
                runs: &[],
                run: &[],
            },
            Held::Listed(list) => ItemsBack {
                runs: &[],
                run: list.get().items(),
            },
            Held::Laid(map) => ItemsBack {
                runs: map.get().runs(),
                run: &[],
            },
        }
    }

    /// The walk back over the items below the number, and that over the items from it on.
    pub(super) fn walks_at(&self, number: u32) -> (ItemsBack<'_, T>, Items<'_, T>)
        ensures below { items_left_back result.0 ≡ items_below self.now.0 number }
        ensures from { items_left result.1 ≡ items_from self.now.0 number }
    {
        match &self.held {
            Held::Empty(_, _) => (
                ItemsBack {
                    runs: &[],
                    run: &[],
                },
                Items {
                    run: &[],
                    runs: &[],
                },
            ),
            Held::Listed(list) => {
                let (below, from) = parted_at(list.get().items(), number);
                (
                    ItemsBack {
                        runs: &[],
                        run: below,
                    },
                    Items {
                        run: from,
                        runs: &[],
                    },
                )
            }
            Held::Laid(map) => {
                let (front, run, behind) = around(map.get().runs(), number);
                let (below, from) = parted_at(run, number);
                (
                    ItemsBack {
                        runs: front,
                        run: below,
                    },
                    Items {
                        run: from,
                        runs: behind,
                    },
                )
            }
        }
    }
}
