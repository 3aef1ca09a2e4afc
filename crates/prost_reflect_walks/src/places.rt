//! Places of definitions, one after another.

ghost use Rattle.std.specs.Prelude.{◌≡◌, ◌-◌, IsTrue, length, nat_lt};
ghost use Rattle.std.specs.List.{list_all};
ghost use Rattle.prost_reflect_walks.specs.Places.{places_from, places_left, GivesPlace};

/// Places that are still to come.
#[derive(Debug, Drop)]
pub enum Places<'a> {
    /// Those of a list.
    Listed(&'a [usize]),
    /// Those from one place on, up to another.
    Range(usize, usize),
}

impl<'a> Places<'a> {
    /// As many places as there are definitions, from the first on.
    pub fn up_to(count: usize) -> Places<'a>
        ensures places { places_left result ≡ places_from 0 count }
        ensures within { IsTrue (list_all (λ i. nat_lt i count) (places_left result)) }
    {
        Places::Range(0, count)
    }

    /// The next place, if one is left.
    #[tactic(auto, using(crate::proofs::PlaceRanges::range_next))]
    pub fn next_place(&mut self) -> Option<usize>
        ensures { GivesPlace self.old result self.new }
    {
        match self {
            Places::Listed(places) => match places.split_first() {
                Some((place, rest)) => {
                    *places = rest;
                    Some(*place)
                }
                None => None,
            },
            Places::Range(start, end) if *start < *end => {
                let place = *start;
                *start += 1;
                Some(place)
            }
            Places::Range(_, _) => None,
        }
    }

    /// How many places are left.
    #[tactic(auto, using(crate::proofs::PlaceRanges::range_count))]
    pub fn count(&self) -> usize
        ensures { result ≡ length (places_left self.now) }
    {
        match self {
            Places::Listed(places) => places.len(),
            Places::Range(start, end) if *start < *end => *end - *start,
            Places::Range(_, _) => 0,
        }
    }
}
