//! Walks over the definitions at places.

ghost use Rattle.std.specs.Prelude.{◌≡◌, ℕ, Bool, IsTrue, IfOk};
ghost use Rattle.std.specs.List.{list_all};
ghost use Rattle.prost_reflect_walks.specs.Places.{places_left};

use crate::places::Places;
use std::alloc::AllocError;
use std::marker::PhantomData;

/// What stands at a place of its parent: of a pool, or of the definition that encloses it.
pub trait Placed<P>: Sized {
    ghost is_place: { P → ℕ → Bool };

    ghost stands: { P → ℕ → Self → Type 0 };

    /// The descriptor of what stands at the place. The parent has to have such a definition at that place.
    ///
    /// # Errors
    ///
    /// `AllocError` if out of memory.
    fn at(parent: &P, place: usize) -> Result<Self, AllocError>
        requires { IsTrue (is_place parent.now place) }
        ensures { IfOk result (stands parent.now place) };
}

/// The descriptors of places, one after another. Each shares the pool once more; if out of memory, the answer for its place
/// is `AllocError`, and the next call goes on with the next place.
#[derive(Drop)]
pub struct Descriptors<'a, P, D: Placed<P>> {
    parent: &'a P,
    places: Places<'a>,
    of: PhantomData<D>,
    pub ghost there: { IsTrue (list_all (D.is_place parent.now) (places_left places)) },
}

impl<'a, P, D: Placed<P>> Descriptors<'a, P, D> {
    /// The descriptors of these places.
    pub fn new(parent: &'a P, places: Places<'a>) -> Descriptors<'a, P, D>
        requires { IsTrue (list_all (D.is_place parent.now) (places_left places)) }
        ensures parent { result.parent.now ≡ parent.now }
        ensures places { places_left result.places ≡ places_left places.entry }
    {
        Descriptors {
            parent,
            places,
            of: PhantomData,
        }
    }
}

impl<'a, P, D: Placed<P>> Iterator for Descriptors<'a, P, D> {
    type Item = Result<D, AllocError>;

    ghost use Rattle.std.specs.Prelude.{length};
    ghost use Rattle.std.specs.Iterator.{at_most};
    ghost use Rattle.prost_reflect_walks.specs.Walks.{descriptor_steps};

    ghost next_gives = { descriptor_steps };

    ghost remaining = { λ it. at_most (length (places_left it.places)) };

    fn next(&mut self) -> Option<Result<D, AllocError>> {
        match self.places.next_place() {
            Some(place) => Some(D::at(self.parent, place)),
            None => None,
        }
    }
}

impl<'a, P, D: Placed<P>> ExactSizeIterator for Descriptors<'a, P, D> {
    fn len(&self) -> usize {
        self.places.count()
    }
}
