//! Items in one block that never change, which clones share.

ghost use Rattle.std.specs.Prelude.{◌≡◌, [], IfOk};

use std::alloc::{AllocError, Global};
use std::marker::Model;
use std::rc::Rc;

/// Items in one block that never change, which clones share: a clone costs a count, however many items there are.
///
/// Contracts see the list of its items, in their order.
#[derive(Drop)]
pub struct SharedSlice<T> {
    /// There is no block where there are no items.
    items: Option<Rc<Vec<T>>>,
}

impl<T> Model for SharedSlice<T> {
    ghost use Rattle.std.specs.Prelude.{List};
    ghost use Rattle.prost_reflect_shared.specs.Blocks.{block_items};

    ghost Value = { List T };

    ghost view = { λ a. block_items a.items };
}

impl<T> SharedSlice<T> {
    /// No items.
    pub fn new() -> SharedSlice<T>
        ensures { result ≡ [] }
    {
        SharedSlice { items: None }
    }

    /// The items.
    pub fn as_slice(&self) -> &[T]
        ensures { result.now ≡ self.now }
    {
        match &self.items {
            Some(items) => items.as_slice(),
            None => &[],
        }
    }
}

impl<T: Drop> SharedSlice<T> {
    /// These items.
    ///
    /// # Errors
    ///
    /// `AllocError` if out of memory.
    pub fn from_vec(alloc: Global, items: Vec<T>) -> Result<SharedSlice<T>, AllocError>
        ensures { IfOk result (λ slice. slice ≡ items.items) }
    {
        Ok(SharedSlice {
            items: Some(Rc::new(alloc, items)?),
        })
    }
}

impl<T: Drop> Clone for SharedSlice<T> {
    ghost use Rattle.std.specs.Prelude.{◌≡◌};

    ghost is_clone = { λ slice copy. copy ≡ slice };

    /// The same items: one count.
    ///
    /// # Errors
    ///
    /// `AllocError` where there are more clones than a count can say.
    fn clone(&self) -> Result<SharedSlice<T>, AllocError> {
        match &self.items {
            Some(items) => Ok(SharedSlice {
                items: Some(items.clone()?),
            }),
            None => Ok(SharedSlice { items: None }),
        }
    }
}
