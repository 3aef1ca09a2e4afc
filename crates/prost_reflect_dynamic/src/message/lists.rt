//! What a message has, as lists.

ghost use Rattle.std.specs.Prelude.{◌≡◌, true, false, flat_map, IfOk};
ghost use Rattle.prost_reflect_wire.specs.Typing.{kept};
ghost use Rattle.prost_reflect_dynamic.specs.Present.{present_in, number_listed};
ghost use Rattle.prost_reflect_dynamic.specs.View.{content_of};

mod descriptors;
mod had;
mod present_items;
mod taking;

use crate::message::{DynamicMessage, PresentNumber};
pub use had::{Extensions, Fields};
pub use present_items::{Present, PresentItems};
use std::alloc::{AllocError, Global};
pub use taking::{TakenExtensions, TakenFields};

impl DynamicMessage {
    /// The numbers of the fields that the message has, in ascending order.
    ///
    /// # Errors
    ///
    /// `AllocError` if out of memory.
    pub fn field_numbers(&self, alloc: Global) -> Result<Vec<u32>, AllocError>
        ensures { IfOk result (λ numbers. numbers.items ≡ flat_map (number_listed false) (present_in (kept (content_of self.now)))) }
    {
        self.numbers(alloc, false)
    }

    /// The numbers of the extensions that the message has, in ascending order.
    ///
    /// # Errors
    ///
    /// `AllocError` if out of memory.
    pub fn extension_numbers(&self, alloc: Global) -> Result<Vec<u32>, AllocError>
        ensures { IfOk result (λ numbers. numbers.items ≡ flat_map (number_listed true) (present_in (kept (content_of self.now)))) }
    {
        self.numbers(alloc, true)
    }

    /// The numbers of the fields, or those of the extensions.
    fn numbers(&self, alloc: Global, of_extensions: bool) -> Result<Vec<u32>, AllocError>
        ensures { IfOk result
            (λ numbers. numbers.items
            ≡ flat_map (number_listed of_extensions) (present_in (kept (content_of self.now)))) }
    {
        let present = self.present_numbers(alloc)?;
        let mut numbers = Vec::new(alloc);
        for item in present.as_slice() {
            match *item {
                PresentNumber::Field(number) if !of_extensions => numbers.push(number)?,
                PresentNumber::Extension(number) if of_extensions => numbers.push(number)?,
                _ => {}
            }
        }
        Ok(numbers)
    }
}
