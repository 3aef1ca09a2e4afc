//! The field that a path of numbers leads to.

use crate::descriptor::{FieldDescriptor, MessageDescriptor, Placed};
use prost_reflect_rows::paths::field_place;
use std::alloc::AllocError;

impl MessageDescriptor {
    ghost use Rattle.std.specs.Prelude.{◌≡◌, IfOk, IfSome, option_and_then};
    ghost use Rattle.prost_reflect_pool.specs.SharedPools.{pool_rows as rows_of_pool};
    ghost use Rattle.prost_reflect_dynamic.specs.NamedField.{row_at};
    ghost use Rattle.prost_reflect_rows.specs.Paths.{row_led};

    /// The field that a path of numbers leads to from the message type: the last number is the field's, and each before it that
    /// of a field of one message or group, in whose type the next one is looked up.
    ///
    /// There is none where the path is empty, has more than 101 numbers, which is one for each level of messages that is read
    /// and one for the field, or a number that leads to no field. An extension is no field.
    ///
    /// # Errors
    ///
    /// `AllocError` if out of memory.
    pub fn get_field_by_path(&self, path: &[u32]) -> Result<Option<FieldDescriptor>, AllocError>
        ensures row { IfOk result
            (λ found. option_and_then row_at found
            ≡ row_led (rows_of_pool self.now.pool.inner) self.now.index path.now) }
        ensures pool { IfOk result (λ found. IfSome found (λ field. field.message.pool.inner.value ≡ self.now.pool.inner.value)) }
    {
        match field_place(&self.parent_pool().inner, self.index(), path) {
            Some((message, index)) => {
                let message = MessageDescriptor::at(self.parent_pool(), message)?;
                Ok(Some(FieldDescriptor::new(message, index)))
            }
            None => Ok(None),
        }
    }
}
