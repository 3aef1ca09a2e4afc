//! Options of definitions: the bytes that a record stores, read by the message type that the pool has for them.

ghost use Rattle.std.specs.Prelude.{◌≡◌};
ghost use Rattle.prost_reflect_dynamic.specs.Options.{AnswersBy, options_refusal};
ghost use Rattle.prost_reflect_rows.specs.Options.{bytes_or_none};
ghost use Rattle.prost_reflect_dynamic.specs.declared.descriptor.options.OptionsError.TheVariants as options_errors;

use crate::descriptor::{DescriptorPool, MessageDescriptor, Placed};
use crate::message::DynamicMessage;
use prost_reflect_rows::options::bytes_or_none;
use prost_reflect_wire::DecodeError;
use std::alloc::AllocError;
use thiserror::Error;

/// Why the options of a definition are not read.
///
/// Options are read by a message type of the definition's own pool, as a message's by `google.protobuf.MessageOptions`. A
/// pool of a descriptor set has it if the set was written with its imports, and a file of it imports
/// `google/protobuf/descriptor.proto`.
///
/// ```
/// // Whether the options of the message type say `deprecated`, which has the number 3.
/// fn is_deprecated(message_type: &MessageDescriptor) -> Result<bool, OptionsError> {
///     match message_type.options() {
///         Ok(options) => Ok(options.has_field_by_number(3)),
///         Err(OptionsError::NoOptionsMessage) => Ok(false),
///         Err(error) => Err(error),
///     }
/// }
/// ```
#[derive(Clone, Copy, Debug, PartialEq, Eq, Error)]
pub enum OptionsError {
    /// The pool has no message type for the options.
    #[error("the pool has no message type for the options")]
    NoOptionsMessage,
    /// The bytes of the options are not those of a message of that type. Out of memory is `OutOfMemory`.
    #[error("the options are not read: {0}")]
    Decode(DecodeError),
    /// Out of memory.
    #[error("out of memory")]
    OutOfMemory,
}

impl From<AllocError> for OptionsError {
    ghost from_gives = { λ _ e. e ≡ options_errors.OutOfMemory };

    fn from(_error: AllocError) -> OptionsError {
        OptionsError::OutOfMemory
    }
}

impl From<DecodeError> for OptionsError {
    ghost from_gives = { λ error e. e ≡ options_refusal error };

    fn from(error: DecodeError) -> OptionsError {
        match error {
            DecodeError::OutOfMemory => OptionsError::OutOfMemory,
            fault => OptionsError::Decode(fault),
        }
    }
}

/// The options that a record stores, read by the pool's message type of a full name.
pub(super) fn options_by(
    pool: &DescriptorPool,
    full_name: &str,
    stored: &Option<Vec<u8>>,
) -> Result<DynamicMessage, OptionsError>
    ensures { AnswersBy pool.now.inner full_name.now (bytes_or_none stored.now) result }
{
    match pool.inner.message_place(full_name) {
        Some(place) => {
            let message_type = MessageDescriptor::at(pool, place)?;
            let alloc = pool.inner.allocator();
            let message = DynamicMessage::decode(alloc, message_type, bytes_or_none(stored))?;
            Ok(message)
        }
        None => Err(OptionsError::NoOptionsMessage),
    }
}
