//! What is written of a message that was changed: what the change makes of what the message held before.

ghost use Rattle.std.specs.Prelude.{◌≡◌, IfOk};
ghost use Rattle.prost_reflect_wire.specs.Typing.{kept, WellStored};
ghost use Rattle.prost_reflect_wire.specs.Writing.{encoded};
ghost use Rattle.prost_reflect_dynamic.specs.Access.{number_declared};
ghost use Rattle.prost_reflect_dynamic.specs.Contents.{cleared_if};
ghost use Rattle.prost_reflect_dynamic.specs.Edits.{held_set, IsWhole};
ghost use Rattle.prost_reflect_dynamic.specs.View.{value_of, content_of, message_type_of};

use crate::programs::error::ClientError;
use prost_reflect::{DynamicMessage, Value};
use std::alloc::Global;

/// Clears a field and writes: the bytes are what the message held without that field.
pub fn clear_and_encode(alloc: Global, message: &mut DynamicMessage) -> Result<Vec<u8>, ClientError>
    requires { WellStored (content_of message.old) }
    ensures { IfOk result
        (λ bytes. bytes.items
        ≡ encoded (cleared_if (number_declared (message_type_of message.old) 5) (kept (content_of message.old)))) }
{
    message.clear_field_by_number(5);
    Ok(message.encode_to_vec(alloc)?)
}

/// Sets the field of a number and writes: the bytes are what the message held with that value in place of what its field and
/// the siblings of that had.
pub fn set_and_encode(
    alloc: Global,
    message: &mut DynamicMessage,
    number: u32,
    value: Value,
) -> Result<Vec<u8>, ClientError>
    requires sound { WellStored (content_of message.old) }
    requires whole { IsWhole (message_type_of message.old) number value }
    ensures { IfOk result (λ bytes. bytes.items ≡ encoded (held_set number (value_of value) (kept (content_of message.old)))) }
{
    message.try_set_field_by_number(number, value)?;
    Ok(message.encode_to_vec(alloc)?)
}
