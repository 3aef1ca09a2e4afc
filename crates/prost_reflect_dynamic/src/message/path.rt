//! A value set at a path of numbers, and whether the field there takes it.

ghost use Rattle.std.specs.Prelude.{◌≡◌, IfOk, option_map};
ghost use Rattle.prost_reflect_wire.specs.Content.{schema_of, type_of};
ghost use Rattle.prost_reflect_wire.specs.Typing.{WellStored, value_valid};
ghost use Rattle.prost_reflect_wire.specs.Edit.{PathTo};
ghost use Rattle.prost_reflect_rows.specs.Paths.{field_led};
ghost use Rattle.prost_reflect_dynamic.specs.Paths.{IsSetAt, HeldPath, SetInHeld};
ghost use Rattle.prost_reflect_dynamic.specs.Named.{schema_named, type_named};
ghost use Rattle.prost_reflect_dynamic.specs.Variants.{message_in};
ghost use Rattle.prost_reflect_dynamic.specs.declared.value.Value.{out-Value};
ghost use Rattle.prost_reflect_dynamic.specs.View.{value_of, content_of};

use crate::descriptor::MessageDescriptor;
use crate::message::DynamicMessage;
use crate::value::Value;
use crate::value::valid::value_valid;
use prost_reflect_rows::paths::field_led;
use std::alloc::{AllocError, Global};

/// Whether the field that a path of numbers leads to from the message type takes the value; none if the path leads to no
/// field, as `MessageDescriptor::get_field_by_path` says it.
pub fn takes_at_path(descriptor: &MessageDescriptor, path: &[u32], value: &Value) -> Option<bool>
    ensures { result
        ≡ option_map (λ f. value_valid f (value_of value.now))
        (field_led (schema_named descriptor.now) (type_named descriptor.now) path.now) }
{
    let pool = &descriptor.parent_pool().inner;
    let field = field_led(pool, descriptor.index(), path)?;
    Some(value_valid(pool, field, value))
}

/// Sets the value at the path in the message. A message that is not there is made on the way, and at each number the other
/// members of its oneof go.
///
/// The message has to be as `DynamicMessage::merge` takes it, and the path has to lead to a field that takes the value, as
/// `takes_at_path` tells. Messages in the value have to be as `merge` takes them, and of their fields' types.
///
/// # Errors
///
/// `AllocError` if out of memory, which leaves what was made.
#[cycle(path)]
pub fn set_at_path(
    message: &mut DynamicMessage,
    alloc: Global,
    path: &[u32],
    value: Value,
) -> Result<(), AllocError>
    requires sound { WellStored (content_of message.old) }
    requires path { PathTo (schema_of (content_of message.old)) (type_of (content_of message.old)) path.now (value_of value) }
    ensures { IfOk result (λ _. IsSetAt path.now (value_of value) (content_of message.old) (content_of message.new)) }
{
    let Some((number, rest)) = path.split_first() else {
        unreachable!()
    };
    if rest.is_empty() {
        return message.set_value(*number, value);
    }
    let lent = message.value_or_default_mut(alloc, *number)?;
    set_in_held(lent, alloc, rest, value)
}

/// Sets the value at the path in the message that a value holds.
#[cycle(path)]
fn set_in_held(
    lent: &mut Value,
    alloc: Global,
    path: &[u32],
    value: Value,
) -> Result<(), AllocError>
    requires { HeldPath path.now (value_of value) (message_in (out-Value lent.old)) }
    ensures { IfOk result (λ _. SetInHeld path.now (value_of value) (message_in (out-Value lent.old)) (value_of lent.new)) }
{
    match lent.as_message_mut() {
        Some(message) => set_at_path(message, alloc, path, value),
        None => unreachable!(),
    }
}
