//! Which numbers of a message are present (the guide on field presence).

ghost use Rattle.std.specs.Prelude.{◌≡◌, ◌++◌, IfOk, OnOk};
ghost use Rattle.prost_reflect_wire.specs.Schema.{field_of};
ghost use Rattle.prost_reflect_wire.specs.Typing.{kept, kept_value, kept_inside};
ghost use Rattle.prost_reflect_fields.specs.Known.{known_of};
ghost use Rattle.prost_reflect_dynamic.specs.Present.{present_in, entry_present, value_present};
ghost use Rattle.prost_reflect_dynamic.specs.View.{value_of, content_of};

use crate::message::DynamicMessage;
use crate::message::defaults::is_field_default;
use crate::value::Value;
use prost_reflect_fields::slot::FieldSlot;
use prost_reflect_pool::PooledType;
use std::alloc::{AllocError, Global};

/// A number at which a message has something.
#[derive(Clone, Copy, PartialEq, Eq, Debug)]
pub enum PresentNumber {
    /// That of a field with a value.
    Field(u32),
    /// That of an extension with a value.
    Extension(u32),
    /// That of unknown fields, and how many there are.
    Unknown(u32, usize),
}

impl DynamicMessage {
    /// The numbers that are present, in ascending order, and of one number the value before the unknown fields. The default
    /// of a field without presence is no value, nor is an empty list or an empty map.
    ///
    /// # Errors
    ///
    /// `AllocError` if out of memory.
    pub fn present_numbers(&self, alloc: Global) -> Result<Vec<PresentNumber>, AllocError>
        ensures { IfOk result (λ numbers. numbers.items ≡ present_in (kept (content_of self.now))) }
    {
        let mut numbers = Vec::new(alloc);
        for (number, entry) in self.slots() {
            push_present(&mut numbers, self.message_type(), *number, entry)?;
        }
        Ok(numbers)
    }
}

/// Adds what is present at a number.
fn push_present(
    numbers: &mut Vec<PresentNumber>,
    message_type: &PooledType,
    number: u32,
    entry: &FieldSlot<Value>,
) -> Result<(), AllocError>
    ensures { OnOk result (numbers.new.items ≡ numbers.old.items ++ entry_present (known_of message_type.now) number entry.now) }
{
    if let Some(value) = entry.value()
        && let Some(present) = present_value(message_type, number, value)
    {
        numbers.push(present)?;
    }
    if let Some(unknown) = entry.unknown()
        && !unknown.is_empty()
    {
        numbers.push(PresentNumber::Unknown(number, unknown.len()))?;
    }
    Ok(())
}

/// The number of a value, if the value is kept.
fn present_value(message_type: &PooledType, number: u32, value: &Value) -> Option<PresentNumber>
    ensures { result
        ≡ value_present (known_of message_type.now) number
        (kept_value (field_of (known_of message_type.now) number) (kept_inside (value_of value.now))) }
{
    match message_type.field_table(number) {
        Some(field) if is_field_default(message_type, field, value) => None,
        Some(field) if field.is_extension => Some(PresentNumber::Extension(number)),
        _ => Some(PresentNumber::Field(number)),
    }
}
