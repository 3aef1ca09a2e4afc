//! Changing a message: clearing, taking, setting and lending fields, which values fit them, and copies.

ghost use Rattle.std.specs.Prelude.{◌≡◌, false, true, map, Some, IfErr, IfOk, OnErr, OnOk};
ghost use Rattle.std.specs.Vec.Iter.{into_iter_items};
ghost use Rattle.prost_reflect_wire.specs.Edit.{cleared};
ghost use Rattle.prost_reflect_dynamic.specs.Access.{IsOwnField, had_at, number_declared, number_of, takes};
ghost use Rattle.prost_reflect_dynamic.specs.Contents.{cleared_if, value_set, values_taken};
ghost use Rattle.prost_reflect_dynamic.specs.Copies.{SameStoring};
ghost use Rattle.prost_reflect_dynamic.specs.Edits.{Removes, Sets};
ghost use Rattle.prost_reflect_dynamic.specs.Setting.{RefusesFound};
ghost use Rattle.prost_reflect_dynamic.specs.ValueLists.{had_pairs};
ghost use Rattle.prost_reflect_dynamic.specs.View.{content_of, message_type_of, value_of};

use prost_reflect_dynamic::{DynamicMessage, FieldDescriptor, SetFieldError, TakenFields, Value};
use std::alloc::{AllocError, Global};

/// Clears a field.
pub fn clear(message: &mut DynamicMessage, field: &FieldDescriptor)
    requires { IsOwnField (message_type_of message.old) field.now }
    ensures { Removes (cleared_if (Some (number_of field.now))) message.old message.new }
{
    message.clear_field(field);
}

/// Clears all fields and extensions, and takes away what is unknown. The type stays.
pub fn clear_all(message: &mut DynamicMessage)
    ensures { Removes cleared message.old message.new }
{
    message.clear();
}

/// Takes the value of a field, and answers it, or none where the message did not have it.
pub fn take(message: &mut DynamicMessage, field: &FieldDescriptor) -> Option<Value>
    requires { IsOwnField (message_type_of message.old) field.now }
    ensures value { result ≡ had_at (number_of field.now) message.old }
    ensures removes { Removes (cleared_if (Some (number_of field.now))) message.old message.new }
{
    message.take_field(field)
}

/// Takes the values of all fields, and answers those that the message had. Extensions and unknown fields stay.
///
/// # Errors
///
/// `AllocError` if out of memory; the message stays.
pub fn take_all(alloc: Global, message: &mut DynamicMessage) -> Result<TakenFields, AllocError>
    ensures pairs { IfOk result (λ taken. map (λ p. (number_of p.0, p.1)) (into_iter_items taken) ≡ had_pairs false message.old) }
    ensures removes { OnOk result (Removes (values_taken false) message.old message.new) }
    ensures unchanged { OnErr result (message.new ≡ message.old) }
{
    message.take_fields(alloc)
}

/// Sets a field to a value that fits it, and clears the other members of its oneof.
///
/// # Errors
///
/// `AllocError` if out of memory; the message stays.
pub fn set(
    message: &mut DynamicMessage,
    field: &FieldDescriptor,
    value: Value,
) -> Result<(), AllocError>
    requires own { IsOwnField (message_type_of message.old) field.now }
    requires valid { takes field.now value ≡ true }
    ensures sets { OnOk result (Sets (Some (number_of field.now)) value message.old message.new) }
    ensures unchanged { OnErr result (message.new ≡ message.old) }
{
    message.set_field(field, value)
}

/// Sets the field of a number to a value, and clears the other members of its oneof.
///
/// # Errors
///
/// `NotFound` if no field has the number; `InvalidType`, with the field and the value, if the value does not fit the field;
/// `OutOfMemory` if memory runs out; the message stays.
pub fn try_set(message: &mut DynamicMessage, number: u32, value: Value) -> Result<(), SetFieldError>
    ensures sets { OnOk result (Sets (number_declared (message_type_of message.old) number) value message.old message.new) }
    ensures refused { IfErr result
        (RefusesFound (message_type_of message.old) (number_declared (message_type_of message.old) number) value) }
    ensures unchanged { OnErr result (message.new ≡ message.old) }
{
    message.try_set_field_by_number(number, value)
}

/// Sets a field to a value that fits it, through the value that is lent for writing.
///
/// # Errors
///
/// `AllocError` if out of memory; the message stays.
pub fn set_through(
    alloc: Global,
    message: &mut DynamicMessage,
    field: &FieldDescriptor,
    value: Value,
) -> Result<(), AllocError>
    requires { IsOwnField (message_type_of message.old) field.now }
    ensures content { OnOk result (content_of message.new ≡ value_set (number_of field.now) (value_of value) (content_of message.old)) }
    ensures unchanged { OnErr result (message.new ≡ message.old) }
{
    *message.get_field_mut(alloc, field)? = value;
    Ok(())
}

/// Whether a field takes the value.
pub fn is_taken_by(value: &Value, field: &FieldDescriptor) -> bool
    ensures { result ≡ takes field.now value.now }
{
    value.is_valid_for_field(field)
}

/// A message that stores the same.
///
/// # Errors
///
/// `AllocError` if out of memory.
pub fn copy(message: &DynamicMessage) -> Result<DynamicMessage, AllocError>
    ensures { IfOk result (SameStoring message.now) }
{
    message.clone()
}
