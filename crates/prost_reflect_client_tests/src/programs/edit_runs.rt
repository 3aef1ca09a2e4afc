//! What the functions answer that put values, ask after a change and go into what is inside.

use crate::fields::types::{choices, lent, message_of};
use crate::programs::asking::{
    has_after_clearing_all, has_after_taking_all, has_another_after_clear, has_another_after_set,
    shown_after_clear, shown_after_set,
};
use crate::programs::descriptors::{set_found_name, set_found_number};
use crate::programs::extending::{
    set_extension_and_write, take_extension_and_set_again, take_extensions_and_write,
};
use crate::programs::lending::{
    put_through, write_through_and_write, write_through_extension_and_write,
};
use crate::programs::moving::take_own_and_set_again;
use crate::programs::nesting::clear_everywhere;
use crate::programs::writing::{clear_and_encode, set_and_encode};
use prost_reflect::{
    DynamicMessage, ExtensionDescriptor, FieldDescriptor, MessageDescriptor, Value,
};
use prost_reflect_samples::{leaked, sets};
use std::alloc::Global;
use std::borrow::Cow;
use std::test::Fail;

/// 5 in the field `f1`, 1 in `f5`, 4 in `f6`, and 7 in the extension `f12`.
static BYTES: &[u8] = &[0x08, 5, 0x28, 1, 0x30, 4, 0x60, 7];

/// The same without the extension.
static FIELDS: &[u8] = &[0x08, 5, 0x28, 1, 0x30, 4];

/// The type of such messages.
fn choices_type(alloc: Global) -> Result<&'static MessageDescriptor, Fail> {
    Ok(leaked(alloc, choices(alloc, &[])?.descriptor()?)?)
}

/// Whether 7 is written where a field and an extension lend their values, and where the extension is set.
fn puts(
    alloc: Global,
    message_type: &MessageDescriptor,
    extension: &ExtensionDescriptor,
) -> Result<bool, Fail> {
    let seven = write_through_and_write(alloc, message_type.clone()?, FIELDS, 6)?;
    let lent = write_through_extension_and_write(alloc, message_type.clone()?, FIELDS, extension)?;
    let set = set_extension_and_write(alloc, message_type.clone()?, FIELDS, extension)?;
    Ok(
        seven.as_slice() == [0x08, 5, 0x28, 1, 0x30, 7].as_slice()
            && lent.as_slice() == BYTES
            && set.as_slice() == BYTES,
    )
}

/// Whether a field and an extension that are taken are there again where they are set again, and extensions are gone where all
/// are taken.
fn takes(
    alloc: Global,
    message_type: &MessageDescriptor,
    field: &FieldDescriptor,
    extension: &ExtensionDescriptor,
) -> Result<bool, Fail> {
    let again = take_own_and_set_again(alloc, message_type.clone()?, BYTES, field)?;
    let extended = take_extension_and_set_again(alloc, message_type.clone()?, BYTES, extension)?;
    let left = take_extensions_and_write(alloc, message_type.clone()?, BYTES)?;
    Ok(again.as_slice() == BYTES && extended.as_slice() == BYTES && left.as_slice() == FIELDS)
}

/// Whether fields are put and set that are found by a number and a name.
fn finds(alloc: Global, message: &mut DynamicMessage) -> Result<bool, Fail> {
    let is_found = put_through(alloc, message, 2, Value::I32(7))? == Some(true)
        && set_found_number(message, 6, Value::I32(3))? == Some(true)
        && set_found_name(message, "f1", Value::I32(9))?.is_some();
    let left = choices(alloc, &[0x08, 9, 0x10, 7, 0x28, 1, 0x30, 3, 0x60, 7])?;
    Ok(is_found && *message == *left)
}

#[test]
fn values_are_put_and_taken(rt: HostRuntime) -> Result<(), Fail> {
    let message_type = choices_type(rt.alloc())?;
    let field = lent(rt.alloc(), message_type.get_field(1))?;
    let extension = lent(rt.alloc(), message_type.get_extension(12))?;
    assert!(rt; puts(rt.alloc(), message_type, extension)?);
    assert!(rt; takes(rt.alloc(), message_type, field, extension)?);
    assert!(rt; finds(rt.alloc(), choices(rt.alloc(), BYTES)?)?);
    Ok(())
}

/// Whether all but `f5` is written where that is cleared, and `f6` with 7 where it is set to that.
fn writes(alloc: Global, message_type: &MessageDescriptor) -> Result<bool, Fail> {
    let mut cleared = DynamicMessage::decode(alloc, message_type.clone()?, FIELDS)?;
    let without = clear_and_encode(alloc, &mut cleared)?;
    let mut set = DynamicMessage::decode(alloc, message_type.clone()?, FIELDS)?;
    let seven = set_and_encode(alloc, &mut set, 6, Value::I32(7))?;
    Ok(
        without.as_slice() == [0x08, 5, 0x30, 4].as_slice()
            && seven.as_slice() == [0x08, 5, 0x28, 1, 0x30, 7].as_slice(),
    )
}

/// The number that is shown, if it is one.
fn number_in(shown: Option<Cow<'_, Value>>) -> Option<i32> {
    match shown {
        Some(value) => value.as_i32(),
        None => None,
    }
}

/// Whether `f6` is had as before where others are changed, and shows what it showed; and nothing is had where all is taken, or
/// cleared.
fn leaves(alloc: Global, message: &mut DynamicMessage) -> Result<bool, Fail> {
    Ok(
        number_in(shown_after_set(alloc, message, 2, Value::I32(3), 6)?) == Some(4)
            && number_in(shown_after_clear(alloc, message, 2, 1)?) == Some(5)
            && has_another_after_set(message, 1, Value::I32(2), 6)?
            && has_another_after_clear(message, 1, 6)
            && !has_another_after_clear(message, 6, 1)
            && !has_after_taking_all(alloc, message, 5)?
            && !has_after_clearing_all(message, 5),
    )
}

#[test]
fn what_is_not_changed_stays(rt: HostRuntime) -> Result<(), Fail> {
    assert!(rt; writes(rt.alloc(), choices_type(rt.alloc())?)?);
    assert!(rt; leaves(rt.alloc(), choices(rt.alloc(), BYTES)?)?);
    Ok(())
}

/// 1 in the field `f5`; 2 in that of the group `f10`, and 3 in that of the message `f11` of the group; and 4 in that of the
/// message `f11`, which has an empty group.
static NESTED: &[u8] = &[
    0x28, 1, 0x53, 0x28, 2, 0x5a, 2, 0x28, 3, 0x54, 0x5a, 4, 0x28, 4, 0x53, 0x54,
];

/// Whether `f5` is cleared in the message and in all inside.
fn clears_below(alloc: Global) -> Result<bool, Fail> {
    let message = message_of(alloc, sets::every(), "e.Every", NESTED)?;
    clear_everywhere(alloc, message, 5)?;
    let bytes = &[0x53, 0x5a, 0, 0x54, 0x5a, 2, 0x53, 0x54];
    Ok(*message == *message_of(alloc, sets::every(), "e.Every", bytes)?)
}

#[test]
fn fields_are_cleared_inside(rt: HostRuntime) -> Result<(), Fail> {
    assert!(rt; clears_below(rt.alloc())?);
    Ok(())
}
