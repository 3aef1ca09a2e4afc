//! Fields of messages by their numbers and by their names.

use crate::fields::access::is_taken;
use crate::fields::types::{choices, my_message};
use crate::fields::ways::{Named, int, lends_numbers, shows};
use prost_reflect::{GetFieldError, Value};
use std::alloc::Global;
use std::test::Fail;

/// 5 in the field `f1`, and 7 in the extension `f12`.
static BYTES: &[u8] = &[0x08, 5, 0x60, 7];

/// 5 in the field `foo`, of the number 1.
static FIVE: &[u8] = &[0x08, 5];

/// Whether `f1` alone is there by its name, and is lent; is taken by its name, where `f12` stays; and is not taken once it is
/// cleared. An extension, as `f12`, is no field of its name, and is neither cleared nor taken by it.
fn has_f1_alone(alloc: Global) -> Result<[bool; 3], Fail> {
    let message = choices(alloc, BYTES)?;
    let f1 = Named::Name("f1");
    let is_lent = message.has_field_by_name("f1")
        && shows(alloc, message, f1, int(alloc, 5)?, true)?;
    let is_alone = !message.has_field_by_name("f2")
        && !message.has_field_by_name("f12")
        && message.get_field_by_name(alloc, "f12")?.is_none();
    message.clear_field_by_name("f12");
    let is_given = is_taken(&message.take_field_by_name("f1"), 5, true);
    let is_left = *message == *choices(alloc, &[0x60, 7])?;
    let message = choices(alloc, BYTES)?;
    message.clear_field_by_name("f1");
    let is_cleared = message.take_field_by_name("f1").is_none();
    let is_kept = message.take_field_by_name("f12").is_none();
    Ok([
        is_lent && is_alone,
        is_given && is_left,
        is_cleared && is_kept,
    ])
}

/// Whether a message has, lends and gives nothing by a number that no field has, by which it is cleared and set.
fn ignores_number(alloc: Global, number: u32) -> Result<bool, Fail> {
    let message = my_message(alloc, FIVE)?;
    message.clear_field_by_number(number);
    Ok(
        !message.has_field_by_number(number)
            && message.get_field_by_number_mut(alloc, number).err() == Some(GetFieldError::NotFound)
            && message.take_field_by_number(number).is_none()
            && message.get_field_by_number(alloc, number)?.is_none()
            && message.set_field_by_number(number, Value::I32(5)).is_ok()
            && *message == *my_message(alloc, FIVE)?,
    )
}

/// Whether a message has, lends and gives nothing by a name that no field has, by which it is cleared and set.
fn ignores_name(alloc: Global, name: &str) -> Result<bool, Fail> {
    let message = my_message(alloc, FIVE)?;
    message.clear_field_by_name(name);
    Ok(
        !message.has_field_by_name(name)
            && message.get_field_by_name_mut(alloc, name).err() == Some(GetFieldError::NotFound)
            && message.take_field_by_name(name).is_none()
            && message.get_field_by_name(alloc, name)?.is_none()
            && message.set_field_by_name(name, Value::I32(5)).is_ok()
            && *message == *my_message(alloc, FIVE)?,
    )
}

/// Whether `foo` is written over, and `bar`, of the number 2, which is made first.
fn lends_both(alloc: Global) -> Result<bool, Fail> {
    let message = my_message(alloc, FIVE)?;
    Ok(
        lends_numbers(alloc, message, Named::Number(1), (5, 7))?
            && lends_numbers(alloc, message, Named::Name("bar"), (0, 66))?
            && *message == *my_message(alloc, &[0x08, 7, 0x10, 66])?,
    )
}

/// No field has the number 42, or the name `notfound`.
#[test]
fn fields_are_named_by_numbers_and_names(rt: HostRuntime) -> Result<(), Fail> {
    assert_eq!(rt; has_f1_alone(rt.alloc())?, [true; 3]);
    assert!(rt; ignores_number(rt.alloc(), 42)?);
    assert!(rt; ignores_name(rt.alloc(), "notfound")?);
    assert!(rt; lends_both(rt.alloc())?);
    Ok(())
}
