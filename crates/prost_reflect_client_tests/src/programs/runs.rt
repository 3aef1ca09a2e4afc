//! What these functions answer.

use crate::fields::types::{choices, message_of};
use crate::programs::comparing::hold_the_same;
use crate::programs::descriptors::{
    default_key, has_extensions, own_extensions, own_fields, shown_by_full_name,
};
use crate::programs::editing::{clear_owned, set_number_twice, set_twice};
use crate::programs::moving::{messages_drained, move_and_write, take_and_set_again};
use crate::programs::nesting::clear_before;
use prost_reflect::{DynamicMessage, Kind, MapKey};
use prost_reflect_promises::read_in_pieces;
use prost_reflect_samples::{leaked, sets};
use std::alloc::{AllocError, Global};
use std::test::Fail;

/// 5 in the field `f1`, and 7 in the extension `f12`.
static BYTES: &[u8] = &[0x08, 5, 0x60, 7];

/// Whether `f1` is found as the one field that is had and shows a number, and `f12` as the one extension, in each way.
fn finds_its_own(alloc: Global, message: &DynamicMessage) -> Result<bool, AllocError> {
    Ok(
        own_fields(alloc, message)? == (1, 1)
            && own_extensions(message)? == 1
            && shown_by_full_name(alloc, message, "f12")? == Some(7)
            && shown_by_full_name(alloc, message, "f1")?.is_none()
            && has_extensions(message, 12, "[f12]")? == (true, true),
    )
}

#[test]
fn a_message_finds_its_own(rt: HostRuntime) -> Result<(), Fail> {
    let message = choices(rt.alloc(), BYTES)?;
    assert!(rt; finds_its_own(rt.alloc(), message)?);
    Ok(())
}

/// Whether fields of a name and of a number are set to 7 in turn.
fn sets_to_seven(alloc: Global, message: &mut DynamicMessage) -> Result<bool, Fail> {
    set_twice(message, "f2")?;
    set_number_twice(message, 6)?;
    Ok(*message == *choices(alloc, &[0x08, 5, 0x10, 7, 0x30, 7, 0x60, 7])?)
}

#[test]
fn a_field_is_set_twice(rt: HostRuntime) -> Result<(), Fail> {
    let message = choices(rt.alloc(), BYTES)?;
    assert!(rt; sets_to_seven(rt.alloc(), message)?);
    Ok(())
}

/// Whether each field is cleared, and not the extension.
fn clears_fields(alloc: Global, message: &mut DynamicMessage) -> Result<bool, Fail> {
    clear_owned(message)?;
    Ok(*message == *choices(alloc, &BYTES[2..])?)
}

#[test]
fn each_field_is_cleared(rt: HostRuntime) -> Result<(), Fail> {
    let message = choices(rt.alloc(), BYTES)?;
    assert!(rt; clears_fields(rt.alloc(), message)?);
    Ok(())
}

#[test]
fn keys_have_defaults(rt: HostRuntime) -> Result<(), Fail> {
    let number = leaked(rt.alloc(), Kind::Sint32)?;
    let zero = leaked(rt.alloc(), Some(MapKey::I32(0)))?;
    assert!(rt; default_key(rt.alloc(), number) == *zero);
    let bytes = leaked(rt.alloc(), Kind::Bytes)?;
    assert!(rt; default_key(rt.alloc(), bytes).is_none());
    Ok(())
}

/// Whether `n` is cleared in the message and in those that `v` leads to.
fn clears_inside(alloc: Global, message: &mut DynamicMessage) -> Result<bool, Fail> {
    let cleared = clear_before(alloc, message, "v", "n").is_ok();
    Ok(cleared && *message == *message_of(alloc, sets::kinds(), "v.V", &[0x3a, 2, 0x3a, 0])?)
}

#[test]
fn a_field_is_cleared_inside(rt: HostRuntime) -> Result<(), Fail> {
    let bytes = &[0x30, 5, 0x3a, 6, 0x30, 5, 0x3a, 2, 0x30, 5];
    let message = message_of(rt.alloc(), sets::kinds(), "v.V", bytes)?;
    assert!(rt; clears_inside(rt.alloc(), message)?);
    Ok(())
}

/// Whether the message in two pieces is the message, and each piece holds something else.
fn is_joined(alloc: Global, message: &DynamicMessage) -> Result<bool, Fail> {
    let pieces = read_in_pieces(alloc, message.descriptor()?, &BYTES[..2], &BYTES[2..])?;
    let joined = leaked(alloc, pieces)?;
    let front = choices(alloc, &BYTES[..2])?;
    Ok(
        hold_the_same(alloc, message, joined)? == Some(true)
            && hold_the_same(alloc, message, front)? == Some(false),
    )
}

#[test]
fn pieces_hold_what_the_whole_holds(rt: HostRuntime) -> Result<(), Fail> {
    let message = choices(rt.alloc(), BYTES)?;
    assert!(rt; is_joined(rt.alloc(), message)?);
    Ok(())
}

/// Whether the field `f1` alone is moved to a new message, and is there again where it was taken and set; and whether a message
/// with no other in it is one.
fn moves(alloc: Global) -> Result<bool, Fail> {
    let message = choices(alloc, BYTES)?;
    let message_type = leaked(alloc, message.descriptor()?)?;
    let moved = move_and_write(
        alloc,
        message_type.clone()?,
        message_type.clone()?,
        BYTES,
        1,
    )?;
    let again = take_and_set_again(alloc, message_type.clone()?, BYTES, 1)?;
    Ok(
        moved.as_slice() == &BYTES[..2]
            && again.as_slice() == BYTES
            && messages_drained(alloc, message)? == 1,
    )
}

#[test]
fn a_field_is_moved(rt: HostRuntime) -> Result<(), Fail> {
    assert!(rt; moves(rt.alloc())?);
    Ok(())
}
