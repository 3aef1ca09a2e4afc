//! Each call once, on messages of the built-in types, and a closed enum in a oneof and alone.

use crate::fields::types::{choices, is_written, lent};
use crate::fields::ways::{Named, int, shows};
use prost_reflect::{
    DecodeError, DynamicMessage, MessageDescriptor, PresentNumber, Value, builtin_pool,
};
use prost_reflect_samples::leaked;
use std::alloc::Global;
use std::test::Fail;

/// The built-in message type of a name.
fn builtin(alloc: Global, name: &str) -> Result<&'static MessageDescriptor, Fail> {
    let pool = leaked(alloc, builtin_pool(alloc)?)?;
    lent(alloc, pool.get_message_by_name(name))
}

/// The message that the bytes mean to the built-in type of a name.
fn builtin_message(
    alloc: Global,
    name: &str,
    bytes: &[u8],
) -> Result<&'static mut DynamicMessage, Fail> {
    let found = builtin(alloc, name)?;
    let message = DynamicMessage::decode(alloc, found.clone()?, bytes)?;
    Ok(leaked(alloc, message)?)
}

/// An unknown varint of the number 10, and 150 in the field 5, and the same in longer varints.
static READ: [&[u8]; 2] = [&[0x50, 3, 0x28, 0x96, 1], b"\x50\x83\x00\x28\x96\x01"];

/// The same in ascending number.
static WRITTEN: &[u8] = &[0x28, 0x96, 1, 0x50, 3];

/// Whether the message may be written, and is written alone and behind 2000 bytes that are there.
fn is_appended(alloc: Global, message: &DynamicMessage) -> Result<bool, Fail> {
    if !message.is_encodable() {
        return Ok(false);
    }
    let out = leaked(alloc, vec![in alloc; 7; 2000]?)?;
    let expected = leaked(alloc, vec![in alloc; 7; 2000]?)?;
    message.encode(out)?;
    expected.extend_from_slice(WRITTEN)?;
    Ok(out.as_slice() == expected.as_slice() && is_written(alloc, message, WRITTEN)?)
}

/// Whether a copy equals the message, and equals a new one of the built-in type once it is cleared.
fn is_copied(alloc: Global, message: &DynamicMessage, name: &str) -> Result<bool, Fail> {
    let copied = leaked(alloc, message.clone()?)?;
    let is_equal = *copied == *message;
    copied.clear();
    let found = builtin(alloc, name)?;
    Ok(is_equal && *copied == DynamicMessage::new(alloc, found.clone()?))
}

/// Whether of the message of the built-in type that the bytes mean a field of the number 5 is there, and one unknown field of
/// the number 10, and both are written and copied.
fn is_relayed(alloc: Global, name: &str, bytes: &[u8]) -> Result<bool, Fail> {
    let message = builtin_message(alloc, name, bytes)?;
    let present = [PresentNumber::Field(5), PresentNumber::Unknown(10, 1)];
    let are_present = message.present_numbers(alloc)?.as_slice() == present.as_slice();
    Ok(are_present && is_appended(alloc, message)? && is_copied(alloc, message, name)?)
}

/// Bytes of a message with oneofs and fields of an enum that declares 0 and 1, and what is written of it: an undeclared number
/// stays and clears nothing.
static RELAYED: [(&[u8], &[u8]); 3] = [
    (b"\x28\x01\x28\x07\x28\x00", b"\x28\x00\x28\x07"),
    (b"\x30\x01\x40\x07", b"\x30\x01\x40\x07"),
    (b"\x30\x01\x40\x07\x40\x01", b"\x40\x01\x40\x07"),
];

/// The worked example of the README, among others.
#[test]
fn messages_are_read_and_written(rt: HostRuntime) -> Result<(), Fail> {
    for bytes in READ {
        assert!(rt; is_relayed(rt.alloc(), "builtin.Plain", bytes)?);
        assert!(rt; is_relayed(rt.alloc(), "builtin.Kept", bytes)?);
    }
    for (bytes, written) in &RELAYED {
        assert!(rt; is_written(rt.alloc(), choices(rt.alloc(), bytes)?, written)?);
    }
    Ok(())
}

/// Whether the field 5 is 150, and is then set to 7 and written so.
fn is_changed(alloc: Global, message: &mut DynamicMessage) -> Result<bool, Fail> {
    let number = int(alloc, 150)?;
    let was_150 = shows(alloc, message, Named::Number(5), number, true)?;
    message.try_set_field_by_number(5, Value::I32(7))?;
    Ok(was_150 && is_written(alloc, message, &[0x28, 7, 0x50, 3])?)
}

/// The edit of the README, by the calls of the library. A fault is named.
#[test]
fn a_field_is_changed(rt: HostRuntime) -> Result<(), Fail> {
    let message = builtin_message(rt.alloc(), "builtin.Plain", b"\x50\x83\x00\x28\x96\x01")?;
    assert!(rt; is_changed(rt.alloc(), message)?);
    let kept = builtin(rt.alloc(), "builtin.Kept")?;
    let fault = DynamicMessage::decode(rt.alloc(), kept.clone()?, &[0x28]).err();
    assert_eq!(rt; fault, Some(DecodeError::Truncated));
    Ok(())
}
