//! Tests that a path is found, and that what is left of a message is written.

mod cases;

use cases::{NOWHERE, ROWS, Row, SET};
use prost_reflect::{DescriptorPool, MessageDescriptor, builtin_pool};
use prototool_commands::{numbers_of, redacted};
use std::alloc::Global;
use std::test::Fail;

/// The message type of the tables, lent to the end of the run, so that no test has to drop it.
fn user(alloc: Global) -> Result<&'static MessageDescriptor, Fail> {
    let set = hex::decode(alloc, SET)?;
    let pool = DescriptorPool::decode(alloc, set.as_slice())?;
    let pool = Box::leak(Box::new(alloc, pool)?);
    let found = pool.get_message_by_name("t.User")?;
    Ok(Box::leak(Box::new(alloc, found.ok_or("no t.User")?)?))
}

/// Whether what the row says is left of its message.
fn agrees(alloc: Global, user: &MessageDescriptor, row: &Row) -> Result<bool, Fail> {
    let mut paths = Vec::new(alloc);
    for path in row.0.split(' ') {
        paths.push(numbers_of(alloc, user, path)?.ok_or("no field")?)?;
    }
    let bytes = hex::decode(alloc, row.1)?;
    let written = redacted(alloc, user.clone()?, paths.as_slice(), bytes.as_slice())?;
    Ok(hex::encode(alloc, written.as_slice())?.as_str() == row.2)
}

/// The first message of which something else is left, or the first path of no field that leads to one.
fn otherwise(alloc: Global) -> Result<Option<&'static str>, Fail> {
    let user = user(alloc)?;
    for row in ROWS.iter() {
        if !agrees(alloc, user, row)? {
            return Ok(Some(row.1));
        }
    }
    for path in NOWHERE.iter() {
        if numbers_of(alloc, user, path)?.is_some() {
            return Ok(Some(*path));
        }
    }
    Ok(None)
}

#[test]
fn a_field_is_cleared(rt: HostRuntime) -> Result<(), Fail> {
    let alloc = rt.alloc();
    let found = builtin_pool(alloc)?.get_message_by_name("builtin.Plain")?;
    let plain = found.ok_or("no builtin.Plain")?;
    let numbers = numbers_of(alloc, &plain, "f_int32")?.ok_or("no f_int32")?;
    let paths = vec![in alloc; numbers]?;
    let written = redacted(
        alloc,
        plain,
        paths.as_slice(),
        &[0x50, 0x83, 0, 0x28, 0x96, 1],
    )?;
    assert!(rt; written.as_slice() == [0x50, 3].as_slice());
    Ok(())
}

#[test]
fn paths_of_names_are_cleared(rt: HostRuntime) -> Result<(), Fail> {
    assert_eq!(rt; otherwise(rt.alloc())?, None);
    Ok(())
}
