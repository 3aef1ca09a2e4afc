//! Which place of a fault is named.

use prost_reflect::{DecodeError, builtin_pool};
use prototool_commands::{Refusal, with_place};
use std::alloc::Global;
use std::test::Fail;

/// The line for bytes that `builtin.Plain` does not accept.
fn line(alloc: Global, bytes: &[u8]) -> Result<String, Fail> {
    let found = builtin_pool(alloc)?.get_message_by_name("builtin.Plain")?;
    let plain = found.ok_or("no builtin.Plain")?;
    let refusal = with_place(alloc, plain, bytes, Refusal::Decode(DecodeError::Key));
    Ok(format!(in alloc; "{refusal}")?)
}

/// The type knows no group of the number 10, and so no names inside of it.
#[test]
fn the_place_of_a_fault_is_named(rt: HostRuntime) -> Result<(), Fail> {
    let alloc = rt.alloc();
    assert!(rt; line(alloc, &[0x28, 7, 0x28])?.as_str() == "refused decode Truncated at 2");
    assert!(rt; line(alloc, &[0x53, 0])?.as_str() == "refused decode Key at 1 in 10");
    Ok(())
}
