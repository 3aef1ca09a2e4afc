//! What is printed of pairs of schemas.

mod cases;

use cases::{ROWS, Row};
use prost_reflect::{DescriptorPool, builtin_pool};
use prototool_commands::{Refusal, comparison};
use std::alloc::Global;
use std::test::Fail;

/// The pool of a descriptor set in hex digits.
fn pool_of(alloc: Global, digits: &str) -> Result<DescriptorPool, Fail> {
    let set = hex::decode(alloc, digits)?;
    Ok(DescriptorPool::decode(alloc, set.as_slice())?)
}

/// Whether a pair of sets is compared as the row says: with these lines, and passing where none of them says that a type fails.
fn agrees(alloc: Global, row: &Row) -> Result<bool, Fail> {
    let older = pool_of(alloc, row.0)?;
    let newer = pool_of(alloc, row.1)?;
    let Ok(answer) = comparison(alloc, &older, &newer, None) else {
        return Ok(false);
    };
    Ok(answer.bytes.as_slice() == row.2.as_bytes() && answer.passes != row.2.contains(" fails: "))
}

/// The lines of the first row that is compared otherwise.
fn otherwise(alloc: Global) -> Result<Option<&'static str>, Fail> {
    for row in ROWS.iter() {
        if !agrees(alloc, row)? {
            return Ok(Some(row.2));
        }
    }
    Ok(None)
}

/// Whether the message type of the name in the built-in pool, compared with itself, has this line.
fn has_line(alloc: Global, name: &str, line: &str) -> Result<bool, Fail> {
    let pool = builtin_pool(alloc)?;
    match comparison(alloc, &pool, &pool, Some(name)) {
        Ok(answer) => Ok(answer.passes && answer.bytes.as_slice() == line.as_bytes()),
        Err(_) => Ok(false),
    }
}

/// Whether a name of no message type is refused.
fn is_refused(alloc: Global, name: &str) -> Result<bool, Fail> {
    let pool = builtin_pool(alloc)?;
    Ok(matches!(
        comparison(alloc, &pool, &pool, Some(name)),
        Err(Refusal::Name)
    ))
}

#[test]
fn schemas_are_compared(rt: HostRuntime) -> Result<(), Fail> {
    assert_eq!(rt; otherwise(rt.alloc())?, None);
    Ok(())
}

#[test]
fn one_type_is_compared(rt: HostRuntime) -> Result<(), Fail> {
    assert!(rt; has_line(rt.alloc(), "builtin.Plain", "builtin.Plain passes\n")?);
    assert!(rt; is_refused(rt.alloc(), "builtin.None")?);
    Ok(())
}
