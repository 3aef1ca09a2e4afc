//! What `protoc` prints of floats, and of messages whose types are not known.

mod cases;

use cases::{DOUBLES, FLOATS, RAWS};
use prototool_commands::{double_text, float_text, raw_text};
use std::alloc::Global;
use std::test::Fail;

/// Whether the bits of each double of the table are printed as there.
fn doubles_agree(alloc: Global) -> Result<bool, Fail> {
    for row in DOUBLES.iter() {
        if double_text(alloc, row.0)?.as_str() != row.1 {
            return Ok(false);
        }
    }
    Ok(true)
}

/// Whether the bits of each float of the table are printed as there.
fn floats_agree(alloc: Global) -> Result<bool, Fail> {
    for row in FLOATS.iter() {
        if float_text(alloc, row.0)?.as_str() != row.1 {
            return Ok(false);
        }
    }
    Ok(true)
}

/// Whether the bytes of each message of the table are printed as there.
fn raws_agree(alloc: Global) -> Result<bool, Fail> {
    for row in RAWS.iter() {
        let bytes = hex::decode(alloc, row.0)?;
        if raw_text(alloc, bytes.as_slice())?.as_str() != row.1 {
            return Ok(false);
        }
    }
    Ok(true)
}

#[test]
fn floats_are_printed_by_their_bits(rt: HostRuntime) -> Result<(), Fail> {
    assert!(rt; doubles_agree(rt.alloc())?);
    assert!(rt; floats_agree(rt.alloc())?);
    Ok(())
}

#[test]
fn messages_of_no_type_are_printed(rt: HostRuntime) -> Result<(), Fail> {
    assert!(rt; raws_agree(rt.alloc())?);
    Ok(())
}
