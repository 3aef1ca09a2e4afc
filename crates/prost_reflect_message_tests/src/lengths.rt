//! How long the encoding of a message is, and what is present in it.

use crate::types::{T, lent_message};
use prost_reflect::PresentNumber;
use std::alloc::Global;
use std::process::Abort;

/// Bytes that are read as a message, how many bytes it is written in, and what is present in it.
static MESSAGES: [(&[u8], usize, &[PresentNumber]); 14] = [
    (&[], 0, &[]),
    // 5, 300 and -1, and 0 in a field without presence
    (&[0x18, 5], 2, &[PresentNumber::Field(3)]),
    (&[0x18, 0xac, 2], 3, &[PresentNumber::Field(3)]),
    (
        &[
            0x18, 0xff, 0xff, 0xff, 0xff, 0xff, 0xff, 0xff, 0xff, 0xff, 1,
        ],
        11,
        &[PresentNumber::Field(3)],
    ),
    (&[0x18, 0], 0, &[]),
    // 1 and 2 in a packed record, which is also what two records are written as
    (&[0x0a, 2, 1, 2], 4, &[PresentNumber::Field(1)]),
    (&[8, 1, 8, 2], 4, &[PresentNumber::Field(1)]),
    // no element in a packed record, and 0 in a field without presence
    (&[0x0a, 0, 0x18, 0], 0, &[]),
    // an entry
    (&[0x12, 4, 8, 1, 0x10, 2], 6, &[PresentNumber::Field(2)]),
    // a message in a message in a message
    (
        &[0x22, 5, 0x22, 3, 0x18, 0xac, 2],
        7,
        &[PresentNumber::Field(4)],
    ),
    // unknown fields: 150 twice, a group that holds a number, and 1 in a message
    (
        &[0x28, 0x96, 1, 0x28, 0x96, 1],
        6,
        &[PresentNumber::Unknown(5, 2)],
    ),
    (&[0x2b, 8, 1, 0x2c], 4, &[PresentNumber::Unknown(5, 1)]),
    (
        &[0x18, 5, 0x22, 2, 0x28, 1],
        6,
        &[PresentNumber::Field(3), PresentNumber::Field(4)],
    ),
    // an element 0, an entry of the key 0, the number 1, an empty message, and two unknown fields of the number 5
    (
        &[0x28, 0, 0x22, 0, 0x18, 1, 0x12, 0, 0x08, 0, 0x28, 1],
        13,
        &[
            PresentNumber::Field(1),
            PresentNumber::Field(2),
            PresentNumber::Field(3),
            PresentNumber::Field(4),
            PresentNumber::Unknown(5, 2),
        ],
    ),
];

/// Whether the message that the bytes mean is written in so many bytes, and has just this.
fn has(
    rt: &impl Abort,
    alloc: Global,
    bytes: &[u8],
    len: usize,
    expected: &[PresentNumber],
) -> bool {
    let message = lent_message(rt, alloc, T, bytes);
    let is_long = message.is_encodable() && message.encoded_len() == Some(len);
    let present = message.present_numbers(alloc).expect(rt, "memory");
    present.as_slice() == expected && is_long
}

#[test]
fn lengths_and_what_is_present_are_told(rt: HostRuntime) {
    for (bytes, len, expected) in &MESSAGES {
        assert!(rt; has(&rt, rt.alloc(), bytes, *len, expected), "{bytes:?}");
    }
}
