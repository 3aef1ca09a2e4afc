//! Messages and descriptor sets of some megabytes.

use crate::worked::{is_rewritten, lent};
use prost_reflect::DescriptorPool;
use std::alloc::Global;
use std::process::Abort;

/// How many bytes the one record of each message has behind its length.
const LENGTH: usize = 2_000_000;

/// Message types, the key of a delimited record of the number 1 or 5, and a byte that fills it: a text, the elements of a
/// packed list, and bytes that no field knows.
static FILLED: [(&str, u8, u8); 3] = [
    ("a.S", 0x0a, b'x'),
    ("a.Foo", 0x0a, 0x05),
    ("package.MyMessage", 0x2a, 0xff),
];

/// Whether the key, the length and so many times the byte are written again.
fn is_filled(rt: &impl Abort, alloc: Global, row: &(&str, u8, u8)) -> bool {
    let (name, key, byte) = *row;
    let mut bytes = vec![in alloc; key, 0x80, 0x89, 0x7a].expect(rt, "memory");
    let filling = vec![in alloc; byte; LENGTH].expect(rt, "memory");
    bytes
        .extend_from_slice(filling.as_slice())
        .expect(rt, "memory");
    is_rewritten(rt, alloc, name, bytes.as_slice(), bytes.as_slice())
}

#[test]
fn megabytes_are_written_again(rt: HostRuntime) {
    for row in &FILLED {
        assert!(rt; is_filled(&rt, rt.alloc(), row), "{}", row.0);
    }
}

/// How many message types the descriptor set has.
const TYPES: usize = 2_000;

/// The four letters of a number below 456,976.
fn letters(number: usize) -> [u8; 4] {
    [
        (number / 17_576 % 26) as u8 + b'a',
        (number / 676 % 26) as u8 + b'a',
        (number / 26 % 26) as u8 + b'a',
        (number % 26) as u8 + b'a',
    ]
}

/// A descriptor set of the file `f` with message types whose names are 996 times `T` and four letters.
fn set_of_types(rt: &impl Abort, alloc: Global) -> &'static [u8] {
    let front = lent(rt, alloc, vec![in alloc; b'T'; 996].expect(rt, "memory"));
    let bytes = lent(rt, alloc, Vec::new(alloc));
    // The record of each takes 1,006 bytes, and the name of the file 3: in all 2,012,003.
    bytes
        .extend_from_slice(b"\x0a\xe3\xe6\x7a\x0a\x01f")
        .expect(rt, "memory");
    for number in 0..TYPES {
        bytes
            .extend_from_slice(b"\x22\xeb\x07\x0a\xe8\x07")
            .expect(rt, "memory");
        bytes
            .extend_from_slice(front.as_slice())
            .expect(rt, "memory");
        bytes
            .extend_from_slice(&letters(number))
            .expect(rt, "memory");
    }
    bytes.as_slice()
}

/// Whether the pool finds the last of its message types, whose name ends so, by its name.
fn finds_last(rt: &impl Abort, alloc: Global, pool: &DescriptorPool, end: &str) -> bool {
    let last = pool.all_messages().last().expect(rt, "a type");
    let last = lent(rt, alloc, last.expect(rt, "memory"));
    let found = pool.get_message_by_name(last.name()).expect(rt, "memory");
    let found = lent(rt, alloc, found.expect(rt, "a type"));
    last.name().ends_with(end) && *found == *last
}

#[test]
fn a_pool_of_megabytes_is_made(rt: HostRuntime) {
    let alloc = rt.alloc();
    let bytes = set_of_types(&rt, alloc);
    let pool = lent(
        &rt,
        alloc,
        DescriptorPool::decode(alloc, bytes).expect(&rt, "a pool"),
    );
    let written = lent(&rt, alloc, pool.encode_to_vec(alloc).expect(&rt, "memory"));
    assert!(rt; pool.all_messages().len() == TYPES);
    assert!(rt; finds_last(&rt, alloc, pool, "acyx"));
    assert!(rt; written.as_slice() == bytes);
}

/// Records of 150 numbers that no field of `a.Q` has, so many that a message keeps them in runs.
fn append_numbers(rt: &impl Abort, bytes: &mut Vec<u8>) {
    for number in 16..166_u32 {
        let key = number * 8;
        let record = [(key % 128) as u8 | 0x80, (key / 128) as u8, 1];
        bytes.extend_from_slice(&record).expect(rt, "memory");
    }
}

/// Records of both members of a oneof, and the one that stays.
static MEMBERS: [(&[u8], &[u8]); 2] = [
    (b"\x08\x01\x12\x00", b"\x12\x00"),
    (b"\x12\x00\x08\x01", b"\x08\x01"),
];

/// Whether the last member stays, also beside many numbers.
fn stays(rt: &impl Abort, alloc: Global, members: &[u8], last: &[u8]) -> bool {
    let mut bytes = Vec::new(alloc);
    append_numbers(rt, &mut bytes);
    bytes.extend_from_slice(members).expect(rt, "memory");
    let mut expected = Vec::from_slice(alloc, last).expect(rt, "memory");
    append_numbers(rt, &mut expected);
    is_rewritten(rt, alloc, "a.Q", bytes.as_slice(), expected.as_slice())
}

#[test]
fn a_member_replaces_another_beside_many_numbers(rt: HostRuntime) {
    for (members, last) in &MEMBERS {
        assert!(rt; stays(&rt, rt.alloc(), members, last));
    }
}
