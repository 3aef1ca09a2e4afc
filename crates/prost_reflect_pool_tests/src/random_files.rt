//! Sets of files that name and extend one another's message types.

use crate::batches::{Dice, bit};
use crate::many::append;
use prost_reflect_samples::leaked;
use std::alloc::{AllocError, Global};

/// How many files a set has.
const COUNT: u8 = 12;

/// The letter of the file at a place: in the order of the letters the files stand otherwise than in the set.
fn letter(place: u8) -> u8 {
    b'a' + place % COUNT * 5 % COUNT
}

/// A file to be: its place, its letter, that of a file before it, or its own, and bits.
#[derive(Clone, Copy)]
struct Sketch {
    place: u8,
    own: u8,
    other: u8,
    bits: u32,
}

impl Sketch {
    /// Whether the bit of the place is set.
    fn has(&self, place: usize) -> bool {
        self.bits & bit(place) != 0
    }
}

/// The fields of a message type that stand in its oneof, and others.
fn append_fields(out: &mut Vec<u8>, sketch: &Sketch) -> Result<(), AllocError> {
    let other = sketch.other;
    let enumeration = [
        0x12, 18, 0x0a, 1, b'd', 0x18, 50, 0x20, 1, 0x28, 14, 0x32, 5, b'.', b'p', b'.', b'E',
        other, 0x48, 0,
    ];
    if sketch.has(0) {
        out.extend_from_slice(&enumeration)?;
    }
    out.extend_from_slice(&[
        0x12, 18, 0x0a, 1, b'b', 0x18, 10, 0x20, 1, 0x28, 11, 0x32, 5, b'.', b'p', b'.', b'M',
        other, 0x48, 0,
    ])?;
    out.extend_from_slice(&[0x12, 9, 0x0a, 1, b'a', 0x18, 5, 0x20, 3, 0x28, 5])?;
    if !sketch.has(0) {
        out.extend_from_slice(&enumeration)?;
    }
    out.extend_from_slice(&[0x12, 11, 0x0a, 1, b'c', 0x18, 30, 0x20, 1, 0x28, 9, 0x48, 0])
}

/// An extension of the other file's message type: its sort and the letters of both files are its name, and its number is behind
/// one of the numbers of that type's oneof.
fn append_extension(
    out: &mut Vec<u8>,
    key: u8,
    sort: u8,
    number: u8,
    sketch: &Sketch,
) -> Result<(), AllocError> {
    let (own, other) = (sketch.own, sketch.other);
    out.extend_from_slice(&[
        key, 18, 0x0a, 3, sort, own, other, 0x12, 5, b'.', b'p', b'.', b'M', other, 0x18, number,
        0x20, 1, 0x28, 5,
    ])
}

/// `message MX { .. }` for the letter `X`: with fields, a oneof, extension ranges between the numbers of its members, and perhaps
/// an extension, and a message type `N` with an enum `E`.
fn append_message(out: &mut Vec<u8>, sketch: &Sketch) -> Result<(), AllocError> {
    let message = leaked(*out.allocator(), Vec::new(*out.allocator()))?;
    message.extend_from_slice(&[0x0a, 2, b'M', sketch.own])?;
    append_fields(message, sketch)?;
    message.extend_from_slice(&[0x2a, 4, 0x08, 11, 0x10, 30, 0x2a, 4, 0x08, 31, 0x10, 50])?;
    message.extend_from_slice(&[0x42, 3, 0x0a, 1, b'o'])?;
    if sketch.has(1) {
        append_extension(message, 0x32, b'y', 31 + sketch.place % COUNT, sketch)?;
    }
    if sketch.has(2) {
        message.extend_from_slice(b"\x1a\x0f\x0a\x01N\x22\x0a\x0a\x01E\x12\x05\x0a\x01A\x10\x00")?;
    }
    append(out, 0x22, message)
}

/// `enum EX { VX = 1; WX = 0; }` and `service SX { rpc g(MY) returns (MX); }` for the letters `X` of the file and `Y` of the other.
fn append_others(out: &mut Vec<u8>, sketch: &Sketch) -> Result<(), AllocError> {
    let (own, other) = (sketch.own, sketch.other);
    out.extend_from_slice(&[
        0x2a, 20, 0x0a, 2, b'E', own, 0x12, 6, 0x0a, 2, b'V', own, 0x10, 1, 0x12, 6, 0x0a, 2, b'W',
        own, 0x10, 0,
    ])?;
    if sketch.has(3) {
        out.extend_from_slice(&[
            0x32, 23, 0x0a, 2, b'S', own, 0x12, 17, 0x0a, 1, b'g', 0x12, 5, b'.', b'p', b'.', b'M',
            other, 0x1a, 5, b'.', b'p', b'.', b'M', own,
        ])?;
    }
    if sketch.has(4) {
        append_extension(out, 0x3a, b'x', 11 + sketch.place % COUNT, sketch)?;
    }
    if sketch.has(5) && sketch.has(6) {
        out.extend_from_slice(b"b\x06proto3")?;
    }
    Ok(())
}

/// The file at a place, whose name is its letter: in the package `p`, and it depends on some of the files before it.
fn append_file(set: &mut Vec<u8>, place: u8, dice: &mut Dice) -> Result<(), AllocError> {
    let own = letter(place);
    let file = leaked(*set.allocator(), Vec::new(*set.allocator()))?;
    file.extend_from_slice(&[0x0a, 1, own, 0x12, 1, b'p'])?;
    let needs = dice.bits() & dice.bits();
    let mut other = own;
    for before in 0..place {
        if needs & bit(usize::from(before)) != 0 {
            other = letter(before);
            file.extend_from_slice(&[0x1a, 1, other])?;
        }
    }
    let bits = dice.bits();
    let sketch = Sketch {
        place,
        own,
        other,
        bits,
    };
    append_message(file, &sketch)?;
    append_others(file, &sketch)?;
    append(set, 0x0a, file)
}

/// A set of files that were made by chance.
pub(crate) fn random_set(alloc: Global, dice: &mut Dice) -> Result<&'static Vec<u8>, AllocError> {
    let set = leaked(alloc, Vec::new(alloc))?;
    for place in 0..COUNT {
        append_file(set, place, dice)?;
    }
    Ok(set)
}
