//! A descriptor set with many definitions of each sort: what is told of them, and what is found by each name and number.

use crate::describe::describe;
use crate::found::{found_by_number, found_in_enum, found_in_message, found_in_pool};
use crate::named::{is_its_copy, lent, message_of, pool_of};
use prost_reflect::{
    DescriptorPool, Descriptors, EnumDescriptor, FileDescriptor, MessageDescriptor, Placed,
    ServiceDescriptor,
};
use prost_reflect_samples::leaked;
use std::alloc::{AllocError, Global};
use std::test::Fail;

/// How many definitions of each sort there are.
const COUNT: u8 = 60;

/// The two letters of a place.
fn letters(place: u8) -> [u8; 2] {
    [b'a' + place / 26, b'a' + place % 26]
}

/// Appends what stands at a place in a list of a sort, behind its key and its length. A definition has the letter of its sort
/// and those of its place as its name. The sorts `m`, `n`, `o`, `s` and `q`, which are message types, oneofs, services and
/// files, have nothing else.
fn append_item(out: &mut Vec<u8>, key: u8, sort: u8, place: u8) -> Result<(), AllocError> {
    let [high, low] = letters(place);
    let next = place % 64 + 1;
    match sort {
        b'f' | b'x' | b'y' => append_field(out, key, sort, place),
        // Enums with one value.
        b'e' => out.extend_from_slice(&[
            key, 14, 0x0a, 3, sort, high, low, 0x12, 7, 0x0a, 3, b'u', high, low, 0x10, 0,
        ]),
        b'c' => out.extend_from_slice(&[
            key, 14, 0x0a, 3, sort, high, low, 0x12, 7, 0x0a, 3, b'w', high, low, 0x10, 0,
        ]),
        // A value.
        b'v' => out.extend_from_slice(&[key, 7, 0x0a, 3, sort, high, low, 0x10, place]),
        // A method.
        b'g' => out.extend_from_slice(&[
            key, 17, 0x0a, 3, sort, high, low, 0x12, 4, b'.', b'p', b'.', b'M', 0x1a, 4, b'.',
            b'p', b'.', b'N',
        ]),
        // A reserved name, and the name of a file `q`.
        b'r' => out.extend_from_slice(&[key, 3, sort, high, low]),
        b'd' => out.extend_from_slice(&[key, 3, b'q', high, low]),
        // A range of one number, of those from 1 on and of those from 61 on.
        b'1' => out.extend_from_slice(&[key, 4, 0x08, next, 0x10, next + 1]),
        b'6' => out.extend_from_slice(&[key, 4, 0x08, next + 60, 0x10, next + 61]),
        // The place alone.
        b'0' => out.extend_from_slice(&[key, place]),
        _ => out.extend_from_slice(&[key, 5, 0x0a, 3, sort, high, low]),
    }
}

/// Appends a field, or an extension, as `append_item` does.
fn append_field(out: &mut Vec<u8>, key: u8, sort: u8, place: u8) -> Result<(), AllocError> {
    let [high, low] = letters(place);
    let next = place % 64 + 1;
    match sort {
        // A field of int32 in the oneof of its place.
        b'f' => out.extend_from_slice(&[
            key, 13, 0x0a, 3, sort, high, low, 0x18, next, 0x20, 1, 0x28, 5, 0x48, place,
        ]),
        // Extensions of `p.M` and of `p.N`.
        b'x' => out.extend_from_slice(&[
            key,
            17,
            0x0a,
            3,
            sort,
            high,
            low,
            0x12,
            4,
            b'.',
            b'p',
            b'.',
            b'M',
            0x20,
            1,
            0x28,
            5,
            0x18,
            next + 60,
        ]),
        _ => out.extend_from_slice(&[
            key, 17, 0x0a, 3, sort, high, low, 0x12, 4, b'.', b'p', b'.', b'N', 0x20, 1, 0x28, 5,
            0x18, next,
        ]),
    }
}

/// Appends lists, each of its key and its sort.
fn append_lists(out: &mut Vec<u8>, lists: &[(u8, u8)]) -> Result<(), AllocError> {
    for (key, sort) in lists {
        for place in 0..COUNT {
            append_item(out, *key, *sort, place)?;
        }
    }
    Ok(())
}

/// Appends a record behind its key and its length, for which three bytes are taken.
pub(crate) fn append(out: &mut Vec<u8>, key: u8, record: &[u8]) -> Result<(), AllocError> {
    let length = record.len();
    let low = (length % 128) as u8 + 128;
    let middle = (length / 128 % 128) as u8 + 128;
    out.extend_from_slice(&[key, low, middle, (length / 16384 % 128) as u8])?;
    out.extend_from_slice(record)
}

/// The bytes in front, with lists behind them.
fn with_lists(
    alloc: Global,
    front: &[u8],
    lists: &[(u8, u8)],
) -> Result<&'static mut Vec<u8>, AllocError> {
    let record = leaked(alloc, Vec::from_slice(alloc, front)?)?;
    append_lists(record, lists)?;
    Ok(record)
}

/// The keys of definitions in `m.proto`, what is in front of their lists, and the lists: `M`, with fields `f`, each in a oneof
/// `o`, message types `m`, enums `e` with a value `u`, extensions `x` of its own, whose ranges begin at 61, reserved ranges from
/// 1 on, and reserved names `r`; `N`, with extension ranges; `E` with values `v`, and `S` with methods `g`.
static PARTS: [(u8, &[u8], &[(u8, u8)]); 4] = [
    (
        0x22,
        b"\x0a\x01M",
        &[
            (0x12, b'f'),
            (0x1a, b'm'),
            (0x22, b'e'),
            (0x2a, b'6'),
            (0x32, b'x'),
            (0x42, b'o'),
            (0x4a, b'1'),
            (0x52, b'r'),
        ],
    ),
    (0x22, b"\x0a\x01N\x2a\x04\x08\x01\x10\x7f", &[]),
    (0x2a, b"\x0a\x01E", &[(0x12, b'v')]),
    (0x32, b"\x0a\x01S", &[(0x12, b'g')]),
];

/// The lists of `m.proto` itself: files `q`, on which it depends, publicly, message types `n`, enums `c` with a value `w`,
/// services `s` and extensions `y` of `N`.
static LISTS: [(u8, u8); 6] = [
    (0x1a, b'd'),
    (0x22, b'n'),
    (0x2a, b'c'),
    (0x32, b's'),
    (0x3a, b'y'),
    (0x50, b'0'),
];

/// The pool of `m.proto`, of proto2, in `p`, and of the files `q`.
fn pool_of_many(alloc: Global) -> Result<&'static DescriptorPool, Fail> {
    let file = with_lists(alloc, b"\x0a\x07m.proto\x12\x01p", &[])?;
    for (key, front, lists) in &PARTS {
        append(file, *key, with_lists(alloc, front, lists)?)?;
    }
    append_lists(file, &LISTS)?;
    let set = leaked(alloc, Vec::new(alloc))?;
    append(set, 0x0a, file)?;
    append_lists(set, &[(0x0a, b'q')])?;
    pool_of(alloc, set)
}

/// A name of the letters of a place.
fn name_at(alloc: Global, front: &str, place: u8, end: &str) -> Result<&'static str, AllocError> {
    let [high, low] = letters(place);
    let (high, low) = (high as char, low as char);
    let name = format!(in alloc; "{front}{high}{low}{end}")?;
    Ok(leaked(alloc, name)?.as_str())
}

/// What stands in front of the names of files, message types, enums, extensions and services, and what is found by them.
static NAMES: [(&str, [u8; 5]); 5] = [
    ("q", [1, 0, 0, 0, 0]),
    ("p.M.m", [0, 1, 0, 0, 0]),
    ("p.c", [0, 0, 1, 0, 0]),
    ("p.y", [0, 0, 0, 1, 0]),
    ("p.s", [0, 0, 0, 0, 1]),
];

/// Whether the definitions of the place are found in the pool by their names.
fn are_in_pool(alloc: Global, pool: &DescriptorPool, place: u8) -> Result<bool, AllocError> {
    let mut all = true;
    for (front, found) in &NAMES {
        let name = name_at(alloc, front, place, "")?;
        all &= found_in_pool(pool, name)? == *found;
    }
    Ok(all)
}

/// Whether the field and the extension of the place are found in `M` by their numbers and names.
fn are_in_message(
    alloc: Global,
    message: &MessageDescriptor,
    place: u8,
) -> Result<bool, AllocError> {
    let (field, extension) = (u32::from(place) + 1, u32::from(place) + 61);
    let name = name_at(alloc, "f", place, "")?;
    let full_name = name_at(alloc, "p.M.x", place, "")?;
    let bracketed = name_at(alloc, "[p.M.x", place, "]")?;
    let named = found_in_message(message, name)? == [field, field, 0, 0];
    let extended = found_in_message(message, full_name)? == [0, 0, extension, 0];
    let by_json = found_in_message(message, bracketed)? == [0, 0, 0, extension];
    let numbered = found_by_number(message, field, name)? == [1, 0];
    let by_number = found_by_number(message, extension, full_name)? == [0, 1];
    Ok(named && extended && by_json && numbered && by_number)
}

/// Whether the value of the place is found in `E` by its number and its name.
fn is_in_enum(alloc: Global, found: &EnumDescriptor, place: u8) -> Result<bool, Fail> {
    let name = name_at(alloc, "v", place, "")?;
    let number = i32::from(place);
    let named = lent(alloc, found.get_value_by_name(name))?;
    Ok(named.number() == number && found_in_enum(found, name, number, name)? == [1, 1])
}

#[test]
fn many_definitions_are_found(rt: HostRuntime) -> Result<(), Fail> {
    let pool = pool_of_many(rt.alloc())?;
    let message = message_of(rt.alloc(), pool, "p.M")?;
    let found = lent(rt.alloc(), pool.get_enum_by_name("p.E"))?;
    for place in 0..COUNT {
        assert!(rt; are_in_pool(rt.alloc(), pool, place)?, "{place}");
        assert!(rt; are_in_message(rt.alloc(), message, place)?, "{place}");
        assert!(rt; is_in_enum(rt.alloc(), found, place)?, "{place}");
    }
    Ok(())
}

/// How many lines describe the pool, each with its end.
fn count_lines(alloc: Global, pool: &DescriptorPool) -> Result<usize, AllocError> {
    let mut count: usize = 0;
    for byte in describe(alloc, pool)?.as_bytes() {
        if *byte == b'\n' {
            count = count.wrapping_add(1);
        }
    }
    Ok(count)
}

/// The values of `E` are listed from 0 on, and so many.
fn lists_values(found: &EnumDescriptor) -> Result<bool, AllocError> {
    let mut next: i32 = 0;
    let mut all = true;
    for value in found.values() {
        all &= value?.number() == next;
        next = next.wrapping_add(1);
    }
    Ok(all && next == 60)
}

/// How many methods the service has whose input is `M`.
fn count_methods(alloc: Global, service: &ServiceDescriptor) -> Result<usize, AllocError> {
    let mut count: usize = 0;
    for method in service.methods() {
        if leaked(alloc, method?)?.input()?.name() == "M" {
            count = count.wrapping_add(1);
        }
    }
    Ok(count)
}

/// How many definitions are listed.
fn count_listed<P, D: Placed<P> + Drop>(
    definitions: Descriptors<'_, P, D>,
) -> Result<usize, AllocError> {
    let mut count: usize = 0;
    for definition in definitions {
        drop(definition?);
        count = count.wrapping_add(1);
    }
    Ok(count)
}

/// How many methods of `S`, dependencies and public dependencies there are.
fn counts(alloc: Global, pool: &DescriptorPool, file: &FileDescriptor) -> Result<[usize; 3], Fail> {
    let methods = count_methods(alloc, lent(alloc, pool.get_service_by_name("p.S"))?)?;
    Ok([
        methods,
        count_listed(file.dependencies())?,
        count_listed(file.public_dependencies())?,
    ])
}

/// Whether the pool, and its first file, are written behind 2000 bytes as they are alone.
fn are_appended(alloc: Global, pool: &DescriptorPool, file: &FileDescriptor) -> Result<bool, Fail> {
    let out = leaked(alloc, vec![in alloc; 7; 2000]?)?;
    let expected = leaked(alloc, vec![in alloc; 7; 2000]?)?;
    pool.encode(out)?;
    expected.extend_from_slice(pool.encode_to_vec(alloc)?.as_slice())?;
    file.encode(out)?;
    expected.extend_from_slice(file.encode_to_vec(alloc)?.as_slice())?;
    Ok(out.as_slice() == expected.as_slice())
}

/// Whether the pool that is written makes an equal one, whose copy is equal.
fn is_read_back(alloc: Global, pool: &DescriptorPool) -> Result<bool, Fail> {
    let written = leaked(alloc, pool.encode_to_vec(alloc)?)?;
    let again = pool_of(alloc, written)?;
    Ok(*again == *pool && is_its_copy(again)?)
}

/// There is a line for each of 61 files, 122 message types, 60 fields, 60 oneofs, 120 extensions, 121 enums, 180 values, 61
/// services and 60 methods. A type of many fields is its own reduction.
#[test]
fn many_definitions_are_told_listed_and_written(rt: HostRuntime) -> Result<(), Fail> {
    let pool = pool_of_many(rt.alloc())?;
    assert_eq!(rt; count_lines(rt.alloc(), pool)?, 845);
    assert!(rt; lists_values(lent(rt.alloc(), pool.get_enum_by_name("p.E"))?)?);
    let file = lent(rt.alloc(), pool.get_file_by_name("m.proto"))?;
    assert_eq!(rt; counts(rt.alloc(), pool, file)?, [60; 3]);
    assert!(rt; are_appended(rt.alloc(), pool, file)?);
    assert!(rt; is_read_back(rt.alloc(), pool)?);
    let many_fields = message_of(rt.alloc(), pool, "p.M")?;
    assert!(rt; many_fields.is_reduction_of(many_fields)?);
    Ok(())
}
