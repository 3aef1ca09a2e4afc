//! Unknown fields of each form, short and long, and records with long lists.

use crate::encodings::is_behind;
use prost_reflect_proto::Proto;
use prost_reflect_types::FileDescriptorSet;
use prost_reflect_wire::{
    RECURSION_LIMIT, UnknownField, UnknownFieldSet, UnknownFieldValue, decode_key, decode_value,
};
use std::alloc::{AllocError, Global};
use std::test::Fail;

/// The bytes of a field, and its wire type (the encoding guide, "Message Structure").
static FORMS: [(&[u8], u8); 12] = [
    (b"\x08\x00", 0),
    (b"\x08\x96\x01", 0),
    (
        b"\xf8\xff\xff\xff\x0f\xff\xff\xff\xff\xff\xff\xff\xff\xff\x01",
        0,
    ),
    (b"\x11\x01\x02\x03\x04\x05\x06\x07\x08", 1),
    (b"\x1a\x00", 2),
    (b"\x1a\x03abc", 2),
    (b"\x23\x24", 3),
    (b"\x23\x08\x01\x24", 3),
    (b"\x23\x23\x24\x23\x1a\x01x\x24\x24", 3),
    (
        b"\x23\x11\x01\x02\x03\x04\x05\x06\x07\x08\x2d\x01\x02\x03\x04\x24",
        3,
    ),
    (b"\x2d\x01\x02\x03\x04", 5),
    (b"\x85\x01\x00\x00\x00\x00", 5),
];

/// Whether the field is of the wire type, and is written as the bytes behind what is there.
fn is_written(alloc: Global, field: &UnknownField, bytes: &[u8], code: u8) -> Result<bool, Fail> {
    let mut out = vec![in alloc; 7; 2000]?;
    field.encode(&mut out)?;
    let is_counted = field.encoded_len() == Some(bytes.len());
    Ok(field.wire_type().code() == code && is_counted && is_behind(out.as_slice(), bytes))
}

/// Whether the field and its value are equal to their copies.
fn is_copied(field: &UnknownField) -> Result<bool, AllocError> {
    let is_equal = field.clone()? == *field;
    Ok(field.value().clone()? == *field.value() && is_equal)
}

/// Whether the value is what stands behind the key of the bytes.
fn is_behind_key(alloc: Global, value: &UnknownFieldValue, bytes: &[u8]) -> Result<bool, Fail> {
    let (number, wire_type, rest) = decode_key(bytes)?;
    let (read, end) = decode_value(alloc, number, wire_type, rest, RECURSION_LIMIT)?;
    Ok(read == *value && end.is_empty())
}

/// Whether the bytes are one field of the wire type, which is carried.
fn is_field(alloc: Global, bytes: &[u8], code: u8) -> Result<bool, Fail> {
    let mut cursor = bytes;
    let field = UnknownField::decode(alloc, &mut cursor, RECURSION_LIMIT)?;
    let is_written = is_written(alloc, &field, bytes, code)?;
    let is_copied = is_copied(&field)?;
    Ok(is_behind_key(alloc, field.value(), bytes)? && is_written && is_copied && cursor.is_empty())
}

/// The field 3 with 5000 bytes.
fn long_bytes(alloc: Global) -> Result<Vec<u8>, AllocError> {
    let mut bytes = Vec::from_slice(alloc, &[0x1a, 0x88, 0x27])?;
    bytes.extend_from_slice(vec![in alloc; 0xff; 5000]?.as_slice())?;
    Ok(bytes)
}

/// The field 4, a group of 300 times these bytes.
fn long_group(alloc: Global, inside: &[u8]) -> Result<Vec<u8>, AllocError> {
    let mut bytes = Vec::from_slice(alloc, &[0x23])?;
    for _ in 0..300_u32 {
        bytes.extend_from_slice(inside)?;
    }
    bytes.push(0x24)?;
    Ok(bytes)
}

/// A hundred groups in one another.
fn deep_group(alloc: Global) -> Result<Vec<u8>, AllocError> {
    let mut bytes = vec![in alloc; 0x23; 100]?;
    bytes.extend_from_slice(vec![in alloc; 0x24; 100]?.as_slice())?;
    Ok(bytes)
}

#[test]
fn long_fields_are_carried(rt: HostRuntime) -> Result<(), Fail> {
    let alloc = rt.alloc();
    assert!(rt; is_field(alloc, long_bytes(alloc)?.as_slice(), 2)?);
    assert!(rt; is_field(alloc, deep_group(alloc)?.as_slice(), 3)?);
    Ok(())
}

/// A set of 300 times the field that the bytes are.
fn set_of(alloc: Global, bytes: &[u8]) -> Result<UnknownFieldSet, Fail> {
    let mut set = UnknownFieldSet::new(alloc);
    for _ in 0..300_u32 {
        let mut cursor = bytes;
        set.insert(UnknownField::decode(alloc, &mut cursor, RECURSION_LIMIT)?)?;
    }
    Ok(set)
}

/// Whether the set has 300 fields, is copied, and is written as what the group has, behind what is there.
fn is_set(alloc: Global, set: &UnknownFieldSet, group: &[u8]) -> Result<bool, Fail> {
    let mut out = Vec::from_slice(alloc, &[0x23])?;
    set.encode(&mut out)?;
    out.push(0x24)?;
    let is_copied = set.clone()? == *set;
    Ok(set.len() == 300 && is_copied && out.as_slice() == group)
}

/// Whether 300 times the field are carried as a group and as a set.
fn is_carried_in_numbers(alloc: Global, bytes: &[u8]) -> Result<bool, Fail> {
    let group = long_group(alloc, bytes)?;
    let is_group = is_field(alloc, group.as_slice(), 3)?;
    Ok(is_set(alloc, &set_of(alloc, bytes)?, group.as_slice())? && is_group)
}

#[test]
fn fields_of_each_form_are_carried(rt: HostRuntime) -> Result<(), Fail> {
    for (bytes, code) in &FORMS {
        assert!(rt; is_field(rt.alloc(), bytes, *code)?, "{bytes:?}");
        assert!(rt; is_carried_in_numbers(rt.alloc(), bytes)?, "{bytes:?}");
    }
    Ok(())
}

/// Forty empty records of each key, or forty times 0 behind a key of a number.
fn append_all(out: &mut Vec<u8>, keys: &[u8]) -> Result<(), AllocError> {
    for key in keys {
        for _ in 0..40_u32 {
            out.extend_from_slice(&[*key, 0])?;
        }
    }
    Ok(())
}

/// Appends a record behind its key and its length, which takes two bytes.
fn append(out: &mut Vec<u8>, key: u8, record: &[u8]) -> Result<(), AllocError> {
    let length = record.len();
    out.extend_from_slice(&[key, (length % 128) as u8 + 128, (length / 128 % 128) as u8])?;
    out.extend_from_slice(record)
}

/// A record whose fields of these keys stand there forty times each, without a name.
fn record_of(alloc: Global, keys: &[u8]) -> Result<Vec<u8>, AllocError> {
    let mut record = Vec::new(alloc);
    append_all(&mut record, keys)?;
    Ok(record)
}

/// Lists of a file, forty each, and the key and the lists of the record that stands behind them: a message type, an enum and a service.
static LISTS: [(&[u8], u8, &[u8]); 3] = [
    (b"\x1a\x22", 0x22, b"\x12\x1a\x22\x2a\x32\x42\x4a\x52"),
    (b"\x2a", 0x2a, b"\x12\x22\x2a"),
    (b"\x32", 0x32, b"\x12\x12"),
];

/// Appends a record behind its key, with forty of each list.
fn append_record(out: &mut Vec<u8>, key: u8, keys: &[u8]) -> Result<(), AllocError> {
    let record = record_of(*out.allocator(), keys)?;
    append(out, key, record.as_slice())
}

/// A file with forty of each list, and behind its empty message types, enums and services one with forty of each list in it.
fn file(alloc: Global) -> Result<Vec<u8>, AllocError> {
    let mut file = Vec::new(alloc);
    for (lists, key, keys) in LISTS {
        append_all(&mut file, lists)?;
        append_record(&mut file, key, keys)?;
    }
    append_all(&mut file, b"\x3a\x50\x58")?;
    Ok(file)
}

/// A set of forty empty files and that one.
fn set_of_files(alloc: Global) -> Result<Vec<u8>, AllocError> {
    let mut set = record_of(alloc, b"\x0a")?;
    append(&mut set, 0x0a, file(alloc)?.as_slice())?;
    Ok(set)
}

/// Whether the set is copied, and written as the bytes behind what is there.
fn is_file_set(alloc: Global, set: &FileDescriptorSet, bytes: &[u8]) -> Result<bool, Fail> {
    let mut out = vec![in alloc; 7; 2000]?;
    set.encode(&mut out)?;
    let is_counted = set.file.len() == 41 && set.encoded_len() == Some(bytes.len());
    Ok(set.clone()? == *set && is_counted && is_behind(out.as_slice(), bytes))
}

/// Records of each sort that have nothing, in long lists.
#[test]
fn records_in_long_lists_are_carried(rt: HostRuntime) -> Result<(), Fail> {
    let bytes = set_of_files(rt.alloc())?;
    let set = FileDescriptorSet::decode(rt.alloc(), bytes.as_slice())?;
    assert!(rt; is_file_set(rt.alloc(), &set, bytes.as_slice())?);
    Ok(())
}
