//! Files that are taken, and small changes to them that are refused by their names.

use crate::faults::{FAULTS, TAKEN};
use prost_reflect_building::with_files;
use prost_reflect_pool::LinkedPool;
use prost_reflect_proto::Proto;
use prost_reflect_samples::leaked;
use prost_reflect_tables::PoolError;
use prost_reflect_types::FileDescriptorProto;
use std::alloc::{AllocError, Global};
use std::test::Fail;

/// Why the file of these bytes alone is refused, or nothing.
fn refusal(alloc: Global, bytes: &[u8]) -> Result<Option<PoolError>, Fail> {
    let pool = leaked(alloc, LinkedPool::new(alloc))?;
    let files = vec![in alloc; FileDescriptorProto::decode(alloc, bytes)?]?;
    Ok(with_files(pool, files).err())
}

/// The parts, one behind the other.
fn joined(alloc: Global, parts: &[&[u8]]) -> Result<Vec<u8>, AllocError> {
    let mut bytes = Vec::new(alloc);
    for part in parts {
        bytes.extend_from_slice(part)?;
    }
    Ok(bytes)
}

/// Why the file of the parts is refused, or nothing.
fn refusal_of(alloc: Global, parts: &[&[u8]]) -> Result<Option<PoolError>, Fail> {
    refusal(alloc, joined(alloc, parts)?.as_slice())
}

/// The file of `package p; message M { int32 f = 1; }`. Its name takes nine bytes.
static PLAIN: &[u8] =
    b"\x0a\x07m.proto\x12\x01p\x22\x0e\x0a\x01M\x12\x09\x0a\x01f\x18\x01\x20\x01\x28\x05";

/// What is put behind a sound file, and why it is refused then.
static FAULTS_OF_A_FILE: [(&[u8], PoolError); 10] = [
    (b"\x62\x08editions", PoolError::UnknownSyntax),
    (b"\x1a\x07q.proto", PoolError::MissingDependency),
    // The public dependency 0, where there is none.
    (b"\x50\x00", PoolError::BadIndex),
    // An enum `M`.
    (
        b"\x2a\x0d\x0a\x01M\x12\x08\x0a\x04ZERO\x10\x00",
        PoolError::DuplicateName,
    ),
    // An extension of nothing.
    (
        b"\x3a\x09\x0a\x01x\x18\x01\x20\x01\x28\x05",
        PoolError::MissingType,
    ),
    // An enum without values, and one that reserves the numbers from 5 to 4.
    (b"\x2a\x03\x0a\x01E", PoolError::EmptyEnum),
    (
        b"\x2a\x13\x0a\x01E\x12\x08\x0a\x04ZERO\x10\x00\x22\x04\x08\x05\x10\x04",
        PoolError::BadRange,
    ),
    // A message with an extension range from 5 up to, but without, 5.
    (
        b"\x22\x09\x0a\x01N\x2a\x04\x08\x05\x10\x05",
        PoolError::BadRange,
    ),
    // An extension of `M`, which has no extension ranges.
    (
        b"\x3a\x0f\x0a\x01x\x12\x04.p.M\x18\x09\x20\x01\x28\x05",
        PoolError::OutsideRange,
    ),
    // A repeated member of a oneof.
    (
        b"\x22\x15\x0a\x01N\x12\x0b\x0a\x01f\x18\x01\x20\x03\x28\x05\x48\x00\x42\x03\x0a\x01c",
        PoolError::BadOneof,
    ),
];

/// Why the sound file with these bytes behind it is refused, or nothing.
fn refusal_with(alloc: Global, rest: &[u8]) -> Result<Option<PoolError>, Fail> {
    refusal_of(alloc, &[PLAIN, rest])
}

/// A sound file is taken, and small changes to it are refused by their names.
#[test]
fn faults_of_a_file(rt: HostRuntime) -> Result<(), Fail> {
    assert!(rt; refusal(rt.alloc(), PLAIN)? == None);
    assert!(rt; refusal(rt.alloc(), &PLAIN[9..])? == Some(PoolError::MissingName));
    for (rest, fault) in FAULTS_OF_A_FILE.iter() {
        assert!(rt;
            refusal_with(rt.alloc(), rest)?.as_ref() == Some(fault),
            "{rest:?}"
        );
    }
    Ok(())
}

#[test]
fn each_fault_is_named(rt: HostRuntime) -> Result<(), Fail> {
    for (rest, fault) in FAULTS.iter() {
        assert!(rt;
            refusal_with(rt.alloc(), rest)?.as_ref() == Some(fault),
            "{rest:?}"
        );
    }
    Ok(())
}

#[test]
fn what_is_no_fault_is_taken(rt: HostRuntime) -> Result<(), Fail> {
    for rest in TAKEN.iter() {
        assert!(rt; refusal_with(rt.alloc(), rest)?.is_none(), "{rest:?}");
    }
    Ok(())
}

/// `m.proto` with `message N`, whose extension ranges are 30 to 32, 5, and 3 to 19.
static RANGES: &[u8] =
    b"\x0a\x07m.proto\x22\x15\x0a\x01N\x2a\x04\x08\x1e\x10\x21\x2a\x04\x08\x05\x10\x06\x2a\x04\x08\x03\x10\x14";

/// A number of an extension of `N`, and why it is refused.
static NUMBERS_OF_EXTENSIONS: [(u8, Option<PoolError>); 12] = [
    (3, None),
    (4, None),
    (5, None),
    (6, None),
    (19, None),
    (30, None),
    (32, None),
    (1, Some(PoolError::OutsideRange)),
    (2, Some(PoolError::OutsideRange)),
    (20, Some(PoolError::OutsideRange)),
    (29, Some(PoolError::OutsideRange)),
    (33, Some(PoolError::OutsideRange)),
];

/// Why an extension of `N` with the number is refused.
fn refusal_of_number(alloc: Global, number: u8) -> Result<Option<PoolError>, Fail> {
    let extension = b"\x3a\x0d\x0a\x01x\x12\x02.N\x20\x01\x28\x05\x18";
    refusal_of(alloc, &[RANGES, extension, &[number]])
}

#[test]
fn numbers_of_extensions(rt: HostRuntime) -> Result<(), Fail> {
    for (number, fault) in NUMBERS_OF_EXTENSIONS {
        assert!(rt; refusal_of_number(rt.alloc(), number)? == fault, "{number}");
    }
    Ok(())
}

/// `m.proto` with `package p; enum E { ZERO = 0; }`.
static ENUM: &[u8] = b"\x0a\x07m.proto\x12\x01p\x2a\x0d\x0a\x01E\x12\x08\x0a\x04ZERO\x10\x00";

/// Why that file with `message M {}`, where `M` has the field of these bytes, is refused, or nothing.
fn refusal_of_field(alloc: Global, field: &[u8]) -> Result<Option<PoolError>, Fail> {
    let length = (field.len() % 64) as u8;
    let front = [0x22, length + 5, 0x0a, 1, b'M', 0x12, length];
    refusal_of(alloc, &[ENUM, &front, field])
}

/// Fields with another number, label or type than 1, 1 and 5, and why they are refused.
static FAULTS_OF_A_FIELD: [(&[u8], PoolError); 7] = [
    (b"\x0a\x01f\x18\x00\x20\x01\x28\x05", PoolError::BadNumber),
    (b"\x0a\x01f\x20\x01\x28\x05", PoolError::BadNumber),
    // 536,870,912.
    (
        b"\x0a\x01f\x18\x80\x80\x80\x80\x02\x20\x01\x28\x05",
        PoolError::BadNumber,
    ),
    (b"\x0a\x01f\x18\x01\x20\x04\x28\x05", PoolError::BadLabel),
    (b"\x0a\x01f\x18\x01\x20\x01\x28\x13", PoolError::MissingType),
    (b"\x0a\x01f\x18\x01\x20\x01", PoolError::MissingType),
    // A message, whose type is not named.
    (b"\x0a\x01f\x18\x01\x20\x01\x28\x0b", PoolError::MissingType),
];

/// A field's type code, its default, and why it is refused.
static DEFAULTS: [(u8, &str, Option<PoolError>); 12] = [
    (2, "1.5", Some(PoolError::FloatDefault)),
    (2, "16777217", Some(PoolError::FloatDefault)),
    (5, "+1", Some(PoolError::BadDefault)),
    (13, "-0", Some(PoolError::BadDefault)),
    (12, "\\400", Some(PoolError::BadDefault)),
    (12, "\\8", Some(PoolError::BadDefault)),
    (8, "1", Some(PoolError::BadDefault)),
    (14, "ONE", Some(PoolError::BadDefault)),
    (5, "-0", None),
    (2, "16777216", None),
    (12, "\\1012", None),
    (14, "ZERO", None),
];

/// Why the field 1 of this type code, and of `p.E` where it is of an enum, with this default is refused, or nothing.
fn refusal_of_default(alloc: Global, code: u8, text: &str) -> Result<Option<PoolError>, Fail> {
    let front = b"\x0a\x01f\x18\x01\x20\x01\x32\x03p.E";
    let length = (text.len() % 32) as u8;
    let field = joined(
        alloc,
        &[front, &[0x28, code, 0x3a, length], text.as_bytes()],
    )?;
    refusal_of_field(alloc, &field)
}

/// Fields of proto2 are refused by the names of their faults, and defaults are taken or refused so.
#[test]
fn faults_of_a_field(rt: HostRuntime) -> Result<(), Fail> {
    for (field, fault) in FAULTS_OF_A_FIELD {
        assert!(rt;
            refusal_of_field(rt.alloc(), field)? == Some(fault),
            "{field:?}"
        );
    }
    for (code, text, fault) in DEFAULTS {
        assert!(rt;
            refusal_of_default(rt.alloc(), code, text)? == fault,
            "of the text {text}"
        );
    }
    Ok(())
}

/// Options of an entry, a label, and the type code of a key, and why `message M { map<string, int32> kids = 1; }` with these is
/// refused. A message that says it is no entry may have any key.
static MAPS: [([u8; 2], u8, u8, Option<PoolError>); 6] = [
    ([0x38, 1], 3, 9, None),
    ([0x38, 0], 1, 2, None),
    ([0x38, 1], 1, 9, Some(PoolError::BadMapEntry)),
    ([0x38, 1], 3, 2, Some(PoolError::BadMapEntry)),
    ([0x3a, 0], 3, 9, Some(PoolError::BadOptions)),
    ([0x38, 0x80], 3, 9, Some(PoolError::BadOptions)),
];

/// Why that file is refused, or nothing.
fn refusal_of_map(
    alloc: Global,
    options: [u8; 2],
    label: u8,
    key: u8,
) -> Result<Option<PoolError>, Fail> {
    let parts = [
        b"\x0a\x07m.proto\x22\x4b\x0a\x01M\x12\x19\x0a\x04kids".as_slice(),
        &[0x18, 1, 0x20, label],
        b"\x28\x0b\x32\x0bM.KidsEntry\x1a\x2b\x0a\x09KidsEntry",
        b"\x12\x0b\x0a\x03key\x18\x01\x20\x01",
        &[0x28, key],
        b"\x12\x0d\x0a\x05value\x18\x02\x20\x01\x28\x05\x3a\x02",
        &options,
    ];
    refusal_of(alloc, &parts)
}

#[test]
fn faults_of_a_map(rt: HostRuntime) -> Result<(), Fail> {
    for (options, label, key, fault) in MAPS {
        assert!(rt;
            refusal_of_map(rt.alloc(), options, label, key)? == fault,
            "{options:?} {label} {key}"
        );
    }
    Ok(())
}
