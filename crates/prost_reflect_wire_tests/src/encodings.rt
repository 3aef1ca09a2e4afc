//! Each descriptor record with all its fields, as `protoc` writes them: read, written again, and copied; and records of
//! files that are written in other bytes than they were read from.

use prost_reflect_proto::Proto;
use prost_reflect_types::{
    DescriptorProto, EnumDescriptorProto, EnumReservedRange, EnumValueDescriptorProto,
    ExtensionRange, FieldDescriptorProto, FileDescriptorProto, FileDescriptorSet,
    MethodDescriptorProto, OneofDescriptorProto, ReservedRange, ServiceDescriptorProto,
};
use std::alloc::{AllocError, Global};
use std::test::Fail;

/// The sort of a record.
enum Sort {
    ExtensionRange,
    ReservedRange,
    EnumReservedRange,
    Field,
    Oneof,
    EnumValue,
    Enum,
    Method,
    Service,
    Message,
    File,
    FileSet,
}

/// A record's sort, and its bytes.
static RECORDS: [(Sort, &[u8]); 12] = [
    (
        Sort::ExtensionRange,
        b"\x08\x64\x10\xc8\x01\x1a\x02\x10\x01",
    ),
    (Sort::ReservedRange, b"\x10\x05"),
    // From -1 to 0.
    (
        Sort::EnumReservedRange,
        b"\x08\xff\xff\xff\xff\xff\xff\xff\xff\xff\x01\x10\x00",
    ),
    (
        Sort::Field,
        b"\x0a\x01f\x12\x02.E\x18\x96\x01\x20\x01\x28\x0b\x32\x02.T\x3a\x00\x42\x02\x10\x01\x48\x00\x52\x01F\x88\x01\x01",
    ),
    (Sort::Oneof, b"\x0a\x01o\x12\x00"),
    (Sort::EnumValue, b"\x0a\x01V\x10\xac\x02\x1a\x02\x08\x01"),
    (
        Sort::Enum,
        b"\x0a\x01E\x12\x09\x0a\x01V\x10\x01\x1a\x02\x08\x01\x1a\x02\x10\x01\x22\x04\x08\x02\x10\x03\x2a\x01r",
    ),
    (
        Sort::Method,
        b"\x0a\x01m\x12\x02.I\x1a\x02.O\x22\x00\x28\x00\x30\x01",
    ),
    (
        Sort::Service,
        b"\x0a\x01s\x12\x11\x0a\x01m\x12\x02.I\x1a\x02.O\x22\x00\x28\x00\x30\x01\x1a\x02\x08\x01",
    ),
    (
        Sort::Message,
        b"\x0a\x01M\x12\x03\x0a\x01f\x1a\x08\x0a\x01J\x1a\x03\x0a\x01K\x22\x00\x2a\x02\x08\x01\x32\x03\x0a\x01x\x3a\x02\x38\x01\x42\x03\x0a\x01o\x4a\x04\x08\x07\x10\x08\x52\x01r",
    ),
    (
        Sort::File,
        b"\x0a\x01a\x12\x01p\x1a\x01b\x1a\x01c\x22\x03\x0a\x01M\x2a\x00\x32\x00\x3a\x03\x0a\x01x\x42\x04\x10\x01\x20\x01\x4a\x02\x0a\x00\x50\x00\x50\x01\x58\xff\xff\xff\xff\xff\xff\xff\xff\xff\x01\x62\x06proto3",
    ),
    (Sort::FileSet, b"\x0a\x03\x0a\x01a"),
];

/// The bytes of a file's record, and those that are written again.
static FILES: [(&[u8], &[u8]); 3] = [
    // Options in two records are joined.
    (
        b"\x0a\x01aB\x02\x10\x01B\x02\x20\x01",
        b"\x0a\x01aB\x04\x10\x01\x20\x01",
    ),
    // No field has the number 14.
    (b"\x0a\x01ap\x01", b"\x0a\x01a"),
    // Packed numbers of dependencies are written alone.
    (b"\x0a\x01aR\x02\x00\x01", b"\x0a\x01aP\x00P\x01"),
];

/// Appends the proto of the bytes to `out`, and says whether it is counted as those of `again`, and equal to its copy.
fn carries_as<T: Proto + Drop>(
    alloc: Global,
    bytes: &[u8],
    again: &[u8],
    out: &mut Vec<u8>,
) -> bool {
    let read = T::decode(alloc, bytes);
    let Ok(proto) = &read else {
        return false;
    };
    let copied: Result<T, AllocError> = proto.clone();
    let Ok(copy) = &copied else {
        return false;
    };
    let is_counted = proto.encoded_len() == Some(again.len());
    proto.encode(out).is_ok() && is_counted && copy == proto
}

/// Does so with a record of the sort.
fn carries(alloc: Global, sort: &Sort, bytes: &[u8], again: &[u8], out: &mut Vec<u8>) -> bool {
    match sort {
        Sort::ExtensionRange => carries_as::<ExtensionRange>(alloc, bytes, again, out),
        Sort::ReservedRange => carries_as::<ReservedRange>(alloc, bytes, again, out),
        Sort::EnumReservedRange => carries_as::<EnumReservedRange>(alloc, bytes, again, out),
        Sort::Field => carries_as::<FieldDescriptorProto>(alloc, bytes, again, out),
        Sort::Oneof => carries_as::<OneofDescriptorProto>(alloc, bytes, again, out),
        Sort::EnumValue => carries_as::<EnumValueDescriptorProto>(alloc, bytes, again, out),
        Sort::Enum => carries_as::<EnumDescriptorProto>(alloc, bytes, again, out),
        Sort::Method => carries_as::<MethodDescriptorProto>(alloc, bytes, again, out),
        Sort::Service => carries_as::<ServiceDescriptorProto>(alloc, bytes, again, out),
        Sort::Message => carries_as::<DescriptorProto>(alloc, bytes, again, out),
        Sort::File => carries_as::<FileDescriptorProto>(alloc, bytes, again, out),
        Sort::FileSet => carries_as::<FileDescriptorSet>(alloc, bytes, again, out),
    }
}

/// Whether the bytes are 2000 times 7, and these.
pub(crate) fn is_behind(all: &[u8], bytes: &[u8]) -> bool {
    match all.split_at_checked(2000) {
        Some((front, rest)) => rest == bytes && are_sevens(front),
        None => false,
    }
}

fn are_sevens(bytes: &[u8]) -> bool {
    for byte in bytes {
        if *byte != 7 {
            return false;
        }
    }
    true
}

/// Whether the record of the bytes is equal to its copy, and is written as `again` behind what is there.
fn is_written(alloc: Global, sort: &Sort, bytes: &[u8], again: &[u8]) -> Result<bool, AllocError> {
    let mut out = vec![in alloc; 7; 2000]?;
    let is_carried = carries(alloc, sort, bytes, again, &mut out);
    Ok(is_carried && is_behind(out.as_slice(), again))
}

#[test]
fn records_are_written_in_their_own_form(rt: HostRuntime) -> Result<(), Fail> {
    for (sort, bytes) in &RECORDS {
        assert!(rt; is_written(rt.alloc(), sort, bytes, bytes)?, "{bytes:?}");
    }
    for (bytes, again) in FILES {
        assert!(rt;
            is_written(rt.alloc(), &Sort::File, bytes, again)?,
            "{bytes:?}"
        );
    }
    Ok(())
}
