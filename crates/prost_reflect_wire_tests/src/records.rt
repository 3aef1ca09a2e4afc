//! Descriptor records from compilers and by hand: what is read of them, and what is refused.

use prost_reflect_proto::Proto;
use prost_reflect_types::{
    DescriptorProto, EnumDescriptorProto, EnumReservedRange, EnumValueDescriptorProto,
    ExtensionRange, FieldDescriptorProto, FileDescriptorProto, FileDescriptorSet,
    MethodDescriptorProto, OneofDescriptorProto, ReservedRange, ServiceDescriptorProto,
};
use prost_reflect_wire::{BackBuffer, DecodeError, EncodeError};
use std::alloc::Global;
use std::test::Fail;

/// The descriptor set of `m.proto`: the package `package` in proto3, and the message `MyMessage` with the fields `foo` and
/// `nested` and, in the oneof `optional`, `bar`.
static SMALL_SET: &[u8] =
    b"\x0as\x0a\x07m.proto\x12\x07package\x22W\x0a\x09MyMessage\x12\x0b\x0a\x03foo\x18\x01\x20\x01(\x05\x12\x0d\
    \x0a\x03bar\x18\x02\x20\x01(\x05H\x00\x12\x22\x0a\x06nested\x18\x03\x20\x01(\x0b2\x12.package.MyMessageB\
    \x0a\x0a\x08optionalb\x06proto3";

/// A descriptor set that protoc wrote: an option, a range of extensions, and an extension.
static EXTENDED_SET: &[u8] =
    b"\x0ag\x0a\x08ms.proto\x12\x02ms\x22\x13\x0a\x03Set*\x08\x08\x04\x10\xff\xff\xff\xff\x07:\x02\x08\x01\x22B\
    \x0a\x04Item\x12\x12\x0a\x04text\x18\x01\x20\x01(\x09R\x04text2&\x0a\x04item\x12\x07.ms.Set\x18\xb9`\x20\
    \x01(\x0b2\x08.ms.ItemR\x04item";

/// A record that is read, or why it is refused.
type Read<T> = Result<T, DecodeError>;

/// Texts of a record, and what they have to be.
fn texts_are(rows: &[(&Option<String>, &str)]) -> bool {
    for (text, expected) in rows {
        if !text_is(text, expected) {
            return false;
        }
    }
    true
}

/// Whether the text is there, and is this one.
fn text_is(text: &Option<String>, expected: &str) -> bool {
    match text {
        Some(text) => text.as_str() == expected,
        None => false,
    }
}

/// Whether the bytes are there, and are these.
fn bytes_are(bytes: &Option<Vec<u8>>, expected: &[u8]) -> bool {
    match bytes {
        Some(bytes) => bytes.as_slice() == expected,
        None => false,
    }
}

/// Numbers of a record, and what they have to be.
fn numbers_are(rows: &[(Option<i32>, Option<i32>)]) -> bool {
    for (number, expected) in rows {
        if number != expected {
            return false;
        }
    }
    true
}

static EXTENSION_RANGE: &[u8] = b"\x08\x04\x10\xff\xff\xff\xff\x07\x1a\x01\x01\x1a\x01\x02";

fn is_extension_range(read: &Read<ExtensionRange>) -> bool {
    let Ok(range) = read else {
        return false;
    };
    let numbers = [(range.start, Some(4)), (range.end, Some(2147483647))];
    numbers_are(&numbers) && bytes_are(&range.options, &[1, 2])
}

static RESERVED_RANGE: &[u8] = b"\x10\x05";

fn is_reserved_range(read: &Read<ReservedRange>) -> bool {
    let Ok(range) = read else {
        return false;
    };
    numbers_are(&[(range.start, None), (range.end, Some(5))])
}

static ENUM_RESERVED_RANGE: &[u8] = b"\x08\xfe\xff\xff\xff\xff\xff\xff\xff\xff\x01\x10\x05\x10\x07";

fn is_enum_reserved_range(read: &Read<EnumReservedRange>) -> bool {
    let Ok(range) = read else {
        return false;
    };
    numbers_are(&[(range.start, Some(-2)), (range.end, Some(7))])
}

static ENUM_VALUE: &[u8] = b"\x0a\x01A\x10\x00\x1a\x01\x07";

fn is_enum_value(read: &Read<EnumValueDescriptorProto>) -> bool {
    let Ok(value) = read else {
        return false;
    };
    text_is(&value.name, "A") && value.number == Some(0) && bytes_are(&value.options, &[7])
}

static ONEOF: &[u8] = b"\x12\x00\x0a\x01o";

fn is_oneof(read: &Read<OneofDescriptorProto>) -> bool {
    let Ok(oneof) = read else {
        return false;
    };
    text_is(&oneof.name, "o") && bytes_are(&oneof.options, b"")
}

#[test]
fn small_records(rt: HostRuntime) {
    let alloc = rt.alloc();
    assert!(rt; is_extension_range(&ExtensionRange::decode(alloc, EXTENSION_RANGE)));
    assert!(rt; is_reserved_range(&ReservedRange::decode(alloc, RESERVED_RANGE)));
    assert!(rt; is_enum_reserved_range(&EnumReservedRange::decode(alloc, ENUM_RESERVED_RANGE)));
    assert!(rt; is_enum_value(&EnumValueDescriptorProto::decode(alloc, ENUM_VALUE)));
    assert!(rt; is_oneof(&OneofDescriptorProto::decode(alloc, ONEOF)));
}

static FIELD: &[u8] =
    b"\x0a\x01a\x12\x02.M\x18\x64\x20\x01\x28\x0b\x32\x02.N\x3a\x017\x42\x02\x08\x01\x48\x03\x52\x01j\x88\x01\x01";

fn is_field(read: &Read<FieldDescriptorProto>) -> bool {
    let Ok(field) = read else {
        return false;
    };
    let texts = [
        (&field.name, "a"),
        (&field.extendee, ".M"),
        (&field.type_name, ".N"),
        (&field.default_value, "7"),
        (&field.json_name, "j"),
    ];
    let numbers = [
        (field.number, Some(100)),
        (field.label, Some(1)),
        (field.type_, Some(11)),
        (field.oneof_index, Some(3)),
    ];
    texts_are(&texts)
        && numbers_are(&numbers)
        && field.proto3_optional == Some(true)
        && bytes_are(&field.options, &[8, 1])
}

static ENUM: &[u8] =
    b"\x0a\x01K\x12\x05\x0a\x01A\x10\x00\x12\x03\x0a\x01B\x1a\x02\x10\x01\x22\x04\x08\x02\x10\x03\x2a\x01X\x2a\x01Y";

fn is_enum(read: &Read<EnumDescriptorProto>) -> bool {
    let Ok(kinds) = read else {
        return false;
    };
    text_is(&kinds.name, "K")
        && bytes_are(&kinds.options, &[16, 1])
        && has_its_values(kinds)
        && has_its_reserved_ones(kinds)
}

fn has_its_values(kinds: &EnumDescriptorProto) -> bool {
    let [a, b] = kinds.value.as_slice() else {
        return false;
    };
    texts_are(&[(&a.name, "A"), (&b.name, "B")])
        && numbers_are(&[(a.number, Some(0)), (b.number, None)])
}

fn has_its_reserved_ones(kinds: &EnumDescriptorProto) -> bool {
    let [range] = kinds.reserved_range.as_slice() else {
        return false;
    };
    let [x, y] = kinds.reserved_name.as_slice() else {
        return false;
    };
    numbers_are(&[(range.start, Some(2)), (range.end, Some(3))])
        && x.as_str() == "X"
        && y.as_str() == "Y"
}

static METHOD: &[u8] = b"\x0a\x01m\x12\x02.A\x1a\x02.B\x22\x01\x07\x28\x01\x30\x00";

fn is_method_of_a_and_b(read: &Read<MethodDescriptorProto>) -> bool {
    let Ok(method) = read else {
        return false;
    };
    let texts = [
        (&method.name, "m"),
        (&method.input_type, ".A"),
        (&method.output_type, ".B"),
    ];
    texts_are(&texts)
        && bytes_are(&method.options, &[7])
        && method.client_streaming == Some(true)
        && method.server_streaming == Some(false)
}

static SERVICE: &[u8] = b"\x0a\x01S\x12\x03\x0a\x01m\x12\x00\x1a\x01\x07";

fn is_service_of_two(read: &Read<ServiceDescriptorProto>) -> bool {
    let Ok(service) = read else {
        return false;
    };
    let [first, second] = service.method.as_slice() else {
        return false;
    };
    texts_are(&[(&service.name, "S"), (&first.name, "m")])
        && second.name.is_none()
        && bytes_are(&service.options, &[7])
}

#[test]
fn records_with_a_name(rt: HostRuntime) {
    let alloc = rt.alloc();
    assert!(rt; is_field(&FieldDescriptorProto::decode(alloc, FIELD)));
    assert!(rt; is_enum(&EnumDescriptorProto::decode(alloc, ENUM)));
    assert!(rt; is_method_of_a_and_b(&MethodDescriptorProto::decode(alloc, METHOD)));
    assert!(rt; is_service_of_two(&ServiceDescriptorProto::decode(alloc, SERVICE)));
}

/// Each number of a message's record once, out of order; number 63 is unknown.
static MESSAGE: &[u8] =
    b"\x52\x01R\x4a\x02\x08\x01\x42\x03\x0a\x01o\x3a\x02\x38\x01\x32\x02\x18\x64\x2a\x02\x10\x09\x22\x03\x0a\x01E\x1a\
    \x07\x0a\x01N\x1a\x02\x0a\x00\xf8\x03\x01\x12\x02\x18\x05\x0a\x01M";

fn is_message(read: &Read<DescriptorProto>) -> bool {
    let Ok(message) = read else {
        return false;
    };
    text_is(&message.name, "M")
        && bytes_are(&message.options, &[0x38, 1])
        && has_its_fields(message)
        && has_its_types(message)
        && has_its_ranges(message)
}

fn has_its_fields(message: &DescriptorProto) -> bool {
    let [field] = message.field.as_slice() else {
        return false;
    };
    let [extension] = message.extension.as_slice() else {
        return false;
    };
    let [oneof] = message.oneof_decl.as_slice() else {
        return false;
    };
    numbers_are(&[(field.number, Some(5)), (extension.number, Some(100))])
        && text_is(&oneof.name, "o")
}

fn has_its_types(message: &DescriptorProto) -> bool {
    let [nested] = message.nested_type.as_slice() else {
        return false;
    };
    let [deeper] = nested.nested_type.as_slice() else {
        return false;
    };
    let [kinds] = message.enum_type.as_slice() else {
        return false;
    };
    texts_are(&[(&nested.name, "N"), (&deeper.name, ""), (&kinds.name, "E")])
}

fn has_its_ranges(message: &DescriptorProto) -> bool {
    let [range] = message.extension_range.as_slice() else {
        return false;
    };
    let [reserved] = message.reserved_range.as_slice() else {
        return false;
    };
    let [name] = message.reserved_name.as_slice() else {
        return false;
    };
    numbers_are(&[(range.end, Some(9)), (reserved.start, Some(1))]) && name.as_str() == "R"
}

/// Options in two pieces join; a name that is given twice is the last; number 14 is unknown; packed and single public
/// dependencies join.
static FILE: &[u8] =
    b"\x0a\x01a\x42\x02\x10\x01\x70\x01\x42\x02\x20\x01\x0a\x01b\x50\x05\x52\x02\x00\x01\x50\x07\x58\x02\x1a\x01d\x4a\
    \x00\x62\x06proto3";

fn is_file(read: &Read<FileDescriptorProto>) -> bool {
    let Ok(file) = read else {
        return false;
    };
    texts_are(&[(&file.name, "b"), (&file.syntax, "proto3")])
        && file.package.is_none()
        && bytes_are(&file.options, &[0x10, 1, 0x20, 1])
        && bytes_are(&file.source_code_info, b"")
        && has_its_dependencies(file)
}

fn has_its_dependencies(file: &FileDescriptorProto) -> bool {
    let [dependency] = file.dependency.as_slice() else {
        return false;
    };
    dependency.as_str() == "d"
        && file.public_dependency.as_slice() == [5, 0, 1, 7].as_slice()
        && file.weak_dependency.as_slice() == [2].as_slice()
}

static DEFINITIONS: &[u8] = b"\x22\x03\x0a\x01M\x2a\x03\x0a\x01E\x32\x03\x0a\x01S\x3a\x03\x0a\x01x";

fn has_its_definitions(read: &Read<FileDescriptorProto>) -> bool {
    let Ok(file) = read else {
        return false;
    };
    let [message] = file.message_type.as_slice() else {
        return false;
    };
    let [kinds] = file.enum_type.as_slice() else {
        return false;
    };
    let [service] = file.service.as_slice() else {
        return false;
    };
    let [extension] = file.extension.as_slice() else {
        return false;
    };
    texts_are(&[
        (&message.name, "M"),
        (&kinds.name, "E"),
        (&service.name, "S"),
        (&extension.name, "x"),
    ])
}

#[test]
fn messages_and_files(rt: HostRuntime) {
    let alloc = rt.alloc();
    assert!(rt; is_message(&DescriptorProto::decode(alloc, MESSAGE)));
    assert!(rt; is_file(&FileDescriptorProto::decode(alloc, FILE)));
    assert!(rt; has_its_definitions(&FileDescriptorProto::decode(alloc, DEFINITIONS)));
}

/// Whether the set is that of `m.proto`.
fn is_small_set(read: &Read<FileDescriptorSet>) -> bool {
    let Ok(set) = read else {
        return false;
    };
    let [file] = set.file.as_slice() else {
        return false;
    };
    let [message] = file.message_type.as_slice() else {
        return false;
    };
    texts_are(&[
        (&file.name, "m.proto"),
        (&file.package, "package"),
        (&file.syntax, "proto3"),
    ]) && is_my_message(message)
}

fn is_my_message(message: &DescriptorProto) -> bool {
    let [foo, bar, nested] = message.field.as_slice() else {
        return false;
    };
    let [oneof] = message.oneof_decl.as_slice() else {
        return false;
    };
    let texts = [
        (&message.name, "MyMessage"),
        (&oneof.name, "optional"),
        (&foo.name, "foo"),
        (&bar.name, "bar"),
        (&nested.type_name, ".package.MyMessage"),
    ];
    texts_are(&texts) && numbers_are(&[(foo.oneof_index, None), (bar.oneof_index, Some(0))])
}

/// Whether the set is that with an extension.
fn is_extended_set(read: &Read<FileDescriptorSet>) -> bool {
    let Ok(set) = read else {
        return false;
    };
    let [file] = set.file.as_slice() else {
        return false;
    };
    let [extended, item] = file.message_type.as_slice() else {
        return false;
    };
    file.syntax.is_none() && is_extended(extended) && has_the_extension(item)
}

fn is_extended(message: &DescriptorProto) -> bool {
    let [range] = message.extension_range.as_slice() else {
        return false;
    };
    bytes_are(&message.options, &[8, 1])
        && numbers_are(&[(range.start, Some(4)), (range.end, Some(2147483647))])
}

fn has_the_extension(message: &DescriptorProto) -> bool {
    let [extension] = message.extension.as_slice() else {
        return false;
    };
    text_is(&extension.extendee, ".ms.Set")
        && numbers_are(&[(extension.number, Some(12345)), (extension.type_, Some(11))])
}

#[test]
fn sets(rt: HostRuntime) {
    assert!(rt; is_small_set(&FileDescriptorSet::decode(rt.alloc(), SMALL_SET)));
    assert!(rt; is_extended_set(&FileDescriptorSet::decode(rt.alloc(), EXTENDED_SET)));
}

/// Why the bytes are no set of files, or nothing.
fn refusal_of_set(alloc: Global, bytes: &[u8]) -> Option<DecodeError> {
    FileDescriptorSet::decode(alloc, bytes).err()
}

/// What is cut short is refused, but for no bytes, which are the set without files.
#[test]
fn cut_short(rt: HostRuntime) -> Result<(), Fail> {
    assert!(rt; FileDescriptorSet::decode(rt.alloc(), &[])?.file.is_empty());
    for len in 1..SMALL_SET.len() {
        let refused = refusal_of_set(rt.alloc(), &SMALL_SET[..len]);
        assert!(rt; refused == Some(DecodeError::Truncated), "{len}");
    }
    Ok(())
}

/// Bytes, and why they are no record of a file.
static REFUSED: [(&[u8], DecodeError); 9] = [
    (b"\x0a\x01\xff", DecodeError::Utf8),
    (b"\x22\x03\x0a\x01\xff", DecodeError::Utf8),
    (b"\x08\x01", DecodeError::WireType),
    (b"\x40\x01", DecodeError::WireType),
    (b"\x52\x02\x01\x80", DecodeError::Truncated),
    (b"\x00", DecodeError::Key),
    (
        b"\x50\xff\xff\xff\xff\xff\xff\xff\xff\xff\x02",
        DecodeError::Varint,
    ),
    (b"\x0c", DecodeError::EndGroup),
    (b"\x6b\x74", DecodeError::EndGroup),
];

/// Why the bytes are no record of a file, or nothing.
fn refusal_of_file(alloc: Global, bytes: &[u8]) -> Option<DecodeError> {
    FileDescriptorProto::decode(alloc, bytes).err()
}

#[test]
fn refused(rt: HostRuntime) {
    for (bytes, error) in REFUSED {
        assert!(rt;
            refusal_of_file(rt.alloc(), bytes) == Some(error),
            "{bytes:?}"
        );
    }
}

/// A message within so many others.
fn within(alloc: Global, levels: usize) -> Result<BackBuffer, EncodeError> {
    let mut bytes = BackBuffer::new(alloc);
    for _ in 0..levels {
        let len = bytes.len() as u64;
        bytes.prepend_varint(len)?;
        bytes.prepend(&[0x1a])?;
    }
    Ok(bytes)
}

/// Why the bytes are no record of a message with one in it, or nothing.
fn refusal_of_message(alloc: Global, bytes: &[u8]) -> Result<Option<DecodeError>, Fail> {
    match DescriptorProto::decode(alloc, bytes) {
        Ok(message) if message.nested_type.len() == 1 => Ok(None),
        Ok(_) => Err(Fail::from("not one message inside")),
        Err(error) => Ok(Some(error)),
    }
}

/// Why a message in so many others is refused, or nothing.
fn refusal_within(alloc: Global, levels: usize) -> Result<Option<DecodeError>, Fail> {
    refusal_of_message(alloc, within(alloc, levels)?.as_slice())
}

/// In 101 others a message is nested too deep.
#[test]
fn a_message_in_100_others(rt: HostRuntime) -> Result<(), Fail> {
    assert!(rt; refusal_within(rt.alloc(), 100)? == None);
    assert!(rt; refusal_within(rt.alloc(), 101)? == Some(DecodeError::Depth));
    Ok(())
}
