//! Options of definitions, read by the types of the schema of descriptor sets, or by one that has few of them.

use crate::named::{Set, lent, message_of};
use crate::pools::with_added;
use prost_reflect::{
    DecodeError, DescriptorPool, DynamicMessage, MessageDescriptor, OptionsError, Value,
};
use prost_reflect_samples::leaked;
use std::alloc::{AllocError, Global};
use std::test::Fail;

/// What protoc writes for `o.proto`, of proto2, in `o`, which imports the schema of descriptor sets:
///
///     option java_package = "j";
///     extend google.protobuf.OneofOptions { optional int32 note = 50001; }
///     message M {
///       option deprecated = true;
///       optional int32 f = 1 [deprecated = true];
///       oneof c { option (note) = 7; int32 g = 2; }
///       extensions 100 to 199;
///     }
///     extend M { optional int32 x = 100 [deprecated = false]; }
///     enum E { option deprecated = true; A = 0 [deprecated = true]; }
///     service S {
///       option deprecated = true;
///       rpc R(M) returns (M) { option idempotency_level = NO_SIDE_EFFECTS; }
///     }
pub(crate) static O_PROTO: &[u8] =
    b"\x0a\xf1\x01\x0a\x07o.proto\x12\x01o\x1a google/protobuf/descriptor.proto\";\x0a\x01M\x12\
    \x10\x0a\x01f\x18\x01 \x01(\x05B\x02\x18\x01R\x01f\x12\x0e\x0a\x01g\x18\x02 \x01(\x05H\x00R\
    \x01g*\x05\x08d\x10\xc8\x01:\x02\x18\x01B\x09\x0a\x01c\x12\x04\x88\xb5\x18\x07*\x12\x0a\x01E\
    \x12\x09\x0a\x01A\x10\x00\x1a\x02\x08\x01\x1a\x02\x18\x012\x1e\x0a\x01S\x12\x14\x0a\x01R\x12\
    \x04.o.M\x1a\x04.o.M\"\x03\x90\x02\x01\x1a\x03\x88\x02\x01:3\x0a\x04note\x12\x1d.google.protob\
    uf.OneofOptions\x18\xd1\x86\x03 \x01(\x05R\x04note:\x16\x0a\x01x\x12\x04.o.M\x18d \x01(\x05B\
    \x02\x18\x00R\x01xB\x03\x0a\x01j";

/// `o.proto` with the same definitions, of which none has options.
pub(crate) static BARE: &[u8] =
    b"\x0ah\x0a\x07o.proto\x12\x01o\"'\x0a\x01M\x12\x09\x0a\x01f\x18\x01 \x01(\x05\x12\x0b\x0a\x01g\x18\x02 \x01(\x05\
    H\x00*\x05\x08d\x10\xc8\x01B\x03\x0a\x01c*\x0a\x0a\x01E\x12\x05\x0a\x01A\x10\x002\x14\x0a\x01S\x12\x0f\x0a\x01R\
    \x12\x04.o.M\x1a\x04.o.M:\x0f\x0a\x01x\x12\x04.o.M\x18d \x01(\x05";

/// `message M { option deprecated = true; optional int32 a = 1; }` in `o`.
pub(crate) static USER: &[u8] =
    b"\x0a&\x0a\x0auser.proto\x12\x01o\"\x15\x0a\x01M\x12\x0c\x0a\x01a\x18\x01 \x01(\x05R\x01a:\x02\
    \x18\x01";

/// A file with a message type `google.protobuf.MessageOptions`, whose field 3 is a bool.
pub(crate) static OPTIONS_OF_BOOL: &[u8] =
    b"\x0aL\x0a\x07a.proto\x12\x0fgoogle.protobuf\"0\x0a\x0eMessageOptions\x12\x1e\x0a\x0adeprecated\
    \x18\x03 \x01(\x08R\x0adeprecated";

/// The same, whose field 3 is a string.
pub(crate) static OPTIONS_OF_TEXT: &[u8] =
    b"\x0aL\x0a\x07b.proto\x12\x0fgoogle.protobuf\"0\x0a\x0eMessageOptions\x12\x1e\x0a\x0adeprecated\
    \x18\x03 \x01(\x09R\x0adeprecated";

/// The set of a file, and one that is added to it; a definition; the type of its options, with the names and the values of those
/// that are set; or why they are not read. The options of a definition that has none are empty.
static ROWS: [(Set, Set, &str, &str, Option<OptionsError>); 23] = [
    (
        Set::Schema,
        Set::OProto,
        "o.proto",
        "FileOptions java_package=j",
        None,
    ),
    (
        Set::Schema,
        Set::OProto,
        "M",
        "MessageOptions deprecated=true",
        None,
    ),
    (
        Set::Schema,
        Set::OProto,
        "f",
        "FieldOptions deprecated=true",
        None,
    ),
    (Set::Schema, Set::OProto, "g", "FieldOptions", None),
    (
        Set::Schema,
        Set::OProto,
        "x",
        "FieldOptions deprecated=false",
        None,
    ),
    (Set::Schema, Set::OProto, "c", "OneofOptions note=7", None),
    (
        Set::Schema,
        Set::OProto,
        "E",
        "EnumOptions deprecated=true",
        None,
    ),
    (
        Set::Schema,
        Set::OProto,
        "A",
        "EnumValueOptions deprecated=true",
        None,
    ),
    (
        Set::Schema,
        Set::OProto,
        "S",
        "ServiceOptions deprecated=true",
        None,
    ),
    (
        Set::Schema,
        Set::OProto,
        "R",
        "MethodOptions idempotency_level=1",
        None,
    ),
    (Set::Schema, Set::Bare, "o.proto", "FileOptions", None),
    (Set::Schema, Set::Bare, "M", "MessageOptions", None),
    (Set::Schema, Set::Bare, "f", "FieldOptions", None),
    (Set::Schema, Set::Bare, "g", "FieldOptions", None),
    (Set::Schema, Set::Bare, "x", "FieldOptions", None),
    (Set::Schema, Set::Bare, "c", "OneofOptions", None),
    (Set::Schema, Set::Bare, "E", "EnumOptions", None),
    (Set::Schema, Set::Bare, "A", "EnumValueOptions", None),
    (Set::Schema, Set::Bare, "S", "ServiceOptions", None),
    (Set::Schema, Set::Bare, "R", "MethodOptions", None),
    // Options are read by the pool alone.
    (
        Set::User,
        Set::OptionsOfBool,
        "M",
        "MessageOptions deprecated=true",
        None,
    ),
    (
        Set::User,
        Set::Empty,
        "M",
        "",
        Some(OptionsError::NoOptionsMessage),
    ),
    (
        Set::User,
        Set::OptionsOfText,
        "M",
        "",
        Some(OptionsError::Decode(DecodeError::WireType)),
    ),
];

/// What is answered where options are asked for.
type Options = Result<DynamicMessage, OptionsError>;

/// The options of the definition.
fn options_of(alloc: Global, pool: &DescriptorPool, name: &str) -> Result<Options, Fail> {
    match name {
        "o.proto" => Ok(lent(alloc, pool.get_file_by_name(name))?.options()),
        "E" => Ok(lent(alloc, pool.get_enum_by_name("o.E"))?.options()),
        "A" => {
            let found = lent(alloc, pool.get_enum_by_name("o.E"))?;
            Ok(leaked(alloc, found.default_value()?)?.options())
        }
        "S" => Ok(lent(alloc, pool.get_service_by_name("o.S"))?.options()),
        "R" => {
            let service = lent(alloc, pool.get_service_by_name("o.S"))?;
            Ok(lent(alloc, service.methods().next().transpose())?.options())
        }
        _ => options_in(alloc, message_of(alloc, pool, "o.M")?, name),
    }
}

/// The options of the message type, or of what is declared for it.
fn options_in(alloc: Global, message: &MessageDescriptor, name: &str) -> Result<Options, Fail> {
    match name {
        "M" => Ok(message.options()),
        "f" => Ok(lent(alloc, message.get_field(1))?.options()),
        "g" => Ok(lent(alloc, message.get_field(2))?.options()),
        "c" => Ok(lent(alloc, message.oneofs().next().transpose())?.options()),
        _ => Ok(lent(alloc, message.get_extension(100))?.options()),
    }
}

/// The name of the options' type, and the names and the values of those that are set.
fn shown(alloc: Global, options: &DynamicMessage) -> Result<&'static String, Fail> {
    let out = leaked(alloc, String::new(alloc))?;
    out.push_str(options.descriptor()?.name())?;
    for item in options.fields() {
        let (field, value) = item?;
        write_option(out, field.name(), value)?;
    }
    for item in options.extensions() {
        let (extension, value) = item?;
        write_option(out, extension.name(), value)?;
    }
    Ok(out)
}

/// Writes the name and the value.
fn write_option(out: &mut String, name: &str, value: &Value) -> Result<(), AllocError> {
    write!(out, " {name}=")?;
    match value {
        Value::Bool(flag) => write!(out, "{flag}"),
        Value::I32(number) | Value::EnumNumber(number) => write!(out, "{number}"),
        Value::String(text) => out.push_str(text.as_str()),
        _ => out.push_str("?"),
    }
}

/// Whether the options are shown as the text, or are refused so.
fn is_answer(
    alloc: Global,
    options: &Options,
    text: &str,
    refusal: Option<OptionsError>,
) -> Result<bool, Fail> {
    match options {
        Ok(options) => Ok(shown(alloc, options)?.as_str() == text && refusal.is_none()),
        Err(error) => Ok(refusal == Some(*error)),
    }
}

#[test]
fn options_are_those_of_each_definition(rt: HostRuntime) -> Result<(), Fail> {
    for (set, added, name, text, refusal) in ROWS {
        let pool = with_added(rt.alloc(), set.bytes(), added.bytes())?;
        let options = leaked(rt.alloc(), options_of(rt.alloc(), pool, name)?)?;
        assert!(rt; is_answer(rt.alloc(), options, text, refusal)?, "{name}");
    }
    Ok(())
}
