//! The built-in message types, found by name and by number, and the bytes of their files.

use crate::described::says;
use crate::named::{is_its_copy, message_of};
use crate::pools::is_made_of;
use prost_reflect::{DescriptorPool, MessageDescriptor, builtin_pool};
use prost_reflect_samples::leaked;
use std::alloc::{AllocError, Global};
use std::test::Fail;

/// The pool of the built-in types.
fn builtins(alloc: Global) -> Result<&'static DescriptorPool, Fail> {
    Ok(leaked(alloc, builtin_pool(alloc)?)?)
}

/// The number of a field, which is the code of its type, and its name, in both built-in message types.
static FIELDS: [(u8, &str); 15] = [
    (1, "f_double"),
    (2, "f_float"),
    (3, "f_int64"),
    (4, "f_uint64"),
    (5, "f_int32"),
    (6, "f_fixed64"),
    (7, "f_fixed32"),
    (8, "f_bool"),
    (9, "f_string"),
    (12, "f_bytes"),
    (13, "f_uint32"),
    (15, "f_sfixed32"),
    (16, "f_sfixed64"),
    (17, "f_sint32"),
    (18, "f_sint64"),
];

/// `plain.proto`, of proto3, and `kept.proto`, of proto2, both in `builtin`: each has a message type, `Plain` or `Kept`, with a
/// singular field for each row of `FIELDS`, whose records have a name, a number, a label and a type alone, and nothing else.
static FILES: &[u8] =
    b"\x0a\xb6\x02\x0a\x0bplain.proto\x12\x07builtin\"\x95\x02\x0a\x05Plain\x12\x10\x0a\x08f_double\x18\
    \x01 \x01(\x01\x12\x0f\x0a\x07f_float\x18\x02 \x01(\x02\x12\x0f\x0a\x07f_int64\x18\x03 \x01(\x03\x12\
    \x10\x0a\x08f_uint64\x18\x04 \x01(\x04\x12\x0f\x0a\x07f_int32\x18\x05 \x01(\x05\x12\x11\x0a\x09f_fix\
    ed64\x18\x06 \x01(\x06\x12\x11\x0a\x09f_fixed32\x18\x07 \x01(\x07\x12\x0e\x0a\x06f_bool\x18\x08 \x01\
    (\x08\x12\x10\x0a\x08f_string\x18\x09 \x01(\x09\x12\x0f\x0a\x07f_bytes\x18\x0c \x01(\x0c\x12\x10\x0a\
    \x08f_uint32\x18\x0d \x01(\x0d\x12\x12\x0a\x0af_sfixed32\x18\x0f \x01(\x0f\x12\x12\x0a\x0af_sfixed64\
    \x18\x10 \x01(\x10\x12\x10\x0a\x08f_sint32\x18\x11 \x01(\x11\x12\x10\x0a\x08f_sint64\x18\x12 \x01(\
    \x12b\x06proto3\x0a\xb4\x02\x0a\x0akept.proto\x12\x07builtin\"\x94\x02\x0a\x04Kept\x12\x10\x0a\x08f_\
    double\x18\x01 \x01(\x01\x12\x0f\x0a\x07f_float\x18\x02 \x01(\x02\x12\x0f\x0a\x07f_int64\x18\x03 \
    \x01(\x03\x12\x10\x0a\x08f_uint64\x18\x04 \x01(\x04\x12\x0f\x0a\x07f_int32\x18\x05 \x01(\x05\x12\x11\
    \x0a\x09f_fixed64\x18\x06 \x01(\x06\x12\x11\x0a\x09f_fixed32\x18\x07 \x01(\x07\x12\x0e\x0a\x06f_bool\
    \x18\x08 \x01(\x08\x12\x10\x0a\x08f_string\x18\x09 \x01(\x09\x12\x0f\x0a\x07f_bytes\x18\x0c \x01(\
    \x0c\x12\x10\x0a\x08f_uint32\x18\x0d \x01(\x0d\x12\x12\x0a\x0af_sfixed32\x18\x0f \x01(\x0f\x12\x12\
    \x0a\x0af_sfixed64\x18\x10 \x01(\x10\x12\x10\x0a\x08f_sint32\x18\x11 \x01(\x11\x12\x10\x0a\x08f_sint\
    64\x18\x12 \x01(\x12b\x06proto2";

/// What the descriptor of the field 17 of `Kept` says.
static SINT32: &str =
    "\nfield builtin.Kept.f_sint32 path=4.0.2.13 json=f_sint32 number=17 kind=Sint32 wire=0 cardinality=Optional presence=true packed=false group=false list=false map=false required=false oneof=-\n";

/// The name of the field of the number, or none.
fn name_of(number: u32) -> &'static str {
    for (code, name) in &FIELDS {
        if u32::from(*code) == number {
            return name;
        }
    }
    ""
}

/// Whether the type has a field of the number exactly if there is a row of it, and the field has presence or not.
fn has_row(message: &MessageDescriptor, number: u32, presence: bool) -> Result<bool, AllocError> {
    let name = name_of(number);
    match message.get_field(number)? {
        Some(field) => Ok(field.name() == name && field.supports_presence() == presence),
        None => Ok(name.is_empty()),
    }
}

/// The numbers 10, 11, 14 and those above 18 are of no field. All fields of `Kept` have presence, and none of `Plain`.
#[test]
fn built_in_files_have_scalar_fields(rt: HostRuntime) -> Result<(), Fail> {
    let pool = builtins(rt.alloc())?;
    assert!(rt; is_made_of(rt.alloc(), pool, FILES)?);
    assert!(rt; says(rt.alloc(), pool, SINT32)?);
    for (name, presence) in [("builtin.Plain", false), ("builtin.Kept", true)] {
        let message = message_of(rt.alloc(), pool, name)?;
        assert!(rt; is_its_copy(message)? && message.full_name() == name);
        for number in 0..30_u32 {
            assert!(rt; has_row(message, number, presence)?, "{number}");
        }
    }
    Ok(())
}
