//! By which names and numbers definitions are found, and that nothing is found by others.

use crate::describe::Listed;
use crate::named::{Set, field_of, is_its_copy, lent, pool_of, type_in};
use prost_reflect::{
    DescriptorPool, EnumDescriptor, FieldDescriptor, FieldDescriptorLike, Kind, MessageDescriptor,
};
use prost_reflect_samples::leaked;
use std::alloc::{AllocError, Global};
use std::test::Fail;

/// `s.proto`, of proto2: in `p`
///
///     message M {
///       optional int32 a = 5 [json_name = "n"];
///       optional int32 b = 3 [json_name = "n"];
///       enum E { B = 2; A = 1; C = 1; }
///       extensions 100 to 199;
///       extend M { optional int32 x = 100; }
///     }
///     message N { extensions 1 to 8; }
///     service S { rpc Go(stream M) returns (M); }
///     extend N { optional int32 y = 7; }
///     extend M { optional int32 z = 101; }
pub(crate) static SMALL: &[u8] =
    b"\x0a\xa4\x01\x0a\x07s.proto\x12\x01p\"Q\x0a\x01M\x12\x0c\x0a\x01a\x18\x05 \x01(\x05R\x01n\x12\
    \x0c\x0a\x01b\x18\x03 \x01(\x05R\x01n\"\x18\x0a\x01E\x12\x05\x0a\x01B\x10\x02\x12\x05\x0a\x01A\
    \x10\x01\x12\x05\x0a\x01C\x10\x01*\x05\x08d\x10\xc8\x012\x0f\x0a\x01x\x12\x04.p.M\x18d \x01(\x05\
    \"\x09\x0a\x01N*\x04\x08\x01\x10\x092\x17\x0a\x01S\x12\x12\x0a\x02Go\x12\x04.p.M\x1a\x04.p.M(\
    \x01:\x0f\x0a\x01y\x12\x04.p.N\x18\x07 \x01(\x05:\x0e\x0a\x01z\x12\x03p.M\x18e \x01(\x05";

/// `k.proto`, of proto2: `message M { optional E e = 1; map<string, int32> m = 2; } enum E { ZERO = 0; }` in `k`. And
/// `o.proto`, of proto3: `message M { E e = 1; } enum E { ZERO = 0; }` in `o`.
pub(crate) static K_AND_O: &[u8] =
    b"\x0as\x0a\x07k.proto\x12\x01k\"V\x0a\x01M\x12\x0f\x0a\x01e\x18\x01 \x01(\x0e2\x04.k.E\x12\x16\
    \x0a\x01m\x18\x02 \x03(\x0b2\x0b.k.M.MEntry\x1a(\x0a\x06MEntry\x12\x0b\x0a\x03key\x18\x01 \x01\
    (\x09\x12\x0d\x0a\x05value\x18\x02 \x01(\x05:\x028\x01*\x0d\x0a\x01E\x12\x08\x0a\x04ZERO\x10\x00\
    \x0a9\x0a\x07o.proto\x12\x01o\"\x14\x0a\x01M\x12\x0f\x0a\x01e\x18\x01 \x01(\x0e2\x04.o.E*\x0d\
    \x0a\x01E\x12\x08\x0a\x04ZERO\x10\x00b\x06proto3";

/// 1 where what is found has the name, 2 where it has another, and 0 where nothing is found.
fn answer<D: Listed + Drop>(found: Option<D>, name: &str) -> u8 {
    match found {
        Some(found) => { if found.listed() == name { 1 } else { 2 } }
        None => 0,
    }
}

/// A set, a name, and what is found by it: a file, a message type, an enum, an extension and a service.
static NAMES: [(Set, &str, [u8; 5]); 26] = [
    (Set::Whole, "whole.proto", [1, 0, 0, 0, 0]),
    (Set::Whole, "Plain", [0, 1, 0, 0, 0]),
    (Set::Whole, "w.x.A.B.C.Item", [0, 1, 0, 0, 0]),
    (Set::Whole, "w.x.A.B.C.State", [0, 0, 1, 0, 0]),
    (Set::Whole, "base.Level", [0, 0, 1, 0, 0]),
    (Set::Whole, "w.x.A.B.C.c", [0, 0, 0, 1, 0]),
    (Set::Whole, "w.x.S", [0, 0, 0, 0, 1]),
    // A field, a value, a method and a package are none of these, nor is a name with a dot in front, or none.
    (Set::Whole, "w.x.A.text", [0; 5]),
    (Set::Whole, "w.x.A.B.C.OFF", [0; 5]),
    (Set::Whole, "w.x.S.Go", [0; 5]),
    (Set::Whole, "w.x", [0; 5]),
    (Set::Whole, ".w.x.A", [0; 5]),
    (Set::Whole, "", [0; 5]),
    (Set::Small, "s.proto", [1, 0, 0, 0, 0]),
    (Set::Small, "p", [0; 5]),
    (Set::Small, "p.S", [0, 0, 0, 0, 1]),
    (Set::Small, "p.M", [0, 1, 0, 0, 0]),
    (Set::Small, "p.N", [0, 1, 0, 0, 0]),
    (Set::Small, "p.M.E", [0, 0, 1, 0, 0]),
    (Set::Small, "p.E", [0; 5]),
    // An extension has the scope in which it is declared, whatever it extends.
    (Set::Small, "p.M.x", [0, 0, 0, 1, 0]),
    (Set::Small, "p.z", [0, 0, 0, 1, 0]),
    (Set::Small, "p.M.a", [0; 5]),
    (Set::Small, "p.x", [0; 5]),
    // Files may come in any order.
    (Set::AAndB, "A", [0, 1, 0, 0, 0]),
    (Set::BAndA, "A", [0, 1, 0, 0, 0]),
];

/// What is found in the pool by the name, in the order of `NAMES`.
pub(crate) fn found_in_pool(pool: &DescriptorPool, name: &str) -> Result<[u8; 5], AllocError> {
    let file = answer(pool.get_file_by_name(name)?, name);
    let message = answer(pool.get_message_by_name(name)?, name);
    let found = answer(pool.get_enum_by_name(name)?, name);
    let extension = answer(pool.get_extension_by_name(name)?, name);
    let service = answer(pool.get_service_by_name(name)?, name);
    Ok([file, message, found, extension, service])
}

#[test]
fn definitions_are_found_by_their_names_alone(rt: HostRuntime) -> Result<(), Fail> {
    for (set, name, found) in NAMES {
        let pool = pool_of(rt.alloc(), set.bytes())?;
        assert!(rt; found_in_pool(pool, name)? == found, "{name}");
    }
    Ok(())
}

/// A set and a message type, a name, and the numbers of what is found by it in the type: a field, a field by its name in JSON,
/// an extension by its full name, and an extension by its name in JSON; 0 where there is none.
static MEMBERS: [(Set, &str, &str, [u32; 4]); 17] = [
    (Set::Whole, "w.x.A", "level", [2, 2, 0, 0]),
    (Set::Whole, "w.x.A", "w.x.marks", [0, 0, 101, 0]),
    (Set::Whole, "w.x.A", "[w.x.marks]", [0, 0, 0, 101]),
    (Set::Whole, "w.x.A", "w.x.A.level", [0; 4]),
    (Set::Whole, "w.x.A", "choice", [0; 4]),
    (Set::Whole, "w.x.A", "gone", [0; 4]),
    (Set::Whole, "w.x.A.B", "c", [1, 0, 0, 0]),
    (Set::Whole, "w.x.A.B", "see", [0, 1, 0, 0]),
    (Set::Whole, "w.x.Other", "w.x.A.B.C.c", [0, 0, 100, 0]),
    (Set::Whole, "w.x.Other", "c", [0; 4]),
    // Of two fields with one name in JSON the lower number is found; an extension is no field.
    (Set::Small, "p.M", "a", [5, 0, 0, 0]),
    (Set::Small, "p.M", "n", [0, 3, 0, 0]),
    (Set::Small, "p.M", "x", [0; 4]),
    // A message type finds its own extensions, wherever they are declared, and no others.
    (Set::Small, "p.M", "p.z", [0, 0, 101, 0]),
    (Set::Small, "p.M", "[p.M.x]", [0, 0, 0, 100]),
    (Set::Small, "p.M", "p.y", [0; 4]),
    (Set::M, "package.MyMessage", "nested", [3, 3, 0, 0]),
];

/// The number, and 0 for none.
fn number_of<F: FieldDescriptorLike + Drop>(found: Option<F>) -> u32 {
    match found {
        Some(found) => found.number(),
        None => 0,
    }
}

/// The numbers of what is found in the message type by the name, in the order of `MEMBERS`.
pub(crate) fn found_in_message(
    message: &MessageDescriptor,
    name: &str,
) -> Result<[u32; 4], AllocError> {
    let field = number_of(message.get_field_by_name(name)?);
    let json = number_of(message.get_field_by_json_name(name)?);
    let extension = number_of(message.get_extension_by_full_name(name)?);
    let bracketed = number_of(message.get_extension_by_json_name(name)?);
    Ok([field, json, extension, bracketed])
}

/// A set and a message type, a number, and what is found by it: a field and an extension, of this name or full name.
static NUMBERS: [(Set, &str, u32, &str, [u8; 2]); 15] = [
    (Set::Whole, "w.x.A", 2, "level", [1, 0]),
    (Set::Whole, "w.x.A", 7, "text", [1, 0]),
    (Set::Whole, "w.x.A", 101, "w.x.marks", [0, 1]),
    (Set::Whole, "w.x.A", 0, "", [0; 2]),
    (Set::Whole, "w.x.A", 4, "", [0; 2]),
    (Set::Whole, "w.x.A", 100, "", [0; 2]),
    (Set::Whole, "w.x.A", u32::MAX, "", [0; 2]),
    (Set::Small, "p.M", 100, "p.M.x", [0, 1]),
    (Set::Small, "p.M", 7, "", [0; 2]),
    (Set::VAndW, "v.V", 1, "values", [1, 0]),
    (Set::VAndW, "v.V", 100, "v.V.ext_values", [0, 1]),
    (Set::VAndW, "v.V", 101, "v.top_values", [0, 1]),
    (Set::VAndW, "w.W", 1, "values", [1, 0]),
    (Set::VAndW, "w.W", 100, "w.W.ext_values", [0, 1]),
    (Set::VAndW, "w.W", 101, "w.top_values", [0, 1]),
];

/// What is found by the number, in the order of `NUMBERS`.
pub(crate) fn found_by_number(
    message: &MessageDescriptor,
    number: u32,
    name: &str,
) -> Result<[u8; 2], AllocError> {
    let field = answer(message.get_field(number)?, name);
    let extension = answer(message.get_extension(number)?, name);
    Ok([field, extension])
}

#[test]
fn members_are_found_by_their_names_and_numbers(rt: HostRuntime) -> Result<(), Fail> {
    for (set, message, name, found) in MEMBERS {
        let message = type_in(rt.alloc(), set, message)?;
        assert!(rt; found_in_message(message, name)? == found, "{name}");
    }
    for (set, message, number, name, found) in NUMBERS {
        let message = type_in(rt.alloc(), set, message)?;
        assert!(rt;
            found_by_number(message, number, name)? == found,
            "{number}"
        );
    }
    Ok(())
}

/// A set and an enum, a name, a number with the name of the value that is found by it, and whether values are found by the name
/// and the number. Of values of one number the first declared is found.
static VALUES: [(Set, &str, &str, i32, &str, [u8; 2]); 8] = [
    (Set::Whole, "w.x.A.B.C.State", "UP", 1, "ON", [1, 1]),
    (Set::Whole, "w.x.A.B.C.State", "OFF", 2, "OFF", [1, 1]),
    (
        Set::Whole,
        "w.x.A.B.C.State",
        "w.x.A.B.C.OFF",
        0,
        "",
        [0; 2],
    ),
    (Set::Whole, "w.x.A.B.C.State", "off", -1, "", [0; 2]),
    (Set::Small, "p.M.E", "C", 1, "A", [1, 1]),
    (Set::Small, "p.M.E", "p.M.A", 2, "B", [0, 1]),
    (Set::Small, "p.M.E", "p.M.A", 0, "", [0; 2]),
    (Set::Streamed, "p.M.E", "A", 1, "A", [1, 1]),
];

/// What is found by the name and by the number, in the order of `VALUES`.
pub(crate) fn found_in_enum(
    found: &EnumDescriptor,
    name: &str,
    number: i32,
    first: &str,
) -> Result<[u8; 2], AllocError> {
    let named = answer(found.get_value_by_name(name)?, name);
    let numbered = answer(found.get_value(number)?, first);
    Ok([named, numbered])
}

#[test]
fn values_are_found_by_their_names_and_numbers(rt: HostRuntime) -> Result<(), Fail> {
    for (set, e, name, number, first, found) in VALUES {
        let e = lent(
            rt.alloc(),
            pool_of(rt.alloc(), set.bytes())?.get_enum_by_name(e),
        )?;
        assert!(rt;
            found_in_enum(e, name, number, first)? == found,
            "{name} {number}"
        );
    }
    Ok(())
}

/// A set and a message type, the number of a field, the message type and the enum that its kind leads to, and whether the enum is
/// closed: one of proto2 is, and one of proto3 is not.
static KINDS: [(Set, &str, u32, &str, &str, bool); 6] = [
    (Set::Whole, "w.x.A", 3, "w.x.A.BsEntry", "", false),
    (Set::Whole, "w.x.A", 2, "", "base.Level", false),
    (Set::Whole, "w.x.A", 7, "", "", false),
    (Set::KAndO, "k.M", 1, "", "k.E", true),
    (Set::KAndO, "k.M", 2, "k.M.MEntry", "", false),
    (Set::KAndO, "o.M", 1, "", "o.E", false),
];

/// The kind of the field of the number.
fn kind_of(alloc: Global, message: &MessageDescriptor, number: u32) -> Result<&'static Kind, Fail> {
    let field = lent(alloc, message.get_field(number))?;
    Ok(leaked(alloc, field.kind()?)?)
}

/// Whether the kind leads to the message type and to the enum of the pool, or to none where there is no name.
fn leads_to(
    kind: &Kind,
    pool: &DescriptorPool,
    (message, e, is_closed): (&str, &str, bool),
) -> bool {
    let leads_to_message = match kind.as_message() {
        Some(found) => found.full_name() == message,
        None => message.is_empty(),
    };
    let leads_to_enum = match kind.as_enum() {
        Some(found) => {
            found.full_name() == e
                && found.is_closed() == is_closed
                && *found.parent_pool() == *pool
        }
        None => e.is_empty(),
    };
    leads_to_message && leads_to_enum
}

/// Whether the field stands in the message type of the name, which is one of the pool.
fn stands_in(field: &FieldDescriptor, pool: &DescriptorPool, name: &str) -> bool {
    let parent = field.parent_message();
    parent.full_name() == name && *parent.parent_pool() == *pool
}

/// A field stands in its message type. Its kind leads to a message type, or to an enum, and a scalar kind to neither.
#[test]
fn kinds_lead_to_their_types(rt: HostRuntime) -> Result<(), Fail> {
    for (set, name, number, message, e, is_closed) in KINDS {
        let pool = pool_of(rt.alloc(), set.bytes())?;
        let field = field_of(rt.alloc(), pool, name, number)?;
        assert!(rt; stands_in(field, pool, name), "{name} {number}");
        let kind: &Kind = leaked(rt.alloc(), field.kind()?)?;
        assert!(rt;
            is_its_copy(kind)? && leads_to(kind, pool, (message, e, is_closed)),
            "{name} {number}"
        );
    }
    let message = type_in(rt.alloc(), Set::Whole, "w.x.A")?;
    assert!(rt; *kind_of(rt.alloc(), message, 7)? != *kind_of(rt.alloc(), message, 2)?);
    Ok(())
}
