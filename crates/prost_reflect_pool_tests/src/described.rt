//! What descriptors say of definitions: names, paths, orders, labels, streams and packing.

use crate::describe::describe;
use crate::named::{Set, pool_of, type_in};
use prost_reflect::{DescriptorPool, MessageDescriptor};
use std::alloc::{AllocError, Global};
use std::test::Fail;

/// What protoc writes for `s.proto`, of proto2: `message M { enum E { option allow_alias = true; B = 2; A = 1; C = 1; }
/// extensions 100 to 199; extend M { optional int32 x = 100; } } service S { rpc Go(stream M) returns (M); }` in `p`.
pub(crate) static STREAMED: &[u8] =
    b"\x0ac\x0a\x07s.proto\x12\x01p\"<\x0a\x01M\"\x1c\x0a\x01E\x12\x05\x0a\x01B\x10\x02\x12\x05\
    \x0a\x01A\x10\x01\x12\x05\x0a\x01C\x10\x01\x1a\x02\x10\x01*\x05\x08d\x10\xc8\x012\x12\x0a\
    \x01x\x12\x04.p.M\x18d \x01(\x05R\x01x2\x17\x0a\x01S\x12\x12\x0a\x02Go\x12\x04.p.M\x1a\x04.\
    p.M(\x01";

/// `v.proto`, of proto2: `message V { repeated int32 values = 1 [deprecated = true]; extensions 100 to 199; extend V {
/// repeated int32 ext_values = 100 [deprecated = true]; } } extend V { repeated int32 top_values = 101 [deprecated = true]; }`
/// in `v`. And `w.proto`, of proto3, with the same of a message `W` in `w`.
pub(crate) static V_AND_W: &[u8] =
    b"\x0a\x86\x01\x0a\x07v.proto\x12\x01v\"O\x0a\x01V\x12\x1a\x0a\x06values\x18\x01 \x03(\x05\
    B\x02\x18\x01R\x06values*\x05\x08d\x10\xc8\x012'\x0a\x0aext_values\x12\x04.v.V\x18d \x03(\
    \x05B\x02\x18\x01R\x09extValues:'\x0a\x0atop_values\x12\x04.v.V\x18e \x03(\x05B\x02\x18\
    \x01R\x09topValues\x0a\x8e\x01\x0a\x07w.proto\x12\x01w\"O\x0a\x01W\x12\x1a\x0a\x06values\
    \x18\x01 \x03(\x05B\x02\x18\x01R\x06values*\x05\x08d\x10\xc8\x012'\x0a\x0aext_values\x12\
    \x04.w.W\x18d \x03(\x05B\x02\x18\x01R\x09extValues:'\x0a\x0atop_values\x12\x04.w.W\x18e \
    \x03(\x05B\x02\x18\x01R\x09topValuesb\x06proto3";

/// A set, and lines that stand in what its descriptors say.
static LINES: [(Set, &str); 10] = [
    // Values stand in ascending order of their numbers, those of one number as they were declared; the default is the first
    // declared one. A method says what is streamed.
    (
        Set::Streamed,
        "\nenum p.M.E name=E file=s.proto package=p path=4.0.4.0 parent=p.M closed=true default=B reserved=- reserved_names=-\n\
        value p.M.A enum=p.M.E number=1 path=4.0.4.0.2.1\n\
        value p.M.C enum=p.M.E number=1 path=4.0.4.0.2.2\n\
        value p.M.B enum=p.M.E number=2 path=4.0.4.0.2.0\n\
        service p.S file=s.proto package=p path=6.0 methods=Go\n\
        method p.S.Go path=6.0.2.0 index=0 input=p.M output=p.M client_streaming=true server_streaming=false\n",
    ),
    // An extension has its name in brackets in JSON.
    (
        Set::Streamed,
        "\nextension p.M.x name=x file=s.proto package=p path=4.0.6.0 parent=p.M json=[p.M.x] containing=p.M number=100 kind=Int32 wire=0 cardinality=Optional presence=true packed=false group=false list=false map=false\n",
    ),
    // A oneof lists its fields.
    (
        Set::M,
        "\nmessage package.MyMessage name=MyMessage file=m.proto package=package path=4.0 parent=- entry=false fields=foo,bar,nested oneofs=optional child_messages=- child_enums=- child_extensions=- extensions=- reserved=- reserved_names=- ranges=-\n",
    ),
    (
        Set::M,
        "\nfield package.MyMessage.nested path=4.0.2.2 json=nested number=3 kind=Message:package.MyMessage wire=2 cardinality=Optional presence=true packed=false group=false list=false map=false required=false oneof=-\n\
        oneof package.MyMessage.optional path=4.0.8.0 fields=bar synthetic=false\n",
    ),
    // Options that say nothing of packing leave it to the syntax: lists are packed in proto3.
    (
        Set::VAndW,
        "\nfield v.V.values path=4.0.2.0 json=values number=1 kind=Int32 wire=0 cardinality=Repeated presence=false packed=false group=false list=true map=false required=false oneof=-\n",
    ),
    (
        Set::VAndW,
        "\nextension v.V.ext_values name=ext_values file=v.proto package=v path=4.0.6.0 parent=v.V json=[v.V.ext_values] containing=v.V number=100 kind=Int32 wire=0 cardinality=Repeated presence=false packed=false group=false list=true map=false\n",
    ),
    (
        Set::VAndW,
        "\nextension v.top_values name=top_values file=v.proto package=v path=7.0 parent=- json=[v.top_values] containing=v.V number=101 kind=Int32 wire=0 cardinality=Repeated presence=false packed=false group=false list=true map=false\n",
    ),
    (
        Set::VAndW,
        "\nfield w.W.values path=4.0.2.0 json=values number=1 kind=Int32 wire=0 cardinality=Repeated presence=false packed=true group=false list=true map=false required=false oneof=-\n",
    ),
    (
        Set::VAndW,
        "\nextension w.W.ext_values name=ext_values file=w.proto package=w path=4.0.6.0 parent=w.W json=[w.W.ext_values] containing=w.W number=100 kind=Int32 wire=0 cardinality=Repeated presence=false packed=true group=false list=true map=false\n",
    ),
    (
        Set::VAndW,
        "\nextension w.top_values name=top_values file=w.proto package=w path=7.0 parent=- json=[w.top_values] containing=w.W number=101 kind=Int32 wire=0 cardinality=Repeated presence=false packed=true group=false list=true map=false\n",
    ),
];

/// Whether the lines stand in what the pool's descriptors say.
pub(crate) fn says(alloc: Global, pool: &DescriptorPool, lines: &str) -> Result<bool, AllocError> {
    Ok(describe(alloc, pool)?.contains(lines))
}

#[test]
fn descriptors_say_what_was_declared(rt: HostRuntime) -> Result<(), Fail> {
    for (set, lines) in LINES {
        let pool = pool_of(rt.alloc(), set.bytes())?;
        assert!(rt; says(rt.alloc(), pool, lines)?, "{lines}");
    }
    Ok(())
}

/// A set and a message type; of a type of a map's entries, that its fields 1 and 2 are its key and its value.
static ENTRIES: [(Set, &str, Option<bool>); 3] = [
    (Set::KAndO, "k.M.MEntry", Some(true)),
    (Set::KAndO, "k.M", None),
    (Set::Whole, "w.x.A.BsEntry", Some(true)),
];

/// Of a type of a map's entries, whether its fields 1 and 2 are its key and its value; none of any other type.
fn key_and_value(message: &MessageDescriptor) -> Result<Option<bool>, AllocError> {
    if message.is_map_entry() {
        let has_key = message.map_entry_key_field()?.name() == "key";
        let has_value = message.map_entry_value_field()?.name() == "value";
        Ok(Some(has_key && has_value))
    } else {
        Ok(None)
    }
}

#[test]
fn an_entry_has_a_key_and_a_value(rt: HostRuntime) -> Result<(), Fail> {
    for (set, name, expected) in ENTRIES {
        let message = type_in(rt.alloc(), set, name)?;
        assert!(rt; key_and_value(message)? == expected, "{name}");
    }
    Ok(())
}
