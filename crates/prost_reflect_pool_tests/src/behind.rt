//! What is asked of the pool behind which a file is added, and what an addition changes of a message type that is there.

use crate::describe::describe;
use crate::described::says;
use crate::many::append;
use crate::named::{message_of, pool_of};
use prost_reflect::{DescriptorPool, MessageDescriptor, PoolError};
use prost_reflect_samples::leaked;
use std::alloc::{AllocError, Global};
use std::test::Fail;

/// `o.proto`, of proto2, in `p`:
///
///     message M {
///       oneof c { int32 g = 10; }
///       optional int32 f = 1;
///       map<int32, int32> m = 2;
///       extensions 1 to 4, 11 to 19;
///     }
///     enum E { ZERO = 0; ONE = 1; }
///     service S { rpc Go(M) returns (M); }
///     extend M { optional int32 x = 11; }
static OLD: &[u8] =
    b"\x0a\x07o.proto\x12\x01p\"n\x0a\x01M\x12\x0b\x0a\x01g\x18\x0a \x01(\x05H\x00\x12\x09\x0a\x01f\
    \x18\x01 \x01(\x05\x12\x16\x0a\x01m\x18\x02 \x03(\x0b2\x0b.p.M.MEntry\x1a(\x0a\x06MEntry\x12\
    \x0b\x0a\x03key\x18\x01 \x01(\x05\x12\x0d\x0a\x05value\x18\x02 \x01(\x05:\x028\x01*\x04\x08\x01\
    \x10\x05*\x04\x08\x0b\x10\x14B\x03\x0a\x01c*\x16\x0a\x01E\x12\x08\x0a\x04ZERO\x10\x00\x12\x07\
    \x0a\x03ONE\x10\x012\x15\x0a\x01S\x12\x10\x0a\x02Go\x12\x04.p.M\x1a\x04.p.M:\x0f\x0a\x01x\x12\
    \x04.p.M\x18\x0b \x01(\x05";

/// What a file `n.proto` has behind its name, and why it is refused behind `o.proto`, or nothing where it is taken.
static ADDED: [(&[u8], Option<PoolError>); 27] = [
    // A value `ZERO`, a message `ONE`, a value `M`, a message `x`, an extension `E` and a service `S`.
    (
        b"\x12\x01p*\x0d\x0a\x01F\x12\x08\x0a\x04ZERO\x10\x00",
        Some(PoolError::DuplicateName),
    ),
    (
        b"\x12\x01p\"\x05\x0a\x03ONE",
        Some(PoolError::DuplicateName),
    ),
    (
        b"\x12\x01p*\x0a\x0a\x01F\x12\x05\x0a\x01M\x10\x00",
        Some(PoolError::DuplicateName),
    ),
    (b"\x12\x01p\"\x03\x0a\x01x", Some(PoolError::DuplicateName)),
    (
        b"\x12\x01p:\x0f\x0a\x01E\x12\x04.p.M\x18\x0c \x01(\x05",
        Some(PoolError::DuplicateName),
    ),
    (b"\x12\x01p2\x03\x0a\x01S", Some(PoolError::DuplicateName)),
    // Files of the packages `p.M`, `p.M.MEntry` and `p.S`, with definitions `f`, `c`, `MEntry`, `key` and `Go`.
    (
        b"\x12\x03p.M\"\x03\x0a\x01f",
        Some(PoolError::DuplicateName),
    ),
    (
        b"\x12\x03p.M\"\x03\x0a\x01c",
        Some(PoolError::DuplicateName),
    ),
    (
        b"\x12\x03p.M*\x0f\x0a\x06MEntry\x12\x05\x0a\x01A\x10\x00",
        Some(PoolError::DuplicateName),
    ),
    (
        b"\x12\x0ap.M.MEntry2\x05\x0a\x03key",
        Some(PoolError::DuplicateName),
    ),
    (
        b"\x12\x03p.S\"\x04\x0a\x02Go",
        Some(PoolError::DuplicateName),
    ),
    // Extensions of `M` with the numbers of `x` and of `f`.
    (
        b"\x12\x01p:\x0f\x0a\x01y\x12\x04.p.M\x18\x0b \x01(\x05",
        Some(PoolError::DuplicateNumber),
    ),
    (
        b"\x12\x01p:\x0f\x0a\x01y\x12\x04.p.M\x18\x01 \x01(\x05",
        Some(PoolError::DuplicateNumber),
    ),
    // Extensions of `M` and of `MEntry` outside of the ranges.
    (
        b"\x12\x01p:\x0f\x0a\x01y\x12\x04.p.M\x18\x14 \x01(\x05",
        Some(PoolError::OutsideRange),
    ),
    (
        b"\x12\x01p:\x16\x0a\x01y\x12\x0b.p.M.MEntry\x18\x03 \x01(\x05",
        Some(PoolError::OutsideRange),
    ),
    // Fields of a message that is not there, of an enum that is a message, and of an entry of a map that is no list.
    (
        b"\x12\x01p\"\x16\x0a\x01N\x12\x11\x0a\x01f\x18\x01 \x01(\x0b2\x06.p.N.M",
        Some(PoolError::UnknownType),
    ),
    (
        b"\x12\x01p\"\x14\x0a\x01N\x12\x0f\x0a\x01f\x18\x01 \x01(\x0e2\x04.p.M",
        Some(PoolError::UnknownType),
    ),
    (
        b"\x12\x01p\"\x1b\x0a\x01N\x12\x16\x0a\x01f\x18\x01 \x01(\x0b2\x0b.p.M.MEntry",
        Some(PoolError::BadMapEntry),
    ),
    // A default that `E` has not, and a file that is not there.
    (
        b"\x12\x01p\"\x19\x0a\x01N\x12\x14\x0a\x01f\x18\x01 \x01(\x0e2\x04.p.E:\x03TWO",
        Some(PoolError::BadDefault),
    ),
    (
        b"\x12\x01p\x1a\x07q.proto",
        Some(PoolError::MissingDependency),
    ),
    // A value `q.ZERO`, messages `f` and `c`, extensions inside of the ranges, types and a default that are there, a map of the
    // entries of another one, and a file that is there.
    (b"\x12\x01q*\x0d\x0a\x01F\x12\x08\x0a\x04ZERO\x10\x00", None),
    (
        b"\x12\x01p\"\x0e\x0a\x01f\x12\x09\x0a\x01M\x18\x01 \x01(\x05\"\x03\x0a\x01c",
        None,
    ),
    (
        b"\x12\x01p:\x0f\x0a\x01y\x12\x04.p.M\x18\x0c \x01(\x05",
        None,
    ),
    (
        b"\x12\x01p:\x0f\x0a\x01y\x12\x04.p.M\x18\x04 \x01(\x05",
        None,
    ),
    (
        b"\x12\x01p\"*\x0a\x01N\x12\x0f\x0a\x01f\x18\x01 \x01(\x0b2\x04.p.M\x12\x14\x0a\x01g\
        \x18\x02 \x01(\x0e2\x04.p.E:\x03ONE",
        None,
    ),
    (
        b"\x12\x01p\"\x1b\x0a\x01N\x12\x16\x0a\x01f\x18\x01 \x03(\x0b2\x0b.p.M.MEntry",
        None,
    ),
    (b"\x12\x01p\x1a\x07o.protoP\x00", None),
];

/// A set of both files.
fn both(alloc: Global, rest: &[u8]) -> Result<&'static Vec<u8>, AllocError> {
    let set = leaked(alloc, Vec::new(alloc))?;
    append(set, 0x0a, OLD)?;
    let file = leaked(alloc, Vec::from_slice(alloc, b"\x0a\x07n.proto")?)?;
    file.extend_from_slice(rest)?;
    append(set, 0x0a, file)?;
    Ok(set)
}

/// Whether both pools are equal, and descriptors say the same of them.
fn is_like(alloc: Global, pool: &DescriptorPool, other: &DescriptorPool) -> Result<bool, Fail> {
    Ok(*pool == *other && describe(alloc, pool)? == describe(alloc, other)?)
}

/// Whether the file is refused by the fault behind a pool of `o.proto`, and together with it, and changes nothing then; or is taken
/// both times, and makes the same.
fn is_answered(alloc: Global, rest: &[u8], fault: Option<PoolError>) -> Result<bool, Fail> {
    let set = both(alloc, rest)?;
    let pool = leaked(alloc, DescriptorPool::new(alloc)?)?;
    pool.decode_file_descriptor_proto(OLD)?;
    let old = leaked(alloc, pool.clone()?)?;
    let is_alike = pool.decode_file_descriptor_set(set).err() == fault;
    if fault.is_some() {
        let is_refused = DescriptorPool::decode(alloc, set).err() == fault;
        Ok(is_alike && is_refused && is_like(alloc, pool, old)?)
    } else {
        Ok(is_alike && is_like(alloc, pool, pool_of(alloc, set)?)?)
    }
}

/// Names, numbers, ranges, types, values and files of the pool count as those of the added file do.
#[test]
fn an_addition_is_checked_behind_the_pool(rt: HostRuntime) -> Result<(), Fail> {
    for (rest, fault) in ADDED {
        assert!(rt; is_answered(rt.alloc(), rest, fault)?, "{rest:?}");
    }
    Ok(())
}

/// A file that is added, the numbers of the extensions that `M` has then, in the order in which they are listed, and lines that
/// are said then.
static ADDITIONS: [(&[u8], &[u32], &str); 4] = [
    // `m.proto`, of proto2, in `p`: `message M { oneof o { int32 d = 50; int32 b = 10; int32 c = 30; } optional int32 a = 1;
    // extensions 11 to 29, 31 to 49; }`, where `a` is declared between `b` and `c`.
    (
        b"\x0a\x07m.proto\x12\x01p\"F\x0a\x01M\x12\x0b\x0a\x01d\x182 \x01(\x05H\x00\x12\x0b\x0a\x01b\x18\
        \x0a \x01(\x05H\x00\x12\x09\x0a\x01a\x18\x01 \x01(\x05\x12\x0b\x0a\x01c\x18\x1e \x01(\x05H\x00*\
        \x04\x08\x0b\x10\x1e*\x04\x08\x1f\x102B\x03\x0a\x01o",
        &[],
        "message p.M name=M file=m.proto package=p path=4.0 parent=- entry=false fields=a,b,c,d oneofs=o child_messages=- child_enums=- child_extensions=- extensions=- reserved=- reserved_names=- ranges=11-30,31-50\n",
    ),
    // `later.proto`, of proto2, in `p`: `extend M { optional int32 later = 40; }`.
    (
        b"\x0a\x0blater.proto\x12\x01p\x1a\x07m.proto:\x13\x0a\x05later\x12\x04.p.M\x18( \x01(\x05",
        &[40],
        "extensions=p.later reserved=- reserved_names=- ranges=11-30,31-50\n",
    ),
    // `first.proto`, of proto2, in `p`: `message N { extend M { optional int32 first = 12; } extensions 1; }`.
    (
        b"\x0a\x0bfirst.proto\x12\x01p\x1a\x07m.proto\"\x1e\x0a\x01N2\x13\x0a\x05first\x12\x04.p.M\x18\
        \x0c \x01(\x05*\x04\x08\x01\x10\x02",
        &[40, 12],
        "extensions=p.later,p.N.first reserved=- reserved_names=- ranges=11-30,31-50\n",
    ),
    // `last.proto`, of proto2, in `q`: `extend p.N { optional int32 own = 1; } extend p.M { optional int32 last = 49; optional int32
    // front = 11; }`.
    (
        b"\x0a\x0alast.proto\x12\x01q\x1a\x0bfirst.proto:\x11\x0a\x03own\x12\x04.p.N\x18\x01 \x01(\x05:\
        \x12\x0a\x04last\x12\x04.p.M\x181 \x01(\x05:\x13\x0a\x05front\x12\x04.p.M\x18\x0b \x01(\x05",
        &[40, 12, 49, 11],
        "extensions=q.own reserved=- reserved_names=- ranges=1-2\n",
    ),
];

/// What is said of the members of the oneof behind each addition.
static MEMBERS: &str = "\
    field p.M.b path=4.0.2.1 json=b number=10 kind=Int32 wire=0 cardinality=Optional presence=true packed=false group=false list=false map=false required=false oneof=o\n\
    field p.M.c path=4.0.2.3 json=c number=30 kind=Int32 wire=0 cardinality=Optional presence=true packed=false group=false list=false map=false required=false oneof=o\n\
    field p.M.d path=4.0.2.0 json=d number=50 kind=Int32 wire=0 cardinality=Optional presence=true packed=false group=false list=false map=false required=false oneof=o\n\
    oneof p.M.o path=4.0.8.0 fields=d,b,c synthetic=false\n";

/// Whether the extensions that are listed with the message type have these numbers, and are found by them.
fn are_listed(message: &MessageDescriptor, numbers: &[u32]) -> Result<bool, AllocError> {
    let mut all = message.extensions().len() == numbers.len();
    for (extension, number) in message.extensions().zip(numbers) {
        let extension = extension?;
        all &= extension.number() == *number && message.get_extension(*number)?.is_some();
    }
    Ok(all)
}

/// Extensions are listed with a message type that was there, wherever they are declared, its oneof keeps its members, between whose
/// numbers theirs fall, and the message type that was had before has no more than it had.
#[test]
fn an_extension_is_listed_with_an_older_message_type(rt: HostRuntime) -> Result<(), Fail> {
    let pool = leaked(rt.alloc(), DescriptorPool::new(rt.alloc())?)?;
    let had = leaked(rt.alloc(), Vec::new(rt.alloc()))?;
    for (file, _, lines) in ADDITIONS {
        pool.decode_file_descriptor_proto(file)?;
        had.push(message_of(rt.alloc(), pool, "p.M")?)?;
        assert!(rt; says(rt.alloc(), pool, lines)?, "{lines}");
        assert!(rt; says(rt.alloc(), pool, MEMBERS)?, "{lines}");
        for (message, (_, numbers, _)) in had.iter().zip(&ADDITIONS) {
            assert!(rt; are_listed(message, numbers)?, "{numbers:?}");
        }
    }
    Ok(())
}
