//! Pools that are made of descriptor sets and of records, what is added to them, and what is refused.

use crate::named::{Set, lent, message_of, pool_of, type_in};
use crate::whole::WHOLE;
use prost_reflect::{
    DecodeError, DescriptorPool, FileDescriptor, FileDescriptorProto, FileDescriptorSet,
    MessageDescriptor, PoolError, Proto,
};
use prost_reflect_samples::leaked;
use std::alloc::{AllocError, Global};
use std::test::Fail;

/// `m.proto`, of proto3: `message MyMessage { int32 foo = 1; oneof optional { int32 bar = 2; } MyMessage nested = 3; }` in `package`.
pub(crate) static SET_M: &[u8] =
    b"\x0as\x0a\x07m.proto\x12\x07package\"W\x0a\x09MyMessage\x12\x0b\x0a\x03foo\x18\x01 \x01(\x05\x12\
    \x0d\x0a\x03bar\x18\x02 \x01(\x05H\x00\x12\"\x0a\x06nested\x18\x03 \x01(\x0b2\x12.package.MyMess\
    ageB\x0a\x0a\x08optionalb\x06proto3";

/// `a.proto` and `b.proto`, which depend on each other.
pub(crate) static A_AND_B: &[u8] =
    b"\x0a.\x0a\x07a.proto\x1a\x07b.proto\"\x12\x0a\x01A\x12\x0d\x0a\x01x\x18\x01 \x01(\x0b2\x02.Bb\
    \x06proto3\x0a.\x0a\x07b.proto\x1a\x07a.proto\"\x12\x0a\x01B\x12\x0d\x0a\x01x\x18\x01 \x01(\x0b2\
    \x02.Ab\x06proto3";

pub(crate) static B_AND_A: &[u8] =
    b"\x0a.\x0a\x07b.proto\x1a\x07a.proto\"\x12\x0a\x01B\x12\x0d\x0a\x01x\x18\x01 \x01(\x0b2\x02.Ab\
    \x06proto3\x0a.\x0a\x07a.proto\x1a\x07b.proto\"\x12\x0a\x01A\x12\x0d\x0a\x01x\x18\x01 \x01(\x0b2\
    \x02.Bb\x06proto3";

/// `sound.proto`, and `editions.proto` of the syntax `editions`.
pub(crate) static SOUND_AND_EDITIONS: &[u8] =
    b"\x0a\x16\x0a\x0bsound.proto\"\x07\x0a\x05Sound\x0a\x1a\x0a\x0eeditions.protob\x08editions";

/// A file `m.proto` that no pool takes.
pub(crate) static M_OF_EDITIONS: &[u8] = b"\x0a\x13\x0a\x07m.protob\x08editions";

/// A file that has the message `Z` and no name.
pub(crate) static NAMELESS: &[u8] = b"\x0a\x05\x22\x03\x0a\x01Z";

/// The bytes of both, one behind the other.
fn joined(alloc: Global, front: &[u8], rest: &[u8]) -> Result<&'static Vec<u8>, AllocError> {
    let bytes = leaked(alloc, Vec::from_slice(alloc, front)?)?;
    bytes.extend_from_slice(rest)?;
    Ok(bytes)
}

/// A pool of the set, to which another one is added.
pub(crate) fn with_added(
    alloc: Global,
    set: &[u8],
    added: &[u8],
) -> Result<&'static DescriptorPool, Fail> {
    let pool = leaked(alloc, DescriptorPool::decode(alloc, set)?)?;
    pool.decode_file_descriptor_set(added)?;
    Ok(pool)
}

/// How a pool is made of a set, and of what comes behind it.
#[derive(Clone, Copy)]
enum Way {
    /// Both are read, one after the other.
    Added,
    /// Both are read as one.
    Joined,
    /// The set's records make the pool.
    FromSet,
    /// The records of both are added, of the first as a set and of the second as a list.
    Records,
    /// The record of the set's only file is added.
    File,
    /// The set's only file is read and added.
    ReadFile,
}

/// The pool that is made so.
fn made(alloc: Global, way: Way, set: &[u8], rest: &[u8]) -> Result<&'static DescriptorPool, Fail> {
    let pool = leaked(alloc, DescriptorPool::new(alloc)?)?;
    // The only file of a set stands behind a key and a length of a byte each.
    let file = set.get(2..).ok_or("no file")?;
    match way {
        Way::Added => return with_added(alloc, set, rest),
        Way::Joined => return pool_of(alloc, joined(alloc, set, rest)?),
        Way::FromSet => {
            let set = FileDescriptorSet::decode(alloc, set)?;
            *pool = DescriptorPool::from_file_descriptor_set(alloc, set)?;
        }
        Way::Records => {
            pool.add_file_descriptor_set(FileDescriptorSet::decode(alloc, set)?)?;
            pool.add_file_descriptor_protos(FileDescriptorSet::decode(alloc, rest)?.file)?;
        }
        Way::File => pool.add_file_descriptor_proto(FileDescriptorProto::decode(alloc, file)?)?,
        Way::ReadFile => pool.decode_file_descriptor_proto(file)?,
    }
    Ok(pool)
}

/// A way, a set, what comes behind it, and how much of that is in the pool.
static WAYS: [(Way, Set, Set, Set); 8] = [
    (Way::Added, Set::M, Set::M, Set::Empty),
    (Way::FromSet, Set::AAndB, Set::Empty, Set::Empty),
    (Way::File, Set::M, Set::Empty, Set::Empty),
    (Way::ReadFile, Set::M, Set::Empty, Set::Empty),
    (Way::Records, Set::Schema, Set::Empty, Set::Empty),
    (Way::Records, Set::Schema, Set::Whole, Set::Whole),
    // Of files of one name the first counts, and the others are not looked at.
    (Way::Added, Set::M, Set::MOfEditions, Set::Empty),
    (Way::Joined, Set::M, Set::MOfEditions, Set::Empty),
];

/// Whether a pool of the bytes is equal, and these are written of the pool.
pub(crate) fn is_made_of(alloc: Global, pool: &DescriptorPool, bytes: &[u8]) -> Result<bool, Fail> {
    let written = leaked(alloc, Vec::new(alloc))?;
    pool.encode(written)?;
    let again = pool_of(alloc, bytes)?;
    let are_written = written.as_slice() == bytes && pool.encode_to_vec(alloc)?.as_slice() == bytes;
    Ok(are_written && *pool == *again)
}

/// Where the record of the last file of `WHOLE` begins, which ends with it.
const LAST: usize = 374;

/// Whether the file is written as the last one of `WHOLE`, alone and behind the others.
fn is_last(alloc: Global, file: &FileDescriptor) -> Result<bool, Fail> {
    let written = leaked(alloc, Vec::from_slice(alloc, &WHOLE[..LAST])?)?;
    file.encode(written)?;
    Ok(written.as_slice() == WHOLE && file.encode_to_vec(alloc)?.as_slice() == &WHOLE[LAST..])
}

/// Files and sets are read and added, and a pool of the bytes is equal; a pool and a file are written again.
#[test]
fn pools_are_made_and_written_again(rt: HostRuntime) -> Result<(), Fail> {
    for (place, (way, set, rest, kept)) in WAYS.iter().enumerate() {
        let pool = made(rt.alloc(), *way, set.bytes(), rest.bytes())?;
        let bytes = joined(rt.alloc(), set.bytes(), kept.bytes())?;
        assert!(rt; is_made_of(rt.alloc(), pool, bytes)?, "{place}");
    }
    let pool = pool_of(rt.alloc(), WHOLE)?;
    let file = lent(rt.alloc(), pool.get_file_by_name("whole.proto"))?;
    assert!(rt; is_last(rt.alloc(), file)?);
    Ok(())
}

/// How many files there are, how many the first and those behind it are, how many records of files are lent, and how many
/// message types these have at their tops.
fn file_counts(pool: &DescriptorPool) -> [usize; 4] {
    let mut files = pool.files();
    let count = files.len();
    let walked = if files.next().is_some() {
        files.len().wrapping_add(1)
    } else {
        0
    };
    let mut tops: usize = 0;
    for file in pool.file_descriptor_protos() {
        tops = tops.wrapping_add(file.message_type.len());
    }
    [count, walked, pool.file_descriptor_protos().len(), tops]
}

/// How many message types, enums, extensions and services there are.
fn counts(pool: &DescriptorPool) -> [usize; 4] {
    [
        pool.all_messages().len(),
        pool.all_enums().len(),
        pool.all_extensions().len(),
        pool.services().len(),
    ]
}

/// How many fields the message type has, and how many ranges and names it keeps.
fn member_counts(message: &MessageDescriptor) -> [usize; 4] {
    [
        message.fields().len(),
        message.reserved_ranges().len(),
        message.extension_ranges().len(),
        message.reserved_names().len(),
    ]
}

/// A set, and how many files and definitions its pool has, in the order of `file_counts` and `counts`.
static SIZES: [(Set, [usize; 4], [usize; 4]); 5] = [
    (Set::Empty, [0; 4], [0; 4]),
    (Set::M, [1; 4], [1, 0, 0, 0]),
    (Set::AAndB, [2; 4], [2, 0, 0, 0]),
    (Set::BAndA, [2; 4], [2, 0, 0, 0]),
    (Set::Whole, [3, 3, 3, 4], [9, 2, 2, 1]),
];

/// How many files the pool has, how many a copy of it from before an addition, and how many the pool of a descriptor from
/// before it.
fn counts_after_addition(alloc: Global, pool: &mut DescriptorPool) -> Result<[usize; 3], Fail> {
    let descriptor = message_of(alloc, pool, "package.MyMessage")?;
    let copy = leaked(alloc, pool.clone()?)?;
    pool.decode_file_descriptor_set(A_AND_B)?;
    Ok([
        pool.file_descriptor_protos().len(),
        copy.file_descriptor_protos().len(),
        descriptor.parent_pool().file_descriptor_protos().len(),
    ])
}

/// How many definitions the lists have is known before they are walked, and while they are. A descriptor and a copy keep the pool
/// as it was before an addition.
#[test]
fn files_and_definitions_are_counted(rt: HostRuntime) -> Result<(), Fail> {
    for (set, files, definitions) in SIZES {
        let pool = pool_of(rt.alloc(), set.bytes())?;
        assert_eq!(rt; file_counts(pool), files);
        assert_eq!(rt; counts(pool), definitions);
    }
    let message = type_in(rt.alloc(), Set::Whole, "w.x.A")?;
    assert!(rt; member_counts(message) == [3, 2, 2, 1]);
    let pool = leaked(rt.alloc(), DescriptorPool::decode(rt.alloc(), SET_M)?)?;
    assert!(rt; counts_after_addition(rt.alloc(), pool)? == [3, 1, 1]);
    Ok(())
}

/// Whether the set makes no pool and is refused by this fault, also by the empty pool, to which it adds nothing.
fn is_refused(alloc: Global, pool: &mut DescriptorPool, set: &[u8], fault: PoolError) -> bool {
    DescriptorPool::decode(alloc, set).err() == Some(fault)
        && pool.decode_file_descriptor_set(set) == Err(fault)
        && pool.file_descriptor_protos().len() == 0
}

/// A set, what comes behind it, and why both together are refused. A file without a name is looked at, also behind another one.
static REFUSED: [(Set, Set, PoolError); 4] = [
    (Set::SoundAndEditions, Set::Empty, PoolError::UnknownSyntax),
    (Set::Empty, Set::Nameless, PoolError::MissingName),
    (Set::M, Set::Nameless, PoolError::MissingName),
    (Set::Nameless, Set::Nameless, PoolError::MissingName),
];

/// The place of a byte in `SET_M`, what it is changed to, and why the set is refused then.
static CHANGES: [(usize, u8, PoolError); 3] = [
    // The number of `foo` is that of `bar`.
    (41, 0x02, PoolError::DuplicateNumber),
    // No message has the name of the type of `nested`.
    (96, b'f', PoolError::UnknownType),
    (116, b'4', PoolError::UnknownSyntax),
];

/// The set with one byte changed.
fn changed(alloc: Global, place: usize, byte: u8) -> Result<&'static Vec<u8>, AllocError> {
    let bytes = leaked(alloc, Vec::from_slice(alloc, SET_M)?)?;
    if let Some(changed) = bytes.get_mut(place) {
        *changed = byte;
    }
    Ok(bytes)
}

/// A set with a fault, with one changed byte, or that ends early, in front of any of its parts, is refused by its own name.
#[test]
fn a_refused_set_adds_nothing(rt: HostRuntime) -> Result<(), Fail> {
    let pool = leaked(rt.alloc(), DescriptorPool::new(rt.alloc())?)?;
    for (set, rest, fault) in REFUSED {
        let bytes = joined(rt.alloc(), set.bytes(), rest.bytes())?;
        assert!(rt; is_refused(rt.alloc(), pool, bytes, fault), "{fault}");
    }
    for (place, byte, fault) in CHANGES {
        let bytes = changed(rt.alloc(), place, byte)?;
        assert!(rt; is_refused(rt.alloc(), pool, bytes, fault), "{place}");
    }
    let truncated = PoolError::Decode(DecodeError::Truncated);
    for len in 1..SET_M.len() {
        assert!(rt;
            is_refused(rt.alloc(), pool, &SET_M[..len], truncated),
            "{len}"
        );
    }
    Ok(())
}

/// Whether a copy of the pool takes the set, or stays as it was where the set is refused.
fn is_answered(pool: &DescriptorPool, set: &[u8]) -> Result<bool, AllocError> {
    let mut added = pool.clone()?;
    Ok(added.decode_file_descriptor_set(set).is_ok() || added == *pool)
}

/// Whatever bit of a set is turned, there is an answer, and a refusal changes nothing.
#[test]
fn a_turned_bit_is_answered(rt: HostRuntime) -> Result<(), Fail> {
    let pool = pool_of(rt.alloc(), A_AND_B)?;
    for (place, byte) in SET_M.iter().enumerate() {
        for bit in 0..8_u32 {
            let set = changed(rt.alloc(), place, *byte ^ (1 << (bit % 8)))?;
            assert!(rt; is_answered(pool, set)?, "{place} {bit}");
        }
    }
    Ok(())
}
