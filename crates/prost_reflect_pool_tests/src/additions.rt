//! The files of sets are added batch by batch, in any order that their dependencies allow, and make what they make at once.

use crate::batches::{Dice, Files, bit, files_of};
use crate::describe::describe;
use crate::found::{found_by_number, found_in_pool};
use crate::many::append;
use crate::named::{Set, pool_of};
use crate::random_files::random_set;
use prost_reflect::{DescriptorPool, FieldDescriptorLike, MessageDescriptor, PoolError};
use prost_reflect_samples::leaked;
use std::alloc::{AllocError, Global};
use std::test::Fail;

// WHAT IS COMPARED

/// Whether each file, enum and service is found by its name.
fn finds_files(pool: &DescriptorPool) -> Result<bool, AllocError> {
    let mut all = true;
    for file in pool.files() {
        all &= found_in_pool(pool, file?.name())? == [1, 0, 0, 0, 0];
    }
    for found in pool.all_enums() {
        all &= found_in_pool(pool, found?.full_name())? == [0, 0, 1, 0, 0];
    }
    for service in pool.services() {
        all &= found_in_pool(pool, service?.full_name())? == [0, 0, 0, 0, 1];
    }
    Ok(all)
}

/// Whether each field of the message type is found in it by its number.
fn finds_fields(message: &MessageDescriptor) -> Result<bool, AllocError> {
    let mut all = true;
    for field in message.fields() {
        let field = field?;
        all &= found_by_number(message, field.number(), field.name())? == [1, 0];
    }
    Ok(all)
}

/// Whether each message type and each extension is found by its name, and fields and extensions by their numbers.
fn finds_messages(pool: &DescriptorPool) -> Result<bool, AllocError> {
    let mut all = true;
    for message in pool.all_messages() {
        let message = message?;
        all &= found_in_pool(pool, message.full_name())? == [0, 1, 0, 0, 0];
        all &= finds_fields(&message)?;
    }
    for extension in pool.all_extensions() {
        let extension = extension?;
        let name = extension.full_name();
        let message = extension.containing_message()?;
        all &= found_in_pool(pool, name)? == [0, 0, 0, 1, 0];
        all &= found_by_number(&message, extension.number(), name)? == [0, 1];
    }
    Ok(all)
}

/// A number whose bits are spread.
fn spread(number: u64) -> u64 {
    let number = (number ^ (number >> 29)).wrapping_mul(0xbf58_476d_1ce4_e5b9);
    number ^ (number >> 32)
}

/// A number of a word, and of a word with a list behind `=` whatever order its items stand in.
fn sum_of_word(word: &str) -> u64 {
    let (mut label, mut item, mut sum) = (0_u64, 0_u64, 0_u64);
    for byte in word.as_bytes() {
        match *byte {
            b'=' => label = item,
            b',' => {
                sum = sum.wrapping_add(spread(item));
                item = label;
            }
            letter => item = spread(item ^ u64::from(letter)),
        }
    }
    sum.wrapping_add(spread(item))
}

/// A number of the words of a line. The places of files and of methods are left out.
fn sum_of_line(line: &str) -> u64 {
    let mut sum: u64 = 0;
    for word in line.split(' ') {
        if !word.starts_with("index=") {
            sum = sum.wrapping_add(sum_of_word(word));
        }
    }
    spread(sum)
}

/// A number of what the descriptors of a pool say, whatever order its files stand in.
fn sum_of_all(alloc: Global, pool: &DescriptorPool) -> Result<u64, AllocError> {
    let mut sum: u64 = 0;
    for line in describe(alloc, pool)?.lines() {
        sum = sum.wrapping_add(sum_of_line(line));
    }
    Ok(sum)
}

// ADDITIONS

/// The files that were added so far, as a set, and the pool as it was then.
#[derive(Clone, Copy)]
struct Stage {
    set: &'static [u8],
    pool: &'static DescriptorPool,
}

/// `z.proto`, which no pool takes.
static EDITIONS: &[u8] = b"\x0a\x13\x0a\x07z.protob\x08editions";

/// A set of the first file that is there, under another name, or no bytes where none is there.
fn first_again(alloc: Global, files: &Files, there: u32) -> Result<&'static Vec<u8>, AllocError> {
    let set = leaked(alloc, Vec::new(alloc))?;
    for (place, record) in files.records.iter().enumerate() {
        if there & bit(place) != 0 {
            let again = leaked(alloc, Vec::from_slice(alloc, record)?)?;
            again.extend_from_slice(b"\x0a\x07z.proto")?;
            append(set, 0x0a, again)?;
            return Ok(set);
        }
    }
    Ok(set)
}

/// Whether the set is refused by this fault, and leaves no file.
fn is_refused(pool: &mut DescriptorPool, set: &[u8], fault: PoolError) -> bool {
    let count = pool.file_descriptor_protos().len();
    pool.decode_file_descriptor_set(set) == Err(fault)
        && pool.file_descriptor_protos().len() == count
}

/// Whether a file with a fault is refused, also behind the batch that is added next, and the definitions that are there already.
fn refuses(
    alloc: Global,
    pool: &mut DescriptorPool,
    again: &[u8],
    next: &[u8],
) -> Result<bool, AllocError> {
    let both = leaked(alloc, Vec::from_slice(alloc, next)?)?;
    both.extend_from_slice(EDITIONS)?;
    Ok(
        is_refused(pool, EDITIONS, PoolError::UnknownSyntax)
            && is_refused(pool, both, PoolError::UnknownSyntax)
            && (again.is_empty() || is_refused(pool, again, PoolError::DuplicateName)),
    )
}

/// What there is behind each batch, until all files are there. In front of each batch others are refused.
fn stages(alloc: Global, files: &Files, dice: &mut Dice) -> Result<&'static Vec<Stage>, Fail> {
    let pool = leaked(alloc, DescriptorPool::new(alloc)?)?;
    let all = leaked(alloc, Vec::new(alloc))?;
    let stages = leaked(alloc, Vec::new(alloc))?;
    let mut there = 0;
    for _ in 0..files.records.len() {
        let batch = files.next(there, dice);
        let next = files.set_of(alloc, batch, dice.flag())?;
        if !refuses(alloc, pool, first_again(alloc, files, there)?, next)? {
            return Err(Fail::from("a fault is not refused"));
        }
        pool.decode_file_descriptor_set(next)?;
        all.extend_from_slice(next)?;
        there |= batch;
        stages.push(Stage {
            set: leaked(alloc, all.clone()?)?,
            pool: leaked(alloc, pool.clone()?)?,
        })?;
        if there == files.all() {
            break;
        }
    }
    Ok(stages)
}

/// Whether the pool is the one that its files make at once, descriptors say the same, and all definitions are found.
fn is_made_at_once(alloc: Global, stage: Stage) -> Result<bool, Fail> {
    let whole = pool_of(alloc, stage.set)?;
    let are_equal = *stage.pool == *whole;
    let say_the_same = describe(alloc, stage.pool)? == describe(alloc, whole)?;
    Ok(are_equal && say_the_same && finds_files(stage.pool)? && finds_messages(stage.pool)?)
}

/// Whether each pool that was there is still as its files make it at once, and the last one says what the set's own pool does.
fn grows(alloc: Global, files: &Files, set: &[u8], dice: &mut Dice) -> Result<bool, Fail> {
    let stages = stages(alloc, files, dice)?;
    let mut all = true;
    for stage in stages {
        all &= is_made_at_once(alloc, *stage)?;
    }
    let Some(last) = stages.last() else {
        return Ok(false);
    };
    let expected = sum_of_all(alloc, pool_of(alloc, set)?)?;
    Ok(all && sum_of_all(alloc, last.pool)? == expected)
}

/// Sets whose files are added together, and in how many orders.
static SETS: [(&[Set], u64); 3] = [
    (
        &[
            Set::Schema,
            Set::OProto,
            Set::M,
            Set::AAndB,
            Set::Whole,
            Set::Streamed,
            Set::VAndW,
        ],
        2,
    ),
    (&[Set::Small, Set::BAndA, Set::KAndO], 6),
    (
        &[
            Set::Worked,
            Set::Kinds,
            Set::Choices,
            Set::Forms,
            Set::Groups,
            Set::Every,
        ],
        4,
    ),
];

/// How many sets are made by chance.
const RANDOM: u64 = 15;

/// The sets, one behind the other.
fn joined(alloc: Global, sets: &[Set]) -> Result<&'static Vec<u8>, AllocError> {
    let all = leaked(alloc, Vec::new(alloc))?;
    for set in sets {
        all.extend_from_slice(set.bytes())?;
    }
    Ok(all)
}

/// Files that are added batch by batch make what they make at once, whatever is refused between them: an equal pool, whose
/// descriptors say the same, wherever a message type is extended. A pool that is held stays as it is.
#[test]
fn additions_make_what_all_files_make(rt: HostRuntime) -> Result<(), Fail> {
    for (sets, orders) in SETS {
        let set = joined(rt.alloc(), sets)?;
        let files = files_of(rt.alloc(), set)?;
        for order in 0..orders {
            let dice = leaked(rt.alloc(), Dice::new(order))?;
            assert!(rt; grows(rt.alloc(), files, set, dice)?, "{order}");
        }
    }
    for seed in 0..RANDOM {
        let dice = leaked(rt.alloc(), Dice::new(seed))?;
        let set = random_set(rt.alloc(), dice)?;
        let files = files_of(rt.alloc(), set)?;
        assert!(rt; grows(rt.alloc(), files, set, dice)?, "{seed}");
    }
    Ok(())
}
