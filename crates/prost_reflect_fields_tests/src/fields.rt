//! Calls on both forms of a map from numbers, over a message type with oneofs.

ghost use Rattle.std.specs.Prelude.{◌≡◌, IfOk, map as each, reverse};
ghost use Rattle.std.specs.Map.{keys_of};

use crate::choices::choices;
use prost_reflect_fields::slot::FieldSlot;
use prost_reflect_fields::slot_map::SlotMap;
use prost_reflect_fields::stored::{
    add_unknown, oneof_of, stored_at, take_value, unknown_at, value_mut,
};
use prost_reflect_maps::number_map::NumberMap;
use prost_reflect_maps::sorted_map::SortedMap;
use prost_reflect_maps::walks::{walk_down, walk_up};
use prost_reflect_pool::PooledType;
use prost_reflect_samples::calls::{Call, calls};
use prost_reflect_wire::{DecodeError, UnknownField};
use std::alloc::{AllocError, Global};
use std::collections::BTreeMap;
use std::test::Fail;

/// What a call answers: the value that it took, or the one that it wrote.
type Answer = Option<u32>;

/// A number, its value, and how many unknown fields it has.
type Seen = (u32, Option<u32>, usize);

/// The number of a call: of every third one that of the list, from 1 to 12, and else one of 241 above these.
fn number_at(step: usize, call: Call) -> u32 {
    match step % 3 {
        0 => call.number(),
        _ => ((step % 241 * 7 % 241) as u32).wrapping_add(13),
    }
}

/// Makes a call at a number, beside no notes. At one below 13 that no field has, a set and a write add an unknown field in place
/// of a value.
fn apply<S: SlotMap<u32>>(
    fields: &mut S,
    alloc: Global,
    descriptor: &PooledType,
    number: u32,
    call: Call,
) -> Result<Answer, Fail> {
    let has_values = number > 12 || descriptor.field_place(number).is_some();
    match call {
        Call::Set(_, value) if has_values => {
            drop(fields.take_notes());
            let oneof = oneof_of(descriptor, number);
            fields.set_value(alloc, descriptor, number, oneof, value)?;
            Ok(None)
        }
        Call::Write(_, amount) if has_values => {
            drop(fields.take_notes());
            let value = fields.value_mut_or(alloc, descriptor, number, 1000)?;
            *value = value.wrapping_add(amount);
            Ok(Some(*value))
        }
        Call::Set(_, _) | Call::Write(_, _) => {
            add_record(fields, alloc, number)?;
            Ok(None)
        }
        Call::Clear(_) => {
            drop(take_value(fields, alloc, number));
            Ok(None)
        }
        Call::Take(_) => Ok(take_value(fields, alloc, number)),
    }
}

/// Adds an unknown field, a varint, behind those of the number.
fn add_record<S: NumberMap<FieldSlot<u32>>>(
    fields: &mut S,
    alloc: Global,
    number: u32,
) -> Result<(), Fail> {
    let bytes = [(number % 16 * 8) as u8, 5];
    let mut cursor: &[u8] = &bytes;
    match UnknownField::decode(alloc, &mut cursor, 0) {
        Ok(field) => Ok(add_unknown(fields, alloc, field.number(), field)?),
        Err(DecodeError::OutOfMemory) => Err(Fail::from("out of memory")),
        Err(_) => Err(Fail::from("an unknown field is not read")),
    }
}

fn seen(number: u32, entry: &FieldSlot<u32>) -> Seen
    ensures { result.0 ≡ number }
{
    let unknown = match entry.unknown() {
        Some(unknown) => unknown.len(),
        None => 0,
    };
    (number, entry.value().copied(), unknown)
}

/// What stands at all numbers, from the lowest up.
fn seen_up<S: NumberMap<FieldSlot<u32>>>(fields: &S, alloc: Global) -> Result<Vec<Seen>, AllocError>
    ensures { IfOk result (λ walked. each (λ s. s.0) walked.items ≡ keys_of (S.entries fields.now)) }
{
    let mut walked = Vec::new(alloc);
    for (number, entry) in walk_up(fields) {
        walked.push(seen(number, entry))?;
    }
    Ok(walked)
}

/// What stands at all numbers, from the highest down.
fn seen_down<S: NumberMap<FieldSlot<u32>>>(
    fields: &S,
    alloc: Global,
) -> Result<Vec<Seen>, AllocError>
    ensures { IfOk result (λ walked. each (λ s. s.0) walked.items ≡ reverse (keys_of (S.entries fields.now))) }
{
    let mut walked = Vec::new(alloc);
    for (number, entry) in walk_down(fields) {
        walked.push(seen(number, entry))?;
    }
    Ok(walked)
}

/// What a table by number says that stands there.
#[derive(Drop)]
struct Expected {
    values: [Option<u32>; 256],
    unknown: [usize; 256],
}

impl Expected {
    /// The oneof of a number, the number itself where it is of none, and 0 where it has no values.
    fn group(number: u32) -> u32 {
        match number {
            2 | 4 | 9 => 1000,
            6 | 8 => 2000,
            3 | 7 | 10 | 11 => 0,
            _ => number,
        }
    }

    fn set(&mut self, number: u32, value: u32) {
        for other in 1..13_u32 {
            if Expected::group(other) == Expected::group(number) {
                self.values[other as usize % 256] = None;
            }
        }
        self.values[number as usize % 256] = Some(value);
    }

    fn add_unknown(&mut self, number: u32) {
        let place = number as usize % 256;
        self.unknown[place] = self.unknown[place].saturating_add(1);
    }

    /// Makes a call at a number, and gives what it answers.
    fn apply(&mut self, number: u32, call: Call) -> Answer {
        let place = number as usize % 256;
        let old = self.values[place];
        match call {
            Call::Set(_, _) | Call::Write(_, _) if Expected::group(number) == 0 => {
                self.add_unknown(number);
                None
            }
            Call::Set(_, value) => {
                self.set(number, value);
                None
            }
            Call::Write(_, amount) => {
                let written = old.unwrap_or(1000).wrapping_add(amount);
                self.set(number, written);
                Some(written)
            }
            Call::Clear(_) => {
                self.values[place] = None;
                None
            }
            Call::Take(_) => {
                self.values[place] = None;
                old
            }
        }
    }

    /// What stands at the numbers, from the lowest up.
    fn walk(&self, alloc: Global) -> Result<Vec<Seen>, AllocError> {
        let mut walked = Vec::new(alloc);
        for number in 0..256_u32 {
            let (value, unknown) = (self.values[number as usize], self.unknown[number as usize]);
            if value.is_some() || unknown > 0 {
                walked.push((number, value, unknown))?;
            }
        }
        Ok(walked)
    }
}

/// Makes a call on the map and on the table. Says whether both answer the same, and whether both walks over the map then give
/// what the table says.
fn agrees_after<S: SlotMap<u32>>(
    fields: &mut S,
    alloc: Global,
    descriptor: &PooledType,
    expected: &mut Expected,
    number: u32,
    call: Call,
) -> Result<bool, Fail> {
    if apply(fields, alloc, descriptor, number, call)? != expected.apply(number, call) {
        return Ok(false);
    }
    let mut wanted = expected.walk(alloc)?;
    let goes_up = seen_up(fields, alloc)? == wanted;
    wanted.reverse();
    Ok(goes_up && seen_down(fields, alloc)? == wanted)
}

/// Whether the calls that find what a number has find what the table says.
fn agrees_at<S: NumberMap<FieldSlot<u32>>>(
    fields: &mut S,
    expected: &Expected,
    number: u32,
) -> bool {
    let place = number as usize % 256;
    let unknown = match unknown_at(fields, number) {
        Some(unknown) => unknown.len(),
        None => 0,
    };
    let value = stored_at(fields, number).copied();
    let lent = match value_mut(fields, number) {
        Some(value) => Some(*value),
        None => None,
    };
    unknown == expected.unknown[place] && value == expected.values[place] && lent == value
}

/// How many calls agree with the table, up to the first that does not, and at how many numbers something stands then.
fn agreeing_calls<S: SlotMap<u32>>(fields: &mut S, alloc: Global) -> Result<(usize, usize), Fail> {
    let descriptor = choices(alloc)?;
    let mut expected = Expected {
        values: [None; 256],
        unknown: [0; 256],
    };
    for number in [5, 8, 8] {
        add_record(fields, alloc, number)?;
        expected.add_unknown(number);
    }
    let calls = calls(alloc)?;
    let mut agreeing = 0;
    for (step, call) in calls.iter().enumerate() {
        let number = number_at(step, *call);
        if !agrees_after(fields, alloc, &descriptor, &mut expected, number, *call)? {
            break;
        }
        agreeing = step.saturating_add(1);
    }
    for number in 0..256_u32 {
        if !agrees_at(fields, &expected, number) {
            return Err(Fail::from("a number has another value than the table"));
        }
    }
    Ok((agreeing, expected.walk(alloc)?.len()))
}

/// The map is a list at first, and stands in runs once more than 128 numbers have something.
#[test]
fn a_sorted_list_agrees_with_a_table(rt: HostRuntime) -> Result<(), Fail> {
    let mut fields: SortedMap<FieldSlot<u32>> = SortedMap::new(rt.alloc());
    assert_eq!(rt; agreeing_calls(&mut fields, rt.alloc())?, (500, 157));
    Ok(())
}

#[test]
fn a_tree_agrees_with_a_table(rt: HostRuntime) -> Result<(), Fail> {
    let mut fields: BTreeMap<u32, FieldSlot<u32>> = BTreeMap::new(rt.alloc());
    assert_eq!(rt; agreeing_calls(&mut fields, rt.alloc())?, (500, 157));
    Ok(())
}
