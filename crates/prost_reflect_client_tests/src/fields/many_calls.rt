//! Many calls on a message with oneofs, beside a table of what it then has.

use crate::fields::access::{is_asked, is_taken};
use crate::fields::types::{lent, message_of};
use crate::fields::unknowns::is_varint;
use crate::fields::ways::{Named, clear, int, lends_numbers, take, takes, takes_known};
use prost_reflect::{DynamicMessage, FieldDescriptor, MessageDescriptor};
use prost_reflect_samples::calls::{Call, calls};
use prost_reflect_samples::leaked;
use std::alloc::{AllocError, Global};
use std::test::Fail;

/// `spread.proto`, of proto3: `f30` to `f360` are fields of int32, whose numbers are 30 times those from 1 to 12. The fields 60,
/// 120, 180, 240 and 300 are of one oneof, and 90, 150 and 210 of another.
static SPREAD: &[u8] =
    b"\x0a\xf1\x01\x0a\x0cspread.proto\"\xd8\x01\x0a\x06Spread\x12\x0b\x0a\x03f30\x18\x1e \x01(\
    \x05\x12\x0d\x0a\x03f60\x18< \x01(\x05H\x00\x12\x0d\x0a\x03f90\x18Z \x01(\x05H\x01\x12\x0e\x0a\
    \x04f120\x18x \x01(\x05H\x00\x12\x0f\x0a\x04f150\x18\x96\x01 \x01(\x05H\x01\x12\x0f\x0a\x04f18\
    0\x18\xb4\x01 \x01(\x05H\x00\x12\x0f\x0a\x04f210\x18\xd2\x01 \x01(\x05H\x01\x12\x0f\x0a\x04f24\
    0\x18\xf0\x01 \x01(\x05H\x00\x12\x0d\x0a\x04f270\x18\x8e\x02 \x01(\x05\x12\x0f\x0a\x04f300\x18\
    \xac\x02 \x01(\x05H\x00\x12\x0d\x0a\x04f330\x18\xca\x02 \x01(\x05\x12\x0d\x0a\x04f360\x18\xe8\
    \x02 \x01(\x05B\x07\x0a\x05firstB\x08\x0a\x06secondb\x06proto3";

/// The field for a number from 1 to 12.
fn field_for(
    alloc: Global,
    spread: &MessageDescriptor,
    number: u32,
) -> Result<&'static FieldDescriptor, Fail> {
    lent(alloc, spread.get_field(number.wrapping_mul(30)))
}

/// A value from 0 to 4.
fn small(amount: u32) -> i32 {
    (amount % 5) as i32
}

/// The field by its number, its descriptor or its name, in turn.
fn in_turn(field: &FieldDescriptor, turn: u32) -> Named<'_> {
    match turn % 3 {
        0 => Named::Number(field.number()),
        1 => Named::Field(field),
        _ => Named::Name(field.name()),
    }
}

/// Makes a call on the field of the message. Whether it takes or writes what is expected.
fn gives(
    alloc: Global,
    message: &mut DynamicMessage,
    field: &FieldDescriptor,
    call: Call,
    expected: Option<i32>,
) -> Result<bool, Fail> {
    match call {
        Call::Set(_, amount) => {
            let (named, value) = (in_turn(field, amount), small(amount));
            Ok(
                takes(message, named, int(alloc, value)?)?
                    && takes_known(message, named, value)
                    && expected.is_none(),
            )
        }
        Call::Write(_, amount) => match expected {
            Some(written) => {
                let numbers = (written.wrapping_sub(small(amount)), written);
                lends_numbers(alloc, message, Named::Field(field), numbers)
            }
            None => Ok(false),
        },
        Call::Clear(_) => {
            clear(message, Named::Field(field));
            Ok(expected.is_none())
        }
        Call::Take(number) => {
            let (value, had) = (expected.unwrap_or(0), expected.is_some());
            Ok(is_taken(&take(message, in_turn(field, number)), value, had))
        }
    }
}

/// What a table says that is stored for each number.
#[derive(Drop)]
struct Table {
    values: [Option<i32>; 13],
}

impl Table {
    /// The oneof of a number, and 0 for none.
    fn oneof(number: u32) -> u32 {
        match number {
            2 | 4 | 6 | 8 | 10 => 1,
            3 | 5 | 7 => 2,
            _ => 0,
        }
    }

    /// The value of a number: a stored 0 is none but in a oneof.
    fn had(&self, number: u32) -> Option<i32> {
        let stored = self.values[number as usize % 13];
        if stored == Some(0) && Table::oneof(number) == 0 {
            None
        } else {
            stored
        }
    }

    fn set(&mut self, number: u32, value: i32) {
        let oneof = Table::oneof(number);
        for other in 1..13_u32 {
            if oneof > 0 && Table::oneof(other) == oneof {
                self.values[other as usize % 13] = None;
            }
        }
        self.values[number as usize % 13] = Some(value);
    }

    /// Makes a call, and gives what it takes or writes.
    fn apply(&mut self, call: Call) -> Option<i32> {
        let number = call.number();
        let place = number as usize % 13;
        let had = self.had(number);
        match call {
            Call::Set(_, amount) => {
                self.set(number, small(amount));
                None
            }
            Call::Write(_, amount) => {
                let written = had.unwrap_or(0).wrapping_add(small(amount));
                self.set(number, written);
                Some(written)
            }
            Call::Clear(_) => {
                self.values[place] = None;
                None
            }
            Call::Take(_) => {
                self.values[place] = None;
                had
            }
        }
    }
}

/// Whether the message has at each field what the table says, and lends what is stored.
fn agrees(
    alloc: Global,
    message: &DynamicMessage,
    spread: &MessageDescriptor,
    table: &Table,
) -> Result<bool, Fail> {
    for number in 1..13_u32 {
        let stored = table.values[number as usize % 13];
        let had = table.had(number).is_some();
        let expected = (had, stored.unwrap_or(0), stored.is_some());
        let field = Named::Field(field_for(alloc, spread, number)?);
        if !is_asked(alloc, message, field, expected)? {
            return Ok(false);
        }
    }
    Ok(true)
}

/// Whether the call gives on the message what it gives on the table, and both then agree.
fn is_made(
    alloc: Global,
    message: &mut DynamicMessage,
    spread: &MessageDescriptor,
    table: &mut Table,
    call: Call,
) -> Result<bool, Fail> {
    let expected = table.apply(call);
    let field = field_for(alloc, spread, call.number())?;
    Ok(gives(alloc, message, field, call, expected)? && agrees(alloc, message, spread, table)?)
}

/// How many calls agree with a table, up to the first that does not.
fn agreeing_calls(
    alloc: Global,
    message: &mut DynamicMessage,
    calls: &[Call],
) -> Result<usize, Fail> {
    let spread = leaked(alloc, message.descriptor()?)?;
    let mut table = Table { values: [None; 13] };
    for (step, call) in calls.iter().enumerate() {
        if !is_made(alloc, message, spread, &mut table, *call)? {
            return Ok(step);
        }
    }
    Ok(calls.len())
}

/// How many of these fields the message has.
fn present(message: &DynamicMessage, numbers: &[u32]) -> u32 {
    let mut count: u32 = 0;
    for number in numbers {
        if message.has_field_by_number(*number) {
            count = count.wrapping_add(1);
        }
    }
    count
}

/// So many unknown records, which are varints of the odd numbers from 17 on: 0, 1 and so on.
fn unknown_records(alloc: Global, count: u32) -> Result<&'static [u8], AllocError> {
    let bytes: &'static mut Vec<u8> = leaked(alloc, Vec::new(alloc))?;
    for step in 0..count {
        let key = (step % 200 * 2 + 17) * 8;
        let record = [
            (key % 128 + 128) as u8,
            (key / 128) as u8,
            (step % 128) as u8,
        ];
        bytes.extend_from_slice(&record)?;
    }
    Ok(bytes.as_slice())
}

/// How many unknown fields the message has, if they are those of such records.
fn unknown_count(message: &DynamicMessage) -> Option<u32> {
    let mut count: u32 = 0;
    let mut all = true;
    for field in message.unknown_fields() {
        let number = count.wrapping_mul(2).wrapping_add(17);
        all &= is_varint(field, Some(&(number, (count % 128) as u64)));
        count = count.wrapping_add(1);
    }
    all.then_some(count)
}

/// Whether of each oneof at most one field is there, and the unknown fields are so many.
fn is_left(message: &DynamicMessage, count: u32) -> bool {
    present(message, &[60, 120, 180, 240, 300]) <= 1
        && present(message, &[90, 150, 210]) <= 1
        && unknown_count(message) == Some(count)
}

/// What a message stores stands in one list, and in runs where it is much. 200 unknown fields stand between the others.
#[test]
fn calls_on_a_message_agree_with_a_table(rt: HostRuntime) -> Result<(), Fail> {
    let alloc = rt.alloc();
    let calls = leaked(alloc, calls(alloc)?)?;
    for count in [0, 200] {
        let records = unknown_records(alloc, count)?;
        let message = message_of(alloc, SPREAD, "Spread", records)?;
        assert_eq!(rt; agreeing_calls(alloc, message, calls.as_slice())?, 500);
        assert!(rt; is_left(message, count));
    }
    Ok(())
}
