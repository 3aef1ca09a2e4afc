//! The numbers and names that definitions reserve, and the numbers that message types keep for extensions (the proto2 guide,
//! "Reserved Fields" and "Extensions").

use prost_reflect_tables::natural_or_zero;
use prost_reflect_types::{EnumReservedRange, ExtensionRange, ReservedRange};
use std::ops::{Range, RangeInclusive};

/// The ranges of field numbers that a message type reserves, in the order of its record.
#[derive(Debug, Drop)]
pub struct ReservedRanges<'a> {
    /// The records of the ranges that are still to come.
    pub records: &'a [ReservedRange],
}

impl<'a> Iterator for ReservedRanges<'a> {
    type Item = Range<u32>;

    ghost use Rattle.std.specs.Iterator.{YieldsFirstBy, item_count};
    ghost use Rattle.prost_reflect_walks.specs.Reserved.{reserved_left};

    ghost next_gives = { YieldsFirstBy (λ r. (r.start, r.end)) reserved_left };

    ghost remaining = { item_count reserved_left };

    fn next(&mut self) -> Option<Range<u32>> {
        match self.records.split_first() {
            Some((record, rest)) => {
                self.records = rest;
                Some(natural_or_zero(record.start)..natural_or_zero(record.end))
            }
            None => None,
        }
    }
}

impl<'a> ExactSizeIterator for ReservedRanges<'a> {
    fn len(&self) -> usize {
        self.records.len()
    }
}

/// The ranges of field numbers that a message type keeps for extensions, in the order of its record.
#[derive(Debug, Drop)]
pub struct ExtensionRanges<'a> {
    /// The records of the ranges that are still to come.
    pub records: &'a [ExtensionRange],
}

impl<'a> Iterator for ExtensionRanges<'a> {
    type Item = Range<u32>;

    ghost use Rattle.std.specs.Iterator.{YieldsFirstBy, item_count};
    ghost use Rattle.prost_reflect_walks.specs.Reserved.{extensible_left};

    ghost next_gives = { YieldsFirstBy (λ r. (r.start, r.end)) extensible_left };

    ghost remaining = { item_count extensible_left };

    fn next(&mut self) -> Option<Range<u32>> {
        match self.records.split_first() {
            Some((record, rest)) => {
                self.records = rest;
                Some(natural_or_zero(record.start)..natural_or_zero(record.end))
            }
            None => None,
        }
    }
}

impl<'a> ExactSizeIterator for ExtensionRanges<'a> {
    fn len(&self) -> usize {
        self.records.len()
    }
}

/// The ranges of numbers that an enum reserves, in the order of its record.
#[derive(Debug, Drop)]
pub struct EnumReservedRanges<'a> {
    /// The records of the ranges that are still to come.
    pub records: &'a [EnumReservedRange],
}

impl<'a> Iterator for EnumReservedRanges<'a> {
    type Item = RangeInclusive<i32>;

    ghost use Rattle.std.specs.Iterator.{YieldsFirstBy, item_count};
    ghost use Rattle.prost_reflect_walks.specs.Reserved.{enum_reserved_left};
    ghost use Rattle.std.specs.Range.{range_inclusive_start, range_inclusive_end};

    ghost next_gives = { YieldsFirstBy (λ r. (range_inclusive_start r, range_inclusive_end r)) enum_reserved_left };

    ghost remaining = { item_count enum_reserved_left };

    fn next(&mut self) -> Option<RangeInclusive<i32>> {
        match self.records.split_first() {
            Some((record, rest)) => {
                self.records = rest;
                Some(record.start.unwrap_or(0)..=record.end.unwrap_or(0))
            }
            None => None,
        }
    }
}

impl<'a> ExactSizeIterator for EnumReservedRanges<'a> {
    fn len(&self) -> usize {
        self.records.len()
    }
}

/// The names that a message type or an enum reserves, in the order of its record.
#[derive(Debug, Drop)]
pub struct ReservedNames<'a> {
    /// The names that are still to come.
    pub names: &'a [String],
}

impl<'a> Iterator for ReservedNames<'a> {
    type Item = &'a str;

    ghost use Rattle.std.specs.Iterator.{YieldsFirstBy, item_count};
    ghost use Rattle.prost_reflect_walks.specs.Reserved.{names_left};

    ghost next_gives = { YieldsFirstBy (λ name. name.now) names_left };

    ghost remaining = { item_count names_left };

    fn next(&mut self) -> Option<&'a str> {
        match self.names.split_first() {
            Some((name, rest)) => {
                self.names = rest;
                Some(name.as_str())
            }
            None => None,
        }
    }
}

impl<'a> ExactSizeIterator for ReservedNames<'a> {
    fn len(&self) -> usize {
        self.names.len()
    }
}
