//! The check of ranges; and the extension ranges of a message in order, so that a number is found among them at once.

ghost use Rattle.std.specs.Prelude.{◌≡◌, IfOk, map};
ghost use Rattle.std.specs.List.{All, list_any};
ghost use Rattle.std.specs.List.Sorted.{IsNonDecreasingBy};
ghost use Rattle.prost_reflect_tables.specs.Faults.{range_bad, message_range_bad, enum_range_bad, bad_range, is_in_range};
ghost use Rattle.prost_reflect_flat.specs.FlatViews.{message_row, enum_row, flat_rows};
ghost use Rattle.prost_reflect_tables.specs.Spans.{is_in_span, span_of, reaching, AreSpansOf};

use crate::walk::{any, any_enum, any_message};
use prost_reflect_flat::{Flat, FlatEnum, FlatMessage};
use prost_reflect_tables::natural_or_zero;
use prost_reflect_types::ExtensionRange;
use std::alloc::{AllocError, Global};

// EMPTY RANGES

fn is_range_bad(start: Option<i32>, end: Option<i32>) -> bool
    ensures { result ≡ range_bad start end }
{
    let start = start.unwrap_or(0);
    start < 0 || end.unwrap_or(0) <= start
}

fn is_message_range_bad(message: &FlatMessage) -> bool
    ensures { result ≡ message_range_bad (message_row message.now) }
{
    let proto = message.definition.proto;
    any(
        proto.extension_range.as_slice(),
        &|range| is_range_bad(range.start, range.end),
    ) || any(
        proto.reserved_range.as_slice(),
        &|range| is_range_bad(range.start, range.end),
    )
}

fn is_enum_range_bad(declared: &FlatEnum) -> bool
    ensures { result ≡ enum_range_bad (enum_row declared.now) }
{
    any(
        declared.definition.proto.reserved_range.as_slice(),
        &|range| { range.start.unwrap_or(0) > range.end.unwrap_or(0) },
    )
}

/// Whether a range of a message is empty or starts below 0, or a range of an enum ends before it starts.
pub fn has_bad_range(flat: &Flat) -> bool
    ensures { result ≡ bad_range (flat_rows flat.now) }
{
    any_message(flat.messages.as_slice(), &is_message_range_bad)
        || any_enum(flat.enums.as_slice(), &is_enum_range_bad)
}

// SPANS

/// Each range as a start and an end, which is not in it.
fn as_spans(alloc: Global, ranges: &[ExtensionRange]) -> Result<Vec<(u32, u32)>, AllocError>
    ensures { IfOk result (λ v. v.items ≡ map span_of ranges.now) }
{
    let mut spans = Vec::new(alloc);
    for range in ranges {
        spans.push((natural_or_zero(range.start), natural_or_zero(range.end)))?;
    }
    Ok(spans)
}

/// The spans, each up to the farthest end of it and those before it.
fn reaching(alloc: Global, spans: &[(u32, u32)]) -> Result<Vec<(u32, u32)>, AllocError>
    ensures { IfOk result (λ v. v.items ≡ reaching 0 spans.now) }
{
    let mut farther = Vec::new(alloc);
    let mut farthest = 0;
    for span in spans {
        if farthest < span.1 {
            farthest = span.1;
        }
        farther.push((span.0, farthest))?;
    }
    Ok(farther)
}

/// The spans of a message's ranges, in order of their starts, each up to the farthest end of it and those before it.
///
/// # Errors
///
/// `AllocError` if out of memory.
pub fn spans_of(alloc: Global, ranges: &[ExtensionRange]) -> Result<Vec<(u32, u32)>, AllocError>
    ensures { IfOk result (λ v. AreSpansOf v.items ranges.now) }
{
    let mut spans = as_spans(alloc, ranges)?;
    spans.sort_by_key(|span| span.0)?;
    reaching(alloc, spans.as_slice())
}

// NUMBERS

/// Whether the number is in one of the spans, which is so if it is in the last one that starts at it or below.
fn is_in_a_span(number: u32, spans: &[(u32, u32)]) -> bool
    requires starts { IsNonDecreasingBy (λ (s : _ × _). s.0) spans.now }
    requires ends { IsNonDecreasingBy (λ (s : _ × _). s.1) spans.now }
    ensures { result ≡ list_any (is_in_span number) spans.now }
{
    let count = spans.partition_point(|span| span.0 <= number);
    if count == 0 {
        return false;
    }
    number < spans[count - 1].1
}

fn is_in_range(number: i32, range: &ExtensionRange) -> bool
    ensures { result ≡ is_in_range number range.now }
{
    range.start.unwrap_or(0) <= number && number < range.end.unwrap_or(0)
}

/// Whether the number is in one of the ranges, whose spans are given. A negative one, which is refused before, is no number of a
/// span.
fn is_covered(number: i32, ranges: &[ExtensionRange], spans: &[(u32, u32)]) -> bool
    requires { AreSpansOf spans.now ranges.now }
    ensures { result ≡ list_any (is_in_range number) ranges.now }
{
    match u32::try_from(number) {
        Ok(natural) => is_in_a_span(natural, spans),
        Err(_) => any(ranges, &|range| is_in_range(number, range)),
    }
}

/// Whether the number is in one of the ranges of the message at the place, which is looked for among the spans.
pub fn is_covered_at(
    number: i32,
    ranges: &[ExtensionRange],
    spans: &[(usize, Vec<(u32, u32)>)],
    place: usize,
) -> bool
    requires { All (λ own. own.0 ≡ place → AreSpansOf own.1.items ranges.now) spans.now }
    ensures { result ≡ list_any (is_in_range number) ranges.now }
{
    if let Ok(found) = spans.binary_search_by_key(&place, |own| own.0) {
        let own = &spans[found];
        if own.0 == place {
            return is_covered(number, ranges, own.1.as_slice());
        }
    }
    any(ranges, &|range| is_in_range(number, range))
}
