//! The check that the numbers of extensions are in extension ranges of the messages that they extend.
//!
//! The extension ranges of each message that is extended are put in order once, so that a number is found among them at once.

ghost use Rattle.std.specs.Prelude.{◌≡◌, IfOk, option_map, slice_get};
ghost use Rattle.std.specs.List.{list_any};
ghost use Rattle.prost_reflect_tables.specs.Faults.{extension_outside};
ghost use Rattle.prost_reflect_flat.specs.FlatViews.{flat_rows};
ghost use Rattle.prost_reflect_resolving.specs.Indexed.{all_rows};
ghost use Rattle.prost_reflect_resolving.specs.Resolved.{resolved_row, IsResolved};
ghost use Rattle.prost_reflect_tables.specs.ResolvedFaults.{found_outside};
ghost use Rattle.prost_reflect_tables.specs.Spans.{ranges_of, AreSpansIn};

use crate::walk::any_resolved_extension;
use prost_reflect_definition_checks::ranges::{is_covered_at, spans_of};
use prost_reflect_flat::Flat;
use prost_reflect_resolving::{Resolved, ResolvedField};
use prost_reflect_types::ExtensionRange;
use std::alloc::{AllocError, Global};

/// The extension ranges of the added message at a place among the added ones.
fn added_ranges<'f>(flat: &'f Flat, offset: usize) -> Option<&'f [ExtensionRange]>
    ensures { option_map (λ r. r.now) result ≡ ranges_of (slice_get (flat_rows flat.now).messages offset) }
{
    match flat.messages.get(offset) {
        Some(message) => Some(message.definition.proto.extension_range.as_slice()),
        None => None,
    }
}

/// The extension ranges of the message at a place, of the pool or added.
fn ranges_at<'f>(
    resolved: &'f Resolved,
    flat: &'f Flat,
    place: usize,
) -> Option<&'f [ExtensionRange]>
    ensures { option_map (λ r. r.now) result
        ≡ ranges_of (slice_get (all_rows resolved.now.index.base (flat_rows flat.now)).messages place) }
{
    let count = resolved.index.base.message_count();
    if place < count {
        resolved.index.base.extension_ranges(place)
    } else {
        added_ranges(flat, place - count)
    }
}

/// The places of the messages that are extended, each once and in ascending order.
fn extended_places(alloc: Global, extensions: &[ResolvedField]) -> Result<Vec<usize>, AllocError> {
    let mut places = Vec::with_capacity(alloc, extensions.len())?;
    for extension in extensions {
        if let Some(place) = extension.extendee {
            places.push(place)?;
        }
    }
    places.sort_unstable();
    places.dedup();
    Ok(places)
}

/// The spans of the messages at these places, of those that are there.
fn spans_at(
    alloc: Global,
    resolved: &Resolved,
    flat: &Flat,
    places: &[usize],
) -> Result<Vec<(usize, Vec<(u32, u32)>)>, AllocError>
    ensures { IfOk result (λ v. AreSpansIn (all_rows resolved.now.index.base (flat_rows flat.now)) v.items) }
{
    let mut spans = Vec::with_capacity(alloc, places.len())?;
    for place in places {
        if let Some(ranges) = ranges_at(resolved, flat, *place) {
            spans.push((*place, spans_of(alloc, ranges)?))?;
        }
    }
    Ok(spans)
}

fn is_extension_outside(
    resolved: &Resolved,
    flat: &Flat,
    spans: &[(usize, Vec<(u32, u32)>)],
    extension: &ResolvedField,
) -> bool
    requires { AreSpansIn (all_rows resolved.now.index.base (flat_rows flat.now)) spans.now }
    ensures { result ≡ found_outside (all_rows resolved.now.index.base (flat_rows flat.now)) (resolved_row extension.now) }
{
    let Some(place) = extension.extendee else {
        return false;
    };
    let Some(ranges) = ranges_at(resolved, flat, place) else {
        return false;
    };
    !is_covered_at(
        extension.definition.proto.number.unwrap_or(0),
        ranges,
        spans,
        place,
    )
}

/// Whether an added extension's number is in no extension range of the message that it extends.
///
/// # Errors
///
/// `AllocError` if out of memory.
pub fn has_outside_range(
    alloc: Global,
    resolved: &Resolved,
    flat: &Flat,
) -> Result<bool, AllocError>
    requires { IsResolved resolved.now (flat_rows flat.now) }
    ensures { IfOk result
        (λ b. b
        ≡ list_any (extension_outside (all_rows resolved.now.index.base (flat_rows flat.now)))
        (flat_rows flat.now).extensions) }
{
    let places = extended_places(alloc, resolved.extensions.as_slice())?;
    let spans = spans_at(alloc, resolved, flat, places.as_slice())?;
    let spans = spans.as_slice();
    Ok(any_resolved_extension(
        resolved,
        flat,
        &|extension| { is_extension_outside(resolved, flat, spans, extension) },
    ))
}
