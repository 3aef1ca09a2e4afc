//! The rows of a pool's messages, with those of extensions that are added.

ghost use Rattle.std.specs.Prelude.{◌≡◌, ◌≤◌, ◌<◌, length, IfOk, OnOk, Some, map, slice_get, slice_set};
ghost use Rattle.prost_reflect_base.specs.Below.{tables_below};
ghost use Rattle.prost_reflect_growth.specs.RowsGrow.{grown_message};
ghost use Rattle.prost_reflect_linking.specs.Grown.{any_below, grown_by, listed_count};
ghost use Rattle.prost_reflect_linking.specs.Meanings.{meaning_row};
ghost use Rattle.prost_reflect_shared.specs.Items.{items_of};
ghost use Rattle.prost_reflect_tables.specs.Indexing.{list_rows};
ghost use Rattle.prost_reflect_tables.specs.Rows.{MessageRow, field_row, message_row};

use crate::meaning::Meaning;
use prost_reflect_base::Base;
use prost_reflect_growth::{grown_message, is_below, sort_by_number};
use prost_reflect_shared::shared_list::SharedList;
use prost_reflect_tables::{FieldTable, MessageTable};
use std::alloc::{AllocError, Global};

/// Whether one of the extensions extends one of so many messages.
fn any_below(count: usize, meanings: &[Meaning]) -> bool
    ensures { result ≡ any_below count (map meaning_row meanings.now) }
{
    for meaning in meanings {
        if is_below(meaning.extendee, count) {
            return true;
        }
    }
    false
}

/// How many of so many messages get a list of their extensions: all of them, or none where no extension extends one of them.
pub fn listed_count(count: usize, meanings: &[Meaning]) -> usize
    ensures bound { result ≤ count }
    ensures count { result ≡ listed_count count (map meaning_row meanings.now) }
{
    if any_below(count, meanings) { count } else { 0 }
}

/// Puts the rows of further extensions among the fields of the message at a place.
fn grow(
    alloc: Global,
    messages: &mut SharedList<MessageTable>,
    place: usize,
    more: Vec<FieldTable>,
) -> Result<(), AllocError>
    requires { place < length (items_of messages.old) }
    ensures { OnOk result
        ((m : MessageRow) → slice_get (map message_row (items_of messages.old)) place ≡ Some m
        → map message_row (items_of messages.new)
        ≡ slice_set (map message_row (items_of messages.old)) place
        (grown_message (map field_row more.items) m)) }
{
    let mut more = more;
    sort_by_number(&mut more)?;
    let row = grown_message(alloc, &messages[place], more.as_slice())?;
    messages.set(place, row)?;
    Ok(())
}

/// The rows of the pool's messages, with those of further extensions, which are listed for the last messages: only messages that
/// have some get a new row, and all others stay shared.
///
/// # Errors
///
/// `AllocError` if out of memory.
pub fn grown_messages(
    alloc: Global,
    base: Base,
    lists: Vec<Vec<FieldTable>>,
) -> Result<SharedList<MessageTable>, AllocError>
    requires { length lists.items ≤ length (tables_below base).messages }
    ensures { IfOk result (λ ms. map message_row (items_of ms) ≡ grown_by (list_rows lists.items) (tables_below base.entry).messages) }
{
    let mut messages = base.pool().tables().messages.clone()?;
    let first = messages.len() - lists.len();
    for (offset, more) in lists.into_iter().enumerate() {
        if !more.is_empty() {
            grow(alloc, &mut messages, first + offset, more)?;
        }
    }
    Ok(messages)
}
