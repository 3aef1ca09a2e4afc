//! Values and unknown fields in a map from numbers to slots.

ghost use Rattle.std.specs.Prelude.{◌≡◌, ◌∷◌, [], Some, None, OnOk, OnErr, IfOk, IfSome, true};
ghost use Rattle.std.specs.Borrow.{LendsSo, sem};
ghost use Rattle.std.specs.Option.{option_copied, option_copied_mut};
ghost use Rattle.prost_reflect_wire.specs.Unknown.{unknown_record};
ghost use Rattle.prost_reflect_wire.specs.Schema.{same_oneof};
ghost use Rattle.prost_reflect_maps.specs.Items.{IsAscending, put_item};
ghost use Rattle.prost_reflect_fields.specs.Known.{known_of, oneof_of, are_siblings, is_other_member};
ghost use Rattle.prost_reflect_fields.specs.FieldSlots.{stored_at, unknown_at, put_value, clear_value, with_value, without_values, first_value, UnknownAdded, SameStored};
ghost use Rattle.prost_reflect_fields.specs.Sound.{set_value_at, prepared, KeepsOneofs};
ghost use Rattle.prost_reflect_fields.specs.Members.{is_member, rows_at};
ghost use Rattle.prost_reflect_fields.specs.Noted.{AreNoted, without_noted};
ghost use Rattle.prost_reflect_fields.specs.Lending.{LendsValue};

use crate::members::member_places;
use crate::slot::FieldSlot;
use prost_reflect_maps::number_map::{NumberMap, ascending};
use prost_reflect_pool::PooledType;
use prost_reflect_tables::FieldTable;
use prost_reflect_wire::{UnknownField, UnknownFieldSet};
use std::alloc::{AllocError, Global};
use std::collections::BTreeMap;

/// The value at the number.
pub fn stored_at<V, S: NumberMap<FieldSlot<V>>>(fields: &S, number: u32) -> Option<&V>
    ensures { option_copied result ≡ stored_at (S.entries fields.now) number }
{
    match fields.get(number) {
        Some(slot) => slot.value(),
        None => None,
    }
}

/// The unknown fields at the number.
pub fn unknown_at<'a, V: 'a, S: NumberMap<FieldSlot<V>>>(
    fields: &'a S,
    number: u32,
) -> Option<&'a UnknownFieldSet>
    ensures { option_copied result ≡ unknown_at (S.entries fields.now) number }
{
    match fields.get(number) {
        Some(slot) => slot.unknown(),
        None => None,
    }
}

/// Puts a value at the number, where the unknown fields stay. If out of memory, nothing changes.
fn put_value<V: Drop, S: NumberMap<FieldSlot<V>>>(
    fields: &mut S,
    alloc: Global,
    number: u32,
    value: V,
) -> Result<(), AllocError>
    ensures ok { OnOk result (S.entries fields.new ≡ put_value (S.entries fields.old) number value) }
    ensures err { OnErr result (S.entries fields.new ≡ S.entries fields.old) }
    ensures noted { S.noted fields.new ≡ S.noted fields.old }
    ensures ascending { IsAscending (S.entries fields.old) }
{
    ascending(fields);
    match fields.get_mut(number) {
        Some(slot) => return slot.put(alloc, value),
        None => {}
    }
    fields.insert(number, FieldSlot::Value(value))
}

/// Takes the value at the number, where the unknown fields stay.
pub fn take_value<V: Drop, S: NumberMap<FieldSlot<V>>>(
    fields: &mut S,
    alloc: Global,
    number: u32,
) -> Option<V>
    ensures value { result ≡ stored_at (S.entries fields.old) number }
    ensures entries { S.entries fields.new ≡ clear_value (S.entries fields.old) number }
    ensures noted { S.noted fields.new ≡ S.noted fields.old }
    ensures ascending { IsAscending (S.entries fields.old) }
{
    ascending(fields);
    match fields.get(number) {
        Some(FieldSlot::Value(_)) => match fields.remove(number) {
            Some(FieldSlot::Value(value)) => Some(value),
            _ => None,
        },
        Some(FieldSlot::Both(_, _)) => match fields.get_mut(number) {
            Some(slot) => slot.take_beside(alloc),
            None => None,
        },
        Some(FieldSlot::Unknown(_)) => None,
        None => None,
    }
}

/// Adds an unknown field behind those of its number. If out of memory, no value and no unknown field changes.
pub fn add_unknown<V: Drop, S: NumberMap<FieldSlot<V>>>(
    fields: &mut S,
    alloc: Global,
    number: u32,
    field: UnknownField,
) -> Result<(), AllocError>
    requires { (unknown_record field).number ≡ number }
    ensures ok { OnOk result (UnknownAdded (S.entries fields.old) (S.entries fields.new) (unknown_record field)) }
    ensures err { OnErr result (SameStored (S.entries fields.old) (S.entries fields.new)) }
    ensures noted { S.noted fields.new ≡ S.noted fields.old }
    ensures ascending { IsAscending (S.entries fields.old) }
{
    ascending(fields);
    match fields.get_mut(number) {
        Some(slot) => return slot.add_unknown(alloc, field),
        None => {}
    }
    let mut unknown = UnknownFieldSet::new(alloc);
    unknown.insert(field)?;
    fields.insert(number, FieldSlot::Unknown(unknown))
}

/// Sets the value at the number, and removes those of the other members of its field's oneof. So of a oneof at most one member has
/// a value, if it was so before. The unknown fields stay. If out of memory, no value and no unknown field changes.
pub(crate) fn set_value<V: Drop, S: NumberMap<FieldSlot<V>>>(
    fields: &mut S,
    alloc: Global,
    message_type: &PooledType,
    number: u32,
    oneof: Option<usize>,
    value: V,
) -> Result<(), AllocError>
    requires oneof { oneof ≡ oneof_of (known_of message_type.now) number }
    requires noted { AreNoted (known_of message_type.now) (S.noted fields.old) (S.entries fields.old) }
    ensures ok { OnOk result (S.entries fields.new ≡ set_value_at (known_of message_type.now) (S.entries fields.old) number value) }
    ensures err { OnErr result (S.entries fields.new ≡ S.entries fields.old) }
    ensures single { KeepsOneofs (known_of message_type.now) (S.entries fields.old) (S.entries fields.new) }
    ensures noted { AreNoted (known_of message_type.now) (S.noted fields.new) (S.entries fields.new) }
    ensures ascending { IsAscending (S.entries fields.old) }
{
    match oneof {
        Some(oneof) => set_in_oneof(fields, alloc, message_type, number, oneof, value),
        None => put_value(fields, alloc, number, value),
    }
}

/// Sets the value at the number of a member of the oneof, and removes those of the other members. These are looked for,
/// unless it is noted which of them has a value. If out of memory, nothing changes.
fn set_in_oneof<V: Drop, S: NumberMap<FieldSlot<V>>>(
    fields: &mut S,
    alloc: Global,
    message_type: &PooledType,
    number: u32,
    oneof: usize,
    value: V,
) -> Result<(), AllocError>
    requires oneof { Some oneof ≡ oneof_of (known_of message_type.now) number }
    requires noted { AreNoted (known_of message_type.now) (S.noted fields.old) (S.entries fields.old) }
    ensures ok { OnOk result (S.entries fields.new ≡ set_value_at (known_of message_type.now) (S.entries fields.old) number value) }
    ensures err { OnErr result (S.entries fields.new ≡ S.entries fields.old) }
    ensures noted { AreNoted (known_of message_type.now) (S.noted fields.new) (S.entries fields.new) }
    ensures ascending { IsAscending (S.entries fields.old) }
{
    let notes = fields.take_notes();
    put_value(fields, alloc, number, value)?;
    match notes {
        Some(notes) => {
            clear_noted(fields, alloc, number, notes.get(&oneof).copied());
            note(fields, notes, oneof, number);
        }
        None => clear_siblings(fields, alloc, message_type, number, Some(oneof)),
    }
    Ok(())
}

/// Keeps the notes with the number under the oneof, if there is memory for it.
fn note<T, S: NumberMap<T>>(fields: &mut S, notes: BTreeMap<usize, u32>, oneof: usize, number: u32)
    ensures entries { S.entries fields.new ≡ S.entries fields.old }
    ensures noted { S.noted fields.old ≡ None → IfSome (S.noted fields.new) (λ kept. kept ≡ put_item notes.entries oneof number) }
{
    let mut notes = notes;
    if notes.insert(oneof, number).is_ok() {
        fields.put_notes(notes);
    }
}

/// Removes the value at the number that is noted, if there is one, unless that is the number itself.
fn clear_noted<V: Drop, S: NumberMap<FieldSlot<V>>>(
    fields: &mut S,
    alloc: Global,
    number: u32,
    member: Option<u32>,
)
    ensures cleared { S.entries fields.new ≡ without_noted (S.entries fields.old) number member }
    ensures noted { S.noted fields.new ≡ S.noted fields.old }
    ensures ascending { IsAscending (S.entries fields.old) }
{
    ascending(fields);
    match member {
        Some(member) if member != number => drop(take_value(fields, alloc, member)),
        _ => {}
    }
}

/// The value at the number, for writing.
pub fn value_mut<V, S: NumberMap<FieldSlot<V>>>(fields: &mut S, number: u32) -> Option<&mut V>
    ensures* writes_back { sem 𝓛
        (LendsSo S.row V.row fields.entry result
        (λ after w. (S.entries after ≡ with_value (S.entries fields.old) number w)
        × (S.noted after ≡ S.noted fields.old))
        (λ after. (S.entries after ≡ S.entries fields.old) × (S.noted after ≡ S.noted fields.old))) }
    ensures value { option_copied_mut result ≡ stored_at (S.entries fields.old) number }
{
    match fields.get_mut(number) {
        Some(slot) => slot.value_mut(),
        None => None,
    }
}

/// The value at the number, for writing. Where there is none it is first set to `default`, which removes those of the other
/// members of its field's oneof, as `set_value` does. If out of memory, nothing changes.
pub(crate) fn value_mut_or<'a, V: Drop + 'a, S: NumberMap<FieldSlot<V>>>(
    fields: &'a mut S,
    alloc: Global,
    message_type: &PooledType,
    number: u32,
    default: V,
) -> Result<&'a mut V, AllocError>
    requires { AreNoted (known_of message_type.now) (S.noted fields.old) (S.entries fields.old) }
    ensures* writes_back { sem 𝓛
        (LendsValue S.row V.row fields.entry result S.entries S.noted (known_of message_type.now) (S.entries fields.old)
        number default) }
    ensures value { IfOk result
        (λ v. stored_at (prepared (known_of message_type.now) (S.entries fields.old) number default) number
        ≡ Some v.now) }
    ensures ascending { IsAscending (S.entries fields.old) }
{
    set_default(fields, alloc, message_type, number, default)?;
    match value_mut(fields, number) {
        Some(value) => Ok(value),
        None => unreachable!(),
    }
}

/// Sets the value at the number to `default` where there is none.
fn set_default<V: Drop, S: NumberMap<FieldSlot<V>>>(
    fields: &mut S,
    alloc: Global,
    message_type: &PooledType,
    number: u32,
    default: V,
) -> Result<(), AllocError>
    requires { AreNoted (known_of message_type.now) (S.noted fields.old) (S.entries fields.old) }
    ensures ok { OnOk result (S.entries fields.new ≡ prepared (known_of message_type.now) (S.entries fields.old) number default) }
    ensures err { OnErr result (S.entries fields.new ≡ S.entries fields.old) }
    ensures single { KeepsOneofs (known_of message_type.now) (S.entries fields.old) (S.entries fields.new) }
    ensures noted { AreNoted (known_of message_type.now) (S.noted fields.new) (S.entries fields.new) }
    ensures ascending { IsAscending (S.entries fields.old) }
{
    ascending(fields);
    if stored_at(fields, number).is_some() {
        return Ok(());
    }
    let oneof = oneof_of(message_type, number);
    set_value(fields, alloc, message_type, number, oneof, default)
}

/// The oneof of the number's field.
pub fn oneof_of(message_type: &PooledType, number: u32) -> Option<usize>
    ensures { result ≡ oneof_of (known_of message_type.now) number }
{
    match message_type.field_table(number) {
        Some(field) => field.oneof,
        None => None,
    }
}

/// Removes the values of the other members of the oneof of the number's field.
fn clear_siblings<V: Drop, S: NumberMap<FieldSlot<V>>>(
    fields: &mut S,
    alloc: Global,
    message_type: &PooledType,
    number: u32,
    oneof: Option<usize>,
)
    requires { oneof ≡ oneof_of (known_of message_type.now) number }
    ensures cleared { S.entries fields.new ≡ without_values (are_siblings (known_of message_type.now) number) (S.entries fields.old) }
    ensures noted { S.noted fields.new ≡ S.noted fields.old }
    ensures ascending { IsAscending (S.entries fields.old) }
{
    let places = member_places(message_type, oneof);
    if !clear_listed(fields, alloc, message_type, oneof, number, places.len()) {
        clear_members(
            fields,
            alloc,
            message_type.field_tables(),
            places,
            oneof,
            number,
        );
    }
}

/// Removes the values of the members of the oneof, but that of the number, where all items stand in a list that is shorter than
/// the list of its members. Answers whether it did; if not, some may still be there.
fn clear_listed<V: Drop, S: NumberMap<FieldSlot<V>>>(
    fields: &mut S,
    alloc: Global,
    message_type: &PooledType,
    oneof: Option<usize>,
    number: u32,
    members: usize,
) -> bool
    ensures cleared { result ≡ true
        → S.entries fields.new
        ≡ without_values (is_other_member (known_of message_type.now) oneof number) (S.entries fields.old) }
    ensures left { without_values (is_other_member (known_of message_type.now) oneof number) (S.entries fields.new)
        ≡ without_values (is_other_member (known_of message_type.now) oneof number) (S.entries fields.old) }
    ensures noted { S.noted fields.new ≡ S.noted fields.old }
    ensures ascending { IsAscending (S.entries fields.old) }
{
    ascending(fields);
    while let Some(items) = shorter_list(fields, members) {
        match member_among(items, message_type, oneof, number) {
            Some(member) => drop(take_value(fields, alloc, member)),
            None => return true,
        }
    }
    false
}

/// All items, where they stand in one list that is shorter than the limit.
fn shorter_list<T, S: NumberMap<T>>(fields: &S, limit: usize) -> Option<&[(u32, T)]>
    ensures { IfSome result (λ items. items.now ≡ S.entries fields.now) }
{
    match fields.listed() {
        Some(items) if items.len() < limit => Some(items),
        _ => None,
    }
}

/// The first member of the oneof, but not the number, that has a value among the items.
fn member_among<V>(
    items: &[(u32, FieldSlot<V>)],
    message_type: &PooledType,
    oneof: Option<usize>,
    number: u32,
) -> Option<u32>
    ensures { result ≡ first_value (is_other_member (known_of message_type.now) oneof number) items.now }
{
    for item in items {
        if item.1.value().is_some() && is_other_member(message_type, oneof, number, item.0) {
            return Some(item.0);
        }
    }
    None
}

/// Whether the other number is that of a member of the oneof, but not the number.
fn is_other_member(message_type: &PooledType, oneof: Option<usize>, number: u32, other: u32) -> bool
    ensures { result ≡ is_other_member (known_of message_type.now) oneof number other }
{
    other != number && is_same_oneof(oneof_of(message_type, other), oneof)
}

/// Whether two fields are members of one oneof.
pub(crate) fn is_same_oneof(left: Option<usize>, right: Option<usize>) -> bool
    ensures { result ≡ same_oneof left right }
{
    match (left, right) {
        (Some(left), Some(right)) => left == right,
        _ => false,
    }
}

/// Removes the values of the members of the oneof at these places, but that of the number.
fn clear_members<V: Drop, S: NumberMap<FieldSlot<V>>>(
    fields: &mut S,
    alloc: Global,
    table: &[FieldTable],
    places: &[usize],
    oneof: Option<usize>,
    number: u32,
)
    ensures cleared { S.entries fields.new ≡ without_values (is_member (rows_at table.now places.now) oneof number) (S.entries fields.old) }
    ensures noted { S.noted fields.new ≡ S.noted fields.old }
    ensures ascending { IsAscending (S.entries fields.old) }
{
    ascending(fields);
    for place in places {
        if let Some(field) = table.get(*place) {
            clear_member(fields, alloc, field, oneof, number);
        }
    }
}

/// Removes the value of the field where it is a member of the oneof, but not that of the number.
fn clear_member<V: Drop, S: NumberMap<FieldSlot<V>>>(
    fields: &mut S,
    alloc: Global,
    field: &FieldTable,
    oneof: Option<usize>,
    number: u32,
)
    ensures cleared { S.entries fields.new ≡ without_values (is_member (field.now ∷ []) oneof number) (S.entries fields.old) }
    ensures noted { S.noted fields.new ≡ S.noted fields.old }
    ensures ascending { IsAscending (S.entries fields.old) }
{
    ascending(fields);
    if field.number != number && is_same_oneof(field.oneof, oneof) {
        drop(take_value(fields, alloc, field.number));
    }
}
