//! The names of added definitions, and which definition a text names, of the pool that is there or of the added ones.

ghost use Rattle.std.specs.Prelude.{◌≡◌, [], IfOk, map, slice_get, unwrap_or};
ghost use Rattle.std.specs.BTreeMap.{get_by_text};
ghost use Rattle.prost_reflect_tables.specs.Faults.{message_names, enum_names, place_named};
ghost use Rattle.prost_reflect_flat.specs.FlatViews.{definition_row, enum_row, flat_rows, text_list};
ghost use Rattle.prost_reflect_tables.specs.WrittenDefaults.{number_named};
ghost use Rattle.prost_reflect_tables.specs.Linking.{links_of, linked_value, values_of_kind};
ghost use Rattle.prost_reflect_resolving.specs.Indexed.{all_rows, IsIndexFrom, IsNumbersOf, AreNumbersOf, IsIndex};

use prost_reflect_base::Base;
use prost_reflect_flat::{Definition, Flat, FlatEnum, enum_names, message_names};
use prost_reflect_tables::{TableKind, text_or_empty, without_dot};
use prost_reflect_types::EnumValueDescriptorProto;
use std::alloc::{AllocError, Global};
use std::collections::BTreeMap;

/// What the texts of added definitions are looked up in: the pool that is there, and the names of the added definitions.
#[derive(Drop)]
pub struct Index<'p> {
    /// The pool that is there.
    pub base: Base<'p>,
    /// The places of the added messages by their full names, behind the messages of the pool.
    pub messages: BTreeMap<String, usize>,
    /// The places of the added enums by their full names, behind the enums of the pool.
    pub enums: BTreeMap<String, usize>,
    /// The numbers of each added enum's values by their names.
    pub numbers: Vec<BTreeMap<String, i32>>,
}

/// The place of the first of each name, where the first of the names is at the place.
///
/// # Errors
///
/// `AllocError` if out of memory, or if a place passes the greatest `usize`, as no memory holds so many names.
pub fn index_from(
    alloc: Global,
    first: usize,
    names: &[&str],
) -> Result<BTreeMap<String, usize>, AllocError>
    ensures { IfOk result (λ m. IsIndexFrom first m (text_list names.now)) }
{
    let mut index = BTreeMap::new(alloc);
    for (offset, name) in names.iter().enumerate() {
        let place = first.checked_add(offset).ok_or(AllocError)?;
        index
            .entry(String::from_str(alloc, name)?)?
            .or_insert(place);
    }
    Ok(index)
}

/// The numbers of an enum's values by their names, where the first of each name counts.
fn numbers_by_name(
    alloc: Global,
    values: &[Definition<EnumValueDescriptorProto>],
) -> Result<BTreeMap<String, i32>, AllocError>
    ensures { IfOk result (λ m. IsNumbersOf m (map linked_value (map definition_row values.now))) }
{
    let mut numbers = BTreeMap::new(alloc);
    for value in values {
        let name = String::from_str(alloc, text_or_empty(&value.proto.name))?;
        let number = value.proto.number.unwrap_or(0);
        numbers.entry(name)?.or_insert(number);
    }
    Ok(numbers)
}

/// The numbers of each enum's values by their names.
fn numbers_by_enum(
    alloc: Global,
    enums: &[FlatEnum],
) -> Result<Vec<BTreeMap<String, i32>>, AllocError>
    ensures { IfOk result (λ v. AreNumbersOf v.items (map (λ e. map linked_value e.values) (map enum_row enums.now))) }
{
    let mut numbers = Vec::with_capacity(alloc, enums.len())?;
    for declared in enums {
        numbers.push(numbers_by_name(alloc, declared.values.as_slice())?)?;
    }
    Ok(numbers)
}

/// The index of definitions that are added to a pool.
///
/// # Errors
///
/// `AllocError` if out of memory.
pub fn indexed<'p>(alloc: Global, base: Base<'p>, flat: &Flat) -> Result<Index<'p>, AllocError>
    ensures index { IfOk result (λ index. IsIndex index (flat_rows flat.now)) }
    ensures base { IfOk result (λ index. index.base ≡ base.entry) }
{
    let messages = message_names(alloc, flat.messages.as_slice())?;
    let enums = enum_names(alloc, flat.enums.as_slice())?;
    Ok(Index {
        base,
        messages: index_from(alloc, base.message_count(), messages.as_slice())?,
        enums: index_from(alloc, base.enum_count(), enums.as_slice())?,
        numbers: numbers_by_enum(alloc, flat.enums.as_slice())?,
    })
}

fn place_in(index: &BTreeMap<String, usize>, name: &str) -> Option<usize>
    ensures { result ≡ get_by_text index.now name.now }
{
    index.get(name).copied()
}

/// The place of the message that a text names: of the first one of that full name.
pub fn message_place(index: &Index, flat: &Flat, text: &Option<String>) -> Option<usize>
    requires { IsIndex index.now (flat_rows flat.now) }
    ensures { result ≡ place_named (message_names (all_rows index.now.base (flat_rows flat.now))) text.now }
{
    let Some(text) = text else {
        return None;
    };
    let name = without_dot(text.as_str());
    match index.base.message_place(name) {
        Some(place) => Some(place),
        None => place_in(&index.messages, name),
    }
}

/// The place of the enum that a text names: of the first one of that full name.
pub fn enum_place(index: &Index, flat: &Flat, text: &Option<String>) -> Option<usize>
    requires { IsIndex index.now (flat_rows flat.now) }
    ensures { result ≡ place_named (enum_names (all_rows index.now.base (flat_rows flat.now))) text.now }
{
    let Some(text) = text else {
        return None;
    };
    let name = without_dot(text.as_str());
    match index.base.enum_place(name) {
        Some(place) => Some(place),
        None => place_in(&index.enums, name),
    }
}

fn number_in(numbers: &BTreeMap<String, i32>, name: &str) -> Option<i32>
    ensures { result ≡ get_by_text numbers.now name.now }
{
    numbers.get(name).copied()
}

/// The number of the first value of a name of the added enum at a place among the added ones.
fn added_number(index: &Index, flat: &Flat, offset: usize, name: &str) -> Option<i32>
    requires { IsIndex index.now (flat_rows flat.now) }
    ensures { result ≡ number_named (unwrap_or (slice_get (links_of (flat_rows flat.now)).values offset) []) name.now }
{
    match index.numbers.get(offset) {
        Some(numbers) => number_in(numbers, name),
        None => None,
    }
}

/// The number of the value that a text names, if the kind is an enum: of the enum's first value of that name.
pub(crate) fn number_named(index: &Index, flat: &Flat, kind: TableKind, name: &str) -> Option<i32>
    requires { IsIndex index.now (flat_rows flat.now) }
    ensures { result ≡ number_named (values_of_kind (links_of (all_rows index.now.base (flat_rows flat.now))) kind) name.now }
{
    let TableKind::Enum(place) = kind else {
        return None;
    };
    let count = index.base.enum_count();
    if place < count {
        index.base.value_number(place, name)
    } else {
        added_number(index, flat, place - count, name)
    }
}
