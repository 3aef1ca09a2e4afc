//! What is declared in messages and what extends them, and their fields and the values of enums by names and numbers.

ghost use Rattle.std.specs.Prelude.{◌≡◌, ◌+◌, ◌<◌, ◌≤◌, ◌++◌, length, IfOk, map};
ghost use Rattle.std.specs.List.{list_any};
ghost use Rattle.prost_reflect_base.specs.Below.{rows_below, tables_below, catalog_below};
ghost use Rattle.prost_reflect_growth.specs.CatalogGrow.{added_lists, grown_lists_from};
ghost use Rattle.prost_reflect_growth.specs.FirstPlaces.{is_below};
ghost use Rattle.prost_reflect_growth.specs.GatheredFrom.{gathered_from};
ghost use Rattle.prost_reflect_growth.specs.RowsGrow.{added_messages, grown_rows};
ghost use Rattle.prost_reflect_lists.specs.GatheredLists.{AreInner, AreFurther, with_further};
ghost use Rattle.prost_reflect_resolving.specs.Indexed.{all_rows};
ghost use Rattle.prost_reflect_resolving.specs.Resolved.{resolved_row};
ghost use Rattle.prost_reflect_tables.specs.CatalogRows.{message_lists_row, enum_lists_row};
ghost use Rattle.prost_reflect_tables.specs.Flat.{FlatRows};
ghost use Rattle.prost_reflect_flat.specs.FlatViews as flat_views;
ghost use Rattle.prost_reflect_flat.specs.FlatViews.{definition_row, flat_rows, text_list};
ghost use Rattle.prost_reflect_tables.specs.LinkedCatalog.{each_from, field_names, json_names, own_fields, value_names, enum_lists};
ghost use Rattle.prost_reflect_tables.specs.Linking.{links_of, extended_place, value_number};
ghost use Rattle.prost_reflect_tables.specs.Orders.{by_text};
ghost use Rattle.prost_reflect_tables.specs.Resolved.{resolve};
ghost use Rattle.prost_reflect_tables.specs.Rows.{field_row, message_row};
ghost use Rattle.prost_reflect_tables.specs.Schema.{rows_of};

use prost_reflect_base::Base;
use prost_reflect_flat::{Definition, Flat, FlatEnum, FlatMessage};
use prost_reflect_growth::{
    gathered, is_below, list_at, ordered_numbers, ordered_texts, sort_by_text,
};
use prost_reflect_resolving::ResolvedField;
use prost_reflect_shared::shared_list::SharedList;
use prost_reflect_tables::{
    EnumLists, FieldTable, MessageLists, MessageTable, Tables, text_or_empty,
};
use prost_reflect_types::{EnumValueDescriptorProto, FieldDescriptorProto};
use std::alloc::{AllocError, Global};

// WHAT STANDS IN MESSAGES AND WHAT EXTENDS THEM

/// What stands in each added message, and which added extensions extend it.
#[derive(Drop)]
pub struct InnerPlaces {
    /// The messages in it.
    pub messages: Vec<Vec<usize>>,
    /// The enums in it.
    pub enums: Vec<Vec<usize>>,
    /// The extensions in it.
    pub extensions: Vec<Vec<usize>>,
    /// The extensions of it.
    pub extending: Vec<Vec<usize>>,
}

fn inner_messages(alloc: Global, base: Base<'_>, flat: &Flat) -> Result<Vec<Vec<usize>>, AllocError>
    ensures { IfOk result
        (λ v. map (λ l. l.items) v.items
        ≡ gathered_from (λ m. m.definition.parent) (length (rows_below base.entry).messages)
        (flat_rows flat.now).messages (length (rows_below base.entry).messages)
        (length (flat_rows flat.now).messages)) }
{
    let owner = |message: &FlatMessage| message.definition.parent;
    Ok(gathered(
        alloc,
        base.message_count(),
        flat.messages.len(),
        base.message_count(),
        flat.messages.as_slice(),
        &owner,
    )?)
}

fn inner_enums(alloc: Global, base: Base<'_>, flat: &Flat) -> Result<Vec<Vec<usize>>, AllocError>
    ensures { IfOk result
        (λ v. map (λ l. l.items) v.items
        ≡ gathered_from (λ e. e.definition.parent) (length (rows_below base.entry).enums) (flat_rows flat.now).enums
        (length (rows_below base.entry).messages) (length (flat_rows flat.now).messages)) }
{
    let owner = |declared: &FlatEnum| declared.definition.parent;
    Ok(gathered(
        alloc,
        base.message_count(),
        flat.messages.len(),
        base.enum_count(),
        flat.enums.as_slice(),
        &owner,
    )?)
}

fn inner_extensions(
    alloc: Global,
    base: Base<'_>,
    flat: &Flat,
) -> Result<Vec<Vec<usize>>, AllocError>
    ensures { IfOk result
        (λ v. map (λ l. l.items) v.items
        ≡ gathered_from (λ d. d.parent) (length (rows_below base.entry).extensions) (flat_rows flat.now).extensions
        (length (rows_below base.entry).messages) (length (flat_rows flat.now).messages)) }
{
    let owner = |extension: &Definition<FieldDescriptorProto>| extension.parent;
    Ok(gathered(
        alloc,
        base.message_count(),
        flat.messages.len(),
        base.extension_count(),
        flat.extensions.as_slice(),
        &owner,
    )?)
}

/// The added extensions of each of `count` messages, the first of which is at the place `first`.
fn extending(
    alloc: Global,
    base: Base<'_>,
    extensions: &[ResolvedField],
    flat: &Flat,
    first: usize,
    count: usize,
) -> Result<Vec<Vec<usize>>, AllocError>
    requires { map resolved_row extensions.now
        ≡ map (resolve (links_of (all_rows base (flat_rows flat.now)))) (flat_rows flat.now).extensions }
    ensures { IfOk result
        (λ v. map (λ l. l.items) v.items
        ≡ gathered_from (extended_place (links_of (all_rows base.entry (flat_rows flat.now))))
        (length (rows_below base.entry).extensions) (flat_rows flat.now).extensions first count) }
{
    let owner = |extension: &ResolvedField| extension.extendee;
    Ok(gathered(
        alloc,
        first,
        count,
        base.extension_count(),
        extensions,
        &owner,
    )?)
}

/// What stands in each added message, and which added extensions extend it.
///
/// # Errors
///
/// `AllocError` if out of memory.
pub fn inner_places(
    alloc: Global,
    base: Base<'_>,
    extensions: &[ResolvedField],
    flat: &Flat,
) -> Result<InnerPlaces, AllocError>
    requires { map resolved_row extensions.now
        ≡ map (resolve (links_of (all_rows base (flat_rows flat.now)))) (flat_rows flat.now).extensions }
    ensures { IfOk result (λ inner. AreInner inner (rows_below base.entry) (flat_rows flat.now)) }
{
    let (first, count) = (base.message_count(), flat.messages.len());
    Ok(InnerPlaces {
        messages: inner_messages(alloc, base, flat)?,
        enums: inner_enums(alloc, base, flat)?,
        extensions: inner_extensions(alloc, base, flat)?,
        extending: extending(alloc, base, extensions, flat, first, count)?,
    })
}

/// Whether an added extension extends one of the first messages, which are so many.
fn any_below(extensions: &[ResolvedField], count: usize) -> bool
    ensures { result ≡ list_any (λ r. is_below count r.extendee) (map resolved_row extensions.now) }
{
    for extension in extensions {
        if is_below(extension.extendee, count) {
            return true;
        }
    }
    false
}

/// The added extensions of each message type of the pool, or no lists where there are no such extensions.
///
/// # Errors
///
/// `AllocError` if out of memory.
pub fn further_places(
    alloc: Global,
    base: Base<'_>,
    extensions: &[ResolvedField],
    flat: &Flat,
) -> Result<Vec<Vec<usize>>, AllocError>
    requires { map resolved_row extensions.now
        ≡ map (resolve (links_of (all_rows base (flat_rows flat.now)))) (flat_rows flat.now).extensions }
    ensures { IfOk result (λ v. AreFurther v.items (rows_below base.entry) (flat_rows flat.now)) }
{
    let count = base.message_count();
    if any_below(extensions, count) {
        Ok(extending(alloc, base, extensions, flat, 0, count)?)
    } else {
        Ok(Vec::new(alloc))
    }
}

// FIELDS BY THEIR NAMES

fn field_names<'f>(alloc: Global, fields: &'f [FieldTable]) -> Result<Vec<&'f str>, AllocError>
    ensures { IfOk result (λ v. text_list v.items ≡ field_names (map field_row fields.now)) }
{
    let mut names = Vec::with_capacity(alloc, fields.len())?;
    for field in fields {
        names.push(field.id.name())?;
    }
    Ok(names)
}

fn json_names<'f>(alloc: Global, fields: &'f [FieldTable]) -> Result<Vec<&'f str>, AllocError>
    ensures { IfOk result (λ v. text_list v.items ≡ json_names (map field_row fields.now)) }
{
    let mut names = Vec::with_capacity(alloc, fields.len())?;
    for field in fields {
        names.push(field.json_name())?;
    }
    Ok(names)
}

/// The places of fields without extensions.
fn own_fields(alloc: Global, fields: &[FieldTable]) -> Result<Vec<usize>, AllocError>
    ensures { IfOk result (λ v. v.items ≡ own_fields (map field_row fields.now)) }
{
    let mut places = Vec::with_capacity(alloc, fields.len())?;
    for (place, field) in fields.iter().enumerate() {
        if !field.is_extension {
            places.push(place)?;
        }
    }
    places.shrink_to_fit();
    Ok(places)
}

/// The places of fields without extensions, in the order of these names of all fields.
fn fields_by(alloc: Global, fields: &[FieldTable], names: &[&str]) -> Result<Vec<usize>, AllocError>
    ensures { IfOk result (λ v. v.items ≡ by_text (text_list names.now) (own_fields (map field_row fields.now))) }
{
    let mut places = own_fields(alloc, fields)?;
    sort_by_text(names, &mut places)?;
    Ok(places)
}

fn fields_by_name(alloc: Global, fields: &[FieldTable]) -> Result<Vec<usize>, AllocError>
    ensures { IfOk result (λ v. v.items ≡ by_text (field_names (map field_row fields.now)) (own_fields (map field_row fields.now))) }
{
    let names = field_names(alloc, fields)?;
    Ok(fields_by(alloc, fields, names.as_slice())?)
}

fn fields_by_json_name(alloc: Global, fields: &[FieldTable]) -> Result<Vec<usize>, AllocError>
    ensures { IfOk result (λ v. v.items ≡ by_text (json_names (map field_row fields.now)) (own_fields (map field_row fields.now))) }
{
    let names = json_names(alloc, fields)?;
    Ok(fields_by(alloc, fields, names.as_slice())?)
}

// THE LISTS OF MESSAGES

/// The lists of the added message at a place behind those of the pool.
fn added_lists(
    alloc: Global,
    base: Base<'_>,
    inner: &InnerPlaces,
    place: usize,
    message: &MessageTable,
) -> Result<MessageLists, AllocError>
    ghost new: { FlatRows }
    requires inner { AreInner inner.now (rows_below base) new }
    requires behind { length (rows_below base).messages ≤ place }
    requires within { place < length (rows_below base).messages + length new.messages }
    ensures { IfOk result (λ l. message_lists_row l ≡ added_lists (rows_below base.entry) new place (message_row message.now)) }
{
    let offset = place - base.message_count();
    Ok(MessageLists {
        messages: list_at(alloc, inner.messages.as_slice(), offset)?,
        enums: list_at(alloc, inner.enums.as_slice(), offset)?,
        extensions: list_at(alloc, inner.extensions.as_slice(), offset)?,
        extending: list_at(alloc, inner.extending.as_slice(), offset)?,
        fields: own_fields(alloc, message.fields.as_slice())?,
        by_name: fields_by_name(alloc, message.fields.as_slice())?,
        by_json_name: fields_by_json_name(alloc, message.fields.as_slice())?,
    })
}

/// Places, with further ones behind them.
fn both_places(alloc: Global, places: &[usize], more: &[usize]) -> Result<Vec<usize>, AllocError>
    ensures { IfOk result (λ v. v.items ≡ places.now ++ more.now) }
{
    let mut both = places.to_vec(alloc)?;
    both.extend_from_slice(more)?;
    both.shrink_to_fit();
    Ok(both)
}

/// The lists of a message with further extensions of it, whose rows stand in its own already.
fn with_further(
    alloc: Global,
    lists: &MessageLists,
    places: &[usize],
    message: &MessageTable,
) -> Result<MessageLists, AllocError>
    ensures { IfOk result (λ l. message_lists_row l ≡ with_further places.now (message_row message.now) (message_lists_row lists.now)) }
{
    Ok(MessageLists {
        messages: lists.messages.to_vec(alloc)?,
        enums: lists.enums.to_vec(alloc)?,
        extensions: lists.extensions.to_vec(alloc)?,
        extending: both_places(alloc, lists.extending.as_slice(), places)?,
        fields: own_fields(alloc, message.fields.as_slice())?,
        by_name: fields_by_name(alloc, message.fields.as_slice())?,
        by_json_name: fields_by_json_name(alloc, message.fields.as_slice())?,
    })
}

/// The lists of each message type of the pool, where those that no added extension extends are shared.
fn lists_of_old_messages(
    alloc: Global,
    base: Base<'_>,
    further: &[Vec<usize>],
    tables: &Tables,
) -> Result<SharedList<MessageLists>, AllocError>
    ghost new: { FlatRows }
    requires further { AreFurther further.now (rows_below base) new }
    requires tables { rows_of tables.now ≡ grown_rows (rows_below base) new (tables_below base) }
    ensures { IfOk result
        (λ l. map message_lists_row l
        ≡ grown_lists_from (rows_below base.entry) new 0 (tables_below base.entry).messages
        (catalog_below base.entry).messages) }
{
    let pool = base.pool();
    let mut lists = pool.catalog().messages.clone()?;
    for (place, places) in further.iter().enumerate() {
        if !places.is_empty() {
            let message = &tables.messages[place];
            let former = pool.message_lists(place);
            lists.set(
                place,
                with_further(alloc, former, places.as_slice(), message)?,
            )?;
        }
    }
    Ok(lists)
}

/// The lists of each message type of the pool and of each added one, from the linked tables of both.
///
/// # Errors
///
/// `AllocError` if out of memory.
pub fn lists_of_messages(
    alloc: Global,
    base: Base<'_>,
    inner: &InnerPlaces,
    further: &[Vec<usize>],
    tables: &Tables,
) -> Result<SharedList<MessageLists>, AllocError>
    ghost new: { FlatRows }
    requires inner { AreInner inner.now (rows_below base) new }
    requires further { AreFurther further.now (rows_below base) new }
    requires tables { rows_of tables.now ≡ grown_rows (rows_below base) new (tables_below base) }
    ensures { IfOk result
        (λ l. map message_lists_row l
        ≡ grown_lists_from (rows_below base.entry) new 0 (tables_below base.entry).messages
        (catalog_below base.entry).messages
        ++ each_from (added_lists (rows_below base.entry) new) (length (rows_below base.entry).messages)
        (added_messages (rows_below base.entry) new)) }
{
    let mut lists = lists_of_old_messages(alloc, base, further, tables)?;
    for place in base.message_count()..tables.messages.len() {
        lists.push(added_lists(alloc, base, inner, place, &tables.messages[place])?)?;
    }
    Ok(lists)
}

// ENUMS

fn value_names<'f>(
    alloc: Global,
    values: &'f [Definition<'f, EnumValueDescriptorProto>],
) -> Result<Vec<&'f str>, AllocError>
    ensures { IfOk result (λ v. text_list v.items ≡ value_names (map definition_row values.now)) }
{
    let mut names = Vec::with_capacity(alloc, values.len())?;
    for value in values {
        names.push(text_or_empty(&value.proto.name))?;
    }
    Ok(names)
}

fn value_numbers(
    alloc: Global,
    values: &[Definition<EnumValueDescriptorProto>],
) -> Result<Vec<i32>, AllocError>
    ensures { IfOk result (λ v. v.items ≡ map value_number (map definition_row values.now)) }
{
    let mut numbers = Vec::with_capacity(alloc, values.len())?;
    for value in values {
        let number = value.proto.number.unwrap_or(0);
        numbers.push(number)?;
    }
    Ok(numbers)
}

fn enum_lists(alloc: Global, declared: &FlatEnum) -> Result<EnumLists, AllocError>
    ensures { IfOk result (λ l. enum_lists_row l ≡ enum_lists (flat_views.enum_row declared.now)) }
{
    let names = value_names(alloc, declared.values.as_slice())?;
    let numbers = value_numbers(alloc, declared.values.as_slice())?;
    Ok(EnumLists {
        by_name: ordered_texts(alloc, names.as_slice())?,
        by_number: ordered_numbers(alloc, numbers.as_slice())?,
    })
}

/// The lists of each enum of the pool, which are shared, and of each added one.
///
/// # Errors
///
/// `AllocError` if out of memory.
pub fn lists_of_enums(
    alloc: Global,
    base: Base<'_>,
    enums: &[FlatEnum],
) -> Result<SharedList<EnumLists>, AllocError>
    ensures { IfOk result
        (λ l. map enum_lists_row l
        ≡ (catalog_below base.entry).enums ++ map enum_lists (map flat_views.enum_row enums.now)) }
{
    let mut lists = base.pool().catalog().enums.clone()?;
    for declared in enums {
        lists.push(enum_lists(alloc, declared)?)?;
    }
    Ok(lists)
}
