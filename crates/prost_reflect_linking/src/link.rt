//! Linking: the tables that files in flat lists give.

ghost use Rattle.std.specs.Prelude.{◌≡◌, ◌<◌, ◌≤◌, ◌+◌, ◌⊎◌, ℕ, None, Some, IfSome, length, IfOk, OnOk, map, option_map, true, false};
ghost use Rattle.std.specs.List.{list_all};
ghost use Rattle.std.specs.List.Sorted.{IsNonDecreasingBy};
ghost use Rattle.prost_reflect_wire.specs.Scalar.{in_i32};
ghost use Rattle.prost_reflect_tables.specs.Rows.{boxed_scalar, written_scalar, identity_row, field_row, oneof_row, message_row, enum_value_row, enum_row, rows_from};
ghost use Rattle.prost_reflect_tables.specs.declared.tables.FieldTable.{FieldTable};
ghost use Rattle.prost_reflect_flat.specs.FlatViews.{definition_row, flat_rows};
ghost use Rattle.prost_reflect_flat.specs.FlatViews as flat_views;
ghost use Rattle.prost_reflect_tables.specs.Linking.{natural_or_zero, place_in, is_message, is_packable, cardinality_of_label, linked_packed, linked_presence, linked_identity, linked_field, in_order, declared_fields, oneof_place, member_place, oneofs_from, linked_message, linked_value, linked_enum, links_of};
ghost use Rattle.prost_reflect_tables.specs.EntryFaults.{is_entry};
ghost use Rattle.prost_reflect_tables.specs.InRange.{enum_in_range, in_range};
ghost use Rattle.prost_reflect_linking.specs.Meanings.{AreMeaningsOf, all_meant, field_meant, meaning_lists, meaning_row, meant, messages_meant};
ghost use Rattle.prost_reflect_tables.specs.Resolved.{resolve};
ghost use Rattle.std.specs.List.{zip};
ghost use Rattle.prost_reflect_base.specs.Below.{rows_below, tables_below};
ghost use Rattle.prost_reflect_growth.specs.RowsGrow.{grown_rows};
ghost use Rattle.prost_reflect_resolving.specs.Indexed.{all_rows};
ghost use Rattle.prost_reflect_shared.specs.Items.{items_of};
ghost use Rattle.prost_reflect_tables.specs.Indexing.{empty_lists, grouped, list_rows};

use crate::grown::{grown_messages, listed_count};
use crate::meaning::Meaning;
use prost_reflect_base::Base;
use prost_reflect_flat::{Definition, Flat, FlatEnum, FlatMessage, bool_option};
use prost_reflect_growth::{
    add_item, empty_lists, json_name, lent_identity, linked_identity, sort_by_number,
};
use prost_reflect_shared::shared_list::SharedList;
use prost_reflect_tables::{
    Cardinality, EnumTable, EnumValueTable, FieldTable, MessageTable, OneofTable, TableKind,
    WrittenDefault, is_packable, natural_or_zero, place_in,
};
use prost_reflect_types::{EnumValueDescriptorProto, FieldDescriptorProto, OneofDescriptorProto};
use std::alloc::{AllocError, Global};

fn is_message(kind: TableKind) -> bool
    ensures { result ≡ is_message kind }
{
    matches!(kind, TableKind::Message(_))
}

fn cardinality_of_label(label: u32) -> Cardinality
    ensures { result ≡ cardinality_of_label label }
{
    match label {
        2 => Cardinality::Required,
        3 => Cardinality::Repeated,
        _ => Cardinality::Optional,
    }
}

/// Whether the values of a field are written as one record.
fn linked_packed(
    is_proto3: bool,
    field: &FieldDescriptorProto,
    cardinality: Cardinality,
    kind: TableKind,
) -> bool
    ensures { result ≡ linked_packed is_proto3 field.now cardinality kind }
{
    cardinality.is_repeated()
        && is_packable(kind)
        && bool_option(2, &field.options).unwrap_or(is_proto3)
}

/// Whether a field that was never set is told apart from one that is set to its default (the guide on field presence).
fn linked_presence(
    is_proto3: bool,
    is_extension: bool,
    field: &FieldDescriptorProto,
    cardinality: Cardinality,
    kind: TableKind,
) -> bool
    ensures { result ≡ linked_presence is_proto3 is_extension field.now cardinality kind }
{
    !cardinality.is_repeated()
        && (!is_proto3
            || is_extension
            || is_message(kind)
            || field.oneof_index.is_some()
            || field.proto3_optional.unwrap_or(false))
}

/// A copy of a default that stands apart from its row.
fn boxed_default(
    alloc: Global,
    default: &Option<WrittenDefault>,
) -> Result<Option<Box<WrittenDefault>>, AllocError>
    ensures { IfOk result (λ b. option_map boxed_scalar b ≡ option_map written_scalar default.now) }
{
    match default {
        Some(default) => Ok(Some(Box::new(alloc, default.clone()?)?)),
        None => Ok(None),
    }
}

/// A field or an extension.
#[tactic(auto, unfolding(crate::specs::Meanings::field_meant))]
fn linked_field(
    alloc: Global,
    is_extension: bool,
    definition: &Definition<FieldDescriptorProto>,
    meaning: &Meaning,
) -> Result<FieldTable, AllocError>
    ensures { IfOk result (λ f. field_row f ≡ field_meant is_extension (definition_row definition.now, meaning_row meaning.now)) }
{
    let definition = &definition.lend();
    let field = definition.proto;
    let is_proto3 = definition.is_proto3;
    let kind = meaning.kind;
    let cardinality = cardinality_of_label(natural_or_zero(field.label));
    Ok(FieldTable {
        id: lent_identity(alloc, definition, &field.name)?,
        json_name: json_name(alloc, is_extension, definition)?,
        number: natural_or_zero(field.number),
        is_extension,
        kind,
        is_group: natural_or_zero(field.type_) == 10,
        cardinality,
        is_packed: linked_packed(is_proto3, field, cardinality, kind),
        supports_presence: linked_presence(is_proto3, is_extension, field, cardinality, kind),
        default: boxed_default(alloc, &meaning.default)?,
        oneof: place_in(field.oneof_index),
    })
}

/// The fields that a message declares, in the order of their declaration.
fn declared_fields(
    alloc: Global,
    definitions: &[Definition<FieldDescriptorProto>],
    meanings: &[Meaning],
) -> Result<Vec<FieldTable>, AllocError>
    ensures { IfOk result
        (λ v. map field_row v.items
        ≡ map (field_meant false) (zip (map definition_row definitions.now) (map meaning_row meanings.now))) }
{
    let mut fields = Vec::with_capacity(alloc, definitions.len())?;
    for (definition, meaning) in definitions.iter().zip(meanings) {
        fields.push(linked_field(alloc, false, definition, meaning)?)?;
    }
    Ok(fields)
}

/// The fields that a message declares, and its extensions behind them.
fn all_fields(
    alloc: Global,
    definitions: &[Definition<FieldDescriptorProto>],
    meanings: &[Meaning],
    extensions: Vec<FieldTable>,
) -> Result<Vec<FieldTable>, AllocError>
    ensures { IfOk result
        (λ v. map field_row v.items
        ≡ all_meant (map definition_row definitions.now) (map meaning_row meanings.now)
        (map field_row extensions.items)) }
{
    let mut fields = declared_fields(alloc, definitions, meanings)?;
    let mut extensions = extensions;
    fields.append(&mut extensions)?;
    Ok(fields)
}

/// Where the list of a place stands among so many lists, the first of which is that of the place `first`, or none where it has no
/// list.
fn offset_of(place: Option<usize>, first: usize, count: usize) -> Option<usize>
    ensures there { IfSome result (λ k. (k < count) × (place ≡ Some (first + k))) }
    ensures outside { result ≡ None → (p : ℕ) → place ≡ Some p → (p < first) ⊎ (first + count ≤ p) }
{
    let offset = place?.checked_sub(first)?;
    if offset < count { Some(offset) } else { None }
}

/// Adds each extension to the list of the message that it extends, if there is one. The first list is that of the message at the
/// place `first`.
fn add_extensions(
    alloc: Global,
    first: usize,
    lists: &mut Vec<Vec<FieldTable>>,
    definitions: &[Definition<FieldDescriptorProto>],
    meanings: &[Meaning],
) -> Result<(), AllocError>
    ensures { OnOk result
        (list_rows lists.new.items
        ≡ grouped (λ p. p.1.extendee) (field_meant true)
        (zip (map definition_row definitions.now) (map meaning_row meanings.now)) first
        (list_rows lists.old.items)) }
{
    for (definition, meaning) in definitions.iter().zip(meanings) {
        if let Some(offset) = offset_of(meaning.extendee, first, lists.len()) {
            lists[offset].push(linked_field(alloc, true, definition, meaning)?)?;
        }
    }
    Ok(())
}

/// The extensions of each of so many messages, the first of which is at the place `first`.
fn extended(
    alloc: Global,
    first: usize,
    count: usize,
    definitions: &[Definition<FieldDescriptorProto>],
    meanings: &[Meaning],
) -> Result<Vec<Vec<FieldTable>>, AllocError>
    ensures { IfOk result
        (λ v. list_rows v.items
        ≡ grouped (λ p. p.1.extendee) (field_meant true)
        (zip (map definition_row definitions.now) (map meaning_row meanings.now)) first (empty_lists count)) }
{
    let mut lists = empty_lists(alloc, count)?;
    add_extensions(alloc, first, &mut lists, definitions, meanings)?;
    Ok(lists)
}

/// The place of a field among fields in ascending order of their numbers: how many have a smaller number.
fn member_place(fields: &[FieldTable], definition: &Definition<FieldDescriptorProto>) -> usize
    requires { IsNonDecreasingBy (λ (f : FieldTable). f.number) fields.now }
    ensures { result ≡ member_place (map field_row fields.now) (definition_row definition.now) }
{
    let number = natural_or_zero(definition.proto.number);
    fields.partition_point(|field| field.number < number)
}

/// The members of each oneof in the order of their declaration, as places in the fields.
fn members_by_oneof(
    alloc: Global,
    oneofs: usize,
    fields: &[FieldTable],
    declared: &[Definition<FieldDescriptorProto>],
) -> Result<Vec<Vec<usize>>, AllocError>
    requires { IsNonDecreasingBy (λ (f : FieldTable). f.number) fields.now }
    ensures { IfOk result
        (λ v. map (λ xs. xs.items) v.items
        ≡ grouped oneof_place (member_place (map field_row fields.now)) (map definition_row declared.now) 0
        (empty_lists oneofs)) }
{
    let mut lists = empty_lists(alloc, oneofs)?;
    for definition in declared {
        let place = place_in(definition.proto.oneof_index);
        add_item(&mut lists, place, member_place(fields, definition))?;
    }
    Ok(lists)
}

fn linked_oneof(
    alloc: Global,
    definition: &Definition<OneofDescriptorProto>,
    members: &[usize],
) -> Result<OneofTable, AllocError>
    ensures id { IfOk result (λ o. identity_row o.id ≡ linked_identity definition.now.proto.now.name (definition_row definition.now)) }
    ensures members { IfOk result (λ o. o.fields.items ≡ members.now) }
{
    Ok(OneofTable {
        id: linked_identity(alloc, definition, &definition.proto.name)?,
        fields: members.to_vec(alloc)?,
    })
}

/// The oneofs of a message with their members.
fn linked_oneofs(
    alloc: Global,
    fields: &[FieldTable],
    declared: &[Definition<FieldDescriptorProto>],
    oneofs: &[Definition<OneofDescriptorProto>],
) -> Result<Vec<OneofTable>, AllocError>
    requires { IsNonDecreasingBy (λ (f : FieldTable). f.number) fields.now }
    ensures { IfOk result
        (λ v. map oneof_row v.items
        ≡ oneofs_from (map field_row fields.now) (map definition_row declared.now) 0
        (map definition_row oneofs.now)) }
{
    let count = oneofs.len();
    let members = members_by_oneof(alloc, count, fields, declared)?;
    let mut tables = Vec::with_capacity(alloc, count)?;
    for (place, definition) in oneofs.iter().enumerate() {
        let places = members[place].as_slice();
        tables.push(linked_oneof(alloc, definition, places)?)?;
    }
    Ok(tables)
}

/// A message with its fields and extensions.
#[tactic(auto, unfolding(prost_reflect_tables::specs::Linking::linked_message))]
fn linked_message(
    alloc: Global,
    message: &FlatMessage,
    is_map_entry: bool,
    fields: Vec<FieldTable>,
) -> Result<MessageTable, AllocError>
    requires { is_map_entry ≡ is_entry (flat_views.message_row message.now) }
    ensures { IfOk result (λ m. message_row m ≡ linked_message (map field_row fields.items) (flat_views.message_row message.now)) }
{
    let mut fields = fields;
    fields.shrink_to_fit();
    sort_by_number(&mut fields)?;
    let oneofs = linked_oneofs(
        alloc,
        fields.as_slice(),
        message.fields.as_slice(),
        message.oneofs.as_slice(),
    )?;
    let definition = &message.definition;
    Ok(MessageTable {
        id: linked_identity(alloc, definition, &definition.proto.name)?,
        is_map_entry,
        fields,
        oneofs,
    })
}

/// Each message with its fields and extensions; the flags say which are entries of maps. What flat lists have of a message is let
/// go as soon as its rows are made.
fn linked_messages(
    alloc: Global,
    messages: Vec<FlatMessage>,
    extensions: Vec<Vec<FieldTable>>,
    meanings: Vec<Vec<Meaning>>,
    entries: &[bool],
) -> Result<Vec<MessageTable>, AllocError>
    requires extensions { length extensions.items ≡ length messages.items }
    requires meanings { length meanings.items ≡ length messages.items }
    requires entries { entries.now ≡ map is_entry (map flat_views.message_row messages.items) }
    ensures { IfOk result
        (λ v. map message_row v.items
        ≡ messages_meant (list_rows extensions.items) (meaning_lists meanings.items)
        (map flat_views.message_row messages.entry.items)) }
{
    let mut tables = Vec::with_capacity(alloc, messages.len())?;
    let items = messages.into_iter().zip(extensions).zip(meanings);
    for (place, ((message, extensions), own)) in items.enumerate() {
        let fields = all_fields(alloc, message.fields.as_slice(), own.as_slice(), extensions)?;
        tables.push(linked_message(alloc, &message, entries[place], fields)?)?;
    }
    Ok(tables)
}

/// A value of an enum.
fn linked_value(
    alloc: Global,
    definition: &Definition<EnumValueDescriptorProto>,
) -> Result<EnumValueTable, AllocError>
    ensures row { IfOk result (λ v. enum_value_row v ≡ linked_value (definition_row definition.now)) }
    ensures range { IfOk result (λ v. in_i32 v.number ≡ true) }
{
    Ok(EnumValueTable {
        id: linked_identity(alloc, definition, &definition.proto.name)?,
        number: definition.proto.number.unwrap_or(0),
    })
}

/// The values of an enum, in the order of their declaration.
fn linked_values(
    alloc: Global,
    values: &[Definition<EnumValueDescriptorProto>],
) -> Result<Vec<EnumValueTable>, AllocError>
    ensures rows { IfOk result (λ v. map enum_value_row v.items ≡ map linked_value (map definition_row values.now)) }
    ensures range { IfOk result (λ v. list_all in_i32 (map (λ w. w.number) (map enum_value_row v.items)) ≡ true) }
{
    let mut tables = Vec::with_capacity(alloc, values.len())?;
    for value in values {
        tables.push(linked_value(alloc, value)?)?;
    }
    Ok(tables)
}

/// The enums.
fn linked_enums(alloc: Global, enums: &[FlatEnum]) -> Result<Vec<EnumTable>, AllocError>
    ensures rows { IfOk result (λ v. map enum_row v.items ≡ map linked_enum (map flat_views.enum_row enums.now)) }
    ensures range { IfOk result (λ v. list_all enum_in_range (map enum_row v.items) ≡ true) }
{
    let mut tables = Vec::with_capacity(alloc, enums.len())?;
    for item in enums {
        tables.push(EnumTable {
            id: linked_identity(alloc, &item.definition, &item.definition.proto.name)?,
            values: linked_values(alloc, item.values.as_slice())?,
            is_closed: !item.definition.is_proto3,
        })?;
    }
    Ok(tables)
}

/// The message types and enums of a pool and of added files in flat lists.
///
/// What the texts of the added fields mean was looked up before the checks, and `meanings` and `meanings_by_message` have it. What
/// the pool has stays shared, but for messages that added extensions extend: these get a row of their own. The flat lists and the
/// meanings are let go message by message, so that they do not stand beside all rows. The cost grows as n log n in the number of
/// added definitions; beside it stands a count for each 64 rows of the pool, and, where its messages are extended, one for each.
///
/// # Errors
///
/// `AllocError` if out of memory.
pub fn linked(
    alloc: Global,
    base: Base,
    flat: Flat,
    fields: Vec<Vec<Meaning>>,
    extensions: &[Meaning],
    entries: &[bool],
) -> Result<(SharedList<MessageTable>, SharedList<EnumTable>), AllocError>
    requires fields { AreMeaningsOf fields.items (links_of (all_rows base (flat_rows flat))) (flat_rows flat) }
    requires extensions { map meaning_row extensions.now
        ≡ map meant (map (resolve (links_of (all_rows base (flat_rows flat)))) (flat_rows flat).extensions) }
    requires entries { entries.now ≡ map is_entry (flat_rows flat).messages }
    ensures rows { IfOk result
        (λ x. rows_from (items_of x.0) (items_of x.1)
        ≡ grown_rows (rows_below base.entry) (flat_rows flat.entry) (tables_below base.entry)) }
    ensures range { IfOk result (λ x. in_range (rows_from (items_of x.0) (items_of x.1)) ≡ true) }
{
    let count = base.message_count();
    let listed = listed_count(count, extensions);
    let definitions = flat.extensions.as_slice();
    let front = extended(alloc, count - listed, listed, definitions, extensions)?;
    let added = extended(alloc, count, flat.messages.len(), definitions, extensions)?;
    let mut messages = grown_messages(alloc, base, front)?;
    messages.append(linked_messages(alloc, flat.messages, added, fields, entries)?)?;
    let mut enums = base.pool().tables().enums.clone()?;
    enums.append(linked_enums(alloc, flat.enums.as_slice())?)?;
    Ok((messages, enums))
}
