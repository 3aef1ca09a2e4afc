//! Which kinds of two tables are alike, by themselves.

ghost use Rattle.std.specs.Prelude.{◌≡◌, ◌&&◌, List, Bool, Some, IfOk, OnOk, option_map, slice_get};
ghost use Rattle.std.specs.List.{list_all};
ghost use Rattle.std.specs.BTreeSet.{contains};
ghost use Rattle.std.specs.Ordering.{int_cmp};
ghost use Rattle.prost_reflect_wire.specs.Reduction.{all_among, same_scalar_kind};
ghost use Rattle.prost_reflect_tables.specs.Rows.{EnumRow, enum_row};
ghost use Rattle.prost_reflect_tables.specs.Schema.{rows_of};
ghost use Rattle.prost_reflect_tables.specs.Shown.{schema_kind, enum_kind};
ghost use Rattle.prost_reflect_reduction.specs.Kinds.{kind_code, table_numbers, HasNumbers, AreSameEnums};
ghost use Rattle.prost_reflect_reduction.specs.Explaining.{kinds_fault};
ghost use Rattle.prost_reflect_reduction.specs.Reaching.{kinds_alike};

use crate::fault::ReductionFaultKind;
use prost_reflect_tables::{EnumTable, EnumValueTable, FieldTable, TableKind, Tables};
use std::alloc::{AllocError, Global};
use std::collections::BTreeSet;

/// The numbers of values.
fn table_numbers(alloc: Global, values: &[EnumValueTable]) -> Result<BTreeSet<i32>, AllocError>
    ensures { IfOk result (λ set. HasNumbers set (table_numbers values.now)) }
{
    let mut set = BTreeSet::new(alloc);
    for value in values {
        set.insert(value.number)?;
    }
    Ok(set)
}

/// Whether the number of each value is in the set.
fn are_among(values: &[EnumValueTable], set: &BTreeSet<i32>) -> bool
    ensures { result ≡ list_all (contains int_cmp set.now) (table_numbers values.now) }
{
    for value in values {
        if !set.contains(&value.number) {
            return false;
        }
    }
    true
}

/// Whether values have the same numbers.
fn same_numbers(
    alloc: Global,
    values: &[EnumValueTable],
    others: &[EnumValueTable],
) -> Result<bool, AllocError>
    ensures { IfOk result
        (λ same. same
        ≡ (all_among (table_numbers values.now) (table_numbers others.now)
        && all_among (table_numbers others.now) (table_numbers values.now))) }
{
    let numbers = table_numbers(alloc, values)?;
    let other_numbers = table_numbers(alloc, others)?;
    Ok(are_among(values, &other_numbers) && are_among(others, &numbers))
}

/// Whether two enums have the same first number, and are both open, or both closed with the same numbers.
fn same_enum(alloc: Global, older: &EnumTable, newer: &EnumTable) -> Result<bool, AllocError>
    ensures { IfOk result
        (λ same. same
        ≡ same_scalar_kind (enum_kind (Some (enum_row older.now))) (enum_kind (Some (enum_row newer.now)))) }
{
    if older.first_number() != newer.first_number() || older.is_closed != newer.is_closed {
        return Ok(false);
    }
    if !older.is_closed {
        return Ok(true);
    }
    same_numbers(alloc, &older.values, &newer.values)
}

/// Whether two enums that may not be there are the same, as `same_enum` tells: one that is not there is open, and has the
/// number 0 first.
fn same_enum_or_none(
    alloc: Global,
    older: Option<&EnumTable>,
    newer: Option<&EnumTable>,
) -> Result<bool, AllocError>
    ensures { IfOk result
        (λ same. same
        ≡ same_scalar_kind (enum_kind (option_map (λ e. enum_row e.now) older.entry))
        (enum_kind (option_map (λ e. enum_row e.now) newer.entry))) }
{
    match older {
        Some(older) => match newer {
            Some(newer) => same_enum(alloc, older, newer),
            None => Ok(older.first_number() == 0 && !older.is_closed),
        },
        None => match newer {
            Some(newer) => Ok(newer.first_number() == 0 && !newer.is_closed),
            None => Ok(true),
        },
    }
}

/// Whether the enums at two places are the same, as `same_enum` tells. Pairs of which it holds are noted, so that each is
/// compared once.
fn enums_same(
    alloc: Global,
    same_enums: &mut BTreeSet<(usize, usize)>,
    older: &Tables,
    older_place: usize,
    newer: &Tables,
    newer_place: usize,
) -> Result<bool, AllocError>
    requires enums { AreSameEnums same_enums.old (rows_of older.now).enums (rows_of newer.now).enums }
    ensures enums { OnOk result (AreSameEnums same_enums.new (rows_of older.now).enums (rows_of newer.now).enums) }
    ensures same { IfOk result
        (λ same. same
        ≡ same_scalar_kind (enum_kind (slice_get (rows_of older.now).enums older_place))
        (enum_kind (slice_get (rows_of newer.now).enums newer_place))) }
{
    if same_enums.contains(&(older_place, newer_place)) {
        return Ok(true);
    }
    if !same_enum_or_none(
        alloc,
        older.enum_at(older_place),
        newer.enum_at(newer_place),
    )? {
        return Ok(false);
    }
    same_enums.insert((older_place, newer_place))?;
    Ok(true)
}

/// The code of a kind in descriptors; a group's is here that of a message.
fn code(kind: TableKind) -> u8
    ensures { (enums : List EnumRow) (g : Bool) → result ≡ kind_code (schema_kind enums kind g) }
{
    match kind {
        TableKind::Double => 1,
        TableKind::Float => 2,
        TableKind::Int64 => 3,
        TableKind::Uint64 => 4,
        TableKind::Int32 => 5,
        TableKind::Fixed64 => 6,
        TableKind::Fixed32 => 7,
        TableKind::Bool => 8,
        TableKind::String => 9,
        TableKind::Message(_) => 11,
        TableKind::Bytes => 12,
        TableKind::Uint32 => 13,
        TableKind::Enum(_) => 14,
        TableKind::Sfixed32 => 15,
        TableKind::Sfixed64 => 16,
        TableKind::Sint32 => 17,
        TableKind::Sint64 => 18,
    }
}

/// Whether the kinds of two fields' own values are alike, where any two message types are.
pub(crate) fn kinds_alike(
    alloc: Global,
    same_enums: &mut BTreeSet<(usize, usize)>,
    older: &Tables,
    field: &FieldTable,
    newer: &Tables,
    like: &FieldTable,
) -> Result<bool, AllocError>
    requires enums { AreSameEnums same_enums.old (rows_of older.now).enums (rows_of newer.now).enums }
    ensures enums { OnOk result (AreSameEnums same_enums.new (rows_of older.now).enums (rows_of newer.now).enums) }
    ensures alike { IfOk result
        (λ alike. alike
        ≡ kinds_alike (schema_kind (rows_of older.now).enums field.now.kind field.now.is_group)
        (schema_kind (rows_of newer.now).enums like.now.kind like.now.is_group)) }
{
    match field.kind {
        TableKind::Message(_) => match like.kind {
            TableKind::Message(_) => Ok(field.is_group == like.is_group),
            _ => Ok(false),
        },
        TableKind::Enum(place) => match like.kind {
            TableKind::Enum(other) => enums_same(alloc, same_enums, older, place, newer, other),
            _ => Ok(false),
        },
        _ => Ok(code(field.kind) == code(like.kind)),
    }
}

/// What differs between the kinds of two fields' own values that are not alike.
pub(crate) fn kind_fault(
    older: &Tables,
    field: &FieldTable,
    newer: &Tables,
    like: &FieldTable,
) -> ReductionFaultKind
    ensures { result
        ≡ kinds_fault (schema_kind (rows_of older.now).enums field.now.kind field.now.is_group)
        (schema_kind (rows_of newer.now).enums like.now.kind like.now.is_group) }
{
    match (field.kind, like.kind) {
        (TableKind::Enum(_), TableKind::Enum(_)) => ReductionFaultKind::Enum,
        _ => ReductionFaultKind::Kind,
    }
}
