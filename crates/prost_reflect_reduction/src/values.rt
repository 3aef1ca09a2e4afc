//! Which defaults and types of values of two tables are alike, by themselves.

ghost use Rattle.std.specs.Prelude.{◌≡◌, [], IfOk, OnOk};
ghost use Rattle.prost_reflect_wire.specs.Reduction.{same_default, value_types_match};
ghost use Rattle.prost_reflect_tables.specs.Rows.{field_row};
ghost use Rattle.prost_reflect_tables.specs.Schema.{rows_of};
ghost use Rattle.prost_reflect_tables.specs.Shown.{own_type};
ghost use Rattle.prost_reflect_reduction.specs.Explaining.{values_fault};
ghost use Rattle.prost_reflect_reduction.specs.Kinds.{AreSameEnums};

use crate::fault::ReductionFaultKind;
use crate::kinds::{kind_fault, kinds_alike};
use prost_reflect_tables::{FieldTable, TableKind, Tables};
use std::alloc::{AllocError, Global};
use std::collections::BTreeSet;

/// Whether two fields' defaults are the same. Those of messages are.
fn same_default(older: &Tables, field: &FieldTable, newer: &Tables, like: &FieldTable) -> bool
    ensures { result
        ≡ same_default (own_type (rows_of older.now).enums (field_row field.now)).kind
        (own_type (rows_of older.now).enums (field_row field.now)).default
        (own_type (rows_of newer.now).enums (field_row like.now)).default }
{
    match field.kind {
        TableKind::Message(_) => true,
        _ => {
            let default = older.scalar_default(field);
            default.equals(newer.scalar_default(like))
        }
    }
}

/// What differs first between the types of two fields' own values, where any two message types are alike.
pub(crate) fn value_fault(
    alloc: Global,
    same_enums: &mut BTreeSet<(usize, usize)>,
    older: &Tables,
    field: &FieldTable,
    newer: &Tables,
    like: &FieldTable,
) -> Result<Option<ReductionFaultKind>, AllocError>
    requires enums { AreSameEnums same_enums.old (rows_of older.now).enums (rows_of newer.now).enums }
    ensures enums { OnOk result (AreSameEnums same_enums.new (rows_of older.now).enums (rows_of newer.now).enums) }
    ensures fault { IfOk result
        (λ fault. fault
        ≡ values_fault (own_type (rows_of older.now).enums (field_row field.now))
        (own_type (rows_of newer.now).enums (field_row like.now))) }
{
    if !kinds_alike(alloc, same_enums, older, field, newer, like)? {
        return Ok(Some(kind_fault(older, field, newer, like)));
    }
    if field.cardinality.is_required() != like.cardinality.is_required() {
        return Ok(Some(ReductionFaultKind::Cardinality));
    }
    if field.supports_presence != like.supports_presence {
        return Ok(Some(ReductionFaultKind::Presence));
    }
    if !same_default(older, field, newer, like) {
        return Ok(Some(ReductionFaultKind::Default));
    }
    Ok(None)
}

/// Whether the types of two fields' own values match, and neither has messages.
pub(crate) fn keys_match(
    alloc: Global,
    same_enums: &mut BTreeSet<(usize, usize)>,
    older: &Tables,
    field: &FieldTable,
    newer: &Tables,
    like: &FieldTable,
) -> Result<bool, AllocError>
    requires enums { AreSameEnums same_enums.old (rows_of older.now).enums (rows_of newer.now).enums }
    ensures enums { OnOk result (AreSameEnums same_enums.new (rows_of older.now).enums (rows_of newer.now).enums) }
    ensures same { IfOk result
        (λ same. same
        ≡ value_types_match [] (own_type (rows_of older.now).enums (field_row field.now))
        (own_type (rows_of newer.now).enums (field_row like.now))) }
{
    match field.kind {
        TableKind::Message(_) => Ok(false),
        _ => Ok(value_fault(alloc, same_enums, older, field, newer, like)?.is_none()),
    }
}
