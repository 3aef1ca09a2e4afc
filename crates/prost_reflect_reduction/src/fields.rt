//! Which fields of two tables are alike, by themselves.

ghost use Rattle.std.specs.Prelude.{◌≡◌, IfOk, OnOk};
ghost use Rattle.prost_reflect_tables.specs.Rows.{field_row};
ghost use Rattle.prost_reflect_tables.specs.Schema.{rows_of};
ghost use Rattle.prost_reflect_tables.specs.Shown.{schema_field, own_type, map_entry, form_of};
ghost use Rattle.prost_reflect_tables.specs.declared.tables.Cardinality.TheVariants.{Repeated as RepeatedLabel};
ghost use Rattle.prost_reflect_reduction.specs.Explaining.{fields_fault, forms_fault};
ghost use Rattle.prost_reflect_reduction.specs.Kinds.{AreSameEnums};
ghost use Rattle.prost_reflect_reduction.specs.Reaching.{forms_alike};

use crate::fault::ReductionFaultKind;
use crate::values::{keys_match, value_fault};
use prost_reflect_tables::{Cardinality, FieldTable, Tables};
use std::alloc::{AllocError, Global};
use std::collections::BTreeSet;

/// The field whose values are those of a field; of a map, that of the values in it.
pub(crate) fn value_field<'a>(tables: &'a Tables, field: &'a FieldTable) -> &'a FieldTable
    ensures { own_type (rows_of tables.now).enums (field_row result.now)
        ≡ (schema_field (rows_of tables.now) (field_row field.now)).value_type }
{
    match field.cardinality {
        Cardinality::Repeated => match tables.entry_of(field) {
            Some(entry) => entry.part_or(1, field),
            None => field,
        },
        Cardinality::Optional | Cardinality::Required => field,
    }
}

/// Whether two repeated fields are both lists, or both maps whose keys match.
fn lists_alike(
    alloc: Global,
    same_enums: &mut BTreeSet<(usize, usize)>,
    older: &Tables,
    field: &FieldTable,
    newer: &Tables,
    like: &FieldTable,
) -> Result<bool, AllocError>
    requires enums { AreSameEnums same_enums.old (rows_of older.now).enums (rows_of newer.now).enums }
    ensures enums { OnOk result (AreSameEnums same_enums.new (rows_of older.now).enums (rows_of newer.now).enums) }
    ensures alike { IfOk result
        (λ alike. alike
        ≡ forms_alike
        (form_of (rows_of older.now).enums (field_row field.now) RepeatedLabel
        (map_entry (rows_of older.now).messages (field_row field.now) RepeatedLabel))
        (form_of (rows_of newer.now).enums (field_row like.now) RepeatedLabel
        (map_entry (rows_of newer.now).messages (field_row like.now) RepeatedLabel))) }
{
    match older.entry_of(field) {
        Some(entry) => match newer.entry_of(like) {
            Some(other) => keys_match(
                alloc,
                same_enums,
                older,
                entry.part_or(0, field),
                newer,
                other.part_or(0, like),
            ),
            None => Ok(false),
        },
        None => match newer.entry_of(like) {
            Some(_) => Ok(false),
            None => Ok(true),
        },
    }
}

/// Whether two fields have one value each, or are both lists, or both maps whose keys match.
fn forms_alike(
    alloc: Global,
    same_enums: &mut BTreeSet<(usize, usize)>,
    older: &Tables,
    field: &FieldTable,
    newer: &Tables,
    like: &FieldTable,
) -> Result<bool, AllocError>
    requires enums { AreSameEnums same_enums.old (rows_of older.now).enums (rows_of newer.now).enums }
    ensures enums { OnOk result (AreSameEnums same_enums.new (rows_of older.now).enums (rows_of newer.now).enums) }
    ensures alike { IfOk result
        (λ alike. alike
        ≡ forms_alike (schema_field (rows_of older.now) (field_row field.now)).form
        (schema_field (rows_of newer.now) (field_row like.now)).form) }
{
    match field.cardinality {
        Cardinality::Repeated => match like.cardinality {
            Cardinality::Repeated => lists_alike(alloc, same_enums, older, field, newer, like),
            Cardinality::Optional => Ok(false),
            Cardinality::Required => Ok(false),
        },
        Cardinality::Optional => match like.cardinality {
            Cardinality::Repeated => Ok(false),
            Cardinality::Optional => Ok(true),
            Cardinality::Required => Ok(true),
        },
        Cardinality::Required => match like.cardinality {
            Cardinality::Repeated => Ok(false),
            Cardinality::Optional => Ok(true),
            Cardinality::Required => Ok(true),
        },
    }
}

/// What differs between the forms of two fields that are not alike in form.
fn form_fault(
    older: &Tables,
    field: &FieldTable,
    newer: &Tables,
    like: &FieldTable,
) -> ReductionFaultKind
    ensures { result
        ≡ forms_fault (schema_field (rows_of older.now) (field_row field.now)).form
        (schema_field (rows_of newer.now) (field_row like.now)).form }
{
    if field.cardinality.is_repeated() == like.cardinality.is_repeated() {
        ReductionFaultKind::Map
    } else {
        ReductionFaultKind::Cardinality
    }
}

/// What differs first between two fields, where any two message types are alike.
pub(crate) fn field_fault(
    alloc: Global,
    same_enums: &mut BTreeSet<(usize, usize)>,
    older: &Tables,
    field: &FieldTable,
    newer: &Tables,
    like: &FieldTable,
) -> Result<Option<ReductionFaultKind>, AllocError>
    requires enums { AreSameEnums same_enums.old (rows_of older.now).enums (rows_of newer.now).enums }
    ensures enums { OnOk result (AreSameEnums same_enums.new (rows_of older.now).enums (rows_of newer.now).enums) }
    ensures fault { IfOk result
        (λ fault. fault
        ≡ fields_fault (schema_field (rows_of older.now) (field_row field.now))
        (schema_field (rows_of newer.now) (field_row like.now))) }
{
    if field.is_extension != like.is_extension {
        return Ok(Some(ReductionFaultKind::Extension));
    }
    if !forms_alike(alloc, same_enums, older, field, newer, like)? {
        return Ok(Some(form_fault(older, field, newer, like)));
    }
    value_fault(
        alloc,
        same_enums,
        older,
        value_field(older, field),
        newer,
        value_field(newer, like),
    )
}
