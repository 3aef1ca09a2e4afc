//! Which message types of two tables are alike, by themselves.

ghost use Rattle.std.specs.Prelude.{◌≡◌, ◌<◌, ◌+◌, [], IfOk, OnOk, drop, length, option_map};
ghost use Rattle.std.specs.List.{list_all};
ghost use Rattle.prost_reflect_wire.specs.Schema.{message_type};
ghost use Rattle.prost_reflect_wire.specs.Reduction.{entries_whole, is_known};
ghost use Rattle.prost_reflect_tables.specs.Rows.{field_row, message_row};
ghost use Rattle.prost_reflect_tables.specs.Schema.{rows_of, schema_of};
ghost use Rattle.prost_reflect_tables.specs.Shown.{schema_field, schema_message};
ghost use Rattle.prost_reflect_reduction.specs.Explaining.{pair_fault, fellow_fault, step_of, fault_behind, merge_fault, at_field, Explains};
ghost use Rattle.prost_reflect_reduction.specs.Kinds.{AreSameEnums};
ghost use Rattle.prost_reflect_reduction.specs.Merging.{next_members, shown_fields};
ghost use Rattle.prost_reflect_reduction.specs.Reaching.{types_alike};

use crate::fault::{ReductionFaultKind, TypeFault};
use crate::fields::field_fault;
use crate::oneofs::next_members;
use prost_reflect_tables::{FieldTable, MessageTable, Tables};
use std::alloc::{AllocError, Global};
use std::collections::BTreeSet;

/// The fields of a message type, with the number of the next member of each one's oneof, or 0.
#[derive(Clone, Copy)]
struct Chained<'a> {
    tables: &'a Tables,
    fields: &'a [FieldTable],
    next: &'a [u32],
}

/// What differs at a number.
#[derive(Clone, Copy)]
struct FieldFault {
    number: u32,
    kind: ReductionFaultKind,
}

/// Where a walk over the older fields stands behind a newer field, or the fault that it stops at.
#[derive(Clone, Copy)]
enum Step {
    Stands(usize),
    Stops(FieldFault),
}

/// The step to a place, where nothing differs at a number.
fn step_of(fault: Option<ReductionFaultKind>, number: u32, place: usize) -> Step
    ensures { result ≡ step_of fault number place }
{
    match fault {
        Some(kind) => Step::Stops(FieldFault { number, kind }),
        None => Step::Stands(place),
    }
}

/// What differs at a field that the older type lacks, behind which this member of its oneof follows.
fn fellow_fault(next: u32) -> Option<ReductionFaultKind>
    ensures { result ≡ fellow_fault next }
{
    if next == 0 {
        None
    } else {
        Some(ReductionFaultKind::Oneof)
    }
}

/// What differs first between two fields of one number, behind which these members of their oneofs follow.
fn pair_fault(
    alloc: Global,
    same_enums: &mut BTreeSet<(usize, usize)>,
    older: &Tables,
    field: &FieldTable,
    next: u32,
    newer: &Tables,
    like: &FieldTable,
    other: u32,
) -> Result<Option<ReductionFaultKind>, AllocError>
    requires enums { AreSameEnums same_enums.old (rows_of older.now).enums (rows_of newer.now).enums }
    ensures enums { OnOk result (AreSameEnums same_enums.new (rows_of older.now).enums (rows_of newer.now).enums) }
    ensures fault { IfOk result
        (λ fault. fault
        ≡ pair_fault next other (schema_field (rows_of older.now) (field_row field.now))
        (schema_field (rows_of newer.now) (field_row like.now))) }
{
    if next != other {
        return Ok(Some(ReductionFaultKind::Oneof));
    }
    field_fault(alloc, same_enums, older, field, newer, like)
}

/// The step of a walk over the older fields, which stands at a place, over one newer field.
fn step_over(
    alloc: Global,
    same_enums: &mut BTreeSet<(usize, usize)>,
    older: Chained<'_>,
    place: usize,
    newer: Chained<'_>,
    other: usize,
) -> Result<Step, AllocError>
    requires older { older.next.now ≡ next_members (shown_fields older.tables.now older.fields.now) }
    requires newer { newer.next.now ≡ next_members (shown_fields newer.tables.now newer.fields.now) }
    requires other { other < length newer.fields.now }
    requires enums { AreSameEnums same_enums.old (rows_of older.tables.now).enums (rows_of newer.tables.now).enums }
    ensures enums { OnOk result
        (AreSameEnums same_enums.new (rows_of older.entry.tables.now).enums (rows_of newer.entry.tables.now).enums) }
    ensures behind { IfOk result
        (λ step. merge_fault (shown_fields older.entry.tables.now (drop place older.entry.fields.now))
        (shown_fields newer.entry.tables.now (drop other newer.entry.fields.now))
        ≡ fault_behind older.entry.tables.now older.entry.fields.now newer.entry.tables.now
        (drop (other + 1) newer.entry.fields.now) step) }
{
    let like = &newer.fields[other];
    let next = newer.next[other];
    if place >= older.fields.len() {
        return Ok(step_of(fellow_fault(next), like.number, place));
    }
    let field = &older.fields[place];
    if field.number == like.number {
        let fault = pair_fault(
            alloc,
            same_enums,
            older.tables,
            field,
            older.next[place],
            newer.tables,
            like,
            next,
        )?;
        return Ok(step_of(fault, field.number, place + 1));
    }
    if field.number < like.number {
        return Ok(step_of(Some(ReductionFaultKind::Number), field.number, place));
    }
    Ok(step_of(fellow_fault(next), like.number, place))
}

/// The fault of a walk that is done but for the older fields from a place on, which the newer type lacks.
fn left_fault(tables: &Tables, fields: &[FieldTable], place: usize) -> Option<FieldFault>
    ensures { result ≡ merge_fault (shown_fields tables.now (drop place fields.now)) [] }
{
    match fields.get(place) {
        Some(field) => Some(FieldFault {
            number: field.number,
            kind: ReductionFaultKind::Number,
        }),
        None => None,
    }
}

/// The first fault of a walk over the fields of both types, in ascending order of their numbers.
fn merge_fault(
    alloc: Global,
    same_enums: &mut BTreeSet<(usize, usize)>,
    older: Chained<'_>,
    newer: Chained<'_>,
) -> Result<Option<FieldFault>, AllocError>
    requires older { older.next.now ≡ next_members (shown_fields older.tables.now older.fields.now) }
    requires newer { newer.next.now ≡ next_members (shown_fields newer.tables.now newer.fields.now) }
    requires enums { AreSameEnums same_enums.old (rows_of older.tables.now).enums (rows_of newer.tables.now).enums }
    ensures enums { OnOk result
        (AreSameEnums same_enums.new (rows_of older.entry.tables.now).enums (rows_of newer.entry.tables.now).enums) }
    ensures fault { IfOk result
        (λ fault. fault
        ≡ merge_fault (shown_fields older.entry.tables.now older.entry.fields.now)
        (shown_fields newer.entry.tables.now newer.entry.fields.now)) }
{
    let mut place = 0;
    for other in 0..newer.fields.len() {
        match step_over(alloc, same_enums, older, place, newer, other)? {
            Step::Stands(behind) => place = behind,
            Step::Stops(fault) => return Ok(Some(fault)),
        }
    }
    Ok(left_fault(older.tables, older.fields, place))
}

/// Whether one of the fields has the number.
fn is_known(tables: &Tables, fields: &[FieldTable], number: u32) -> bool
    ensures { result ≡ is_known (shown_fields tables.now fields.now) number }
{
    for field in fields {
        if field.number == number {
            return true;
        }
    }
    false
}

/// Whether each number of the newer fields is one of the older fields.
fn are_known(older: &Tables, fields: &[FieldTable], newer: &Tables, others: &[FieldTable]) -> bool
    ensures { result ≡ list_all (λ g. is_known (shown_fields older.now fields.now) g.number) (shown_fields newer.now others.now) }
{
    for other in others {
        if !is_known(older, fields, other.number) {
            return false;
        }
    }
    true
}

/// Whether both types are those of a map's entries, or neither; an entry keeps its fields.
fn entries_whole(
    older: &Tables,
    message: &MessageTable,
    newer: &Tables,
    other: &MessageTable,
) -> bool
    ensures { result
        ≡ entries_whole (schema_message (rows_of older.now) (message_row message.now))
        (schema_message (rows_of newer.now) (message_row other.now)) }
{
    message.is_map_entry == other.is_map_entry
        && (!message.is_map_entry || are_known(older, &message.fields, newer, &other.fields))
}

/// The fault of a type in which a field is at fault, if one is.
fn type_fault_of(fault: Option<FieldFault>) -> Option<TypeFault>
    ensures { result ≡ option_map at_field fault }
{
    match fault {
        Some(fault) => Some(TypeFault {
            number: Some(fault.number),
            kind: fault.kind,
        }),
        None => None,
    }
}

/// What differs first between the types at two places, where any two message types that their fields name are alike.
pub(crate) fn type_fault(
    alloc: Global,
    same_enums: &mut BTreeSet<(usize, usize)>,
    older: &Tables,
    older_place: usize,
    newer: &Tables,
    newer_place: usize,
) -> Result<Option<TypeFault>, AllocError>
    requires older { older_place < length (rows_of older.now).messages }
    requires newer { newer_place < length (rows_of newer.now).messages }
    requires enums { AreSameEnums same_enums.old (rows_of older.now).enums (rows_of newer.now).enums }
    ensures enums { OnOk result (AreSameEnums same_enums.new (rows_of older.now).enums (rows_of newer.now).enums) }
    ensures fault { IfOk result
        (λ fault. Explains fault (message_type (schema_of older.now) older_place)
        (message_type (schema_of newer.now) newer_place)) }
{
    let message = &older.messages[older_place];
    let other = &newer.messages[newer_place];
    if !entries_whole(older, message, newer, other) {
        return Ok(Some(TypeFault {
            number: None,
            kind: ReductionFaultKind::MapEntry,
        }));
    }
    let next = next_members(alloc, older, &message.fields, message.oneofs.len())?;
    let next_of_other = next_members(alloc, newer, &other.fields, other.oneofs.len())?;
    let older_fields = Chained {
        tables: older,
        fields: &message.fields,
        next: &next,
    };
    let newer_fields = Chained {
        tables: newer,
        fields: &other.fields,
        next: &next_of_other,
    };
    let fault = merge_fault(alloc, same_enums, older_fields, newer_fields)?;
    Ok(type_fault_of(fault))
}
