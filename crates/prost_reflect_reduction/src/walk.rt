//! The pairs of message types that are reached from one, each once.

ghost use Rattle.std.specs.Prelude.{◌≡◌, ℕ, ◌<◌, ◌↔◌, true, [], ◌∷◌, Some, IfOk, OnOk, IsTrue, length, map, flat_map, get_or};
ghost use Rattle.std.specs.Option.{is_none};
ghost use Rattle.prost_reflect_wire.specs.Schema.{Schema, message_type, field_of, known, numbers_differ};
ghost use Rattle.prost_reflect_wire.specs.Reduction.{TypePairs, Reduced};
ghost use Rattle.prost_reflect_tables.specs.Rows.{field_row};
ghost use Rattle.prost_reflect_tables.specs.Shown.{schema_field};
ghost use Rattle.prost_reflect_tables.specs.Schema.{rows_of, schema_of};
ghost use Rattle.prost_reflect_reduction.specs.Faults.{FaultStands, pair_at};
ghost use Rattle.prost_reflect_reduction.specs.Reaching.{types_ask, kinds_ask, field_asks};
ghost use Rattle.prost_reflect_reduction.specs.Walking.{joined, listed, IsSetOf, AreSources, LeadsOn, AreBefore, IsPairAt};
ghost use Rattle.prost_reflect_reduction.specs.declared.fault.ReductionFault.{ReductionFault};

use crate::fault::ReductionFault;
use crate::fields::value_field;
use crate::types::type_fault;
use prost_reflect_tables::{FieldTable, TableKind, Tables};
use std::alloc::{AllocError, Global};
use std::collections::BTreeSet;

/// What a pair of types is reached from: the place of another pair, and the number of the fields that lead from it.
#[derive(Clone, Copy)]
struct Source {
    pair: usize,
    number: u32,
}

/// Adds a pair with its source, unless it is there.
fn add(
    pairs: &mut Vec<(usize, usize)>,
    sources: &mut Vec<Source>,
    set: &mut BTreeSet<(usize, usize)>,
    pair: (usize, usize),
    source: Source,
) -> Result<(), AllocError>
    requires { IsSetOf set.old pairs.old.items }
    ensures set { OnOk result (IsSetOf set.new pairs.new.items) }
    ensures pairs { OnOk result (pairs.new.items ≡ joined pairs.old.items (pair ∷ [])) }
    ensures sources { OnOk result
        ((older newer : Schema) → AreSources older newer pairs.old.items sources.old.items
        → LeadsOn older newer pairs.old.items source (pair ∷ [])
        → AreSources older newer pairs.new.items sources.new.items) }
{
    if set.insert(pair)? {
        pairs.push(pair)?;
        sources.push(source)?;
    }
    Ok(())
}

/// The pair of message types that two fields lead to, if they have messages.
fn fields_ask(
    older: &Tables,
    field: &FieldTable,
    newer: &Tables,
    like: &FieldTable,
) -> Option<(usize, usize)>
    ensures { listed result
        ≡ kinds_ask (schema_field (rows_of older.now) (field_row field.now)).value_type.kind
        (schema_field (rows_of newer.now) (field_row like.now)).value_type.kind }
{
    let value = value_field(older, field);
    let like_value = value_field(newer, like);
    match (value.kind, like_value.kind) {
        (TableKind::Message(message), TableKind::Message(other))
            if value.is_group == like_value.is_group => { Some((message, other)) }
        _ => None,
    }
}

/// The pair that a field leads to, with the field of its number in the newer type.
fn field_asks(
    older: &Tables,
    field: &FieldTable,
    newer: &Tables,
    newer_place: usize,
) -> Option<(usize, usize)>
    requires { newer_place < length (rows_of newer.now).messages }
    ensures { listed result
        ≡ field_asks (known (schema_of newer.now) newer_place)
        (schema_field (rows_of older.now) (field_row field.now)) }
{
    match newer.field_table(newer_place, field.number) {
        Some(like) => fields_ask(older, field, newer, like),
        None => None,
    }
}

/// Adds a pair, if there is one.
fn add_listed(
    pairs: &mut Vec<(usize, usize)>,
    sources: &mut Vec<Source>,
    set: &mut BTreeSet<(usize, usize)>,
    pair: Option<(usize, usize)>,
    source: Source,
) -> Result<(), AllocError>
    requires { IsSetOf set.old pairs.old.items }
    ensures set { OnOk result (IsSetOf set.new pairs.new.items) }
    ensures pairs { OnOk result (pairs.new.items ≡ joined pairs.old.items (listed pair)) }
    ensures sources { OnOk result
        ((older newer : Schema) → AreSources older newer pairs.old.items sources.old.items
        → LeadsOn older newer pairs.old.items source (listed pair)
        → AreSources older newer pairs.new.items sources.new.items) }
{
    match pair {
        Some(pair) => add(pairs, sources, set, pair, source),
        None => Ok(()),
    }
}

/// Adds the pairs that the fields of the older type of the pair at a place lead to.
fn add_all(
    pairs: &mut Vec<(usize, usize)>,
    sources: &mut Vec<Source>,
    set: &mut BTreeSet<(usize, usize)>,
    pair: usize,
    older: &Tables,
    fields: &[FieldTable],
    newer: &Tables,
    newer_place: usize,
) -> Result<(), AllocError>
    requires set { IsSetOf set.old pairs.old.items }
    requires newer { newer_place < length (rows_of newer.now).messages }
    ensures set { OnOk result (IsSetOf set.new pairs.new.items) }
    ensures pairs { OnOk result
        (pairs.new.items
        ≡ joined pairs.old.items
        (flat_map (field_asks (known (schema_of newer.now) newer_place))
        (map (schema_field (rows_of older.now)) (map field_row fields.now)))) }
    ensures sources { OnOk result
        ((older_place : ℕ) → IsPairAt pairs.old.items pair older_place newer_place
        → map (schema_field (rows_of older.now)) (map field_row fields.now)
        ≡ known (schema_of older.now) older_place
        → numbers_differ (known (schema_of older.now) older_place) ≡ true
        → AreSources (schema_of older.now) (schema_of newer.now) pairs.old.items sources.old.items
        → AreSources (schema_of older.now) (schema_of newer.now) pairs.new.items sources.new.items) }
{
    for field in fields {
        let source = Source {
            pair,
            number: field.number,
        };
        add_listed(
            pairs,
            sources,
            set,
            field_asks(older, field, newer, newer_place),
            source,
        )?;
    }
    Ok(())
}

/// Adds the pairs that the fields of the pair of types at a place lead to.
fn add_asked(
    pairs: &mut Vec<(usize, usize)>,
    sources: &mut Vec<Source>,
    set: &mut BTreeSet<(usize, usize)>,
    pair: usize,
    older: &Tables,
    older_place: usize,
    newer: &Tables,
    newer_place: usize,
) -> Result<(), AllocError>
    requires set { IsSetOf set.old pairs.old.items }
    requires older { older_place < length (rows_of older.now).messages }
    requires newer { newer_place < length (rows_of newer.now).messages }
    ensures set { OnOk result (IsSetOf set.new pairs.new.items) }
    ensures pairs { OnOk result
        (pairs.new.items
        ≡ joined pairs.old.items
        (types_ask (message_type (schema_of older.now) older_place)
        (message_type (schema_of newer.now) newer_place))) }
    ensures sources { OnOk result
        (IsPairAt pairs.old.items pair older_place newer_place
        → AreSources (schema_of older.now) (schema_of newer.now) pairs.old.items sources.old.items
        → AreSources (schema_of older.now) (schema_of newer.now) pairs.new.items sources.new.items) }
{
    add_all(
        pairs,
        sources,
        set,
        pair,
        older,
        older.field_tables(older_place),
        newer,
        newer_place,
    )
}

/// The numbers of the fields that lead from the first pair to the one at a place.
fn path_to(alloc: Global, sources: &[Source], place: usize) -> Result<Vec<u32>, AllocError>
    requires place { place < length sources.now }
    requires before { AreBefore sources.now }
    ensures { IfOk result
        (λ path. (older newer : Schema) (pairs : TypePairs) → AreSources older newer pairs sources.now
        → pair_at older newer (get_or pairs 0 (0, 0)) path.items ≡ get_or pairs place (0, 0) ∷ []) }
{
    let mut path = Vec::new(alloc);
    let mut at = place;
    while at > 0 {
        let source = sources[at];
        path.push(source.number)?;
        at = source.pair;
    }
    path.reverse();
    Ok(path)
}

/// Why the message type at a place of the older tables is no reduction of the one at a place of the newer tables, or `None`
/// where it is one.
///
/// The pairs of message types that are reached from these two are walked, each once, and each is tested by itself, with
/// any two message types of fields taken to match. If a pair fails, there is no reduction, since each reduction includes
/// that pair; if all pass, there is one. A test is a walk over the fields of both types in ascending order of their numbers.
/// Pairs that fewer fields lead to come first, and in a pair the fault of the least number.
///
/// # Errors
///
/// `AllocError` if out of memory.
pub fn reduction_fault(
    alloc: Global,
    older: &Tables,
    older_place: usize,
    newer: &Tables,
    newer_place: usize,
) -> Result<Option<ReductionFault>, AllocError>
    requires older { older_place < length (rows_of older.now).messages }
    requires newer { newer_place < length (rows_of newer.now).messages }
    ensures none { IfOk result
        (λ fault. Reduced (schema_of older.now) older_place (schema_of newer.now) newer_place
        ↔ IsTrue (is_none fault)) }
    ensures stands { IfOk result
        (λ found. (fault : ReductionFault) → found ≡ Some fault
        → FaultStands (schema_of older.now) older_place (schema_of newer.now) newer_place fault) }
{
    let mut set = BTreeSet::new(alloc);
    let mut pairs = Vec::new(alloc);
    let mut sources = Vec::new(alloc);
    let mut same_enums = BTreeSet::new(alloc);
    let first = Source { pair: 0, number: 0 };
    add(
        &mut pairs,
        &mut sources,
        &mut set,
        (older_place, newer_place),
        first,
    )?;
    let mut next = 0;
    while next < pairs.len() {
        let (message, other) = pairs[next];
        match type_fault(alloc, &mut same_enums, older, message, newer, other)? {
            Some(fault) => {
                return Ok(Some(ReductionFault {
                    path: path_to(alloc, &sources, next)?,
                    number: fault.number,
                    kind: fault.kind,
                }));
            }
            None => add_asked(
                &mut pairs,
                &mut sources,
                &mut set,
                next,
                older,
                message,
                newer,
                other,
            )?,
        }
        next += 1;
    }
    Ok(None)
}

/// Whether the message type at a place of the older tables is a reduction of the one at a place of the newer tables: where
/// `reduction_fault` finds no fault.
///
/// # Errors
///
/// `AllocError` if out of memory.
pub fn is_reduction(
    alloc: Global,
    older: &Tables,
    older_place: usize,
    newer: &Tables,
    newer_place: usize,
) -> Result<bool, AllocError>
    requires older { older_place < length (rows_of older.now).messages }
    requires newer { newer_place < length (rows_of newer.now).messages }
    ensures { IfOk result (λ yes. Reduced (schema_of older.now) older_place (schema_of newer.now) newer_place ↔ IsTrue yes) }
{
    let fault = reduction_fault(alloc, older, older_place, newer, newer_place)?;
    Ok(fault.is_none())
}
