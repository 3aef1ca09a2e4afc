//! Sets of numbers that hold the members of whole oneofs.

ghost use Rattle.std.specs.Prelude.{◌≡◌, ◌||◌, ◌∷◌, [], ℕ, true, OnOk};
ghost use Rattle.prost_reflect_fields.specs.Members.{rows_at};
ghost use Rattle.prost_reflect_fields.specs.Known.{known_of};
ghost use Rattle.prost_reflect_maps.specs.NumberSets.{has};
ghost use Rattle.prost_reflect_fields.specs.WholeOneofs.{HasWholeOneofs, is_in_oneof};

use crate::members::member_places;
use crate::stored::{is_same_oneof, oneof_of};
use prost_reflect_pool::PooledType;
use prost_reflect_tables::FieldTable;
use std::alloc::AllocError;
use std::collections::BTreeSet;

/// Adds a number, and the other members of its field's oneof.
///
/// # Errors
///
/// `AllocError` if out of memory; then a part of them may have been added.
pub fn add_number(
    numbers: &mut BTreeSet<u32>,
    message_type: &PooledType,
    number: u32,
) -> Result<(), AllocError>
    requires { HasWholeOneofs (known_of message_type.now) numbers.old }
    ensures whole { OnOk result (HasWholeOneofs (known_of message_type.now) numbers.new) }
    ensures added { OnOk result (has numbers.new number ≡ true) }
    ensures stay { OnOk result ((k : ℕ) → has numbers.old k ≡ true → has numbers.new k ≡ true) }
{
    if !numbers.insert(number)? {
        return Ok(());
    }
    let oneof = oneof_of(message_type, number);
    let places = member_places(message_type, oneof);
    add_members(numbers, message_type.field_tables(), places, oneof)
}

/// Adds the members of the oneof at these places.
fn add_members(
    numbers: &mut BTreeSet<u32>,
    table: &[FieldTable],
    places: &[usize],
    oneof: Option<usize>,
) -> Result<(), AllocError>
    ensures { OnOk result ((k : ℕ) → has numbers.new k ≡ (has numbers.old k || is_in_oneof (rows_at table.now places.now) oneof k)) }
{
    for place in places {
        if let Some(field) = table.get(*place) {
            add_member(numbers, field, oneof)?;
        }
    }
    Ok(())
}

/// Adds the number of the field where it is a member of the oneof.
fn add_member(
    numbers: &mut BTreeSet<u32>,
    field: &FieldTable,
    oneof: Option<usize>,
) -> Result<(), AllocError>
    ensures { OnOk result ((k : ℕ) → has numbers.new k ≡ (has numbers.old k || is_in_oneof (field.now ∷ []) oneof k)) }
{
    if is_same_oneof(field.oneof, oneof) {
        numbers.insert(field.number)?;
    }
    Ok(())
}
