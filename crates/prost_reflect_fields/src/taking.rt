//! Taking the unknown fields of all numbers.

ghost use Rattle.std.specs.Prelude.{◌≡◌, ◌++◌, ◌<◌, ◌≤◌, ◌+◌, ◌∷◌, [], None, vec_capacity, vec_len, IfOk, OnErr, OnOk};
ghost use Rattle.prost_reflect_maps.specs.Items.{IsAscending};
ghost use Rattle.prost_reflect_fields.specs.FieldSlots.{unknown_in_slot, unknown_sets, value_alone, values_alone};

use crate::slot::FieldSlot;
use prost_reflect_maps::boxed::Boxed;
use prost_reflect_maps::items::{ItemList, push_last};
use prost_reflect_maps::sorted_map::SortedMap;
use prost_reflect_wire::UnknownFieldSet;
use std::alloc::{AllocError, Global};

/// Takes the unknown fields of all numbers, those of each as one set, in ascending order. The values stay.
/// The notes go. If out of memory, nothing changes.
pub(crate) fn take_unknown<V: Drop>(
    fields: &mut SortedMap<FieldSlot<V>>,
    alloc: Global,
) -> Result<Vec<UnknownFieldSet>, AllocError>
    ensures sets { IfOk result (λ sets. sets.items ≡ unknown_sets fields.old.0) }
    ensures ok { OnOk result (fields.new ≡ (values_alone fields.old.0, None)) }
    ensures err { OnErr result (fields.new ≡ fields.old) }
    ensures ascending { IsAscending fields.old.0 }
{
    fields.ascends();
    let Some(count) = fields.count() else {
        return Err(AllocError);
    };
    let list = Boxed::new(fields.allocator(), ItemList::new(fields.allocator()))?;
    let mut slots = Vec::with_capacity(fields.allocator(), count)?;
    let mut values = Vec::with_capacity(fields.allocator(), count)?;
    let mut sets = Vec::with_capacity(alloc, count)?;
    fields.move_items(&mut slots);
    part_all(slots, &mut values, &mut sets);
    *fields = SortedMap::from_items(list, values);
    Ok(sets)
}

/// Puts the values and the unknown fields of slots behind those of other slots, where there is room.
fn part_all<V: Drop>(
    slots: Vec<(u32, FieldSlot<V>)>,
    values: &mut Vec<(u32, FieldSlot<V>)>,
    sets: &mut Vec<UnknownFieldSet>,
)
    requires values_room { vec_len values.old + vec_len slots ≤ vec_capacity values.old }
    requires sets_room { vec_len sets.old + vec_len slots ≤ vec_capacity sets.old }
    ensures values { values.new.items ≡ values.old.items ++ values_alone slots.items }
    ensures sets { sets.new.items ≡ sets.old.items ++ unknown_sets slots.items }
{
    for (number, slot) in slots {
        part(number, slot, values, sets);
    }
}

/// Likewise of one slot.
fn part<V: Drop>(
    number: u32,
    slot: FieldSlot<V>,
    values: &mut Vec<(u32, FieldSlot<V>)>,
    sets: &mut Vec<UnknownFieldSet>,
)
    requires values_room { vec_len values.old < vec_capacity values.old }
    requires sets_room { vec_len sets.old < vec_capacity sets.old }
    ensures values { values.new.items ≡ values.old.items ++ value_alone (number, slot) }
    ensures values_len { vec_len values.new ≤ vec_len values.old + 1 }
    ensures values_capacity { vec_capacity values.old ≤ vec_capacity values.new }
    ensures sets { sets.new.items ≡ sets.old.items ++ unknown_in_slot (number, slot) }
    ensures sets_len { vec_len sets.new ≤ vec_len sets.old + 1 }
    ensures sets_capacity { vec_capacity sets.old ≤ vec_capacity sets.new }
{
    let (value, unknown) = slot.into_parts();
    if let Some(value) = value {
        push_last(values, (number, FieldSlot::Value(value)));
    }
    if let Some(unknown) = unknown {
        push_last(sets, unknown);
    }
}
