//! Notes of the members of oneofs that have values.

ghost use Rattle.std.specs.Prelude.{◌≡◌, Some, IfOk, OnOk};
ghost use Rattle.prost_reflect_maps.specs.Items.{IsAscending};
ghost use Rattle.prost_reflect_maps.specs.ItemsLeft.{items_left};
ghost use Rattle.prost_reflect_fields.specs.Known.{known_of};
ghost use Rattle.prost_reflect_fields.specs.Noted.{AreNoted, with_note};
ghost use Rattle.prost_reflect_fields.specs.Sound.{OneofsSingle};

use crate::slot::FieldSlot;
use crate::stored::oneof_of;
use prost_reflect_maps::sorted_map::Items;
use prost_reflect_pool::PooledType;
use std::alloc::{AllocError, Global};
use std::collections::BTreeMap;

/// Under each oneof, the number of its member that has a value, if one has.
///
/// # Errors
///
/// `AllocError` if out of memory.
pub(crate) fn noted_members<V>(
    alloc: Global,
    message_type: &PooledType,
    slots: Items<'_, FieldSlot<V>>,
) -> Result<BTreeMap<usize, u32>, AllocError>
    requires single { OneofsSingle (known_of message_type.now) (items_left slots) }
    requires ascending { IsAscending (items_left slots) }
    ensures { IfOk result (λ notes. AreNoted (known_of message_type.now) (Some notes.entries) (items_left slots.entry)) }
{
    let mut notes = BTreeMap::new(alloc);
    for (number, slot) in slots {
        note_slot(&mut notes, message_type, *number, slot)?;
    }
    Ok(notes)
}

/// Notes the number under the oneof of its field, if the slot has a value.
fn note_slot<V>(
    notes: &mut BTreeMap<usize, u32>,
    message_type: &PooledType,
    number: u32,
    slot: &FieldSlot<V>,
) -> Result<(), AllocError>
    ensures { OnOk result (notes.new.entries ≡ with_note (known_of message_type.now) notes.old.entries (number, slot.now)) }
{
    if slot.value().is_none() {
        return Ok(());
    }
    if let Some(oneof) = oneof_of(message_type, number) {
        notes.insert(oneof, number)?;
    }
    Ok(())
}
