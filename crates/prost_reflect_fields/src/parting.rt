//! Values taken out of slots, all at once.

ghost use Rattle.std.specs.Prelude.{◌≡◌, ◌+◌, ◌<◌, ◌≤◌, ◌++◌, [], None, Some, if◌then◌else◌, length, vec_capacity, vec_len};
ghost use Rattle.prost_reflect_fields.specs.Known.{known_of, is_listed};
ghost use Rattle.prost_reflect_fields.specs.FieldSlots.{left_in, numbered, value_in, values_where, without_values};

use crate::slot::FieldSlot;
use prost_reflect_maps::items::push_last;
use prost_reflect_pool::PooledType;

/// The values at the numbers of fields, or those at the numbers of extensions, and the slots that are left. There is room for
/// both.
pub fn parted<V: Drop>(
    message_type: &PooledType,
    of_extensions: bool,
    slots: Vec<(u32, FieldSlot<V>)>,
    taken: Vec<(u32, V)>,
    kept: Vec<(u32, FieldSlot<V>)>,
) -> (Vec<(u32, V)>, Vec<(u32, FieldSlot<V>)>)
    requires none_taken { taken.items ≡ [] }
    requires none_kept { kept.items ≡ [] }
    requires taken_room { vec_len taken + length slots.items ≤ vec_capacity taken }
    requires kept_room { vec_len kept + length slots.items ≤ vec_capacity kept }
    ensures taken { result.0.items ≡ values_where (is_listed of_extensions (known_of message_type.now)) slots.items }
    ensures kept { result.1.items ≡ without_values (is_listed of_extensions (known_of message_type.now)) slots.items }
{
    let mut taken = taken;
    let mut kept = kept;
    for (number, slot) in slots {
        let (value, left) = split(slot, is_listed(message_type, of_extensions, number));
        push_numbered(&mut taken, number, value);
        push_numbered(&mut kept, number, left);
    }
    (taken, kept)
}

/// The value of a slot and what is left of it, or no value and the whole slot.
fn split<V: Drop>(slot: FieldSlot<V>, takes: bool) -> (Option<V>, Option<FieldSlot<V>>)
    ensures value { result.0 ≡ (if takes then value_in slot else None) }
    ensures left { result.1 ≡ (if takes then left_in slot else Some slot) }
{
    if !takes {
        return (None, Some(slot));
    }
    match slot {
        FieldSlot::Value(value) => (Some(value), None),
        FieldSlot::Unknown(unknown) => (None, Some(FieldSlot::Unknown(unknown))),
        FieldSlot::Both(value, unknown) => (
            Some(value),
            Some(FieldSlot::Unknown(unknown.into_inner())),
        ),
    }
}

/// Whether the number is that of a field, or that of an extension.
fn is_listed(message_type: &PooledType, of_extensions: bool, number: u32) -> bool
    ensures { result ≡ is_listed of_extensions (known_of message_type.now) number }
{
    match message_type.field_table(number) {
        Some(field) => of_extensions == field.is_extension,
        None => false,
    }
}

/// Adds an item with its number, if there is one. There is room for it.
fn push_numbered<T: Drop>(items: &mut Vec<(u32, T)>, number: u32, item: Option<T>)
    requires { vec_len items.old < vec_capacity items.old }
    ensures items { items.new.items ≡ items.old.items ++ numbered number item }
    ensures len { vec_len items.new ≤ vec_len items.old + 1 }
    ensures room { vec_capacity items.old ≤ vec_capacity items.new }
{
    if let Some(item) = item {
        push_last(items, (number, item));
    }
}
