//! The fields of one message.

ghost use Rattle.std.specs.Prelude.{◌≡◌, [], true, OnOk, OnErr, IfOk, Some};
ghost use Rattle.std.specs.Borrow.{Lends, LendsIf, LendsIfOk, sem};
ghost use Rattle.std.specs.Option.{option_copied, option_copied_mut};
ghost use Rattle.prost_reflect_wire.specs.Unknown.{unknown_record};
ghost use Rattle.prost_reflect_fields.specs.contracts.field_set.FieldSet.{the_row};
ghost use Rattle.prost_reflect_maps.specs.Items.{IsAscending, item_at};
ghost use Rattle.prost_reflect_fields.specs.Known.{known_of, is_known, is_listed, keeps_unknown, oneof_of};
ghost use Rattle.prost_reflect_maps.specs.NumberSets.{AreReplaced};
ghost use Rattle.prost_reflect_fields.specs.WholeOneofs.{HasWholeOneofs};
ghost use Rattle.prost_reflect_fields.specs.FieldSlots.{stored_at, clear_value, without_values, values_where, with_value, UnknownAdded, SameStored, unknown_sets, values_alone};
ghost use Rattle.prost_reflect_fields.specs.Sound.{IsSound, set_value_at, prepared};
ghost use Rattle.prost_reflect_maps.specs.ItemsLeft.{items_left, items_left_back};

use crate::noting::noted_members;
use crate::parting::parted;
use crate::slot::FieldSlot;
use crate::slot_map::SlotMap;
use crate::stored::{add_unknown, oneof_of, stored_at, take_value, value_mut};
use crate::taking::take_unknown;
use prost_reflect_maps::boxed::Boxed;
use prost_reflect_maps::items::ItemList;
use prost_reflect_maps::number_map::ascending;
use prost_reflect_maps::sorted_map::{Items, ItemsBack, SortedMap};
use prost_reflect_pool::PooledType;
use prost_reflect_wire::{UnknownField, UnknownFieldSet};
use std::alloc::{AllocError, Global};
use std::collections::BTreeSet;
use std::marker::Model;

/// The values of a message's fields and its unknown fields, by number.
///
/// Only the numbers of fields and extensions have values, and at most one member of a oneof has one. Unknown fields are kept at
/// their own numbers: all of them at a number that no field has, and at that of a field those alone that give it no value, since
/// its closed enum does not declare the number that they hold.
#[derive(Debug)]
pub struct FieldSet<V> {
    message_type: PooledType,
    fields: SortedMap<FieldSlot<V>>,
}

impl<V: Drop> Drop for FieldSet<V> {
    fn drop(self) {
        let FieldSet {
            message_type: _,
            fields: _,
        } = self;
    }
}

impl<V> Model for FieldSet<V> {
    ghost use Rattle.std.specs.Prelude.{ℕ, List, ◌≡◌, true};
    ghost use Rattle.prost_reflect_pool.specs.declared.pooled_type.PooledType.{PooledType};
    ghost use Rattle.prost_reflect_fields.specs.declared.slot.FieldSlot.{FieldSlot};

    ghost Value = { PooledType × List (ℕ × FieldSlot V) };

    ghost use Rattle.prost_reflect_fields.specs.Codes.{field_set_code};

    ghost coded = { field_set_code V.code };

    ghost use Rattle.prost_reflect_fields.specs.Known.{known_of};
    ghost use Rattle.prost_reflect_fields.specs.Sound.{IsSound};
    ghost use Rattle.prost_reflect_fields.specs.Noted.{AreNoted};

    ghost view = { λ a. (a.message_type, a.fields.0) };

    ghost invariant = { λ a. IsSound a.message_type a.fields.0 × AreNoted (known_of a.message_type) a.fields.1 a.fields.0 };
}

/// For how many numbers a message makes room with the first: for those of its fields and extensions, or for eight. Only speed
/// rests on it.
fn first_room(message_type: &PooledType) -> usize {
    match message_type.field_tables().len() {
        count @ 1..=8 => count,
        _ => 8,
    }
}

impl<V> FieldSet<V> {
    /// No values and no unknown fields.
    pub fn new(alloc: Global, message_type: PooledType) -> FieldSet<V>
        ensures { result ≡ (message_type, []) }
    {
        let room = first_room(&message_type);
        FieldSet {
            message_type,
            fields: SortedMap::with_room(alloc, room),
        }
    }

    /// These values and unknown fields of a message of the type.
    pub fn from_slots(message_type: PooledType, fields: SortedMap<FieldSlot<V>>) -> FieldSet<V>
        requires { IsSound message_type fields.0 }
        ensures { result ≡ (message_type, fields.0) }
    {
        let mut fields = fields;
        drop(fields.take_notes());
        FieldSet {
            message_type,
            fields,
        }
    }

    /// What the values and unknown fields are stored with.
    pub fn allocator(&self) -> Global {
        self.fields.allocator()
    }

    /// The message type.
    pub fn message_type(&self) -> &PooledType
        ensures { result.now ≡ self.now.0 }
    {
        &self.message_type
    }

    /// What stands at each number, in ascending order of the numbers.
    pub fn slots(&self) -> Items<'_, FieldSlot<V>>
        ensures slots { items_left result ≡ self.now.1 }
        ensures ascending { IsAscending self.now.1 }
        ensures sound { IsSound self.now.0 self.now.1 }
    {
        self.fields.iter()
    }

    /// What stands at the number.
    pub fn slot(&self, number: u32) -> Option<&FieldSlot<V>>
        ensures { option_copied result ≡ item_at self.now.1 number }
    {
        self.fields.get(number)
    }

    /// Whether nothing stands at any number.
    pub fn is_empty(&self) -> bool
        ensures { result ≡ true → self.now.1 ≡ [] }
    {
        matches!(self.fields.listed(), Some([]))
    }

    /// What stands at the numbers ascends and is sound. A call does nothing, but its caller may then count on it.
    pub fn sound(&self)
        ensures ascending { IsAscending self.now.1 }
        ensures sound { IsSound self.now.0 self.now.1 }
    {
        self.fields.ascends();
    }

    /// What stands at each number, in descending order of the numbers.
    pub fn slots_back(&self) -> ItemsBack<'_, FieldSlot<V>>
        ensures slots { items_left_back result ≡ self.now.1 }
        ensures ascending { IsAscending self.now.1 }
        ensures sound { IsSound self.now.0 self.now.1 }
    {
        self.fields.iter_back()
    }
}

impl<V: Drop> FieldSet<V> {
    /// The value at the number.
    pub fn get(&self, number: u32) -> Option<&V>
        ensures value { option_copied result ≡ stored_at self.now.1 number }
        ensures ascending { IsAscending self.now.1 }
        ensures sound { IsSound self.now.0 self.now.1 }
    {
        ascending(&self.fields);
        stored_at(&self.fields, number)
    }

    /// Takes the value at the number. The unknown fields stay.
    pub fn take(&mut self, number: u32) -> Option<V>
        ensures value { result ≡ stored_at self.old.1 number }
        ensures left { self.new ≡ (self.old.0, clear_value self.old.1 number) }
        ensures ascending { IsAscending self.old.1 }
    {
        let alloc = self.fields.allocator();
        take_value(&mut self.fields, alloc, number)
    }

    /// Takes the values of all fields, or those of all extensions, each with its number. The unknown fields stay.
    /// If out of memory, nothing changes.
    pub fn take_listed(&mut self, of_extensions: bool) -> Result<Vec<(u32, V)>, AllocError>
        ensures values { IfOk result (λ taken. taken.items ≡ values_where (is_listed of_extensions (known_of self.old.0)) self.old.1) }
        ensures left { OnOk result (self.new ≡ (self.old.0, without_values (is_listed of_extensions (known_of self.old.0)) self.old.1)) }
        ensures err { OnErr result (self.new ≡ self.old) }
        ensures ascending { IsAscending self.old.1 }
        ensures sound { IsSound self.old.0 self.old.1 }
    {
        ascending(&self.fields);
        let alloc = self.fields.allocator();
        let Some(count) = self.fields.count() else {
            return Err(AllocError);
        };
        let list = Boxed::new(alloc, ItemList::new(alloc))?;
        let mut slots = Vec::with_capacity(alloc, count)?;
        let taken = Vec::with_capacity(alloc, count)?;
        let kept = Vec::with_capacity(alloc, count)?;
        self.fields.move_items(&mut slots);
        let (taken, kept) = parted(&self.message_type, of_extensions, slots, taken, kept);
        self.fields = SortedMap::from_items(list, kept);
        Ok(taken)
    }

    /// Removes the value at the number. The unknown fields stay.
    pub fn clear(&mut self, number: u32)
        ensures left { self.new ≡ (self.old.0, clear_value self.old.1 number) }
        ensures ascending { IsAscending self.old.1 }
    {
        drop(self.take(number));
    }

    /// Removes all values and all unknown fields. A list of few slots keeps its room.
    pub fn clear_all(&mut self)
        ensures { self.new ≡ (self.old.0, []) }
    {
        self.fields.clear();
    }

    /// Takes the unknown fields of all numbers, those of each as one set, in ascending order. The values stay.
    /// If out of memory, nothing changes.
    pub fn take_unknown(&mut self, alloc: Global) -> Result<Vec<UnknownFieldSet>, AllocError>
        ensures sets { IfOk result (λ sets. sets.items ≡ unknown_sets self.old.1) }
        ensures ok { OnOk result (self.new ≡ (self.old.0, values_alone self.old.1)) }
        ensures err { OnErr result (self.new ≡ self.old) }
        ensures ascending { IsAscending self.old.1 }
        ensures sound { IsSound self.old.0 self.old.1 }
    {
        take_unknown(&mut self.fields, alloc)
    }

    /// Sets the value at the number of a field or an extension, and removes those of the other members of its oneof.
    /// The unknown fields stay. If out of memory, nothing changes.
    pub fn set(&mut self, number: u32, value: V) -> Result<(), AllocError>
        requires { is_known (known_of self.old.0) number ≡ true }
        ensures ok { OnOk result (self.new ≡ (self.old.0, set_value_at (known_of self.old.0) self.old.1 number value)) }
        ensures err { OnErr result (self.new ≡ self.old) }
        ensures ascending { IsAscending self.old.1 }
    {
        let oneof = oneof_of(&self.message_type, number);
        self.set_member(number, oneof, value)
    }

    /// Sets the value at the number of a field or an extension, as `set` does, where the place of its oneof is at hand, so that
    /// its row is not looked for. If out of memory, nothing changes.
    pub fn set_member(
        &mut self,
        number: u32,
        oneof: Option<usize>,
        value: V,
    ) -> Result<(), AllocError>
        requires known { is_known (known_of self.old.0) number ≡ true }
        requires oneof { oneof ≡ oneof_of (known_of self.old.0) number }
        ensures ok { OnOk result (self.new ≡ (self.old.0, set_value_at (known_of self.old.0) self.old.1 number value)) }
        ensures err { OnErr result (self.new ≡ self.old) }
        ensures ascending { IsAscending self.old.1 }
    {
        if oneof.is_some() {
            self.note_members();
        }
        let alloc = self.fields.allocator();
        self.fields
            .set_value(alloc, &self.message_type, number, oneof, value)
    }

    /// Notes the members of oneofs that have values, where the slots are so many that they stand in runs and there are no notes yet.
    /// If out of memory, there are none. Only speed rests on it.
    fn note_members(&mut self)
        ensures { self.new ≡ self.old }
    {
        if self.fields.lay().is_err() || !self.fields.lacks_notes() {
            return;
        }
        let alloc = self.fields.allocator();
        if let Ok(notes) = noted_members(alloc, &self.message_type, self.fields.iter()) {
            self.fields.put_notes(notes);
        }
    }

    /// Adds an unknown field behind those of its number, which is that of no field, or of one that takes no value from it, since
    /// its closed enum does not declare the number that the unknown field holds. If out of memory, no value and no unknown field
    /// changes.
    pub fn add_unknown(&mut self, number: u32, field: UnknownField) -> Result<(), AllocError>
        requires own { (unknown_record field).number ≡ number }
        requires kept { keeps_unknown (known_of self.old.0) number (unknown_record field).payload ≡ true }
        ensures message_type { self.new.0 ≡ self.old.0 }
        ensures ok { OnOk result (UnknownAdded self.old.1 self.new.1 (unknown_record field)) }
        ensures err { OnErr result (SameStored self.old.1 self.new.1) }
        ensures ascending { IsAscending self.old.1 }
    {
        let alloc = self.fields.allocator();
        add_unknown(&mut self.fields, alloc, number, field)
    }

    /// Puts what the other set has at the numbers in place of what is there. If out of memory, nothing changes.
    pub fn replace(
        &mut self,
        numbers: &BTreeSet<u32>,
        others: FieldSet<V>,
    ) -> Result<(), AllocError>
        requires message_type { known_of others.0 ≡ known_of self.old.0 }
        requires whole { HasWholeOneofs (known_of self.old.0) numbers.now }
        ensures message_type { self.new.0 ≡ self.old.0 }
        ensures ok { OnOk result (AreReplaced numbers.now self.old.1 others.1 self.new.1) }
        ensures err { OnErr result (self.new ≡ self.old) }
    {
        let FieldSet {
            message_type,
            fields,
        } = others;
        drop(message_type);
        self.fields.replace(numbers, fields)
    }

    /// The value at the number, for writing.
    pub fn get_mut(&mut self, number: u32) -> Option<&mut V>
        ensures* writes_back { sem 𝓛
            (LendsIf (the_row V.row) V.row self.entry result (λ w. (self.old.0, with_value self.old.1 number w))
            self.old) }
        ensures value { option_copied_mut result ≡ stored_at self.old.1 number }
        ensures ascending { IsAscending self.old.1 }
        ensures sound { IsSound self.old.0 self.old.1 }
    {
        ascending(&self.fields);
        value_mut(&mut self.fields, number)
    }

    /// The value at the number of a field or an extension, for writing. Where there is none it is first set to `default`.
    /// If out of memory, nothing changes.
    pub fn get_mut_or(&mut self, number: u32, default: V) -> Result<&mut V, AllocError>
        requires { is_known (known_of self.old.0) number ≡ true }
        ensures* writes_back { sem 𝓛
            (LendsIfOk (the_row V.row) V.row self.entry result
            (λ w. (self.old.0, with_value (prepared (known_of self.old.0) self.old.1 number default) number w))
            self.old) }
        ensures value { IfOk result (λ v. stored_at (prepared (known_of self.old.0) self.old.1 number default) number ≡ Some v.now) }
        ensures ascending { IsAscending self.old.1 }
        ensures sound { IsSound self.old.0 self.old.1 }
    {
        self.note_members();
        let alloc = self.fields.allocator();
        self.fields
            .value_mut_or(alloc, &self.message_type, number, default)
    }
}
