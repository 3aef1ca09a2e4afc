//! The unknown fields of messages.

ghost use Rattle.std.specs.Prelude.{◌≡◌, [], map, IfOk, OnErr, OnOk};
ghost use Rattle.prost_reflect_wire.specs.Content.{entries_of};
ghost use Rattle.prost_reflect_wire.specs.Unknown.{unknown_record};
ghost use Rattle.prost_reflect_fields.specs.FieldSlots.{unknown_in, values_alone};
ghost use Rattle.prost_reflect_maps.specs.Items.{IsAscending};
ghost use Rattle.prost_reflect_maps.specs.ItemsLeft.{items_left};
ghost use Rattle.prost_reflect_fields.specs.Sound.{IsSound};
ghost use Rattle.prost_reflect_dynamic.specs.Contents.{in_entries};
ghost use Rattle.prost_reflect_dynamic.specs.Edits.{Removes};
ghost use Rattle.prost_reflect_dynamic.specs.UnknownLists.{fields_or_none, all_unknown, taken_left, unknown_left, unknown_records, without_unknown};
ghost use Rattle.prost_reflect_dynamic.specs.View.{content_of, message_type_of, stored_in};

use crate::message::DynamicMessage;
use crate::value::Value;
use prost_reflect_fields::slot::FieldSlot;
use prost_reflect_maps::sorted_map::Items;
use prost_reflect_wire::{UnknownField, UnknownFieldSet};
use std::alloc::{AllocError, Global};
use std::vec::IntoIter;

/// The unknown fields of a message, in ascending number; those of one number in the order in which they were read or added.
#[derive(Drop)]
pub struct UnknownFields<'a> {
    pub(crate) fields: &'a [UnknownField],
    pub(crate) slots: Items<'a, FieldSlot<Value>>,
}

impl<'a> Iterator for UnknownFields<'a> {
    type Item = &'a UnknownField;

    ghost use Rattle.std.specs.Iterator.{YieldsFirstRef, item_count};
    ghost use Rattle.prost_reflect_dynamic.specs.UnknownLists.{unknown_left};

    ghost next_gives = { YieldsFirstRef unknown_left };

    ghost remaining = { item_count unknown_left };

    fn next(&mut self) -> Option<&'a UnknownField> {
        self.fill();
        match self.fields.split_first() {
            Some((field, rest)) => {
                self.fields = rest;
                Some(field)
            }
            None => None,
        }
    }
}

impl<'a> UnknownFields<'a> {
    /// Goes on to the next number that has unknown fields, where all of the last one were given.
    fn fill(&mut self)
        ensures left { unknown_left self.new ≡ unknown_left self.old }
        ensures ready { self.new.fields.now ≡ [] → items_left self.new.slots ≡ [] }
    {
        while self.fields.is_empty() {
            match self.slots.next() {
                Some(slot) => self.fields = unknown_of(&slot.1),
                None => break,
            }
        }
    }
}

/// The unknown fields that were taken from a message, in ascending number; those of one number in the order in which they
/// were read or added.
#[derive(Drop)]
pub struct TakenUnknownFields {
    pub(crate) fields: IntoIter<UnknownField, Global>,
    pub(crate) sets: IntoIter<UnknownFieldSet, Global>,
}

impl Iterator for TakenUnknownFields {
    type Item = UnknownField;

    ghost use Rattle.std.specs.Iterator.{YieldsFirst, item_count};
    ghost use Rattle.prost_reflect_dynamic.specs.UnknownLists.{taken_left};

    ghost next_gives = { YieldsFirst taken_left };

    ghost remaining = { item_count taken_left };

    fn next(&mut self) -> Option<UnknownField> {
        loop {
            if let Some(field) = self.fields.next() {
                return Some(field);
            }
            self.fields = self.sets.next()?.into_iter();
        }
    }
}

/// The unknown fields that a slot keeps.
fn unknown_of(slot: &FieldSlot<Value>) -> &[UnknownField]
    ensures { result.now ≡ fields_or_none (unknown_in slot.now) }
{
    match slot.unknown() {
        Some(set) => set.iter().as_slice(),
        None => &[],
    }
}

impl DynamicMessage {
    /// All unknown fields in ascending number, also those of fields whose closed enum does not declare them. A message without
    /// unknown fields gives none.
    pub fn unknown_fields(&self) -> UnknownFields<'_>
        ensures left { unknown_left result ≡ all_unknown (stored_in self.now) }
        ensures content { map unknown_record (unknown_left result) ≡ unknown_records (entries_of (content_of self.now)) }
        ensures ascending { IsAscending (stored_in self.now) }
        ensures sound { IsSound (message_type_of self.now) (stored_in self.now) }
    {
        UnknownFields {
            fields: &[],
            slots: self.slots(),
        }
    }

    /// Takes all unknown fields in ascending number, also those of fields whose closed enum does not declare them. They are
    /// removed at this call, however many of them are then asked for. The values stay, and so does a stored default.
    ///
    /// # Errors
    ///
    /// `AllocError` if out of memory; then nothing changes.
    pub fn take_unknown_fields(&mut self, alloc: Global) -> Result<TakenUnknownFields, AllocError>
        ensures taken { IfOk result (λ taken. taken_left taken ≡ all_unknown (stored_in self.old)) }
        ensures records { IfOk result
            (λ taken. map unknown_record (taken_left taken) ≡ unknown_records (entries_of (content_of self.old))) }
        ensures message_type { message_type_of self.new ≡ message_type_of self.old }
        ensures stored { OnOk result (stored_in self.new ≡ values_alone (stored_in self.old)) }
        ensures removes { OnOk result (Removes (in_entries without_unknown) self.old self.new) }
        ensures err { OnErr result (self.new ≡ self.old) }
        ensures ascending { IsAscending (stored_in self.old) }
        ensures sound { IsSound (message_type_of self.old) (stored_in self.old) }
    {
        let sets = self.fields.take_unknown(alloc)?;
        Ok(TakenUnknownFields {
            fields: UnknownFieldSet::new(alloc).into_iter(),
            sets: sets.into_iter(),
        })
    }
}
