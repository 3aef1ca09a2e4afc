//! What a message keeps at one number.

ghost use Rattle.std.specs.Prelude.{◌≡◌, OnOk, OnErr};
ghost use Rattle.std.specs.Borrow.{LendsIf, sem};
ghost use Rattle.std.specs.Option.{option_copied, option_copied_mut};
ghost use Rattle.prost_reflect_wire.specs.Unknown.{unknown_record};
ghost use Rattle.prost_reflect_fields.specs.contracts.slot.FieldSlot.{the_row};
ghost use Rattle.prost_reflect_fields.specs.FieldSlots.{value_in, unknown_in, with_value_in, revalued, value_beside, without_value_beside, AddedIn, SameIn};

use prost_reflect_maps::boxed::Boxed;
use prost_reflect_wire::{UnknownField, UnknownFieldSet};
use std::alloc::{AllocError, Global};
use std::mem;

/// A value, unknown fields, or a value with unknown fields beside it.
#[derive(Debug, Drop)]
pub enum FieldSlot<V> {
    /// The value of a field.
    Value(V),
    /// Unknown fields alone.
    Unknown(UnknownFieldSet),
    /// The value of a field, and the numbers that its closed enum does not declare. There are seldom any, so they are on the
    /// heap.
    Both(V, Boxed<UnknownFieldSet>),
}

impl<V> FieldSlot<V> {
    /// The value.
    pub fn value(&self) -> Option<&V>
        ensures { option_copied result ≡ value_in self.now }
    {
        match self {
            FieldSlot::Value(value) | FieldSlot::Both(value, _) => Some(value),
            FieldSlot::Unknown(_) => None,
        }
    }

    /// The unknown fields.
    pub fn unknown(&self) -> Option<&UnknownFieldSet>
        ensures { option_copied result ≡ unknown_in self.now }
    {
        match self {
            FieldSlot::Unknown(unknown) => Some(unknown),
            FieldSlot::Both(_, unknown) => Some(unknown.get()),
            FieldSlot::Value(_) => None,
        }
    }

    /// The value and the unknown fields.
    pub fn into_parts(self) -> (Option<V>, Option<UnknownFieldSet>)
        ensures value { result.0 ≡ value_in self }
        ensures unknown { result.1 ≡ unknown_in self }
    {
        match self {
            FieldSlot::Value(value) => (Some(value), None),
            FieldSlot::Unknown(unknown) => (None, Some(unknown)),
            FieldSlot::Both(value, unknown) => (Some(value), Some(unknown.into_inner())),
        }
    }

    /// The value, for writing.
    pub fn value_mut(&mut self) -> Option<&mut V>
        ensures* writes_back { sem 𝓛 (LendsIf (the_row V.row) V.row self.entry result (revalued self.old) self.old) }
        ensures value { option_copied_mut result ≡ value_in self.old }
    {
        match self {
            FieldSlot::Value(value) => Some(value),
            FieldSlot::Both(value, _) => Some(value),
            FieldSlot::Unknown(_) => None,
        }
    }
}

impl<V: Drop> FieldSlot<V> {
    /// Puts a value beside the unknown fields, in place of one that is there. If out of memory, nothing changes.
    pub fn put(&mut self, alloc: Global, value: V) -> Result<(), AllocError>
        ensures ok { OnOk result (self.new ≡ with_value_in self.old value) }
        ensures err { OnErr result (self.new ≡ self.old) }
    {
        match self {
            FieldSlot::Value(old) => *old = value,
            FieldSlot::Both(old, _) => *old = value,
            FieldSlot::Unknown(_) => {
                let beside = Boxed::new(alloc, UnknownFieldSet::new(alloc))?;
                self.put_beside(alloc, value, beside);
            }
        }
        Ok(())
    }

    /// Puts a value beside the unknown fields, which move into a set that is there already.
    fn put_beside(&mut self, alloc: Global, value: V, beside: Boxed<UnknownFieldSet>)
        ensures { self.new ≡ with_value_in self.old value }
    {
        let mut beside = beside;
        match mem::replace(self, FieldSlot::Unknown(UnknownFieldSet::new(alloc))) {
            FieldSlot::Value(_) => *self = FieldSlot::Value(value),
            FieldSlot::Unknown(unknown) => {
                *beside.get_mut() = unknown;
                *self = FieldSlot::Both(value, beside);
            }
            FieldSlot::Both(_, unknown) => *self = FieldSlot::Both(value, unknown),
        }
    }

    /// Takes the value that stands beside unknown fields.
    pub fn take_beside(&mut self, alloc: Global) -> Option<V>
        ensures value { result ≡ value_beside self.old }
        ensures left { self.new ≡ without_value_beside self.old }
    {
        match mem::replace(self, FieldSlot::Unknown(UnknownFieldSet::new(alloc))) {
            FieldSlot::Both(value, unknown) => {
                *self = FieldSlot::Unknown(unknown.into_inner());
                Some(value)
            }
            whole => {
                *self = whole;
                None
            }
        }
    }

    /// Adds an unknown field behind those that are there. If out of memory, nothing changes.
    pub fn add_unknown(&mut self, alloc: Global, field: UnknownField) -> Result<(), AllocError>
        ensures ok { OnOk result (AddedIn self.old self.new (unknown_record field)) }
        ensures err { OnErr result (SameIn self.old self.new) }
    {
        match self {
            FieldSlot::Unknown(unknown) => return unknown.insert(field),
            FieldSlot::Both(_, unknown) => return unknown.get_mut().insert(field),
            FieldSlot::Value(_) => {}
        }
        let mut unknown = Boxed::new(alloc, UnknownFieldSet::new(alloc))?;
        unknown.get_mut().insert(field)?;
        match mem::replace(self, FieldSlot::Unknown(UnknownFieldSet::new(alloc))) {
            FieldSlot::Value(value) => *self = FieldSlot::Both(value, unknown),
            whole => *self = whole,
        }
        Ok(())
    }
}
