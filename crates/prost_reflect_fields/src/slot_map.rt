//! Maps from numbers to slots in which at most one member of each oneof has a value.

ghost use Rattle.std.specs.Prelude.{◌≡◌, OnOk, OnErr, IfOk, Some};
ghost use Rattle.std.specs.Borrow.{sem};
ghost use Rattle.prost_reflect_maps.specs.Items.{IsAscending};
ghost use Rattle.prost_reflect_fields.specs.Known.{known_of, oneof_of};
ghost use Rattle.prost_reflect_fields.specs.FieldSlots.{stored_at};
ghost use Rattle.prost_reflect_fields.specs.Sound.{set_value_at, prepared, KeepsOneofs};
ghost use Rattle.prost_reflect_fields.specs.Noted.{AreNoted};
ghost use Rattle.prost_reflect_fields.specs.Lending.{LendsValue};

use crate::slot::FieldSlot;
use crate::stored::{set_value, value_mut_or};
use prost_reflect_maps::number_map::NumberMap;
use prost_reflect_maps::sorted_map::SortedMap;
use prost_reflect_pool::PooledType;
use std::alloc::{AllocError, Global};
use std::collections::BTreeMap;

/// A map from numbers to slots, with the calls that set a value. If at most one member of each oneof had a value before such a call,
/// so it is behind it. That is a law of the trait, and each map keeps it, since no impl can write these calls anew.
pub trait SlotMap<V: Drop>: NumberMap<FieldSlot<V>> {
    /// Sets the value at the number, and removes those of the other members of its field's oneof, whose place is `oneof`. The unknown
    /// fields stay. If out of memory, no value and no unknown field changes.
    final fn set_value(
        &mut self,
        alloc: Global,
        message_type: &PooledType,
        number: u32,
        oneof: Option<usize>,
        value: V,
    ) -> Result<(), AllocError>
        requires oneof { oneof ≡ oneof_of (known_of message_type.now) number }
        requires noted { AreNoted (known_of message_type.now) (Self.noted self.old) (Self.entries self.old) }
        ensures ok { OnOk result (Self.entries self.new ≡ set_value_at (known_of message_type.now) (Self.entries self.old) number value) }
        ensures err { OnErr result (Self.entries self.new ≡ Self.entries self.old) }
        ensures single { KeepsOneofs (known_of message_type.now) (Self.entries self.old) (Self.entries self.new) }
        ensures noted { AreNoted (known_of message_type.now) (Self.noted self.new) (Self.entries self.new) }
        ensures ascending { IsAscending (Self.entries self.old) }
    {
        set_value(self, alloc, message_type, number, oneof, value)
    }

    /// The value at the number, for writing. Where there is none it is first set to `default`, as `set_value` does. If out of memory,
    /// nothing changes.
    final fn value_mut_or(
        &mut self,
        alloc: Global,
        message_type: &PooledType,
        number: u32,
        default: V,
    ) -> Result<&mut V, AllocError>
        requires { AreNoted (known_of message_type.now) (Self.noted self.old) (Self.entries self.old) }
        ensures* writes_back { sem 𝓛
            (LendsValue Self.row V.row self.entry result Self.entries Self.noted (known_of message_type.now)
            (Self.entries self.old) number default) }
        ensures value { IfOk result
            (λ v. stored_at (prepared (known_of message_type.now) (Self.entries self.old) number default) number
            ≡ Some v.now) }
        ensures ascending { IsAscending (Self.entries self.old) }
    {
        value_mut_or(self, alloc, message_type, number, default)
    }
}

impl<V: Drop> SlotMap<V> for BTreeMap<u32, FieldSlot<V>> {}

impl<V: Drop> SlotMap<V> for SortedMap<FieldSlot<V>> {}
