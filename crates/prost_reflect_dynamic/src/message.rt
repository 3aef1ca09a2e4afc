//! Messages whose types are known only at run time.

ghost use Rattle.std.specs.Prelude.{◌≡◌, ◌↔◌, ℕ, true, false, [], IsTrue, Some, OnOk, OnErr, IfOk, IfSome, option_map, unwrap_or};
ghost use Rattle.std.specs.Borrow.{LendsIf, LendsIfOk, sem};
ghost use Rattle.std.specs.Option.{option_copied, option_copied_mut};
ghost use Rattle.prost_reflect_wire.specs.Unknown.{unknown_record};
ghost use Rattle.prost_reflect_wire.specs.Content.{empty, entries_of, value_at};
ghost use Rattle.prost_reflect_wire.specs.Edit.{cleared};
ghost use Rattle.prost_reflect_wire.specs.Typing.{WellStored};
ghost use Rattle.prost_reflect_dynamic.specs.Access.{has_at, takes_at};
ghost use Rattle.prost_reflect_dynamic.specs.Edits.{Removes, Sets, StaysBeside};
ghost use Rattle.prost_reflect_dynamic.specs.contracts.message.DynamicMessage.{the_row};
ghost use Rattle.prost_reflect_dynamic.specs.contracts.value.Value as value;
ghost use Rattle.prost_reflect_pool.specs.MessageTypes.{schema_at, type_at, SameMessage};
ghost use Rattle.prost_reflect_maps.specs.Items.{IsAscending};
ghost use Rattle.prost_reflect_maps.specs.ItemsLeft.{items_left};
ghost use Rattle.prost_reflect_fields.specs.Known.{known_of, is_known, keeps_unknown, oneof_of};
ghost use Rattle.prost_reflect_maps.specs.NumberSets.{has};
ghost use Rattle.prost_reflect_fields.specs.WholeOneofs.{HasWholeOneofs};
ghost use Rattle.prost_reflect_fields.specs.FieldSlots.{stored_at};
ghost use Rattle.prost_reflect_fields.specs.Sound.{IsSound};
ghost use Rattle.prost_reflect_dynamic.specs.declared.value.Value.{Value};
ghost use Rattle.prost_reflect_dynamic.specs.View.{content_of, value_of, message_type_of, stored_in, overwritten_at, written_at};
ghost use Rattle.prost_reflect_dynamic.specs.Named.{IsNamed, NamesSame, schema_named, type_named};
ghost use Rattle.prost_reflect_dynamic.specs.Contents.{cleared_if, value_set, unknown_added};
ghost use Rattle.prost_reflect_dynamic.specs.Defaults.{IsEmptyOf};
ghost use Rattle.prost_reflect_dynamic.specs.Merged.{IsJoined};
ghost use Rattle.prost_reflect_dynamic.specs.DeepTypes.{all_typed};
ghost use Rattle.prost_reflect_dynamic.specs.Stored.{message_stored, value_stored};
ghost use Rattle.prost_reflect_dynamic.specs.TypedSteps.{typed_at, StaysTyped};

mod access;
mod copy;
mod decode;
pub(crate) mod defaults;
mod encodable;
mod encode;
pub(crate) mod enums;
mod equality;
mod extensions;
pub(crate) mod laws;
mod lending;
mod lists;
mod merge;
pub(crate) mod path;
mod present;
mod setting;
mod typed;
mod unknowns;

use crate::descriptor::MessageDescriptor;
use crate::value::Value;
pub use lending::GetFieldError;
pub use lists::{Extensions, Fields, Present, PresentItems, TakenExtensions, TakenFields};
pub use present::PresentNumber;
use prost_reflect_fields::field_set::FieldSet;
use prost_reflect_fields::slot::FieldSlot;
use prost_reflect_maps::sorted_map::Items;
use prost_reflect_pool::{LinkedPool, PooledType};
use prost_reflect_rows::types::stands_at;
use prost_reflect_wire::UnknownField;
pub use setting::SetFieldError;
use std::alloc::{AllocError, Global};
use std::collections::BTreeSet;
use std::rc::Rc;
pub use unknowns::{TakenUnknownFields, UnknownFields};

/// A message of a type that is known only at run time: the values of its fields and extensions, and its unknown fields.
#[cycle(value)]
#[derive(Debug)]
pub struct DynamicMessage {
    fields: FieldSet<Value>,
}

impl Drop for DynamicMessage {
    #[cycle(dropping)]
    fn drop(self) {
        let DynamicMessage { fields: _ } = self;
    }
}

impl DynamicMessage {
    /// The empty message of the type: no field has a value, and there are no unknown fields.
    ///
    /// ```
    /// // The bytes of a message whose field of the name is set to 7.
    /// fn with_seven(alloc: Global, message_type: MessageDescriptor, name: &str) -> Result<Vec<u8>, Fail> {
    ///     let mut message = DynamicMessage::new(alloc, message_type);
    ///     message.try_set_field_by_name(name, Value::I32(7))?;
    ///     Ok(message.encode_to_vec(alloc)?)
    /// }
    /// ```
    pub fn new(alloc: Global, descriptor: MessageDescriptor) -> DynamicMessage
        ensures message_type { IsNamed descriptor (message_type_of result) }
        ensures content { content_of result ≡ empty (schema_named descriptor) (type_named descriptor) }
        ensures nothing { stored_in result ≡ [] }
        ensures sound { WellStored (content_of result) }
        ensures typed { all_typed (message_stored result) ≡ true }
    {
        DynamicMessage::of_type(alloc, descriptor.into_type())
    }

    /// The empty message of the type.
    pub(crate) fn of_type(alloc: Global, message_type: PooledType) -> DynamicMessage
        ensures message_type { message_type_of result ≡ message_type }
        ensures content { content_of result ≡ empty (schema_at message_type) (type_at message_type) }
        ensures nothing { stored_in result ≡ [] }
    {
        DynamicMessage {
            fields: FieldSet::new(alloc, message_type),
        }
    }

    /// The message type.
    ///
    /// # Errors
    ///
    /// `AllocError` if out of memory.
    pub fn descriptor(&self) -> Result<MessageDescriptor, AllocError>
        ensures { IfOk result (λ descriptor. NamesSame descriptor (message_type_of self.now)) }
    {
        MessageDescriptor::of_type(self.message_type())
    }

    /// The message type, lent.
    pub(crate) fn message_type(&self) -> &PooledType
        ensures { result.now ≡ message_type_of self.now }
    {
        self.fields.message_type()
    }

    /// Whether the message stores neither values nor unknown fields, and is of the type at a place of the pool, or of the
    /// type there of a pool whose files hold the same.
    pub(crate) fn is_empty_of(&self, pool: &Rc<LinkedPool>, place: usize) -> bool
        ensures { IsTrue result ↔ IsEmptyOf pool.now place (Some self.now) }
    {
        stands_at(self.message_type(), pool, place) && self.slots().next().is_none()
    }

    /// Removes all values and all unknown fields. The type stays.
    pub fn clear(&mut self)
        ensures removes { Removes cleared self.old self.new }
        ensures gone { (n : ℕ) → has_at n (content_of self.new) ≡ false }
        ensures sound { WellStored (content_of self.new) }
        ensures typed { all_typed (message_stored self.new) ≡ true }
    {
        self.fields.clear_all();
    }

    /// What the message keeps at each number, in ascending order of the numbers.
    pub(crate) fn slots(&self) -> Items<'_, FieldSlot<Value>>
        ensures slots { items_left result ≡ stored_in self.now }
        ensures ascending { IsAscending (stored_in self.now) }
        ensures sound { IsSound (message_type_of self.now) (stored_in self.now) }
    {
        self.fields.slots()
    }

    /// The value that is stored at the number.
    pub(crate) fn stored_value(&self, number: u32) -> Option<&Value>
        ensures stored { option_copied result ≡ stored_at (stored_in self.now) number }
        ensures value { option_map value_of (option_copied result) ≡ value_at number (entries_of (content_of self.now)) }
        ensures ascending { IsAscending (stored_in self.now) }
    {
        self.fields.get(number)
    }

    /// Stores the value at the number of a field or an extension, and removes those of the other members of its oneof. If
    /// out of memory, nothing changes.
    pub(crate) fn set_value(&mut self, number: u32, value: Value) -> Result<(), AllocError>
        requires { is_known (known_of (message_type_of self.old)) number ≡ true }
        ensures message_type { message_type_of self.new ≡ message_type_of self.old }
        ensures content { OnOk result (content_of self.new ≡ value_set number (value_of value) (content_of self.old)) }
        ensures sets { OnOk result (takes_at (message_type_of self.old) number value ≡ true → Sets (Some number) value self.old self.new) }
        ensures typed { OnOk result
            (typed_at (message_type_of self.old) number (value_stored value) ≡ true → StaysTyped self.old self.new) }
        ensures err { OnErr result (self.new ≡ self.old) }
    {
        self.fields.set(number, value)
    }

    /// Stores the value at the number of a field or an extension, as `set_value` does, where the place of its oneof is at hand.
    pub(crate) fn set_member(
        &mut self,
        number: u32,
        oneof: Option<usize>,
        value: Value,
    ) -> Result<(), AllocError>
        requires known { is_known (known_of (message_type_of self.old)) number ≡ true }
        requires oneof { oneof ≡ oneof_of (known_of (message_type_of self.old)) number }
        ensures message_type { message_type_of self.new ≡ message_type_of self.old }
        ensures content { OnOk result (content_of self.new ≡ value_set number (value_of value) (content_of self.old)) }
        ensures typed { OnOk result
            (typed_at (message_type_of self.old) number (value_stored value) ≡ true → StaysTyped self.old self.new) }
        ensures err { OnErr result (self.new ≡ self.old) }
    {
        self.fields.set_member(number, oneof, value)
    }

    /// Takes the value at the number. The unknown fields stay.
    pub(crate) fn take_value(&mut self, number: u32) -> Option<Value>
        ensures stored { result ≡ stored_at (stored_in self.old) number }
        ensures value { option_map value_of result ≡ value_at number (entries_of (content_of self.old)) }
        ensures removes { Removes (cleared_if (Some number)) self.old self.new }
        ensures gone { has_at number (content_of self.new) ≡ false }
        ensures others { StaysBeside number self.old self.new }
        ensures ascending { IsAscending (stored_in self.old) }
    {
        self.fields.take(number)
    }

    /// Removes the value at the number. The unknown fields stay.
    pub(crate) fn clear_value(&mut self, number: u32)
        ensures removes { Removes (cleared_if (Some number)) self.old self.new }
        ensures gone { has_at number (content_of self.new) ≡ false }
        ensures others { StaysBeside number self.old self.new }
    {
        self.fields.clear(number);
    }

    /// Adds an unknown field behind those of its number, which is that of no field, or of one that takes no value from it,
    /// since a closed enum does not declare its number. If out of memory, no value and no unknown field changes.
    pub(crate) fn add_unknown(&mut self, number: u32, field: UnknownField) -> Result<(), AllocError>
        requires own { (unknown_record field).number ≡ number }
        requires kept { keeps_unknown (known_of (message_type_of self.old)) number (unknown_record field).payload ≡ true }
        ensures message_type { message_type_of self.new ≡ message_type_of self.old }
        ensures content { OnOk result (content_of self.new ≡ unknown_added (unknown_record field) (content_of self.old)) }
        ensures typed { OnOk result (StaysTyped self.old self.new) }
        ensures err { OnErr result (content_of self.new ≡ content_of self.old) }
    {
        self.fields.add_unknown(number, field)
    }

    /// Puts what another message of the type has at the numbers in place of what is there. If out of memory, nothing
    /// changes.
    pub(crate) fn replace_at(
        &mut self,
        numbers: &BTreeSet<u32>,
        others: DynamicMessage,
    ) -> Result<(), AllocError>
        requires message_type { SameMessage (message_type_of self.old) (message_type_of others) }
        requires whole { HasWholeOneofs (known_of (message_type_of self.old)) numbers.now }
        ensures message_type { message_type_of self.new ≡ message_type_of self.old }
        ensures content { OnOk result (IsJoined (has numbers.now) (content_of self.old) (content_of others) (content_of self.new)) }
        ensures typed { OnOk result (all_typed (message_stored others) ≡ true → StaysTyped self.old self.new) }
        ensures err { OnErr result (self.new ≡ self.old) }
    {
        let DynamicMessage { fields } = others;
        self.fields.replace(numbers, fields)
    }

    /// The value at the number, borrowed for writing, if there is one. Once the borrow ends, the message is as if the value
    /// that is left there had been set.
    pub(crate) fn value_mut(&mut self, number: u32) -> Option<&mut Value>
        ensures* writes_back { sem 𝓛 (LendsIf the_row value.the_row self.entry result (overwritten_at self.old number) self.old) }
        ensures stored { option_copied_mut result ≡ stored_at (stored_in self.old) number }
        ensures value { option_map value_of (option_copied_mut result) ≡ value_at number (entries_of (content_of self.old)) }
        ensures content { (v : Value)
            → IfSome result
            (λ _. content_of (overwritten_at self.old number v)
            ≡ value_set number (value_of v) (content_of self.old)) }
        ensures ascending { IsAscending (stored_in self.old) }
    {
        self.fields.get_mut(number)
    }

    /// The value at the number of a field or an extension, borrowed for writing; where there is none, it is first set to
    /// `default`. Once the borrow ends, the message is as if the value that is left there had been set. If out of memory,
    /// nothing changes.
    pub(crate) fn value_mut_or(
        &mut self,
        number: u32,
        default: Value,
    ) -> Result<&mut Value, AllocError>
        requires { is_known (known_of (message_type_of self.old)) number ≡ true }
        ensures* writes_back { sem 𝓛 (LendsIfOk the_row value.the_row self.entry result (written_at self.old number default) self.old) }
        ensures stored { IfOk result (λ lent. lent.now ≡ unwrap_or (stored_at (stored_in self.old) number) default) }
        ensures value { IfOk result
            (λ lent. value_of lent.now
            ≡ unwrap_or (value_at number (entries_of (content_of self.old))) (value_of default)) }
        ensures message_type { (v : Value) → message_type_of (written_at self.old number default v) ≡ message_type_of self.old }
        ensures content { (v : Value)
            → content_of (written_at self.old number default v) ≡ value_set number (value_of v) (content_of self.old) }
        ensures ascending { IsAscending (stored_in self.old) }
    {
        self.fields.get_mut_or(number, default)
    }
}
