//! What a message has, one number after another: the values of its fields and extensions, and its unknown fields.

ghost use Rattle.std.specs.Prelude.{◌≡◌, []};
ghost use Rattle.prost_reflect_fields.specs.FieldSlots.{unknown_in};
ghost use Rattle.prost_reflect_fields.specs.Known.{known_of};
ghost use Rattle.prost_reflect_walks.specs.Places.{GivesNext};
ghost use Rattle.prost_reflect_dynamic.specs.PresentWalks.{present_items, present_left, present_steps, value_items, unknown_items, waiting_items, IsItem, IsOwn, NestsInside};
ghost use Rattle.prost_reflect_dynamic.specs.View.{message_type_of};
ghost use Rattle.prost_reflect_walks.specs.Walks.{EachGiven};

use crate::descriptor::{ExtensionDescriptor, FieldDescriptor};
use crate::message::DynamicMessage;
use crate::message::lists::descriptors::{extension_at, field_at};
use crate::message::lists::had::had_in;
use crate::value::Value;
use prost_reflect_fields::slot::FieldSlot;
use prost_reflect_maps::sorted_map::Items;
use prost_reflect_pool::PooledType;
use prost_reflect_wire::UnknownFieldSet;
use std::alloc::AllocError;

/// What a message has at a number.
#[derive(Drop)]
pub enum Present<'a> {
    /// The value of a field.
    Field(FieldDescriptor, &'a Value),
    /// The value of an extension.
    Extension(ExtensionDescriptor, &'a Value),
    /// The unknown fields of the number, one at least.
    Unknown(u32, &'a UnknownFieldSet),
}

/// What a message has, in ascending number: the values of its fields and extensions, and its unknown fields. A field or an
/// extension shares the pool once more; if out of memory, the answer for it is `AllocError`, and the next call goes on behind
/// it.
#[derive(Drop)]
pub struct PresentItems<'a> {
    pub(crate) message_type: &'a PooledType,
    pub(crate) unknown: Option<(u32, &'a UnknownFieldSet)>,
    pub(crate) slots: Items<'a, FieldSlot<Value>>,
}

impl<'a> Iterator for PresentItems<'a> {
    type Item = Result<Present<'a>, AllocError>;

    ghost use Rattle.std.specs.Prelude.{◌≡◌, length};
    ghost use Rattle.std.specs.Iterator.{at_most};
    ghost use Rattle.prost_reflect_dynamic.specs.PresentWalks.{present_left, present_steps};

    ghost next_gives = { present_steps };

    ghost remaining = { λ it. at_most (length (present_left it)) };

    fn next(&mut self) -> Option<Result<Present<'a>, AllocError>> {
        while self.unknown.is_none() {
            let slot = self.slots.next()?;
            self.unknown = unknown_of(slot.0, &slot.1);
            if let Some(present) = value_of(self.message_type, slot.0, &slot.1) {
                return Some(present);
            }
        }
        let (number, unknown) = self.unknown.take()?;
        Some(Ok(Present::Unknown(number, unknown)))
    }
}

/// The value of a slot with its field or its extension, if the message has it.
fn value_of<'a>(
    message_type: &PooledType,
    number: u32,
    slot: &'a FieldSlot<Value>,
) -> Option<Result<Present<'a>, AllocError>>
    ensures { GivesNext (IsItem message_type.now) (value_items (known_of message_type.now) number slot.now) result [] }
{
    if let Some(value) = had_in(message_type, false, number, slot) {
        return Some(match field_at(message_type, number) {
            Ok(field) => Ok(Present::Field(field, value)),
            Err(refused) => Err(refused),
        });
    }
    let value = had_in(message_type, true, number, slot)?;
    Some(match extension_at(message_type, number) {
        Ok(extension) => Ok(Present::Extension(extension, value)),
        Err(refused) => Err(refused),
    })
}

/// The unknown fields of a slot with their number, if there are some.
fn unknown_of(number: u32, slot: &FieldSlot<Value>) -> Option<(u32, &UnknownFieldSet)>
    ensures { waiting_items result ≡ unknown_items number (unknown_in slot.now) }
{
    match slot.unknown() {
        Some(unknown) => Some((number, unknown)),
        None => None,
    }
}

impl DynamicMessage {
    /// What the message has, in ascending number, borrowed: the values of its fields and extensions, and its unknown fields. Of
    /// one number the value comes first, and behind it the numbers that its closed enum does not declare. The default of a
    /// field without presence is no value, nor is an empty list or an empty map. Each value nests less deep than the message,
    /// so a recursion over the messages inside it is proved to end. A message that has nothing gives nothing.
    ///
    /// ```
    /// // The numbers of all that the message has, each on a line.
    /// fn numbers(alloc: Global, message: &DynamicMessage) -> Result<String, AllocError> {
    ///     let mut lines = String::new(alloc);
    ///     for item in message.present() {
    ///         let number = match item? {
    ///             Present::Field(field, _) => field.number(),
    ///             Present::Extension(extension, _) => extension.number(),
    ///             Present::Unknown(number, _) => number,
    ///         };
    ///         write!(lines, "{number}\n")?;
    ///     }
    ///     Ok(lines)
    /// }
    /// ```
    pub fn present(&self) -> PresentItems<'_>
        ensures left { present_left result ≡ present_items self.now }
        ensures inside { EachGiven present_steps (NestsInside self.now) result }
        ensures own { EachGiven present_steps (IsOwn (message_type_of self.now)) result }
        ensures message_type { result.message_type.now ≡ message_type_of self.now }
    {
        PresentItems {
            message_type: self.message_type(),
            unknown: None,
            slots: self.slots(),
        }
    }
}
