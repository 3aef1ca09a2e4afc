//! The fields and the extensions that a message has, one after another, with their values.

ghost use Rattle.std.specs.Prelude.{◌≡◌, true, false, IfSome};
ghost use Rattle.std.specs.Option.{option_copied};
ghost use Rattle.std.specs.Iterator.{YieldsFirstBy};
ghost use Rattle.prost_reflect_maps.specs.Items.{IsAscending};
ghost use Rattle.prost_reflect_fields.specs.Known.{known_of, is_listed};
ghost use Rattle.prost_reflect_dynamic.specs.ValueLists.{had_in, had_pairs, values_left, fields_left, extensions_left, fields_steps, extensions_steps};
ghost use Rattle.prost_reflect_dynamic.specs.Access.{IsOwnField, number_of};
ghost use Rattle.prost_reflect_dynamic.specs.Depths.{GivesInside};
ghost use Rattle.prost_reflect_dynamic.specs.Edits.{IsPart};
ghost use Rattle.prost_reflect_dynamic.specs.ExtensionAccess.{IsOwnExtension, extension_number};
ghost use Rattle.prost_reflect_dynamic.specs.View.{message_type_of, stored_in};
ghost use Rattle.prost_reflect_walks.specs.Walks.{EachGiven};

use crate::descriptor::{ExtensionDescriptor, FieldDescriptor};
use crate::message::DynamicMessage;
use crate::message::defaults::is_field_default;
use crate::message::lists::descriptors::{extension_at, field_at};
use crate::value::Value;
use prost_reflect_fields::slot::FieldSlot;
use prost_reflect_maps::sorted_map::Items;
use prost_reflect_pool::PooledType;
use std::alloc::AllocError;

/// The slots of a message that were not looked at yet.
#[derive(Drop)]
pub struct HadValues<'a> {
    pub(crate) message_type: &'a PooledType,
    pub(crate) slots: Items<'a, FieldSlot<Value>>,
}

impl<'a> HadValues<'a> {
    /// The next value of a field, or of an extension, that the message has, with its number.
    pub(super) fn next_had(&mut self, of_extensions: bool) -> Option<(u32, &'a Value)>
        ensures left { YieldsFirstBy (λ p. (p.0, p.1.now)) (values_left of_extensions) self.old result self.new }
        ensures listed { IfSome result (λ p. is_listed of_extensions (known_of self.old.message_type.now) p.0 ≡ true) }
        ensures message_type { self.new.message_type ≡ self.old.message_type }
    {
        while let Some(slot) = self.slots.next() {
            if let Some(value) = had_in(self.message_type, of_extensions, slot.0, &slot.1) {
                return Some((slot.0, value));
            }
        }
        None
    }
}

/// The value of a slot, if it is that of a field, or of an extension, and the message has it.
pub(super) fn had_in<'a>(
    message_type: &PooledType,
    of_extensions: bool,
    number: u32,
    slot: &'a FieldSlot<Value>,
) -> Option<&'a Value>
    ensures value { option_copied result ≡ had_in of_extensions (known_of message_type.now) number slot.now }
    ensures listed { IfSome result (λ v. is_listed of_extensions (known_of message_type.now) number ≡ true) }
{
    let value = slot.value()?;
    match message_type.field_table(number) {
        Some(field) if of_extensions == field.is_extension => {
            if is_field_default(message_type, field, value) {
                None
            } else {
                Some(value)
            }
        }
        _ => None,
    }
}

/// The fields that a message has, in ascending number, each with its value. A field shares the pool once more; if out of
/// memory, the answer for it is `AllocError`, and the next call goes on with the next field.
///
/// ```
/// // Whether the message has a value of a field of the name.
/// fn has_named(message: &DynamicMessage, name: &str) -> Result<bool, AllocError> {
///     for item in message.fields() {
///         let (field, _) = item?;
///         if field.name() == name {
///             return Ok(true);
///         }
///     }
///     Ok(false)
/// }
/// ```
#[derive(Drop)]
pub struct Fields<'a> {
    pub(crate) values: HadValues<'a>,
}

impl<'a> Iterator for Fields<'a> {
    type Item = Result<(FieldDescriptor, &'a Value), AllocError>;

    ghost use Rattle.std.specs.Prelude.{◌≡◌, length};
    ghost use Rattle.std.specs.Iterator.{at_most};
    ghost use Rattle.prost_reflect_dynamic.specs.ValueLists.{fields_left, fields_steps};

    ghost next_gives = { fields_steps };

    ghost remaining = { λ it. at_most (length (fields_left it)) };

    fn next(&mut self) -> Option<Result<(FieldDescriptor, &'a Value), AllocError>> {
        match self.values.next_had(false) {
            Some((number, value)) => match field_at(self.values.message_type, number) {
                Ok(field) => Some(Ok((field, value))),
                Err(refused) => Some(Err(refused)),
            },
            None => None,
        }
    }
}

/// The extensions that a message has, in ascending number, each with its value. An extension shares the pool once more; if
/// out of memory, the answer for it is `AllocError`, and the next call goes on with the next extension.
///
/// ```
/// // Whether the message has a value of an extension of the full name.
/// fn has_extension_named(message: &DynamicMessage, name: &str) -> Result<bool, AllocError> {
///     for item in message.extensions() {
///         let (extension, _) = item?;
///         if extension.full_name() == name {
///             return Ok(true);
///         }
///     }
///     Ok(false)
/// }
/// ```
#[derive(Drop)]
pub struct Extensions<'a> {
    pub(crate) values: HadValues<'a>,
}

impl<'a> Iterator for Extensions<'a> {
    type Item = Result<(ExtensionDescriptor, &'a Value), AllocError>;

    ghost use Rattle.std.specs.Prelude.{◌≡◌, length};
    ghost use Rattle.std.specs.Iterator.{at_most};
    ghost use Rattle.prost_reflect_dynamic.specs.ValueLists.{extensions_left, extensions_steps};

    ghost next_gives = { extensions_steps };

    ghost remaining = { λ it. at_most (length (extensions_left it)) };

    fn next(&mut self) -> Option<Result<(ExtensionDescriptor, &'a Value), AllocError>> {
        match self.values.next_had(true) {
            Some((number, value)) => match extension_at(self.values.message_type, number) {
                Ok(extension) => Some(Ok((extension, value))),
                Err(refused) => Some(Err(refused)),
            },
            None => None,
        }
    }
}

impl DynamicMessage {
    /// The fields that the message has, in ascending number, each with its value, borrowed. The default of a field without
    /// presence is no value, nor is an empty list or an empty map. Each value nests less deep than the message, so a
    /// recursion over the messages inside it is proved to end.
    pub fn fields(&self) -> Fields<'_>
        ensures left { fields_left result ≡ had_pairs false self.now }
        ensures inside { GivesInside fields_steps self.now result }
        ensures parts { EachGiven fields_steps (λ pair. IsPart self.now (number_of pair.0) pair.1.now) result }
        ensures own { EachGiven fields_steps (λ pair. IsOwnField (message_type_of self.now) pair.0) result }
        ensures message_type { result.values.message_type.now ≡ message_type_of self.now }
    {
        Fields {
            values: self.had_values(),
        }
    }

    /// The extensions that the message has, in ascending number, each with its value, borrowed. An empty list or an empty
    /// map is no value.
    pub fn extensions(&self) -> Extensions<'_>
        ensures left { extensions_left result ≡ had_pairs true self.now }
        ensures inside { GivesInside extensions_steps self.now result }
        ensures parts { EachGiven extensions_steps (λ pair. IsPart self.now (extension_number pair.0) pair.1.now) result }
        ensures own { EachGiven extensions_steps (λ pair. IsOwnExtension (message_type_of self.now) pair.0) result }
        ensures message_type { result.values.message_type.now ≡ message_type_of self.now }
    {
        Extensions {
            values: self.had_values(),
        }
    }

    /// All slots of the message.
    pub(super) fn had_values(&self) -> HadValues<'_>
        ensures of_fields { values_left false result ≡ had_pairs false self.now }
        ensures of_extensions { values_left true result ≡ had_pairs true self.now }
        ensures ascending { IsAscending (stored_in self.now) }
        ensures message_type { result.message_type.now ≡ message_type_of self.now }
    {
        HadValues {
            message_type: self.message_type(),
            slots: self.slots(),
        }
    }
}
