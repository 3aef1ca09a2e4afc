//! Reading messages (the encoding guide, "Message Structure", "Last One Wins" and "Unknown Fields").

ghost use Rattle.std.specs.Prelude.{◌≡◌, ◌≢◌, ◌<◌, ◌^◌, true, [], length, Some, IfOk, IfErr};
ghost use Rattle.prost_reflect_wire.specs.Content.{schema_of, type_of};
ghost use Rattle.prost_reflect_wire.specs.Grammar.{LEVEL_LIMIT, Accepts};
ghost use Rattle.prost_reflect_wire.specs.Meaning.{decoded};
ghost use Rattle.prost_reflect_wire.specs.Writing.{encoded};
ghost use Rattle.prost_reflect_wire.specs.Typing.{kept, WellStored};
ghost use Rattle.prost_reflect_wire.specs.Fault.{StandsInMessage};
ghost use Rattle.prost_reflect_wire.specs.Decoding.{Progress, Step, StandsBehindKey};
ghost use Rattle.prost_reflect_dynamic.specs.Named.{IsNamed, schema_named, type_named};
ghost use Rattle.prost_reflect_fields.specs.Known.{known_of, oneof_of};
ghost use Rattle.prost_reflect_rows.specs.FieldKinds.{PlainField};
ghost use Rattle.prost_reflect_dynamic.specs.Scalars.{StaysUnknown};
ghost use Rattle.prost_reflect_dynamic.specs.View.{content_of, message_type_of};
ghost use Rattle.prost_reflect_dynamic.specs.ReadBack.{MeansSame};
ghost use Rattle.prost_reflect_dynamic.specs.DeepTypes.{all_typed};
ghost use Rattle.prost_reflect_dynamic.specs.Stored.{message_stored};
ghost use Rattle.prost_reflect_dynamic.specs.TypedSteps.{StaysTyped};

mod elements;
mod enum_list;
pub(crate) mod list;
pub(crate) mod map;
mod message_map;
pub(crate) mod nested;
pub(crate) mod scalar;

use crate::descriptor::MessageDescriptor;
use crate::message::DynamicMessage;
use crate::message::decode::scalar::scalar_at;
use crate::message::enums::is_stray;
use prost_reflect_rows::targets::{Target, target_at};
use prost_reflect_tables::TableKind;
use prost_reflect_wire::{
    DecodeError, FieldNumber, RECURSION_LIMIT, UnknownField, WireType, decode_key, decode_value,
};
use std::alloc::Global;

impl DynamicMessage {
    /// Reads a message of the type from the bytes, in at most 100 levels of messages and groups.
    ///
    /// A later scalar of a field replaces an earlier one, a later message or group is read into the earlier one, and the
    /// values of the other members of its oneof go. The elements of a list's records stand one behind another, packed or
    /// not, and an entry of a map takes the place of one whose key is equal. Records of numbers that the type lacks become
    /// unknown fields, in their order, and so do the numbers that a closed enum does not declare (the encoding guide, "Last
    /// One Wins", "Oneofs", "Packed Repeated Fields" and "Maps"; the language guide, "Unknown Fields"; the page "Enum
    /// Behavior").
    ///
    /// No bytes are the message that stores nothing.
    ///
    /// The values of the message fit their fields, and the messages inside are of their fields' types, as `is_encodable` and
    /// `is_typed` tell; so it may be encoded, and bytes may be merged into it.
    ///
    /// ```
    /// // Whether the message that the bytes mean has a value of the field of the number 5.
    /// fn has_five(alloc: Global, message_type: MessageDescriptor, bytes: &[u8]) -> Result<bool, DecodeError> {
    ///     let message = DynamicMessage::decode(alloc, message_type, bytes)?;
    ///     Ok(message.has_field_by_number(5))
    /// }
    /// ```
    ///
    /// # Errors
    ///
    /// A fault that the bytes have (`Truncated`, `Varint`, `Key`, `WireType`, `EndGroup`, `Utf8` or `Depth`), and only if
    /// the type does not accept them; `OutOfMemory` if memory runs out.
    pub fn decode(
        alloc: Global,
        descriptor: MessageDescriptor,
        bytes: &[u8],
    ) -> Result<DynamicMessage, DecodeError>
        ensures message_type { IfOk result (λ message. IsNamed descriptor (message_type_of message)) }
        ensures means { IfOk result
            (λ message. decoded (schema_named descriptor) LEVEL_LIMIT (type_named descriptor) bytes.now
            ≡ Some (kept (content_of message))) }
        ensures sound { IfOk result (λ message. WellStored (content_of message)) }
        ensures typed { IfOk result (λ message. all_typed (message_stored message) ≡ true) }
        ensures again { IfOk result
            (λ message. length (encoded (kept (content_of message))) < 2 ^ 64
            → MeansSame (schema_named descriptor) (type_named descriptor) bytes.now
            (encoded (kept (content_of message)))) }
        ensures accepts { IfOk result (λ _. Accepts (schema_named descriptor) LEVEL_LIMIT (type_named descriptor) bytes.now) }
        ensures fault { IfErr result
            (λ e. e ≢ DecodeError.OutOfMemory
            → StandsInMessage (schema_named descriptor) (type_named descriptor) LEVEL_LIMIT e bytes.now) }
        ensures accepted { IfErr result
            (λ e. Accepts (schema_named descriptor) LEVEL_LIMIT (type_named descriptor) bytes.now
            → e ≡ DecodeError.OutOfMemory) }
    {
        let mut message = DynamicMessage::new(alloc, descriptor);
        message.merge_records(alloc, bytes, RECURSION_LIMIT)?;
        Ok(message)
    }

    /// Reads the records of the bytes into the message. A refusal leaves a part of them read.
    #[cycle(reading)]
    pub(super) fn merge_records(
        &mut self,
        alloc: Global,
        bytes: &[u8],
        levels: u32,
    ) -> Result<(), DecodeError>
        requires sound { WellStored (content_of self.old) }
        ensures ok { IfOk result (λ _. Progress levels (content_of self.old) (content_of self.new) bytes.now []) }
        ensures message_type { message_type_of self.new ≡ message_type_of self.old }
        ensures typed { IfOk result (λ _. StaysTyped self.old self.new) }
        ensures fault { IfErr result
            (λ e. e ≢ DecodeError.OutOfMemory
            → StandsInMessage (schema_of (content_of self.old)) (type_of (content_of self.old)) levels e
            bytes.now) }
    {
        let mut rest = bytes;
        while !rest.is_empty() {
            let (number, wire_type, after) = decode_key(rest)?;
            rest = self.merge_record(alloc, number, wire_type, after, levels)?;
        }
        Ok(())
    }

    /// Reads the record behind a key into the message, and gives the bytes behind it. A refusal leaves a part of a nested
    /// message read.
    #[cycle(reading)]
    pub(super) fn merge_record<'a>(
        &mut self,
        alloc: Global,
        number: FieldNumber,
        wire_type: WireType,
        bytes: &'a [u8],
        levels: u32,
    ) -> Result<&'a [u8], DecodeError>
        requires sound { WellStored (content_of self.old) }
        ensures ok { IfOk result
            (λ rest. Step levels number.value wire_type (content_of self.old) (content_of self.new) bytes.now
            rest.now) }
        ensures message_type { message_type_of self.new ≡ message_type_of self.old }
        ensures typed { IfOk result (λ _. StaysTyped self.old self.new) }
        ensures fault { IfErr result
            (λ e. e ≢ DecodeError.OutOfMemory
            → StandsBehindKey (content_of self.old) levels number.value wire_type e bytes.now) }
    {
        match target_at(self.message_type(), number.get()) {
            Target::Scalar(kind, oneof) => {
                self.merge_scalar(alloc, number, kind, oneof, wire_type, bytes, levels)
            }
            Target::List(kind) => self.merge_list(alloc, number, kind, wire_type, bytes, levels),
            Target::Numbers(kind) => {
                self.merge_numbers(alloc, number, kind, wire_type, bytes, levels)
            }
            Target::Map(key, kind) => {
                self.merge_map(alloc, number, (key, kind), wire_type, bytes, levels)
            }
            Target::Message(kind, oneof) => {
                self.merge_message(alloc, number, kind, oneof, wire_type, bytes, levels)
            }
            Target::Element(kind) => {
                self.merge_element(alloc, number, kind, wire_type, bytes, levels)
            }
            Target::MessageEntry(key, place) => {
                self.merge_entry(alloc, number, key, place, wire_type, bytes, levels)
            }
            Target::Unknown => self.merge_unknown(alloc, number, wire_type, bytes, levels),
        }
    }

    /// Reads a scalar behind its field's key, which replaces the value that is there. A number that a closed enum does not
    /// declare becomes an unknown field instead, with all of its bits.
    fn merge_scalar<'a>(
        &mut self,
        alloc: Global,
        number: FieldNumber,
        kind: TableKind,
        oneof: Option<usize>,
        wire_type: WireType,
        bytes: &'a [u8],
        levels: u32,
    ) -> Result<&'a [u8], DecodeError>
        requires sound { WellStored (content_of self.old) }
        requires field { PlainField (message_type_of self.old) number.value kind }
        requires oneof { oneof ≡ oneof_of (known_of (message_type_of self.old)) number.value }
        ensures ok { IfOk result
            (λ rest. Step levels number.value wire_type (content_of self.old) (content_of self.new) bytes.now
            rest.now) }
        ensures message_type { message_type_of self.new ≡ message_type_of self.old }
        ensures typed { IfOk result (λ _. StaysTyped self.old self.new) }
        ensures fault { IfErr result
            (λ e. e ≢ DecodeError.OutOfMemory
            → StandsBehindKey (content_of self.old) levels number.value wire_type e bytes.now) }
    {
        let (value, rest) = scalar_at(alloc, kind, wire_type, bytes)?;
        if is_stray(self.message_type(), kind, &value) {
            return self.merge_unknown(alloc, number, wire_type, bytes, levels);
        }
        self.set_member(number.get(), oneof, value)?;
        Ok(rest)
    }

    /// Reads a record that stays unknown behind its key, and adds it behind those of its number.
    pub(super) fn merge_unknown<'a>(
        &mut self,
        alloc: Global,
        number: FieldNumber,
        wire_type: WireType,
        bytes: &'a [u8],
        levels: u32,
    ) -> Result<&'a [u8], DecodeError>
        requires sound { WellStored (content_of self.old) }
        requires unknown { StaysUnknown (known_of (message_type_of self.old)) levels number.value wire_type bytes.now }
        ensures ok { IfOk result
            (λ rest. Step levels number.value wire_type (content_of self.old) (content_of self.new) bytes.now
            rest.now) }
        ensures message_type { message_type_of self.new ≡ message_type_of self.old }
        ensures typed { IfOk result (λ _. StaysTyped self.old self.new) }
        ensures fault { IfErr result
            (λ e. e ≢ DecodeError.OutOfMemory
            → StandsBehindKey (content_of self.old) levels number.value wire_type e bytes.now) }
    {
        let (value, rest) = decode_value(alloc, number, wire_type, bytes, levels)?;
        self.add_unknown(number.get(), UnknownField::new(number, value))?;
        Ok(rest)
    }
}
