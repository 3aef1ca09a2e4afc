//! Reading messages and groups (the encoding guide, "Submessages", "Groups" and "Last One Wins": the records of several
//! messages of one field are read as those of one message).

ghost use Rattle.std.specs.Prelude.{◌≡◌, ◌≢◌, ◌<◌, true, length, Some, None, IfOk, IfErr};
ghost use Rattle.prost_reflect_wire.specs.Content.{MessageValue, empty, schema_of, type_of, entries_of, value_at};
ghost use Rattle.prost_reflect_wire.specs.Typing.{WellStored};
ghost use Rattle.prost_reflect_wire.specs.Decoding.{GroupProgress, Step, StandsBehindKey, StandsInGroup};
ghost use Rattle.prost_reflect_fields.specs.Known.{known_of, oneof_of};
ghost use Rattle.prost_reflect_pool.specs.MessageTypes.{schema_at};
ghost use Rattle.prost_reflect_pool.specs.SharedPools.{pool_rows};
ghost use Rattle.prost_reflect_dynamic.specs.Nested.{NestedRead, StandsBehindNested, HeldMessage, ReadIntoHeld, StandsInHeld};
ghost use Rattle.prost_reflect_rows.specs.FieldKinds.{NestedField, nested_kind};
ghost use Rattle.prost_reflect_dynamic.specs.Variants.{message_in};
ghost use Rattle.prost_reflect_dynamic.specs.declared.value.Value.{out-Value};
ghost use Rattle.prost_reflect_dynamic.specs.View.{value_of, content_of, message_type_of};
ghost use Rattle.prost_reflect_dynamic.specs.Stored.{StoredInside, message_stored, value_stored};
ghost use Rattle.prost_reflect_dynamic.specs.TypedSteps.{typed_as, StaysTyped, ValueStaysTyped};

use crate::message::DynamicMessage;
use crate::value::Value;
use prost_reflect_pool::PooledType;
use prost_reflect_rows::bodies::check_nested;
use prost_reflect_rows::targets::MessageKind;
use prost_reflect_wire::{DecodeError, FieldNumber, WireType, decode_delimited, decode_key};
use std::alloc::{AllocError, Global};

impl DynamicMessage {
    /// Reads a message or a group behind its field's key into the message that is there, or into an empty one.
    #[cycle(reading)]
    pub(super) fn merge_message<'a>(
        &mut self,
        alloc: Global,
        number: FieldNumber,
        kind: MessageKind,
        oneof: Option<usize>,
        wire_type: WireType,
        bytes: &'a [u8],
        levels: u32,
    ) -> Result<&'a [u8], DecodeError>
        requires sound { WellStored (content_of self.old) }
        requires field { NestedField (message_type_of self.old) number.value kind.place kind.is_group }
        requires oneof { oneof ≡ oneof_of (known_of (message_type_of self.old)) number.value }
        ensures ok { IfOk result
            (λ rest. Step levels number.value wire_type (content_of self.old) (content_of self.new) bytes.now
            rest.now) }
        ensures message_type { message_type_of self.new ≡ message_type_of self.old }
        ensures typed { IfOk result (λ _. StaysTyped self.old self.new) }
        ensures fault { IfErr result
            (λ e. e ≢ DecodeError.OutOfMemory
            → StandsBehindKey (content_of self.old) levels number.value wire_type e bytes.now) }
    {
        match self.value_mut(number.get()) {
            Some(value) => DynamicMessage::merge_into(
                value,
                alloc,
                number,
                kind.is_group,
                wire_type,
                bytes,
                levels,
            ),
            None => self.merge_first(alloc, number, kind, oneof, wire_type, bytes, levels),
        }
    }

    /// Reads the message of a field that has none yet. It is stored once its records are read.
    #[cycle(reading)]
    fn merge_first<'a>(
        &mut self,
        alloc: Global,
        number: FieldNumber,
        kind: MessageKind,
        oneof: Option<usize>,
        wire_type: WireType,
        bytes: &'a [u8],
        levels: u32,
    ) -> Result<&'a [u8], DecodeError>
        requires sound { WellStored (content_of self.old) }
        requires field { NestedField (message_type_of self.old) number.value kind.place kind.is_group }
        requires oneof { oneof ≡ oneof_of (known_of (message_type_of self.old)) number.value }
        requires none { value_at number.value (entries_of (content_of self.old)) ≡ None }
        ensures ok { IfOk result
            (λ rest. Step levels number.value wire_type (content_of self.old) (content_of self.new) bytes.now
            rest.now) }
        ensures message_type { message_type_of self.new ≡ message_type_of self.old }
        ensures typed { IfOk result (λ _. StaysTyped self.old self.new) }
        ensures fault { IfErr result
            (λ e. e ≢ DecodeError.OutOfMemory
            → StandsBehindKey (content_of self.old) levels number.value wire_type e bytes.now) }
    {
        let mut first = empty_message(alloc, self.message_type(), kind.place)?;
        let rest = first.merge_nested(alloc, number, kind.is_group, wire_type, bytes, levels)?;
        self.set_member(number.get(), oneof, Value::Message(first))?;
        Ok(rest)
    }

    /// Reads what stands behind the key of a message or a group into the message that the value is.
    #[cycle(reading)]
    fn merge_into<'a>(
        value: &mut Value,
        alloc: Global,
        number: FieldNumber,
        is_group: bool,
        wire_type: WireType,
        bytes: &'a [u8],
        levels: u32,
    ) -> Result<&'a [u8], DecodeError>
        requires { HeldMessage (message_in (out-Value value.old)) }
        ensures ok { IfOk result
            (λ rest. ReadIntoHeld is_group levels number.value wire_type (message_in (out-Value value.old))
            (value_of value.new) bytes.now rest.now) }
        ensures typed { IfOk result (λ _. ValueStaysTyped value.old value.new) }
        ensures fault { IfErr result
            (λ e. e ≢ DecodeError.OutOfMemory
            → StandsInHeld is_group levels number.value wire_type (message_in (out-Value value.old)) e bytes.now) }
    {
        match value.as_message_mut() {
            Some(message) => {
                message.merge_nested(alloc, number, is_group, wire_type, bytes, levels)
            }
            None => unreachable!(),
        }
    }

    /// Reads what stands behind the key of a message or a group into this message, and gives the bytes behind it. A
    /// refusal leaves a part of it read.
    #[cycle(reading)]
    pub(super) fn merge_nested<'a>(
        &mut self,
        alloc: Global,
        number: FieldNumber,
        is_group: bool,
        wire_type: WireType,
        bytes: &'a [u8],
        levels: u32,
    ) -> Result<&'a [u8], DecodeError>
        requires sound { WellStored (content_of self.old) }
        ensures ok { IfOk result
            (λ rest. NestedRead is_group levels number.value wire_type (content_of self.old) (content_of self.new)
            bytes.now rest.now) }
        ensures message_type { message_type_of self.new ≡ message_type_of self.old }
        ensures typed { IfOk result (λ _. StaysTyped self.old self.new) }
        ensures fault { IfErr result
            (λ e. e ≢ DecodeError.OutOfMemory
            → StandsBehindNested (schema_of (content_of self.old)) levels number.value
            (nested_kind is_group (type_of (content_of self.old))) wire_type e bytes.now) }
    {
        check_nested(is_group, wire_type, levels)?;
        if is_group {
            return self.merge_to_end(alloc, number, bytes, levels - 1);
        }
        let (body, rest) = decode_delimited(bytes)?;
        self.merge_records(alloc, body, levels - 1)?;
        Ok(rest)
    }

    /// Reads the records of a group into the message, and gives the bytes behind the end key of its number. A refusal
    /// leaves a part of them read.
    #[cycle(reading)]
    fn merge_to_end<'a>(
        &mut self,
        alloc: Global,
        number: FieldNumber,
        bytes: &'a [u8],
        levels: u32,
    ) -> Result<&'a [u8], DecodeError>
        requires sound { WellStored (content_of self.old) }
        ensures ok { IfOk result
            (λ rest. GroupProgress levels number.value (content_of self.old) (content_of self.new) bytes.now rest.now) }
        ensures message_type { message_type_of self.new ≡ message_type_of self.old }
        ensures typed { IfOk result (λ _. StaysTyped self.old self.new) }
        ensures fault { IfErr result
            (λ e. e ≢ DecodeError.OutOfMemory → StandsInGroup (content_of self.old) levels number.value e bytes.now) }
    {
        let mut rest = bytes;
        loop {
            let (key, wire_type, after) = decode_key(rest)?;
            match wire_type {
                WireType::EndGroup if key.get() == number.get() => return Ok(after),
                WireType::EndGroup => return Err(DecodeError::EndGroup),
                _ => {}
            }
            rest = self.merge_record(alloc, key, wire_type, after, levels)?;
        }
    }
}

/// An empty message of the type at the place of a descriptor's pool.
pub(super) fn empty_message(
    alloc: Global,
    message_type: &PooledType,
    place: usize,
) -> Result<DynamicMessage, AllocError>
    requires { place < length (pool_rows message_type.now.pool).messages }
    ensures content { IfOk result (λ m. content_of m ≡ empty (schema_at message_type.now) place) }
    ensures typed { IfOk result (λ m. typed_as message_type.now (Some place) (StoredInside (message_stored m)) ≡ true) }
{
    Ok(DynamicMessage::of_type(alloc, message_type.at(place)?))
}
