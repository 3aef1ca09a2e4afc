//! Maps whose values are messages (the encoding guide, "Maps" and "Submessages").

ghost use Rattle.std.specs.Prelude.{◌≡◌, ◌≢◌, ◌≤◌, ◌-◌, [], IsSome, IfOk, IfErr};
ghost use Rattle.prost_reflect_wire.specs.Content.{empty, schema_of, type_of};
ghost use Rattle.prost_reflect_wire.specs.Typing.{WellStored};
ghost use Rattle.prost_reflect_wire.specs.Decoding.{Step, StandsBehindKey};
ghost use Rattle.prost_reflect_rows.specs.FieldKinds.{NestedMap};
ghost use Rattle.prost_reflect_dynamic.specs.NestedMaps.{ReadsNestedEntry, RefusesNestedEntry};
ghost use Rattle.prost_reflect_dynamic.specs.Scalars.{plain_kind};
ghost use Rattle.prost_reflect_dynamic.specs.View.{content_of, message_type_of};
ghost use Rattle.prost_reflect_dynamic.specs.TypedSteps.{StaysTyped};

use crate::message::DynamicMessage;
use crate::message::decode::map::{default_of, map_key};
use crate::message::decode::nested::empty_message;
use crate::message::decode::scalar::scalar_at;
use crate::value::Value;
use prost_reflect_rows::bodies::entry_body;
use prost_reflect_tables::TableKind;
use prost_reflect_wire::{DecodeError, FieldNumber, WireType, decode_key, skip_value};
use std::alloc::Global;

impl DynamicMessage {
    /// Reads an entry behind the key of a map field, and puts it into the map. Its value takes a level, whether one is
    /// written or not. A refusal may leave an empty map where there was none.
    #[cycle(reading)]
    pub(super) fn merge_entry<'a>(
        &mut self,
        alloc: Global,
        number: FieldNumber,
        key: TableKind,
        place: usize,
        wire_type: WireType,
        bytes: &'a [u8],
        levels: u32,
    ) -> Result<&'a [u8], DecodeError>
        requires sound { WellStored (content_of self.old) }
        requires field { NestedMap (message_type_of self.old) number.value key place }
        ensures ok { IfOk result
            (λ rest. Step levels number.value wire_type (content_of self.old) (content_of self.new) bytes.now
            rest.now) }
        ensures message_type { message_type_of self.new ≡ message_type_of self.old }
        ensures typed { IfOk result (λ _. StaysTyped self.old self.new) }
        ensures fault { IfErr result
            (λ e. e ≢ DecodeError.OutOfMemory
            → StandsBehindKey (content_of self.old) levels number.value wire_type e bytes.now) }
    {
        let (body, rest) = entry_body(wire_type, bytes)?;
        if levels == 0 {
            return Err(DecodeError::Depth);
        }
        let mut value = empty_message(alloc, self.message_type(), place)?;
        let read = value.merge_entry_body(alloc, key, body, levels)?;
        self.put_entry(alloc, number.get(), map_key(read), Value::Message(value))?;
        Ok(rest)
    }

    /// Reads the body of an entry: the records of its value, one behind another, into this empty message, and the last of
    /// its key, which it gives.
    #[cycle(reading)]
    fn merge_entry_body(
        &mut self,
        alloc: Global,
        key_kind: TableKind,
        body: &[u8],
        levels: u32,
    ) -> Result<Value, DecodeError>
        requires empty { content_of self.old ≡ empty (schema_of (content_of self.old)) (type_of (content_of self.old)) }
        requires key { IsSome (plain_kind key_kind) }
        requires some { 1 ≤ levels }
        ensures ok { IfOk result
            (λ key. ReadsNestedEntry (levels - 1) key_kind key (content_of self.old) (content_of self.new) body.now
            []) }
        ensures message_type { message_type_of self.new ≡ message_type_of self.old }
        ensures typed { IfOk result (λ _. StaysTyped self.old self.new) }
        ensures fault { IfErr result
            (λ e. e ≢ DecodeError.OutOfMemory
            → RefusesNestedEntry (schema_of (content_of self.old)) levels (type_of (content_of self.old)) key_kind e
            body.now) }
    {
        let mut key = default_of(alloc, key_kind);
        let mut rest = body;
        while !rest.is_empty() {
            let (number, wire_type, after) = decode_key(rest)?;
            if number.get() == 1 {
                let (read, end) = scalar_at(alloc, key_kind, wire_type, after)?;
                key = read;
                rest = end;
            } else if number.get() == 2 {
                rest = self.merge_nested(alloc, number, false, wire_type, after, levels)?;
            } else {
                rest = skip_value(number, wire_type, after, levels)?;
            }
        }
        Ok(key)
    }
}
