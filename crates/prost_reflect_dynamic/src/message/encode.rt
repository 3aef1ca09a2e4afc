//! Writing messages, the last byte first, so that a length is written once what it counts is there.

ghost use Rattle.std.specs.Option.{SomeIff};
ghost use Rattle.std.specs.Prelude.{◌≡◌, ◌≤◌, ◌<◌, ◌^◌, ◌++◌, true, Some, None, length, IfOk, IfErr, OnOk, OnErr};
ghost use Rattle.prost_reflect_wire.specs.Schema.{field_of};
ghost use Rattle.prost_reflect_wire.specs.Writing.{encoded};
ghost use Rattle.prost_reflect_wire.specs.Typing.{kept, encodable, WellStored};
ghost use Rattle.prost_reflect_wire.specs.Storing.{value_bytes};
ghost use Rattle.prost_reflect_wire.specs.Sinks.{Adds};
ghost use Rattle.prost_reflect_tables.specs.Rows.{field_row};
ghost use Rattle.prost_reflect_tables.specs.Shown.{schema_field};
ghost use Rattle.prost_reflect_tables.specs.Linking.{is_repeated};
ghost use Rattle.prost_reflect_dynamic.specs.Lists.{IsList, ElementWritable, AreElements, elements_bytes};
ghost use Rattle.prost_reflect_pool.specs.MapParts.{map_parts};
ghost use Rattle.prost_reflect_dynamic.specs.Encoding.{unknown_bytes, nested_bytes, ValueWritable, OwnUnknown};
ghost use Rattle.prost_reflect_pool.specs.SharedPools.{pool_rows};
ghost use Rattle.prost_reflect_fields.specs.Known.{known_of};
ghost use Rattle.prost_reflect_rows.specs.FieldKinds.{NestedMapOfRows};
ghost use Rattle.prost_reflect_dynamic.specs.NestedMaps.{AreEntries, nested_entry_bytes, nested_pairs_bytes};
ghost use Rattle.prost_reflect_wire.specs.Content.{ScalarValue};
ghost use Rattle.prost_reflect_dynamic.specs.View.{key_of, value_of, content_of, slot_of};
ghost use Rattle.prost_reflect_rows.specs.Scalars.{TakesScalar};
ghost use Rattle.prost_reflect_dynamic.specs.ReadBack.{ReadsBack, IsOnlyOf};

mod list;
mod map;

use crate::message::DynamicMessage;
use crate::message::encode::list::write_list;
use crate::message::encode::map::write_map;
use crate::value::{MapKey, Value};
use prost_reflect_fields::slot::FieldSlot;
use prost_reflect_pool::PooledType;
use prost_reflect_rows::writing::write_kept_scalar;
use prost_reflect_tables::{FieldTable, TableKind};
use prost_reflect_wire::{
    ByteSink, EncodeError, LengthSink, Sink, WireType, write_fields, write_key,
};
use std::alloc::Global;
use std::collections::BTreeMap;

/// Adds the record of a message in front, or of a group.
#[cycle(writing)]
fn write_message<S: Sink>(sink: &mut S, number: u32, is_group: bool, message: &DynamicMessage)
    requires encodable { encodable (content_of message.now) ≡ true }
    ensures { Adds S.added sink.old sink.new (nested_bytes number is_group (content_of message.now)) }
{
    if is_group {
        write_key(sink, number, WireType::EndGroup);
        write_body(sink, message);
        write_key(sink, number, WireType::StartGroup);
        return;
    }
    let before = sink.len();
    write_body(sink, message);
    sink.prepend_len_since(before);
    write_key(sink, number, WireType::LengthDelimited);
}

/// Adds what is written of a message in front: at each number what is kept of the value, and then the unknown fields.
#[cycle(writing)]
fn write_body<S: Sink>(sink: &mut S, message: &DynamicMessage)
    requires encodable { encodable (content_of message.now) ≡ true }
    ensures { Adds S.added sink.old sink.new (encoded (kept (content_of message.now))) }
{
    for entry in message.fields.slots_back() {
        write_unknown(sink, entry.0, &entry.1);
        match &entry.1 {
            FieldSlot::Value(value) | FieldSlot::Both(value, _) => {
                write_value(sink, message.fields.message_type(), entry.0, value);
            }
            FieldSlot::Unknown(_) => {}
        }
    }
}

/// Adds the unknown fields at a number in front.
fn write_unknown<S: Sink>(sink: &mut S, number: u32, entry: &FieldSlot<Value>)
    requires { OwnUnknown number entry.now }
    ensures { Adds S.added sink.old sink.new (unknown_bytes number (slot_of value_of entry.now)) }
{
    if let Some(unknown) = entry.unknown() {
        write_fields(sink, unknown);
    }
}

/// Adds what is kept of a field's value in front.
#[cycle(writing)]
fn write_value<S: Sink>(sink: &mut S, message_type: &PooledType, number: u32, value: &Value)
    requires writable { ValueWritable (known_of message_type.now) number (value_of value.now) }
    ensures { Adds S.added sink.old sink.new (value_bytes (known_of message_type.now) number (value_of value.now)) }
{
    match message_type.field_table(number) {
        Some(field) if field.cardinality.is_repeated() => {
            write_repeated(sink, message_type, number, field, value);
        }
        Some(field) => match value {
            Value::Message(message) => write_message(sink, number, field.is_group, message),
            _ => write_kept_scalar(sink, message_type, number, field, value.scalar()),
        },
        None => unreachable!(),
    }
}

/// Adds what is kept of the list or the map of a repeated field in front.
#[cycle(writing)]
fn write_repeated<S: Sink>(
    sink: &mut S,
    message_type: &PooledType,
    number: u32,
    field: &FieldTable,
    value: &Value,
)
    requires field { Some (schema_field (pool_rows message_type.now.pool) (field_row field.now))
        ≡ field_of (known_of message_type.now) number }
    requires repeated { is_repeated (field_row field.now).cardinality ≡ true }
    requires writable { ValueWritable (known_of message_type.now) number (value_of value.now) }
    ensures { Adds S.added sink.old sink.new (value_bytes (known_of message_type.now) number (value_of value.now)) }
{
    match message_type.map_parts(field) {
        Some((key, element)) => match element.kind {
            TableKind::Message(_) => {
                write_nested_map(sink, message_type, number, key, element, value);
            }
            _ => write_map(sink, message_type, number, key, element, value),
        },
        None => write_elements(sink, message_type, number, field, value),
    }
}

/// Adds what is kept of the list of a field that is no map in front.
#[cycle(writing)]
fn write_elements<S: Sink>(
    sink: &mut S,
    message_type: &PooledType,
    number: u32,
    field: &FieldTable,
    value: &Value,
)
    requires field { Some (schema_field (pool_rows message_type.now.pool) (field_row field.now))
        ≡ field_of (known_of message_type.now) number }
    requires repeated { is_repeated (field_row field.now).cardinality ≡ true }
    requires no_map { None ≡ map_parts (pool_rows message_type.now.pool) (field_row field.now) }
    requires writable { ValueWritable (known_of message_type.now) number (value_of value.now) }
    requires list { IsList (value_of value.now) }
    ensures { Adds S.added sink.old sink.new (value_bytes (known_of message_type.now) number (value_of value.now)) }
{
    match value {
        Value::List(values) => match field.kind {
            TableKind::Message(_) => write_messages(sink, number, field.is_group, values),
            _ => write_list(sink, number, field, values),
        },
        _ => unreachable!(),
    }
}

/// Adds the records of messages, or of groups, in front, one for each.
#[cycle(writing)]
fn write_messages<S: Sink>(sink: &mut S, number: u32, is_group: bool, values: &Vec<Value>)
    requires { AreElements values.now.items }
    ensures { Adds S.added sink.old sink.new (elements_bytes number is_group values.now.items) }
{
    for index in (0..values.len()).rev() {
        match &values[index] {
            Value::Message(message) => write_message(sink, number, is_group, message),
            _ => unreachable!(),
        }
    }
}

/// Adds what is kept of the map of a field in front, whose keys have this row and whose values are messages.
#[cycle(writing)]
fn write_nested_map<S: Sink>(
    sink: &mut S,
    message_type: &PooledType,
    number: u32,
    key_field: &FieldTable,
    value_field: &FieldTable,
    value: &Value,
)
    requires rows { NestedMapOfRows message_type.now number (field_row key_field.now) (field_row value_field.now) }
    requires writable { ValueWritable (known_of message_type.now) number (value_of value.now) }
    ensures { Adds S.added sink.old sink.new (value_bytes (known_of message_type.now) number (value_of value.now)) }
{
    match value {
        Value::Map(pairs) => write_entries(sink, message_type, number, key_field, pairs),
        _ => unreachable!(),
    }
}

/// Adds the records of entries in front, in ascending order of their keys.
#[cycle(writing)]
fn write_entries<S: Sink>(
    sink: &mut S,
    message_type: &PooledType,
    number: u32,
    key_field: &FieldTable,
    pairs: &BTreeMap<MapKey, Value>,
)
    requires { AreEntries (field_row key_field.now).kind pairs.now.entries }
    ensures { Adds S.added sink.old sink.new
        (nested_pairs_bytes number (pool_rows message_type.now.pool).enums (field_row key_field.now)
        pairs.now.entries) }
{
    for (key, value) in pairs.iter().rev() {
        write_entry(sink, message_type, number, key_field, key, value);
    }
}

/// Adds the record of an entry in front.
#[cycle(writing)]
fn write_entry<S: Sink>(
    sink: &mut S,
    message_type: &PooledType,
    number: u32,
    key_field: &FieldTable,
    key: &MapKey,
    value: &Value,
)
    requires key { TakesScalar (field_row key_field.now).kind (ScalarValue (key_of key.now)) }
    requires message { ElementWritable (value_of value.now) }
    ensures { Adds S.added sink.old sink.new
        (nested_entry_bytes number (pool_rows message_type.now.pool).enums (field_row key_field.now) (key_of key.now)
        (value_of value.now)) }
{
    let before = sink.len();
    match value {
        Value::Message(message) => write_message(sink, 2, false, message),
        _ => unreachable!(),
    }
    write_kept_scalar(sink, message_type, 1, key_field, key.as_scalar());
    sink.prepend_len_since(before);
    write_key(sink, number, WireType::LengthDelimited);
}

impl DynamicMessage {
    /// Appends the encoding of the message: fields and unknown fields in ascending order of their numbers, without the
    /// defaults of fields that have no presence (the encoding guide, "Message Structure"). Each stored value has to fit its
    /// field, as in every message that `decode` gives; `is_encodable` tells. A message inside is written by its own type.
    ///
    /// An output that has room for the encoding takes no further memory and keeps its capacity; so one output, cleared in
    /// between, may serve for many messages. Of an empty message nothing is appended.
    ///
    /// ```
    /// // Writes the message into an output that is kept from message to message; nothing if a value does not fit.
    /// fn write_anew(message: &DynamicMessage, out: &mut Vec<u8>) -> Result<(), EncodeError> {
    ///     out.clear();
    ///     if message.is_encodable() {
    ///         message.encode(out)?;
    ///     }
    ///     Ok(())
    /// }
    /// ```
    ///
    /// # Errors
    ///
    /// `TooLong` if the encoding passes the greatest `usize`, `OutOfMemory` if memory runs out. In each case the output
    /// stays as it was.
    pub fn encode(&self, out: &mut Vec<u8>) -> Result<(), EncodeError>
        requires encodable { encodable (content_of self.now) ≡ true }
        ensures ok { OnOk result (out.new.items ≡ out.old.items ++ encoded (kept (content_of self.now))) }
        ensures fits { OnOk result (length (encoded (kept (content_of self.now))) < 2 ^ 64) }
        ensures reads_back { OnOk result
            (WellStored (content_of self.now)
            → ReadsBack (kept (content_of self.now)) (encoded (kept (content_of self.now)))) }
        ensures canonical { OnOk result
            (WellStored (content_of self.now)
            → IsOnlyOf (kept (content_of self.now)) (encoded (kept (content_of self.now)))) }
        ensures err { OnErr result (out.new.items ≡ out.old.items) }
        ensures too_long { IfErr result (λ e. e ≡ EncodeError.TooLong → 2 ^ 64 ≤ length (encoded (kept (content_of self.now)))) }
    {
        let mut sink = ByteSink::new(*out.allocator());
        write_body(&mut sink, self);
        sink.append_to(out)
    }

    /// How many bytes `encode` appends, or `None` if they are more than a `usize` counts. Each stored value has to fit its
    /// field, as for `encode`. No memory is taken.
    pub fn encoded_len(&self) -> Option<usize>
        requires encodable { encodable (content_of self.now) ≡ true }
        ensures { let n = length (encoded (kept (content_of self.now))) in SomeIff result (n < 2 ^ 64) n }
    {
        let mut sink = LengthSink::new();
        write_body(&mut sink, self);
        sink.total()
    }

    /// The encoding of the message, as `encode` appends it. Each stored value has to fit its field, as for `encode`.
    ///
    /// ```
    /// // The encoding of the message, or none if one of its values does not fit its field.
    /// fn written(alloc: Global, message: &DynamicMessage) -> Result<Option<Vec<u8>>, EncodeError> {
    ///     if !message.is_encodable() {
    ///         return Ok(None);
    ///     }
    ///     Ok(Some(message.encode_to_vec(alloc)?))
    /// }
    /// ```
    ///
    /// # Errors
    ///
    /// As `encode`.
    pub fn encode_to_vec(&self, alloc: Global) -> Result<Vec<u8>, EncodeError>
        requires encodable { encodable (content_of self.now) ≡ true }
        ensures ok { IfOk result (λ out. out.items ≡ encoded (kept (content_of self.now))) }
        ensures fits { IfOk result (λ out. length out.items < 2 ^ 64) }
        ensures reads_back { IfOk result (λ out. WellStored (content_of self.now) → ReadsBack (kept (content_of self.now)) out.items) }
        ensures canonical { IfOk result (λ out. WellStored (content_of self.now) → IsOnlyOf (kept (content_of self.now)) out.items) }
        ensures too_long { IfErr result (λ e. e ≡ EncodeError.TooLong → 2 ^ 64 ≤ length (encoded (kept (content_of self.now)))) }
    {
        let mut out = Vec::new(alloc);
        self.encode(&mut out)?;
        Ok(out)
    }
}
