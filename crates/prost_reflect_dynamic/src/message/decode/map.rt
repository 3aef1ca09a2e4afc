//! Map fields (the encoding guide, "Maps").

ghost use Rattle.std.specs.Prelude.{◌≡◌, ◌≢◌, true, [], Some, IsSome, IfOk, IfErr, OnOk};
ghost use Rattle.prost_reflect_wire.specs.Content.{MapValue, value_at, entries_of};
ghost use Rattle.prost_reflect_wire.specs.Meaning.{put, pairs_in};
ghost use Rattle.prost_reflect_wire.specs.Typing.{WellStored};
ghost use Rattle.prost_reflect_wire.specs.Decoding.{Step, StandsBehindKey};
ghost use Rattle.prost_reflect_wire.specs.EntryReading.{IsMapped};
ghost use Rattle.prost_reflect_dynamic.specs.Contents.{value_set};
ghost use Rattle.prost_reflect_fields.specs.Known.{known_of, is_known};
ghost use Rattle.prost_reflect_rows.specs.FieldKinds.{ScalarMap};
ghost use Rattle.prost_reflect_dynamic.specs.Maps.{IsDefaultOf, IsAbsentValue, ReadsEntry, RefusesEntry};
ghost use Rattle.prost_reflect_pool.specs.SharedPools.{pool_rows};
ghost use Rattle.prost_reflect_dynamic.specs.Scalars.{plain_kind};
ghost use Rattle.prost_reflect_dynamic.specs.Variants.{key_in};
ghost use Rattle.prost_reflect_dynamic.specs.View.{key_of, value_of, content_of, message_type_of};
ghost use Rattle.prost_reflect_dynamic.specs.Stored.{value_stored};
ghost use Rattle.prost_reflect_dynamic.specs.TypedSteps.{entry_typed, StaysTyped};

use crate::message::DynamicMessage;
use crate::message::decode::scalar::scalar_at;
use crate::message::enums::is_stray;
use crate::value::{MapKey, Value};
use prost_reflect_pool::PooledType;
use prost_reflect_rows::bodies::entry_body;
use prost_reflect_tables::{ScalarRef, TableKind};
use prost_reflect_wire::{DecodeError, FieldNumber, WireType, decode_key, skip_value};
use std::alloc::{AllocError, Global};
use std::collections::BTreeMap;

/// Zero, false or empty, by the scalar kind.
pub(super) fn default_of(alloc: Global, kind: TableKind) -> Value
    requires { IsSome (plain_kind kind) }
    ensures { IsDefaultOf kind result }
{
    Value::blank(alloc, ScalarRef::zero(kind))
}

/// What an entry has where it lacks a value: the first number of an enum, else zero, false or empty.
fn absent_value(alloc: Global, message_type: &PooledType, kind: TableKind) -> Value
    requires { IsSome (plain_kind kind) }
    ensures { IsAbsentValue (pool_rows message_type.now.pool).enums kind result }
{
    Value::blank(alloc, message_type.tables().kind_default(kind))
}

/// Reads the body of a map's entry whose key and value are of these scalar kinds: the last record of number 1 is the key
/// and that of number 2 the value, each of which has the kind's default where there is none; others are passed over. A
/// number of an enum is read whether the enum declares it or not.
///
/// # Errors
///
/// A fault that the body has (`Truncated`, `Varint`, `Key`, `WireType`, `EndGroup`, `Utf8` or `Depth`), or `OutOfMemory` if
/// memory runs out.
fn entry_at(
    alloc: Global,
    message_type: &PooledType,
    key_kind: TableKind,
    value_kind: TableKind,
    body: &[u8],
    levels: u32,
) -> Result<(Value, Value), DecodeError>
    requires key { IsSome (plain_kind key_kind) }
    requires value { IsSome (plain_kind value_kind) }
    ensures ok { IfOk result
        (λ entry. ReadsEntry (pool_rows message_type.now.pool).enums levels key_kind value_kind entry.0 entry.1 body.now
        []) }
    ensures fault { IfErr result
        (λ e. e ≢ DecodeError.OutOfMemory
        → RefusesEntry (pool_rows message_type.now.pool).enums levels key_kind value_kind e body.now) }
{
    let mut key = default_of(alloc, key_kind);
    let mut value = absent_value(alloc, message_type, value_kind);
    let mut rest = body;
    while !rest.is_empty() {
        let (number, wire_type, after) = decode_key(rest)?;
        if number.get() == 1 {
            let (read, end) = scalar_at(alloc, key_kind, wire_type, after)?;
            key = read;
            rest = end;
        } else if number.get() == 2 {
            let (read, end) = scalar_at(alloc, value_kind, wire_type, after)?;
            value = read;
            rest = end;
        } else {
            rest = skip_value(number, wire_type, after, levels)?;
        }
    }
    Ok((key, value))
}

/// The value of a key kind as a key.
pub(super) fn map_key(value: Value) -> MapKey
    requires { IsSome (key_in (value_of value)) }
    ensures { key_in (value_of value) ≡ Some (key_of result) }
{
    match value.into_map_key() {
        Some(key) => key,
        None => unreachable!(),
    }
}

impl DynamicMessage {
    /// Reads an entry behind the key of a map field, and puts it into the map. One whose value is a number that a closed
    /// enum does not declare becomes an unknown field instead. A refusal may leave an empty map where there was none.
    pub(crate) fn merge_map<'a>(
        &mut self,
        alloc: Global,
        number: FieldNumber,
        kinds: (TableKind, TableKind),
        wire_type: WireType,
        bytes: &'a [u8],
        levels: u32,
    ) -> Result<&'a [u8], DecodeError>
        requires sound { WellStored (content_of self.old) }
        requires field { ScalarMap (message_type_of self.old) number.value kinds.0 kinds.1 }
        ensures ok { IfOk result
            (λ rest. Step levels number.value wire_type (content_of self.old) (content_of self.new) bytes.now
            rest.now) }
        ensures message_type { message_type_of self.new ≡ message_type_of self.old }
        ensures typed { IfOk result (λ _. StaysTyped self.old self.new) }
        ensures fault { IfErr result
            (λ e. e ≢ DecodeError.OutOfMemory
            → StandsBehindKey (content_of self.old) levels number.value wire_type e bytes.now) }
    {
        let (body, rest) = entry_body(wire_type, bytes)?;
        let (key, value) = entry_at(alloc, self.message_type(), kinds.0, kinds.1, body, levels)?;
        if is_stray(self.message_type(), kinds.1, &value) {
            return self.merge_unknown(alloc, number, wire_type, bytes, levels);
        }
        self.put_entry(alloc, number.get(), map_key(key), value)?;
        Ok(rest)
    }

    /// Puts an entry into the map at the number of its field, in the place of one whose key is equal. If out of memory, the
    /// map is as it was, or empty where there was none.
    pub(super) fn put_entry(
        &mut self,
        alloc: Global,
        number: u32,
        key: MapKey,
        value: Value,
    ) -> Result<(), AllocError>
        requires known { is_known (known_of (message_type_of self.old)) number ≡ true }
        requires mapped { IsMapped (value_at number (entries_of (content_of self.old))) }
        ensures message_type { message_type_of self.new ≡ message_type_of self.old }
        ensures content { OnOk result
            (content_of self.new
            ≡ value_set number
            (MapValue
            (put (key_of key) (value_of value)
            (pairs_in (value_at number (entries_of (content_of self.old)))))) (content_of self.old)) }
        ensures typed { OnOk result
            (entry_typed (message_type_of self.old) number (value_stored value) ≡ true → StaysTyped self.old self.new) }
    {
        let map = self.value_mut_or(number, Value::Map(BTreeMap::new(alloc)))?;
        match map.as_map_mut() {
            Some(pairs) => {
                pairs.insert(key, value)?;
                Ok(())
            }
            None => unreachable!(),
        }
    }
}
