//! Copies of values and messages.

ghost use Rattle.std.specs.Prelude.{◌≡◌, IfOk, map};
ghost use Rattle.prost_reflect_wire.specs.Edit.{cleared};
ghost use Rattle.prost_reflect_pool.specs.MessageTypes.{SameMessage};
ghost use Rattle.prost_reflect_maps.specs.NumberSets.{has};
ghost use Rattle.prost_reflect_dynamic.specs.View.{content_of, message_type_of};
ghost use Rattle.prost_reflect_dynamic.specs.Merged.{IsJoined};
ghost use Rattle.prost_reflect_dynamic.specs.Copies.{SameStored, SameStoring, SameSlot, pairs_seen};
ghost use Rattle.prost_reflect_dynamic.specs.Stored.{value_stored, message_stored};
ghost use Rattle.prost_reflect_dynamic.specs.TypedSteps.{StaysTyped};

use crate::message::DynamicMessage;
use crate::value::{MapKey, Value};
use prost_reflect_fields::field_set::FieldSet;
use prost_reflect_fields::slot::FieldSlot;
use prost_reflect_maps::boxed::Boxed;
use prost_reflect_maps::sorted_map::SortedMap;
use std::alloc::{AllocError, Global};
use std::collections::{BTreeMap, BTreeSet};
use std::default::Emptied;

impl Clone for Value {
    ghost is_clone = { SameStored };

    fn clone(&self) -> Result<Value, AllocError> {
        copy_value(self)
    }
}

impl Clone for DynamicMessage {
    ghost is_clone = { SameStoring };

    fn clone(&self) -> Result<DynamicMessage, AllocError> {
        copy_message(self)
    }
}

impl DynamicMessage {
    /// A message of the same type, with copies of what stands at the numbers.
    pub(super) fn clone_at(&self, numbers: &BTreeSet<u32>) -> Result<DynamicMessage, AllocError>
        ensures message_type { IfOk result (λ part. SameMessage (message_type_of self.now) (message_type_of part)) }
        ensures content { IfOk result
            (λ part. IsJoined (has numbers.now) (cleared (content_of self.now)) (content_of self.now)
            (content_of part)) }
        ensures typed { IfOk result (λ part. StaysTyped self.now part) }
    {
        let alloc = self.fields.allocator();
        self.fields.sound();
        let mut fields = SortedMap::new(alloc);
        for number in numbers {
            if let Some(slot) = self.fields.slot(*number) {
                fields.insert(*number, copy_slot(alloc, slot)?)?;
            }
        }
        let shared = self.fields.message_type().clone()?;
        Ok(DynamicMessage {
            fields: FieldSet::from_slots(shared, fields),
        })
    }
}

/// What a message keeps at one number, once more.
fn copy_slot(alloc: Global, slot: &FieldSlot<Value>) -> Result<FieldSlot<Value>, AllocError>
    ensures { IfOk result (λ copied. SameSlot slot.now copied) }
{
    match slot {
        FieldSlot::Value(value) => Ok(FieldSlot::Value(copy_value(value)?)),
        FieldSlot::Unknown(unknown) => Ok(FieldSlot::Unknown(unknown.clone()?)),
        FieldSlot::Both(value, unknown) => {
            let value = copy_value(value)?;
            let unknown = Boxed::new(alloc, unknown.get().clone()?)?;
            Ok(FieldSlot::Both(value, unknown))
        }
    }
}

#[cycle(copy)]
fn copy_value(value: &Value) -> Result<Value, AllocError>
    ensures { IfOk result (λ copied. value_stored copied ≡ value_stored value.now) }
{
    match value {
        Value::Bool(value) => Ok(Value::Bool(*value)),
        Value::I32(value) => Ok(Value::I32(*value)),
        Value::I64(value) => Ok(Value::I64(*value)),
        Value::U32(value) => Ok(Value::U32(*value)),
        Value::U64(value) => Ok(Value::U64(*value)),
        Value::F32(value) => Ok(Value::F32(*value)),
        Value::F64(value) => Ok(Value::F64(*value)),
        Value::String(value) => Ok(Value::String(value.clone()?)),
        Value::Bytes(value) => Ok(Value::Bytes(value.clone()?)),
        Value::EnumNumber(value) => Ok(Value::EnumNumber(*value)),
        Value::Message(message) => Ok(Value::Message(copy_message(message)?)),
        Value::List(values) => Ok(Value::List(copy_values(values)?)),
        Value::Map(pairs) => Ok(Value::Map(copy_pairs(pairs)?)),
    }
}

#[cycle(copy)]
fn copy_values(values: &Vec<Value>) -> Result<Vec<Value>, AllocError>
    ensures { IfOk result (λ copied. map value_stored copied.items ≡ map value_stored values.now.items) }
{
    let mut copied = Vec::with_capacity(*values.allocator(), values.len())?;
    for value in values {
        copied.push(copy_value(value)?)?;
    }
    Ok(copied)
}

#[cycle(copy)]
fn copy_pairs(pairs: &BTreeMap<MapKey, Value>) -> Result<BTreeMap<MapKey, Value>, AllocError>
    ensures { IfOk result (λ copied. pairs_seen copied.entries ≡ pairs_seen pairs.now.entries) }
{
    let mut copied = BTreeMap::emptied(pairs)?;
    for (key, value) in pairs.iter() {
        let value = copy_value(value)?;
        drop(copied.insert(key.clone()?, value)?);
    }
    Ok(copied)
}

#[cycle(copy)]
fn copy_message(message: &DynamicMessage) -> Result<DynamicMessage, AllocError>
    ensures { IfOk result (λ copied. message_stored copied ≡ message_stored message.now) }
{
    let alloc = message.fields.allocator();
    let mut fields = SortedMap::new(alloc);
    for (number, entry) in message.fields.slots() {
        let copied = match entry {
            FieldSlot::Value(value) => FieldSlot::Value(copy_value(value)?),
            FieldSlot::Unknown(unknown) => FieldSlot::Unknown(unknown.clone()?),
            FieldSlot::Both(value, unknown) => {
                let value = copy_value(value)?;
                let unknown = Boxed::new(alloc, unknown.get().clone()?)?;
                FieldSlot::Both(value, unknown)
            }
        };
        fields.insert(*number, copied)?;
    }
    let shared = message.fields.message_type().clone()?;
    Ok(DynamicMessage {
        fields: FieldSet::from_slots(shared, fields),
    })
}
