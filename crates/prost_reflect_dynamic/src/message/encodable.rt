//! Whether what a message stores fits its fields, at every depth.

ghost use Rattle.std.specs.Prelude.{◌≡◌, true, IsTrue, map};
ghost use Rattle.prost_reflect_wire.specs.Schema.{field_of, passes};
ghost use Rattle.prost_reflect_wire.specs.Content.{ListValue, MapValue, ordered, values_from};
ghost use Rattle.prost_reflect_wire.specs.Typing.{encodable, exclusive, fit_test, value_passes, value_valid};
ghost use Rattle.prost_reflect_fields.specs.Known.{known_of};
ghost use Rattle.prost_reflect_dynamic.specs.ContentLaws.{pairs_shown};
ghost use Rattle.prost_reflect_dynamic.specs.Encodables.{fits_at, items_pass, entries_pass, arranged, value_arranged};
ghost use Rattle.prost_reflect_dynamic.specs.View.{content_of, value_of};

use crate::message::DynamicMessage;
use crate::value::valid::value_valid;
use crate::value::{MapKey, Value};
use prost_reflect_fields::slot::FieldSlot;
use prost_reflect_pool::PooledType;
use std::collections::BTreeMap;

impl DynamicMessage {
    /// Whether the message may be encoded: each value that is stored fits its field, in the message and in every message
    /// inside, those in lists and maps among them. A field takes what `Value::is_valid_for_field` says, so a number of a
    /// closed enum has to be one that the enum declares. A message inside may be of any type, as it is written by its own;
    /// `is_typed` tells whether that is its field's.
    ///
    /// Each message that `decode` gives may be encoded; one whose values were written through `get_field_mut` perhaps not.
    pub fn is_encodable(&self) -> bool
        ensures encodable { result ≡ encodable (content_of self.now) }
        ensures order { IsTrue result → ordered (content_of self.now) ≡ true }
        ensures members { IsTrue result → exclusive (content_of self.now) ≡ true }
    {
        message_fits(self)
    }
}

/// Whether the message is encodable.
#[cycle(fitting)]
fn message_fits(message: &DynamicMessage) -> bool
    ensures fits { result ≡ encodable (content_of message.now) }
    ensures arranged { IsTrue result → arranged (content_of message.now) ≡ true }
{
    for (number, slot) in message.fields.slots() {
        let fits = match slot {
            FieldSlot::Value(value) => value_fits(message.fields.message_type(), *number, value),
            FieldSlot::Both(value, _) => value_fits(message.fields.message_type(), *number, value),
            FieldSlot::Unknown(_) => true,
        };
        if !fits {
            return false;
        }
    }
    true
}

/// Whether a value fits the field of a number, and each message in it is encodable.
#[cycle(fitting)]
fn value_fits(message_type: &PooledType, number: u32, value: &Value) -> bool
    ensures fits { result ≡ fits_at (known_of message_type.now) number (value_of value.now) }
    ensures arranged { IsTrue result → value_arranged (value_of value.now) ≡ true }
{
    takes_value(message_type, number, value) && inside_fits(value)
}

/// Whether each message in a value is encodable.
#[cycle(fitting)]
fn inside_fits(value: &Value) -> bool
    ensures fits { result ≡ value_passes fit_test (value_of value.now) }
    ensures arranged { IsTrue result → value_arranged (value_of value.now) ≡ true }
{
    match value {
        Value::Message(message) => message_fits(message),
        Value::List(values) => items_fit(values),
        Value::Map(pairs) => entries_fit(pairs),
        _ => true,
    }
}

#[cycle(fitting)]
fn items_fit(values: &Vec<Value>) -> bool
    ensures fits { result ≡ items_pass (value_passes fit_test) values.now.items }
    ensures arranged { IsTrue result → value_arranged (ListValue (values_from (map value_of values.now.items))) ≡ true }
{
    for value in values {
        if !inside_fits(value) {
            return false;
        }
    }
    true
}

#[cycle(fitting)]
fn entries_fit(pairs: &BTreeMap<MapKey, Value>) -> bool
    ensures fits { result ≡ entries_pass (value_passes fit_test) pairs.now.entries }
    ensures arranged { IsTrue result → value_arranged (MapValue (pairs_shown pairs.now.entries)) ≡ true }
{
    for (_, value) in pairs.iter() {
        if !inside_fits(value) {
            return false;
        }
    }
    true
}

/// Whether the message type has a field or an extension of the number that takes the value. No message is looked into.
pub(super) fn takes_value(message_type: &PooledType, number: u32, value: &Value) -> bool
    ensures { result ≡ passes (field_of (known_of message_type.now) number) (λ f. value_valid f (value_of value.now)) }
{
    match message_type.field_table(number) {
        Some(field) => value_valid(message_type.pool(), field, value),
        None => false,
    }
}
