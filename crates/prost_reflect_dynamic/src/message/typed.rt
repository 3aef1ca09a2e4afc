//! Whether the messages inside a message are of their fields' types, at every depth.

ghost use Rattle.std.specs.Prelude.{◌≡◌, IsTrue, Some};
ghost use Rattle.prost_reflect_wire.specs.Schema.{field_of};
ghost use Rattle.prost_reflect_wire.specs.Typing.{Typed};
ghost use Rattle.prost_reflect_tables.specs.Rows.{field_row};
ghost use Rattle.prost_reflect_tables.specs.Shown.{schema_field};
ghost use Rattle.prost_reflect_pool.specs.SharedPools.{pool_contents, pool_rows};
ghost use Rattle.prost_reflect_fields.specs.Known.{known_of};
ghost use Rattle.prost_reflect_dynamic.specs.DeepTypes.{all_typed, value_typed, items_typed, pairs_typed, place_for, stands_there};
ghost use Rattle.prost_reflect_dynamic.specs.Stored.{stored_items, stored_pairs, value_stored, message_stored};
ghost use Rattle.prost_reflect_dynamic.specs.View.{content_of};

use crate::message::DynamicMessage;
use crate::value::{MapKey, Value};
use prost_reflect_fields::slot::FieldSlot;
use prost_reflect_pool::PooledType;
use prost_reflect_rows::kinds::named_place;
use prost_reflect_tables::FieldTable;
use std::collections::BTreeMap;

impl DynamicMessage {
    /// Whether each message inside is of its field's type, at every depth, those in lists and maps among them: its
    /// descriptor equals that of the field's type, so it stands at that place in a pool whose files hold the same. A
    /// message that stands by itself in a map field, or at a number that is not known, is of no field's type.
    ///
    /// This holds of a message that `new` or `decode` gives. It stays so where bytes are merged, and where a value is set
    /// that holds no message, or messages of the field's type alone. A value that was written through `get_field_mut` may
    /// hold any.
    ///
    /// Nothing is said of values that are no messages: `is_encodable` asks for those.
    pub fn is_typed(&self) -> bool
        ensures typed { result ≡ all_typed (message_stored self.now) }
        ensures types { IsTrue result → Typed (content_of self.now) }
    {
        message_typed(self)
    }
}

/// Whether the messages inside the message are of their fields' types.
#[cycle(typing)]
fn message_typed(message: &DynamicMessage) -> bool
    ensures { result ≡ all_typed (message_stored message.now) }
{
    for (number, slot) in message.fields.slots() {
        let typed = match slot {
            FieldSlot::Value(value) => stored_typed(message.fields.message_type(), *number, value),
            FieldSlot::Both(value, _) => {
                stored_typed(message.fields.message_type(), *number, value)
            }
            FieldSlot::Unknown(_) => true,
        };
        if !typed {
            return false;
        }
    }
    true
}

/// Whether the messages in a value are of the type of a number's field.
#[cycle(typing)]
fn stored_typed(message_type: &PooledType, number: u32, value: &Value) -> bool
    ensures { result
        ≡ value_typed (pool_contents message_type.now.pool) (pool_rows message_type.now.pool)
        (place_for (field_of (known_of message_type.now) number) (value_stored value.now))
        (value_stored value.now) }
{
    let place = place_at(message_type, number, value);
    value_typed(message_type, place, value)
}

/// Whether the messages in a value are of the type at a place of the pool of a message type, and so are those inside them.
#[cycle(typing)]
fn value_typed(message_type: &PooledType, place: Option<usize>, value: &Value) -> bool
    ensures { result ≡ value_typed (pool_contents message_type.now.pool) (pool_rows message_type.now.pool) place (value_stored value.now) }
{
    match value {
        Value::Message(message) => {
            stands_there(message_type, place, message) && message_typed(message)
        }
        Value::List(values) => items_typed(message_type, place, values),
        Value::Map(pairs) => pairs_typed(message_type, place, pairs),
        _ => true,
    }
}

#[cycle(typing)]
fn items_typed(message_type: &PooledType, place: Option<usize>, values: &Vec<Value>) -> bool
    ensures { result
        ≡ items_typed (pool_contents message_type.now.pool) (pool_rows message_type.now.pool) place
        (stored_items value_stored values.now.items) }
{
    for value in values {
        if !value_typed(message_type, place, value) {
            return false;
        }
    }
    true
}

#[cycle(typing)]
fn pairs_typed(
    message_type: &PooledType,
    place: Option<usize>,
    pairs: &BTreeMap<MapKey, Value>,
) -> bool
    ensures { result
        ≡ pairs_typed (pool_contents message_type.now.pool) (pool_rows message_type.now.pool) place
        (stored_pairs value_stored pairs.now.entries) }
{
    for (_, value) in pairs.iter() {
        if !value_typed(message_type, place, value) {
            return false;
        }
    }
    true
}

/// Whether the message is of the type at the place of the pool of a message type, or of one whose files hold the same.
fn stands_there(message_type: &PooledType, place: Option<usize>, message: &DynamicMessage) -> bool
    ensures { result
        ≡ stands_there (pool_contents message_type.now.pool) (pool_rows message_type.now.pool) place
        (message_stored message.now) }
{
    let own = message.message_type();
    match place {
        Some(place) => own.index() == place && *message_type.pool() == *own.pool(),
        None => false,
    }
}

/// The place of the type that the messages in a value at a number have to be of.
fn place_at(message_type: &PooledType, number: u32, value: &Value) -> Option<usize>
    ensures { result ≡ place_for (field_of (known_of message_type.now) number) (value_stored value.now) }
{
    match message_type.field_table(number) {
        Some(field) => place_of(message_type, field, value),
        None => None,
    }
}

/// The place of the type that the messages in a value of the row's field have to be of.
fn place_of(message_type: &PooledType, field: &FieldTable, value: &Value) -> Option<usize>
    ensures { result ≡ place_for (Some (schema_field (pool_rows message_type.now.pool) (field_row field.now))) (value_stored value.now) }
{
    match message_type.map_parts(field) {
        Some((_, part)) => match value {
            Value::Map(_) => named_place(part.kind),
            _ => None,
        },
        None => named_place(field.kind),
    }
}
