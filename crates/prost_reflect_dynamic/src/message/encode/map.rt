//! Writing maps (the encoding guide, "Maps"), the last entry first.

ghost use Rattle.std.specs.Prelude.{◌≡◌, true};
ghost use Rattle.prost_reflect_wire.specs.Content.{ScalarValue};
ghost use Rattle.prost_reflect_wire.specs.Schema.{field_of, passes};
ghost use Rattle.prost_reflect_wire.specs.Typing.{value_valid};
ghost use Rattle.prost_reflect_wire.specs.Storing.{value_bytes};
ghost use Rattle.prost_reflect_wire.specs.Sinks.{Adds};
ghost use Rattle.prost_reflect_tables.specs.Rows.{field_row};
ghost use Rattle.prost_reflect_fields.specs.Known.{known_of};
ghost use Rattle.prost_reflect_dynamic.specs.Maps.{TakesPairs, entry_bytes, pairs_bytes, IsMap};
ghost use Rattle.prost_reflect_rows.specs.FieldKinds.{MapOfRows};
ghost use Rattle.prost_reflect_pool.specs.SharedPools.{pool_rows};
ghost use Rattle.prost_reflect_rows.specs.Scalars.{TakesScalar};
ghost use Rattle.prost_reflect_dynamic.specs.View.{key_of, value_of};

use crate::value::{MapKey, Value};
use prost_reflect_pool::PooledType;
use prost_reflect_rows::writing::write_kept_scalar;
use prost_reflect_tables::FieldTable;
use prost_reflect_wire::{Sink, WireType, write_key};
use std::collections::BTreeMap;

/// Adds the record of an entry in front.
fn write_pair<S: Sink>(
    sink: &mut S,
    message_type: &PooledType,
    number: u32,
    key_field: &FieldTable,
    value_field: &FieldTable,
    key: &MapKey,
    value: &Value,
)
    requires key { TakesScalar (field_row key_field.now).kind (ScalarValue (key_of key.now)) }
    requires value { TakesScalar (field_row value_field.now).kind (value_of value.now) }
    ensures { Adds S.added sink.old sink.new
        (entry_bytes number (pool_rows message_type.now.pool).enums (field_row key_field.now)
        (field_row value_field.now) (key_of key.now) (value_of value.now)) }
{
    let before = sink.len();
    write_kept_scalar(sink, message_type, 2, value_field, value.scalar());
    write_kept_scalar(sink, message_type, 1, key_field, key.as_scalar());
    sink.prepend_len_since(before);
    write_key(sink, number, WireType::LengthDelimited);
}

/// Adds the records of a map's entries in front, in ascending order of their keys; nothing of an empty map.
fn write_pairs<S: Sink>(
    sink: &mut S,
    message_type: &PooledType,
    number: u32,
    key_field: &FieldTable,
    value_field: &FieldTable,
    pairs: &BTreeMap<MapKey, Value>,
)
    requires { TakesPairs (field_row key_field.now).kind (field_row value_field.now).kind pairs.now.entries }
    ensures { Adds S.added sink.old sink.new
        (pairs_bytes number (pool_rows message_type.now.pool).enums (field_row key_field.now)
        (field_row value_field.now) pairs.now.entries) }
{
    for (key, value) in pairs.iter().rev() {
        write_pair(
            sink,
            message_type,
            number,
            key_field,
            value_field,
            key,
            value,
        );
    }
}

/// Adds what is kept of the map of a field in front, whose keys and values have these rows.
pub(crate) fn write_map<S: Sink>(
    sink: &mut S,
    message_type: &PooledType,
    number: u32,
    key_field: &FieldTable,
    value_field: &FieldTable,
    value: &Value,
)
    requires rows { MapOfRows message_type.now number (field_row key_field.now) (field_row value_field.now) }
    requires valid { passes (field_of (known_of message_type.now) number) (λ f. value_valid f (value_of value.now)) ≡ true }
    requires map { IsMap (value_of value.now) }
    ensures { Adds S.added sink.old sink.new (value_bytes (known_of message_type.now) number (value_of value.now)) }
{
    match value {
        Value::Map(pairs) => {
            write_pairs(sink, message_type, number, key_field, value_field, pairs);
        }
        _ => unreachable!(),
    }
}
