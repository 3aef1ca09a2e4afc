//! Keys of maps as values, and values as keys.

ghost use Rattle.std.specs.Prelude.{◌≡◌, option_map};
ghost use Rattle.prost_reflect_wire.specs.Content.{ScalarValue};
ghost use Rattle.prost_reflect_dynamic.specs.Variants.{key_in};
ghost use Rattle.prost_reflect_dynamic.specs.View.{key_of, value_of};

use crate::value::{MapKey, Value};

impl From<MapKey> for Value {
    ghost from_gives = { λ key value. value_of value ≡ ScalarValue (key_of key) };

    fn from(key: MapKey) -> Value {
        match key {
            MapKey::Bool(value) => Value::Bool(value),
            MapKey::I32(value) => Value::I32(value),
            MapKey::I64(value) => Value::I64(value),
            MapKey::U32(value) => Value::U32(value),
            MapKey::U64(value) => Value::U64(value),
            MapKey::String(value) => Value::String(value),
        }
    }
}

impl Value {
    /// The value as a key of a map, if it is a `Bool`, an integer or a `String`.
    pub fn into_map_key(self) -> Option<MapKey>
        ensures { option_map key_of result ≡ key_in (value_of self) }
    {
        match self {
            Value::Bool(value) => Some(MapKey::Bool(value)),
            Value::I32(value) => Some(MapKey::I32(value)),
            Value::I64(value) => Some(MapKey::I64(value)),
            Value::U32(value) => Some(MapKey::U32(value)),
            Value::U64(value) => Some(MapKey::U64(value)),
            Value::String(value) => Some(MapKey::String(value)),
            Value::F32(_bits) => None,
            Value::F64(_bits) => None,
            Value::Bytes(_bytes) => None,
            Value::EnumNumber(_number) => None,
            Value::Message(_message) => None,
            Value::List(_values) => None,
            Value::Map(_pairs) => None,
        }
    }
}
