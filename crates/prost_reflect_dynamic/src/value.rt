//! Values of fields, and keys of maps.

mod access;
mod access_mut;
pub(crate) mod defaults;
mod key_access;
mod keys;
pub(crate) mod scalar;
mod text;
pub(crate) mod valid;

use crate::message::DynamicMessage;
use std::alloc::AllocError;
use std::collections::BTreeMap;

/// The key of a map's entry (the language guide, "Maps"). Keys are ordered by their variants, and then by their values;
/// texts by their bytes.
///
/// ```
/// // Puts a value into the map at the key of a text.
/// fn put(alloc: Global, map: &mut BTreeMap<MapKey, Value>, key: &str, value: Value) -> Result<(), AllocError> {
///     let key = MapKey::String(String::from_str(alloc, key)?);
///     drop(map.insert(key, value)?);
///     Ok(())
/// }
/// ```
#[derive(Debug, PartialEq, Eq, PartialOrd, Ord, Hash, Drop)]
pub enum MapKey {
    /// Of a bool field.
    Bool(bool),
    /// Of an int32, sint32 or sfixed32 field.
    I32(i32),
    /// Of an int64, sint64 or sfixed64 field.
    I64(i64),
    /// Of a uint32 or fixed32 field.
    U32(u32),
    /// Of a uint64 or fixed64 field.
    U64(u64),
    /// Of a string field.
    String(String),
}

impl Clone for MapKey {
    ghost use Rattle.std.specs.Prelude.{◌≡◌};
    ghost use Rattle.prost_reflect_dynamic.specs.View.{key_of};

    ghost is_clone = { λ key copied. key_of copied ≡ key_of key };

    fn clone(&self) -> Result<MapKey, AllocError> {
        match self {
            MapKey::Bool(value) => Ok(MapKey::Bool(*value)),
            MapKey::I32(value) => Ok(MapKey::I32(*value)),
            MapKey::I64(value) => Ok(MapKey::I64(*value)),
            MapKey::U32(value) => Ok(MapKey::U32(*value)),
            MapKey::U64(value) => Ok(MapKey::U64(*value)),
            MapKey::String(value) => Ok(MapKey::String(value.clone()?)),
        }
    }
}

/// The value of a field or an extension, or of an element of one (the language guide, "Scalar Value Types").
///
/// ```
/// // What sort of value it is.
/// fn sort_of(value: &Value) -> &'static str {
///     match value {
///         Value::Message(_) => "a message",
///         Value::List(_) => "a list",
///         Value::Map(_) => "a map",
///         _ => "a scalar",
///     }
/// }
/// ```
#[cycle(value)]
#[derive(Debug, Drop)]
pub enum Value {
    /// Of a bool field.
    Bool(bool),
    /// Of an int32, sint32 or sfixed32 field.
    I32(i32),
    /// Of an int64, sint64 or sfixed64 field.
    I64(i64),
    /// Of a uint32 or fixed32 field.
    U32(u32),
    /// Of a uint64 or fixed64 field.
    U64(u64),
    /// The bits of a float field.
    F32(u32),
    /// The bits of a double field.
    F64(u64),
    /// Of a string field.
    String(String),
    /// Of a bytes field.
    Bytes(Vec<u8>),
    /// The number of an enum field's value.
    EnumNumber(i32),
    /// Of a message field, also one that is written as a group.
    Message(DynamicMessage),
    /// Of a repeated field.
    List(Vec<Value>),
    /// Of a map field.
    Map(BTreeMap<MapKey, Value>),
}
