//! What a value holds, by its variant.

ghost use Rattle.std.specs.Prelude.{◌≡◌, ◌<◌, IfSome, option_map};
ghost use Rattle.std.specs.List.{All};
ghost use Rattle.prost_reflect_dynamic.specs.declared.message.DynamicMessage.{size-DynamicMessage};
ghost use Rattle.std.specs.Option.{option_copied};
ghost use Rattle.prost_reflect_dynamic.specs.declared.value.Value.{out-Value, size-Value};
ghost use Rattle.prost_reflect_dynamic.specs.Variants.{bool_in, i32_in, i64_in, u32_in, u64_in, f32_in, f64_in, enum_number_in, text_in, bytes_in, message_in, list_in, pairs_in};

use crate::message::DynamicMessage;
use crate::value::{MapKey, Value};
use std::collections::BTreeMap;

impl Value {
    /// The value of a `Bool`, or none of any other value.
    pub fn as_bool(&self) -> Option<bool>
        ensures { result ≡ bool_in (out-Value self.now) }
    {
        match self {
            Value::Bool(value) => Some(*value),
            _ => None,
        }
    }

    /// The value of an `I32`, or none of any other value.
    ///
    /// ```
    /// // The value of the field of the number, if it is an `I32`.
    /// fn int32_at(alloc: Global, message: &DynamicMessage, number: u32) -> Result<Option<i32>, AllocError> {
    ///     match message.get_field_by_number(alloc, number)? {
    ///         Some(value) => Ok(value.as_i32()),
    ///         None => Ok(None),
    ///     }
    /// }
    /// ```
    pub fn as_i32(&self) -> Option<i32>
        ensures { result ≡ i32_in (out-Value self.now) }
    {
        match self {
            Value::I32(value) => Some(*value),
            _ => None,
        }
    }

    /// The value of an `I64`, or none of any other value.
    pub fn as_i64(&self) -> Option<i64>
        ensures { result ≡ i64_in (out-Value self.now) }
    {
        match self {
            Value::I64(value) => Some(*value),
            _ => None,
        }
    }

    /// The value of a `U32`, or none of any other value.
    pub fn as_u32(&self) -> Option<u32>
        ensures { result ≡ u32_in (out-Value self.now) }
    {
        match self {
            Value::U32(value) => Some(*value),
            _ => None,
        }
    }

    /// The value of a `U64`, or none of any other value.
    pub fn as_u64(&self) -> Option<u64>
        ensures { result ≡ u64_in (out-Value self.now) }
    {
        match self {
            Value::U64(value) => Some(*value),
            _ => None,
        }
    }

    /// The bits of an `F32`, or none of any other value.
    pub fn as_f32(&self) -> Option<u32>
        ensures { result ≡ f32_in (out-Value self.now) }
    {
        match self {
            Value::F32(value) => Some(*value),
            _ => None,
        }
    }

    /// The bits of an `F64`, or none of any other value.
    pub fn as_f64(&self) -> Option<u64>
        ensures { result ≡ f64_in (out-Value self.now) }
    {
        match self {
            Value::F64(value) => Some(*value),
            _ => None,
        }
    }

    /// The number of an `EnumNumber`, or none of any other value.
    pub fn as_enum_number(&self) -> Option<i32>
        ensures { result ≡ enum_number_in (out-Value self.now) }
    {
        match self {
            Value::EnumNumber(value) => Some(*value),
            _ => None,
        }
    }

    /// The text of a `String`, or none of any other value.
    pub fn as_str(&self) -> Option<&str>
        ensures { option_copied result ≡ text_in (out-Value self.now) }
    {
        match self {
            Value::String(value) => Some(value.as_str()),
            _ => None,
        }
    }

    /// The bytes of a `Bytes`, or none of any other value.
    pub fn as_bytes(&self) -> Option<&[u8]>
        ensures { option_copied result ≡ bytes_in (out-Value self.now) }
    {
        match self {
            Value::Bytes(value) => Some(value.as_slice()),
            _ => None,
        }
    }

    /// The message of a `Message`, or none of any other value.
    pub fn as_message(&self) -> Option<&DynamicMessage>
        ensures value { option_copied result ≡ message_in (out-Value self.now) }
        ensures inside { IfSome result (λ message. size-DynamicMessage message.now < size-Value self.now) }
    {
        match self {
            Value::Message(value) => Some(value),
            _ => None,
        }
    }

    /// The elements of a `List`, or none of any other value.
    pub fn as_list(&self) -> Option<&[Value]>
        ensures value { option_copied result ≡ list_in (out-Value self.now) }
        ensures inside { IfSome result (λ values. All (λ value. size-Value value < size-Value self.now) values.now) }
    {
        match self {
            Value::List(value) => Some(value.as_slice()),
            _ => None,
        }
    }

    /// The entries of a `Map`, or none of any other value.
    pub fn as_map(&self) -> Option<&BTreeMap<MapKey, Value>>
        ensures value { option_map (λ map. map.now.entries) result ≡ pairs_in (out-Value self.now) }
        ensures inside { IfSome result (λ map. All (λ entry. size-Value entry.1 < size-Value self.now) map.now.entries) }
    {
        match self {
            Value::Map(value) => Some(value),
            _ => None,
        }
    }
}
