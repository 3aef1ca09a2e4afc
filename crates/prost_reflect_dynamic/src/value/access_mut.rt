//! What a value holds, by its variant, for writing.

ghost use Rattle.std.specs.Prelude.{◌≡◌, ◌<◌, IfSome, option_map, string_bytes};
ghost use Rattle.std.specs.List.{All};
ghost use Rattle.std.specs.Borrow.{LendsIf, sem, bool, i32, i64, u32, u64};
ghost use Rattle.std.specs.Option.{option_copied_mut};
ghost use Rattle.prost_reflect_dynamic.specs.contracts.value.Value.{the_row};
ghost use Rattle.prost_reflect_dynamic.specs.contracts.message.DynamicMessage as message;
ghost use Rattle.prost_reflect_dynamic.specs.declared.value.Value as values;
ghost use Rattle.prost_reflect_dynamic.specs.declared.message.DynamicMessage.{size-DynamicMessage};
ghost use Rattle.prost_reflect_dynamic.specs.declared.value.Value.{out-Value, size-Value};
ghost use Rattle.prost_reflect_dynamic.specs.Lent.{text_row, bytes_row, list_row, map_row};
ghost use Rattle.prost_reflect_dynamic.specs.Variants.{bool_in, i32_in, i64_in, u32_in, u64_in, f32_in, f64_in, enum_number_in, text_in, bytes_in, message_in, list_in, pairs_in};

use crate::message::DynamicMessage;
use crate::value::{MapKey, Value};
use std::collections::BTreeMap;

impl Value {
    /// The value of a `Bool`, for writing, or none of any other value.
    pub fn as_bool_mut(&mut self) -> Option<&mut bool>
        ensures* writes_back { sem 𝓛 (LendsIf the_row bool self.entry result values.Bool self.old) }
        ensures value { option_copied_mut result ≡ bool_in (out-Value self.old) }
    {
        if let Value::Bool(value) = self {
            Some(value)
        } else {
            None
        }
    }

    /// The value of an `I32`, for writing, or none of any other value.
    pub fn as_i32_mut(&mut self) -> Option<&mut i32>
        ensures* writes_back { sem 𝓛 (LendsIf the_row i32 self.entry result values.I32 self.old) }
        ensures value { option_copied_mut result ≡ i32_in (out-Value self.old) }
    {
        if let Value::I32(value) = self {
            Some(value)
        } else {
            None
        }
    }

    /// The value of an `I64`, for writing, or none of any other value.
    pub fn as_i64_mut(&mut self) -> Option<&mut i64>
        ensures* writes_back { sem 𝓛 (LendsIf the_row i64 self.entry result values.I64 self.old) }
        ensures value { option_copied_mut result ≡ i64_in (out-Value self.old) }
    {
        if let Value::I64(value) = self {
            Some(value)
        } else {
            None
        }
    }

    /// The value of a `U32`, for writing, or none of any other value.
    pub fn as_u32_mut(&mut self) -> Option<&mut u32>
        ensures* writes_back { sem 𝓛 (LendsIf the_row u32 self.entry result values.U32 self.old) }
        ensures value { option_copied_mut result ≡ u32_in (out-Value self.old) }
    {
        if let Value::U32(value) = self {
            Some(value)
        } else {
            None
        }
    }

    /// The value of a `U64`, for writing, or none of any other value.
    pub fn as_u64_mut(&mut self) -> Option<&mut u64>
        ensures* writes_back { sem 𝓛 (LendsIf the_row u64 self.entry result values.U64 self.old) }
        ensures value { option_copied_mut result ≡ u64_in (out-Value self.old) }
    {
        if let Value::U64(value) = self {
            Some(value)
        } else {
            None
        }
    }

    /// The bits of an `F32`, for writing, or none of any other value.
    pub fn as_f32_mut(&mut self) -> Option<&mut u32>
        ensures* writes_back { sem 𝓛 (LendsIf the_row u32 self.entry result values.F32 self.old) }
        ensures value { option_copied_mut result ≡ f32_in (out-Value self.old) }
    {
        if let Value::F32(value) = self {
            Some(value)
        } else {
            None
        }
    }

    /// The bits of an `F64`, for writing, or none of any other value.
    pub fn as_f64_mut(&mut self) -> Option<&mut u64>
        ensures* writes_back { sem 𝓛 (LendsIf the_row u64 self.entry result values.F64 self.old) }
        ensures value { option_copied_mut result ≡ f64_in (out-Value self.old) }
    {
        if let Value::F64(value) = self {
            Some(value)
        } else {
            None
        }
    }

    /// The number of an `EnumNumber`, for writing, or none of any other value.
    pub fn as_enum_number_mut(&mut self) -> Option<&mut i32>
        ensures* writes_back { sem 𝓛 (LendsIf the_row i32 self.entry result values.EnumNumber self.old) }
        ensures value { option_copied_mut result ≡ enum_number_in (out-Value self.old) }
    {
        if let Value::EnumNumber(value) = self {
            Some(value)
        } else {
            None
        }
    }

    /// The text of a `String`, for writing, or none of any other value.
    pub fn as_string_mut(&mut self) -> Option<&mut String>
        ensures* writes_back { sem 𝓛 (LendsIf the_row text_row self.entry result values.String self.old) }
        ensures value { option_map (λ text. string_bytes text.now) result ≡ text_in (out-Value self.old) }
    {
        if let Value::String(value) = self {
            Some(value)
        } else {
            None
        }
    }

    /// The bytes of a `Bytes`, for writing, or none of any other value.
    pub fn as_bytes_mut(&mut self) -> Option<&mut Vec<u8>>
        ensures* writes_back { sem 𝓛 (LendsIf the_row bytes_row self.entry result values.Bytes self.old) }
        ensures value { option_map (λ bytes. bytes.now.items) result ≡ bytes_in (out-Value self.old) }
    {
        if let Value::Bytes(value) = self {
            Some(value)
        } else {
            None
        }
    }

    /// The message of a `Message`, for writing, or none of any other value.
    pub fn as_message_mut(&mut self) -> Option<&mut DynamicMessage>
        ensures* writes_back { sem 𝓛 (LendsIf the_row message.the_row self.entry result values.Message self.old) }
        ensures value { option_copied_mut result ≡ message_in (out-Value self.old) }
        ensures inside { IfSome result (λ message. size-DynamicMessage message.now < size-Value self.old) }
    {
        if let Value::Message(value) = self {
            Some(value)
        } else {
            None
        }
    }

    /// The elements of a `List`, for writing, or none of any other value.
    pub fn as_list_mut(&mut self) -> Option<&mut Vec<Value>>
        ensures* writes_back { sem 𝓛 (LendsIf the_row list_row self.entry result values.List self.old) }
        ensures value { option_map (λ values. values.now.items) result ≡ list_in (out-Value self.old) }
        ensures inside { IfSome result (λ values. All (λ value. size-Value value < size-Value self.old) values.now.items) }
    {
        if let Value::List(value) = self {
            Some(value)
        } else {
            None
        }
    }

    /// The entries of a `Map`, for writing, or none of any other value.
    pub fn as_map_mut(&mut self) -> Option<&mut BTreeMap<MapKey, Value>>
        ensures* writes_back { sem 𝓛 (LendsIf the_row map_row self.entry result values.Map self.old) }
        ensures value { option_map (λ map. map.now.entries) result ≡ pairs_in (out-Value self.old) }
        ensures inside { IfSome result (λ map. All (λ entry. size-Value entry.1 < size-Value self.old) map.now.entries) }
    {
        if let Value::Map(value) = self {
            Some(value)
        } else {
            None
        }
    }
}
