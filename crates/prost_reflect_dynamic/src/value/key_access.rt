//! What a key holds, by its variant.

ghost use Rattle.std.specs.Prelude.{◌≡◌, option_map, string_bytes};
ghost use Rattle.std.specs.Borrow.{LendsIf, sem, bool, i32, i64, u32, u64};
ghost use Rattle.std.specs.Option.{option_copied, option_copied_mut};
ghost use Rattle.prost_reflect_dynamic.specs.contracts.value.MapKey.{the_row};
ghost use Rattle.prost_reflect_dynamic.specs.declared.value.MapKey.TheVariants as keys;
ghost use Rattle.prost_reflect_dynamic.specs.Lent.{text_row};
ghost use Rattle.prost_reflect_dynamic.specs.Variants.{bool_of_key, i32_of_key, i64_of_key, u32_of_key, u64_of_key, text_of_key};

use crate::value::MapKey;

impl MapKey {
    /// The value of a `Bool`, or none of any other key.
    pub fn as_bool(&self) -> Option<bool>
        ensures { result ≡ bool_of_key self.now }
    {
        match self {
            MapKey::Bool(value) => Some(*value),
            _ => None,
        }
    }

    /// The value of an `I32`, or none of any other key.
    pub fn as_i32(&self) -> Option<i32>
        ensures { result ≡ i32_of_key self.now }
    {
        match self {
            MapKey::I32(value) => Some(*value),
            _ => None,
        }
    }

    /// The value of an `I64`, or none of any other key.
    pub fn as_i64(&self) -> Option<i64>
        ensures { result ≡ i64_of_key self.now }
    {
        match self {
            MapKey::I64(value) => Some(*value),
            _ => None,
        }
    }

    /// The value of a `U32`, or none of any other key.
    pub fn as_u32(&self) -> Option<u32>
        ensures { result ≡ u32_of_key self.now }
    {
        match self {
            MapKey::U32(value) => Some(*value),
            _ => None,
        }
    }

    /// The value of a `U64`, or none of any other key.
    pub fn as_u64(&self) -> Option<u64>
        ensures { result ≡ u64_of_key self.now }
    {
        match self {
            MapKey::U64(value) => Some(*value),
            _ => None,
        }
    }

    /// The text of a `String`, or none of any other key.
    pub fn as_str(&self) -> Option<&str>
        ensures { option_copied result ≡ text_of_key self.now }
    {
        match self {
            MapKey::String(value) => Some(value.as_str()),
            _ => None,
        }
    }

    /// The value of a `Bool`, for writing, or none of any other key.
    pub fn as_bool_mut(&mut self) -> Option<&mut bool>
        ensures* writes_back { sem 𝓛 (LendsIf the_row bool self.entry result keys.Bool self.old) }
        ensures value { option_copied_mut result ≡ bool_of_key self.old }
    {
        if let MapKey::Bool(value) = self {
            Some(value)
        } else {
            None
        }
    }

    /// The value of an `I32`, for writing, or none of any other key.
    pub fn as_i32_mut(&mut self) -> Option<&mut i32>
        ensures* writes_back { sem 𝓛 (LendsIf the_row i32 self.entry result keys.I32 self.old) }
        ensures value { option_copied_mut result ≡ i32_of_key self.old }
    {
        if let MapKey::I32(value) = self {
            Some(value)
        } else {
            None
        }
    }

    /// The value of an `I64`, for writing, or none of any other key.
    pub fn as_i64_mut(&mut self) -> Option<&mut i64>
        ensures* writes_back { sem 𝓛 (LendsIf the_row i64 self.entry result keys.I64 self.old) }
        ensures value { option_copied_mut result ≡ i64_of_key self.old }
    {
        if let MapKey::I64(value) = self {
            Some(value)
        } else {
            None
        }
    }

    /// The value of a `U32`, for writing, or none of any other key.
    pub fn as_u32_mut(&mut self) -> Option<&mut u32>
        ensures* writes_back { sem 𝓛 (LendsIf the_row u32 self.entry result keys.U32 self.old) }
        ensures value { option_copied_mut result ≡ u32_of_key self.old }
    {
        if let MapKey::U32(value) = self {
            Some(value)
        } else {
            None
        }
    }

    /// The value of a `U64`, for writing, or none of any other key.
    pub fn as_u64_mut(&mut self) -> Option<&mut u64>
        ensures* writes_back { sem 𝓛 (LendsIf the_row u64 self.entry result keys.U64 self.old) }
        ensures value { option_copied_mut result ≡ u64_of_key self.old }
    {
        if let MapKey::U64(value) = self {
            Some(value)
        } else {
            None
        }
    }

    /// The text of a `String`, for writing, or none of any other key.
    pub fn as_string_mut(&mut self) -> Option<&mut String>
        ensures* writes_back { sem 𝓛 (LendsIf the_row text_row self.entry result keys.String self.old) }
        ensures value { option_map (λ text. string_bytes text.now) result ≡ text_of_key self.old }
    {
        if let MapKey::String(value) = self {
            Some(value)
        } else {
            None
        }
    }
}
