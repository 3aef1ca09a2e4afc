//! Values and keys as scalars.

ghost use Rattle.std.specs.Prelude.{◌≡◌, option_map, IfOk};
ghost use Rattle.prost_reflect_wire.specs.Content.{ScalarValue};
ghost use Rattle.prost_reflect_dynamic.specs.Scalars.{scalar_of, scalar_in, IsScalar, IsBlank};
ghost use Rattle.prost_reflect_dynamic.specs.View.{key_of, value_of};

use crate::value::{MapKey, Value};
use prost_reflect_tables::ScalarRef;
use std::alloc::{AllocError, Global};

impl Value {
    /// The value of a scalar that has neither text nor bytes, so that none are copied.
    pub(crate) fn blank(alloc: Global, scalar: ScalarRef<'_>) -> Value
        requires { IsBlank (scalar_of scalar) }
        ensures { value_of result ≡ ScalarValue (scalar_of scalar.entry) }
    {
        match scalar {
            ScalarRef::Bool(value) => Value::Bool(value),
            ScalarRef::I32(value) => Value::I32(value),
            ScalarRef::I64(value) => Value::I64(value),
            ScalarRef::U32(value) => Value::U32(value),
            ScalarRef::U64(value) => Value::U64(value),
            ScalarRef::F32(bits) => Value::F32(bits),
            ScalarRef::F64(bits) => Value::F64(bits),
            ScalarRef::String(_) => Value::String(String::new(alloc)),
            ScalarRef::Bytes(_) => Value::Bytes(Vec::new(alloc)),
            ScalarRef::EnumNumber(number) => Value::EnumNumber(number),
        }
    }

    /// The value of a scalar; text and bytes are copied.
    pub(crate) fn from_scalar(alloc: Global, scalar: ScalarRef<'_>) -> Result<Value, AllocError>
        ensures { IfOk result (λ v. value_of v ≡ ScalarValue (scalar_of scalar.entry)) }
    {
        Ok(match scalar {
            ScalarRef::Bool(value) => Value::Bool(value),
            ScalarRef::I32(value) => Value::I32(value),
            ScalarRef::I64(value) => Value::I64(value),
            ScalarRef::U32(value) => Value::U32(value),
            ScalarRef::U64(value) => Value::U64(value),
            ScalarRef::F32(bits) => Value::F32(bits),
            ScalarRef::F64(bits) => Value::F64(bits),
            ScalarRef::String(text) => Value::String(String::from_str(alloc, text)?),
            ScalarRef::Bytes(bytes) => Value::Bytes(Vec::from_slice(alloc, bytes)?),
            ScalarRef::EnumNumber(number) => Value::EnumNumber(number),
        })
    }
}

impl MapKey {
    /// The key as a scalar.
    pub(crate) fn as_scalar(&self) -> ScalarRef<'_>
        ensures { scalar_of result ≡ key_of self.now }
    {
        match self {
            MapKey::Bool(value) => ScalarRef::Bool(*value),
            MapKey::I32(value) => ScalarRef::I32(*value),
            MapKey::I64(value) => ScalarRef::I64(*value),
            MapKey::U32(value) => ScalarRef::U32(*value),
            MapKey::U64(value) => ScalarRef::U64(*value),
            MapKey::String(text) => ScalarRef::String(text.as_str()),
        }
    }
}

impl Value {
    /// The value as a scalar, if it is no message, list or map.
    pub(crate) fn as_scalar(&self) -> Option<ScalarRef<'_>>
        ensures { option_map scalar_of result ≡ scalar_in (value_of self.now) }
    {
        match self {
            Value::Bool(value) => Some(ScalarRef::Bool(*value)),
            Value::I32(value) => Some(ScalarRef::I32(*value)),
            Value::I64(value) => Some(ScalarRef::I64(*value)),
            Value::U32(value) => Some(ScalarRef::U32(*value)),
            Value::U64(value) => Some(ScalarRef::U64(*value)),
            Value::F32(bits) => Some(ScalarRef::F32(*bits)),
            Value::F64(bits) => Some(ScalarRef::F64(*bits)),
            Value::String(text) => Some(ScalarRef::String(text.as_str())),
            Value::Bytes(bytes) => Some(ScalarRef::Bytes(bytes.as_slice())),
            Value::EnumNumber(number) => Some(ScalarRef::EnumNumber(*number)),
            Value::Message(_) | Value::List(_) | Value::Map(_) => None,
        }
    }

    /// The scalar that the value is.
    pub(crate) fn scalar(&self) -> ScalarRef<'_>
        requires { IsScalar (value_of self.now) }
        ensures { ScalarValue (scalar_of result) ≡ value_of self.now }
    {
        match self.as_scalar() {
            Some(scalar) => scalar,
            None => unreachable!(),
        }
    }
}
