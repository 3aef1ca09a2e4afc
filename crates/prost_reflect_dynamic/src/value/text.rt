//! Values that texts spell.

ghost use Rattle.std.specs.Prelude.{◌≡◌, IfOk, option_map};
ghost use Rattle.prost_reflect_wire.specs.Content.{ScalarValue};
ghost use Rattle.prost_reflect_tables.specs.Rows.{written_scalar};
ghost use Rattle.prost_reflect_tables.specs.WrittenDefaults.{field_default, number_named};
ghost use Rattle.prost_reflect_dynamic.specs.NamedKinds.{table_kind, values_named};
ghost use Rattle.prost_reflect_dynamic.specs.View.{value_of};

use crate::descriptor::Kind;
use crate::value::Value;
use prost_reflect_flat::written_default;
use prost_reflect_tables::WrittenDefault;
use std::alloc::{AllocError, Global};

impl Value {
    /// The value of the kind that a text spells, as the definition of a proto2 field writes its default: digits with an
    /// optional `-` before them, also `inf`, `-inf` or `nan` of a floating-point kind; `true` or `false`; a text as it
    /// stands; bytes with escapes; the name of an enum's value. Any other text spells none, and no text spells a message.
    ///
    /// So `Value::from_text(alloc, &Kind::Sint32, "-3")` is `Value::I32(-3)`.
    ///
    /// # Errors
    ///
    /// `AllocError` if out of memory.
    pub fn from_text(alloc: Global, kind: &Kind, text: &str) -> Result<Option<Value>, AllocError>
        ensures { IfOk result
            (λ value. option_map value_of value
            ≡ option_map ScalarValue (field_default (table_kind kind.now) (values_named kind.now) text.now)) }
    {
        match written_default(alloc, kind.to_table(), number_named(kind, text), text)? {
            Some(default) => Ok(Some(written_value(default))),
            None => Ok(None),
        }
    }
}

/// The number of the first value of a name, if the kind is an enum and has one.
fn number_named(kind: &Kind, name: &str) -> Option<i32>
    ensures { result ≡ number_named (values_named kind.now) name.now }
{
    match kind {
        Kind::Enum(e) => e.number_named(name),
        _ => None,
    }
}

/// The value that a default is.
fn written_value(default: WrittenDefault) -> Value
    ensures { value_of result ≡ ScalarValue (written_scalar default) }
{
    match default {
        WrittenDefault::Bool(value) => Value::Bool(value),
        WrittenDefault::I32(value) => Value::I32(value),
        WrittenDefault::I64(value) => Value::I64(value),
        WrittenDefault::U32(value) => Value::U32(value),
        WrittenDefault::U64(value) => Value::U64(value),
        WrittenDefault::F32(bits) => Value::F32(bits),
        WrittenDefault::F64(bits) => Value::F64(bits),
        WrittenDefault::String(text) => Value::String(text),
        WrittenDefault::Bytes(bytes) => Value::Bytes(bytes),
        WrittenDefault::EnumNumber(number) => Value::EnumNumber(number),
    }
}
