//! Values and the keys of maps: their defaults, and what texts spell.

ghost use Rattle.std.specs.Prelude.{◌≡◌, ◌↔◌, IfOk, IsTrue, option_map};
ghost use Rattle.prost_reflect_wire.specs.Content.{ScalarValue};
ghost use Rattle.prost_reflect_tables.specs.WrittenDefaults.{field_default};
ghost use Rattle.prost_reflect_dynamic.specs.Defaults.{IsKindDefault};
ghost use Rattle.prost_reflect_dynamic.specs.NamedDefaults.{default_named};
ghost use Rattle.prost_reflect_dynamic.specs.NamedKinds.{is_key_kind, table_kind, values_named};
ghost use Rattle.prost_reflect_dynamic.specs.View.{key_of, value_of};

use prost_reflect_dynamic::{Kind, MapKey, Value};
use std::alloc::{AllocError, Global};

/// The default of a kind: zero, false or empty, the first declared number of an enum, or an empty message.
///
/// # Errors
///
/// `AllocError` if out of memory.
pub fn default_of(alloc: Global, kind: &Kind) -> Result<Value, AllocError>
    ensures { IfOk result (λ value. value_of value ≡ default_named kind.now) }
{
    Value::default_value(alloc, kind)
}

/// Whether a value is the default of a kind.
pub fn is_default_of(value: &Value, kind: &Kind) -> bool
    ensures { IsTrue result ↔ IsKindDefault kind.now value.now }
{
    value.is_default(kind)
}

/// The value of a kind that a text spells, or none where it spells none.
///
/// # Errors
///
/// `AllocError` if out of memory.
pub fn spelled(alloc: Global, kind: &Kind, text: &str) -> Result<Option<Value>, AllocError>
    ensures { IfOk result
        (λ value. option_map value_of value
        ≡ option_map ScalarValue (field_default (table_kind kind.now) (values_named kind.now) text.now)) }
{
    Value::from_text(alloc, kind, text)
}

/// The default of a kind of keys: zero, false or the empty text. The kind has to be an integer kind, `Bool` or `String`.
pub fn default_key_of(alloc: Global, kind: &Kind) -> MapKey
    requires { IsTrue (is_key_kind kind.now) }
    ensures { ScalarValue (key_of result) ≡ default_named kind.now }
{
    MapKey::default_value(alloc, kind)
}
