//! Which values kinds and fields take.

ghost use Rattle.std.specs.Prelude.{◌≡◌, false, true};
ghost use Rattle.std.specs.Option.{option_copied};
ghost use Rattle.std.specs.List.{list_all};
ghost use Rattle.prost_reflect_wire.specs.Typing.{kind_takes, element_valid, value_valid};
ghost use Rattle.prost_reflect_tables.specs.Rows.{field_row};
ghost use Rattle.prost_reflect_tables.specs.Shown.{schema_field, schema_kind};
ghost use Rattle.prost_reflect_pool.specs.Pools.{pool_rows};
ghost use Rattle.prost_reflect_pool.specs.declared.pooled_type.PooledType.{PooledType};
ghost use Rattle.prost_reflect_dynamic.specs.Access.{IsOwnField, number_of, takes, takes_at};
ghost use Rattle.prost_reflect_dynamic.specs.ExtensionAccess.{IsOwnExtension, extension_number, extension_takes};
ghost use Rattle.prost_reflect_rows.specs.KindNames.{enums_in};
ghost use Rattle.prost_reflect_dynamic.specs.NamedKinds.{kind_named};
ghost use Rattle.prost_reflect_dynamic.specs.Valid.{list_fits, map_fits, pair_fits};
ghost use Rattle.prost_reflect_dynamic.specs.View.{key_of, value_of};

use crate::descriptor::{ExtensionDescriptor, FieldDescriptor, Kind};
use crate::value::{MapKey, Value};
use prost_reflect_pool::LinkedPool;
use prost_reflect_rows::scalars::scalar_valid;
use prost_reflect_tables::{FieldTable, TableKind};
use std::collections::BTreeMap;

impl Value {
    /// Whether the value is one of the kind: a scalar of the kind, which is a declared number where the kind is a closed
    /// enum, or any message where it is a message kind. A list or a map is of no kind.
    ///
    /// So `Value::I32(5).is_valid(&Kind::Sint32)` holds, and `Value::U32(5).is_valid(&Kind::Sint32)` does not.
    pub fn is_valid(&self, kind: &Kind) -> bool
        ensures { result ≡ element_valid (kind_named kind.now) (value_of self.now) }
    {
        element_valid(kind.pool(), kind.to_table(), self)
    }

    /// Whether the field takes the value: one value of its kind, or a list of such where the field is a list, or a map
    /// whose keys and values are of the kinds of its entries where it is a map. No message is looked into.
    ///
    /// A value for which this holds may be handed to `DynamicMessage::set_field`.
    pub fn is_valid_for_field(&self, field: &FieldDescriptor) -> bool
        ensures fits { result ≡ takes field.now self.now }
        ensures by_number { (t : PooledType) → IsOwnField t field.now → result ≡ takes_at t (number_of field.now) self.now }
    {
        value_valid(&field.parent_pool().inner, field.table(), self)
    }

    /// Whether the extension takes the value, as `is_valid_for_field` says it of a field.
    pub fn is_valid_for_extension(&self, extension: &ExtensionDescriptor) -> bool
        ensures fits { result ≡ extension_takes extension.now self.now }
        ensures by_number { (t : PooledType) → IsOwnExtension t extension.now
            → result ≡ takes_at t (extension_number extension.now) self.now }
    {
        value_valid(&extension.parent_pool().inner, extension.table(), self)
    }
}

impl MapKey {
    /// Whether the key is a value of the kind.
    ///
    /// So `MapKey::Bool(true).is_valid(&Kind::Bool)` holds. No key is of a floating-point kind, of bytes, of an enum or of
    /// a message kind.
    pub fn is_valid(&self, kind: &Kind) -> bool
        ensures { result ≡ kind_takes (kind_named kind.now) (key_of self.now) }
    {
        scalar_valid(kind.pool(), kind.to_table(), self.as_scalar())
    }
}

/// Whether a field of the pool takes a value, by its form and its kind. No message is looked into.
pub(crate) fn value_valid(pool: &LinkedPool, field: &FieldTable, value: &Value) -> bool
    ensures { result ≡ value_valid (schema_field (pool_rows pool.now) (field_row field.now)) (value_of value.now) }
{
    if !field.cardinality.is_repeated() {
        return element_valid(Some(pool), field.kind, value);
    }
    match pool.map_parts(field) {
        Some((key, part)) => map_fits(Some(pool), key, part, value),
        None => list_fits(Some(pool), field.kind, value),
    }
}

/// Whether a value is a list of values of the kind.
fn list_fits(pool: Option<&LinkedPool>, kind: TableKind, value: &Value) -> bool
    ensures { result ≡ list_fits (schema_kind (enums_in (option_copied pool.entry)) kind false) (value_of value.now) }
{
    match value {
        Value::List(values) => elements_valid(pool, kind, values.as_slice()),
        _ => false,
    }
}

/// Whether a value is a map whose keys and values are those of two rows.
fn map_fits(pool: Option<&LinkedPool>, key: &FieldTable, part: &FieldTable, value: &Value) -> bool
    ensures { result
        ≡ map_fits (schema_kind (enums_in (option_copied pool.entry)) (field_row key.now).kind false)
        (schema_kind (enums_in (option_copied pool.entry)) (field_row part.now).kind false) (value_of value.now) }
{
    match value {
        Value::Map(pairs) => pairs_valid(pool, key.kind, part.kind, pairs),
        _ => false,
    }
}

/// Whether each value is one of the kind.
fn elements_valid(pool: Option<&LinkedPool>, kind: TableKind, values: &[Value]) -> bool
    ensures { result
        ≡ list_all (λ v. element_valid (schema_kind (enums_in (option_copied pool.entry)) kind false) (value_of v))
        values.now }
{
    for value in values {
        if !element_valid(pool, kind, value) {
            return false;
        }
    }
    true
}

/// Whether each key and each value is one of its kind.
fn pairs_valid(
    pool: Option<&LinkedPool>,
    key_kind: TableKind,
    kind: TableKind,
    pairs: &BTreeMap<MapKey, Value>,
) -> bool
    ensures { result
        ≡ list_all
        (pair_fits (schema_kind (enums_in (option_copied pool.entry)) key_kind false)
        (schema_kind (enums_in (option_copied pool.entry)) kind false)) pairs.now.entries }
{
    for (key, value) in pairs.iter() {
        if !pair_valid(pool, key_kind, kind, key, value) {
            return false;
        }
    }
    true
}

/// Whether a key and a value are each of its kind.
fn pair_valid(
    pool: Option<&LinkedPool>,
    key_kind: TableKind,
    kind: TableKind,
    key: &MapKey,
    value: &Value,
) -> bool
    ensures { result
        ≡ pair_fits (schema_kind (enums_in (option_copied pool.entry)) key_kind false)
        (schema_kind (enums_in (option_copied pool.entry)) kind false) (key.now, value.now) }
{
    scalar_valid(pool, key_kind, key.as_scalar()) && element_valid(pool, kind, value)
}

/// Whether a value is one of the kind.
pub(crate) fn element_valid(pool: Option<&LinkedPool>, kind: TableKind, value: &Value) -> bool
    ensures { result ≡ element_valid (schema_kind (enums_in (option_copied pool.entry)) kind false) (value_of value.now) }
{
    match value {
        Value::Message(_) => matches!(kind, TableKind::Message(_)),
        Value::List(_) => false,
        Value::Map(_) => false,
        _ => scalar_valid(pool, kind, value.scalar()),
    }
}
