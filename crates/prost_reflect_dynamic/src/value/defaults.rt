//! What kinds, fields and extensions have where nothing is stored (the guide on field presence), and which values are that.

ghost use Rattle.std.specs.Prelude.{◌≡◌, ◌<◌, ◌↔◌, true, IsTrue, IfOk, Some, length};
ghost use Rattle.prost_reflect_wire.specs.Content.{MessageValue, ScalarValue, empty};
ghost use Rattle.prost_reflect_wire.specs.Schema.{field_valid};
ghost use Rattle.prost_reflect_wire.specs.Typing.{element_valid, fit_test, is_empty_value, kind_takes, value_passes};
ghost use Rattle.prost_reflect_tables.specs.Linking.{is_repeated};
ghost use Rattle.prost_reflect_tables.specs.Rows.{field_row};
ghost use Rattle.prost_reflect_tables.specs.Shown.{schema_from, schema_field};
ghost use Rattle.prost_reflect_pool.specs.Pools.{pool_rows};
ghost use Rattle.prost_reflect_pool.specs.SharedPools.{pool_rows as shared_rows};
ghost use Rattle.prost_reflect_dynamic.specs.Access.{takes};
ghost use Rattle.prost_reflect_dynamic.specs.Edits.{IsWholeFor, IsWholeForExtension};
ghost use Rattle.prost_reflect_dynamic.specs.ExtensionAccess.{extension_takes};
ghost use Rattle.prost_reflect_dynamic.specs.Defaults.{row_default, IsEmptyOf, IsRowDefault, IsKindDefault, IsFieldDefault, IsExtensionDefault, field_default, extension_default};
ghost use Rattle.prost_reflect_dynamic.specs.NamedDefaults.{default_named};
ghost use Rattle.prost_reflect_dynamic.specs.NamedKinds.{is_key_kind, kind_named};
ghost use Rattle.prost_reflect_dynamic.specs.Scalars.{scalar_of};
ghost use Rattle.prost_reflect_dynamic.specs.Variants.{message_in};
ghost use Rattle.prost_reflect_dynamic.specs.declared.value.Value.{out-Value};
ghost use Rattle.prost_reflect_dynamic.specs.View.{key_of, value_of};

use crate::descriptor::{ExtensionDescriptor, FieldDescriptor, Kind};
use crate::message::DynamicMessage;
use crate::value::{MapKey, Value};
use prost_reflect_pool::{LinkedPool, PooledType};
use prost_reflect_rows::forms::{is_list, is_map};
use prost_reflect_rows::scalars::scalar_default;
use prost_reflect_tables::{FieldTable, ScalarRef, TableKind};
use std::alloc::{AllocError, Global};
use std::collections::BTreeMap;
use std::rc::Rc;

impl Value {
    /// The default of the kind: zero, false or empty, the first declared number of an enum, or an empty message.
    ///
    /// So the default of `Kind::Sint32` is `Value::I32(0)`.
    ///
    /// # Errors
    ///
    /// `AllocError` if out of memory.
    pub fn default_value(alloc: Global, kind: &Kind) -> Result<Value, AllocError>
        ensures value { IfOk result (λ value. value_of value ≡ default_named kind.now) }
        ensures default { IfOk result (IsKindDefault kind.now) }
        ensures valid { IfOk result (λ value. element_valid (kind_named kind.now) (value_of value) ≡ true) }
    {
        kind.default_value(alloc)
    }

    /// The default of the field, as `FieldDescriptor::default_value` gives it.
    ///
    /// # Errors
    ///
    /// `AllocError` if out of memory.
    pub fn default_value_for_field(
        alloc: Global,
        field: &FieldDescriptor,
    ) -> Result<Value, AllocError>
        ensures value { IfOk result (λ value. Some (value_of value) ≡ field_default field.now) }
        ensures default { IfOk result (IsFieldDefault field.now) }
        ensures valid { IfOk result (λ value. takes field.now value ≡ true) }
        ensures fits { IfOk result (λ value. value_passes fit_test (value_of value) ≡ true) }
        ensures whole { IfOk result (IsWholeFor field.now) }
    {
        field.default_value(alloc)
    }

    /// The default of the extension, as `ExtensionDescriptor::default_value` gives it.
    ///
    /// # Errors
    ///
    /// `AllocError` if out of memory.
    pub fn default_value_for_extension(
        alloc: Global,
        extension: &ExtensionDescriptor,
    ) -> Result<Value, AllocError>
        ensures value { IfOk result (λ value. Some (value_of value) ≡ extension_default extension.now) }
        ensures default { IfOk result (IsExtensionDefault extension.now) }
        ensures valid { IfOk result (λ value. extension_takes extension.now value ≡ true) }
        ensures fits { IfOk result (λ value. value_passes fit_test (value_of value) ≡ true) }
        ensures whole { IfOk result (IsWholeForExtension extension.now) }
    {
        extension.default_value(alloc)
    }

    /// Whether the value is the default of the kind. Floating-point numbers are compared by their bits, so -0.0 is none. A
    /// message is the default where it is of the kind's message type, or of an equal one of another pool, and stores
    /// neither values nor unknown fields.
    ///
    /// So `Value::F32(0).is_default(&Kind::Float)` holds, and `Value::F32(0x8000_0000).is_default(&Kind::Float)` does not.
    pub fn is_default(&self, kind: &Kind) -> bool
        ensures { IsTrue result ↔ IsKindDefault kind.now self.now }
    {
        match kind {
            Kind::Message(message) => {
                is_empty_message(&message.parent_pool().inner, message.index(), self)
            }
            _ => is_scalar(self, kind.scalar_default()),
        }
    }

    /// Whether the value is the default of the field: an empty list or map, the default that the definition of the field writes,
    /// or else that of its kind, as `is_default` compares it.
    pub fn is_default_for_field(&self, field: &FieldDescriptor) -> bool
        ensures { IsTrue result ↔ IsFieldDefault field.now self.now }
    {
        is_row_default(&field.parent_pool().inner, field.table(), self)
    }

    /// Whether the value is the default of the extension, as `is_default_for_field` says it of a field.
    pub fn is_default_for_extension(&self, extension: &ExtensionDescriptor) -> bool
        ensures { IsTrue result ↔ IsExtensionDefault extension.now self.now }
    {
        is_row_default(&extension.parent_pool().inner, extension.table(), self)
    }
}

impl MapKey {
    /// The default of a kind of keys: zero, false or the empty text. The kind has to be an integer kind, `Bool` or
    /// `String`.
    ///
    /// So the default of `Kind::Sint32` is `MapKey::I32(0)`.
    pub fn default_value(alloc: Global, kind: &Kind) -> MapKey
        requires { IsTrue (is_key_kind kind.now) }
        ensures default { ScalarValue (key_of result) ≡ default_named kind.now }
        ensures valid { kind_takes (kind_named kind.now) (key_of result) ≡ true }
    {
        match kind.scalar_default() {
            ScalarRef::Bool(value) => MapKey::Bool(value),
            ScalarRef::I32(value) => MapKey::I32(value),
            ScalarRef::I64(value) => MapKey::I64(value),
            ScalarRef::U32(value) => MapKey::U32(value),
            ScalarRef::U64(value) => MapKey::U64(value),
            ScalarRef::String(_) => MapKey::String(String::new(alloc)),
            _ => unreachable!(),
        }
    }

    /// Whether the key is the default of the kind. A kind that no key has, as `Kind::Float`, has no key as its default.
    ///
    /// So `MapKey::Bool(false).is_default(&Kind::Bool)` holds.
    pub fn is_default(&self, kind: &Kind) -> bool
        ensures { IsTrue result ↔ (ScalarValue (key_of self.now) ≡ default_named kind.now) }
    {
        match kind {
            Kind::Message(_) => false,
            _ => self.as_scalar().equals(kind.scalar_default()),
        }
    }
}

/// What a field of the pool has where nothing is stored: an empty list or map, an empty message, or the default of its scalars.
pub(crate) fn default_value(
    alloc: Global,
    pool: &Rc<LinkedPool>,
    field: &FieldTable,
) -> Result<Value, AllocError>
    requires { field_valid (schema_from (shared_rows pool.now)) (schema_field (shared_rows pool.now) (field_row field.now)) ≡ true }
    ensures value { IfOk result (λ v. value_of v ≡ row_default (shared_rows pool.now) (field_row field.now)) }
    ensures default { IfOk result (IsRowDefault pool.now (field_row field.now)) }
{
    if field.cardinality.is_repeated() {
        return Ok(no_elements(alloc, pool, field));
    }
    match field.kind {
        TableKind::Message(place) => empty_message(alloc, pool, place),
        _ => Value::from_scalar(alloc, scalar_default(pool, field)),
    }
}

/// An empty map where the field is a map, or else an empty list.
fn no_elements(alloc: Global, pool: &LinkedPool, field: &FieldTable) -> Value
    requires { is_repeated (field_row field.now).cardinality ≡ true }
    ensures { value_of result ≡ row_default (pool_rows pool.now) (field_row field.now) }
{
    if is_map(pool, field) {
        Value::Map(BTreeMap::new(alloc))
    } else {
        Value::List(Vec::new(alloc))
    }
}

/// The empty message of the type at a place of the pool.
fn empty_message(alloc: Global, pool: &Rc<LinkedPool>, place: usize) -> Result<Value, AllocError>
    requires { place < length (shared_rows pool.now).messages }
    ensures value { IfOk result (λ v. value_of v ≡ MessageValue (empty (schema_from (shared_rows pool.now)) place)) }
    ensures default { IfOk result (λ v. IsEmptyOf pool.now place (message_in (out-Value v))) }
{
    let message_type = PooledType::new(pool.clone()?, place);
    Ok(Value::Message(DynamicMessage::of_type(alloc, message_type)))
}

/// Whether a value is what a field of the pool has where nothing is stored.
fn is_row_default(pool: &Rc<LinkedPool>, field: &FieldTable, value: &Value) -> bool
    ensures { IsTrue result ↔ IsRowDefault pool.now (field_row field.now) value.now }
{
    if field.cardinality.is_repeated() {
        return is_empty(pool, field, value);
    }
    match field.kind {
        TableKind::Message(place) => is_empty_message(pool, place, value),
        _ => is_scalar(value, scalar_default(pool, field)),
    }
}

/// Whether a value is an empty list of a list field, or an empty map of a map field.
pub(crate) fn is_empty(pool: &LinkedPool, field: &FieldTable, value: &Value) -> bool
    ensures { result ≡ is_empty_value (schema_field (pool_rows pool.now) (field_row field.now)).form (value_of value.now) }
{
    match value {
        Value::List(values) => values.is_empty() && is_list(pool, field),
        Value::Map(pairs) => pairs.is_empty() && is_map(pool, field),
        _ => false,
    }
}

/// Whether a value is a message that stores nothing, of the type at a place of the pool or of an equal one.
fn is_empty_message(pool: &Rc<LinkedPool>, place: usize, value: &Value) -> bool
    ensures { IsTrue result ↔ IsEmptyOf pool.now place (message_in (out-Value value.now)) }
{
    match value.as_message() {
        Some(message) => message.is_empty_of(pool, place),
        None => false,
    }
}

/// Whether a value is the scalar.
fn is_scalar(value: &Value, scalar: ScalarRef<'_>) -> bool
    ensures { IsTrue result ↔ (value_of value.now ≡ ScalarValue (scalar_of scalar.entry)) }
{
    match value.as_scalar() {
        Some(own) => own.equals(scalar),
        None => false,
    }
}
