//! What fields of a message have where nothing is stored (the guide on field presence).

ghost use Rattle.std.specs.Prelude.{◌≡◌, true, IfOk};
ghost use Rattle.prost_reflect_wire.specs.Edit.{default_value};
ghost use Rattle.prost_reflect_wire.specs.Schema.{field_valid};
ghost use Rattle.prost_reflect_wire.specs.Typing.{is_field_default, kept_inside};
ghost use Rattle.prost_reflect_tables.specs.Rows.{field_row};
ghost use Rattle.prost_reflect_tables.specs.Shown.{schema_field};
ghost use Rattle.prost_reflect_pool.specs.MessageTypes.{schema_at};
ghost use Rattle.prost_reflect_pool.specs.SharedPools.{pool_rows};
ghost use Rattle.prost_reflect_dynamic.specs.Defaults.{IsRowDefault};
ghost use Rattle.prost_reflect_dynamic.specs.View.{value_of};

use crate::value::{Value, defaults};
use prost_reflect_pool::PooledType;
use prost_reflect_rows::scalars::is_default;
use prost_reflect_tables::FieldTable;
use std::alloc::{AllocError, Global};

/// Whether a value, of any form, is what its field has where nothing is stored: an empty list or map, or the default of a
/// field of one value without presence.
pub(crate) fn is_field_default(message_type: &PooledType, field: &FieldTable, value: &Value) -> bool
    requires { field_valid (schema_at message_type.now) (schema_field (pool_rows message_type.now.pool) (field_row field.now)) ≡ true }
    ensures { result
        ≡ is_field_default (schema_field (pool_rows message_type.now.pool) (field_row field.now))
        (kept_inside (value_of value.now)) }
{
    match value.as_scalar() {
        Some(scalar) => {
            !field.cardinality.is_repeated()
                && !field.supports_presence
                && is_default(message_type, field, scalar)
        }
        None => defaults::is_empty(message_type.pool(), field, value),
    }
}

/// What a field has where nothing is stored: an empty list or map, an empty message, or the default of its scalars.
pub(crate) fn default_value(
    alloc: Global,
    message_type: &PooledType,
    field: &FieldTable,
) -> Result<Value, AllocError>
    requires { field_valid (schema_at message_type.now) (schema_field (pool_rows message_type.now.pool) (field_row field.now)) ≡ true }
    ensures default { IfOk result (IsRowDefault message_type.now.pool (field_row field.now)) }
    ensures value { IfOk result
        (λ v. value_of v
        ≡ default_value (schema_at message_type.now)
        (schema_field (pool_rows message_type.now.pool) (field_row field.now)).form
        (schema_field (pool_rows message_type.now.pool) (field_row field.now)).value_type) }
{
    defaults::default_value(alloc, message_type.pool(), field)
}
