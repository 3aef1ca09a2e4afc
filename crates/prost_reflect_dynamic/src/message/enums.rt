//! What enums declare (the page "Enum Behavior").

ghost use Rattle.std.specs.Prelude.{◌≡◌};
ghost use Rattle.prost_reflect_pool.specs.SharedPools.{pool_rows as shared_rows};
ghost use Rattle.prost_reflect_rows.specs.Scalars.{is_stray_number};
ghost use Rattle.prost_reflect_dynamic.specs.View.{value_of};

use crate::value::Value;
use prost_reflect_pool::PooledType;
use prost_reflect_rows::enums::is_undeclared;
use prost_reflect_tables::TableKind;

/// Whether a value is a number that its kind, a closed enum of the message type's pool, does not declare. Its record
/// stays an unknown field.
pub(crate) fn is_stray(message_type: &PooledType, kind: TableKind, value: &Value) -> bool
    ensures { result ≡ is_stray_number (shared_rows message_type.now.pool).enums kind (value_of value.now) }
{
    match (kind, value) {
        (TableKind::Enum(place), Value::EnumNumber(number)) => {
            is_undeclared(message_type.pool(), place, *number)
        }
        _ => false,
    }
}
