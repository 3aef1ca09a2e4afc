//! The forms of fields: one value, a list, or a map.

ghost use Rattle.std.specs.Prelude.{◌≡◌};
ghost use Rattle.prost_reflect_wire.specs.Schema.{is_list, is_map};
ghost use Rattle.prost_reflect_tables.specs.Rows.{field_row};
ghost use Rattle.prost_reflect_tables.specs.Shown.{schema_field};
ghost use Rattle.prost_reflect_pool.specs.Pools.{pool_rows};

use prost_reflect_pool::LinkedPool;
use prost_reflect_tables::FieldTable;

/// Whether a field of the pool has a list of values, and is no map.
pub fn is_list(pool: &LinkedPool, field: &FieldTable) -> bool
    ensures { result ≡ is_list (schema_field (pool_rows pool.now) (field_row field.now)).form }
{
    field.cardinality.is_repeated() && !is_map(pool, field)
}

/// Whether a field of the pool is a map.
pub fn is_map(pool: &LinkedPool, field: &FieldTable) -> bool
    ensures { result ≡ is_map (schema_field (pool_rows pool.now) (field_row field.now)).form }
{
    pool.map_parts(field).is_some()
}
