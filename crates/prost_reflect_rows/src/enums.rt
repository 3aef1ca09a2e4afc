//! What enums declare (the page "Enum Behavior").

ghost use Rattle.std.specs.Prelude.{◌≡◌, not, Some, slice_get};
ghost use Rattle.std.specs.List.{list_any};
ghost use Rattle.std.specs.Option.{option_copied};
ghost use Rattle.std.specs.Ordering.{int_eq};
ghost use Rattle.prost_reflect_wire.specs.Scalar.{is_declared};
ghost use Rattle.prost_reflect_tables.specs.Rows.{enum_row, value_numbers};
ghost use Rattle.prost_reflect_tables.specs.Shown.{enum_numbers};
ghost use Rattle.prost_reflect_pool.specs.Enums.{numbers_or_none};
ghost use Rattle.prost_reflect_pool.specs.Pools.{pool_rows};
ghost use Rattle.prost_reflect_rows.specs.KindNames.{enums_in};

use prost_reflect_pool::LinkedPool;
use prost_reflect_tables::EnumTable;

/// Whether one of the values of the enum at a place of the pool has the number, by binary search.
fn has_number(pool: &LinkedPool, table: &EnumTable, place: usize, number: i32) -> bool
    requires { slice_get (pool_rows pool.now).enums place ≡ Some (enum_row table.now) }
    ensures { result ≡ list_any (int_eq number) (value_numbers (enum_row table.now)) }
{
    pool.value_place_by_number(place, number).is_some()
}

/// Whether the enum at a place of the pool is closed and does not declare the number.
fn lacks(pool: &LinkedPool, table: &EnumTable, place: usize, number: i32) -> bool
    requires { slice_get (pool_rows pool.now).enums place ≡ Some (enum_row table.now) }
    ensures { result ≡ not (is_declared (enum_numbers (enum_row table.now)) number) }
{
    table.is_closed && !has_number(pool, table, place, number)
}

/// Whether an enum stands at the place of the pool, is closed and does not declare the number.
pub fn is_undeclared(pool: &LinkedPool, place: usize, number: i32) -> bool
    ensures { result ≡ not (is_declared (numbers_or_none (slice_get (pool_rows pool.now).enums place)) number) }
{
    match pool.tables().enum_at(place) {
        Some(table) => lacks(pool, table, place, number),
        None => false,
    }
}

/// Whether the enum at a place takes the number: an open one takes each, a closed one those that it declares. Where there is
/// no pool there is no enum, and each number is taken.
pub fn takes_number(pool: Option<&LinkedPool>, place: usize, number: i32) -> bool
    ensures { result ≡ is_declared (numbers_or_none (slice_get (enums_in (option_copied pool.entry)) place)) number }
{
    match pool {
        Some(pool) => !is_undeclared(pool, place, number),
        None => true,
    }
}
