//! The field that a path of numbers leads to.

ghost use Rattle.std.specs.Prelude.{◌≡◌, ◌<◌, IfSome, IsTrue, Some, length, option_map, slice_get};
ghost use Rattle.prost_reflect_tables.specs.Places.{fields_at, is_declared_at};
ghost use Rattle.prost_reflect_tables.specs.Rows.{field_row};
ghost use Rattle.prost_reflect_tables.specs.Shown.{schema_field, schema_from};
ghost use Rattle.prost_reflect_pool.specs.Pools.{pool_rows};
ghost use Rattle.prost_reflect_rows.specs.Paths.{declared_place, field_led, type_inside, place_behind, path_place, IsFieldPlace};
ghost use Rattle.prost_reflect_rows.specs.RowKinds.{single_place};

use prost_reflect_pool::LinkedPool;
use prost_reflect_tables::{FieldTable, TableKind};

/// The most numbers of a path: one for each level of messages that is read, and one for the field.
const PATH_LIMIT: usize = 101;

/// The field that a path of numbers leads to from the message type at a place of the pool: the last number is the field's, and
/// each before it that of a field of one message or group, in whose type the next one is looked up. There is none where the
/// path is empty or has more than 101 numbers, and an extension is none.
pub fn field_led<'a>(pool: &'a LinkedPool, place: usize, path: &[u32]) -> Option<&'a FieldTable>
    requires { place < length (pool_rows pool.now).messages }
    ensures { option_map (λ field. schema_field (pool_rows pool.now) (field_row field.now)) result
        ≡ field_led (schema_from (pool_rows pool.now)) place path.now }
{
    let (message, index) = field_place(pool, place, path)?;
    Some(table_at(pool, message, index))
}

/// Where the field stands that a path leads to, as `field_led` finds it: the place of its message type, and its own there.
pub fn field_place(pool: &LinkedPool, place: usize, path: &[u32]) -> Option<(usize, usize)>
    requires { place < length (pool_rows pool.now).messages }
    ensures place { result ≡ path_place (pool_rows pool.now) place path.now }
    ensures declared { IfSome result (IsFieldPlace (pool_rows pool.now)) }
{
    if path.len() > PATH_LIMIT {
        return None;
    }
    place_behind(pool, place, path)
}

/// Where the field stands that a path of any length leads to: the place of its message type, and its own there.
fn place_behind(pool: &LinkedPool, place: usize, path: &[u32]) -> Option<(usize, usize)>
    requires { place < length (pool_rows pool.now).messages }
    ensures place { result ≡ place_behind (pool_rows pool.now) place path.now }
    ensures declared { IfSome result (IsFieldPlace (pool_rows pool.now)) }
{
    let (number, rest) = path.split_first()?;
    if rest.is_empty() {
        let index = declared_place(pool, place, *number)?;
        return Some((place, index));
    }
    let inside = type_inside(pool, place, *number)?;
    place_behind(pool, inside, rest)
}

/// The place of the message type in the field of a number, of one message or group.
fn type_inside(pool: &LinkedPool, place: usize, number: u32) -> Option<usize>
    requires { place < length (pool_rows pool.now).messages }
    ensures { result ≡ type_inside (pool_rows pool.now) place number }
{
    let index = declared_place(pool, place, number)?;
    single_place(table_at(pool, place, index))
}

/// The place of the field of a number among those of the message type at a place of the pool; the number of an extension finds
/// none.
pub fn declared_place(pool: &LinkedPool, message: usize, number: u32) -> Option<usize>
    requires { message < length (pool_rows pool.now).messages }
    ensures place { result ≡ declared_place (fields_at (pool_rows pool.now) message) number }
    ensures declared { IfSome result (λ i. IsTrue (is_declared_at (fields_at (pool_rows pool.now) message) i)) }
{
    let tables = pool.tables();
    match tables.field_place(message, number) {
        Some(index) if !tables.field_tables(message)[index].is_extension => Some(index),
        _ => None,
    }
}

/// The row of the field at a place of a message type.
fn table_at(pool: &LinkedPool, message: usize, index: usize) -> &FieldTable
    requires message { message < length (pool_rows pool.now).messages }
    requires declared { IsTrue (is_declared_at (fields_at (pool_rows pool.now) message) index) }
    ensures { slice_get (fields_at (pool_rows pool.now) message) index ≡ Some (field_row result.now) }
{
    &pool.tables().field_tables(message)[index]
}

/// The place of the message type of a field of one message or group.
fn single_place(field: &FieldTable) -> Option<usize>
    ensures { result ≡ single_place (field_row field.now) }
{
    match field.kind {
        TableKind::Message(place) if !field.cardinality.is_repeated() => Some(place),
        _ => None,
    }
}
