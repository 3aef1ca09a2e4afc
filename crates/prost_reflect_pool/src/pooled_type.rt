//! Message types as places of a shared pool.

ghost use Rattle.std.specs.Prelude.{◌≡◌, ◌<◌, length};
ghost use Rattle.prost_reflect_pool.specs.SharedPools.{pool_rows};

use crate::LinkedPool;
use prost_reflect_tables::{EnumTable, FieldTable, Tables};
use std::alloc::AllocError;
use std::rc::Rc;

/// A message type of a shared pool.
#[derive(PartialEq, Eq, Debug)]
pub struct PooledType {
    index: usize,
    pool: Rc<LinkedPool>,
    pub ghost in_range: { index < length (pool_rows pool).messages },
}

impl Drop for PooledType {
    fn drop(self) {
        let PooledType { index: _, pool: _ } = self;
    }
}

impl Clone for PooledType {
    ghost use Rattle.prost_reflect_pool.specs.MessageTypes.{SameMessage};

    ghost is_clone = { SameMessage };

    fn clone(&self) -> Result<PooledType, AllocError> {
        Ok(PooledType {
            pool: self.pool.clone()?,
            index: self.index,
        })
    }
}

impl PooledType {
    ghost use Rattle.std.specs.Prelude.{IfOk, option_map, map, slice_get};
    ghost use Rattle.prost_reflect_wire.specs.Schema.{known, field_of};
    ghost use Rattle.prost_reflect_tables.specs.Rows.{field_row, enum_row};
    ghost use Rattle.prost_reflect_tables.specs.Places.{place_of, row_of};
    ghost use Rattle.prost_reflect_tables.specs.Schema.{rows_of};
    ghost use Rattle.prost_reflect_tables.specs.Shown.{schema_field};
    ghost use Rattle.prost_reflect_pool.specs.MapParts.{map_parts};
    ghost use Rattle.prost_reflect_pool.specs.MessageTypes.{schema_at, type_at, fields_of};

    /// The message type at a place of a pool.
    pub fn new(pool: Rc<LinkedPool>, index: usize) -> PooledType
        requires { index < length (pool_rows pool).messages }
        ensures pool { result.pool ≡ pool }
        ensures index { result.index ≡ index }
    {
        PooledType { pool, index }
    }

    /// The message type at a place of the same pool.
    ///
    /// # Errors
    ///
    /// `AllocError` if out of memory.
    pub fn at(&self, index: usize) -> Result<PooledType, AllocError>
        requires { index < length (pool_rows self.now.pool).messages }
        ensures pool { IfOk result (λ t. t.pool.value ≡ self.now.pool.value) }
        ensures index { IfOk result (λ t. t.index ≡ index) }
    {
        Ok(PooledType {
            pool: self.pool.clone()?,
            index,
        })
    }

    /// The pool that the message type is of.
    pub fn pool(&self) -> &Rc<LinkedPool>
        ensures { result.now ≡ self.now.pool }
    {
        &self.pool
    }

    /// The message type's place in the pool.
    pub fn index(&self) -> usize
        ensures { result ≡ self.now.index }
    {
        self.index
    }

    /// The linked tables of the pool.
    pub fn tables(&self) -> &Tables
        ensures { rows_of result.now ≡ pool_rows self.now.pool }
    {
        self.pool.tables()
    }

    /// The rows of the fields and extensions, in ascending order of their numbers.
    pub fn field_tables(&self) -> &[FieldTable]
        ensures { map field_row result.now ≡ fields_of self.now }
    {
        self.tables().field_tables(self.index)
    }

    /// The place of the field or extension of a number.
    pub fn field_place(&self, number: u32) -> Option<usize>
        ensures { result ≡ place_of (fields_of self.now) number }
    {
        self.tables().field_place(self.index, number)
    }

    /// The row of the field or extension of a number.
    pub fn field_table(&self, number: u32) -> Option<&FieldTable>
        ensures row { option_map (λ field. field_row field.now) result ≡ row_of (fields_of self.now) number }
        ensures field { option_map (λ field. schema_field (pool_rows self.now.pool) (field_row field.now)) result
            ≡ field_of (known (schema_at self.now) (type_at self.now)) number }
    {
        self.tables().field_table(self.index, number)
    }

    /// The row of the enum at a place of the pool, or none where no enum stands there.
    pub fn enum_table(&self, place: usize) -> Option<&EnumTable>
        ensures { option_map (λ e. enum_row e.now) result ≡ slice_get (pool_rows self.now.pool).enums place }
    {
        self.tables().enums.get(place)
    }

    /// The rows of the key and the value of the entries of a field of the message type, or none where the field is no map.
    pub fn map_parts<'a>(&'a self, field: &FieldTable) -> Option<(&'a FieldTable, &'a FieldTable)>
        ensures { option_map (λ parts. (field_row parts.0.now, field_row parts.1.now)) result
            ≡ map_parts (pool_rows self.now.pool) (field_row field.now) }
    {
        self.pool.map_parts(field)
    }
}
