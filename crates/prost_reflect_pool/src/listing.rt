//! What stands at a place of a pool's tables and of its catalog; each place that is named there is there.

ghost use Rattle.std.specs.Prelude.{◌≡◌, ◌<◌, IsTrue, length, Some, IfSome, slice_get};
ghost use Rattle.std.specs.List.{All, list_all};
ghost use Rattle.prost_reflect_tables.specs.CatalogRows.{file_table_row, message_lists_row, enum_lists_row};
ghost use Rattle.prost_reflect_tables.specs.LinkedCatalog.{own_fields};
ghost use Rattle.prost_reflect_tables.specs.Places.{fields_at, is_declared_at};
ghost use Rattle.prost_reflect_tables.specs.Rows.{message_row, oneof_row, enum_row};
ghost use Rattle.prost_reflect_pool.specs.Enums.{values_at};
ghost use Rattle.prost_reflect_pool.specs.Pools.{files_of, pool_rows, pool_catalog};
ghost use Rattle.prost_reflect_pool.specs.RecordPaths.{oneofs_at};

use crate::LinkedPool;
use prost_reflect_tables::{
    EnumLists, EnumTable, FileTable, MessageLists, MessageTable, OneofTable,
};

/// How many there are of each sort.
impl LinkedPool {
    /// The number of files.
    pub fn file_count(&self) -> usize
        ensures { result ≡ length (files_of self.now) }
    {
        self.files.len()
    }

    /// The number of message types, nested ones too.
    pub fn message_count(&self) -> usize
        ensures { result ≡ length (pool_rows self.now).messages }
    {
        self.tables.messages.len()
    }

    /// The number of enums, nested ones too.
    pub fn enum_count(&self) -> usize
        ensures { result ≡ length (pool_rows self.now).enums }
    {
        self.tables.enums.len()
    }

    /// The number of extensions, wherever they are declared.
    pub fn extension_count(&self) -> usize
        ensures { result ≡ length (pool_catalog self.now).extensions }
    {
        self.catalog.extensions.len()
    }

    /// The number of services.
    pub fn service_count(&self) -> usize
        ensures { result ≡ length (pool_catalog self.now).services }
    {
        self.catalog.services.len()
    }
}

/// What stands at a place.
impl LinkedPool {
    /// The message type at a place.
    pub fn message_table(&self, index: usize) -> &MessageTable
        requires { index < length (pool_rows self.now).messages }
        ensures row { slice_get (pool_rows self.now).messages index ≡ Some (message_row result.now) }
        ensures file { result.now.id.file < length (files_of self.now) }
        ensures parent { IfSome result.now.id.parent (λ p. p < length (pool_rows self.now).messages) }
    {
        &self.tables.messages[index]
    }

    /// The oneof at a place among those of a message type. Its members are fields of that type, and no extensions.
    pub fn oneof_table(&self, message: usize, oneof: usize) -> &OneofTable
        requires message { message < length (pool_rows self.now).messages }
        requires oneof { oneof < length (oneofs_at (pool_rows self.now) message) }
        ensures row { slice_get (oneofs_at (pool_rows self.now) message) oneof ≡ Some (oneof_row result.now) }
        ensures members { IsTrue (list_all (is_declared_at (fields_at (pool_rows self.now) message)) result.now.fields.items) }
    {
        &self.message_table(message).oneofs[oneof]
    }

    /// The enum at a place.
    pub fn enum_table(&self, index: usize) -> &EnumTable
        requires { index < length (pool_rows self.now).enums }
        ensures row { slice_get (pool_rows self.now).enums index ≡ Some (enum_row result.now) }
        ensures file { result.now.id.file < length (files_of self.now) }
        ensures parent { IfSome result.now.id.parent (λ p. p < length (pool_rows self.now).messages) }
    {
        &self.tables.enums[index]
    }

    /// What stands in the file at a place.
    pub fn file_table(&self, index: usize) -> &FileTable
        requires { index < length (files_of self.now) }
        ensures row { slice_get (pool_catalog self.now).files index ≡ Some (file_table_row result.now) }
        ensures messages { All (λ i. i < length (pool_rows self.now).messages) result.now.messages.items }
        ensures enums { All (λ i. i < length (pool_rows self.now).enums) result.now.enums.items }
        ensures extensions { All (λ i. i < length (pool_catalog self.now).extensions) result.now.extensions.items }
        ensures services { All (λ i. i < length (pool_catalog self.now).services) result.now.services.items }
    {
        &self.catalog.files[index]
    }

    /// What is declared in the message type at a place, and what is looked up in it.
    pub fn message_lists(&self, index: usize) -> &MessageLists
        requires { index < length (pool_rows self.now).messages }
        ensures row { slice_get (pool_catalog self.now).messages index ≡ Some (message_lists_row result.now) }
        ensures messages { All (λ i. i < length (pool_rows self.now).messages) result.now.messages.items }
        ensures enums { All (λ i. i < length (pool_rows self.now).enums) result.now.enums.items }
        ensures extensions { All (λ i. i < length (pool_catalog self.now).extensions) result.now.extensions.items }
        ensures extending { All (λ i. i < length (pool_catalog self.now).extensions) result.now.extending.items }
        ensures fields { result.now.fields.items ≡ own_fields (fields_at (pool_rows self.now) index) }
        ensures by_name { All (λ i. i < length (fields_at (pool_rows self.now) index)) result.now.by_name.items }
        ensures by_json_name { All (λ i. i < length (fields_at (pool_rows self.now) index)) result.now.by_json_name.items }
    {
        &self.catalog.messages[index]
    }

    /// What is looked up in the enum at a place.
    pub fn enum_lists(&self, index: usize) -> &EnumLists
        requires { index < length (pool_rows self.now).enums }
        ensures row { slice_get (pool_catalog self.now).enums index ≡ Some (enum_lists_row result.now) }
        ensures by_name { All (λ i. i < length (values_at (pool_rows self.now) index)) result.now.by_name.items }
        ensures by_number { All (λ i. i < length (values_at (pool_rows self.now) index)) result.now.by_number.items }
    {
        &self.catalog.enums[index]
    }
}
