//! What the catalog of a pool links to: the rows of extensions, the message types of methods, and the files that files import.

use crate::LinkedPool;
use prost_reflect_tables::{ExtensionTable, FieldTable, ServiceTable};

impl LinkedPool {
    ghost use Rattle.std.specs.Prelude.{◌≡◌, ◌<◌, Some, IfSome, IsTrue, All, length, option_map, slice_get};
    ghost use Rattle.prost_reflect_tables.specs.CatalogRows.{extension_table_row, service_table_row};
    ghost use Rattle.prost_reflect_tables.specs.Linked.{kind_in_range};
    ghost use Rattle.prost_reflect_tables.specs.Places.{fields_at};
    ghost use Rattle.prost_reflect_tables.specs.Rows.{field_row};
    ghost use Rattle.prost_reflect_pool.specs.Listed.{extension_row_at};
    ghost use Rattle.prost_reflect_pool.specs.Pools.{files_of, pool_catalog, pool_rows};

    /// Where the row of the extension at a place stands.
    pub fn extension_table(&self, index: usize) -> &ExtensionTable
        requires { index < length (pool_catalog self.now).extensions }
        ensures row { slice_get (pool_catalog self.now).extensions index ≡ Some (extension_table_row result.now) }
        ensures message { result.now.message < length (pool_rows self.now).messages }
        ensures field { result.now.field < length (fields_at (pool_rows self.now) result.now.message) }
    {
        &self.catalog.extensions[index]
    }

    /// The row of the extension at a place.
    pub fn extension_field(&self, index: usize) -> &FieldTable
        requires { index < length (pool_catalog self.now).extensions }
        ensures row { extension_row_at self.now index ≡ Some (field_row result.now) }
        ensures extension { IsTrue result.now.is_extension }
        ensures file { result.now.id.file < length (files_of self.now) }
        ensures parent { IfSome result.now.id.parent (λ p. p < length (pool_rows self.now).messages) }
        ensures kind { IsTrue (kind_in_range (length (pool_rows self.now).messages) (length (pool_rows self.now).enums) result.now.kind) }
    {
        let place = self.extension_table(index);
        &self.tables.field_tables(place.message)[place.field]
    }

    /// The service at a place. The message types that its methods take and answer with are there.
    pub fn service_table(&self, index: usize) -> &ServiceTable
        requires { index < length (pool_catalog self.now).services }
        ensures row { slice_get (pool_catalog self.now).services index ≡ Some (service_table_row result.now) }
        ensures file { result.now.id.file < length (files_of self.now) }
        ensures inputs { All (λ m. m.input < length (pool_rows self.now).messages) result.now.methods.items }
        ensures outputs { All (λ m. m.output < length (pool_rows self.now).messages) result.now.methods.items }
    {
        &self.catalog.services[index]
    }

    /// The places of the files that the file at a place imports, in the order of the imports.
    pub fn dependencies_of(&self, index: usize) -> &[usize]
        requires { index < length (files_of self.now) }
        ensures row { option_map (λ f. f.dependencies) (slice_get (pool_catalog self.now).files index) ≡ Some result.now }
        ensures there { All (λ d. d < length (files_of self.now)) result.now }
    {
        self.file_table(index).dependencies.as_slice()
    }

    /// The places of the files that the file at a place imports publicly.
    pub fn public_dependencies_of(&self, index: usize) -> &[usize]
        requires { index < length (files_of self.now) }
        ensures row { option_map (λ f. f.public_dependencies) (slice_get (pool_catalog self.now).files index) ≡ Some result.now }
        ensures there { All (λ d. d < length (files_of self.now)) result.now }
    {
        self.file_table(index).public_dependencies.as_slice()
    }
}
