//! Services as places of a pool.

ghost use Rattle.std.specs.Prelude.{◌≡◌, ◌<◌, length};
ghost use Rattle.prost_reflect_pool.specs.SharedPools.{pool_catalog};

use crate::descriptor::options::{OptionsError, options_by};
use crate::descriptor::{DescriptorPool, Descriptors, FileDescriptor, MethodDescriptor, Placed};
use crate::message::DynamicMessage;
use prost_reflect_tables::{ServiceTable, text_or_empty};
use prost_reflect_types::{FileDescriptorProto, ServiceDescriptorProto};
use prost_reflect_walks::Places;
use std::alloc::AllocError;

/// A service of a pool (the language guide, "Defining Services").
#[derive(PartialEq, Eq, Debug)]
pub struct ServiceDescriptor {
    index: usize,
    pool: DescriptorPool,
    pub ghost in_range: { index < length (pool_catalog pool.inner).services },
}

impl Drop for ServiceDescriptor {
    fn drop(self) {
        let ServiceDescriptor { index: _, pool: _ } = self;
    }
}

impl Clone for ServiceDescriptor {
    ghost use Rattle.prost_reflect_dynamic.specs.NamedServices.{SameService};

    ghost is_clone = { SameService };

    fn clone(&self) -> Result<ServiceDescriptor, AllocError> {
        Ok(ServiceDescriptor {
            pool: self.pool.clone()?,
            index: self.index,
        })
    }
}

impl Placed<DescriptorPool> for ServiceDescriptor {
    ghost use Rattle.std.specs.Prelude.{nat_lt};

    ghost is_place = { λ pool i. nat_lt i (length (pool_catalog pool.inner).services) };

    ghost stands = { λ pool i service. (service.pool.inner.value ≡ pool.inner.value) × (service.index ≡ i) };

    fn at(pool: &DescriptorPool, index: usize) -> Result<ServiceDescriptor, AllocError> {
        Ok(ServiceDescriptor::new(pool.clone()?, index))
    }
}

impl ServiceDescriptor {
    ghost use Rattle.std.specs.Prelude.{Some, IfOk, All, option_map, option_and_then, slice_get};
    ghost use Rattle.prost_reflect_tables.specs.CatalogRows.{service_table_row};
    ghost use Rattle.prost_reflect_tables.specs.Names.{text_or_empty};
    ghost use Rattle.prost_reflect_pool.specs.RecordPaths.{ServiceRecord, record_of};
    ghost use Rattle.prost_reflect_pool.specs.SharedPools.{files_of, pool_rows};
    ghost use Rattle.prost_reflect_dynamic.specs.NamedServices.{service_row_named, methods_of};
    ghost use Rattle.prost_reflect_walks.specs.Places.{places_from, places_left};
    ghost use Rattle.prost_reflect_dynamic.specs.Options.{OptionsOf};

    /// The service at a place of a pool. The place has to be below the number of services.
    pub fn new(pool: DescriptorPool, index: usize) -> ServiceDescriptor
        requires { index < length (pool_catalog pool.inner).services }
        ensures pool { result.pool ≡ pool }
        ensures index { result.index ≡ index }
    {
        ServiceDescriptor { pool, index }
    }

    /// The service's place in the pool, by file and then by path.
    pub fn index(&self) -> usize
        ensures { result ≡ self.now.index }
    {
        self.index
    }

    /// The pool that the service is of.
    pub fn parent_pool(&self) -> &DescriptorPool
        ensures { result.now ≡ self.now.pool }
    {
        &self.pool
    }

    /// The file that declares the service.
    ///
    /// # Errors
    ///
    /// `AllocError` if out of memory.
    pub fn parent_file(&self) -> Result<FileDescriptor, AllocError>
        ensures file { IfOk result (λ file. option_map (λ service. service.id.file) (service_row_named self.now) ≡ Some file.index) }
        ensures pool { IfOk result (λ file. file.pool.inner.value ≡ self.now.pool.inner.value) }
    {
        FileDescriptor::at(&self.pool, self.table().id.file)
    }

    /// The service's own name, without its package.
    pub fn name(&self) -> &str
        ensures { option_map (λ service. service.id.name) (service_row_named self.now) ≡ Some result.now }
    {
        self.table().id.name()
    }

    /// The package and the name, joined by a dot.
    pub fn full_name(&self) -> &str
        ensures { option_map (λ service. service.id.full_name) (service_row_named self.now) ≡ Some result.now }
    {
        self.table().id.full_name()
    }

    /// The package of the file, empty where it has none.
    pub fn package_name(&self) -> &str
        ensures { option_map (λ file. text_or_empty file.package)
            (option_and_then (λ service. slice_get (files_of self.now.pool.inner) service.id.file)
            (service_row_named self.now))
            ≡ Some result.now }
    {
        text_or_empty(&self.parent_file_descriptor_proto().package)
    }

    /// The path in the file, as in `SourceCodeInfo.Location.path`.
    pub fn path(&self) -> &[i32]
        ensures { option_map (λ service. service.id.path) (service_row_named self.now) ≡ Some result.now }
    {
        self.table().id.path.as_slice()
    }

    /// The record of the file that declares the service.
    pub fn parent_file_descriptor_proto(&self) -> &FileDescriptorProto
        ensures { option_and_then (λ service. slice_get (files_of self.now.pool.inner) service.id.file)
            (service_row_named self.now)
            ≡ Some result.now }
    {
        self.pool.inner.file_record(self.table().id.file)
    }

    /// The service's record.
    pub fn service_descriptor_proto(&self) -> &ServiceDescriptorProto
        ensures { option_and_then (λ service. record_of (files_of self.now.pool.inner) service.id)
            (service_row_named self.now)
            ≡ Some (ServiceRecord result.now) }
    {
        self.pool.inner.service_record(self.index)
    }

    /// The service's options: what its record stores, read by the pool's `google.protobuf.ServiceOptions`.
    /// Where it stores none, the message is empty.
    ///
    /// # Errors
    ///
    /// `NoOptionsMessage` if the pool has no such message type; `Decode` with a fault that the stored bytes have, and only
    /// if that type does not accept them; `OutOfMemory` if memory runs out.
    pub fn options(&self) -> Result<DynamicMessage, OptionsError>
        ensures { OptionsOf self.now.pool.inner
            (option_and_then (λ service. record_of (files_of self.now.pool.inner) service.id)
            (service_row_named self.now)) result }
    {
        options_by(
            &self.pool,
            "google.protobuf.ServiceOptions",
            &self.service_descriptor_proto().options,
        )
    }

    /// The methods, in the order of their declaration.
    ///
    /// ```
    /// // How many methods the service of the full name has; none where no service has it.
    /// fn count_methods(pool: &DescriptorPool, name: &str) -> Result<usize, AllocError> {
    ///     match pool.get_service_by_name(name)? {
    ///         Some(service) => Ok(service.methods().len()),
    ///         None => Ok(0),
    ///     }
    /// }
    /// ```
    pub fn methods(&self) -> Descriptors<'_, ServiceDescriptor, MethodDescriptor>
        ensures service { result.parent.now ≡ self.now }
        ensures places { places_from 0 (length (methods_of self.now)) ≡ places_left result.places }
    {
        Descriptors::new(self, Places::up_to(self.table().methods.len()))
    }

    /// The service's row.
    pub(crate) fn table(&self) -> &ServiceTable
        ensures row { service_row_named self.now ≡ Some (service_table_row result.now) }
        ensures file { result.now.id.file < length (files_of self.now.pool.inner) }
        ensures inputs { All (λ m. m.input < length (pool_rows self.now.pool.inner).messages) result.now.methods.items }
        ensures outputs { All (λ m. m.output < length (pool_rows self.now.pool.inner).messages) result.now.methods.items }
    {
        self.pool.inner.service_table(self.index)
    }
}
