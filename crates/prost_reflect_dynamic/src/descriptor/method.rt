//! Methods as places of a service.

ghost use Rattle.std.specs.Prelude.{◌≡◌, ◌<◌, length};
ghost use Rattle.prost_reflect_dynamic.specs.NamedServices.{methods_of};

use crate::descriptor::options::{OptionsError, options_by};
use crate::descriptor::{
    DescriptorPool, FileDescriptor, MessageDescriptor, Placed, ServiceDescriptor,
};
use crate::message::DynamicMessage;
use prost_reflect_tables::MethodTable;
use prost_reflect_types::MethodDescriptorProto;
use std::alloc::AllocError;

/// A method of a service.
#[derive(PartialEq, Eq, Debug)]
pub struct MethodDescriptor {
    index: usize,
    service: ServiceDescriptor,
    pub ghost in_range: { index < length (methods_of service) },
}

impl Drop for MethodDescriptor {
    fn drop(self) {
        let MethodDescriptor {
            index: _,
            service: _,
        } = self;
    }
}

impl Clone for MethodDescriptor {
    ghost use Rattle.prost_reflect_dynamic.specs.NamedMethods.{SameMethod};

    ghost is_clone = { SameMethod };

    fn clone(&self) -> Result<MethodDescriptor, AllocError> {
        Ok(MethodDescriptor {
            service: self.service.clone()?,
            index: self.index,
        })
    }
}

impl Placed<ServiceDescriptor> for MethodDescriptor {
    ghost use Rattle.std.specs.Prelude.{nat_lt};
    ghost use Rattle.prost_reflect_dynamic.specs.NamedServices.{SameService};

    ghost is_place = { λ service i. nat_lt i (length (methods_of service)) };

    ghost stands = { λ service i method. SameService service method.service × (method.index ≡ i) };

    fn at(service: &ServiceDescriptor, index: usize) -> Result<MethodDescriptor, AllocError> {
        Ok(MethodDescriptor::new(service.clone()?, index))
    }
}

impl MethodDescriptor {
    ghost use Rattle.std.specs.Prelude.{Some, IfOk, option_map};
    ghost use Rattle.prost_reflect_tables.specs.CatalogRows.{method_table_row};
    ghost use Rattle.prost_reflect_pool.specs.RecordPaths.{MethodRecord};
    ghost use Rattle.prost_reflect_pool.specs.SharedPools.{pool_rows};
    ghost use Rattle.prost_reflect_dynamic.specs.NamedMethods.{method_row_named, record_named};
    ghost use Rattle.prost_reflect_dynamic.specs.NamedRecords.{client_streams, server_streams};
    ghost use Rattle.prost_reflect_dynamic.specs.NamedServices.{service_row_named};
    ghost use Rattle.prost_reflect_dynamic.specs.Options.{OptionsOf};

    /// The method at a place of a service. The place has to be below the number of methods.
    pub fn new(service: ServiceDescriptor, index: usize) -> MethodDescriptor
        requires { index < length (methods_of service) }
        ensures service { result.service ≡ service }
        ensures index { result.index ≡ index }
    {
        MethodDescriptor { service, index }
    }

    /// The method's place in its service, in the order of declaration.
    pub fn index(&self) -> usize
        ensures { result ≡ self.now.index }
    {
        self.index
    }

    /// The service that the method is of.
    pub fn parent_service(&self) -> &ServiceDescriptor
        ensures { result.now ≡ self.now.service }
    {
        &self.service
    }

    /// The pool that the method is of.
    pub fn parent_pool(&self) -> &DescriptorPool
        ensures { result.now ≡ self.now.service.pool }
    {
        self.service.parent_pool()
    }

    /// The file that declares the method.
    ///
    /// # Errors
    ///
    /// `AllocError` if out of memory.
    pub fn parent_file(&self) -> Result<FileDescriptor, AllocError>
        ensures file { IfOk result
            (λ file. option_map (λ service. service.id.file) (service_row_named self.now.service) ≡ Some file.index) }
        ensures pool { IfOk result (λ file. file.pool.inner.value ≡ self.now.service.pool.inner.value) }
    {
        self.service.parent_file()
    }

    /// The method's own name, without its scope.
    pub fn name(&self) -> &str
        ensures { option_map (λ method. method.id.name) (method_row_named self.now) ≡ Some result.now }
    {
        self.table().id.name()
    }

    /// The full name of the service and the method's name, joined by a dot.
    pub fn full_name(&self) -> &str
        ensures { option_map (λ method. method.id.full_name) (method_row_named self.now) ≡ Some result.now }
    {
        self.table().id.full_name()
    }

    /// The path in the file, as in `SourceCodeInfo.Location.path`.
    pub fn path(&self) -> &[i32]
        ensures { option_map (λ method. method.id.path) (method_row_named self.now) ≡ Some result.now }
    {
        self.table().id.path.as_slice()
    }

    /// The method's record.
    pub fn method_descriptor_proto(&self) -> &MethodDescriptorProto
        ensures { record_named self.now ≡ Some (MethodRecord result.now) }
    {
        let pool = &self.service.parent_pool().inner;
        pool.method_record(self.service.index(), self.index)
    }

    /// The method's options: what its record stores, read by the pool's `google.protobuf.MethodOptions`.
    /// Where it stores none, the message is empty.
    ///
    /// # Errors
    ///
    /// `NoOptionsMessage` if the pool has no such message type; `Decode` with a fault that the stored bytes have, and only
    /// if that type does not accept them; `OutOfMemory` if memory runs out.
    pub fn options(&self) -> Result<DynamicMessage, OptionsError>
        ensures { OptionsOf self.now.service.pool.inner (record_named self.now) result }
    {
        options_by(
            self.parent_pool(),
            "google.protobuf.MethodOptions",
            &self.method_descriptor_proto().options,
        )
    }

    /// Whether the client sends more than one message.
    pub fn is_client_streaming(&self) -> bool
        ensures { client_streams (record_named self.now) ≡ Some result }
    {
        self.method_descriptor_proto()
            .client_streaming
            .unwrap_or(false)
    }

    /// Whether the server sends more than one message.
    pub fn is_server_streaming(&self) -> bool
        ensures { server_streams (record_named self.now) ≡ Some result }
    {
        self.method_descriptor_proto()
            .server_streaming
            .unwrap_or(false)
    }

    /// The message type that the method takes.
    ///
    /// ```
    /// // Whether the method takes `google.protobuf.Empty`, the message without fields.
    /// fn takes_nothing(method: &MethodDescriptor) -> Result<bool, AllocError> {
    ///     Ok(method.input()?.full_name() == "google.protobuf.Empty")
    /// }
    /// ```
    ///
    /// # Errors
    ///
    /// `AllocError` if out of memory.
    pub fn input(&self) -> Result<MessageDescriptor, AllocError>
        ensures message { IfOk result (λ message. option_map (λ method. method.input) (method_row_named self.now) ≡ Some message.index) }
        ensures pool { IfOk result (λ message. message.pool.inner.value ≡ self.now.service.pool.inner.value) }
    {
        MessageDescriptor::at(self.parent_pool(), self.table().input)
    }

    /// The message type that the method answers with.
    ///
    /// # Errors
    ///
    /// `AllocError` if out of memory.
    pub fn output(&self) -> Result<MessageDescriptor, AllocError>
        ensures message { IfOk result (λ message. option_map (λ method. method.output) (method_row_named self.now) ≡ Some message.index) }
        ensures pool { IfOk result (λ message. message.pool.inner.value ≡ self.now.service.pool.inner.value) }
    {
        MessageDescriptor::at(self.parent_pool(), self.table().output)
    }

    /// The method's row.
    fn table(&self) -> &MethodTable
        ensures row { method_row_named self.now ≡ Some (method_table_row result.now) }
        ensures input { result.now.input < length (pool_rows self.now.service.pool.inner).messages }
        ensures output { result.now.output < length (pool_rows self.now.service.pool.inner).messages }
    {
        &self.service.table().methods[self.index]
    }
}
