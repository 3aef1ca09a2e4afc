//! Pools.

use crate::descriptor::{
    Descriptors, EnumDescriptor, ExtensionDescriptor, FileDescriptor, MessageDescriptor, Placed,
    ServiceDescriptor,
};
use prost_reflect_pool::LinkedPool;
use prost_reflect_walks::Places;
use std::alloc::AllocError;
use std::rc::Rc;

/// Files with what they define, as message types, enums, extensions and services, which descriptors name by their places. A
/// clone shares them.
#[derive(PartialEq, Eq, Debug)]
pub struct DescriptorPool {
    pub(crate) inner: Rc<LinkedPool>,
}

impl Drop for DescriptorPool {
    fn drop(self) {
        let DescriptorPool { inner: _ } = self;
    }
}

impl Clone for DescriptorPool {
    ghost is_clone = { λ pool copy. copy.inner.value ≡ pool.inner.value };

    ghost use Rattle.std.specs.Prelude.{◌≡◌};

    fn clone(&self) -> Result<DescriptorPool, AllocError> {
        Ok(DescriptorPool {
            inner: self.inner.clone()?,
        })
    }
}

impl DescriptorPool {
    ghost use Rattle.std.specs.Prelude.{◌≡◌, IfOk, IfSome, IsOk, None, length, option_map};
    ghost use Rattle.prost_reflect_tables.specs.Places.{message_place};
    ghost use Rattle.prost_reflect_pool.specs.SharedPools.{files_of, pool_rows, pool_catalog};
    ghost use Rattle.prost_reflect_pool.specs.Lookups.{file_place, enum_place, extension_place, service_place};
    ghost use Rattle.prost_reflect_walks.specs.Places.{places_from, places_left};

    /// What its clones share.
    pub(crate) fn into_inner(self) -> Rc<LinkedPool>
        ensures { result ≡ self.inner }
    {
        let DescriptorPool { inner } = self;
        inner
    }

    /// The files, in the order in which they were added.
    pub fn files(&self) -> Descriptors<'_, DescriptorPool, FileDescriptor>
        ensures pool { result.parent.now ≡ self.now }
        ensures places { places_left result.places ≡ places_from 0 (length (files_of self.now.inner)) }
    {
        Descriptors::new(self, Places::up_to(self.inner.file_count()))
    }

    /// The services, by file and then by path.
    pub fn services(&self) -> Descriptors<'_, DescriptorPool, ServiceDescriptor>
        ensures pool { result.parent.now ≡ self.now }
        ensures places { places_left result.places ≡ places_from 0 (length (pool_catalog self.now.inner).services) }
    {
        Descriptors::new(self, Places::up_to(self.inner.service_count()))
    }

    /// The message types, nested ones too, by file and then by path.
    pub fn all_messages(&self) -> Descriptors<'_, DescriptorPool, MessageDescriptor>
        ensures pool { result.parent.now ≡ self.now }
        ensures places { places_left result.places ≡ places_from 0 (length (pool_rows self.now.inner).messages) }
    {
        Descriptors::new(self, Places::up_to(self.inner.message_count()))
    }

    /// The enums, nested ones too, by file and then by path.
    pub fn all_enums(&self) -> Descriptors<'_, DescriptorPool, EnumDescriptor>
        ensures pool { result.parent.now ≡ self.now }
        ensures places { places_left result.places ≡ places_from 0 (length (pool_rows self.now.inner).enums) }
    {
        Descriptors::new(self, Places::up_to(self.inner.enum_count()))
    }

    /// The extensions, wherever they are declared, by file and then by path.
    pub fn all_extensions(&self) -> Descriptors<'_, DescriptorPool, ExtensionDescriptor>
        ensures pool { result.parent.now ≡ self.now }
        ensures places { places_left result.places ≡ places_from 0 (length (pool_catalog self.now.inner).extensions) }
    {
        Descriptors::new(self, Places::up_to(self.inner.extension_count()))
    }

    /// The file of a name, as `my/package/file.proto`, or none where no file has it.
    ///
    /// # Errors
    ///
    /// `AllocError` if out of memory.
    pub fn get_file_by_name(&self, name: &str) -> Result<Option<FileDescriptor>, AllocError>
        ensures found { IfOk result (λ found. option_map (λ file. file.index) found ≡ file_place (files_of self.now.inner) name.now) }
        ensures pool { IfOk result (λ found. IfSome found (λ file. file.pool.inner.value ≡ self.now.inner.value)) }
        ensures missing { file_place (files_of self.now.inner) name.now ≡ None → IsOk result }
    {
        match self.inner.file_place(name) {
            Some(index) => Ok(Some(FileDescriptor::new(self.clone()?, index))),
            None => Ok(None),
        }
    }

    /// The message type of a full name, as `my.package.MyMessage`, or none where no message type has it.
    ///
    /// # Errors
    ///
    /// `AllocError` if out of memory.
    pub fn get_message_by_name(&self, name: &str) -> Result<Option<MessageDescriptor>, AllocError>
        ensures found { IfOk result
            (λ found. option_map (λ message. message.index) found ≡ message_place (pool_rows self.now.inner) name.now) }
        ensures pool { IfOk result (λ found. IfSome found (λ message. message.pool.inner.value ≡ self.now.inner.value)) }
        ensures missing { message_place (pool_rows self.now.inner) name.now ≡ None → IsOk result }
    {
        match self.inner.message_place(name) {
            Some(index) => Ok(Some(MessageDescriptor::new(self.clone()?, index))),
            None => Ok(None),
        }
    }

    /// The enum of a full name, or none where no enum has it.
    ///
    /// # Errors
    ///
    /// `AllocError` if out of memory.
    pub fn get_enum_by_name(&self, name: &str) -> Result<Option<EnumDescriptor>, AllocError>
        ensures found { IfOk result (λ found. option_map (λ e. e.index) found ≡ enum_place (pool_rows self.now.inner) name.now) }
        ensures pool { IfOk result (λ found. IfSome found (λ e. e.pool.inner.value ≡ self.now.inner.value)) }
        ensures missing { enum_place (pool_rows self.now.inner) name.now ≡ None → IsOk result }
    {
        match self.inner.enum_place(name) {
            Some(index) => Ok(Some(EnumDescriptor::new(self.clone()?, index))),
            None => Ok(None),
        }
    }

    /// The extension of a full name, or none where no extension has it.
    ///
    /// # Errors
    ///
    /// `AllocError` if out of memory.
    pub fn get_extension_by_name(
        &self,
        name: &str,
    ) -> Result<Option<ExtensionDescriptor>, AllocError>
        ensures found { IfOk result
            (λ found. option_map (λ extension. extension.index) found
            ≡ extension_place (pool_rows self.now.inner) (pool_catalog self.now.inner) name.now) }
        ensures pool { IfOk result (λ found. IfSome found (λ extension. extension.pool.inner.value ≡ self.now.inner.value)) }
        ensures missing { extension_place (pool_rows self.now.inner) (pool_catalog self.now.inner) name.now ≡ None → IsOk result }
    {
        match self.inner.extension_place(name) {
            Some(index) => Ok(Some(ExtensionDescriptor::at(self, index)?)),
            None => Ok(None),
        }
    }

    /// What the clones of the pool share.
    pub(crate) fn linked(&self) -> &LinkedPool
        ensures { result.now ≡ self.now.inner.value }
    {
        &self.inner
    }

    /// The service of a full name, or none where no service has it.
    ///
    /// # Errors
    ///
    /// `AllocError` if out of memory.
    pub fn get_service_by_name(&self, name: &str) -> Result<Option<ServiceDescriptor>, AllocError>
        ensures found { IfOk result
            (λ found. option_map (λ service. service.index) found
            ≡ service_place (pool_catalog self.now.inner) name.now) }
        ensures pool { IfOk result (λ found. IfSome found (λ service. service.pool.inner.value ≡ self.now.inner.value)) }
        ensures missing { service_place (pool_catalog self.now.inner) name.now ≡ None → IsOk result }
    {
        match self.inner.service_place(name) {
            Some(index) => Ok(Some(ServiceDescriptor::new(self.clone()?, index))),
            None => Ok(None),
        }
    }
}
