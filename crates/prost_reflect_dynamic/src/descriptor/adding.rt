//! Adding files to pools.

ghost use Rattle.std.specs.Prelude.{◌≡◌, ◌∷◌, [], IfOk, IfErr, OnOk, OnErr};
ghost use Rattle.prost_reflect_types.specs.declared.table.RecordType.TheVariants as types;
ghost use Rattle.prost_reflect_tables.specs.Adding.{added};
ghost use Rattle.prost_reflect_tables.specs.declared.error.PoolError.TheVariants as pool_errors;
ghost use Rattle.prost_reflect_pool.specs.Pools.{IsPoolOf, RefusesFiles, IsPoolOfBytes, Refuses};
ghost use Rattle.prost_reflect_pool.specs.SharedPools.{files_of};

use crate::descriptor::DescriptorPool;
use prost_reflect_building::with_files;
use prost_reflect_pool::LinkedPool;
use prost_reflect_proto::Proto;
use prost_reflect_tables::PoolError;
use prost_reflect_types::{FileDescriptorProto, FileDescriptorSet};
use std::alloc::Global;
use std::rc::Rc;

impl DescriptorPool {
    /// A pool without files.
    ///
    /// # Errors
    ///
    /// `OutOfMemory` if memory runs out.
    pub fn new(alloc: Global) -> Result<DescriptorPool, PoolError>
        ensures made { IfOk result (λ pool. IsPoolOf [] pool.inner.value) }
        ensures refused { IfErr result (λ e. e ≡ pool_errors.OutOfMemory) }
    {
        Ok(DescriptorPool {
            inner: Rc::new(alloc, LinkedPool::new(alloc))?,
        })
    }

    /// A pool of the files of a set; of several files of one name the first is taken.
    ///
    /// # Errors
    ///
    /// A fault that the taken files have, or `OutOfMemory` if memory runs out.
    pub fn from_file_descriptor_set(
        alloc: Global,
        set: FileDescriptorSet,
    ) -> Result<DescriptorPool, PoolError>
        ensures ok { IfOk result (λ pool. IsPoolOf (added [] set.file.items) pool.inner.value) }
        ensures refused { IfErr result (RefusesFiles (added [] set.file.items)) }
    {
        let mut pool = DescriptorPool::new(alloc)?;
        pool.add_file_descriptor_set(set)?;
        Ok(pool)
    }

    /// A pool of the files of the set that the bytes are the encoding of; of several files of one name the first is taken. No
    /// bytes are the set of no files, and give an empty pool.
    ///
    /// ```
    /// // Whether the files of the descriptor set define the message type of the full name.
    /// fn defines(alloc: Global, set: &[u8], name: &str) -> Result<bool, PoolError> {
    ///     let pool = DescriptorPool::decode(alloc, set)?;
    ///     Ok(pool.get_message_by_name(name)?.is_some())
    /// }
    /// ```
    ///
    /// # Errors
    ///
    /// `Decode` with a fault that the bytes have, and only if they are no descriptor set within 100 levels; a fault that
    /// the taken files have; or `OutOfMemory` if memory runs out.
    pub fn decode(alloc: Global, bytes: &[u8]) -> Result<DescriptorPool, PoolError>
        ensures ok { IfOk result (λ pool. IsPoolOfBytes types.FileSet bytes.now [] pool.inner.value) }
        ensures refused { IfErr result (Refuses types.FileSet bytes.now []) }
    {
        let mut pool = DescriptorPool::new(alloc)?;
        pool.decode_file_descriptor_set(bytes)?;
        Ok(pool)
    }

    /// Adds the files of a set, as `add_file_descriptor_protos`.
    ///
    /// # Errors
    ///
    /// As `add_file_descriptor_protos`; then the pool stays as it was.
    pub fn add_file_descriptor_set(&mut self, set: FileDescriptorSet) -> Result<(), PoolError>
        ensures ok { OnOk result (IsPoolOf (added (files_of self.old.inner) set.file.items) self.new.inner.value) }
        ensures refused { IfErr result (RefusesFiles (added (files_of self.old.inner) set.file.items)) }
        ensures unchanged { OnErr result (self.new ≡ self.old) }
    {
        self.add_file_descriptor_protos(set.file)
    }

    /// Adds files at the end, in their order; they may depend on one another in any order.
    ///
    /// A file of a name that is there already is skipped unchecked, and of several files of one name the first is taken.
    /// Descriptors that were made before keep the pool as it was.
    ///
    /// # Errors
    ///
    /// A fault that the pool's files and the added ones have together, or `OutOfMemory` if memory runs out. In each case
    /// the pool stays as it was.
    pub fn add_file_descriptor_protos(
        &mut self,
        files: Vec<FileDescriptorProto>,
    ) -> Result<(), PoolError>
        ensures ok { OnOk result (IsPoolOf (added (files_of self.old.inner) files.items) self.new.inner.value) }
        ensures refused { IfErr result (RefusesFiles (added (files_of self.old.inner) files.items)) }
        ensures unchanged { OnErr result (self.new ≡ self.old) }
    {
        let alloc = *files.allocator();
        let inner = with_files(&self.inner, files)?;
        self.inner = Rc::new(alloc, inner)?;
        Ok(())
    }

    /// Adds a file, as `add_file_descriptor_protos`.
    ///
    /// # Errors
    ///
    /// As `add_file_descriptor_protos`; then the pool stays as it was.
    pub fn add_file_descriptor_proto(&mut self, file: FileDescriptorProto) -> Result<(), PoolError>
        ensures ok { OnOk result (IsPoolOf (added (files_of self.old.inner) (file ∷ [])) self.new.inner.value) }
        ensures refused { IfErr result (RefusesFiles (added (files_of self.old.inner) (file ∷ []))) }
        ensures unchanged { OnErr result (self.new ≡ self.old) }
    {
        let mut files = Vec::new(self.inner.allocator());
        files.push(file)?;
        self.add_file_descriptor_protos(files)
    }

    /// Adds the file that the bytes are the encoding of, as `add_file_descriptor_protos`.
    ///
    /// # Errors
    ///
    /// `Decode` with a fault that the bytes have, and only if they are no file's record within 100 levels; else as
    /// `add_file_descriptor_protos`. In each case the pool stays as it was.
    pub fn decode_file_descriptor_proto(&mut self, bytes: &[u8]) -> Result<(), PoolError>
        ensures ok { OnOk result (IsPoolOfBytes types.File bytes.now (files_of self.old.inner) self.new.inner.value) }
        ensures refused { IfErr result (Refuses types.File bytes.now (files_of self.old.inner)) }
        ensures unchanged { OnErr result (self.new ≡ self.old) }
    {
        let file = FileDescriptorProto::decode(self.inner.allocator(), bytes)?;
        self.add_file_descriptor_proto(file)
    }

    /// Adds the files of the set that the bytes are the encoding of, as `add_file_descriptor_protos`.
    ///
    /// # Errors
    ///
    /// `Decode` with a fault that the bytes have, and only if they are no descriptor set within 100 levels; else as
    /// `add_file_descriptor_protos`. In each case the pool stays as it was.
    pub fn decode_file_descriptor_set(&mut self, bytes: &[u8]) -> Result<(), PoolError>
        ensures ok { OnOk result (IsPoolOfBytes types.FileSet bytes.now (files_of self.old.inner) self.new.inner.value) }
        ensures refused { IfErr result (Refuses types.FileSet bytes.now (files_of self.old.inner)) }
        ensures unchanged { OnErr result (self.new ≡ self.old) }
    {
        let set = FileDescriptorSet::decode(self.inner.allocator(), bytes)?;
        self.add_file_descriptor_set(set)
    }
}
