//! Files as places of a pool.

ghost use Rattle.std.specs.Prelude.{◌≡◌, ◌<◌, length};
ghost use Rattle.prost_reflect_pool.specs.SharedPools.{files_of};

use crate::descriptor::options::{OptionsError, options_by};
use crate::descriptor::{
    DescriptorPool, Descriptors, EnumDescriptor, ExtensionDescriptor, MessageDescriptor, Placed,
    ServiceDescriptor,
};
use crate::message::DynamicMessage;
use prost_reflect_proto::Proto;
use prost_reflect_tables::{FileTable, text_or_empty};
use prost_reflect_types::FileDescriptorProto;
use prost_reflect_walks::Places;
use prost_reflect_wire::EncodeError;
use std::alloc::{AllocError, Global};

/// The version of the language that a file is written in.
#[derive(Clone, Copy, PartialEq, Eq, Debug)]
pub enum Syntax {
    /// The language of the proto2 guide, also where a file names none.
    Proto2,
    /// The language of the proto3 guide.
    Proto3,
}

/// A file of a pool.
#[derive(PartialEq, Eq, Debug)]
pub struct FileDescriptor {
    index: usize,
    pool: DescriptorPool,
    pub ghost in_range: { index < length (files_of pool.inner) },
}

impl Drop for FileDescriptor {
    fn drop(self) {
        let FileDescriptor { index: _, pool: _ } = self;
    }
}

impl Clone for FileDescriptor {
    ghost use Rattle.prost_reflect_dynamic.specs.NamedFiles.{SameFile};

    ghost is_clone = { SameFile };

    fn clone(&self) -> Result<FileDescriptor, AllocError> {
        Ok(FileDescriptor {
            pool: self.pool.clone()?,
            index: self.index,
        })
    }
}

impl Placed<DescriptorPool> for FileDescriptor {
    ghost use Rattle.std.specs.Prelude.{nat_lt};

    ghost is_place = { λ pool i. nat_lt i (length (files_of pool.inner)) };

    ghost stands = { λ pool i file. (file.pool.inner.value ≡ pool.inner.value) × (file.index ≡ i) };

    fn at(pool: &DescriptorPool, index: usize) -> Result<FileDescriptor, AllocError> {
        Ok(FileDescriptor::new(pool.clone()?, index))
    }
}

impl FileDescriptor {
    ghost use Rattle.std.specs.Prelude.{◌≤◌, ◌^◌, ◌++◌, All, Some, IfSome, IfErr, OnOk, OnErr, IfOk, option_map};
    ghost use Rattle.prost_reflect_wire.specs.Writing.{encoded};
    ghost use Rattle.prost_reflect_types.specs.DescriptorViews.{of_file};
    ghost use Rattle.prost_reflect_tables.specs.CatalogRows.{file_table_row};
    ghost use Rattle.prost_reflect_tables.specs.Names.{text_or_empty};
    ghost use Rattle.prost_reflect_pool.specs.RecordPaths.{FileRecord};
    ghost use Rattle.prost_reflect_pool.specs.SharedPools.{pool_rows, pool_catalog};
    ghost use Rattle.prost_reflect_dynamic.specs.NamedFiles.{file_record_at, file_row_at, syntax_of};
    ghost use Rattle.prost_reflect_walks.specs.Places.{places_left};
    ghost use Rattle.prost_reflect_dynamic.specs.Options.{OptionsOf};

    /// The file at a place of a pool. The place has to be below the number of files.
    pub fn new(pool: DescriptorPool, index: usize) -> FileDescriptor
        requires { index < length (files_of pool.inner) }
        ensures pool { result.pool ≡ pool }
        ensures index { result.index ≡ index }
    {
        FileDescriptor { pool, index }
    }

    /// The pool that the file is of.
    pub fn parent_pool(&self) -> &DescriptorPool
        ensures { result.now ≡ self.now.pool }
    {
        &self.pool
    }

    /// The file's place in the pool, in the order in which files were added.
    pub fn index(&self) -> usize
        ensures { result ≡ self.now.index }
    {
        self.index
    }

    /// The file's name, as `my/package/file.proto`.
    pub fn name(&self) -> &str
        ensures { option_map (λ file. text_or_empty file.name) (file_record_at self.now) ≡ Some result.now }
    {
        text_or_empty(&self.file_descriptor_proto().name)
    }

    /// The file's package, empty where it has none.
    pub fn package_name(&self) -> &str
        ensures { option_map (λ file. text_or_empty file.package) (file_record_at self.now) ≡ Some result.now }
    {
        text_or_empty(&self.file_descriptor_proto().package)
    }

    /// The version of the language.
    pub fn syntax(&self) -> Syntax
        ensures { option_map (λ file. syntax_of file.is_proto3) (file_row_at self.now) ≡ Some result }
    {
        if self.table().is_proto3 {
            Syntax::Proto3
        } else {
            Syntax::Proto2
        }
    }

    /// The files that the file imports, in the order of the imports.
    pub fn dependencies(&self) -> Descriptors<'_, DescriptorPool, FileDescriptor>
        ensures pool { result.parent.now ≡ self.now.pool }
        ensures places { option_map (λ file. file.dependencies) (file_row_at self.now) ≡ Some (places_left result.places) }
    {
        Descriptors::new(&self.pool, Places::Listed(self.dependencies_listed()))
    }

    /// The files that the file imports publicly.
    pub fn public_dependencies(&self) -> Descriptors<'_, DescriptorPool, FileDescriptor>
        ensures pool { result.parent.now ≡ self.now.pool }
        ensures places { option_map (λ file. file.public_dependencies) (file_row_at self.now) ≡ Some (places_left result.places) }
    {
        Descriptors::new(
            &self.pool,
            Places::Listed(self.public_dependencies_listed()),
        )
    }

    /// The message types at the top of the file, in the order of their declaration.
    ///
    /// ```
    /// // How many message types the file declares at its top, and how many services.
    /// fn counts(file: &FileDescriptor) -> (usize, usize) {
    ///     (file.messages().len(), file.services().len())
    /// }
    /// ```
    pub fn messages(&self) -> Descriptors<'_, DescriptorPool, MessageDescriptor>
        ensures pool { result.parent.now ≡ self.now.pool }
        ensures places { option_map (λ file. file.messages) (file_row_at self.now) ≡ Some (places_left result.places) }
    {
        Descriptors::new(&self.pool, Places::Listed(self.table().messages.as_slice()))
    }

    /// The enums at the top of the file, in the order of their declaration.
    pub fn enums(&self) -> Descriptors<'_, DescriptorPool, EnumDescriptor>
        ensures pool { result.parent.now ≡ self.now.pool }
        ensures places { option_map (λ file. file.enums) (file_row_at self.now) ≡ Some (places_left result.places) }
    {
        Descriptors::new(&self.pool, Places::Listed(self.table().enums.as_slice()))
    }

    /// The extensions at the top of the file, in the order of their declaration.
    pub fn extensions(&self) -> Descriptors<'_, DescriptorPool, ExtensionDescriptor>
        ensures pool { result.parent.now ≡ self.now.pool }
        ensures places { option_map (λ file. file.extensions) (file_row_at self.now) ≡ Some (places_left result.places) }
    {
        Descriptors::new(
            &self.pool,
            Places::Listed(self.table().extensions.as_slice()),
        )
    }

    /// The services of the file, in the order of their declaration.
    pub fn services(&self) -> Descriptors<'_, DescriptorPool, ServiceDescriptor>
        ensures pool { result.parent.now ≡ self.now.pool }
        ensures places { option_map (λ file. file.services) (file_row_at self.now) ≡ Some (places_left result.places) }
    {
        Descriptors::new(&self.pool, Places::Listed(self.table().services.as_slice()))
    }

    /// The file's record.
    pub fn file_descriptor_proto(&self) -> &FileDescriptorProto
        ensures { file_record_at self.now ≡ Some result.now }
    {
        self.pool.inner.file_record(self.index)
    }

    /// The file's options: what its record stores, read by the pool's `google.protobuf.FileOptions`.
    /// Where it stores none, the message is empty.
    ///
    /// # Errors
    ///
    /// `NoOptionsMessage` if the pool has no such message type; `Decode` with a fault that the stored bytes have, and only
    /// if that type does not accept them; `OutOfMemory` if memory runs out.
    pub fn options(&self) -> Result<DynamicMessage, OptionsError>
        ensures { OptionsOf self.now.pool.inner (option_map FileRecord (file_record_at self.now)) result }
    {
        options_by(
            &self.pool,
            "google.protobuf.FileOptions",
            &self.file_descriptor_proto().options,
        )
    }

    /// Appends the encoding of the file's record.
    ///
    /// # Errors
    ///
    /// `TooLong` if the encoding passes the greatest `usize`, `OutOfMemory` if memory runs out. In each case the output
    /// stays as it was.
    pub fn encode(&self, out: &mut Vec<u8>) -> Result<(), EncodeError>
        ensures ok { OnOk result
            (option_map (λ file. out.old.items ++ encoded (of_file file)) (file_record_at self.now)
            ≡ Some out.new.items) }
        ensures err { OnErr result (out.new.items ≡ out.old.items) }
        ensures too_long { IfErr result
            (λ e. e ≡ EncodeError.TooLong
            → IfSome (file_record_at self.now) (λ file. 2 ^ 64 ≤ length (encoded (of_file file)))) }
    {
        self.file_descriptor_proto().encode(out)
    }

    /// The encoding of the file's record.
    ///
    /// # Errors
    ///
    /// `TooLong` if the encoding passes the greatest `usize`, `OutOfMemory` if memory runs out.
    pub fn encode_to_vec(&self, alloc: Global) -> Result<Vec<u8>, EncodeError>
        ensures ok { IfOk result (λ bytes. option_map (λ file. encoded (of_file file)) (file_record_at self.now) ≡ Some bytes.items) }
        ensures too_long { IfErr result
            (λ e. e ≡ EncodeError.TooLong
            → IfSome (file_record_at self.now) (λ file. 2 ^ 64 ≤ length (encoded (of_file file)))) }
    {
        let mut bytes = Vec::new(alloc);
        self.encode(&mut bytes)?;
        Ok(bytes)
    }

    /// The places of the files that the file imports publicly.
    fn public_dependencies_listed(&self) -> &[usize]
        ensures row { option_map (λ file. file.public_dependencies) (file_row_at self.now) ≡ Some result.now }
        ensures there { All (λ i. i < length (files_of self.now.pool.inner)) result.now }
    {
        self.pool.inner.public_dependencies_of(self.index)
    }

    /// The places of the files that the file imports.
    fn dependencies_listed(&self) -> &[usize]
        ensures row { option_map (λ file. file.dependencies) (file_row_at self.now) ≡ Some result.now }
        ensures there { All (λ i. i < length (files_of self.now.pool.inner)) result.now }
    {
        self.pool.inner.dependencies_of(self.index)
    }

    /// What stands in the file.
    fn table(&self) -> &FileTable
        ensures row { file_row_at self.now ≡ Some (file_table_row result.now) }
        ensures messages { All (λ i. i < length (pool_rows self.now.pool.inner).messages) result.now.messages.items }
        ensures enums { All (λ i. i < length (pool_rows self.now.pool.inner).enums) result.now.enums.items }
        ensures extensions { All (λ i. i < length (pool_catalog self.now.pool.inner).extensions) result.now.extensions.items }
        ensures services { All (λ i. i < length (pool_catalog self.now.pool.inner).services) result.now.services.items }
    {
        self.pool.inner.file_table(self.index)
    }
}
