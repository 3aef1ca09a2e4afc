//! The records of a pool's files, and their encoding.

ghost use Rattle.std.specs.Prelude.{◌≡◌, ◌≤◌, ◌++◌, ◌^◌, length, IfOk, IfErr, OnOk, OnErr};
ghost use Rattle.prost_reflect_types.specs.DescriptorViews.{of_files};
ghost use Rattle.prost_reflect_wire.specs.Grammar.{LEVEL_LIMIT};
ghost use Rattle.prost_reflect_wire.specs.Levels.{levels};
ghost use Rattle.prost_reflect_wire.specs.Writing.{encoded};
ghost use Rattle.prost_reflect_pool.specs.PoolFiles.{files_left};
ghost use Rattle.prost_reflect_pool.specs.Pools.{Reads, MakesAgain};
ghost use Rattle.prost_reflect_types.specs.declared.table.RecordType.TheVariants as types;
ghost use Rattle.prost_reflect_tables.specs.Checked.{Checked};
ghost use Rattle.prost_reflect_tables.specs.Flat.{flattened};
ghost use Rattle.prost_reflect_pool.specs.SharedPools.{files_of};

use crate::descriptor::DescriptorPool;
use prost_reflect_pool::FileDescriptorProtos;
use prost_reflect_proto::encode_files;
use prost_reflect_wire::EncodeError;
use std::alloc::Global;

impl DescriptorPool {
    /// The records of the files, in the order in which they were added.
    pub fn file_descriptor_protos(&self) -> FileDescriptorProtos<'_>
        ensures { files_left result ≡ files_of self.now.inner }
    {
        self.inner.file_descriptor_protos()
    }

    /// Appends the encoding of the descriptor set that has the pool's files. Where their records nest at most 100 levels
    /// below the set, `decode` reads the bytes as a set of these files, and makes an equal pool of them.
    ///
    /// # Errors
    ///
    /// `TooLong` if the encoding passes the greatest `usize`, `OutOfMemory` if memory runs out. In each case the output
    /// stays as it was.
    pub fn encode(&self, out: &mut Vec<u8>) -> Result<(), EncodeError>
        ensures ok { OnOk result (out.new.items ≡ out.old.items ++ encoded (of_files (files_of self.now.inner))) }
        ensures err { OnErr result (out.new.items ≡ out.old.items) }
        ensures too_long { IfErr result (λ e. e ≡ EncodeError.TooLong → 2 ^ 64 ≤ length (encoded (of_files (files_of self.now.inner)))) }
        ensures reads { OnOk result
            (levels (of_files (files_of self.now.inner)) ≤ LEVEL_LIMIT
            → Reads types.FileSet (encoded (of_files (files_of self.now.inner))) (files_of self.now.inner)) }
        ensures checked { Checked (files_of self.now.inner) (flattened (files_of self.now.inner)) }
        ensures again { OnOk result
            (levels (of_files (files_of self.now.inner)) ≤ LEVEL_LIMIT
            → MakesAgain (encoded (of_files (files_of self.now.inner))) self.now.inner.value) }
    {
        encode_files(self.inner.shared_files(), out)
    }

    /// The encoding of the descriptor set that has the pool's files, as `encode`.
    ///
    /// # Errors
    ///
    /// `TooLong` if the encoding passes the greatest `usize`, `OutOfMemory` if memory runs out.
    pub fn encode_to_vec(&self, alloc: Global) -> Result<Vec<u8>, EncodeError>
        ensures ok { IfOk result (λ bytes. bytes.items ≡ encoded (of_files (files_of self.now.inner))) }
        ensures too_long { IfErr result (λ e. e ≡ EncodeError.TooLong → 2 ^ 64 ≤ length (encoded (of_files (files_of self.now.inner)))) }
        ensures reads { OnOk result
            (levels (of_files (files_of self.now.inner)) ≤ LEVEL_LIMIT
            → Reads types.FileSet (encoded (of_files (files_of self.now.inner))) (files_of self.now.inner)) }
        ensures checked { Checked (files_of self.now.inner) (flattened (files_of self.now.inner)) }
        ensures again { OnOk result
            (levels (of_files (files_of self.now.inner)) ≤ LEVEL_LIMIT
            → MakesAgain (encoded (of_files (files_of self.now.inner))) self.now.inner.value) }
    {
        let mut bytes = Vec::new(alloc);
        self.encode(&mut bytes)?;
        Ok(bytes)
    }
}
