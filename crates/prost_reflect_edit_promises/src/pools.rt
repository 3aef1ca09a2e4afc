//! Pools: which files are added, what is found by name, when two pools are equal, and the records of files.

ghost use Rattle.std.specs.Prelude.{◌≡◌, None, Some, IfErr, IfOk, IsOk, OnErr, OnOk, option_map};
ghost use Rattle.prost_reflect_wire.specs.Grammar.{LEVEL_LIMIT};
ghost use Rattle.prost_reflect_types.specs.DescriptorMeaning.{record_decoded};
ghost use Rattle.prost_reflect_types.specs.DescriptorViews.{of_file};
ghost use Rattle.prost_reflect_types.specs.declared.table.RecordType.TheVariants as types;
ghost use Rattle.prost_reflect_tables.specs.Adding.{added};
ghost use Rattle.prost_reflect_pool.specs.PoolEquality.{contents_eq};
ghost use Rattle.prost_reflect_pool.specs.Pools.{IsPoolOf, RefusesFiles};
ghost use Rattle.prost_reflect_pool.specs.SharedPools.{files_of, pool_contents, pool_rows};
ghost use Rattle.prost_reflect_tables.specs.Places.{message_place};
ghost use Rattle.prost_reflect_dynamic.specs.NamedFiles.{file_record_at};

use prost_reflect_dynamic::{DescriptorPool, FileDescriptor, MessageDescriptor};
use prost_reflect_proto::Proto;
use prost_reflect_tables::PoolError;
use prost_reflect_types::FileDescriptorProto;
use prost_reflect_wire::DecodeError;
use std::alloc::{AllocError, Global};

/// Adds the files of a batch, all of them or none.
///
/// # Errors
///
/// The name of a fault that the files have together with those of the pool, or `OutOfMemory` if memory runs out; the pool stays.
pub fn add_files(
    pool: &mut DescriptorPool,
    files: Vec<FileDescriptorProto>,
) -> Result<(), PoolError>
    ensures ok { OnOk result (IsPoolOf (added (files_of pool.old.inner) files.items) pool.new.inner.value) }
    ensures refused { IfErr result (RefusesFiles (added (files_of pool.old.inner) files.items)) }
    ensures unchanged { OnErr result (pool.new ≡ pool.old) }
{
    pool.add_file_descriptor_protos(files)
}

/// The message type of a full name, or none where no message type has it.
///
/// # Errors
///
/// `AllocError` if out of memory; never where there is none.
pub fn find(pool: &DescriptorPool, name: &str) -> Result<Option<MessageDescriptor>, AllocError>
    ensures found { IfOk result (λ found. option_map (λ message. message.index) found ≡ message_place (pool_rows pool.now.inner) name.now) }
    ensures missing { message_place (pool_rows pool.now.inner) name.now ≡ None → IsOk result }
{
    pool.get_message_by_name(name)
}

/// Whether the files of both pools hold the same, one by one.
pub fn are_equal(first: &DescriptorPool, second: &DescriptorPool) -> bool
    ensures { result ≡ contents_eq (pool_contents first.now.inner) (pool_contents second.now.inner) }
{
    first == second
}

/// The record of a file.
pub fn record_of(file: &FileDescriptor) -> &FileDescriptorProto
    ensures { file_record_at file.now ≡ Some result.now }
{
    file.file_descriptor_proto()
}

/// The record of a file that the bytes mean.
///
/// # Errors
///
/// A fault that the bytes have, or `OutOfMemory` if memory runs out.
pub fn read_record(alloc: Global, bytes: &[u8]) -> Result<FileDescriptorProto, DecodeError>
    ensures { IfOk result (λ file. record_decoded LEVEL_LIMIT types.File bytes.now ≡ Some (of_file file)) }
{
    FileDescriptorProto::decode(alloc, bytes)
}
