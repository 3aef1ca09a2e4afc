//! A message type with two oneofs, an extension and fields of a closed enum.

use prost_reflect_building::with_files;
use prost_reflect_pool::{LinkedPool, PooledType};
use prost_reflect_proto::Proto;
use prost_reflect_samples::sets;
use prost_reflect_types::FileDescriptorSet;
use std::alloc::Global;
use std::rc::Rc;
use std::test::Fail;

/// The message type, for a field set.
pub(crate) fn choices(alloc: Global) -> Result<PooledType, Fail> {
    let set = FileDescriptorSet::decode(alloc, sets::choices())?;
    let pool = with_files(&LinkedPool::new(alloc), set.file)?;
    match pool.message_place("Choices") {
        Some(index) => Ok(PooledType::new(Rc::new(alloc, pool)?, index)),
        None => Err(Fail::from("no such message type")),
    }
}
