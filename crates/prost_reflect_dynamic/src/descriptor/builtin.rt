//! The built-in pool.

ghost use Rattle.std.specs.Prelude.{◌≡◌, IfOk, IfErr, map};
ghost use Rattle.prost_reflect_tables.specs.Shown.{schema_from};
ghost use Rattle.prost_reflect_building.specs.Builtin.{builtin_schema, builtin_names};
ghost use Rattle.prost_reflect_tables.specs.declared.error.PoolError.TheVariants as pool_errors;
ghost use Rattle.prost_reflect_building.specs.BuiltinFiles.{AreBuiltin};
ghost use Rattle.prost_reflect_building.specs.BuiltinRows.{builtin_rows};
ghost use Rattle.prost_reflect_pool.specs.SharedPools.{files_of, pool_rows};

use crate::descriptor::DescriptorPool;
use prost_reflect_tables::PoolError;
use std::alloc::Global;
use std::rc::Rc;

/// The pool of two files, `plain.proto` of proto3 and `kept.proto` of proto2, with one message type each: `builtin.Plain`
/// and `builtin.Kept`, which have one singular field of each scalar kind. No field of the first has presence, all of the
/// second have it.
///
/// ```
/// // The message type `builtin.Plain`.
/// fn plain(alloc: Global) -> Result<Option<MessageDescriptor>, PoolError> {
///     let pool = builtin_pool(alloc)?;
///     Ok(pool.get_message_by_name("builtin.Plain")?)
/// }
/// ```
///
/// # Errors
///
/// `OutOfMemory` if memory runs out.
pub fn builtin_pool(alloc: Global) -> Result<DescriptorPool, PoolError>
    ensures files { IfOk result (λ pool. AreBuiltin (files_of pool.inner)) }
    ensures rows { IfOk result (λ pool. pool_rows pool.inner ≡ builtin_rows) }
    ensures schema { IfOk result (λ pool. schema_from (pool_rows pool.inner) ≡ builtin_schema) }
    ensures names { IfOk result (λ pool. map (λ m. m.id.full_name) (pool_rows pool.inner).messages ≡ builtin_names) }
    ensures refused { IfErr result (λ e. e ≡ pool_errors.OutOfMemory) }
{
    let pool = prost_reflect_building::builtin_pool(alloc)?;
    Ok(DescriptorPool {
        inner: Rc::new(alloc, pool)?,
    })
}
