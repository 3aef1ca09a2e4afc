//! Reading a message: its bytes, in hex digits, are read by its type in a descriptor set.

ghost use Rattle.std.specs.Prelude.{◌≡◌, ◌⊎◌, Some, None, true, IfOk, IfErr};
ghost use Rattle.prost_reflect_wire.specs.Typing.{kept, encodable};
ghost use Rattle.prost_reflect_pool.specs.Pools.{pool_rows};
ghost use Rattle.prost_reflect_dynamic.specs.Named.{schema_named, type_named};
ghost use Rattle.prost_reflect_tables.specs.Places.{message_place};
ghost use Rattle.prost_reflect_dynamic.specs.View.{content_of};
ghost use Rattle.protorelay_commands.specs.Sets.{IsPoolOfSet};
ghost use Rattle.protorelay_commands.specs.Reading.{pool_schema, IsRead, IsReadIn, RefusesPool, RefusesIn, Refuses};
ghost use Rattle.protorelay_commands.specs.declared.refusal.Refusal.TheVariants as refusals;

use crate::refusal::Refusal;
use prost_reflect::{DescriptorPool, DynamicMessage, MessageDescriptor, builtin_pool};
use std::alloc::Global;

/// The message that the hex digits spell, read by the message type of the name in the descriptor set. The set is `-`, for
/// the built-in one, or in hex digits too.
///
/// # Errors
///
/// The first step that fails: `Hex`, `Set` or `Pool` of the set, `Name`, `Hex` of the message, `Decode`; or `Memory`,
/// wherever memory runs out.
pub fn read(alloc: Global, set: &str, name: &str, digits: &str) -> Result<DynamicMessage, Refusal>
    ensures read { IfOk result (λ message. IsRead set.now name.now digits.now (kept (content_of message))) }
    ensures fits { IfOk result (λ message. encodable (content_of message) ≡ true) }
    ensures refused { IfErr result (Refuses set.now name.now digits.now) }
{
    let pool = pool_of(alloc, set)?;
    read_in(alloc, &pool, name, digits)
}

/// The pool that the word for a descriptor set stands for.
pub fn pool_of(alloc: Global, set: &str) -> Result<DescriptorPool, Refusal>
    ensures made { IfOk result (λ pool. IsPoolOfSet set.now pool.inner.value) }
    ensures refused { IfErr result (RefusesPool set.now) }
{
    if set == "-" {
        return Ok(builtin_pool(alloc)?);
    }
    let bytes = hex::decode(alloc, set)?;
    Ok(DescriptorPool::decode(alloc, bytes.as_slice())?)
}

/// The message that the hex digits spell, read by the message type of the name in the pool.
fn read_in(
    alloc: Global,
    pool: &DescriptorPool,
    name: &str,
    digits: &str,
) -> Result<DynamicMessage, Refusal>
    ensures read { IfOk result (λ message. IsReadIn pool.now.inner.value name.now digits.now (kept (content_of message))) }
    ensures fits { IfOk result (λ message. encodable (content_of message) ≡ true) }
    ensures refused { IfErr result (RefusesIn pool.now.inner.value name.now digits.now) }
{
    let descriptor = message_type(pool, name)?;
    let bytes = hex::decode(alloc, digits)?;
    Ok(DynamicMessage::decode(alloc, descriptor, bytes.as_slice())?)
}

/// The message type of the name in the pool.
pub fn message_type(pool: &DescriptorPool, name: &str) -> Result<MessageDescriptor, Refusal>
    ensures found { IfOk result (λ message.
        message_place (pool_rows pool.now.inner.value) name.now ≡ Some (type_named message)) }
    ensures pool { IfOk result (λ message. message.pool.inner.value ≡ pool.now.inner.value) }
    ensures schema { IfOk result (λ message. schema_named message ≡ pool_schema pool.now.inner.value) }
    ensures refused { IfErr result (λ refusal.
        ((refusal ≡ refusals.Name) × (message_place (pool_rows pool.now.inner.value) name.now ≡ None))
        ⊎ (refusal ≡ refusals.Memory)) }
{
    match pool.get_message_by_name(name)? {
        Some(descriptor) => Ok(descriptor),
        None => Err(Refusal::Name),
    }
}
