//! What a command reads: descriptor sets, and the bytes of messages.

ghost use Rattle.std.specs.Prelude.{◌≡◌, IfErr, IfOk, Some, false};
ghost use Rattle.prost_reflect_tables.specs.Places.{message_place};
ghost use Rattle.prost_reflect_pool.specs.Pools.{pool_rows};
ghost use Rattle.prototool_commands.specs.Naming.{GivesBytes};
ghost use Rattle.prototool_commands.specs.Refusals.{is_path};

use crate::command::Source;
use crate::refusal::Refusal;
use prost_reflect::{DescriptorPool, MessageDescriptor, builtin_pool};
use std::alloc::Global;
use std::fs;
use std::io::{Input, Read};
use std::rt::Files;

/// The pool that the word for a descriptor set stands for: `-` for the built-in one, or the path of a file.
///
/// # Errors
///
/// `File` if the file is not read, `Set` or `Pool` of what it holds, or `Memory`.
pub fn pool_of<R: Files + AllocGlobal>(rt: &R, set: &str) -> Result<DescriptorPool, Refusal>
    ensures { IfErr result (λ refusal. is_path refusal ≡ false) }
{
    let alloc = rt.alloc();
    if set == "-" {
        return Ok(builtin_pool(alloc)?);
    }
    let bytes = bytes_of_file(rt, set)?;
    Ok(DescriptorPool::decode(alloc, bytes.as_slice())?)
}

/// The message type of the name in the pool.
///
/// # Errors
///
/// `Name` if no message type has the name, or `Memory`.
pub fn message_type(pool: &DescriptorPool, name: &str) -> Result<MessageDescriptor, Refusal>
    ensures named { IfOk result
        (λ message_type. message_place (pool_rows message_type.pool.inner.value) name.now ≡ Some message_type.index) }
    ensures pool { IfOk result (λ message_type. message_type.pool.inner.value ≡ pool.now.inner.value) }
    ensures refused { IfErr result (λ refusal. is_path refusal ≡ false) }
{
    let Some(descriptor) = pool.get_message_by_name(name)? else {
        return Err(Refusal::Name);
    };
    Ok(descriptor)
}

/// The bytes that the source holds.
///
/// # Errors
///
/// `Input`, `File` or `Hex`, by the source, or `Memory`.
pub fn bytes_of<R: Files + Input + AllocGlobal>(
    rt: &R,
    source: Source<'_>,
) -> Result<Vec<u8>, Refusal>
    ensures given { IfOk result (λ bytes. GivesBytes source.entry bytes.items) }
    ensures refused { IfErr result (λ refusal. is_path refusal ≡ false) }
{
    match source {
        Source::StandardInput => bytes_of_input(rt),
        Source::File(path) => bytes_of_file(rt, path.as_str()),
        Source::Hex(digits) => Ok(hex::decode(rt.alloc(), digits.as_str())?),
    }
}

/// All bytes of the standard input.
fn bytes_of_input<R: Input + AllocGlobal>(rt: &R) -> Result<Vec<u8>, Refusal>
    ensures { IfErr result (λ refusal. is_path refusal ≡ false) }
{
    let mut bytes = Vec::new(rt.alloc());
    match rt.reader().read_to_end(&mut bytes) {
        Ok(_) => Ok(bytes),
        Err(error) => Err(Refusal::of_input(&error)),
    }
}

/// All bytes of the file of the path.
fn bytes_of_file<R: Files + AllocGlobal>(rt: &R, path: &str) -> Result<Vec<u8>, Refusal>
    ensures { IfErr result (λ refusal. is_path refusal ≡ false) }
{
    match fs::read(rt, path) {
        Ok(bytes) => Ok(bytes),
        Err(error) => Err(Refusal::of_file(rt.alloc(), path, &error)),
    }
}
