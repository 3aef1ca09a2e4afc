//! Messages without the fields that paths of names lead to.

ghost use Rattle.std.specs.Prelude.{◌≡◌, [], ◌∷◌, ◌++◌, IfOk, IfErr, false, map, string_bytes};
ghost use Rattle.hex.specs.Hex.{encode_lower};
ghost use Rattle.prost_reflect_wire.specs.Typing.{WellStored};
ghost use Rattle.prost_reflect_dynamic.specs.Named.{schema_named, type_named};
ghost use Rattle.prost_reflect_dynamic.specs.View.{content_of};
ghost use Rattle.prototool_commands.specs.Naming.{ArePathsTo, IsRedaction, IsRedactionNamed, RefusesNamed, RefusesPaths, RefusesRedaction, printed};
ghost use Rattle.prototool_commands.specs.Redacting.{IsClearedAll, IsRedacted, IsRefused, NothingLeft};
ghost use Rattle.prototool_commands.specs.Refusals.{is_path};

mod clearing;
mod path;

use crate::command::Source;
use crate::decoding::with_place;
use crate::input::{bytes_of, message_type, pool_of};
use crate::refusal::Refusal;
use clearing::clear_along;
pub use path::numbers_of;
use prost_reflect::{DynamicMessage, MessageDescriptor};
use std::alloc::{AllocError, Global};
use std::io::Input;
use std::rt::Files;

/// The message of the type of the name in the descriptor set that the source holds, without the fields that the paths lead
/// to, as bytes, or as a line of hex digits where the source is digits. Paths are looked at before the source is.
///
/// # Errors
///
/// The first step that fails: those of `pool_of` and `message_type`, `Path` of a path that leads to no field, and those of
/// `bytes_of`; then `Message` or `Encode`, or `Memory`.
pub fn redact<R: Files + Input + AllocGlobal>(
    rt: &R,
    set: &str,
    name: &str,
    paths: &[String],
    source: Source<'_>,
) -> Result<Vec<u8>, Refusal>
    ensures redacted { IfOk result (λ output. IsRedactionNamed name.now (map string_bytes paths.now) source.entry output.items) }
    ensures refused { IfErr result (RefusesNamed name.now (map string_bytes paths.now)) }
{
    let pool = pool_of(rt, set)?;
    let descriptor = message_type(&pool, name)?;
    redact_type(rt, descriptor, paths, source)
}

/// The same for the message type.
fn redact_type<R: Files + Input + AllocGlobal>(
    rt: &R,
    descriptor: MessageDescriptor,
    paths: &[String],
    source: Source<'_>,
) -> Result<Vec<u8>, Refusal>
    ensures redacted { IfOk result
        (λ output. IsRedaction descriptor.pool.inner.value descriptor.index (map string_bytes paths.now) source.entry
        output.items) }
    ensures refused { IfErr result (RefusesRedaction descriptor.pool.inner.value descriptor.index (map string_bytes paths.now)) }
{
    let alloc = rt.alloc();
    let numbers = all_numbers(alloc, &descriptor, paths)?;
    let bytes = bytes_of(rt, source)?;
    let written = redacted_or_place(alloc, descriptor, numbers.as_slice(), bytes.as_slice())?;
    Ok(printed(alloc, source, written)?)
}

/// The numbers of each path.
///
/// # Errors
///
/// `Path` of a path that leads to no field, or `Memory`.
fn all_numbers(
    alloc: Global,
    descriptor: &MessageDescriptor,
    paths: &[String],
) -> Result<Vec<Vec<u32>>, Refusal>
    ensures led { IfOk result
        (λ all. ArePathsTo descriptor.now.pool.inner.value descriptor.now.index (map string_bytes paths.now)
        (map (λ numbers. numbers.items) all.items)) }
    ensures refused { IfErr result (RefusesPaths descriptor.now.pool.inner.value descriptor.now.index (map string_bytes paths.now)) }
{
    let mut all = Vec::new(alloc);
    for path in paths {
        match numbers_of(alloc, descriptor, path.as_str())? {
            Some(numbers) => all.push(numbers)?,
            None => return Err(Refusal::of_path(alloc, path.as_str())),
        }
    }
    Ok(all)
}

/// What is printed of bytes: a line of lower-case hex digits where the source is digits, and else the bytes.
///
/// # Errors
///
/// `AllocError` if out of memory.
fn printed(alloc: Global, source: Source<'_>, bytes: Vec<u8>) -> Result<Vec<u8>, AllocError>
    ensures { IfOk result (λ output. output.items ≡ printed source.entry bytes.items) }
{
    match source {
        Source::Hex(_) => Ok(hex_line(alloc, bytes.as_slice())?.into_bytes()),
        _ => Ok(bytes),
    }
}

/// The bytes as a line of lower-case hex digits.
fn hex_line(alloc: Global, bytes: &[u8]) -> Result<String, AllocError>
    ensures { IfOk result (λ line. string_bytes line ≡ encode_lower bytes.now ++ (10 ∷ [])) }
{
    let mut line = hex::encode(alloc, bytes)?;
    line.push_str("\n")?;
    Ok(line)
}

/// What `redacted` gives; a fault of the bytes has its place.
///
/// # Errors
///
/// Those of `redacted`, and `Message` for `Decode`.
fn redacted_or_place(
    alloc: Global,
    descriptor: MessageDescriptor,
    paths: &[Vec<u32>],
    bytes: &[u8],
) -> Result<Vec<u8>, Refusal>
    ensures redacted { IfOk result
        (λ written. IsRedacted (schema_named descriptor) (type_named descriptor) (map (λ path. path.items) paths.now)
        bytes.now written.items) }
    ensures refused { IfErr result (λ refusal. is_path refusal ≡ false) }
{
    let of_type = descriptor.clone()?;
    match redacted(alloc, of_type, paths, bytes) {
        Ok(written) => Ok(written),
        Err(refusal) => Err(with_place(alloc, descriptor, bytes, refusal)),
    }
}

/// What the bytes mean to the message type, with the fields and extensions cleared that the paths of numbers lead to,
/// written again.
///
/// # Errors
///
/// `Decode` with a fault that the bytes have, `Encode` if what is written is longer than a length can say, or `Memory`.
pub fn redacted(
    alloc: Global,
    descriptor: MessageDescriptor,
    paths: &[Vec<u32>],
    bytes: &[u8],
) -> Result<Vec<u8>, Refusal>
    ensures nothing_left { IfOk result (λ _. NothingLeft (map (λ path. path.items) paths.now)) }
    ensures refused { IfErr result
        (λ refusal. IsRefused (schema_named descriptor) (type_named descriptor) (map (λ path. path.items) paths.now)
        bytes.now refusal) }
    ensures redacted { IfOk result
        (λ written. IsRedacted (schema_named descriptor) (type_named descriptor) (map (λ path. path.items) paths.now)
        bytes.now written.items) }
{
    let mut message = DynamicMessage::decode(alloc, descriptor, bytes)?;
    clear_all(alloc, &mut message, paths)?;
    Ok(message.encode_to_vec(alloc)?)
}

/// Clears the fields and extensions that the paths lead to.
///
/// # Errors
///
/// `AllocError` if out of memory. The message is not to be used then, since entries of a map may be lost.
fn clear_all(
    alloc: Global,
    message: &mut DynamicMessage,
    paths: &[Vec<u32>],
) -> Result<(), AllocError>
    requires { WellStored (content_of message.old) }
    ensures { IfOk result (λ _. IsClearedAll (map (λ path. path.items) paths.now) (content_of message.old) (content_of message.new)) }
{
    for path in paths {
        clear_along(alloc, message, path.as_slice())?;
    }
    Ok(())
}
