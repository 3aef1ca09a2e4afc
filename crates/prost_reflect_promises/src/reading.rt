//! Reading: what bytes mean to a message type, and which it refuses.

ghost use Rattle.std.specs.Prelude.{◌≡◌, ◌≢◌, ◌++◌, Some, IfOk, IfErr};
ghost use Rattle.prost_reflect_wire.specs.Fault.{StandsInMessage};
ghost use Rattle.prost_reflect_wire.specs.Grammar.{LEVEL_LIMIT, Accepts};
ghost use Rattle.prost_reflect_wire.specs.Meaning.{decoded};
ghost use Rattle.prost_reflect_wire.specs.Typing.{kept, WellStored};
ghost use Rattle.prost_reflect_pool.specs.MessageTypes.{schema_at, type_at};
ghost use Rattle.prost_reflect_dynamic.specs.Merged.{IsMeaningOfBytes, MergesMeaning};
ghost use Rattle.prost_reflect_dynamic.specs.Named.{schema_named, type_named};
ghost use Rattle.prost_reflect_dynamic.specs.View.{content_of, message_type_of};

use prost_reflect_dynamic::{DynamicMessage, MessageDescriptor};
use prost_reflect_wire::DecodeError;
use std::alloc::Global;

/// What the bytes mean to the message type.
///
/// # Errors
///
/// A fault that keeps the type from accepting the bytes, or `OutOfMemory` if memory runs out.
pub fn read(
    alloc: Global,
    message_type: MessageDescriptor,
    bytes: &[u8],
) -> Result<DynamicMessage, DecodeError>
    ensures means { IfOk result
        (λ message. decoded (schema_named message_type) LEVEL_LIMIT (type_named message_type) bytes.now
        ≡ Some (kept (content_of message))) }
    ensures fault { IfErr result
        (λ e. e ≢ DecodeError.OutOfMemory
        → StandsInMessage (schema_named message_type) (type_named message_type) LEVEL_LIMIT e bytes.now) }
    ensures accepted { IfErr result
        (λ e. Accepts (schema_named message_type) LEVEL_LIMIT (type_named message_type) bytes.now
        → e ≡ DecodeError.OutOfMemory) }
{
    DynamicMessage::decode(alloc, message_type, bytes)
}

/// Reads a message in two pieces, which mean what they mean end to end.
///
/// # Errors
///
/// A fault of one of the pieces, or `OutOfMemory` if memory runs out.
pub fn read_in_pieces(
    alloc: Global,
    message_type: MessageDescriptor,
    first: &[u8],
    second: &[u8],
) -> Result<DynamicMessage, DecodeError>
    ensures means { IfOk result
        (λ message. IsMeaningOfBytes (schema_named message_type) (type_named message_type) (first.now ++ second.now)
        (kept (content_of message))) }
    ensures accepted { IfErr result
        (λ e. Accepts (schema_named message_type) LEVEL_LIMIT (type_named message_type) first.now
        → Accepts (schema_named message_type) LEVEL_LIMIT (type_named message_type) second.now
        → e ≡ DecodeError.OutOfMemory) }
{
    let mut message = DynamicMessage::decode(alloc, message_type, first)?;
    message.merge(second)?;
    Ok(message)
}

/// Merges bytes into a message: it then means what its records and those of the bytes mean.
///
/// # Errors
///
/// A fault that keeps the message's type from accepting the bytes, or `OutOfMemory` if memory runs out; the message stays.
pub fn merge(message: &mut DynamicMessage, bytes: &[u8]) -> Result<(), DecodeError>
    requires { WellStored (content_of message.old) }
    ensures merged { IfOk result
        (λ _. MergesMeaning (schema_at (message_type_of message.old)) (type_at (message_type_of message.old)) bytes.now
        (kept (content_of message.old)) (kept (content_of message.new))) }
    ensures fault { IfErr result
        (λ e. e ≢ DecodeError.OutOfMemory
        → StandsInMessage (schema_at (message_type_of message.old)) (type_at (message_type_of message.old))
        LEVEL_LIMIT e bytes.now) }
    ensures unchanged { IfErr result (λ _. message.new ≡ message.old) }
{
    message.merge(bytes)
}
