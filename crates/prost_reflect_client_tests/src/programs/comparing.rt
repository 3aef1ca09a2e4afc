//! Messages that are compared by their encodings.

ghost use Rattle.std.specs.Prelude.{◌≡◌, ◌<◌, ◌^◌, ◌↔◌, length, IsTrue, IfOk, IfSome};
ghost use Rattle.prost_reflect_wire.specs.Typing.{kept, WellStored};
ghost use Rattle.prost_reflect_wire.specs.Writing.{encoded};
ghost use Rattle.prost_reflect_dynamic.specs.View.{content_of};

use crate::programs::error::ClientError;
use prost_reflect::DynamicMessage;
use prost_reflect::laws::same_bytes;
use std::alloc::{AllocError, Global};

/// The encoding of a message; none if it can't be written, or if a message inside is not of its field's type.
fn sound_encoding(alloc: Global, message: &DynamicMessage) -> Result<Option<Vec<u8>>, ClientError>
    ensures sound { IfOk result (λ found. IfSome found (λ _. WellStored (content_of message.now))) }
    ensures encoding { IfOk result (λ found. IfSome found (λ bytes. bytes.items ≡ encoded (kept (content_of message.now)))) }
    ensures fits { IfOk result (λ found. IfSome found (λ _. length (encoded (kept (content_of message.now))) < 2 ^ 64)) }
{
    if !(message.is_encodable() && message.is_typed()) {
        return Ok(None);
    }
    Ok(Some(message.encode_to_vec(alloc)?))
}

/// Whether two messages are of one type; if so and both are sound, their encodings are the same exactly if they hold the same.
fn are_of_one_type(a: &DynamicMessage, b: &DynamicMessage) -> Result<bool, AllocError>
    ensures { IfOk result
        (λ same. IsTrue same → WellStored (content_of a.now) → WellStored (content_of b.now)
        → length (encoded (kept (content_of a.now))) < 2 ^ 64
        → (encoded (kept (content_of a.now)) ≡ encoded (kept (content_of b.now)))
        ↔ (kept (content_of a.now) ≡ kept (content_of b.now))) }
{
    let a_type = a.descriptor()?;
    let b_type = b.descriptor()?;
    same_bytes();
    Ok(a_type == b_type)
}

/// Whether two messages of one type hold the same for others, as their encodings tell; none if they are of two types, if one
/// can't be written, or if a message inside is not of its field's type.
pub fn hold_the_same(
    alloc: Global,
    a: &DynamicMessage,
    b: &DynamicMessage,
) -> Result<Option<bool>, ClientError>
    ensures { IfOk result (λ answer. IfSome answer (λ same. IsTrue same ↔ (kept (content_of a.now) ≡ kept (content_of b.now)))) }
{
    if !are_of_one_type(a, b)? {
        return Ok(None);
    }
    let Some(a_bytes) = sound_encoding(alloc, a)? else {
        return Ok(None);
    };
    let Some(b_bytes) = sound_encoding(alloc, b)? else {
        return Ok(None);
    };
    Ok(Some(a_bytes == b_bytes))
}
