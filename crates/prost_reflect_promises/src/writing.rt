//! Writing: the one encoding of what a message holds.

ghost use Rattle.std.specs.Prelude.{◌≡◌, ◌≤◌, ◌<◌, ◌^◌, true, length, IfOk, IfErr};
ghost use Rattle.std.specs.Option.{SomeIff};
ghost use Rattle.prost_reflect_wire.specs.Typing.{encodable, kept};
ghost use Rattle.prost_reflect_wire.specs.Writing.{encoded};
ghost use Rattle.prost_reflect_dynamic.specs.View.{content_of};

use prost_reflect_dynamic::DynamicMessage;
use prost_reflect_wire::EncodeError;
use std::alloc::Global;

/// The encoding of the message.
///
/// # Errors
///
/// `TooLong` if it passes the greatest `usize`, `OutOfMemory` if memory runs out.
pub fn write(alloc: Global, message: &DynamicMessage) -> Result<Vec<u8>, EncodeError>
    requires { encodable (content_of message.now) ≡ true }
    ensures ok { IfOk result (λ out. out.items ≡ encoded (kept (content_of message.now))) }
    ensures too_long { IfErr result (λ e. e ≡ EncodeError.TooLong → 2 ^ 64 ≤ length (encoded (kept (content_of message.now)))) }
{
    message.encode_to_vec(alloc)
}

/// How many bytes the encoding of the message has, or none if a `usize` does not count them.
pub fn written_len(message: &DynamicMessage) -> Option<usize>
    requires { encodable (content_of message.now) ≡ true }
    ensures { let n = length (encoded (kept (content_of message.now))) in SomeIff result (n < 2 ^ 64) n }
{
    message.encoded_len()
}
