//! Relaying a message: its bytes are read by its type, and the message is written again.

ghost use Rattle.std.specs.Prelude.{IfOk, IfErr, string_bytes};
ghost use Rattle.protorelay_commands.specs.Relaying.{IsRelayed, RefusesRelay};

use crate::reading::{message_type, pool_of};
use crate::refusal::Refusal;
use prost_reflect::relay_hex;
use std::alloc::Global;

/// The message that the hex digits spell, read by the message type of the name in the descriptor set and written again, as
/// a line of lower-case hex digits.
///
/// # Errors
///
/// As `read`; then `Encode`, or `Memory` if memory runs out.
pub fn relay(alloc: Global, set: &str, name: &str, digits: &str) -> Result<String, Refusal>
    ensures relayed { IfOk result (λ text. IsRelayed set.now name.now digits.now (string_bytes text)) }
    ensures refused { IfErr result (RefusesRelay set.now name.now digits.now) }
{
    let pool = pool_of(alloc, set)?;
    let older = message_type(&pool, name)?;
    let mut line = relay_hex(alloc, &older, digits)?;
    line.push_str("\n")?;
    Ok(line)
}
