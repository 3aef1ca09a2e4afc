//! Showing a message: its bytes are read by its type, and the numbers that are present are named.

ghost use Rattle.std.specs.Prelude.{◌≡◌, ◌++◌, IfOk, IfErr, OnOk, string_bytes};
ghost use Rattle.protorelay_commands.specs.Reading.{Refuses};
ghost use Rattle.protorelay_commands.specs.Showing.{IsShown, line, lines};

use crate::reading::read;
use crate::refusal::Refusal;
use prost_reflect::PresentNumber;
use std::alloc::{AllocError, Global};

/// The numbers that are present in the message that the hex digits spell, read by the message type of the name in the
/// descriptor set: a line for each, in ascending order.
///
/// # Errors
///
/// As `read`; then `Memory` if memory runs out.
pub fn show(alloc: Global, set: &str, name: &str, digits: &str) -> Result<String, Refusal>
    ensures shown { IfOk result (λ text. IsShown set.now name.now digits.now (string_bytes text)) }
    ensures refused { IfErr result (Refuses set.now name.now digits.now) }
{
    let message = read(alloc, set, name, digits)?;
    let numbers = message.present_numbers(alloc)?;
    Ok(lines(alloc, numbers.as_slice())?)
}

/// A line for each number.
fn lines(alloc: Global, numbers: &[PresentNumber]) -> Result<String, AllocError>
    ensures { IfOk result (λ text. string_bytes text ≡ lines numbers.now) }
{
    let mut text = String::new(alloc);
    for number in numbers {
        push_line(&mut text, *number)?;
    }
    Ok(text)
}

/// Appends the line of a number.
fn push_line(text: &mut String, number: PresentNumber) -> Result<(), AllocError>
    ensures { OnOk result (string_bytes text.new ≡ string_bytes text.old ++ line number) }
{
    match number {
        PresentNumber::Field(number) => writeln!(text, "field {number}"),
        PresentNumber::Extension(number) => writeln!(text, "extension {number}"),
        PresentNumber::Unknown(number, count) => writeln!(text, "unknown {number} {count}"),
    }
}
