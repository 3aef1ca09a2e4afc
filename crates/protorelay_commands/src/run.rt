//! Carries out a command line over two writers.

ghost use Rattle.std.specs.Prelude.{◌≡◌, ◌≢◌, ◌⊎◌, ℕ, List, map, string_bytes, IfSome, IfOk, IfErr, OnOk};
ghost use Rattle.std.specs.Fmt.{with_newline};
ghost use Rattle.std.specs.Io.KnownBytes.{Appends};
ghost use Rattle.std.specs.IoError.{error_kind};
ghost use Rattle.protorelay_commands.specs.CommandLine.{AsksForNone};
ghost use Rattle.protorelay_commands.specs.Printing.{AppendsLine, Answers, AnswersWords, RefusesCommand, RefusesWords, usage_line};
ghost use Rattle.protorelay_commands.specs.Refusals.{refusal_line};
ghost use Rattle.protorelay_commands.specs.declared.refusal.Refusal.{Refusal};
ghost use Rattle.protorelay_commands.specs.Statuses.{status_of};
ghost use Rattle.protorelay_commands.specs.declared.refusal.Refusal.TheVariants as refusals;
ghost use Rattle.protorelay_commands.specs.declared.run.Outcome.TheVariants as outcomes;

use crate::command::Command;
use crate::edit::edit;
use crate::refusal::Refusal;
use crate::relay::relay;
use crate::show::show;
use std::fmt::Display;
use std::io;
use std::io::{ErrorKind, Write};

/// How a command line ends whose answer was written.
#[derive(Clone, Copy, PartialEq, Eq, Debug)]
pub enum Outcome {
    /// The command was carried out.
    Done,
    /// The data were refused.
    Refused,
    /// The words ask for no command.
    Misused,
}

const USAGE: &str = "usage: protorelay relay|show SET NAME HEX | edit SET NAME HEX PATH TEXT";

/// Carries out a command line, given without the program's name, and answers the status that the program ends with.
///
/// It is carried out by `carry_out`, which says what is written on either stream. The status is 0 where it answers `Done`, 1
/// where it answers `Refused` or a write fails, and 2 where it answers `Misused`.
pub fn run<O: Write, E: Write>(words: &[String], out: &mut O, err: &mut E) -> u8
    ensures done { result ≡ 0 → (err.new ≡ err.old) × ((text : List ℕ)
        × AnswersWords (map string_bytes words.now) text
        × Appends (O.contents out.old) (O.contents out.new) text) }
    ensures misused { result ≡ 2 → AsksForNone (map string_bytes words.now)
        × (out.new ≡ out.old)
        × AppendsLine (E.contents err.old) (E.contents err.new) usage_line }
    ensures refused { result ≢ 0 → result ≢ 2 → result ≡ 1 }
    ensures out { (out.new ≡ out.old) ⊎ ((text : List ℕ) × AnswersWords (map string_bytes words.now) text) }
{
    status_of(carry_out(words, out, err))
}

/// Carries out a command line, given without the program's name.
///
/// `relay SET NAME HEX` writes the message again as a line of lower-case hex digits on `out`, `show SET NAME HEX` a line
/// for each number that is present in it, and `edit SET NAME HEX PATH TEXT` the line of `relay` for the message with the
/// value that the text spells set at the path. Refused data leave `out` as it was and are named by a line on `err`. Any
/// other command line leaves `out` as it was and gets a line on the usage on `err`.
///
/// # Errors
///
/// That of a write that fails.
pub fn carry_out<O: Write, E: Write>(
    words: &[String],
    out: &mut O,
    err: &mut E,
) -> io::Result<Outcome>
    ensures done { IfOk result (λ outcome. outcome ≡ outcomes.Done → (err.new ≡ err.old) × ((text : List ℕ)
        × AnswersWords (map string_bytes words.now) text
        × Appends (O.contents out.old) (O.contents out.new) text)) }
    ensures refused { IfOk result (λ outcome. outcome ≡ outcomes.Refused → (out.new ≡ out.old) × ((refusal : Refusal)
        × RefusesWords (map string_bytes words.now) refusal
        × AppendsLine (E.contents err.old) (E.contents err.new) (refusal_line refusal))) }
    ensures misused { IfOk result (λ outcome. outcome ≡ outcomes.Misused → AsksForNone (map string_bytes words.now)
        × (out.new ≡ out.old)
        × AppendsLine (E.contents err.old) (E.contents err.new) usage_line) }
    ensures out { (out.new ≡ out.old) ⊎ ((text : List ℕ) × AnswersWords (map string_bytes words.now) text) }
{
    match Command::parse(words) {
        Some(command) => match answer(command) {
            Ok(text) => {
                write_text(out, text.as_str())?;
                Ok(Outcome::Done)
            }
            Err(refusal) => {
                write_line(err, refusal)?;
                Ok(Outcome::Refused)
            }
        },
        None => {
            write_line(err, USAGE)?;
            Ok(Outcome::Misused)
        }
    }
}

/// The text that answers the command. Its memory comes from the allocator of the words.
fn answer(command: Command<'_>) -> Result<String, Refusal>
    ensures answered { IfOk result (λ text. Answers command.entry (string_bytes text)) }
    ensures refused { IfErr result (RefusesCommand command.entry) }
{
    match command {
        Command::Relay { set, name, digits } => relay(
            *name.allocator(),
            set.as_str(),
            name.as_str(),
            digits.as_str(),
        ),
        Command::Show { set, name, digits } => show(
            *name.allocator(),
            set.as_str(),
            name.as_str(),
            digits.as_str(),
        ),
        Command::Edit {
            set,
            name,
            digits,
            path,
            text,
        } => edit(
            *name.allocator(),
            set.as_str(),
            name.as_str(),
            digits.as_str(),
            path.as_str(),
            text.as_str(),
        ),
    }
}

/// Names on `err` why the words of the command line can't be had, and answers the status: 1 if out of memory, or that of
/// any other command line if a word is no text.
pub fn refuse_words<E: Write>(error: &io::Error, err: &mut E) -> u8
    ensures misused { result ≡ 2 → (error_kind error.now ≢ ErrorKind.OutOfMemory)
        × AppendsLine (E.contents err.old) (E.contents err.new) usage_line }
    ensures refused { result ≢ 2 → result ≡ 1 }
{
    status_of(name_refused_words(error, err))
}

/// Names on `err` why the words of the command line can't be had.
fn name_refused_words<E: Write>(error: &io::Error, err: &mut E) -> io::Result<Outcome>
    ensures undone { IfOk result (λ outcome. outcome ≢ outcomes.Done) }
    ensures refused { IfOk result (λ outcome. outcome ≡ outcomes.Refused → (error_kind error.now ≡ ErrorKind.OutOfMemory)
        × AppendsLine (E.contents err.old) (E.contents err.new) (refusal_line refusals.Memory)) }
    ensures misused { IfOk result (λ outcome. outcome ≡ outcomes.Misused → (error_kind error.now ≢ ErrorKind.OutOfMemory)
        × AppendsLine (E.contents err.old) (E.contents err.new) usage_line) }
{
    if error.kind() == ErrorKind::OutOfMemory {
        write_line(err, Refusal::Memory)?;
        return Ok(Outcome::Refused);
    }
    write_line(err, USAGE)?;
    Ok(Outcome::Misused)
}

/// The status that the program ends with; 1, if a write failed.
fn status_of(ended: io::Result<Outcome>) -> u8
    ensures { result ≡ status_of ended }
{
    match ended {
        Ok(Outcome::Done) => 0,
        Ok(Outcome::Misused) => 2,
        Ok(Outcome::Refused) | Err(_) => 1,
    }
}

fn write_text<W: Write>(to: &mut W, text: &str) -> io::Result<()>
    ensures { OnOk result (Appends (W.contents to.old) (W.contents to.new) text.now) }
{
    to.write_all(text.as_bytes())?;
    to.flush()
}

fn write_line<W: Write, D: Display + Drop>(to: &mut W, line: D) -> io::Result<()>
    ensures { OnOk result (IfSome (with_newline (D.output line))
        (Appends (W.contents to.old) (W.contents to.new))) }
{
    to.writeln(line)?;
    to.flush()
}
