//! The command of a line: its first word, and a reader for the words after each.

ghost use Rattle.std.specs.Prelude.{◌≡◌, ◌↔◌, true, Some, IfSome, IfNone};
ghost use Rattle.scenario_words.specs.Words.{words};
ghost use Rattle.scenario_words.specs.Reading.{Reads};
ghost use Rattle.debug_answers.specs.declared.command.Command.{Command};
ghost use Rattle.debug_answers.specs.Saying.{HasCommand, IsCommandIn, IsHelp, IsLineOf, IsSaidBy, is_plain};
ghost use Rattle.debug_answers.specs.Reading.{about_device, break_point, command_by, command_of, is_help};
ghost use Rattle.debug_answers.specs.Reading.{command_alone};

use crate::command::Command;
use crate::points::{device_and_path, only_number, point_by};
use scenario_words::{Cause, end, first_word, is_name, next_word};

/// This command, and no further word.
fn command_alone(command: Command, line: &[u8]) -> Result<Command, Cause>
    ensures { Reads (λ c. c) result (command_alone command (words line.now)) }
{
    end(line)?;
    Ok(command)
}

/// A breakpoint, by the words after `break`.
fn break_point(line: &[u8]) -> Result<Command, Cause>
    ensures { Reads (λ c. c) result (break_point (words line.now)) }
{
    let (word, line) = first_word(line)?;
    let point = point_by(word, line)?;
    Ok(Command::Break(point))
}

/// A command about breakpoints or a device, by its first word and the line after it.
fn about_device(word: &[u8], line: &[u8]) -> Result<Command, Cause>
    ensures { Reads (λ c. c) result (about_device word.now (words line.now)) }
{
    if is_name(word, "break") {
        break_point(line)
    } else if is_name(word, "clear") {
        let id = only_number(line, 255)?;
        Ok(Command::Clear(id as u8))
    } else if is_name(word, "value") {
        let (device, path) = device_and_path(line)?;
        Ok(Command::Value(device, path))
    } else if is_name(word, "obs") {
        let device = only_number(line, 65535)?;
        Ok(Command::Observations(device as u16))
    } else if is_name(word, "out") {
        let device = only_number(line, 65535)?;
        Ok(Command::Outputs(device as u16))
    } else if is_name(word, "why") {
        let device = only_number(line, 65535)?;
        Ok(Command::Why(device as u16))
    } else {
        Err(Cause::UnknownWord)
    }
}

/// A command, by its first word and the line after it.
fn command_by(word: &[u8], line: &[u8]) -> Result<Command, Cause>
    ensures { Reads (λ c. c) result (command_by word.now (words line.now)) }
{
    if is_name(word, "at") {
        command_alone(Command::At, line)
    } else if is_name(word, "forward") {
        let count = only_number(line, u64::MAX)?;
        Ok(Command::Forward(count))
    } else if is_name(word, "back") {
        let count = only_number(line, u64::MAX)?;
        Ok(Command::Back(count))
    } else if is_name(word, "resume") {
        command_alone(Command::Resume, line)
    } else if is_name(word, "quit") {
        command_alone(Command::Quit, line)
    } else {
        about_device(word, line)
    }
}

fn command_of(line: &[u8]) -> Result<Command, Cause>
    ensures { Reads (λ c. c) result (command_of (words line.now)) }
{
    let (word, line) = first_word(line)?;
    command_by(word, line)
}

/// The command that the words of a line say, if they say one.
fn read_words(line: &[u8]) -> Option<Command>
    ensures line_says_it { IfSome result (λ c. IsSaidBy c (words line.now)) }
    ensures no_command { IfNone result ((c : Command) → IsSaidBy c (words line.now) → ⊥) }
    ensures only_command { (c : Command) → IsSaidBy c (words line.now) → result ≡ Some c }
{
    command_of(line).ok()
}

/// Whether a line has characters of printable ASCII alone, and no `#`.
fn is_plain(line: &[u8]) -> bool
    ensures { result ≡ is_plain line.now }
{
    line.iter()
        .all(|byte| 32 <= *byte && *byte <= 126 && *byte != 35)
}

/// The command that a line of the debugger's input says, without the LF that ends it, and none exactly if it says none.
/// Spaces part the words of a line, any number of them, and no word may be left over. Numbers, paths and hex digits are
/// as in scenario text. There are no comments: a line with a `#`, or with a byte that is not printable ASCII, says
/// none, nor does an empty one. It takes no memory.
pub fn read_command(line: &[u8]) -> Option<Command>
    ensures line_says_it { IfSome result (λ c. IsLineOf c line.now) }
    ensures no_command { IfNone result ((c : Command) → IsLineOf c line.now → ⊥) }
    ensures only_command { (c : Command) → IsLineOf c line.now → result ≡ Some c }
{
    if !is_plain(line) {
        return None;
    }
    read_words(line)
}

/// Whether a debugger, which is asked for reasons or not, has the command.
fn has_command(command: Command, reasons: bool) -> bool
    ensures { (result ≡ true) ↔ HasCommand reasons command }
{
    match command {
        Command::Why(_) => reasons,
        Command::At
        | Command::Forward(_)
        | Command::Back(_)
        | Command::Break(_)
        | Command::Clear(_)
        | Command::Resume
        | Command::Value(_, _)
        | Command::Observations(_)
        | Command::Outputs(_)
        | Command::Quit => true,
    }
}

/// The command that a line of the debugger's input says, as `read_command` reads it, if the debugger has it: one that
/// is not asked for reasons has no `why`.
#[tactic(auto, using(crate::proofs::Asking::had, crate::proofs::Asking::not_had, crate::proofs::Asking::only_not_had))]
pub fn command_in(line: &[u8], reasons: bool) -> Option<Command>
    ensures line_says_it { IfSome result (λ c. IsCommandIn reasons c line.now) }
    ensures no_command { IfNone result ((c : Command) → IsCommandIn reasons c line.now → ⊥) }
    ensures only_command { (c : Command) → IsCommandIn reasons c line.now → result ≡ Some c }
{
    let command = read_command(line)?;
    if !has_command(command, reasons) {
        return None;
    }
    Some(command)
}

/// Whether the words of a line are `help` alone.
fn is_help(line: &[u8]) -> bool
    ensures { result ≡ is_help (words line.now) }
{
    match next_word(line) {
        Some((word, line)) => is_name(word, "help") && next_word(line).is_none(),
        None => false,
    }
}

/// Whether a line of the debugger's input is the word `help` alone, which says no command: a person asks which there
/// are.
#[tactic(auto, using(crate::proofs::Asking::help_line, crate::proofs::Asking::no_help))]
pub fn asks_for_help(line: &[u8]) -> bool
    ensures { (result ≡ true) ↔ IsHelp line.now }
{
    is_plain(line) && is_help(line)
}
