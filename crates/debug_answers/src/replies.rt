//! The answer to a line of the debugger's input.
ghost use Rattle.std.specs.Prelude.{◌≡◌, ◌↔◌, true, Some, IfOk, OnErr, option_map};
ghost use Rattle.std.specs.String.{string_bytes};
ghost use Rattle.debug_answers.specs.declared.command.Command.TheVariants.{Quit};
ghost use Rattle.debug_answers.specs.Saying.{IsHelp, IsLineOf};
ghost use Rattle.debug_answers.specs.Answers.{IsAsBeforeOrAfter};
ghost use Rattle.debug_answers.specs.Help.{help_text};
ghost use Rattle.debug_answers.specs.Notes.{IsNote, no_command};
ghost use Rattle.debug_answers.specs.Replies.{break_of, IsAnswer, IsReply};

use crate::breaks::{add_break, clear, resume};
use crate::command::{Command, Point};
use crate::help::show_help;
use crate::lines::fixed_line;
use crate::moves::{back, forward, place};
use crate::notes::no_command;
use crate::reading::{asks_for_help, command_in};
use crate::show::{show_observations, show_outputs, show_value};
use crate::why::show_why;
use debugger::{Break, Debugger};
use std::alloc::{AllocError, Global};

/// What is answered to a line.
#[derive(Drop)]
pub struct Reply {
    /// The lines that are answered, each with the line feed that ends it.
    pub text: String,
    /// The lines that a person gets beside them, if there are any.
    pub note: Option<String>,
    /// Whether the line asks for the end.
    pub is_last: bool,
}

/// The breakpoint of a point.
fn break_of(point: Point) -> Break
    ensures { result ≡ break_of point }
{
    match point {
        Point::At(place) => Break::At(place as usize),
        Point::Step(device, step) => Break::DeviceStep { device, step },
        Point::Changed(device, path) => Break::Changed { device, path },
        Point::Code(device, code) => Break::Code { device, code },
        Point::Notified(device) => Break::Notified { device },
    }
}

/// The answer to a command. Without memory the debugger is as before, or as after the command.
fn answer(alloc: Global, debugger: &mut Debugger, command: Command) -> Result<String, AllocError>
    ensures answer { IfOk result (λ text. IsAnswer debugger.old command debugger.new (string_bytes text)) }
    ensures as_before_or_after { OnErr result
        (IsAsBeforeOrAfter (IsAnswer debugger.old command) debugger.old debugger.new) }
{
    match command {
        Command::At => place(alloc, debugger),
        Command::Forward(count) => forward(alloc, debugger, count as usize),
        Command::Back(count) => back(alloc, debugger, count as usize),
        Command::Break(point) => add_break(alloc, debugger, break_of(point)),
        Command::Clear(id) => clear(alloc, debugger, id),
        Command::Resume => resume(alloc, debugger),
        Command::Value(device, path) => show_value(alloc, debugger, device, &path),
        Command::Observations(device) => show_observations(alloc, debugger, device),
        Command::Outputs(device) => show_outputs(alloc, debugger, device),
        Command::Why(device) => show_why(alloc, debugger, device),
        Command::Quit => Ok(String::new(alloc)),
    }
}

fn is_quit(command: Command) -> bool
    ensures { (result ≡ true) ↔ (command ≡ Quit) }
{
    matches!(command, Command::Quit)
}

/// The note on a line that says no command: on `help` the commands, on another that it was not understood.
fn note_on(alloc: Global, reasons: bool, line: &[u8]) -> Result<String, AllocError>
    ensures help { IfOk result (λ text. IsHelp line.now → string_bytes text ≡ help_text reasons) }
    ensures other_line { IfOk result (λ text. (IsHelp line.now → ⊥) → string_bytes text ≡ no_command line.now) }
{
    if asks_for_help(line) {
        show_help(alloc, reasons)
    } else {
        no_command(alloc, line)
    }
}

/// The answer to a line of the debugger's input, without the LF that ends it: that to the command that it says, or `bad
/// command` where it says none, which changes nothing. Where no reasons are asked for, `why` is not a command. There is
/// no note on a command; the note on `help` is the list of the commands, and that on any other line which says none
/// shows at most 200 bytes of it. `quit` is answered by nothing, and nothing else asks for the end (`asks_for_end`).
/// Without memory the debugger is as before, or as after the command (`as_before_or_after`).
#[tactic(auto, using(crate::proofs::ReplyParts::reply_of, crate::proofs::ReplyParts::bad_reply, crate::proofs::ReplyParts::no_note, crate::proofs::ReplyParts::note_of, crate::proofs::WithoutMemory::reply_left))]
pub fn reply_to(
    alloc: Global,
    debugger: &mut Debugger,
    reasons: bool,
    line: &[u8],
) -> Result<Reply, AllocError>
    ensures reply { IfOk result (λ r. IsReply reasons debugger.old line.now debugger.new (string_bytes r.text)) }
    ensures note { IfOk result (λ r. IsNote reasons line.now (option_map (λ text. string_bytes text) r.note)) }
    ensures as_before_or_after { OnErr result
        (IsAsBeforeOrAfter (IsReply reasons debugger.old line.now) debugger.old debugger.new) }
    ensures asks_for_end { IfOk result (λ r. (r.is_last ≡ true) ↔ IsLineOf Quit line.now) }
{
    match command_in(line, reasons) {
        Some(command) => Ok(Reply {
            text: answer(alloc, debugger, command)?,
            note: None,
            is_last: is_quit(command),
        }),
        None => Ok(Reply {
            text: fixed_line(alloc, "bad command")?,
            note: Some(note_on(alloc, reasons, line)?),
            is_last: false,
        }),
    }
}
