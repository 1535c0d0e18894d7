//! A conversation with the debugger: each line of an input is answered before the next one is read.
ghost use Rattle.std.specs.Prelude.{◌≡◌, ◌≤◌, ◌⊎◌, IfErr, IfNone, IfOk, IfSome, OnErr, OnOk};
ghost use Rattle.std.specs.Prelude.{option_map, vec_len};
ghost use Rattle.std.specs.Io.BufRead.{DropsThrough, strip_last, take_through};
ghost use Rattle.std.specs.Io.KnownBytes.{Appends};
ghost use Rattle.std.specs.String.{string_bytes};
ghost use Rattle.command_debug.specs.Conversation.{IsConversation, IsCut, IsCutShort, IsLastTurn, IsNoted, IsTurn};
ghost use Rattle.command_files.specs.Fault.{IsReadingFault, IsWritingFault};
ghost use Rattle.command_files.specs.Files.{most_bytes};
ghost use Rattle.command_files.specs.Input.{IsLonger, IsOfLine, IsWithin, WhereKnown};
ghost use Rattle.command_files.specs.World.{OnlyNotes, OnlyPrints, OnlyReads};

use command_files::files::{FileFault, most_bytes};
use command_files::{Fault, Refusal, Why, World, unwritten};
use debug_answers::reply_to;
use debugger::Debugger;
use std::alloc::Global;

/// Answers the lines of standard input, each before the next one is read, until one asks for the end or the input ends.
/// A person gets on standard error what is to be said of a line that is no command. `why` is one where `reasons` are
/// asked for alone. Of the input at most 64 MiB are taken, whatever the end: a line that goes beyond is not answered.
#[tactic(auto, using(crate::proofs::Conversing::begun, crate::proofs::Conversing::none_spent, crate::proofs::Conversing::go_on, crate::proofs::Conversing::spend, crate::proofs::Conversing::conversed, crate::proofs::Conversing::cut_short))]
pub fn converse<'a, W: World>(
    alloc: Global,
    debugger: &mut Debugger,
    reasons: bool,
    world: &mut W,
) -> Result<(), Refusal<'a>>
    ensures done { OnOk result (IsConversation (record { faults = W.faults; reasons = reasons })
        (W.seen world.old).streams (W.seen world.new).streams debugger.old) }
    ensures cut { IfErr result (λ r. IsCutShort (record { faults = W.faults; reasons = reasons })
        (W.seen world.old).streams (W.seen world.new).streams debugger.old r.fault) }
    ensures none_made { (W.seen world.new).made ≡ (W.seen world.old).made }
{
    let mut left = most_bytes();
    while let Some(more) = take_turn(alloc, debugger, reasons, world, left)? {
        left = more;
    }
    Ok(())
}

/// Reads a line and answers it. Returns how many bytes may still be read; none where the conversation
/// has ended.
#[tactic(auto, using(crate::proofs::Turns::unheard, crate::proofs::Turns::line_of_line))]
fn take_turn<'a, W: World>(
    alloc: Global,
    debugger: &mut Debugger,
    reasons: bool,
    world: &mut W,
    left: u32,
) -> Result<Option<u32>, Refusal<'a>>
    ensures turn { IfOk result (λ o. IfSome o (λ more. IsTurn (record { faults = W.faults; reasons = reasons })
        (W.seen world.old).streams (W.seen world.new).streams debugger.old debugger.new left more)) }
    ensures last { IfOk result (λ o. IfNone o (IsLastTurn (W.seen world.old).streams (W.seen world.new).streams left)) }
    ensures cut { IfErr result (λ r. IsCut
        (W.faults.input_fails ⊎ IsLonger left (W.seen world.old).streams.input)
        (record { faults = W.faults; reasons = reasons }) (W.seen world.old).streams
        (W.seen world.new).streams debugger.old
        r.fault) }
    ensures within { OnErr result (WhereKnown (IsWithin left) (W.seen world.old).streams.input
        (W.seen world.new).streams.input) }
    ensures none_made { (W.seen world.new).made ≡ (W.seen world.old).made }
{
    let line = hear(alloc, world, left)?;
    if line.is_empty() {
        return Ok(None);
    }
    let reply = reply_to(alloc, debugger, reasons, said_in(line.as_slice()))?;
    if reply.is_last {
        return Ok(None);
    }
    say(reply.text.as_str(), world)?;
    add_note(&reply.note, world);
    Ok(Some(left - line.len() as u32))
}

/// The next line of standard input.
fn hear<'a, W: World>(alloc: Global, world: &mut W, left: u32) -> Result<Vec<u8>, Refusal<'a>>
    ensures bound { IfOk result (λ line. vec_len line ≤ left) }
    ensures line { IfOk result (λ line. IfSome (W.seen world.old).streams.input (λ bytes.
        line.items ≡ take_through 10 bytes)) }
    ensures rest { OnOk result (DropsThrough (W.seen world.old).streams.input (W.seen world.new).streams.input 10) }
    ensures failed { IfErr result (λ r. IsReadingFault
        (W.faults.input_fails ⊎ IsLonger left (W.seen world.old).streams.input) r.fault) }
    ensures part { OnErr result (WhereKnown IsOfLine (W.seen world.old).streams.input
        (W.seen world.new).streams.input) }
    ensures within { OnErr result (WhereKnown (IsWithin left) (W.seen world.old).streams.input
        (W.seen world.new).streams.input) }
    ensures only { OnlyReads (W.seen world.old) (W.seen world.new) }
{
    match world.next_line(alloc, left) {
        Ok(line) => Ok(line),
        Err(FileFault::Failed(why)) => Err(Refusal {
            fault: Fault::Read,
            about: Some("standard input"),
            why: Why::Known(why),
        }),
        Err(FileFault::Memory) => Err(Refusal::from(Fault::Memory)),
    }
}

/// A line without the line feed at its end.
fn said_in(line: &[u8]) -> &[u8]
    ensures { result.now ≡ strip_last 10 line.now }
{
    match line {
        [said @ .., b'\n'] => said,
        _ => line,
    }
}

#[tactic(auto, using(command_files::proofs::Delivered::unwritten))]
fn say<'a, W: World>(text: &str, world: &mut W) -> Result<(), Refusal<'a>>
    ensures printed { OnOk result (Appends (W.seen world.old).streams.output (W.seen world.new).streams.output
        text.now) }
    ensures refused { IfErr result (λ r. IsWritingFault (W.faults.output_refuses text.now) r.fault) }
    ensures only { OnlyPrints (W.seen world.old) (W.seen world.new) }
{
    match world.print(text) {
        Ok(()) => Ok(()),
        Err(fault) => Err(unwritten("standard output", fault)),
    }
}

/// Prints a note for a person, if there is one. A stream that does not take it goes without.
fn add_note<W: World>(note: &Option<String>, world: &mut W)
    ensures noted { IsNoted W.faults (W.seen world.old).streams (W.seen world.new).streams
        (option_map (λ text. string_bytes text) note.now) }
    ensures only { OnlyNotes (W.seen world.old) (W.seen world.new) }
{
    if let Some(text) = note {
        let _ = world.note(text.as_str());
    }
}
