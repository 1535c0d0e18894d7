//! One command: its words, its answer, and the status that the program ends with.
ghost use Rattle.std.specs.Prelude.{◌≡◌, IfErr, IfOk, map, option_map};
ghost use Rattle.std.specs.String.{string_bytes};
ghost use Rattle.command_files.specs.World.{OnlySays, known_by};
ghost use Rattle.command_json.specs.Told.{blamed_word};
ghost use Rattle.lwbench.specs.Command.{Ends, IsFinished, IsFormOf, IsToldIn, IsUnfinished};

use crate::asked::answer_words;
use crate::forms::wants_json;
use command_files::{Refusal, Status, World, tell};
use command_json::tell_in_json;
use command_line::read;
use std::alloc::{AllocError, Global};
use std::net::Net;
use std::rt::Clock;
use std::sync::Wait;
use std::thread::Threads;

/// Does what the words ask for, of which the first is the program's name, in every world that keeps the contract of its
/// trait; at most 64 MiB of standard input are taken, whatever the end. One of these comes of it (`Ends`):
///
/// - The words are answered: exactly the files of the answer are made, each once, and exactly its text is printed;
///   nothing is read, and standard error gets nothing. `IsDone` says what each command is answered with: for `run`,
///   that as many workers as were asked for made a run in batches of at most as many steps, both from 1 to 64, and its
///   trace file, if that was asked for.
/// - `say -`: all of standard input is a log, of which exactly what it says is printed; no file is made, and standard
///   error gets nothing.
/// - `debug` over a run: the lines of standard input are answered in turn until one asks for the end or the input ends.
///   Exactly these answers are printed, and exactly the notes on these lines go to standard error; no file is made, and
///   the status is 0.
/// - `live`: a device of the row's class makes at most as many turns as were asked for, from its start; the line of its
///   session is printed, and the image of its steps is made, if that was asked for.
/// - `fleet`: devices of a scenario are served for a session, each from the start of its class; the line that says that
///   their ports are there goes to standard error, and so does one for each second, where that is a terminal
///   (`terminal`); the line of the session is printed, and with JSON an object for each of these; the image of their
///   steps is made, if that was asked for; and the status is 3 where datagrams were dropped or lost, if that was asked
///   for.
/// - Status 1, and a fault: exactly its line is printed, where the words ask for JSON its object as a line, and then at
///   most one line goes to standard error, or the stream did not take it, and standard error got nothing. What was left
///   at it is said too: nothing made and nothing printed where memory ran out or the words were refused; the file made
///   where its text could not be printed; and how far a conversation or a session came.
pub fn command<R: Threads + Wait + Sync + Net + Clock + std::io::Input, W: World>(
    rt: &R,
    alloc: Global,
    words: &[String],
    terminal: bool,
    world: &mut W,
) -> Status
    ensures { Ends (known_by W.Files world.old) W.faults (W.seen world.old) (W.seen world.new) terminal
        (map string_bytes words.now) result }
{
    match perform(rt, alloc, words, terminal, world) {
        Ok(status) => status,
        Err(undone) => tell_in(alloc, undone.json, &undone.refusal, world),
    }
}

/// Tells a fault, in JSON or in words.
#[tactic(none)]
fn tell_in<W: World>(alloc: Global, json: bool, refusal: &Refusal, world: &mut W) -> Status
    ensures status { result ≡ Status.Fault }
    ensures told { IsToldIn json W.faults (W.seen world.old).streams (W.seen world.new).streams
        (option_map (λ p. p.now) refusal.now.about) (blamed_word refusal.now.why) refusal.now.fault }
    ensures only { OnlySays (W.seen world.old) (W.seen world.new) }
{
    if json {
        tell_in_json(alloc, refusal, world)
    } else {
        tell(alloc, refusal, world)
    }
}

/// Why what the words ask for was not done.
#[derive(Drop)]
struct Undone<'a> {
    /// Why, and which file or word is to blame.
    refusal: Refusal<'a>,
    /// Whether the words ask for JSON.
    json: bool,
}

impl<'a> From<AllocError> for Undone<'a> {
    ghost use Rattle.std.specs.Prelude.{◌≡◌, false};
    ghost use Rattle.command_files.specs.declared.fault.Fault.TheVariants.{Memory};

    ghost from_gives = { λ _ e. (e.refusal.fault ≡ Memory) × (e.json ≡ false) };

    fn from(error: AllocError) -> Undone<'a> {
        Undone {
            refusal: Refusal::from(error),
            json: false,
        }
    }
}

#[tactic(auto, using(crate::proofs::Ended::no_memory, crate::proofs::Ended::unread_form, crate::proofs::Ended::asked_form))]
fn perform<'a, R: Threads + Wait + Sync + Net + Clock + std::io::Input, W: World>(
    rt: &R,
    alloc: Global,
    words: &'a [String],
    terminal: bool,
    world: &mut W,
) -> Result<Status, Undone<'a>>
    ensures done { IfOk result (IsFinished (known_by W.Files world.old) W.faults (W.seen world.old) (W.seen world.new)
        terminal (map string_bytes words.entry.now)) }
    ensures refused { IfErr result (λ u. IsUnfinished (known_by W.Files world.old) W.faults
        (W.seen world.old) (W.seen world.new) terminal (map string_bytes words.entry.now) u.refusal.fault) }
    ensures form { IfErr result (λ u. IsFormOf (map string_bytes words.entry.now) u.refusal.fault u.json) }
{
    let asked = read(alloc, words)?;
    let json = wants_json(&asked);
    match answer_words(rt, alloc, asked, terminal, world) {
        Ok(status) => Ok(status),
        Err(refusal) => Err(Undone { refusal, json }),
    }
}
