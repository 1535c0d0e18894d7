//! The program, over the words, the files and the streams of the system.
ghost use Rattle.std.specs.Prelude.{◌≡◌, IfErr, IfOk, map};
ghost use Rattle.std.specs.Process.{exit_status};
ghost use Rattle.std.specs.String.{string_bytes};
ghost use Rattle.lwbench.specs.Command.{Ends};
ghost use Rattle.command_files.specs.Files.{most_bytes};
ghost use Rattle.command_files.specs.Input.{IsWithin, WhereKnown};
ghost use Rattle.command_files.specs.Status.{exit_code};
ghost use Rattle.command_files.specs.World.{OnlySays, known_by};
ghost use Rattle.lwbench.specs.Unread.{EndsUnread, IsToldUnread};
ghost use Rattle.command_files.specs.declared.status.Status.{Status as Ending};

use crate::program::command;
use command_files::files::SystemFiles;
use command_files::{Fault, Host, Refusal, Status, World, tell, unwritten};
use command_line::NO_TEXT;
use std::alloc::Global;
use std::io::{ErrorKind, Printer};
use std::net::Net;
use std::process::ExitCode;
use std::rt::{Clock, Env};
use std::sync::Wait;
use std::thread::Threads;
use std::{env, io};

/// The files of the system and its standard output; lines come from `input`, and what is for a person goes to `errors`.
pub fn system_host<'a, R: std::rt::Files + Print + AllocGlobal, I, E>(
    rt: &'a R,
    input: I,
    errors: E,
) -> Host<SystemFiles<'a, R>, I, Printer<'a, R>, E>
    ensures input { result.input ≡ input }
    ensures errors { result.errors ≡ errors }
{
    Host {
        files: SystemFiles {
            rt,
            alloc: rt.alloc(),
        },
        input,
        output: io::writer(rt),
        errors,
    }
}

/// Gives `conclude` the words of the command line. That it does so is read, and run by the gate; its contract has what
/// holds whatever the words: the status is one of four, and at most 64 MiB of standard input are taken.
pub fn start<R: Threads + Wait + Sync + Net + Clock + std::io::Input + Env + AllocGlobal, W: World>(
    rt: &R,
    terminal: bool,
    world: &mut W,
) -> ExitCode
    ensures ended { (status : Ending) × (exit_status result ≡ exit_code status) }
    ensures within { WhereKnown (IsWithin most_bytes) (W.seen world.old).streams.input
        (W.seen world.new).streams.input }
{
    let words = words_of(rt);
    conclude(rt, rt.alloc(), words, terminal, world)
}

fn words_of<R: Env + AllocGlobal>(rt: &R) -> Result<Vec<String>, ErrorKind> {
    match env::args(rt) {
        Ok(args) => match args.collect::<Vec<String>>(rt.alloc()) {
            Ok(words) => Ok(words),
            Err(_) => Err(ErrorKind::OutOfMemory),
        },
        Err(error) => Err(error.kind()),
    }
}

/// The whole program: from its words to the status that its process ends with, which is that of `command` for these
/// words (`ran`). Where the words could not be had, it is 2 with the text that says so, or a fault; nothing is read of
/// standard input and no file is made (`unread`).
#[tactic(auto, using(crate::proofs::Unread::ends_unread))]
pub fn conclude<R: Threads + Wait + Sync + Net + Clock + std::io::Input, W: World>(
    rt: &R,
    alloc: Global,
    words: Result<Vec<String>, ErrorKind>,
    terminal: bool,
    world: &mut W,
) -> ExitCode
    ensures ran { IfOk words (λ words. (status : Ending) × (exit_status result ≡ exit_code status) × Ends
        (known_by W.Files world.old) W.faults (W.seen world.old) (W.seen world.new) terminal
        (map string_bytes words.items) status) }
    ensures unread { IfErr words (λ why. (status : Ending) × (exit_status result ≡ exit_code status) × EndsUnread
        W.faults (W.seen world.old) (W.seen world.new) NO_TEXT.now why status) }
{
    let status = match words {
        Ok(words) => command(rt, alloc, words.as_slice(), terminal, world),
        Err(why) => refuse(alloc, why, world),
    };
    ExitCode::from(status.code())
}

/// Answers where the words could not be had at all: one of them is not a text, or memory ran out.
#[tactic(auto, using(crate::proofs::Unread::used, crate::proofs::Unread::no_memory, crate::proofs::Unread::lost, command_files::proofs::Delivered::unwritten))]
fn refuse<W: World>(alloc: Global, why: ErrorKind, world: &mut W) -> Status
    ensures told { IsToldUnread W.faults (W.seen world.old).streams (W.seen world.new).streams NO_TEXT.now why result }
    ensures only { OnlySays (W.seen world.old) (W.seen world.new) }
{
    if why == ErrorKind::OutOfMemory {
        return tell(alloc, &Refusal::from(Fault::Memory), world);
    }
    match world.print(NO_TEXT) {
        Ok(()) => Status::Usage,
        Err(fault) => tell(alloc, &unwritten("standard output", fault), world),
    }
}
