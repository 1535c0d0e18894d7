//! A log that is read from an input.
ghost use Rattle.std.specs.Prelude.{◌≡◌, ◌<◌, ◌⊎◌, List, ℕ, length, IfErr, IfOk, IfSome};
ghost use Rattle.command_files.specs.Files.{IsFailure, most_bytes};
ghost use Rattle.command_files.specs.Input.{IsWithin, WhereKnown};
ghost use Rattle.command_files.specs.World.{OnlyReads};
ghost use Rattle.command_words.specs.Inputs.{IsAll, IsBeyond, IsInputSaid, IsInputRefused};

use crate::log::say_all;
use command_files::files::{FileFault, most_bytes};
use command_files::{Answer, Fault, Refusal, Why, World};
use std::alloc::Global;

/// All that standard input has to give, which is at most 64 MiB.
#[tactic(auto, using(crate::proofs::Taken::none_taken, crate::proofs::Taken::line_taken, crate::proofs::Taken::all_taken, crate::proofs::Taken::within_line, crate::proofs::Taken::within_part, crate::proofs::Taken::failed))]
fn read_all<W: World>(alloc: Global, world: &mut W) -> Result<Vec<u8>, FileFault>
    ensures all { IfOk result (λ log. WhereKnown (IsAll log.items) (W.seen world.old).streams.input
        (W.seen world.new).streams.input) }
    ensures failed { IfErr result (IsFailure (W.faults.input_fails ⊎ IsBeyond (W.seen world.old).streams.input)) }
    ensures within { WhereKnown (IsWithin most_bytes) (W.seen world.old).streams.input
        (W.seen world.new).streams.input }
    ensures only { OnlyReads (W.seen world.old) (W.seen world.new) }
{
    let mut log = Vec::new(alloc);
    let mut left = most_bytes();
    'lines: loop {
        let line = world.next_line(alloc, left)?;
        if line.is_empty() {
            return Ok(log);
        }
        left -= line.len() as u32;
        log.extend_from_slice(line.as_slice())?;
    }
}

/// `say - [--server S]`: what `say` says of the datagram of each line of standard input, to its end. At most 64 MiB of
/// it are taken, and nothing is said of a part of it.
#[tactic(auto, using(crate::proofs::Heard::input_said, crate::proofs::Heard::input_wrong, crate::proofs::Heard::input_unread, crate::proofs::Heard::input_memory))]
pub fn say_input<'a, W: World>(
    alloc: Global,
    server: u16,
    world: &mut W,
) -> Result<Answer<'a>, Refusal<'a>>
    ensures done { IfOk result (IsInputSaid (W.seen world.old).streams.input (W.seen world.new).streams.input server) }
    ensures refused { IfErr result (λ r. IsInputRefused W.faults.input_fails (W.seen world.old).streams.input
        (W.seen world.new).streams.input r.fault) }
    ensures within { WhereKnown (IsWithin most_bytes) (W.seen world.old).streams.input
        (W.seen world.new).streams.input }
    ensures only { OnlyReads (W.seen world.old) (W.seen world.new) }
{
    match read_all(alloc, world) {
        Ok(log) => say_all(alloc, log.as_slice(), server),
        Err(FileFault::Failed(why)) => Err(Refusal {
            fault: Fault::Read,
            about: Some("standard input"),
            why: Why::Known(why),
        }),
        Err(FileFault::Memory) => Err(Refusal::from(Fault::Memory)),
    }
}
