//! What is said where something was refused.
ghost use Rattle.std.specs.Prelude.{◌≡◌, option_map};
ghost use Rattle.command_files.specs.Refusals.{IsReported, IsTold};
ghost use Rattle.command_files.specs.World.{OnlyNotes, OnlySays};

use crate::fault::{Fault, FaultLine};
use crate::refusal::{Refusal, complaint};
use crate::status::Status;
use crate::world::World;
use std::alloc::Global;

/// Prints the line of a fault, and then, for people, what it is about. Where the first is not taken there is no second.
#[tactic(auto, using(crate::proofs::Told::told, crate::proofs::Told::untold))]
pub fn tell<W: World>(alloc: Global, refusal: &Refusal, world: &mut W) -> Status
    ensures status { result ≡ Status.Fault }
    ensures told { IsTold W.faults (W.seen world.old).streams (W.seen world.new).streams
        (option_map (λ p. p.now) refusal.now.about) refusal.now.fault }
    ensures only { OnlySays (W.seen world.old) (W.seen world.new) }
{
    match world.print(FaultLine(refusal.fault)) {
        Ok(()) => complain(alloc, refusal, world),
        Err(_) => {}
    }
    Status::Fault
}

/// Prints what a refusal is about. Where no memory is left for the line there is none.
#[tactic(auto, using(crate::proofs::Told::silent, crate::proofs::Told::reported, crate::proofs::Told::unreported))]
pub fn complain<W: World>(alloc: Global, refusal: &Refusal, world: &mut W)
    ensures reported { IsReported W.faults (W.seen world.old).streams (W.seen world.new).streams
        (option_map (λ p. p.now) refusal.now.about) }
    ensures only { OnlyNotes (W.seen world.old) (W.seen world.new) }
{
    if let Ok(text) = complaint(alloc, refusal) {
        let _ = world.note(text.as_str());
    }
}
