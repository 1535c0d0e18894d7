//! What is said in JSON where something was refused.
ghost use Rattle.std.specs.Prelude.{◌≡◌, List, OnErr, OnOk, option_map, ℕ};
ghost use Rattle.std.specs.Io.KnownBytes.{Appends};
ghost use Rattle.command_files.specs.World.{OnlyPrints, OnlySays};
ghost use Rattle.command_json.specs.Told.{IsFaultObject, IsToldInJson, blamed_word};

use crate::object::object_line;
use command_files::files::FileFault;
use command_files::{Refusal, Status, World, complain};
use std::alloc::Global;

/// The line of a lack of memory.
const MEMORY: &str = "{\"fault\":\"memory\"}\n";

/// Prints the object of a fault; where no memory is left for it, that of a lack of memory.
#[tactic(auto, using(crate::proofs::Objects::printed_so, crate::proofs::Objects::unprinted_so))]
fn print_object<W: World>(alloc: Global, refusal: &Refusal, world: &mut W) -> Result<(), FileFault>
    ensures printed { OnOk result ((text : List ℕ)
        × IsFaultObject (option_map (λ p. p.now) refusal.now.about) (blamed_word refusal.now.why)
        refusal.now.fault text
        × Appends (W.seen world.old).streams.output (W.seen world.new).streams.output text) }
    ensures refused { OnErr result ((text : List ℕ)
        × IsFaultObject (option_map (λ p. p.now) refusal.now.about) (blamed_word refusal.now.why)
        refusal.now.fault text × W.faults.output_refuses text) }
    ensures only { OnlyPrints (W.seen world.old) (W.seen world.new) }
{
    match object_line(alloc, refusal) {
        Ok(line) => world.print(line.as_str()),
        Err(_) => world.print(MEMORY),
    }
}

/// Prints the object of a fault as a line, and then, for people, what it is about. Where the first is not taken there
/// is no second.
#[tactic(auto, using(crate::proofs::Objects::told, crate::proofs::Objects::untold))]
pub fn tell_in_json<W: World>(alloc: Global, refusal: &Refusal, world: &mut W) -> Status
    ensures status { result ≡ Status.Fault }
    ensures told { IsToldInJson W.faults (W.seen world.old).streams (W.seen world.new).streams
        (option_map (λ p. p.now) refusal.now.about) (blamed_word refusal.now.why) refusal.now.fault }
    ensures only { OnlySays (W.seen world.old) (W.seen world.new) }
{
    match print_object(alloc, refusal, world) {
        Ok(()) => complain(alloc, refusal, world),
        Err(_) => {}
    }
    Status::Fault
}
