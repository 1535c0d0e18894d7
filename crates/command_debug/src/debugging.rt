//! `debug IMAGE TRACE [--why]`: a conversation with a debugger over a run.
ghost use Rattle.std.specs.Prelude.{◌≡◌, ◌⊎◌, [], IfErr, IfNone, IfOk, IfSome};
ghost use Rattle.fleet_core.specs.Run.{IsRun};
ghost use Rattle.debugger.specs.Session.{new_session};
ghost use Rattle.command_files.specs.Answers.{files_of};
ghost use Rattle.command_debug.specs.Conversation.{IsConversation, IsCutShort};
ghost use Rattle.command_debug.specs.Debugging.{IsDebugCutAt, IsDebuggedAt, IsDebugRefused};
ghost use Rattle.command_files.specs.Loading.{IsCheckRefused};
ghost use Rattle.command_files.specs.Verdicts.{IsJudged};
ghost use Rattle.command_files.specs.World.{IsIdle};

use crate::conversation::converse;
use command_files::{Answer, Fault, Refusal, Status, World, load_scenario, load_trace, no_run};
use debugger::{Debugger, OpenFault};
use scenario_image::Scenario;
use std::alloc::Global;
use trace_file::Entries;

/// `debug IMAGE TRACE`: answers the lines of standard input, over a run, with notes for a person on standard error;
/// where the trace is none, the answer says so. With `--why`, `reasons` are asked for: then `why` is a command.
#[tactic(auto, using(crate::proofs::Debugged::debug_refused, crate::proofs::Debugged::debugged_at, crate::proofs::Debugged::image_refused, crate::proofs::Debugged::trace_refused, crate::proofs::Debugged::run_refused))]
pub fn debug<'a, W: World>(
    alloc: Global,
    image: &'a str,
    trace: &'a str,
    reasons: bool,
    world: &mut W,
) -> Result<Option<Answer<'a>>, Refusal<'a>>
    ensures done { IfOk result (λ o. IfSome o (IsDebugRefused (W.holds world.old)
        (record { image = image.entry.now; trace = trace.entry.now }))) }
    ensures idle { IfOk result (λ o. IfSome o (λ _. IsIdle (W.seen world.old).streams (W.seen world.new).streams)) }
    ensures conversation { IfOk result (λ o. IfNone o (IsDebuggedAt (W.holds world.old)
        (record { faults = W.faults; reasons = reasons }) (record { image = image.entry.now; trace = trace.entry.now })
        (W.seen world.old).streams (W.seen world.new).streams)) }
    ensures refused { IfErr result (λ r.
        (IsCheckRefused (W.holds world.old) (W.fails world.old)
        (record { image = image.entry.now; trace = trace.entry.now })
        r.fault × IsIdle (W.seen world.old).streams (W.seen world.new).streams)
        ⊎ IsDebugCutAt (W.holds world.old) (record { faults = W.faults; reasons = reasons })
        (record { image = image.entry.now; trace = trace.entry.now }) (W.seen world.old).streams
        (W.seen world.new).streams
        r.fault) }
    ensures none_made { (W.seen world.new).made ≡ (W.seen world.old).made }
{
    let scenario = load_scenario(alloc, image, world)?;
    let entries = load_trace(alloc, trace, world)?;
    debug_run(alloc, &scenario, entries, reasons, world)
}

/// Answers the lines of standard input, over a run; where the entries are none, the answer says so.
#[tactic(auto, using(command_files::proofs::Built::judged_none))]
fn debug_run<'a, W: World>(
    alloc: Global,
    scenario: &Scenario,
    entries: Entries,
    reasons: bool,
    world: &mut W,
) -> Result<Option<Answer<'a>>, Refusal<'a>>
    ensures verdict { IfOk result (λ o. IfSome o (IsJudged scenario.now entries)) }
    ensures no_run { IfOk result (λ o. IfSome o (λ a. a.status ≡ Status.NotRun)) }
    ensures made { IfOk result (λ o. IfSome o (λ a. files_of a.file ≡ [])) }
    ensures idle { IfOk result (λ o. IfSome o (λ _. IsIdle (W.seen world.old).streams (W.seen world.new).streams)) }
    ensures run { IfOk result (λ o. IfNone o (IsRun scenario.now entries)) }
    ensures conversed { IfOk result (λ o. IfNone o (IsConversation (record { faults = W.faults; reasons = reasons })
        (W.seen world.old).streams (W.seen world.new).streams (new_session scenario.now entries))) }
    ensures refused { IfErr result (λ r.
        ((r.fault ≡ Fault.Memory) × IsIdle (W.seen world.old).streams (W.seen world.new).streams)
        ⊎ (IsRun scenario.now entries × IsCutShort (record { faults = W.faults; reasons = reasons })
        (W.seen world.old).streams (W.seen world.new).streams (new_session scenario.now entries)
        r.fault)) }
    ensures none_made { (W.seen world.new).made ≡ (W.seen world.old).made }
{
    match Debugger::open(alloc, scenario, entries) {
        Ok(mut debugger) => {
            converse(alloc, &mut debugger, reasons, world)?;
            Ok(None)
        }
        Err(OpenFault::NotRun(place)) => Ok(Some(no_run(alloc, place)?)),
        Err(OpenFault::Memory) => Err(Refusal::from(Fault::Memory)),
    }
}
