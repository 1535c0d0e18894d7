//! The checker of trace files.

ghost use Rattle.std.specs.Prelude.{◌≡◌, ◌≢◌, List, IfErr, IfOk, IsErrAnd, MatchResult};
ghost use Rattle.byte_layout.specs.declared.fault.LayoutFault.{LayoutFault};
ghost use Rattle.byte_layout.specs.declared.fault.LayoutFault.TheVariants.{Memory};
ghost use Rattle.byte_layout.specs.Whole.{HasFault};
ghost use Rattle.trace_file.specs.declared.entry.Entry.{Entry as EntryData};
ghost use Rattle.trace_file.specs.Layout.{trace_file, IsTraceFile};
ghost use Rattle.fleet_core.specs.Verdict.{Judges};

use crate::past::Past;
use crate::replay::Replay;
use crate::verdict::Verdict;
use byte_layout::LayoutFault;
use scenario_image::Scenario;
use std::alloc::{AllocError, Global};
use trace_file::{Entry, TakesEntries, take_file};

/// What checks entries as it takes them. None is kept.
struct Checker<'a> {
    replay: Replay<'a>,
    past: Past,
    /// How many it has taken.
    count: usize,
    /// What they are.
    verdict: Verdict,
}

/// By hand, so that a caller's proof has one step where it is dropped, and no case for each of its parts.
impl Drop for Checker<'_> {
    fn drop(self) {
        let Checker {
            replay: _replay,
            past: _past,
            count: _,
            verdict: _,
        } = self;
    }
}

impl<'a> TakesEntries for Checker<'a> {
    ghost use Rattle.scenario_image.specs.Scenario.{Scenario};
    ghost use Rattle.fleet_core.specs.Past.{past_entries};
    ghost use Rattle.fleet_core.specs.Inside.{IsChecking};

    ghost taken = { λ c. past_entries c.past };

    ghost IsReady = { λ c. IsChecking c.replay (past_entries c.past) c.count c.verdict };

    ghost Kept = { Scenario };

    ghost kept = { λ c. c.replay.scenario };

    /// No device makes a step once an entry does not come next.
    #[inline(always)]
    fn take(&mut self, entry: Entry) -> Result<(), AllocError> {
        if let Verdict::Run = self.verdict {
            if !self.replay.take(&entry)? {
                self.verdict = Verdict::NotRun(self.count);
            }
        }
        self.past = self.past.with(&entry);
        self.count += 1;
        Ok(())
    }
}

/// What the entries are whose trace file these bytes are, all of them, as `check` has it; otherwise the one fault of
/// the bytes, as `read_entries` has it. Each entry is checked as it is read, and then let go of.
pub fn check_file(alloc: Global, scenario: &Scenario, bytes: &[u8]) -> Result<Verdict, LayoutFault>
    ensures found { IfOk result (λ verdict. (es : List EntryData) × IsTraceFile bytes.now es
        × Judges scenario.now es verdict) }
    ensures only { (es : List EntryData) → IsTraceFile bytes.now es
        → MatchResult result (Judges scenario.now es) (λ f. f ≡ Memory) }
    ensures fault { IfErr result (λ f. f ≢ Memory → HasFault trace_file bytes.now f) }
    ensures refused { (f : LayoutFault) → HasFault trace_file bytes.now f → IsErrAnd result (λ g. g ≢ Memory → g ≡ f) }
{
    let Ok(replay) = Replay::new(alloc, scenario) else {
        return Err(LayoutFault::Memory);
    };
    let mut checker = Checker {
        replay,
        past: Past::Nothing,
        count: 0,
        verdict: Verdict::Run,
    };
    take_file(alloc, &mut checker, bytes)?;
    Ok(checker.verdict)
}
