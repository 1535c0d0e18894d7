//! A trace as text, entry by entry.

ghost use Rattle.std.specs.Prelude.{◌≡◌, ◌++◌, IfErr, IfOk, OnOk};
ghost use Rattle.std.specs.String.{string_bytes};
ghost use Rattle.trace_text.specs.Selection.{IsSelectable, IsSelectionFault, selected_text};
ghost use Rattle.trace_text.specs.Text.{entry_text, trace_text};

use crate::clocks::Clocks;
use crate::lines::{put_entry_start, put_outputs};
use crate::selection::{Selection, SelectionFault};
use crate::steps::put_step;
use fleet_core::step_of;
use scenario_image::Scenario;
use std::alloc::{AllocError, Global};
use std::marker::Model;
use trace_file::Entry;

/// Room for the text of an entry, which mostly takes less.
const USUAL_LENGTH: usize = 512;

/// Makes the text of entries of a scenario, in any order. Contracts see the scenario.
#[derive(Drop)]
pub struct Transcript<'a> {
    alloc: Global,
    scenario: &'a Scenario,
    clocks: Clocks<'a>,
}

impl<'a> Model for Transcript<'a> {
    ghost use Rattle.std.specs.Prelude.{◌≡◌};
    ghost use Rattle.std.specs.Coded.{codes};
    ghost use Rattle.instance_store.specs.Stored.{stored_code};
    ghost use Rattle.scenario_image.specs.Scenario.{Scenario};

    ghost Value = { Scenario };

    ghost coded = { Prim.hlevel (codes, stored_code) };

    ghost view = { λ t. t.scenario.now };

    ghost invariant = { λ t. t.clocks ≡ t.scenario.now };
}

impl<'a> Transcript<'a> {
    /// A transcript of entries of the scenario.
    pub fn new(alloc: Global, scenario: &'a Scenario) -> Result<Transcript<'a>, AllocError>
        ensures { IfOk result (λ t. t ≡ scenario.now) }
    {
        Ok(Transcript {
            alloc,
            scenario,
            clocks: Clocks::new(alloc, scenario)?,
        })
    }

    /// Writes the text of an entry.
    fn put_entry(
        &mut self,
        out: &mut String,
        number: usize,
        entry: &Entry,
    ) -> Result<(), AllocError>
        ensures text { OnOk result (string_bytes out.new
            ≡ string_bytes out.old ++ entry_text self.old number entry.now) }
        ensures same { self.new ≡ self.old }
    {
        let second = self.clocks.second_at(entry.device, entry.step as usize);
        let step = step_of(self.scenario, entry.device, entry.step);
        put_entry_start(out, number, entry, second)?;
        put_step(self.alloc, out, step)?;
        put_outputs(self.alloc, out, entry.outputs.as_slice())
    }

    /// The text of an entry, of this number in its trace: a line with the numbers of entry, worker, device and step,
    /// the second of the device before the step, and the step in the words of scenario text, and a line for each
    /// output. After a datagram, one that arrives and one that is sent, comes what it says, in a line that begins with
    /// four spaces and `#`; before that, in such a line, the bytes of one that arrives and is written as a mnemonic.
    /// Entries may be asked for in any order.
    pub fn entry_text(&mut self, number: usize, entry: &Entry) -> Result<String, AllocError>
        ensures text { IfOk result (λ t. string_bytes t ≡ entry_text self.old number entry.now) }
        ensures same { self.new ≡ self.old }
    {
        let mut out = String::with_capacity(self.alloc, USUAL_LENGTH)?;
        self.put_entry(&mut out, number, entry)?;
        Ok(out)
    }
}

/// The text of a trace: that of each entry, in their order.
#[tactic(auto, using(crate::proofs::Parts::whole))]
pub fn trace_text(
    alloc: Global,
    scenario: &Scenario,
    entries: &[Entry],
) -> Result<String, AllocError>
    ensures { IfOk result (λ t. string_bytes t ≡ trace_text scenario.now entries.now) }
{
    let all = Selection {
        device: None,
        from: None,
        to: None,
    };
    text_of(alloc, scenario, entries, all)
}

/// The text of those entries of a trace that are of a device and have numbers from one number to another, each as in
/// the text of the whole trace, with its number there; or the first of what the scenario and the trace do not have.
pub fn selected_text(
    alloc: Global,
    scenario: &Scenario,
    entries: &[Entry],
    selection: Selection,
) -> Result<String, SelectionFault>
    ensures selectable { IfOk result (λ _. IsSelectable scenario.now selection entries.now) }
    ensures text { IfOk result (λ t. string_bytes t ≡ selected_text scenario.now selection entries.now) }
    ensures refused { IfErr result (IsSelectionFault scenario.now selection entries.now) }
{
    selection.check(scenario, entries)?;
    let text = text_of(alloc, scenario, entries, selection)?;
    Ok(text)
}

/// The text of the selected entries, which may be none.
fn text_of(
    alloc: Global,
    scenario: &Scenario,
    entries: &[Entry],
    selection: Selection,
) -> Result<String, AllocError>
    ensures { IfOk result (λ t. string_bytes t ≡ selected_text scenario.now selection entries.now) }
{
    let mut transcript = Transcript::new(alloc, scenario)?;
    let mut out = String::new(alloc);
    for (number, entry) in entries.iter().enumerate() {
        if selection.has(number, entry) {
            transcript.put_entry(&mut out, number, entry)?;
        }
    }
    Ok(out)
}
