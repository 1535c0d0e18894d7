//! What follows from the definitions, for their readers. The calls do nothing; their contracts are the laws.

ghost use Rattle.std.specs.Prelude.{◌≡◌, ℕ, ◌+◌, ◌++◌, List, None, Some, length, take, slice_get};
ghost use Rattle.device_template.specs.Template.{Template};
ghost use Rattle.device_machine.specs.declared.event.Event.TheVariants.{Recv};
ghost use Rattle.scenario_words.specs.HexWord.{hex_word};
ghost use Rattle.scenario_image.specs.declared.step.Step.{Step};
ghost use Rattle.scenario_image.specs.declared.step.Step.TheVariants.{Event};
ghost use Rattle.scenario_image.specs.Scenario.{Scenario};
ghost use Rattle.scenario_image.specs.Play.{state_at, IsRowOf};
ghost use Rattle.trace_file.specs.declared.entry.Entry.{Entry};
ghost use Rattle.fleet_core.specs.Run.{Fits, IsRun, step_at};
ghost use Rattle.trace_text.specs.Seconds.{second_at};
ghost use Rattle.trace_text.specs.Selection.{selected_text};
ghost use Rattle.trace_text.specs.Text.{HasPart, entries_text, entry_text, trace_text};

/// In a run each entry has its step, whose number is the count of the device's earlier entries.
pub fn runs_have_steps()
    ensures { (s : Scenario) (es : List Entry) (n : ℕ) (e : Entry) → IsRun s es → slice_get es n ≡ Some e
        → Fits s (take n es) e }
{}

/// The second of an entry is that of the device's clock before the step.
pub fn seconds_are_shown()
    ensures { (s : Scenario) (d : ℕ) (k : ℕ) (class : Template) (steps : List Step) → IsRowOf s d class steps
        → second_at s d k ≡ (state_at class steps k).kept.clock }
{}

/// The bytes of each datagram that arrives stand in the text of its entry, in hex.
pub fn arrivals_have_bytes()
    ensures { (s : Scenario) (number : ℕ) (e : Entry) (server : ℕ) (bytes : List ℕ)
        → step_at s e.device e.step ≡ Some (Event (Recv server bytes))
        → HasPart (entry_text s number e) (hex_word bytes) }
{}

/// The text of a trace is that of a prefix followed by that of the rest; so a part of a trace, from a place to a place,
/// has the same text alone.
pub fn parts_join()
    ensures { (s : Scenario) (number : ℕ) (a : List Entry) (b : List Entry)
        → entries_text s number (a ++ b) ≡ entries_text s number a ++ entries_text s (number + length a) b }
{}

/// Where nothing is asked for, the selected text is that of the whole trace.
pub fn all_are_selected()
    ensures { (s : Scenario) (es : List Entry)
        → selected_text s (record { device = None; from = None; to = None }) es ≡ trace_text s es }
{}
