//! What follows from the definitions, for their readers. The calls do nothing; their contracts are the laws.

ghost use Rattle.std.specs.Prelude.{◌≡◌, ℕ, ◌+◌, List, length};
ghost use Rattle.std.specs.List.{AllByRecursion};
ghost use Rattle.scenario_image.specs.Scenario.{IsValid, Scenario};
ghost use Rattle.trace_file.specs.declared.entry.Entry.{Entry};
ghost use Rattle.trace_text.specs.declared.selection.Selection.{Selection};
ghost use Rattle.trace_text.specs.Selection.{numbered_entries, selected_entries};
ghost use Rattle.trace_json.specs.Entries.{entry_json, trace_json};
ghost use Rattle.trace_json.specs.Json.{by_key};
ghost use Rattle.trace_json.specs.Members.{TellsEntry, IsSameEntry, SendsBytes};
ghost use Rattle.trace_json.specs.Reasons.{no_reasons, reasoned_json};

/// What is read of an entry's line has the entry's members.
pub fn lines_have_entries()
    ensures { (s : Scenario) (number : ℕ) (e : Entry) → TellsEntry s number e (by_key (entry_json s number e)) }
{}

/// Entries whose lines are read as the same are the same, of the same step in the same second: nothing of an entry or
/// of its step is left out or exchanged.
pub fn lines_tell_entries()
    ensures { (s : Scenario) (t : Scenario) (m : ℕ) (n : ℕ) (a : Entry) (b : Entry) → IsValid s → IsValid t
        → AllByRecursion SendsBytes a.outputs → AllByRecursion SendsBytes b.outputs
        → by_key (entry_json s m a) ≡ by_key (entry_json t n b) → IsSameEntry s t m n a b }
{}

/// There are as many lines as selected entries, and one more.
pub fn lines_are_counted()
    ensures { (s : Scenario) (sel : Selection) (es : List Entry)
        → length (trace_json s sel es) ≡ length (selected_entries sel (numbered_entries 0 es)) + 1 }
{}

/// Without reasons the object of an entry is the one that it has where none are asked for.
pub fn reasons_are_members()
    ensures { (s : Scenario) (number : ℕ) (e : Entry)
        → reasoned_json s number e no_reasons ≡ entry_json s number e }
{}
