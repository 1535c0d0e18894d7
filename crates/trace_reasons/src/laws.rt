//! What follows from the definitions, for their readers. The calls do nothing; their contracts are the laws.

ghost use Rattle.std.specs.Prelude.{◌≡◌, ℕ, []};
ghost use Rattle.scenario_image.specs.Scenario.{Scenario};
ghost use Rattle.trace_file.specs.declared.entry.Entry.{Entry};
ghost use Rattle.trace_text.specs.Text.{entry_text};
ghost use Rattle.trace_reasons.specs.Text.{entry_with};

/// Without the lines of reasons the text of an entry is that of `trace_text`.
pub fn reasons_are_added()
    ensures { (s : Scenario) (number : ℕ) (e : Entry) → entry_with s number e [] [] ≡ entry_text s number e }
{}
