//! What follows from the definitions, for their readers. The calls do nothing; their contracts are the laws.
ghost use Rattle.std.specs.Prelude.{◌≡◌, ℕ, ◌+◌, ◌<◌, ◌++◌, Bool, List, Option, Some, None, false, true, [], slice_get};
ghost use Rattle.std.specs.Prelude.{IfSome};
ghost use Rattle.std.specs.List.{list_any, AllByRecursion};
ghost use Rattle.device_machine.specs.State.{Machine};
ghost use Rattle.live_link.specs.Live.{IsLiveStep};
ghost use Rattle.fleet_core.specs.Run.{IsComplete, IsSerial};
ghost use Rattle.scenario_image.specs.declared.step.Step.{Step};
ghost use Rattle.scenario_image.specs.Play.{state_after};
ghost use Rattle.scenario_image.specs.Scenario.{Scenario};
ghost use Rattle.trace_file.specs.declared.entry.Entry.{Entry};
ghost use Rattle.fleet_link.specs.declared.slot.Slot.{Slot};
ghost use Rattle.fleet_link.specs.Traffic.{Traffic};
ghost use Rattle.fleet_link.specs.Saved.{IsPlayedBack, IsSaved};
ghost use Rattle.fleet_link.specs.declared.row.PlayedRow.{PlayedRow};
ghost use Rattle.fleet_link.specs.Playing.{changes_by, happened_of, is_need, passes_of, played_steps, second_by};
ghost use Rattle.fleet_link.specs.Playing.{IsFleetStep, IsUnderWay};
ghost use Rattle.fleet_link.specs.Serving.{IsFleet};

/// The scenario of a session plays back: in its serial run, and in every other complete run, each device whose steps
/// are all recorded outputs exactly the datagrams that were sent from its port, in order, whatever else went through
/// the ports. It holds of a session that was broken off, too.
pub fn saved_rows_play_back()
    ensures complete { (s : Scenario) (played : Bool) (before after : ℕ → Option Traffic) (slots : List Slot) (now : ℕ)
        (broken : Bool) (saved : Scenario) → IsFleet s played before slots now broken after → IsSaved s slots saved
        → (es : List Entry)
        → IsComplete saved es → (e : ℕ) (slot : Slot) → slice_get slots e ≡ Some slot
        → slot.recording.complete ≡ true → IsPlayedBack es e (before e) (after e) }
    ensures serial { (s : Scenario) (played : Bool) (before after : ℕ → Option Traffic) (slots : List Slot) (now : ℕ)
        (broken : Bool) (saved : Scenario) → IsFleet s played before slots now broken after → IsSaved s slots saved
        → (es : List Entry)
        → IsSerial saved es → (e : ℕ) (slot : Slot) → slice_get slots e ≡ Some slot
        → slot.recording.complete ≡ true → IsPlayedBack es e (before e) (after e) }
{}

/// The clock of a device shows the second up to which it has stepped: that of the session.
pub fn clocks_show_seconds()
    ensures { (f : Machine) (steps : List Step) → (state_after f steps).kept.clock ≡ second_by f.kept.clock steps }
{}

/// Steps without a change of the device's own are datagrams and seconds: so where rows are not played, and where they
/// have nothing but datagrams, a session has no other steps.
pub fn unchanged_steps_are_live()
    ensures { (second : ℕ) (steps : List Step) → AllByRecursion IsFleetStep steps → changes_by second steps ≡ []
        → AllByRecursion IsLiveStep steps }
{}

/// What is played of a row has the changes of the whole row, each at its second: its datagrams are left out.
pub fn played_steps_keep_changes()
    ensures { (second : ℕ) (steps : List Step) → changes_by second (played_steps true steps)
        ≡ changes_by second steps }
{}

/// A row without needs does the same in each pass, and the passes of a repeated one follow each other: its changes are
/// those of the first pass, each at its second, and then those of the next one, from the second at which the first one
/// ended.
pub fn passes_repeat()
    ensures happened { (own : List Step) (row : PlayedRow) (u : IsUnderWay own row) → list_any is_need own ≡ false
        → happened_of row ≡ passes_of u.turns row.place own }
    ensures follow { (second turns place : ℕ) (own : List Step)
        → changes_by second (passes_of (turns + 1) place own)
        ≡ changes_by second own ++ changes_by (second_by second own) (passes_of turns place own) }
{}
