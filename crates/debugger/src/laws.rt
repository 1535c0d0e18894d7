//! What follows from the definitions, for their readers. The calls do nothing; their contracts are the laws.

ghost use Rattle.std.specs.Prelude.{◌≡◌, ℕ, ◌+◌, ◌-◌, ◌≤◌, List, false, Some, length, take};
ghost use Rattle.object_defs.specs.declared.path.Path.{Path};
ghost use Rattle.device_template.specs.Template.{Template};
ghost use Rattle.scenario_image.specs.declared.step.Step.{Step};
ghost use Rattle.scenario_image.specs.Scenario.{Scenario};
ghost use Rattle.scenario_image.specs.Play.{start, state_after, IsRowOf};
ghost use Rattle.trace_file.specs.declared.entry.Entry.{Entry};
ghost use Rattle.fleet_core.specs.Run.{made_by, IsRun};
ghost use Rattle.fleet_core.specs.Waiting.{is_waiting};
ghost use Rattle.debugger.specs.Shown.{state_of, value_shown, observations_shown, outputs_shown, step_shown};
ghost use Rattle.debugger.specs.Shown.{before_shown};
ghost use Rattle.debugger.specs.Session.{Session, at_place};
ghost use Rattle.debugger.specs.Stops.{device_in, Holds};
ghost use Rattle.debugger.specs.declared.breaks.Break.{Break};

/// Two moves forward, one after another, come to where one by their sum comes; and a move back undoes one forward by as
/// much.
pub fn moves_add_up()
    ensures forward { (v : Session) (a : ℕ) (b : ℕ)
        → at_place (at_place v (v.place + a)) (v.place + a + b) ≡ at_place v (v.place + (a + b)) }
    ensures back { (v : Session) (n : ℕ) → at_place (at_place v (v.place + n)) (v.place + n - n) ≡ v }
{}

/// What is shown of a device depends on the count of its entries before the place alone: two lists of entries that have
/// as many of it show the same, whatever the order of the devices is.
pub fn orders_show_the_same()
    ensures value { (s : Scenario) (a : List Entry) (b : List Entry) (n : ℕ) (m : ℕ) (d : ℕ) (path : Path)
        → made_by d (take n a) ≡ made_by d (take m b) → value_shown s a n d path ≡ value_shown s b m d path }
    ensures observations { (s : Scenario) (a : List Entry) (b : List Entry) (n : ℕ) (m : ℕ) (d : ℕ)
        → made_by d (take n a) ≡ made_by d (take m b) → observations_shown s a n d ≡ observations_shown s b m d }
    ensures outputs { (s : Scenario) (a : List Entry) (b : List Entry) (n : ℕ) (m : ℕ) (d : ℕ)
        → made_by d (take n a) ≡ made_by d (take m b) → outputs_shown s a n d ≡ outputs_shown s b m d }
    ensures step { (s : Scenario) (a : List Entry) (b : List Entry) (n : ℕ) (m : ℕ) (d : ℕ)
        → made_by d (take n a) ≡ made_by d (take m b) → step_shown s a n d ≡ step_shown s b m d }
    ensures before { (s : Scenario) (a : List Entry) (b : List Entry) (n : ℕ) (m : ℕ) (d : ℕ)
        → made_by d (take n a) ≡ made_by d (take m b) → before_shown s a n d ≡ before_shown s b m d }
{}

/// A breakpoint on a device that has no row holds at no place of a run.
pub fn breaks_need_a_row()
    ensures { (s : Scenario) (es : List Entry) (b : Break) (p : ℕ) (d : ℕ)
        → IsRun s es → device_in b ≡ Some d → length s.rows ≤ d → Holds s es b p → ⊥ }
{}

/// At the end of a run a device that is at the end of its row shows the state of its whole row.
pub fn ends_show_the_rows()
    ensures { (s : Scenario) (es : List Entry) (d : ℕ) (class : Template) (steps : List Step)
        → IsRun s es → IsRowOf s d class steps → is_waiting s es d ≡ false
        → state_of s d (made_by d (take (length es) es)) ≡ Some (state_after (start class) steps) }
{}
