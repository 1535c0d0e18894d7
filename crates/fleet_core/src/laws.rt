//! What follows from the definitions, for their readers. The calls do nothing; their contracts are the laws.

ghost use Rattle.std.specs.Prelude.{◌≡◌, ℕ, ◌+◌, ◌<◌, ◌≤◌, ◌↔◌, ◌++◌, ◌∷◌, [], List, true, false, Some, length};
ghost use Rattle.std.specs.Prelude.{slice_get};
ghost use Rattle.device_template.specs.Template.{Template};
ghost use Rattle.device_machine.specs.declared.output.Output.{Output};
ghost use Rattle.scenario_image.specs.declared.step.Step.{Step};
ghost use Rattle.scenario_image.specs.declared.step.Step.TheVariants.{Post, Need};
ghost use Rattle.scenario_image.specs.Scenario.{Scenario, IsValid};
ghost use Rattle.scenario_image.specs.Play.{start, step_after, step_outputs, is_step_refused, PutsOut, IsRowOf};
ghost use Rattle.device_machine.specs.State.{Machine, Device, Shows};
ghost use Rattle.trace_file.specs.declared.entry.Entry.{Entry};
ghost use Rattle.fleet_core.specs.Run.{steps_in, step_at, made_by, posts_of, out_at, is_enabled, CanGo, Fits};
ghost use Rattle.fleet_core.specs.Next.{next_of, may_pass};
ghost use Rattle.fleet_core.specs.Run.{IsRun, IsComplete, IsSame, outputs_by};
ghost use Rattle.fleet_core.specs.Board.{AreStarted, ShowsAfter};
ghost use Rattle.fleet_core.specs.Blocks.{AreOf};
ghost use Rattle.fleet_core.specs.Waiting.{is_waiting};

/// Two complete runs of a scenario have the same entries, device by device, except for their order and workers; no run
/// has more entries of a device than a complete one.
pub fn runs_agree()
    ensures same { (s : Scenario) (a : List Entry) (b : List Entry) → IsComplete s a → IsComplete s b → (d : ℕ)
        → IsSame d a b }
    ensures within { (s : Scenario) (a : List Entry) (b : List Entry) → IsRun s a → IsComplete s b → (d : ℕ)
        → made_by d a ≤ made_by d b }
{}

/// A prefix of a run is a run, and a run is continued exactly by entries that fit; an entry of a device fits exactly if
/// the device is enabled.
pub fn runs_grow()
    ensures front { (s : Scenario) (a : List Entry) (b : List Entry) → IsRun s (a ++ b) → IsRun s a }
    ensures fits { (s : Scenario) (es : List Entry) (e : Entry) → IsRun s (es ++ e ∷ []) → Fits s es e }
    ensures more { (s : Scenario) (es : List Entry) (e : Entry) → IsRun s es → Fits s es e → IsRun s (es ++ e ∷ []) }
    ensures can { (s : Scenario) (es : List Entry) (d : ℕ) → (is_enabled s es d ≡ true) ↔ CanGo s es d }
{}

/// What an entry of a run outputs is what the step outputs in the device's row.
pub fn outputs_are_the_rows()
    ensures { (s : Scenario) (d : ℕ) (k : ℕ) (class : Template) (steps : List Step) (outputs : List Output)
        → IsRowOf s d class steps → PutsOut (start class) steps k outputs
        → out_at s d k ≡ outputs }
{}

/// What a device outputs depends on its class and its steps alone. In runs of two scenarios, devices of the same class
/// with the same steps that have as many entries output the same, whatever other devices there are.
pub fn devices_stand_alone()
    ensures { (s : Scenario) (t : Scenario) (a : List Entry) (b : List Entry) (d : ℕ) (e : ℕ) (class : Template)
        (steps : List Step) → IsRun s a → IsRun t b → IsRowOf s d class steps → IsRowOf t e class steps
        → made_by d a ≡ made_by e b → outputs_by d a ≡ outputs_by e b }
{}

/// No step of a valid scenario's row is refused by a device that has made the steps before it. The device then shows
/// the state after one step more, and its outputs are the row's. A step's number is below 4,096.
pub fn steps_are_taken()
    ensures refused { (s : Scenario) (d : ℕ) (k : ℕ) (step : Step) (x : Device) → IsValid s
        → step_at s d k ≡ Some step → ShowsAfter s d k x → is_step_refused x step ≡ false }
    ensures shows { (s : Scenario) (d : ℕ) (k : ℕ) (step : Step) (x : Device) (y : Device) → IsValid s
        → step_at s d k ≡ Some step → ShowsAfter s d k x
        → ((f : Machine) → Shows x f → Shows y (step_after f step)) → ShowsAfter s d (k + 1) y }
    ensures outputs { (s : Scenario) (d : ℕ) (k : ℕ) (step : Step) (x : Device) (out : List Output) → IsValid s
        → step_at s d k ≡ Some step → ShowsAfter s d k x
        → ((f : Machine) → Shows x f → out ≡ step_outputs f step) → out ≡ out_at s d k }
    ensures first { (s : Scenario) (devices : List Device) (d : ℕ) (x : Device) → AreStarted s devices
        → slice_get devices d ≡ Some x → ShowsAfter s d 0 x }
    ensures place { (s : Scenario) (d : ℕ) (k : ℕ) (step : Step) → IsValid s → step_at s d k ≡ Some step → k < 4096 }
    ensures row { (s : Scenario) (d : ℕ) (k : ℕ) (step : Step) → step_at s d k ≡ Some step → d < length s.rows }
{}

/// The counts over two lists of entries, one after the other, are the sums of their counts; so posts only grow. A run
/// of a valid scenario has at most 67,108,864 posts to a group.
pub fn counts_add_up()
    ensures made { (d : ℕ) (a : List Entry) (b : List Entry) → made_by d (a ++ b) ≡ made_by d a + made_by d b }
    ensures posts { (s : Scenario) (g : ℕ) (a : List Entry) (b : List Entry)
        → posts_of s g (a ++ b) ≡ posts_of s g a + posts_of s g b }
    ensures later { (s : Scenario) (g : ℕ) (a : List Entry) (b : List Entry) → posts_of s g a ≤ posts_of s g (a ++ b) }
    ensures most { (s : Scenario) (g : ℕ) (es : List Entry) → IsValid s → IsRun s es → posts_of s g es ≤ 67108864 }
{}

/// Entries of one device that continue a run continue each run that has as many entries of the device and at least the
/// posts; so they continue each longer one to which no entry of the device was added. They count for that device alone.
pub fn blocks_follow()
    ensures follows { (s : Scenario) (d : ℕ) (a : List Entry) (b : List Entry) (block : List Entry)
        → IsRun s (a ++ block) → IsRun s b → AreOf d block → made_by d a ≡ made_by d b
        → ((g : ℕ) → posts_of s g a ≤ posts_of s g b) → IsRun s (b ++ block) }
    ensures later { (s : Scenario) (d : ℕ) (a : List Entry) (after : List Entry) (block : List Entry)
        → IsRun s (a ++ block) → IsRun s (a ++ after) → AreOf d block → made_by d after ≡ 0
        → IsRun s ((a ++ after) ++ block) }
    ensures count { (d : ℕ) (block : List Entry) → AreOf d block → made_by d block ≡ length block }
    ensures adds { (d : ℕ) (es : List Entry) (block : List Entry) → AreOf d block
        → made_by d (es ++ block) ≡ made_by d es + length block }
    ensures others { (d : ℕ) (i : ℕ) (es : List Entry) (block : List Entry) → AreOf d block → (d ≡ i → ⊥)
        → made_by i (es ++ block) ≡ made_by i es }
{}

/// A run is complete exactly if no device is enabled, and each run is the beginning of a complete one. An enabled
/// device
/// has steps left; a run whose devices have none left is complete. A run has at most as many entries of a device as its
/// row has steps. Groups are below 256, so a table of their posts says which devices are enabled.
pub fn runs_end()
    ensures complete { (s : Scenario) (es : List Entry) → IsRun s es
        → ((d : ℕ) → is_enabled s es d ≡ false) → IsComplete s es }
    ensures blocked { (s : Scenario) (es : List Entry) → IsComplete s es → (d : ℕ) → is_enabled s es d ≡ false }
    ensures begins { (s : Scenario) (es : List Entry) → IsRun s es → (rest : List Entry) × IsComplete s (es ++ rest) }
    ensures past { (s : Scenario) (es : List Entry) (d : ℕ) → length s.rows ≤ d → is_enabled s es d ≡ false }
    ensures waits { (s : Scenario) (es : List Entry) (d : ℕ) → is_enabled s es d ≡ true → is_waiting s es d ≡ true }
    ensures done { (s : Scenario) (es : List Entry) → IsRun s es
        → ((d : ℕ) → is_waiting s es d ≡ false) → IsComplete s es }
    ensures made { (s : Scenario) (es : List Entry) (d : ℕ) → IsRun s es
        → made_by d es ≤ length (steps_in (slice_get s.rows d)) }
    ensures need { (s : Scenario) (d : ℕ) (k : ℕ) (g : ℕ) (n : ℕ) → IsValid s
        → step_at s d k ≡ Some (Need g n) → g < 256 }
    ensures post { (s : Scenario) (d : ℕ) (k : ℕ) (g : ℕ) → IsValid s → step_at s d k ≡ Some (Post g) → g < 256 }
    ensures table { (s : Scenario) (es : List Entry) (d : ℕ) (posts : ℕ → ℕ) → IsValid s
        → ((g : ℕ) → g < 256 → posts g ≡ posts_of s g es)
        → may_pass posts (next_of (step_at s d (made_by d es))) ≡ is_enabled s es d }
{}
