//! What follows from the definitions, for their readers. The calls do nothing; their contracts are the laws.

ghost use Rattle.std.specs.Prelude.{◌≡◌, ◌≤◌, ◌⊎◌, ◌↔◌, ℕ, ◌+◌, List, Some, Ok, length, slice_get};
ghost use Rattle.std.specs.List.{AllByRecursion};
ghost use Rattle.byte_layout.specs.declared.fault.LayoutFault.{LayoutFault};
ghost use Rattle.byte_layout.specs.Whole.{read_all};
ghost use Rattle.device_template.specs.Template.{Template};
ghost use Rattle.scenario_image.specs.declared.step.Step.{Step};
ghost use Rattle.byte_layout.specs.Exact.{IsBytes, IsExact};
ghost use Rattle.scenario_image.specs.Image.{image, IsImage, IsImageIn, HasImageFault};
ghost use Rattle.scenario_image.specs.Layout.{step, steps, row, rows};
ghost use Rattle.scenario_image.specs.Scenario.{Scenario, IsGoodStep, IsValid};
ghost use Rattle.scenario_image.specs.Play.{start, state_at, step_after};

/// A row's states begin with the start of its class, and each step leads from one to the next.
pub fn states_follow()
    ensures first { (class : Template) (steps : List Step) → state_at class steps 0 ≡ start class }
    ensures next { (class : Template) (steps : List Step) (k : ℕ) (step : Step) → slice_get steps k ≡ Some step
        → state_at class steps (k + 1) ≡ step_after (state_at class steps k) step }
{}

/// The layouts of steps and rows are exact, so that they may be parts of an exact format.
pub fn exact_layouts()
    ensures step { (accounts : List ℕ) → IsExact (step accounts) }
    ensures steps { (accounts : List ℕ) → IsExact (steps accounts) }
    ensures row { (classes : List Template) → IsExact (row classes) }
    ensures rows { (classes : List Template) → IsExact (rows classes) }
{}

/// The valid steps, and the rows of valid scenarios, are those that have bytes.
pub fn valid_have_bytes()
    ensures step { (accounts : List ℕ) (s : Step) → IsGoodStep accounts s → (step accounts).Good s }
    ensures good_step { (accounts : List ℕ) (s : Step) → (step accounts).Good s → IsBytes ((step accounts).spell s)
        → IsGoodStep accounts s }
    ensures rows { (s : Scenario) → IsValid s → (rows s.classes).Good s.rows }
    ensures valid { (s : Scenario) → length s.classes ≤ 256 → (rows s.classes).Good s.rows
        → IsBytes ((rows s.classes).spell s.rows) → IsValid s }
{}

/// An image of either version has one scenario, a scenario at most one image in each, which is read as it again; other
/// bytes have one fault, never both; and what has an image is valid.
pub fn one_image()
    ensures exact { IsExact image }
    ensures scenario { (bytes : List ℕ) (a b : Scenario) → IsImage bytes a → IsImage bytes b → a ≡ b }
    ensures version { (bytes : List ℕ) (v w : ℕ) (a b : Scenario) → IsImageIn v bytes a → IsImageIn w bytes b
        → v ≡ w }
    ensures bytes { (v : ℕ) (s : Scenario) (a b : List ℕ) → IsImageIn v a s → IsImageIn v b s → a ≡ b }
    ensures fault { (bytes : List ℕ) (f g : LayoutFault) → HasImageFault bytes f → HasImageFault bytes g → f ≡ g }
    ensures never_both { (bytes : List ℕ) (s : Scenario) (f : LayoutFault) → IsImage bytes s → HasImageFault bytes f
        → ⊥ }
    ensures either { (bytes : List ℕ) → IsBytes bytes → ((s : Scenario) × IsImage bytes s)
        ⊎ ((f : LayoutFault) × HasImageFault bytes f) }
    ensures again { (v : ℕ) (s : Scenario) → image.Good (v, s) → read_all image (image.spell (v, s)) ≡ Ok (v, s) }
    ensures valid { (bytes : List ℕ) (s : Scenario) → IsBytes bytes → IsImage bytes s → IsValid s }
{}

/// The two versions. An image has one of them. Version 1 has an image of a scenario exactly where version 2 has one and
/// the devices of all classes send Non-confirmable notifications: so a scenario that is read from an image of version 1
/// has such classes, and an image of version 2.
pub fn two_versions()
    ensures versions { (v : ℕ) (bytes : List ℕ) (s : Scenario) → IsImageIn v bytes s → (v ≡ 1) ⊎ (v ≡ 2) }
    ensures first { (s : Scenario) → image.Good (1, s)
        ↔ image.Good (2, s) × AllByRecursion (λ c. c.notify ≡ 0) s.classes }
    ensures saved { (bytes : List ℕ) (s : Scenario) → IsImageIn 1 bytes s → IsImageIn 2 (image.spell (2, s)) s }
{}
