//! What follows from the definitions, for their readers. The calls do nothing; their contracts are the laws.

ghost use Rattle.std.specs.Prelude.{◌≡◌, ◌↔◌, [], ◌∷◌, ◌++◌, ℕ, List, map, Ok, Err, IsSome};
ghost use Rattle.std.specs.List.{AllByRecursion, flat_map};
ghost use Rattle.device_template.specs.Template.{Template};
ghost use Rattle.scenario_layout.specs.Class.{instances_in, objects_in, values_in};
ghost use Rattle.scenario_image.specs.Scenario.{Scenario};
ghost use Rattle.scenario_words.specs.Words.{lines};
ghost use Rattle.scenario_words.specs.declared.cause.Cause.TheVariants.{Limit};
ghost use Rattle.scenario_statements.specs.Spelling.{IsSayable, line_of};
ghost use Rattle.scenario_statements.specs.declared.statement.Statement.{Statement};
ghost use Rattle.scenario_statements.specs.declared.statement.Statement.TheVariants.{Account, Class, Instance};
ghost use Rattle.scenario_asm.specs.Canonical.{of_class, of_object, of_value, statements, text_of_scenario};
ghost use Rattle.scenario_asm.specs.Denotes.{Denotes};
ghost use Rattle.scenario_asm.specs.Draft.{Draft};
ghost use Rattle.scenario_asm.specs.Effect.{effect};
ghost use Rattle.scenario_asm.specs.Limits.{limit_of};
ghost use Rattle.scenario_asm.specs.Reading.{IsScenario, said_by};
ghost use Rattle.scenario_asm.specs.Text.{scenario_of_text};

/// Each statement of a scenario can be written in words.
pub fn statements_are_sayable()
    ensures { (s : Scenario) → IsScenario s → AllByRecursion IsSayable (statements s) }
{}

/// The lines of a canonical text are those of its statements, with an empty one after the last LF (`lines`); they are
/// read as these statements (`read`); scenarios of one text have the same statements (`one`).
pub fn canonical_lines()
    ensures lines { (s : Scenario) → IsScenario s → lines (text_of_scenario s) ≡ map line_of (statements s) ++ [] ∷ [] }
    ensures read { (s : Scenario) → IsScenario s → said_by (text_of_scenario s) ≡ Ok (statements s) }
    ensures one { (s t : Scenario) → IsScenario s → IsScenario t → text_of_scenario s ≡ text_of_scenario t
        → statements s ≡ statements t }
{}

/// A class whose devices send Non-confirmable notifications has no line about it: it is said by its accounts, the
/// objects of its own, its instances and its values alone.
pub fn non_confirmable_is_not_said()
    ensures { (c : Template) → c.notify ≡ 0 → of_class c ≡ Class ∷ (map (λ s. Account s) c.accounts
        ++ (flat_map of_object (objects_in c)
        ++ (map (λ p. Instance p) (instances_in c) ++ map of_value (values_in c)))) }
{}

/// The law of canonical texts: the canonical text of a scenario denotes it, so it assembles to that scenario.
pub fn canonical_text()
    ensures { (s : Scenario) → IsScenario s → scenario_of_text (text_of_scenario s) ≡ Ok s }
{}

/// The law of texts: a text assembles to a scenario exactly if it denotes it; so it denotes one at most.
pub fn texts_denote()
    ensures { (text : List ℕ) (s : Scenario) → (scenario_of_text text ≡ Ok s) ↔ Denotes text s }
{}

/// A statement that is refused for a limit passes one that has a name.
pub fn limits_are_named()
    ensures { (s : Statement) (d : Draft) → effect s d ≡ Err Limit → IsSome (limit_of s d) }
{}
