//! What follows from the definitions, for their readers. The calls do nothing; their contracts are the laws.

ghost use Rattle.std.specs.Prelude.{◌≡◌, ◌↔◌, ℕ, List, Some};
ghost use Rattle.case_text.specs.declared.trial.Made.TheVariants.{EachChange, EachFront};
ghost use Rattle.case_play.specs.Files.{file_at};
ghost use Rattle.case_play.specs.Laws.{IsChangeOf, IsProperFront};

/// The files of `each front` are the proper prefixes of the body, and those of `each change` are those that differ from
/// it in one byte: all of them, and no others.
pub fn what_is_tried()
    ensures fronts { (body file : List ℕ) → ((n : ℕ) × (file_at EachFront body n ≡ Some file))
        ↔ IsProperFront body file }
    ensures changes { (body file : List ℕ) → ((n : ℕ) × (file_at EachChange body n ≡ Some file))
        ↔ IsChangeOf body file }
{}
