//! All that a program reaches: files, standard input, standard output, and standard error.
ghost use Rattle.std.specs.Prelude.{ℕ, ◌≡◌, ◌≤◌, ◌⊎◌, ◌∷◌, [], List, IfErr, IfOk, IfSome, OnErr, OnOk, vec_len};
ghost use Rattle.std.specs.Io.BufRead.{DropsThrough, take_through};
ghost use Rattle.std.specs.Io.KnownBytes.{Appends};
ghost use Rattle.command_files.specs.Files.{Grows, IsFailure};
ghost use Rattle.command_files.specs.Input.{IsLonger, IsOfLine, IsWithin, WhereKnown};
ghost use Rattle.std.specs.Borrow.{sem, Lends};
ghost use Rattle.command_files.specs.World.{OnlyMakes, OnlyNotes, OnlyPrints, OnlyReads, StreamFaults, World as Seen};

use crate::files::{FileFault, Files};
use crate::output::Output;
use std::alloc::Global;
use std::fmt::Display;

/// Files, and the three streams of a program. Only what has it by `&mut` changes one of them; each method but `output`
/// says which.
pub trait World: Files {
    /// What has standard output.
    type Out: Output;

    /// The files that were made, and what the streams have or got; where that is known.
    ghost seen: { Self → Seen };

    /// Why a stream fails.
    ghost faults: { StreamFaults };

    /// The same with another standard output.
    ghost with_output: { Self → Self.Out → Self };

    /// Makes or replaces the file at this path.
    fn write_all(&mut self, path: &str, bytes: &[u8]) -> Result<(), FileFault>
        ensures made { OnOk result (Grows (seen self.old).made (seen self.new).made
            ((record { path = path.now; bytes = bytes.now }) ∷ [])) }
        ensures kept { OnErr result ((seen self.new).made ≡ (seen self.old).made) }
        ensures failed { IfErr result (IsFailure (Self.refuses path.now)) }
        ensures only { OnlyMakes (seen self.old) (seen self.new) };

    /// The next line of standard input, as `Input` has it.
    fn next_line(&mut self, alloc: Global, most: u32) -> Result<Vec<u8>, FileFault>
        ensures bound { IfOk result (λ line. vec_len line ≤ most) }
        ensures line { IfOk result (λ line. IfSome (seen self.old).streams.input (λ bytes.
            line.items ≡ take_through 10 bytes)) }
        ensures rest { OnOk result (DropsThrough (seen self.old).streams.input (seen self.new).streams.input 10) }
        ensures failed { IfErr result (IsFailure (faults.input_fails ⊎ IsLonger most (seen self.old).streams.input)) }
        ensures part { OnErr result (WhereKnown IsOfLine (seen self.old).streams.input
            (seen self.new).streams.input) }
        ensures within { OnErr result (WhereKnown (IsWithin most) (seen self.old).streams.input
            (seen self.new).streams.input) }
        ensures only { OnlyReads (seen self.old) (seen self.new) };

    /// Prints a text on standard output, and passes it on.
    fn print<D: Display + Drop>(&mut self, text: D) -> Result<(), FileFault>
        ensures printed { OnOk result (IfSome (D.output text)
            (Appends (seen self.old).streams.output (seen self.new).streams.output)) }
        ensures refused { OnErr result (IfSome (D.output text) faults.output_refuses) }
        ensures only { OnlyPrints (seen self.old) (seen self.new) };

    /// Prints a text on standard error, for a person.
    fn note<D: Display + Drop>(&mut self, text: D) -> Result<(), FileFault>
        ensures printed { OnOk result (IfSome (D.output text)
            (Appends (seen self.old).streams.errors (seen self.new).streams.errors)) }
        ensures refused { OnErr result (IfSome (D.output text) faults.errors_refuse) }
        ensures only { OnlyNotes (seen self.old) (seen self.new) };

    /// Standard output, for what keeps it over several calls.
    fn output(&mut self) -> &mut Self::Out
        ensures* lent { sem 𝓛 (Lends Self.row Self.Out.row self.entry result (with_output self.old)) }
        ensures value { Self.Out.taken result.now ≡ (seen self.old).streams.output };

    /// Nothing else is another then.
    ghost seen_with_output: { (w : Self) (o : Self.Out) → seen (with_output w o) ≡ record {
      made = (seen w).made;
      streams = record {
        input = (seen w).streams.input;
        output = Self.Out.taken o;
        errors = (seen w).streams.errors;
      };
    } };
}
