ghost use Rattle.std.specs.Prelude.{ℕ, List, Option, IfSome, OnErr, OnOk};
ghost use Rattle.std.specs.Io.KnownBytes.{Appends};

use crate::files::FileFault;
use std::fmt::Display;
use std::io::Write;

/// What texts are printed to: standard output, standard error, or what is in memory.
pub trait Output {
    /// The bytes that it got, where they are known.
    ghost taken: { Self → Option (List ℕ) };

    /// That it did not take a text.
    ghost refuses: { List ℕ → Type 0 };

    /// Prints a text, and passes it on.
    fn print<D: Display + Drop>(&mut self, text: D) -> Result<(), FileFault>
        ensures printed { OnOk result (IfSome (D.output text) (Appends (taken self.old) (taken self.new))) }
        ensures refused { OnErr result (IfSome (D.output text) refuses) };
}

/// Every writer. Nothing is claimed of the texts that one does not take.
impl<W: Write> Output for W {
    ghost taken = { W.contents };

    ghost refuses = { λ _. Unit {0} };

    #[tactic(auto, using(crate::proofs::Streams::passed_on, crate::proofs::Streams::refused))]
    fn print<D: Display + Drop>(&mut self, text: D) -> Result<(), FileFault> {
        self.write_fmt(text)?;
        self.flush()?;
        Ok(())
    }
}
