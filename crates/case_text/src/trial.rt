ghost use Rattle.std.specs.Prelude.{◌≡◌};

use crate::file_answer::FileAnswers;
use octets::Bytes;
use std::marker::Model;

/// Which files a trial is of.
#[derive(Drop)]
pub enum Made {
    /// The file that the body gives.
    Itself,
    /// `with BYTES at N`: that file with these bytes from a place on, in place of those that stand there.
    With {
        /// The bytes.
        bytes: Bytes,
        /// The place, counted from 0.
        place: u64,
    },
    /// `and BYTES`, `and LINE`: that file with these bytes after it.
    And(Bytes),
    /// `each front`: each proper prefix of that file, in turn.
    EachFront,
    /// `each change`: that file with one byte changed, each place by each of the 255 other bytes, in turn.
    EachChange,
}

/// A file, or several in turn, and the answers that are stated of it.
#[derive(Drop)]
pub struct Trial {
    /// The line, counted in the file of cases from 1; of `Made::Itself` the first of the body.
    pub line: usize,
    /// Which file it is.
    pub made: Made,
    /// The answers that stand between it and the next such line.
    pub answers: FileAnswers,
}

/// Trials, in the order of their lines. Contracts see the list of them.
#[derive(Drop)]
pub struct Trials {
    items: Vec<Trial>,
}

impl Model for Trials {
    ghost use Rattle.std.specs.Prelude.{List};
    ghost use Rattle.case_text.specs.declared.trial.Trial.{Trial};

    ghost Value = { List Trial };

    ghost view = { λ t. t.items.items };
}

impl Trials {
    /// The trials of a vector, which keeps its memory.
    pub fn from_vec(items: Vec<Trial>) -> Trials
        ensures { result ≡ items.items }
    {
        Trials { items }
    }

    /// The trials.
    pub fn as_slice(&self) -> &[Trial]
        ensures { result.now ≡ self.now }
    {
        self.items.as_slice()
    }
}
