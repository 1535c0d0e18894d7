//! How often the wire did what.
ghost use Rattle.std.specs.Prelude.{◌≡◌, ◌∷◌, ◌++◌, [], List};
ghost use Rattle.fleet_wire.specs.Happened.{happened_in};
ghost use Rattle.fleet_wire.specs.declared.note.Note.{Note as NoteData};

use crate::note::Note;
use crate::plan::Fate;

/// How many datagrams were lost, doubled, exchanged and delayed.
#[derive(Clone, Copy)]
pub struct Happened {
    pub lost: u64,
    pub twice: u64,
    pub swapped: u64,
    pub late: u64,
}

impl Happened {
    /// Nothing yet.
    pub(crate) fn nothing() -> Happened
        ensures { result ≡ happened_in [] }
    {
        Happened {
            lost: 0,
            twice: 0,
            swapped: 0,
            late: 0,
        }
    }

    /// Counts a note more.
    #[tactic(auto, using(crate::proofs::Counts::one_more_note))]
    fn add(&mut self, note: Note)
        ensures { (notes : List NoteData) → self.old ≡ happened_in notes
            → self.new ≡ happened_in (notes ++ note ∷ []) }
    {
        match note.fate {
            Fate::Lost => self.lost = self.lost.saturating_add(1),
            Fate::Twice => self.twice = self.twice.saturating_add(1),
            Fate::Swapped => self.swapped = self.swapped.saturating_add(1),
            Fate::Late => self.late = self.late.saturating_add(1),
            Fate::Passes => {}
        }
    }

    /// Counts these notes too.
    pub(crate) fn add_all(&mut self, notes: &[Note])
        ensures { (before : List NoteData) → self.old ≡ happened_in before
            → self.new ≡ happened_in (before ++ notes.now) }
    {
        for note in notes {
            self.add(*note);
        }
    }
}
