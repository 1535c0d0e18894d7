//! Entries, one after another. They take no memory: contracts alone see them.

ghost use Rattle.std.specs.Prelude.{◌≡◌, ◌∷◌, ◌++◌, []};
ghost use Rattle.fleet_core.specs.Past.{past_entries};

use std::snapshot::Snapshot;
use trace_file::Entry;

/// The entries that a replay has taken.
pub(crate) enum Past {
    /// None yet.
    Nothing,
    /// These, and then this one.
    Then(Snapshot<Past>, Snapshot<Entry>),
}

/// By hand, so that a caller's proof has one step where it is dropped, and no case for each of its forms.
impl Drop for Past {
    fn drop(self) {
        match self {
            Past::Nothing => {}
            Past::Then(_before, _entry) => {}
        }
    }
}

impl Past {
    /// With an entry more.
    pub(crate) fn with(&self, entry: &Entry) -> Past
        ensures { past_entries result ≡ past_entries self.now ++ entry.now ∷ [] }
    {
        Past::Then(Snapshot::of(self), Snapshot::of(entry))
    }
}
