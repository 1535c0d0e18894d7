//! Ports of a session: what goes through them is counted, and what is told of it is taken, a turn at a time.

use crate::shown::Shown;
use crate::shown_ports::ShownPorts;
use fleet_link::{Counts, Ports, UdpPorts};
use fleet_wire::{Happened, Note, WiredPorts};
use std::alloc::Global;

/// What is counted of a session.
#[derive(Clone, Copy)]
pub struct Account {
    /// The datagrams that the ports carried.
    pub counts: Counts,
    /// How often the wire did what, if there is one.
    pub happened: Option<Happened>,
}

/// Ports that count what goes through them, with a wire on them or without one, shown or not.
pub trait Counted: Ports {
    ghost use Rattle.std.specs.Prelude.{◌≡◌, [], ℕ, List, IfSome};
    ghost use Rattle.fleet_link.specs.declared.udp.Counts.{Counts as CountsData};
    ghost use Rattle.fleet_wire.specs.declared.note.Note.{Note as NoteData};
    ghost use Rattle.fleet_lines.specs.declared.shown.Shown.{Shown as ShownData};
    ghost use Rattle.fleet_lines.specs.Counting.{AreAllShown, IsAccount, WatchedPorts, with_notes, with_shown};

    /// How many datagrams the ports carried.
    ghost counted: { Self → CountsData };

    /// The wire, the traffic that the ports had told before they were shown, and the notes and lines taken since.
    ghost watched: { Self → WatchedPorts };

    /// What the wire did, and was not taken yet.
    ghost notes_left: { Self → List NoteData };

    /// What went through, is shown, and was not taken yet.
    ghost shown_left: { Self → List ShownData };

    /// How many datagrams the ports carried.
    fn counted(&self) -> Counts
        ensures { result ≡ counted self.now };

    /// What the wire did with datagrams since this was asked last.
    fn new_notes(&mut self, alloc: Global) -> Vec<Note>
        ensures told { (e : ℕ) → Self.told self.new e ≡ Self.told self.old e }
        ensures asked { Self.asked self.new ≡ Self.asked self.old }
        ensures watched { watched self.new ≡ with_notes (watched self.old) result.items }
        ensures none_left { notes_left self.new ≡ [] }
        ensures shown { shown_left self.new ≡ shown_left self.old };

    /// What devices received and sent since this was asked last, if it is shown.
    fn new_shown(&mut self, alloc: Global) -> Vec<Shown>
        ensures told { (e : ℕ) → Self.told self.new e ≡ Self.told self.old e }
        ensures asked { Self.asked self.new ≡ Self.asked self.old }
        ensures watched { watched self.new ≡ with_shown (watched self.old) result.items }
        ensures none_left { shown_left self.new ≡ [] }
        ensures notes { notes_left self.new ≡ notes_left self.old };

    /// What is counted of what the devices received and sent; none where no memory was left for a datagram. Where there
    /// was, and nothing is left to take, the account is that of what was taken.
    fn account(&self) -> Option<Account>
        ensures account { notes_left self.now ≡ []
            → IfSome result (IsAccount (watched self.now).wire (Self.told self.now) (watched self.now).notes) }
        ensures shown { shown_left self.now ≡ []
            → IfSome result (λ _. ∥ AreAllShown (watched self.now).began (Self.told self.now)
            (watched self.now).shown ∥₁) };

    /// That all of `watched` is among what is fixed of ports, which only taking changes: a law, which does nothing.
    fn watched_is_fixed()
        ensures { (a b : Self) → Self.fixed a ≡ Self.fixed b → watched a ≡ watched b };
}

impl Counted for UdpPorts {
    ghost use Rattle.std.specs.Prelude.{[]};
    ghost use Rattle.fleet_lines.specs.Counting.{unwatched_ports};

    ghost counted = { λ ports. ports.tally.counts };

    ghost watched = { λ ports. unwatched_ports };

    ghost notes_left = { λ ports. [] };

    ghost shown_left = { λ ports. [] };

    fn counted(&self) -> Counts {
        self.counts()
    }

    fn new_notes(&mut self, alloc: Global) -> Vec<Note> {
        Vec::new(alloc)
    }

    fn new_shown(&mut self, alloc: Global) -> Vec<Shown> {
        Vec::new(alloc)
    }

    fn account(&self) -> Option<Account> {
        Some(Account {
            counts: self.counts(),
            happened: None,
        })
    }

    fn watched_is_fixed() {}
}

impl Counted for WiredPorts {
    ghost use Rattle.std.specs.Prelude.{[]};
    ghost use Rattle.fleet_wire.specs.Wired.{fixed_on};
    ghost use Rattle.fleet_lines.specs.Counting.{watched_on};

    ghost counted = { λ wired. wired.lossy.ports.tally.counts };

    ghost watched = { λ wired. watched_on (fixed_on wired) };

    ghost notes_left = { λ wired. wired.lossy.wire.notes.items };

    ghost shown_left = { λ wired. [] };

    fn counted(&self) -> Counts {
        self.counts()
    }

    #[tactic(auto, using(crate::proofs::Counting::notes_watched))]
    fn new_notes(&mut self, _alloc: Global) -> Vec<Note> {
        self.take_notes()
    }

    fn new_shown(&mut self, alloc: Global) -> Vec<Shown> {
        Vec::new(alloc)
    }

    fn account(&self) -> Option<Account> {
        if !self.is_whole() {
            return None;
        }
        Some(Account {
            counts: self.counts(),
            happened: Some(self.happened()),
        })
    }

    #[tactic(auto, using(crate::proofs::Counting::same_watched))]
    fn watched_is_fixed() {}
}

impl<P: Counted> Counted for ShownPorts<P> {
    ghost use Rattle.std.specs.Prelude.{Some};
    ghost use Rattle.fleet_lines.specs.Counting.{shown_over};
    ghost use Rattle.fleet_lines.specs.Shown.{taken_shown};

    ghost counted = { λ shown. P.counted shown.ports };

    ghost watched = { λ shown.
        shown_over (P.watched shown.ports) (P.told shown.began.value) (taken_shown shown.tape.taken) };

    ghost notes_left = { λ shown. P.notes_left shown.ports };

    ghost shown_left = { λ shown. shown.tape.shown.items };

    fn counted(&self) -> Counts {
        self.ports.counted()
    }

    fn new_notes(&mut self, alloc: Global) -> Vec<Note> {
        self.ports.new_notes(alloc)
    }

    fn new_shown(&mut self, _alloc: Global) -> Vec<Shown> {
        self.take_shown()
    }

    fn account(&self) -> Option<Account> {
        if self.is_whole() {
            self.ports.account()
        } else {
            None
        }
    }

    fn watched_is_fixed() {
        P::watched_is_fixed();
    }
}
