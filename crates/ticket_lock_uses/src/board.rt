//! A board of places, each parked or out under a worker's number.
ghost use Rattle.std.specs.Prelude.{◌≡◌, ◌≢◌, All, IfSome, IfNone, Some, slice_get};
ghost use Rattle.ticket_lock_uses.specs.declared.board.Place.TheVariants.{Parked};

use std::alloc::{AllocError, Global};
use std::collections::LinkedList;
use std::marker::Model;
use ticket_lock::Logged;

#[derive(Clone, Copy, PartialEq, Eq)]
pub enum Place {
    Parked,
    Out(u16),
}

/// Contracts see it as the list of its places.
#[derive(Drop)]
pub struct Board {
    places: Vec<Place>,
}

impl Model for Board {
    ghost use Rattle.std.specs.Prelude.{List};
    ghost use Rattle.ticket_lock_uses.specs.declared.board.Place.{Place};

    ghost Value = { List Place };

    ghost view = { λ s. s.places.items };
}

impl Logged for Board {
    ghost use Rattle.ticket_lock_uses.specs.Board.{board_log};

    type Entry = ();

    type Subject = usize;

    type Work = LinkedList<usize>;

    ghost log = { board_log };
}

// The first place that is parked.
fn first_parked(places: &[Place]) -> Option<usize>
    ensures some { IfSome result (λ i. slice_get places.now i ≡ Some Parked) }
    ensures none { IfNone result (All (λ p. p ≢ Parked) places.now) }
{
    for (i, place) in places.iter().enumerate() {
        if let Place::Parked = place {
            return Some(i);
        }
    }
    None
}

impl Board {
    ghost use Rattle.std.specs.Prelude.{◌≡◌, ◌≢◌, All, IfOk, IfSome, IfNone, Some, replicate, slice_get, slice_set};
    ghost use Rattle.ticket_lock_uses.specs.declared.board.Place.TheVariants.{Parked, Out};

    /// A board whose places are all parked.
    pub fn new(alloc: Global, count: usize) -> Result<Board, AllocError>
        ensures { IfOk result (λ b. b ≡ replicate count Parked) }
    {
        Ok(Board {
            places: vec![in alloc; Place::Parked; count]?,
        })
    }

    /// Takes a place that is parked, if there is one. It is then out under the worker.
    pub fn claim(&mut self, worker: u16) -> Option<usize>
        ensures some { IfSome result (λ i. (slice_get self.old i ≡ Some Parked)
            × (self.new ≡ slice_set self.old i (Out worker))) }
        ensures none { IfNone result ((self.new ≡ self.old) × All (λ p. p ≢ Parked) self.old) }
    {
        let i = first_parked(self.places.as_slice())?;
        self.places[i] = Place::Out(worker);
        Some(i)
    }
}
