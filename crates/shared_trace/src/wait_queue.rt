//! The devices that wait for posts to a group.

ghost use Rattle.std.specs.Prelude.{◌≡◌, ℕ, ◌<◌, ◌≤◌, [], ◌∷◌, true, false, All, Contains, IsPermutation, IfNone, IfSome};
ghost use Rattle.std.specs.Prelude.{OnOk, Some, slice_get};
ghost use Rattle.shared_trace.specs.Roster.{IsCandidate};

use crate::candidates::Candidates;
use std::alloc::{AllocError, Global};
use std::cmp::Reverse;
use std::collections::BinaryHeap;
use std::marker::Model;

/// The devices that wait for posts to a group, each with the number of posts. The one that waits for the fewest comes
/// first. Contracts see the numbers with the devices, and how many more there is room for.
#[derive(Drop)]
pub(crate) struct WaitQueue {
    heap: BinaryHeap<Reverse<(u32, u16)>>,
}

impl Model for WaitQueue {
    ghost use Rattle.std.specs.Prelude.{◌-◌};
    ghost use Rattle.std.specs.BinaryHeap.{IsHeap, heap_items, heap_len, heap_capacity};
    ghost use Rattle.fleet_core.specs.Queue.{fewest_first, pairs_of};
    ghost use Rattle.shared_trace.specs.Roster.{WaitersModel};

    ghost Value = { WaitersModel };

    ghost view = { λ w. record {
      pairs = pairs_of (heap_items w.heap);
      room = heap_capacity w.heap - heap_len w.heap;
    } };

    ghost invariant = { λ w. IsHeap fewest_first (heap_items w.heap) };
}

impl WaitQueue {
    pub(crate) fn new(alloc: Global) -> WaitQueue
        ensures { result.pairs ≡ [] }
    {
        WaitQueue {
            heap: BinaryHeap::new(alloc),
        }
    }

    /// Makes room for one device more.
    pub(crate) fn make_room(&mut self) -> Result<(), AllocError>
        ensures same { self.new.pairs ≡ self.old.pairs }
        ensures room { OnOk result (1 ≤ self.new.room) }
    {
        self.heap.reserve(1)
    }

    /// Adds a device that waits for this many posts.
    pub(crate) fn add(&mut self, device: u16, posts: u32)
        requires { 1 ≤ self.old.room }
        ensures { IsPermutation ((posts, device) ∷ self.old.pairs) self.new.pairs }
    {
        match self.heap.push(Reverse((posts, device))) {
            Ok(()) => {}
            Err(_) => unreachable!(),
        }
    }

    /// Whether one of them waits for no more than these posts.
    fn has_met(&self, posts: u32) -> bool
        ensures met { result ≡ true → (n : ℕ) × (d : ℕ) × (slice_get self.now.pairs 0 ≡ Some (n, d)) × (n ≤ posts) }
        ensures unmet { result ≡ false → All (λ (w : ℕ × ℕ). posts < w.0) self.now.pairs }
    {
        match self.heap.peek() {
            None => false,
            Some(first) => first.0.0 <= posts,
        }
    }

    /// Takes one of these out; none where there is none.
    fn take_met(&mut self, posts: u32) -> Option<u16>
        ensures met { IfSome result (λ d. (n : ℕ) × (n ≤ posts)
            × IsPermutation self.old.pairs ((n, d) ∷ self.new.pairs)) }
        ensures unmet { IfNone result (All (λ (w : ℕ × ℕ). posts < w.0) self.new.pairs) }
        ensures unchanged { IfNone result (self.new ≡ self.old) }
    {
        if !self.has_met(posts) {
            return None;
        }
        let first = self.heap.pop()?;
        Some(first.0.1)
    }

    /// Moves those that wait for no more than these posts to the candidates.
    pub(crate) fn wake(&mut self, posts: u32, candidates: &mut Candidates)
        ensures woken { (d n : ℕ) → Contains self.old.pairs (n, d) → n ≤ posts → IsCandidate candidates.new d }
        ensures waiting { (d n : ℕ) → Contains self.old.pairs (n, d) → posts < n → Contains self.new.pairs (n, d) }
        ensures kept { (d : ℕ) → IsCandidate candidates.old d → IsCandidate candidates.new d }
    {
        'met: while let Some(device) = self.take_met(posts) {
            candidates.add(device);
        }
    }
}
