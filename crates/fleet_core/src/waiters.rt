ghost use Rattle.std.specs.Prelude.{◌≡◌, ℕ, ◌<◌, [], ◌∷◌, ◌⊎◌, false, All, Contains, IsPermutation, IfNone, IfSome, OnOk};

use crate::queue::Queue;
use std::alloc::{AllocError, Global};
use std::cmp::Reverse;
use std::collections::BinaryHeap;
use std::marker::Model;

/// The devices that wait for posts to a group, and for how many. The one that waits for the fewest comes first.
/// Contracts see the numbers of posts with the devices, in no particular order.
#[derive(Drop)]
pub(crate) struct Waiters {
    heap: BinaryHeap<Reverse<(u32, u16)>>,
}

impl Model for Waiters {
    ghost use Rattle.std.specs.Prelude.{List, ℕ};
    ghost use Rattle.std.specs.BinaryHeap.{IsHeap, heap_items};
    ghost use Rattle.fleet_core.specs.Queue.{fewest_first, pairs_of};

    ghost Value = { List (ℕ × ℕ) };

    ghost view = { λ w. pairs_of (heap_items w.heap) };

    ghost invariant = { λ w. IsHeap fewest_first (heap_items w.heap) };
}

impl Waiters {
    pub(crate) fn new(alloc: Global) -> Waiters
        ensures { result ≡ [] }
    {
        Waiters {
            heap: BinaryHeap::new(alloc),
        }
    }

    pub(crate) fn add(&mut self, device: u16, posts: u32) -> Result<(), AllocError>
        ensures { OnOk result (IsPermutation ((posts, device) ∷ self.old) self.new) }
    {
        self.heap.push(Reverse((posts, device)))?;
        Ok(())
    }

    /// Whether one of them waits for no more than these posts.
    pub(crate) fn has_met(&self, posts: u32) -> bool
        ensures { result ≡ false → All (λ (w : ℕ × ℕ). posts < w.0) self.now }
    {
        match self.heap.peek() {
            None => false,
            Some(first) => first.0.0 <= posts,
        }
    }

    /// Takes one of these out; none where there is none.
    fn take_met(&mut self, posts: u32) -> Option<u16>
        ensures met { IfSome result (λ d. (n : ℕ) × IsPermutation self.old ((n, d) ∷ self.new)) }
        ensures unmet { IfNone result (All (λ (w : ℕ × ℕ). posts < w.0) self.new) }
        ensures unchanged { IfNone result (self.new ≡ self.old) }
    {
        if !self.has_met(posts) {
            return None;
        }
        let first = self.heap.pop()?;
        Some(first.0.1)
    }

    /// Moves those that wait for no more than these posts into the queue.
    pub(crate) fn wake(&mut self, posts: u32, woken: &mut Queue) -> Result<(), AllocError>
        ensures woken { OnOk result ((d : ℕ) (n : ℕ) → Contains self.old (n, d)
            → Contains woken.new d ⊎ (Contains self.new (n, d) × (posts < n))) }
        ensures kept { OnOk result ((d : ℕ) → Contains woken.old d → Contains woken.new d) }
    {
        'met: while let Some(device) = self.take_met(posts) {
            woken.add(device)?;
        }
        Ok(())
    }
}
