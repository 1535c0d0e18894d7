ghost use Rattle.std.specs.Prelude.{◌≡◌, ℕ, ◌<◌, ◌≤◌, [], ◌∷◌, true, false, All, Contains, IsPermutation, IfNone, IfSome};
ghost use Rattle.std.specs.Prelude.{OnOk};

use std::alloc::{AllocError, Global};
use std::cmp::Reverse;
use std::collections::BinaryHeap;
use std::marker::Model;

/// Devices, of which the lowest comes first. Contracts see their numbers, in no particular order.
#[derive(Drop)]
pub(crate) struct Queue {
    heap: BinaryHeap<Reverse<u16>>,
}

impl Model for Queue {
    ghost use Rattle.std.specs.Prelude.{List, ℕ};
    ghost use Rattle.std.specs.BinaryHeap.{IsHeap, heap_items};
    ghost use Rattle.fleet_core.specs.Queue.{lowest_first, numbers_of};

    ghost Value = { List ℕ };

    ghost view = { λ q. numbers_of (heap_items q.heap) };

    ghost invariant = { λ q. IsHeap lowest_first (heap_items q.heap) };
}

impl Queue {
    pub(crate) fn new(alloc: Global) -> Queue
        ensures { result ≡ [] }
    {
        Queue {
            heap: BinaryHeap::new(alloc),
        }
    }

    pub(crate) fn add(&mut self, device: u16) -> Result<(), AllocError>
        ensures { OnOk result (IsPermutation (device ∷ self.old) self.new) }
    {
        self.heap.push(Reverse(device))?;
        Ok(())
    }

    /// Whether one of them is lower than this device.
    pub(crate) fn has_below(&self, device: u16) -> bool
        ensures below { result ≡ true → ((e : ℕ) × (e < device) × Contains self.now e) }
        ensures none { result ≡ false → All (λ e. device ≤ e) self.now }
    {
        match self.heap.peek() {
            None => false,
            Some(lowest) => lowest.0 < device,
        }
    }

    /// Takes the lowest out; none where there is none.
    pub(crate) fn take_lowest(&mut self) -> Option<u16>
        ensures rest { IfSome result (λ d. IsPermutation self.old (d ∷ self.new)) }
        ensures lowest { IfSome result (λ d. All (λ e. d ≤ e) self.new) }
        ensures none { IfNone result (self.old ≡ []) }
    {
        let lowest = self.heap.pop()?;
        Some(lowest.0)
    }
}
