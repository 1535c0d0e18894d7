//! The devices that may be ready.

ghost use Rattle.std.specs.Prelude.{◌≡◌, ℕ, ◌<◌, ◌≤◌, ◌∷◌, true, false, All, IsPermutation, IfOk, IfSome, IfNone, Some};
ghost use Rattle.std.specs.Prelude.{slice_get, slice_index};
ghost use Rattle.device_stations.specs.declared.station.Station.{Station};
ghost use Rattle.shared_trace.specs.Roster.{IsCandidate};
ghost use Rattle.shared_trace.specs.Kept.{AreCandidates};
ghost use Rattle.device_stations.specs.Stations.{is_ready};

use device_stations::{Station, is_ready_at, lowest_ready};
use std::alloc::{AllocError, Global};
use std::cmp::Reverse;
use std::collections::BinaryHeap;
use std::marker::Model;

/// The devices that may be ready: those from one on, which are looked at one after another, and those before it that
/// were woken. Contracts see the one, and the woken ones, of which the first is the lowest.
#[derive(Drop)]
pub(crate) struct Candidates {
    fresh: usize,
    woken: BinaryHeap<Reverse<u16>>,
}

impl Model for Candidates {
    ghost use Rattle.std.specs.BinaryHeap.{IsHeap, heap_items};
    ghost use Rattle.fleet_core.specs.Queue.{lowest_first, numbers_of};
    ghost use Rattle.shared_trace.specs.Roster.{CandidatesModel};

    ghost Value = { CandidatesModel };

    ghost view = { λ c. record { fresh = c.fresh; woken = numbers_of (heap_items c.woken) } };

    ghost invariant = { λ c. IsHeap lowest_first (heap_items c.woken) };
}

impl Candidates {
    /// All devices, and room for each of this many to be woken.
    pub(crate) fn new(alloc: Global, devices: usize) -> Result<Candidates, AllocError>
        ensures { IfOk result (λ c. c.fresh ≡ 0) }
    {
        let woken = BinaryHeap::with_capacity(alloc, devices)?;
        Ok(Candidates { fresh: 0, woken })
    }

    /// Wakes a device. It takes no memory: where there were no room for it, all from it on are looked at again.
    pub(crate) fn add(&mut self, device: u16)
        ensures added { IsCandidate self.new device }
        ensures kept { (d : ℕ) → IsCandidate self.old d → IsCandidate self.new d }
    {
        let at = usize::from(device);
        if self.fresh <= at {
            return;
        }
        if self.woken.len() == self.woken.capacity() {
            self.fresh = at;
            return;
        }
        match self.woken.push(Reverse(device)) {
            Ok(()) => {}
            Err(_) => unreachable!(),
        }
    }

    /// The lowest of all, if it is a woken one.
    fn lowest_woken(&self) -> Option<u16>
        ensures before { IfSome result (λ d. d < self.now.fresh) }
        ensures first { IfSome result (λ d. slice_get self.now.woken 0 ≡ Some d) }
        ensures lowest { IfSome result (λ d. All (λ e. d ≤ e) self.now.woken) }
        ensures none { IfNone result (All (λ e. self.now.fresh ≤ e) self.now.woken) }
    {
        let lowest = self.woken.peek()?;
        if usize::from(lowest.0) < self.fresh {
            return Some(lowest.0);
        }
        None
    }

    /// Takes out the lowest of the woken ones.
    fn drop_lowest(&mut self)
        ensures fresh { self.new.fresh ≡ self.old.fresh }
        ensures rest { (d : ℕ) → slice_get self.old.woken 0 ≡ Some d
            → IsPermutation self.old.woken (d ∷ self.new.woken) }
    {
        self.woken.pop();
    }

    /// The lowest device that is ready. Woken ones that are not are taken out, and the others are looked at from
    /// there on, past all of them where none is ready.
    pub(crate) fn lowest_ready(&mut self, stations: &[Station], posts: &[u32]) -> Option<usize>
        requires { AreCandidates (λ g. slice_index posts.now g) stations.now self.old }
        ensures ready { IfSome result (λ d. (x : Station) × (slice_get stations.now d ≡ Some x)
            × (is_ready (λ g. slice_index posts.now g) x ≡ true)) }
        ensures lowest { IfSome result (λ d. (i : ℕ) (x : Station) → i < d → slice_get stations.now i ≡ Some x
            → is_ready (λ g. slice_index posts.now g) x ≡ false) }
        ensures none { IfNone result ((i : ℕ) (x : Station) → slice_get stations.now i ≡ Some x
            → is_ready (λ g. slice_index posts.now g) x ≡ false) }
        ensures kept { AreCandidates (λ g. slice_index posts.now g) stations.now self.new }
    {
        'woken: while let Some(device) = self.lowest_woken() {
            if is_ready_at(stations, device, posts) {
                return Some(usize::from(device));
            }
            self.drop_lowest();
        }
        match lowest_ready(stations, self.fresh, posts) {
            Some(device) => {
                self.fresh = device;
                Some(device)
            }
            None => {
                self.fresh = stations.len();
                None
            }
        }
    }

    /// Takes out a device that is handed out, if it is the lowest of the woken ones.
    pub(crate) fn take(&mut self, device: u16)
        ensures others { (d : ℕ) → (d ≡ device → ⊥) → IsCandidate self.old d → IsCandidate self.new d }
        ensures taken { slice_get self.old.woken 0 ≡ Some device → device < self.old.fresh
            → IsPermutation self.old.woken (device ∷ self.new.woken) }
    {
        if self.lowest_woken() == Some(device) {
            self.drop_lowest();
        }
    }
}
