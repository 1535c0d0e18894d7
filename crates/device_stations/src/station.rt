ghost use Rattle.std.specs.Prelude.{◌≡◌, ℕ, ◌<◌, true, false, Some, IfSome, IfNone, slice_get, slice_index};
ghost use Rattle.device_stations.specs.declared.station.Station.{Station};
ghost use Rattle.device_stations.specs.declared.station.Place.TheVariants.{Parked, Out};
ghost use Rattle.device_stations.specs.Stations.{AreEnded, AreIdle, is_end, is_parked, is_ready};

use fleet_core::{Held, Next, may_pass};
use std::alloc::Global;
use std::mem;

/// Where a device is.
#[derive(Drop)]
pub enum Place {
    /// In the trace, until a worker claims it.
    Parked(Held),
    /// With the worker of this number.
    Out(u16),
}

/// What a trace keeps of a device.
#[derive(Drop)]
pub struct Station {
    /// Where the device is.
    pub place: Place,
    /// How many entries it has.
    pub made: u32,
    /// What its next step asks for.
    pub next: Next,
    /// A table as long as that of the trace, for the posts that the device's next job knows; the job has it while the
    /// device is out.
    pub known: Vec<u32>,
}

impl Station {
    /// Whether the device is parked, and can step where each group has this many posts.
    fn is_ready(&self, posts: &[u32]) -> bool
        ensures { result ≡ is_ready (λ g. slice_index posts.now g) self.now }
    {
        match self.place {
            Place::Parked(_) => may_pass(self.next, posts),
            Place::Out(_) => false,
        }
    }

    fn is_out(&self) -> bool
        ensures out { result ≡ true → (worker : ℕ) × (self.now.place ≡ Out worker) }
        ensures parked { result ≡ false → is_parked self.now.place ≡ true }
    {
        match self.place {
            Place::Parked(_) => false,
            Place::Out(_) => true,
        }
    }

    /// Whether the device has no next step.
    pub fn is_at_end(&self) -> bool
        ensures { result ≡ is_end self.now.next }
    {
        match self.next {
            Next::End => true,
            Next::Free | Next::Waits(_, _) => false,
        }
    }

    /// Hands out the device and the table. The device is then out under the worker.
    pub fn hand_out(&mut self, alloc: Global, worker: u16) -> (Held, Vec<u32>)
        requires { is_parked self.old.place ≡ true }
        ensures device { self.old.place ≡ Parked result.0 }
        ensures table { result.1.items ≡ self.old.known.items }
        ensures place { self.new.place ≡ Out worker }
        ensures kept { (self.new.made ≡ self.old.made) × (self.new.next ≡ self.old.next) }
    {
        let known = mem::replace(&mut self.known, Vec::new(alloc));
        match mem::replace(&mut self.place, Place::Out(worker)) {
            Place::Parked(held) => (held, known),
            Place::Out(_) => unreachable!(),
        }
    }
}

/// Whether the device is ready.
pub fn is_ready_at(stations: &[Station], device: u16, posts: &[u32]) -> bool
    ensures ready { result ≡ true → (x : Station) × (slice_get stations.now device ≡ Some x)
        × (is_ready (λ g. slice_index posts.now g) x ≡ true) }
    ensures not { result ≡ false → (x : Station) → slice_get stations.now device ≡ Some x
        → is_ready (λ g. slice_index posts.now g) x ≡ false }
{
    match stations.get(usize::from(device)) {
        None => false,
        Some(station) => station.is_ready(posts),
    }
}

/// The lowest device that is ready. None before `first` is.
pub fn lowest_ready(stations: &[Station], first: usize, posts: &[u32]) -> Option<usize>
    requires { AreIdle (λ g. slice_index posts.now g) stations.now first }
    ensures ready { IfSome result (λ d. (x : Station) × (slice_get stations.now d ≡ Some x)
        × (is_ready (λ g. slice_index posts.now g) x ≡ true)) }
    ensures lowest { IfSome result (λ d. AreIdle (λ g. slice_index posts.now g) stations.now d) }
    ensures none { IfNone result ((i : ℕ) (x : Station) → slice_get stations.now i ≡ Some x
        → is_ready (λ g. slice_index posts.now g) x ≡ false) }
{
    for device in first..stations.len() {
        if stations[device].is_ready(posts) {
            return Some(device);
        }
    }
    None
}

/// A device that is out, if there is one.
fn first_out(stations: &[Station]) -> Option<usize>
    ensures out { IfSome result (λ d. (x : Station) × (worker : ℕ) × (slice_get stations.now d ≡ Some x)
        × (x.place ≡ Out worker)) }
    ensures none { IfNone result ((i : ℕ) (x : Station) → slice_get stations.now i ≡ Some x
        → is_parked x.place ≡ true) }
{
    for (device, station) in stations.iter().enumerate() {
        if station.is_out() {
            return Some(device);
        }
    }
    None
}

/// A device that is out, if there is one, looked for from `last` on first.
pub fn any_out(stations: &[Station], last: usize) -> Option<usize>
    ensures out { IfSome result (λ d. (x : Station) × (worker : ℕ) × (slice_get stations.now d ≡ Some x)
        × (x.place ≡ Out worker)) }
    ensures none { IfNone result ((i : ℕ) (x : Station) → slice_get stations.now i ≡ Some x
        → is_parked x.place ≡ true) }
{
    for device in last..stations.len() {
        if stations[device].is_out() {
            return Some(device);
        }
    }
    first_out(stations)
}

/// The lowest device that is not at the end of its row, if there is one. Those before `low` are at the ends of theirs.
pub fn first_left(stations: &[Station], low: usize) -> Option<usize>
    requires { AreEnded stations.now low }
    ensures left { IfSome result (λ d. (x : Station) × (slice_get stations.now d ≡ Some x) × (is_end x.next ≡ false)) }
    ensures before { IfSome result (λ d. AreEnded stations.now d) }
    ensures none { IfNone result ((i : ℕ) (x : Station) → slice_get stations.now i ≡ Some x → is_end x.next ≡ true) }
{
    for device in low..stations.len() {
        if !stations[device].is_at_end() {
            return Some(device);
        }
    }
    None
}

/// How many devices from the first on are at the ends of their rows. At least `low` are, if there are that many.
pub fn count_ended(stations: &[Station], low: usize) -> usize
    requires { AreEnded stations.now low }
    ensures { AreEnded stations.now result }
{
    match first_left(stations, low) {
        Some(device) => device,
        None => stations.len(),
    }
}
