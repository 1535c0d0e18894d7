//! The datagrams of all devices that go one way, and those of them that wait.
ghost use Rattle.std.specs.Prelude.{◌≡◌, ◌<◌, ◌≤◌, ◌++◌, [], ℕ, Some, None, IfNone, IfOk, OnOk, OnSome, MatchOption};
ghost use Rattle.std.specs.Prelude.{length, false};
ghost use Rattle.std.specs.Prelude.{if◌then◌else◌};
ghost use Rattle.std.specs.List.{AllByRecursion, position};
ghost use Rattle.fleet_wire.specs.declared.plan.Direction.{Direction};
ghost use Rattle.fleet_wire.specs.declared.plan.Plan.{Plan};
ghost use Rattle.fleet_wire.specs.Schedule.{goes_at_once};
ghost use Rattle.fleet_wire.specs.Lane.{came_by, gone_with, held_with, is_freed, is_wanted, of_device, went_by};
ghost use Rattle.fleet_wire.specs.Lane.{AreLanes, IsFirst, IsIdle};
ghost use Rattle.fleet_wire.specs.Noting.{notes_by, noted_with};

use crate::plan::{Direction, Fate, Plan};
use live_link::Packet;
use std::alloc::{AllocError, Global};
use std::snapshot::Snapshot;

/// What came and what went on, one after another. It takes no memory: contracts alone see it.
#[derive(Drop)]
pub(crate) enum Log {
    Begun,
    /// After this a datagram of this device came at this second.
    Came(Snapshot<Log>, Snapshot<usize>, Snapshot<u64>, Snapshot<Packet>),
    /// After this the datagram at this place, of those of this device, went on at this second.
    Went(Snapshot<Log>, Snapshot<usize>, Snapshot<u64>, Snapshot<u64>, Snapshot<Packet>),
}

/// A datagram that has not gone on yet, or not all of it.
#[derive(Drop)]
pub(crate) struct Held {
    pub(crate) device: usize,
    /// Its place among those of its device, the first being 0.
    pub(crate) place: u64,
    /// The second at which it came.
    pub(crate) second: u64,
    pub(crate) fate: Fate,
    pub(crate) packet: Packet,
}

/// Whether a device is the one whose swapped datagrams go next.
fn is_freed(free: Option<usize>, device: usize) -> bool
    ensures { result ≡ is_freed free device }
{
    match free {
        None => false,
        Some(freed) => freed == device,
    }
}

/// The device whose swapped datagrams go next, after a datagram of this fate has come of this device.
fn freed_by(fate: Fate, device: usize) -> Option<usize>
    ensures { result ≡ (if goes_at_once fate then Some device else None) }
{
    if fate.goes_at_once() {
        Some(device)
    } else {
        None
    }
}

impl Held {
    /// Whether it is to go on at this second.
    fn is_wanted(&self, free: Option<usize>, late_by: u32, second: u64) -> bool
        ensures { result ≡ is_wanted free late_by second self.now }
    {
        let freed = is_freed(free, self.device);
        let over = u64::from(late_by) <= second.saturating_sub(self.second);
        match self.fate {
            Fate::Lost => false,
            Fate::Twice | Fate::Passes => true,
            Fate::Swapped => freed || over,
            Fate::Late => over,
        }
    }
}

/// The place of the first datagram that is to go on.
fn find_wanted(held: &[Held], free: Option<usize>, late_by: u32, second: u64) -> Option<usize>
    ensures { result ≡ position (is_wanted free late_by second) held.now }
{
    held.iter()
        .position(|one| one.is_wanted(free, late_by, second))
}

/// Takes the first datagram that is to go on.
fn take_first(held: &mut Vec<Held>, free: Option<usize>, late_by: u32, second: u64) -> Option<Held>
    ensures nothing { IfNone result (held.new.items ≡ held.old.items) }
    ensures first { MatchOption result
        (AllByRecursion (λ h. is_wanted free late_by second h ≡ false) held.old.items)
        (λ h. IsFirst (is_wanted free late_by second) held.old.items h held.new.items) }
{
    match find_wanted(held.as_slice(), free, late_by, second) {
        None => None,
        Some(place) => Some(held.remove(place)),
    }
}

/// Holds one more, as its fate says.
fn hold(held: &mut Vec<Held>, one: Held) -> Result<(), AllocError>
    ensures { OnOk result (held.new.items ≡ held_with one.fate one held.old.items) }
{
    match one.fate {
        Fate::Lost => {}
        Fate::Swapped | Fate::Late => held.push(one)?,
        Fate::Passes => held.insert(0, one)?,
        Fate::Twice => {
            let again = Held {
                packet: one.packet.clone()?,
                ..one
            };
            held.insert(0, one)?;
            held.insert(0, again)?;
        }
    }
    Ok(())
}

/// What became of a datagram that came.
#[derive(Drop)]
pub(crate) struct Drawn {
    /// Its number among those of its device, the first being 1.
    pub(crate) number: u64,
    pub(crate) fate: Fate,
}

/// The datagrams that go one way.
#[derive(Drop)]
pub(crate) struct Lane {
    direction: Direction,
    /// How many came of each device.
    counts: Vec<u64>,
    /// What still waits: first what goes on at once, and then, in order, what waits for its time or for the next one.
    held: Vec<Held>,
    /// The device whose swapped datagrams go next.
    free: Option<usize>,
    log: Log,
}

impl Lane {
    /// A lane for n devices, on which nothing has come yet.
    pub(crate) fn new(
        alloc: Global,
        direction: Direction,
        devices: usize,
    ) -> Result<Lane, AllocError>
        ensures lanes { (plan : Plan) (now : ℕ)
            → IfOk result (λ lane. AreLanes plan direction devices now lane) }
        ensures idle { (late_by second : ℕ) → IfOk result (λ lane. IsIdle late_by second lane) }
        ensures came { (e : ℕ) → IfOk result (λ lane. came_by lane.log e ≡ []) }
        ensures went { (e : ℕ) → IfOk result (λ lane. went_by lane.log e ≡ []) }
        ensures notes { (plan : Plan) (n : ℕ) → IfOk result (λ lane. notes_by plan direction n lane.log ≡ []) }
    {
        Ok(Lane {
            direction,
            counts: vec![in alloc; 0; devices]?,
            held: Vec::new(alloc),
            free: None,
            log: Log::Begun,
        })
    }

    /// Whether something that is held is to go on at this second.
    pub(crate) fn is_ready(&self, late_by: u32, second: u64) -> bool
        ensures { result ≡ false → IsIdle late_by second self.now }
    {
        find_wanted(self.held.as_slice(), self.free, late_by, second).is_some()
    }

    /// A datagram of a device has come. It is held, as its fate says; those of a device that is not known are lost.
    pub(crate) fn come(
        &mut self,
        plan: &Plan,
        device: usize,
        packet: Packet,
        second: u64,
    ) -> Result<Drawn, AllocError>
        ensures lanes { (direction : Direction) (devices now : ℕ) → AreLanes plan.now direction devices now self.old
            → now ≤ second → IsIdle plan.now.late_by second self.old
            → OnOk result (AreLanes plan.now direction devices second self.new) }
        ensures came { OnOk result ((e : ℕ) → came_by self.new.log e
            ≡ came_by self.old.log e ++ of_device device e (record { second = second; packet = packet })) }
        ensures went { OnOk result ((e : ℕ) → went_by self.new.log e ≡ went_by self.old.log e) }
        ensures notes { (direction : Direction) (devices now : ℕ) → AreLanes plan.now direction devices now self.old
            → IfOk result (λ drawn. notes_by plan.now direction devices self.new.log
            ≡ notes_by plan.now direction devices self.old.log ++ noted_with (record {
              device = device;
              direction = direction;
              number = drawn.number;
              second = second;
              fate = drawn.fate;
            })) }
    {
        let came = Log::Came(
            Snapshot::of(&self.log),
            Snapshot::of(&device),
            Snapshot::of(&second),
            Snapshot::of(&packet),
        );
        if device >= self.counts.len() {
            self.free = None;
            self.log = came;
            return Ok(Drawn {
                number: 0,
                fate: Fate::Lost,
            });
        }
        let place = self.counts[device];
        if place == u64::MAX {
            return Err(AllocError);
        }
        let number = place + 1;
        let fate = plan.fate(self.direction, device, number);
        hold(
            &mut self.held,
            Held {
                device,
                place,
                second,
                fate,
                packet,
            },
        )?;
        self.counts[device] = number;
        self.free = freed_by(fate, device);
        self.log = came;
        Ok(Drawn { number, fate })
    }

    /// The next datagram that is to go on at this second. It is held no more.
    pub(crate) fn go(&mut self, late_by: u32, second: u64) -> Option<Held>
        ensures lanes { (plan : Plan) (direction : Direction) (devices now : ℕ) → plan.late_by ≡ late_by
            → AreLanes plan direction devices now self.old → now ≤ second
            → AreLanes plan direction devices second self.new }
        ensures came { (e : ℕ) → came_by self.new.log e ≡ came_by self.old.log e }
        ensures went { (e : ℕ) → went_by self.new.log e ≡ went_by self.old.log e ++ gone_with second result e }
        ensures notes { (plan : Plan) (direction : Direction) (devices : ℕ)
            → notes_by plan direction devices self.new.log
            ≡ notes_by plan direction devices self.old.log }
        ensures idle { IfNone result (IsIdle late_by second self.new) }
        ensures fewer { OnSome result (length self.new.held.items < length self.old.held.items) }
    {
        match take_first(&mut self.held, self.free, late_by, second) {
            None => None,
            Some(held) => {
                self.log = Log::Went(
                    Snapshot::of(&self.log),
                    Snapshot::of(&held.device),
                    Snapshot::of(&held.place),
                    Snapshot::of(&second),
                    Snapshot::of(&held.packet),
                );
                Some(held)
            }
        }
    }
}
