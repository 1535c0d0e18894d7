//! Devices of a scenario on ports, for a session.
ghost use Rattle.std.specs.Prelude.{ℕ, ◌≡◌, ◌+◌, ◌≤◌, ◌⊎◌, ◌&&◌, [], Bool, Option, List, IfErr, IfOk, OnOk, false};
ghost use Rattle.std.specs.Prelude.{length};
ghost use Rattle.std.specs.Prelude.{slice_get, true};
ghost use Rattle.scenario_image.specs.Scenario.{Scenario as ScenarioData};
ghost use Rattle.fleet_link.specs.Serving.{repeats_in, AreAt, AreRepeated, AreSwept, IsFleet};
ghost use Rattle.fleet_link.specs.Timing.{AreAsked};
ghost use Rattle.fleet_link.specs.Traffic.{Traffic};
ghost use Rattle.fleet_wire.specs.declared.note.Note.{Note as NoteData};
ghost use Rattle.fleet_lines.specs.declared.shown.Shown.{Shown as ShownData};
ghost use Rattle.fleet_lines.specs.Counting.{AreAllShown, IsAccount};
ghost use Rattle.command_files.specs.World.{OnlySays, Streams};
ghost use Rattle.command_fleet.specs.Fleet.{has_passed, IsBrokenOff, IsEndless};
ghost use Rattle.command_fleet.specs.Snapshots.{AreKept};
ghost use Rattle.command_fleet.specs.Telling.{AreTold, IsCut};

use crate::asking::Quit;
use crate::snapshots::keep_up;
use crate::telling::{Telling, tell_second, tell_traffic};
use command_files::{Fault, Refusal, World};
use command_line::AskedFleet;
use expectations::ExpectedCase;
use fleet_lines::{Account, Counted};
use fleet_link::{Fleet, FleetFault};
use live_link::Seconds;
use scenario_image::Scenario;
use std::alloc::{AllocError, Global};

/// The fault of a session that was broken off.
fn fault_of(fault: FleetFault) -> Fault
    ensures { (result ≡ Fault.Memory) ⊎ (result ≡ Fault.Bind) }
{
    match fault {
        FleetFault::Memory => Fault::Memory,
        FleetFault::Ports => Fault::Bind,
    }
}

/// The devices of a scenario at their start. Their rows are played, once or over and over, or are not; their steps are
/// recorded if they are to be saved.
fn start(
    alloc: Global,
    part: &Scenario,
    played: bool,
    repeat: bool,
    saved: bool,
) -> Result<Fleet, AllocError>
    ensures fleet { (told : ℕ → Option Traffic)
        → IfOk result (λ fleet. IsFleet part.now played told fleet.slots.items fleet.second false told) }
    ensures second { IfOk result (λ fleet. fleet.second ≡ 0) }
    ensures began { IfOk result (λ fleet. fleet.began ≡ None) }
    ensures repeated { IfOk result (λ fleet. AreRepeated fleet.slots.items (played && repeat)) }
{
    if !played {
        return Fleet::start(alloc, part, saved);
    }
    if repeat {
        Fleet::start_repeated(alloc, part, saved)
    } else {
        Fleet::start_played(alloc, part, saved)
    }
}

/// What came of a session.
#[derive(Drop)]
pub struct Served {
    /// The devices at its end.
    pub fleet: Fleet,
    pub account: Account,
}

/// Whether these seconds have passed, if they are given.
fn has_passed(seconds: Option<u32>, second: u64) -> bool
    ensures { result ≡ has_passed seconds second }
{
    match seconds {
        None => false,
        Some(seconds) => u64::from(seconds) <= second,
    }
}

/// Makes a turn of all devices, and tells what went through the ports, and the second that it comes to, if it is later.
fn turn<'a, P: Counted, C: Seconds, W: World>(
    alloc: Global,
    telling: Telling,
    fleet: &mut Fleet,
    ports: &mut P,
    clock: &mut C,
    world: &mut W,
) -> Result<(), Refusal<'a>>
    ensures fleet { (s : ScenarioData) (played : Bool) (before : ℕ → Option Traffic)
        → IsFleet s played before fleet.old.slots.items fleet.old.second false (P.told ports.old)
        → OnOk result (IsFleet s played before fleet.new.slots.items fleet.new.second false (P.told ports.new)) }
    ensures asked { (read_before asked_before : Option (List ℕ)) (calls : ℕ)
        → AreAsked read_before (C.read clock.old) asked_before
        (P.asked ports.old) fleet.old.began fleet.old.second calls
        → OnOk result (AreAsked read_before (C.read clock.new) asked_before (P.asked ports.new) fleet.new.began
        fleet.new.second (calls + 1)) }
    ensures wire { OnOk result ((P.watched ports.new).wire ≡ (P.watched ports.old).wire) }
    ensures began { OnOk result ((P.watched ports.new).began ≡ (P.watched ports.old).began) }
    ensures repeats { OnOk result ((e : ℕ) → repeats_in (slice_get fleet.new.slots.items e)
        ≡ repeats_in (slice_get fleet.old.slots.items e)) }
    ensures swept { (s : ScenarioData) (played : Bool) (before : ℕ → Option Traffic)
        → IsFleet s played before fleet.old.slots.items fleet.old.second false (P.told ports.old)
        → OnOk result (AreSwept fleet.new.slots.items (length fleet.new.slots.items) fleet.old.second) }
    ensures later { fleet.old.second ≤ fleet.new.second }
    ensures told { (start : Streams)
        → AreTold telling (P.watched ports.old).notes (P.watched ports.old).shown fleet.old.second start
        (W.seen world.old).streams
        → OnOk result (AreTold telling (P.watched ports.new).notes (P.watched ports.new).shown fleet.new.second start
        (W.seen world.new).streams) }
    ensures cut { (start : Streams)
        → AreTold telling (P.watched ports.old).notes (P.watched ports.old).shown fleet.old.second start
        (W.seen world.old).streams
        → IfErr result (λ r. IsCut telling
        W.faults fleet.old.second start
        (W.seen world.new).streams r.fault) }
    ensures only { OnlySays (W.seen world.old) (W.seen world.new) }
{
    P::watched_is_fixed();
    let last = fleet.second();
    match fleet.turn(ports, clock) {
        Ok(()) => {
            tell_traffic(alloc, telling, ports, world)?;
            tell_if_later(alloc, telling, last, fleet.second(), ports, world)
        }
        Err(fault) => Err(Refusal::from(fault_of(fault))),
    }
}

/// Tells a second, if it is later than the last one.
fn tell_if_later<'a, P: Counted, W: World>(
    alloc: Global,
    telling: Telling,
    last: u64,
    second: u64,
    ports: &P,
    world: &mut W,
) -> Result<(), Refusal<'a>>
    requires { last ≤ second }
    ensures told { (start : Streams) (notes : List NoteData) (shown : List ShownData)
        → AreTold telling notes shown last start
        (W.seen world.old).streams
        → OnOk result (AreTold telling notes shown second start
        (W.seen world.new).streams) }
    ensures cut { (start : Streams) (notes : List NoteData) (shown : List ShownData)
        → AreTold telling notes shown last start
        (W.seen world.old).streams
        → IfErr result (λ r. IsCut telling
        W.faults last start
        (W.seen world.new).streams r.fault) }
    ensures only { OnlySays (W.seen world.old) (W.seen world.new) }
{
    if second == last {
        return Ok(());
    }
    tell_second(alloc, telling, second, ports, world)
}

/// Makes turns until the seconds that are asked for have passed, if they are, or until the session is asked to end,
/// `turns` at most, and tells what goes through the ports and each second that a turn comes to. Each minute a snapshot
/// is made, if the session is to be saved.
fn go_on<'a, P: Counted, C: Seconds, Q: Quit, W: World>(
    alloc: Global,
    asked: &AskedFleet<'a>,
    part: &Scenario,
    telling: Telling,
    fleet: &mut Fleet,
    ports: &mut P,
    clock: &mut C,
    quit: &mut Q,
    goal: &[ExpectedCase],
    turns: u64,
    world: &mut W,
) -> Result<(), Refusal<'a>>
    requires start { fleet.old.second ≡ 0 }
    ensures fleet { (s : ScenarioData) (played : Bool) (before : ℕ → Option Traffic)
        → IsFleet s played before fleet.old.slots.items fleet.old.second false (P.told ports.old)
        → OnOk result (IsFleet s played before fleet.new.slots.items fleet.new.second false (P.told ports.new)) }
    ensures stop { (read_before asked_before : Option (List ℕ)) (calls : ℕ)
        → AreAsked read_before (C.read clock.old) asked_before
        (P.asked ports.old) fleet.old.began fleet.old.second calls
        → OnOk result ((has_passed asked.now.seconds fleet.new.second ≡ true) ⊎ ((Q.asked quit.new ≡ true)
        ⊎ AreAsked read_before (C.read clock.new) asked_before (P.asked ports.new) fleet.new.began fleet.new.second
        (calls + turns))) }
    ensures wire { OnOk result ((P.watched ports.new).wire ≡ (P.watched ports.old).wire) }
    ensures began { OnOk result ((P.watched ports.new).began ≡ (P.watched ports.old).began) }
    ensures repeats { OnOk result ((e : ℕ) → repeats_in (slice_get fleet.new.slots.items e)
        ≡ repeats_in (slice_get fleet.old.slots.items e)) }
    ensures told { (start : Streams)
        → AreTold telling (P.watched ports.old).notes (P.watched ports.old).shown fleet.old.second start
        (W.seen world.old).streams
        → OnOk result (AreTold telling (P.watched ports.new).notes (P.watched ports.new).shown fleet.new.second start
        (W.seen world.new).streams) }
    ensures cut { (start : Streams) (before : ℕ → Option Traffic)
        → AreTold telling (P.watched ports.old).notes (P.watched ports.old).shown fleet.old.second start
        (W.seen world.old).streams
        → IsFleet part.now asked.now.play before fleet.old.slots.items fleet.old.second false (P.told ports.old)
        → AreRepeated fleet.old.slots.items (asked.now.play && asked.now.repeat)
        → IfErr result (λ r. IsBrokenOff telling W.refuses W.faults asked.now part.now before
        (record { made = (W.seen world.old).made; streams = start }) (W.seen world.new) r.fault) }
    ensures kept { (before : ℕ → Option Traffic)
        → IsFleet part.now asked.now.play before fleet.old.slots.items fleet.old.second false (P.told ports.old)
        → AreRepeated fleet.old.slots.items (asked.now.play && asked.now.repeat)
        → OnOk result ((last : ℕ) × AreKept asked.now part.now before last fleet.new.second (W.seen world.old).made
        (W.seen world.new).made) }
    ensures none_read { (W.seen world.new).streams.input ≡ (W.seen world.old).streams.input }
{
    let mut last = fleet.second();
    for _turn in 0..turns {
        if has_passed(asked.seconds, fleet.second()) {
            return Ok(());
        }
        if quit.asks(fleet, goal) {
            return Ok(());
        }
        turn(alloc, telling, fleet, ports, clock, world)?;
        last = keep_up(alloc, asked.save, part, fleet, last, world)?;
    }
    Ok(())
}

/// All devices of a scenario are served on these ports, of which nothing was taken yet, for the seconds that are asked
/// for by this clock or until the session is asked to end. Each second that a turn comes to is told, and what the wire
/// did and what devices received and sent, as far as the ports show it. The devices' rows are played, once or over and
/// over, and their steps recorded, if that is asked for. What went through the ports is counted.
#[tactic(auto, using(crate::proofs::Sessions::broken_at_start))]
pub fn serve_part<'a, P: Counted, C: Seconds, Q: Quit, W: World>(
    alloc: Global,
    asked: &AskedFleet<'a>,
    part: &Scenario,
    telling: Telling,
    ports: &mut P,
    clock: &mut C,
    quit: &mut Q,
    goal: &[ExpectedCase],
    world: &mut W,
) -> Result<Served, Refusal<'a>>
    requires no_notes { (P.watched ports.old).notes ≡ [] }
    requires none_shown { (P.watched ports.old).shown ≡ [] }
    ensures fleet { IfOk result (λ r. IsFleet part.now asked.now.play (P.told ports.old) r.fleet.slots.items
        r.fleet.second false (P.told ports.new)) }
    ensures finished { IfOk result (λ r. AreAt r.fleet.slots.items (length r.fleet.slots.items) r.fleet.second) }
    ensures ended { IfOk result (λ r. (has_passed asked.now.seconds r.fleet.second ≡ true)
        ⊎ ((Q.asked quit.new ≡ true) ⊎ IsEndless r.fleet.second)) }
    ensures account { IfOk result (λ r. IsAccount (P.watched ports.old).wire (P.told ports.new)
        (P.watched ports.new).notes r.account) }
    ensures shown { OnOk result (∥ AreAllShown (P.watched ports.old).began (P.told ports.new)
        (P.watched ports.new).shown ∥₁) }
    ensures repeated { IfOk result (λ r. AreRepeated r.fleet.slots.items (asked.now.play && asked.now.repeat)) }
    ensures told { IfOk result (λ r. AreTold telling (P.watched ports.new).notes (P.watched ports.new).shown
        r.fleet.second (W.seen world.old).streams (W.seen world.new).streams) }
    ensures kept { IfOk result (λ r. (last : ℕ) × AreKept asked.now part.now (P.told ports.old) last r.fleet.second
        (W.seen world.old).made (W.seen world.new).made) }
    ensures cut { IfErr result (λ r. IsBrokenOff telling W.refuses W.faults asked.now part.now
        (P.told ports.old) (W.seen world.old) (W.seen world.new)
        r.fault) }
    ensures none_read { (W.seen world.new).streams.input ≡ (W.seen world.old).streams.input }
{
    let mut fleet = start(alloc, part, asked.play, asked.repeat, asked.save.is_some())?;
    go_on(
        alloc,
        asked,
        part,
        telling,
        &mut fleet,
        ports,
        clock,
        quit,
        goal,
        u64::MAX,
        world,
    )?;
    P::watched_is_fixed();
    match fleet.finish(ports) {
        Ok(()) => {}
        Err(fault) => return Err(Refusal::from(fault_of(fault))),
    }
    tell_traffic(alloc, telling, ports, world)?;
    match ports.account() {
        Some(account) => Ok(Served { fleet, account }),
        None => Err(Refusal::from(Fault::Memory)),
    }
}
