ghost use Rattle.std.specs.Prelude.{◌≡◌, ℕ, ◌+◌, ◌-◌, ◌*◌, ◌<◌, ◌≤◌, ◌↔◌, length, slice_get, slice_range, Some, None};
ghost use Rattle.std.specs.Prelude.{Err, IsSome, IsTrue, IfOk, IfSome, OnOk, OnErr};
ghost use Rattle.std.specs.Option.{option_copied};
ghost use Rattle.std.specs.Result.{IsOk, IsErr};
ghost use Rattle.fleet_core.specs.Run.{IsRun};
ghost use Rattle.fleet_core.specs.Verdict.{BreaksAt};
ghost use Rattle.debugger.specs.Shown.{value_shown, observations_shown, outputs_shown, step_shown};
ghost use Rattle.debugger.specs.Shown.{ShowsState, before_shown};
ghost use Rattle.debugger.specs.Session.{IsSession, new_session, at_place, with_replayed};
ghost use Rattle.debugger.specs.Moves.{steps_to};
ghost use Rattle.debugger.specs.Replayed.{devices_between, events_among, IsReplayedBack};
ghost use Rattle.debugger.specs.Stops.{IsNextStop};
ghost use Rattle.debugger.specs.Breaks.{IsTaken, AreAllTaken, IsAdded, IsRemoved};

use crate::breaks::{Break, Stop, StopAt};
use crate::copies::{Copies, copies_of_run};
use crate::fault::{AddFault, BackFault, DeviceFault, ForwardFault, OpenFault, RemoveFault};
use crate::latest::{latest_outputs, latest_step};
use crate::moves::{Moves, count_rows, device_before, moved_devices, settle};
use crate::points::set_points;
use crate::search::first_stop;
use crate::slots::{free_slot, is_taken, no_breaks};
use crate::watches::watch_devices;
use device_entries::{Places, all_places};
use device_machine::{Device, Output};
use fleet_core::start_devices;
use lwm2m_values::Value;
use notifier::Observations;
use object_defs::Path;
use scenario_image::{Scenario, Step};
use std::alloc::{AllocError, Global};
use std::marker::Model;
use trace_file::Entries;

/// A debugger over a run: it stands at a place, from 0 to the count of the entries, and shows each device as it is
/// after the entries before the place, in their order. It keeps a copy of each device after each 64 of its entries, so
/// that a move back makes few steps, and where each device has its entries. Contracts see the scenario, the run, the
/// place, the breakpoints, and how many steps devices took in the last move by a number of entries.
#[derive(Drop)]
pub struct Debugger<'a> {
    alloc: Global,
    scenario: &'a Scenario,
    entries: Entries,
    place: usize,
    made: Vec<u64>,
    devices: Vec<Device>,
    breaks: Vec<Option<Break>>,
    copies: Vec<Copies>,
    places: Vec<Places>,
    replayed: u64,
}

impl<'a> Model for Debugger<'a> {
    ghost use Rattle.std.specs.Coded.{codes};
    ghost use Rattle.instance_store.specs.Stored.{stored_code};
    ghost use Rattle.debugger.specs.Session.{Session, IsDebugger};

    ghost Value = { Session };

    ghost coded = { Prim.hlevel (codes, stored_code) };

    ghost view = { λ b. record {
      scenario = b.scenario.now;
      entries = b.entries;
      place = b.place;
      breaks = b.breaks.items;
      replayed = b.replayed;
    } };

    ghost invariant = { λ b. IsDebugger b.scenario.now b.entries (record {
      place = b.place;
      made = b.made.items;
      devices = b.devices.items;
      breaks = b.breaks.items;
      copies = b.copies.items;
      places = b.places.items;
    }) };
}

impl<'a> Debugger<'a> {
    /// Opens a debugger before the first entry, without a breakpoint, over a run. `NotRun`: the entries are not a run
    /// of the scenario; the ones before its place are, and with the one at it they are not. Each step of the run is
    /// made once, and none past that place.
    pub fn open(
        alloc: Global,
        scenario: &'a Scenario,
        entries: Entries,
    ) -> Result<Debugger<'a>, OpenFault>
        ensures opened { IfOk result (λ b. b ≡ new_session scenario.now entries) }
        ensures run { OnOk result (IsRun scenario.now entries) }
        ensures not_run { (at : ℕ) → result ≡ Err (OpenFault.NotRun at) → BreaksAt scenario.now entries at }
    {
        let copies = copies_of_run(alloc, scenario, entries.as_slice())?;
        let devices = start_devices(alloc, scenario)?;
        let made = count_rows(alloc, scenario, entries.as_slice(), 0)?;
        let breaks = no_breaks(alloc)?;
        let places = all_places(alloc, scenario, entries.as_slice())?;
        Ok(Debugger {
            alloc,
            scenario,
            entries,
            place: 0,
            made,
            devices,
            breaks,
            copies,
            places,
            replayed: 0,
        })
    }

    /// The place: how many entries are before it.
    pub fn at(&self) -> usize
        ensures place { result ≡ self.now.place }
        ensures session { IsSession self.now }
    {
        self.place
    }

    /// How many events devices took in the last call of `forward` or `back` that moved; 0 before the first one. A post
    /// or a need is no event: the device does not hear of it. That these are the calls of `Device::step` really made is
    /// not promised: the module `steps`, whose function makes and counts them, shows it.
    pub fn replayed(&self) -> u64
        ensures { result ≡ self.now.replayed }
    {
        self.replayed
    }

    /// Moves to another place of the run, and returns how many events devices took. Without memory nothing changes.
    fn go(&mut self, to: usize) -> Result<u64, AllocError>
        requires { to ≤ length self.old.entries }
        ensures moved { OnOk result (self.new ≡ at_place self.old to) }
        ensures steps { IfOk result (λ n. n ≡ steps_to self.old to) }
        ensures unchanged { OnErr result (self.new ≡ self.old) }
    {
        let moves = moved_devices(
            self.alloc,
            self.scenario,
            self.entries.as_slice(),
            self.places.as_slice(),
            self.copies.as_slice(),
            self.devices.as_slice(),
            self.made.as_slice(),
            self.place,
            to,
        )?;
        let Moves { moved, steps } = moves;
        settle(
            self.scenario,
            self.entries.as_slice(),
            to,
            &mut self.made,
            &mut self.devices,
            moved,
        );
        self.place = to;
        Ok(steps)
    }

    /// Moves forward by this many entries. For each of them that is an event, and no post or need, its device takes it.
    /// `PastEnd`, exactly if there are fewer after the place. An error, `Memory` too, leaves all as it was.
    pub fn forward(&mut self, count: usize) -> Result<(), ForwardFault>
        ensures moved { OnOk result (self.new
            ≡ with_replayed (at_place self.old (self.old.place + count)) self.new.replayed) }
        ensures replayed { OnOk result (self.new.replayed ≡ events_among self.old.scenario
            (slice_range self.old.entries self.old.place (self.old.place + count))) }
        ensures few { OnOk result (self.new.replayed ≤ count) }
        ensures past_end { (result ≡ Err ForwardFault.PastEnd) ↔ (length self.old.entries < self.old.place + count) }
        ensures unchanged { OnErr result (self.new ≡ self.old) }
    {
        let left = self.entries.len() - self.place;
        if count > left {
            return Err(ForwardFault::PastEnd);
        }
        let to = self.place + count;
        let steps = self.go(to)?;
        self.replayed = steps;
        Ok(())
    }

    /// Moves back by this many entries. Each device that has one among them starts from its latest copy that is not
    /// after the new place, or from the start of its row, and so takes at most 63 events. `PastStart`, exactly if there
    /// are fewer before the place. An error, `Memory` too, leaves all as it was.
    pub fn back(&mut self, count: usize) -> Result<(), BackFault>
        ensures moved { OnOk result (self.new
            ≡ with_replayed (at_place self.old (self.old.place - count)) self.new.replayed) }
        ensures replayed { OnOk result (IsReplayedBack self.old (self.old.place - count) self.new.replayed) }
        ensures few { OnOk result (self.new.replayed
            ≤ 63 * devices_between self.old (self.old.place - count) self.old.place) }
        ensures past_start { (result ≡ Err BackFault.PastStart) ↔ (self.old.place < count) }
        ensures unchanged { OnErr result (self.new ≡ self.old) }
    {
        if count > self.place {
            return Err(BackFault::PastStart);
        }
        let to = self.place - count;
        let steps = self.go(to)?;
        self.replayed = steps;
        Ok(())
    }

    /// The device's value at the path, after as many steps of its row as it has entries before the place; none at a
    /// path of one or two numbers. `NoDevice`, exactly if there is no row.
    pub fn value(&self, device: u16, path: &Path) -> Result<Option<&Value>, DeviceFault>
        ensures value { IfOk result (λ v. option_copied v
            ≡ value_shown self.now.scenario self.now.entries self.now.place device path.now) }
        ensures device { IsOk result ↔ (device < length self.now.scenario.rows) }
    {
        // For the proof alone: a scenario whose rows are counted is known to be valid.
        let _known = self.scenario.rows();
        match self.devices.get(usize::from(device)) {
            None => Err(DeviceFault::NoDevice),
            Some(machine) => Ok(machine.value(path)),
        }
    }

    /// The device's observations at the place, in the order of registration. `NoDevice`, exactly if there is no row.
    pub fn observations(&self, device: u16) -> Result<&Observations, DeviceFault>
        ensures observations { IfOk result (λ o. o.now.list
            ≡ observations_shown self.now.scenario self.now.entries self.now.place device) }
        ensures device { IsOk result ↔ (device < length self.now.scenario.rows) }
    {
        // For the proof alone: a scenario whose rows are counted is known to be valid.
        let _known = self.scenario.rows();
        match self.devices.get(usize::from(device)) {
            None => Err(DeviceFault::NoDevice),
            Some(machine) => Ok(machine.observations()),
        }
    }

    /// What the device output at its latest entry before the place; nothing before its first one. `NoDevice`, exactly
    /// if there is no row.
    pub fn outputs(&self, device: u16) -> Result<&[Output], DeviceFault>
        ensures outputs { IfOk result (λ o. o.now
            ≡ outputs_shown self.now.scenario self.now.entries self.now.place device) }
        ensures device { IsOk result ↔ (device < length self.now.scenario.rows) }
    {
        let row = usize::from(device);
        if row >= self.devices.len() {
            return Err(DeviceFault::NoDevice);
        }
        let count = self.made[row];
        let own = &self.places[row];
        let indexes = own.indexes.as_slice();
        let entries = self.entries.as_slice();
        Ok(latest_outputs(self.scenario, entries, indexes, device, count))
    }

    /// The step of the device's latest entry before the place; none before its first one. `NoDevice`, exactly if there
    /// is no row.
    pub fn latest_step(&self, device: u16) -> Result<Option<&Step>, DeviceFault>
        ensures step { IfOk result (λ o. option_copied o
            ≡ step_shown self.now.scenario self.now.entries self.now.place device) }
        ensures device { IsOk result ↔ (device < length self.now.scenario.rows) }
    {
        // For the proof alone: a scenario whose rows are counted is known to be valid.
        let _known = self.scenario.rows();
        match self.made.get(usize::from(device)) {
            None => Err(DeviceFault::NoDevice),
            Some(made) => Ok(latest_step(self.scenario, device, *made)),
        }
    }

    /// A copy of the device as it was right before its latest entry before the place.
    pub fn before_latest(&self, device: u16) -> Result<Device, AllocError>
        requires { IsSome (step_shown self.now.scenario self.now.entries self.now.place device) }
        ensures { IfOk result
            (ShowsState (before_shown self.now.scenario self.now.entries self.now.place device)) }
    {
        // For the proof alone: a scenario whose rows are counted is known to be valid.
        let _known = self.scenario.rows();
        let made = self.made[usize::from(device)];
        let kept = &self.copies[usize::from(device)];
        let copies = kept.devices.as_slice();
        let before = device_before(self.alloc, self.scenario, copies, device, made as u32 - 1)?;
        Ok(before.machine)
    }

    /// Adds a breakpoint under the least number from 1 that is free, and returns the number.
    ///
    /// `Full`: there are 64.
    pub fn add_break(&mut self, point: Break) -> Result<u8, AddFault>
        ensures added { IfOk result (λ id. IsAdded self.old self.new point id) }
        ensures full { IsErr result ↔ AreAllTaken self.old.breaks }
        ensures unchanged { OnErr result (self.new ≡ self.old) }
    {
        match free_slot(self.breaks.as_slice()) {
            None => Err(AddFault::Full),
            Some(slot) => {
                self.breaks[slot] = Some(point);
                Ok(slot as u8 + 1)
            }
        }
    }

    /// Removes the breakpoint of this number.
    ///
    /// `NoSuch`: there is none.
    pub fn remove_break(&mut self, id: u8) -> Result<(), RemoveFault>
        ensures removed { OnOk result (IsRemoved self.old self.new id) }
        ensures no_such { IsOk result ↔ IsTaken self.old.breaks id }
        ensures unchanged { OnErr result (self.new ≡ self.old) }
    {
        if !is_taken(self.breaks.as_slice(), id) {
            return Err(RemoveFault::NoSuch);
        }
        self.breaks[usize::from(id) - 1] = None;
        Ok(())
    }

    /// The next stop.
    fn next_stop(&self) -> Result<StopAt, AllocError>
        ensures stop { IfOk result (λ r. IsNextStop self.now r.stop r.place) }
        ensures within { IfOk result (λ r. r.place ≤ length self.now.entries) }
    {
        // For the proof alone: a scenario whose rows are counted is known to be valid.
        let _known = self.scenario.rows();
        let points = set_points(self.alloc, self.breaks.as_slice())?;
        let watched = watch_devices(self.alloc, self.devices.as_slice(), points.as_slice())?;
        let next = first_stop(
            self.alloc,
            self.scenario,
            self.entries.as_slice(),
            self.devices.as_slice(),
            points.as_slice(),
            watched,
            self.place,
        )?;
        Ok(next)
    }

    /// Moves to the least later place at which a breakpoint holds, and returns the least number of those that do; or to
    /// the end, exactly if none holds at a later place. Without memory nothing changes.
    pub fn resume(&mut self) -> Result<Stop, AllocError>
        ensures stop { IfOk result (λ stop. IsNextStop self.old stop self.new.place) }
        ensures moved { OnOk result (self.new ≡ at_place self.old self.new.place) }
        ensures unchanged { OnErr result (self.new ≡ self.old) }
    {
        let next = self.next_stop()?;
        let _steps = self.go(next.place)?;
        Ok(next.stop)
    }
}
