//! All devices of a fleet are served: what arrives at their ports is what they receive, and the seconds of a clock are
//! their ticks.
ghost use Rattle.std.specs.Prelude.{◌≡◌, ◌+◌, ◌-◌, ◌<◌, ◌≤◌, ◌⊎◌, [], ℕ, Bool, List, Option, Some, None, Ok};
ghost use Rattle.std.specs.Prelude.{◌^◌, OnOk, is_err, false, length, max, min, slice_get, unwrap_or};
ghost use Rattle.std.specs.List.{list_any};
ghost use Rattle.live_link.specs.Wire.{AreRead};
ghost use Rattle.scenario_image.specs.Scenario.{Scenario};
ghost use Rattle.fleet_link.specs.Traffic.{Traffic, Carries, at_port, failed_once, handed_at, traffic_of_receipt};
ghost use Rattle.fleet_link.specs.Timing.{AreAsked};
ghost use Rattle.fleet_link.specs.declared.slot.Slot.{Slot};
ghost use Rattle.fleet_link.specs.Playing.{happened_count, is_waiting, is_waiting_for, row_state, CanPass};
ghost use Rattle.fleet_link.specs.Serving.{all_posts, place_in, AreAt, ArePassed, AreSwept, HaveGoneOn, IsFleet};

use crate::fault::FleetFault;
use crate::fleet::Fleet;
use crate::ports::{Arrival, Ports, Receipt};
use crate::slot::Slot;
use live_link::Seconds;
use std::alloc::AllocError;

/// How many devices are looked at before arrivals are served again; and at most how many arrivals are served before the
/// next devices are looked at.
const SLICE: usize = 64;

/// For how many milliseconds arrivals are waited for at most, after a slice of devices: a tenth of a second.
const LONGEST_WAIT: usize = 100;

/// What the devices do in a second is spread over it.
const MILLIS: usize = 1000;

/// For how many milliseconds arrivals are waited for after each of so many slices, at most.
fn wait_of(slices: usize) -> u32 {
    if slices == 0 {
        return LONGEST_WAIT as u32;
    }
    (MILLIS / slices).min(LONGEST_WAIT) as u32
}

/// How many posts to this group the rows of all devices have made.
fn all_posts(slots: &[Slot], group: u8) -> u64
    ensures { result ≡ min (all_posts slots.now group) (2 ^ 64 - 1) }
{
    let mut posts = 0u64;
    for slot in slots {
        posts = posts.saturating_add(slot.posts(group));
    }
    posts
}

/// Whether a row waits at a need.
fn has_waiting(slots: &[Slot]) -> bool
    ensures { result ≡ list_any (λ slot. is_waiting (row_state slot.row)) slots.now }
{
    slots.iter().any(|slot| slot.waits())
}

/// Whether a row waits for posts to this group.
fn is_awaited(slots: &[Slot], group: u8) -> bool
    ensures { result ≡ list_any (λ slot. is_waiting_for group (row_state slot.row)) slots.now }
{
    slots.iter().any(|slot| slot.is_waiting(group))
}

impl Fleet {
    /// Passes the needs of posts to this group at which rows wait, if they stand.
    fn pass_group(&mut self, group: u8)
        ensures fleet { (s : Scenario) (played : Bool) (before told : ℕ → Option Traffic)
            → IsFleet s played before self.old.slots.items self.old.second false told
            → IsFleet s played before self.new.slots.items self.new.second false told }
        ensures passed { (e : ℕ) (slot : Slot) → slice_get self.old.slots.items e ≡ Some slot → slot.end ≡ None
            → CanPass group (all_posts self.old.slots.items group) self.old.second slot.row
            → happened_count slot.row < place_in (slice_get self.new.slots.items e) }
        ensures same { (e : ℕ) (slot : Slot) → slice_get self.old.slots.items e ≡ Some slot
            → (slice_get self.new.slots.items e ≡ Some slot)
            ⊎ (happened_count slot.row < place_in (slice_get self.new.slots.items e)) }
        ensures posts { (other : ℕ) → min (all_posts self.old.slots.items other) (2 ^ 64 - 1)
            ≤ min (all_posts self.new.slots.items other) (2 ^ 64 - 1) }
        ensures second { self.new.second ≡ self.old.second }
        ensures began { self.new.began ≡ self.old.began }
        ensures went { HaveGoneOn self.old.slots.items self.new.slots.items }
        ensures count { length self.new.slots.items ≡ length self.old.slots.items }
    {
        let now = self.second;
        if !is_awaited(self.slots.as_slice(), group) {
            return;
        }
        let posts = all_posts(self.slots.as_slice(), group);
        for place in 0..self.slots.len() {
            self.slots[place].pass_need(group, posts, now);
        }
    }

    /// Passes each need at which a row waits, if its posts stand. The row goes on from the second of the session.
    fn pass_needs(&mut self)
        ensures fleet { (s : Scenario) (played : Bool) (before told : ℕ → Option Traffic)
            → IsFleet s played before self.old.slots.items self.old.second false told
            → IsFleet s played before self.new.slots.items self.new.second false told }
        ensures passed { ArePassed self.old.slots.items self.new.slots.items self.old.second }
        ensures second { self.new.second ≡ self.old.second }
        ensures began { self.new.began ≡ self.old.began }
        ensures went { HaveGoneOn self.old.slots.items self.new.slots.items }
        ensures count { length self.new.slots.items ≡ length self.old.slots.items }
    {
        if !has_waiting(self.slots.as_slice()) {
            return;
        }
        for group in 0..256usize {
            self.pass_group(group as u8);
        }
    }

    /// Lets the device receive a datagram that has arrived at its port. There may be no such device.
    fn take_arrival<P: Ports>(&mut self, ports: &mut P, arrival: Arrival) -> Result<(), AllocError>
        ensures fleet { (s : Scenario) (played : Bool) (before between : ℕ → Option Traffic)
            → IsFleet s played before self.old.slots.items self.old.second false between
            → ((e : ℕ) → Carries (between e) (P.told ports.old e)
            (at_port arrival.device e (handed_at self.old.second arrival.packet)))
            → IsFleet s played before self.new.slots.items self.new.second (is_err result) (P.told ports.new) }
        ensures swept { (s : Scenario) (played : Bool) (before between : ℕ → Option Traffic)
            → IsFleet s played before self.old.slots.items self.old.second false between
            → ((e : ℕ) → Carries (between e) (P.told ports.old e)
            (at_port arrival.device e (handed_at self.old.second arrival.packet)))
            → (n second : ℕ) → second ≤ self.old.second → AreSwept self.old.slots.items n second
            → AreSwept self.new.slots.items n second }
        ensures fixed { P.fixed ports.new ≡ P.fixed ports.old }
        ensures asked { AreRead (P.asked ports.old) (P.asked ports.new) [] }
        ensures second { self.new.second ≡ self.old.second }
        ensures began { self.new.began ≡ self.old.began }
        ensures went { HaveGoneOn self.old.slots.items self.new.slots.items }
        ensures count { length self.new.slots.items ≡ length self.old.slots.items }
    {
        let place = arrival.device;
        if place >= self.slots.len() {
            return Ok(());
        }
        let now = self.second;
        self.slots[place].hear(ports, place, now, arrival.packet)
    }

    /// Notes that the port of a device failed. There may be no such device.
    fn take_failure(&mut self, device: usize)
        ensures fleet { (s : Scenario) (played : Bool) (before between after : ℕ → Option Traffic)
            → IsFleet s played before self.old.slots.items self.old.second false between
            → ((e : ℕ) → Carries (between e) (after e) (at_port device e failed_once))
            → IsFleet s played before self.new.slots.items self.new.second false after }
        ensures swept { (n second : ℕ) → AreSwept self.old.slots.items n second
            → AreSwept self.new.slots.items n second }
        ensures second { self.new.second ≡ self.old.second }
        ensures began { self.new.began ≡ self.old.began }
        ensures went { HaveGoneOn self.old.slots.items self.new.slots.items }
        ensures count { length self.new.slots.items ≡ length self.old.slots.items }
    {
        if device < self.slots.len() {
            self.slots[device].fail();
        }
    }

    /// Sets the session's second by a reading of its clock.
    fn pass(&mut self, reading: u64)
        ensures began { self.new.began ≡ Some (unwrap_or self.old.began reading) }
        ensures second { self.new.second ≡ max self.old.second (reading - unwrap_or self.old.began reading) }
        ensures slots { self.new.slots ≡ self.old.slots }
    {
        let first = self.began.unwrap_or(reading);
        self.began = Some(first);
        self.second = self.second.max(reading.saturating_sub(first));
    }

    /// Lets the devices know what came of asking the ports.
    fn take_receipt<P: Ports>(&mut self, ports: &mut P, receipt: Receipt) -> Result<(), AllocError>
        ensures fleet { (s : Scenario) (played : Bool) (before between : ℕ → Option Traffic)
            → IsFleet s played before self.old.slots.items self.old.second false between
            → ((e : ℕ) → Carries (between e) (P.told ports.old e) (traffic_of_receipt self.old.second (Ok receipt) e))
            → IsFleet s played before self.new.slots.items self.new.second (is_err result) (P.told ports.new) }
        ensures swept { (s : Scenario) (played : Bool) (before between : ℕ → Option Traffic)
            → IsFleet s played before self.old.slots.items self.old.second false between
            → ((e : ℕ) → Carries (between e) (P.told ports.old e) (traffic_of_receipt self.old.second (Ok receipt) e))
            → (n second : ℕ) → second ≤ self.old.second → AreSwept self.old.slots.items n second
            → AreSwept self.new.slots.items n second }
        ensures fixed { P.fixed ports.new ≡ P.fixed ports.old }
        ensures asked { AreRead (P.asked ports.old) (P.asked ports.new) [] }
        ensures second { self.new.second ≡ self.old.second }
        ensures began { self.new.began ≡ self.old.began }
        ensures went { HaveGoneOn self.old.slots.items self.new.slots.items }
        ensures count { length self.new.slots.items ≡ length self.old.slots.items }
    {
        match receipt {
            Receipt::Nothing => Ok(()),
            Receipt::Dropped => Ok(()),
            Receipt::Failed(device) => {
                self.take_failure(device);
                Ok(())
            }
            Receipt::Arrived(arrival) => self.take_arrival(ports, arrival),
        }
    }

    /// Reads the clock, and serves one arrival, if something has arrived. The result says whether there may be more.
    fn ask<P: Ports, C: Seconds>(
        &mut self,
        ports: &mut P,
        clock: &mut C,
    ) -> Result<bool, FleetFault>
        ensures fleet { (s : Scenario) (played : Bool) (before : ℕ → Option Traffic)
            → IsFleet s played before self.old.slots.items self.old.second false (P.told ports.old)
            → IsFleet s played before self.new.slots.items self.new.second (is_err result) (P.told ports.new) }
        ensures swept { (s : Scenario) (played : Bool) (before : ℕ → Option Traffic)
            → IsFleet s played before self.old.slots.items self.old.second false (P.told ports.old)
            → (n second : ℕ) → second ≤ self.old.second → AreSwept self.old.slots.items n second
            → AreSwept self.new.slots.items n second }
        ensures fixed { P.fixed ports.new ≡ P.fixed ports.old }
        ensures asked { (read_before asked_before : Option (List ℕ)) (calls : ℕ)
            → AreAsked read_before (C.read clock.old) asked_before (P.asked ports.old) self.old.began
            self.old.second calls
            → AreAsked read_before (C.read clock.new) asked_before (P.asked ports.new) self.new.began
            self.new.second (calls + 1) }
        ensures later { self.old.second ≤ self.new.second }
        ensures went { HaveGoneOn self.old.slots.items self.new.slots.items }
        ensures count { length self.new.slots.items ≡ length self.old.slots.items }
    {
        let reading = clock.now();
        self.pass(reading);
        let receipt = ports.receive(self.second)?;
        let more = receipt.has_come();
        self.take_receipt(ports, receipt)?;
        Ok(more)
    }

    /// Serves what has arrived, as long as something has, and no longer than a slice.
    fn serve_arrivals<P: Ports, C: Seconds>(
        &mut self,
        ports: &mut P,
        clock: &mut C,
    ) -> Result<(), FleetFault>
        ensures fleet { (s : Scenario) (played : Bool) (before : ℕ → Option Traffic)
            → IsFleet s played before self.old.slots.items self.old.second false (P.told ports.old)
            → IsFleet s played before self.new.slots.items self.new.second (is_err result) (P.told ports.new) }
        ensures swept { (s : Scenario) (played : Bool) (before : ℕ → Option Traffic)
            → IsFleet s played before self.old.slots.items self.old.second false (P.told ports.old)
            → (n second : ℕ) → second ≤ self.old.second → AreSwept self.old.slots.items n second
            → OnOk result (AreSwept self.new.slots.items n second) }
        ensures fixed { P.fixed ports.new ≡ P.fixed ports.old }
        ensures asked { (read_before asked_before : Option (List ℕ)) (calls : ℕ)
            → AreAsked read_before (C.read clock.old) asked_before (P.asked ports.old) self.old.began
            self.old.second calls
            → AreAsked read_before (C.read clock.new) asked_before (P.asked ports.new) self.new.began
            self.new.second calls }
        ensures heard { (read_before asked_before : Option (List ℕ)) (calls : ℕ)
            → AreAsked read_before (C.read clock.old) asked_before (P.asked ports.old) self.old.began
            self.old.second calls
            → OnOk result (AreAsked read_before (C.read clock.new) asked_before (P.asked ports.new) self.new.began
            self.new.second (calls + 1)) }
        ensures later { self.old.second ≤ self.new.second }
        ensures went { HaveGoneOn self.old.slots.items self.new.slots.items }
        ensures count { length self.new.slots.items ≡ length self.old.slots.items }
    {
        for _turn in 0..SLICE {
            if !self.ask(ports, clock)? {
                return Ok(());
            }
        }
        Ok(())
    }

    /// Serves what arrives, after at most so many milliseconds.
    fn listen<P: Ports, C: Seconds>(
        &mut self,
        ports: &mut P,
        clock: &mut C,
        millis: u32,
    ) -> Result<(), FleetFault>
        ensures fleet { (s : Scenario) (played : Bool) (before : ℕ → Option Traffic)
            → IsFleet s played before self.old.slots.items self.old.second false (P.told ports.old)
            → IsFleet s played before self.new.slots.items self.new.second (is_err result) (P.told ports.new) }
        ensures swept { (s : Scenario) (played : Bool) (before : ℕ → Option Traffic)
            → IsFleet s played before self.old.slots.items self.old.second false (P.told ports.old)
            → (n second : ℕ) → second ≤ self.old.second → AreSwept self.old.slots.items n second
            → OnOk result (AreSwept self.new.slots.items n second) }
        ensures fixed { P.fixed ports.new ≡ P.fixed ports.old }
        ensures asked { (read_before asked_before : Option (List ℕ)) (calls : ℕ)
            → AreAsked read_before (C.read clock.old) asked_before (P.asked ports.old) self.old.began
            self.old.second calls
            → AreAsked read_before (C.read clock.new) asked_before (P.asked ports.new) self.new.began
            self.new.second calls }
        ensures heard { (read_before asked_before : Option (List ℕ)) (calls : ℕ)
            → AreAsked read_before (C.read clock.old) asked_before (P.asked ports.old) self.old.began
            self.old.second calls
            → OnOk result (AreAsked read_before (C.read clock.new) asked_before (P.asked ports.new) self.new.began
            self.new.second (calls + 1)) }
        ensures later { self.old.second ≤ self.new.second }
        ensures went { HaveGoneOn self.old.slots.items self.new.slots.items }
        ensures count { length self.new.slots.items ≡ length self.old.slots.items }
    {
        ports.wait(millis)?;
        self.serve_arrivals(ports, clock)
    }

    /// Brings each device from one place up to another to this second, if it is due then or before.
    fn sweep<P: Ports>(
        &mut self,
        ports: &mut P,
        from: usize,
        to: usize,
        second: u64,
    ) -> Result<(), AllocError>
        requires { to ≤ length self.old.slots.items }
        ensures fleet { (s : Scenario) (played : Bool) (before : ℕ → Option Traffic) → second ≤ self.old.second
            → IsFleet s played before self.old.slots.items self.old.second false (P.told ports.old)
            → IsFleet s played before self.new.slots.items self.new.second (is_err result) (P.told ports.new) }
        ensures swept { (s : Scenario) (played : Bool) (before : ℕ → Option Traffic) → second ≤ self.old.second
            → IsFleet s played before self.old.slots.items self.old.second false (P.told ports.old)
            → from ≤ to → AreSwept self.old.slots.items from second
            → OnOk result (AreSwept self.new.slots.items to second) }
        ensures fixed { P.fixed ports.new ≡ P.fixed ports.old }
        ensures asked { AreRead (P.asked ports.old) (P.asked ports.new) [] }
        ensures second { self.new.second ≡ self.old.second }
        ensures began { self.new.began ≡ self.old.began }
        ensures went { HaveGoneOn self.old.slots.items self.new.slots.items }
        ensures count { length self.new.slots.items ≡ length self.old.slots.items }
    {
        for place in from..to {
            self.slots[place].sweep(ports, place, second)?;
        }
        Ok(())
    }

    /// Brings each device that is due to this second of the session, slice by slice. After each slice arrivals are
    /// served, each at the second of its own.
    fn sweep_slices<P: Ports, C: Seconds>(
        &mut self,
        ports: &mut P,
        clock: &mut C,
    ) -> Result<(), FleetFault>
        ensures fleet { (s : Scenario) (played : Bool) (before : ℕ → Option Traffic)
            → IsFleet s played before self.old.slots.items self.old.second false (P.told ports.old)
            → IsFleet s played before self.new.slots.items self.new.second (is_err result) (P.told ports.new) }
        ensures swept { (s : Scenario) (played : Bool) (before : ℕ → Option Traffic)
            → IsFleet s played before self.old.slots.items self.old.second false (P.told ports.old)
            → OnOk result (AreSwept self.new.slots.items (length self.new.slots.items) self.old.second) }
        ensures fixed { P.fixed ports.new ≡ P.fixed ports.old }
        ensures asked { (read_before asked_before : Option (List ℕ)) (calls : ℕ)
            → AreAsked read_before (C.read clock.old) asked_before (P.asked ports.old) self.old.began
            self.old.second calls
            → AreAsked read_before (C.read clock.new) asked_before (P.asked ports.new) self.new.began
            self.new.second calls }
        ensures heard { (read_before asked_before : Option (List ℕ)) (calls : ℕ)
            → AreAsked read_before (C.read clock.old) asked_before (P.asked ports.old) self.old.began
            self.old.second calls
            → OnOk result (AreAsked read_before (C.read clock.new) asked_before (P.asked ports.new) self.new.began
            self.new.second (calls + 1)) }
        ensures later { self.old.second ≤ self.new.second }
        ensures went { HaveGoneOn self.old.slots.items self.new.slots.items }
        ensures count { length self.new.slots.items ≡ length self.old.slots.items }
    {
        let second = self.second;
        let devices = self.slots.len();
        let slices = devices / SLICE + 1;
        let millis = wait_of(slices);
        for slice in 0..slices {
            let from = slice * SLICE;
            let to = devices.min(from + SLICE);
            self.sweep(ports, from, to, second)?;
            self.listen(ports, clock, millis)?;
        }
        Ok(())
    }

    /// Makes a turn: needs whose posts stand are passed, each device that is due is brought to the second at which the
    /// turn begins, slice by slice, and after each slice arrivals are served, each at the second of its own.
    pub fn turn<P: Ports, C: Seconds>(
        &mut self,
        ports: &mut P,
        clock: &mut C,
    ) -> Result<(), FleetFault>
        ensures fleet { (s : Scenario) (played : Bool) (before : ℕ → Option Traffic)
            → IsFleet s played before self.old.slots.items self.old.second false (P.told ports.old)
            → IsFleet s played before self.new.slots.items self.new.second (is_err result) (P.told ports.new) }
        ensures passed { ArePassed self.old.slots.items self.new.slots.items self.old.second }
        ensures swept { (s : Scenario) (played : Bool) (before : ℕ → Option Traffic)
            → IsFleet s played before self.old.slots.items self.old.second false (P.told ports.old)
            → OnOk result (AreSwept self.new.slots.items (length self.new.slots.items) self.old.second) }
        ensures fixed { P.fixed ports.new ≡ P.fixed ports.old }
        ensures asked { (read_before asked_before : Option (List ℕ)) (calls : ℕ)
            → AreAsked read_before (C.read clock.old) asked_before (P.asked ports.old) self.old.began
            self.old.second calls
            → AreAsked read_before (C.read clock.new) asked_before (P.asked ports.new) self.new.began
            self.new.second calls }
        ensures heard { (read_before asked_before : Option (List ℕ)) (calls : ℕ)
            → AreAsked read_before (C.read clock.old) asked_before (P.asked ports.old) self.old.began
            self.old.second calls
            → OnOk result (AreAsked read_before (C.read clock.new) asked_before (P.asked ports.new) self.new.began
            self.new.second (calls + 1)) }
        ensures later { self.old.second ≤ self.new.second }
        ensures went { HaveGoneOn self.old.slots.items self.new.slots.items }
        ensures count { length self.new.slots.items ≡ length self.old.slots.items }
    {
        self.pass_needs();
        self.sweep_slices(ports, clock)
    }

    /// Brings each device to the second of the session.
    pub fn finish<P: Ports>(&mut self, ports: &mut P) -> Result<(), FleetFault>
        ensures fleet { (s : Scenario) (played : Bool) (before : ℕ → Option Traffic)
            → IsFleet s played before self.old.slots.items self.old.second false (P.told ports.old)
            → IsFleet s played before self.new.slots.items self.new.second (is_err result) (P.told ports.new) }
        ensures finished { (s : Scenario) (played : Bool) (before : ℕ → Option Traffic)
            → IsFleet s played before self.old.slots.items self.old.second false (P.told ports.old)
            → OnOk result (AreAt self.new.slots.items (length self.new.slots.items) self.new.second) }
        ensures fixed { P.fixed ports.new ≡ P.fixed ports.old }
        ensures asked { AreRead (P.asked ports.old) (P.asked ports.new) [] }
        ensures second { self.new.second ≡ self.old.second }
        ensures began { self.new.began ≡ self.old.began }
        ensures went { HaveGoneOn self.old.slots.items self.new.slots.items }
        ensures count { length self.new.slots.items ≡ length self.old.slots.items }
    {
        let now = self.second;
        for place in 0..self.slots.len() {
            self.slots[place].reach(ports, place, now)?;
        }
        Ok(())
    }

    /// Serves the devices until this second of the session, for at most so many turns, and then brings each to the
    /// second of the session.
    pub fn serve<P: Ports, C: Seconds>(
        &mut self,
        ports: &mut P,
        clock: &mut C,
        turns: u64,
        until: u64,
    ) -> Result<(), FleetFault>
        ensures fleet { (s : Scenario) (played : Bool) (before : ℕ → Option Traffic)
            → IsFleet s played before self.old.slots.items self.old.second false (P.told ports.old)
            → IsFleet s played before self.new.slots.items self.new.second (is_err result) (P.told ports.new) }
        ensures finished { (s : Scenario) (played : Bool) (before : ℕ → Option Traffic)
            → IsFleet s played before self.old.slots.items self.old.second false (P.told ports.old)
            → OnOk result (AreAt self.new.slots.items (length self.new.slots.items) self.new.second) }
        ensures went { HaveGoneOn self.old.slots.items self.new.slots.items }
        ensures fixed { P.fixed ports.new ≡ P.fixed ports.old }
        ensures asked { (read_before asked_before : Option (List ℕ)) (calls : ℕ)
            → AreAsked read_before (C.read clock.old) asked_before (P.asked ports.old) self.old.began
            self.old.second calls
            → AreAsked read_before (C.read clock.new) asked_before (P.asked ports.new) self.new.began
            self.new.second calls }
        ensures stop { (read_before asked_before : Option (List ℕ)) (calls : ℕ)
            → AreAsked read_before (C.read clock.old) asked_before (P.asked ports.old) self.old.began
            self.old.second calls
            → OnOk result ((until ≤ self.new.second) ⊎ AreAsked read_before (C.read clock.new) asked_before
            (P.asked ports.new) self.new.began self.new.second (calls + turns)) }
    {
        for _turn in 0..turns {
            if self.second >= until {
                return self.finish(ports);
            }
            self.turn(ports, clock)?;
        }
        self.finish(ports)
    }
}
