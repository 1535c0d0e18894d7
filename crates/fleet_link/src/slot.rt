//! One device of a fleet: its second, its steps.
ghost use Rattle.std.specs.Prelude.{◌≡◌, ◌≢◌, ◌⊎◌, ◌+◌, ◌^◌, ◌≤◌, ◌<◌, ◌∷◌, ◌++◌, [], ℕ, List, Option, Some, None, Err};
ghost use Rattle.std.specs.Prelude.{IfErr, IfOk, OnErr, OnOk, IsTrue, false, true, is_err, length, min, slice_get};
ghost use Rattle.std.specs.Prelude.{◌-◌, vec_capacity, vec_len};
ghost use Rattle.device_machine.specs.State.{Machine, Shows};
ghost use Rattle.device_machine.specs.Reactions.{flat_after, is_refused, outputs_of};
ghost use Rattle.device_template.specs.Template.{Template};
ghost use Rattle.live_link.specs.Wire.{AreRead};
ghost use Rattle.scenario_image.specs.declared.step.Step.{Step};
ghost use Rattle.scenario_image.specs.declared.step.Step.TheVariants.{Event as event_step};
ghost use Rattle.fleet_link.specs.Playing.{change_at, change_in, changes_of, posts_made, row_state, second_after};
ghost use Rattle.fleet_link.specs.Playing.{is_waiting, is_waiting_for, Change, GoesOn, IsAdvanced, IsFleetStep};
ghost use Rattle.fleet_link.specs.Playing.{IsLaterThan, IsOnTime, IsPassed};
ghost use Rattle.fleet_link.specs.Recorded.{HasRoom};
ghost use Rattle.fleet_link.specs.Traffic.{Carries, ReceivedPacket, Traffic, failed_once, handed_at, no_traffic};
ghost use Rattle.fleet_link.specs.Serving.{heard_at, IsDue, IsServed, IsServing, IsSweptAt};

use crate::ports::Ports;
use crate::recording::Recording;
use crate::row::{PlayedRow, RowState};
use crate::sending::send_all;
use device_machine::{Device, Event, Outputs, StepFault};
use live_link::Packet;
use scenario_image::Step;
use std::alloc::{AllocError, AllocFailed, Global};

/// The most seconds that pass in a step: a day.
const MOST_SECONDS: u64 = 86_400;

/// How a device ended, while others of its fleet go on.
#[derive(Clone, Copy)]
pub enum DeviceEnd {
    /// Its port failed.
    Port,
    /// A tick would have taken its clock past its last second.
    Spent,
    /// No memory was left for a step. This ends the session of all devices.
    Memory,
}

impl From<AllocError> for DeviceEnd {
    ghost use Rattle.std.specs.Prelude.{◌≡◌};
    ghost use Rattle.fleet_link.specs.declared.slot.DeviceEnd.TheVariants.{Memory};

    ghost from_gives = { λ _ e. e ≡ Memory };

    fn from(_e: AllocError) -> DeviceEnd {
        DeviceEnd::Memory
    }
}

impl From<StepFault> for DeviceEnd {
    ghost use Rattle.std.specs.Prelude.{◌≡◌};
    ghost use Rattle.fleet_link.specs.Ends.{end_at};

    ghost from_gives = { λ fault e. e ≡ end_at fault };

    fn from(fault: StepFault) -> DeviceEnd {
        match fault {
            StepFault::Memory => DeviceEnd::Memory,
            StepFault::Spent => DeviceEnd::Spent,
        }
    }
}

/// A device of a fleet.
#[derive(Drop)]
pub struct Slot {
    device: Device,
    /// The second of the session up to which it has stepped.
    second: u64,
    /// The next second in which it sends something by itself, if it does.
    due: Option<u64>,
    /// How it ended; none while it goes on.
    end: Option<DeviceEnd>,
    /// What it does as its row says.
    row: PlayedRow,
    recording: Recording,
}

impl Slot {
    /// A device at second 0.
    pub(crate) fn new(device: Device, row: PlayedRow, recording: Recording) -> Slot
        ensures device { result.device ≡ device }
        ensures second { result.second ≡ 0 }
        ensures end { result.end ≡ None }
        ensures due { IsDue device result.due }
        ensures row { result.row ≡ row }
        ensures recording { result.recording ≡ recording }
    {
        let due = device.due();
        Slot {
            device,
            second: 0,
            due,
            end: None,
            row,
            recording,
        }
    }

    /// How it ended; none while it goes on.
    pub fn end(&self) -> Option<DeviceEnd>
        ensures { result ≡ self.now.end }
    {
        self.end
    }

    /// How its row goes on.
    pub fn row(&self) -> RowState
        ensures { result ≡ row_state self.now.row }
    {
        self.row.state()
    }

    /// Whether all of its steps are recorded.
    pub fn is_recorded(&self) -> bool
        ensures { result ≡ self.now.recording.complete }
    {
        self.recording.is_complete()
    }

    /// Its recorded steps.
    pub fn steps(&self) -> &[Step]
        ensures { result.now ≡ self.now.recording.steps.items }
    {
        self.recording.steps()
    }

    /// Copies of its recorded steps.
    pub(crate) fn copy_steps(&self, alloc: Global) -> Result<Vec<Step>, AllocError>
        ensures { IfOk result (λ steps. steps.items ≡ self.now.recording.steps.items) }
    {
        self.recording.copy_steps(alloc)
    }

    /// Its recorded steps.
    pub(crate) fn into_steps(self) -> Vec<Step>
        ensures { result.items ≡ self.recording.steps.items }
    {
        self.recording.into_steps()
    }

    /// Lets the device react to an event, and makes room to record it.
    #[tactic(auto, using(crate::proofs::Served::accepted))]
    fn react(&mut self, event: &Event) -> Result<Outputs, DeviceEnd>
        ensures taken { IfOk result (λ outputs. is_refused self.old.device event.now ≡ false) }
        ensures shows { IfOk result (λ outputs. (f : Machine) → Shows self.old.device f
            → Shows self.new.device (flat_after f event.now)) }
        ensures output { IfOk result (λ outputs. (f : Machine) → Shows self.old.device f
            → outputs ≡ outputs_of f event.now) }
        ensures refused { IfErr result (λ end. (end ≡ DeviceEnd.Memory)
            ⊎ ((end ≡ DeviceEnd.Spent) × IsTrue (is_refused self.old.device event.now))) }
        ensures recorded { self.new.recording.steps.items ≡ self.old.recording.steps.items }
        ensures share { self.new.recording.share ≡ self.old.recording.share }
        ensures left { self.new.recording.left ≡ self.old.recording.left }
        ensures complete { self.new.recording.complete ≡ self.old.recording.complete }
        ensures room { OnOk result (HasRoom self.new.recording event.now
            → vec_len self.new.recording.steps < vec_capacity self.new.recording.steps) }
        ensures second { self.new.second ≡ self.old.second }
        ensures row { self.new.row ≡ self.old.row }
        ensures due { self.new.due ≡ self.old.due }
        ensures end { self.new.end ≡ self.old.end }
    {
        self.recording.make_room(event)?;
        let outputs = self.device.step(event)?;
        Ok(outputs)
    }

    /// Lets the device take an event, and sends what it outputs. Where it is refused, nothing is sent.
    fn take_event<P: Ports>(
        &mut self,
        ports: &mut P,
        place: usize,
        event: Event,
    ) -> Result<(), DeviceEnd>
        ensures served { (f : Machine) (before : Option Traffic) (rest : List ReceivedPacket) (changes : List Change)
            → IsFleetStep (event_step event)
            → IsServing f before (heard_at self.old.second (event_step event) ++ rest) changes None self.old.device
            self.old.second self.old.recording (P.told ports.old place)
            → OnOk result (IsServing f before rest
            (changes ++ change_at self.old.second (change_in (event_step event))) None self.new.device
            (second_after self.old.second (event_step event)) self.new.recording (P.told ports.new place)) }
        ensures refused { (f : Machine) (before : Option Traffic) (pending : List ReceivedPacket)
            (changes : List Change)
            → IsFleetStep (event_step event)
            → IsServing f before pending changes None self.old.device self.old.second self.old.recording
            (P.told ports.old place)
            → IfErr result (λ end. IsServing f before pending changes (Some end) self.new.device self.old.second
            self.new.recording (P.told ports.new place)) }
        ensures others { (e : ℕ) → e ≢ place → Carries (P.told ports.old e) (P.told ports.new e) no_traffic }
        ensures share { self.new.recording.share ≡ self.old.recording.share }
        ensures fixed { P.fixed ports.new ≡ P.fixed ports.old }
        ensures asked { AreRead (P.asked ports.old) (P.asked ports.new) [] }
        ensures second { self.new.second ≡ self.old.second }
        ensures row { self.new.row ≡ self.old.row }
        ensures due { self.new.due ≡ self.old.due }
        ensures end { self.new.end ≡ self.old.end }
        ensures kind { IfErr result (λ end. end ≢ DeviceEnd.Port) }
    {
        let outputs = self.react(&event)?;
        send_all(ports, place, outputs.as_slice());
        self.recording.note(event);
        Ok(())
    }

    /// Lets seconds pass.
    fn tick<P: Ports>(&mut self, ports: &mut P, place: usize, seconds: u32) -> Result<(), DeviceEnd>
        requires some { 1 ≤ seconds }
        requires few { seconds ≤ 86400 }
        requires fits { self.old.second + seconds < 2 ^ 64 }
        ensures served { (f : Machine) (before : Option Traffic) (pending : List ReceivedPacket) (changes : List Change)
            → IsServing f before pending changes None self.old.device self.old.second self.old.recording
            (P.told ports.old place)
            → OnOk result (IsServing f before pending changes None self.new.device self.new.second self.new.recording
            (P.told ports.new place)) }
        ensures refused { (f : Machine) (before : Option Traffic) (pending : List ReceivedPacket)
            (changes : List Change)
            → IsServing f before pending changes None self.old.device self.old.second self.old.recording
            (P.told ports.old place)
            → IfErr result (λ end. IsServing f before pending changes (Some end) self.new.device self.new.second
            self.new.recording (P.told ports.new place)) }
        ensures others { (e : ℕ) → e ≢ place → Carries (P.told ports.old e) (P.told ports.new e) no_traffic }
        ensures share { self.new.recording.share ≡ self.old.recording.share }
        ensures fixed { P.fixed ports.new ≡ P.fixed ports.old }
        ensures asked { AreRead (P.asked ports.old) (P.asked ports.new) [] }
        ensures second { OnOk result (self.new.second ≡ self.old.second + seconds) }
        ensures left { OnErr result (self.new.second ≡ self.old.second) }
        ensures row { self.new.row ≡ self.old.row }
        ensures due { self.new.due ≡ self.old.due }
        ensures end { self.new.end ≡ self.old.end }
    {
        self.take_event(ports, place, Event::Tick(seconds))?;
        self.second += u64::from(seconds);
        Ok(())
    }

    /// Lets the seconds pass up to this one, at most a day in a step.
    fn pass_to<P: Ports>(&mut self, ports: &mut P, place: usize, now: u64) -> Result<(), DeviceEnd>
        ensures served { (f : Machine) (before : Option Traffic) (pending : List ReceivedPacket) (changes : List Change)
            → IsServing f before pending changes None self.old.device self.old.second self.old.recording
            (P.told ports.old place)
            → OnOk result (IsServing f before pending changes None self.new.device self.new.second self.new.recording
            (P.told ports.new place)) }
        ensures refused { (f : Machine) (before : Option Traffic) (pending : List ReceivedPacket)
            (changes : List Change)
            → IsServing f before pending changes None self.old.device self.old.second self.old.recording
            (P.told ports.old place)
            → IfErr result (λ end. IsServing f before pending changes (Some end) self.new.device self.new.second
            self.new.recording (P.told ports.new place)) }
        ensures others { (e : ℕ) → e ≢ place → Carries (P.told ports.old e) (P.told ports.new e) no_traffic }
        ensures share { self.new.recording.share ≡ self.old.recording.share }
        ensures fixed { P.fixed ports.new ≡ P.fixed ports.old }
        ensures asked { AreRead (P.asked ports.old) (P.asked ports.new) [] }
        ensures second { self.old.second ≤ now → OnOk result (self.new.second ≡ now) }
        ensures most { (most : ℕ) → self.old.second ≤ most → now ≤ most → self.new.second ≤ most }
        ensures row { self.new.row ≡ self.old.row }
        ensures end { self.new.end ≡ self.old.end }
    {
        while self.second < now {
            let seconds = (now - self.second).min(MOST_SECONDS) as u32;
            self.tick(ports, place, seconds)?;
        }
        Ok(())
    }

    /// Makes a change of the row at this second.
    fn change<P: Ports>(
        &mut self,
        ports: &mut P,
        place: usize,
        second: u64,
        event: Event,
    ) -> Result<(), DeviceEnd>
        ensures served { (f : Machine) (before : Option Traffic) (pending : List ReceivedPacket) (changes : List Change)
            → change_in (event_step event) ≡ Some event
            → IsServing f before pending changes None self.old.device self.old.second self.old.recording
            (P.told ports.old place) → self.old.second ≤ second
            → OnOk result (IsServing f before pending (changes ++ change_at second (Some event)) None self.new.device
            self.new.second self.new.recording (P.told ports.new place)) }
        ensures refused { (f : Machine) (before : Option Traffic) (pending : List ReceivedPacket)
            (changes : List Change)
            → change_in (event_step event) ≡ Some event
            → IsServing f before pending changes None self.old.device self.old.second self.old.recording
            (P.told ports.old place)
            → IfErr result (λ end. IsServing f before pending changes (Some end) self.new.device self.new.second
            self.new.recording (P.told ports.new place)) }
        ensures others { (e : ℕ) → e ≢ place → Carries (P.told ports.old e) (P.told ports.new e) no_traffic }
        ensures share { self.new.recording.share ≡ self.old.recording.share }
        ensures fixed { P.fixed ports.new ≡ P.fixed ports.old }
        ensures asked { AreRead (P.asked ports.old) (P.asked ports.new) [] }
        ensures second { self.old.second ≤ second → OnOk result (self.new.second ≡ second) }
        ensures most { (most : ℕ) → self.old.second ≤ most → second ≤ most → self.new.second ≤ most }
        ensures row { self.new.row ≡ self.old.row }
        ensures end { self.new.end ≡ self.old.end }
    {
        self.pass_to(ports, place, second)?;
        self.take_event(ports, place, event)
    }

    /// Makes the next step of the row, which is due at this second.
    fn make_step<P: Ports>(
        &mut self,
        ports: &mut P,
        place: usize,
        due: u64,
    ) -> Result<(), DeviceEnd>
        requires due { row_state self.old.row ≡ RowState.Due due }
        requires within { self.old.row.place < length self.old.row.steps.items }
        ensures served { (f : Machine) (before : Option Traffic) (pending : List ReceivedPacket)
            → IsServing f before pending (changes_of self.old.row) None self.old.device self.old.second
            self.old.recording (P.told ports.old place) → IsOnTime self.old.row self.old.second
            → OnOk result (IsServing f before pending (changes_of self.new.row) None self.new.device self.new.second
            self.new.recording (P.told ports.new place)) }
        ensures on_time { IsOnTime self.old.row self.old.second → OnOk result (IsOnTime self.new.row self.new.second) }
        ensures refused { (f : Machine) (before : Option Traffic) (pending : List ReceivedPacket)
            → IsServing f before pending (changes_of self.old.row) None self.old.device self.old.second
            self.old.recording (P.told ports.old place) → IsOnTime self.old.row self.old.second
            → IfErr result (λ end. IsServing f before pending (changes_of self.new.row) (Some end) self.new.device
            self.new.second self.new.recording (P.told ports.new place)) }
        ensures others { (e : ℕ) → e ≢ place → Carries (P.told ports.old e) (P.told ports.new e) no_traffic }
        ensures share { self.new.recording.share ≡ self.old.recording.share }
        ensures fixed { P.fixed ports.new ≡ P.fixed ports.old }
        ensures asked { AreRead (P.asked ports.old) (P.asked ports.new) [] }
        ensures most { (most : ℕ) → self.old.second ≤ most → due ≤ most → self.new.second ≤ most }
        ensures goes_on { GoesOn due self.old.row self.new.row }
        ensures next { OnOk result ((step : Step) → slice_get self.old.row.steps.items self.old.row.place ≡ Some step
            → IsAdvanced step self.old.row self.new.row) }
        ensures end { self.new.end ≡ self.old.end }
    {
        let Some(event) = self.row.next_change()? else {
            self.row.advance();
            return Ok(());
        };
        self.change(ports, place, due, event)?;
        self.row.advance();
        Ok(())
    }

    /// Lets the seconds pass up to this one, and what the row says happen in them, each step at its second.
    fn catch_up<P: Ports>(&mut self, ports: &mut P, place: usize, now: u64) -> Result<(), DeviceEnd>
        ensures served { (f : Machine) (before : Option Traffic) (pending : List ReceivedPacket)
            → IsServing f before pending (changes_of self.old.row) None self.old.device self.old.second
            self.old.recording (P.told ports.old place) → IsOnTime self.old.row self.old.second
            → OnOk result (IsServing f before pending (changes_of self.new.row) None self.new.device self.new.second
            self.new.recording (P.told ports.new place)) }
        ensures on_time { IsOnTime self.old.row self.old.second → OnOk result (IsOnTime self.new.row self.new.second) }
        ensures refused { (f : Machine) (before : Option Traffic) (pending : List ReceivedPacket)
            → IsServing f before pending (changes_of self.old.row) None self.old.device self.old.second
            self.old.recording (P.told ports.old place) → IsOnTime self.old.row self.old.second
            → IfErr result (λ end. IsServing f before pending (changes_of self.new.row) (Some end) self.new.device
            self.new.second self.new.recording (P.told ports.new place)) }
        ensures others { (e : ℕ) → e ≢ place → Carries (P.told ports.old e) (P.told ports.new e) no_traffic }
        ensures share { self.new.recording.share ≡ self.old.recording.share }
        ensures fixed { P.fixed ports.new ≡ P.fixed ports.old }
        ensures asked { AreRead (P.asked ports.old) (P.asked ports.new) [] }
        ensures second { self.old.second ≤ now → OnOk result (self.new.second ≡ now) }
        ensures most { (most : ℕ) → self.old.second ≤ most → now ≤ most → self.new.second ≤ most }
        ensures goes_on { GoesOn now self.old.row self.new.row }
        ensures later { OnOk result (IsLaterThan now (row_state self.new.row)) }
        ensures end { self.new.end ≡ self.old.end }
    {
        while let Some(due) = self.row.due_by(now) {
            self.make_step(ports, place, due)?;
        }
        self.pass_to(ports, place, now)
    }

    /// Lets the device receive what its port handed out at this second.
    fn take_packet<P: Ports>(
        &mut self,
        ports: &mut P,
        place: usize,
        now: u64,
        packet: Packet,
    ) -> Result<(), DeviceEnd>
        ensures served { (f : Machine) (before : Option Traffic)
            → IsServing f before (record { second = now; packet = packet } ∷ []) (changes_of self.old.row) None
            self.old.device self.old.second self.old.recording (P.told ports.old place)
            → IsOnTime self.old.row self.old.second → self.old.second ≤ now
            → OnOk result (IsServing f before [] (changes_of self.new.row) None self.new.device self.new.second
            self.new.recording (P.told ports.new place)) }
        ensures on_time { IsOnTime self.old.row self.old.second → OnOk result (IsOnTime self.new.row self.new.second) }
        ensures refused { (f : Machine) (before : Option Traffic)
            → IsServing f before (record { second = now; packet = packet } ∷ []) (changes_of self.old.row) None
            self.old.device self.old.second self.old.recording (P.told ports.old place)
            → IsOnTime self.old.row self.old.second
            → IfErr result (λ end. IsServing f before (record { second = now; packet = packet } ∷ [])
            (changes_of self.new.row) (Some end) self.new.device self.new.second self.new.recording
            (P.told ports.new place)) }
        ensures others { (e : ℕ) → e ≢ place → Carries (P.told ports.old e) (P.told ports.new e) no_traffic }
        ensures share { self.new.recording.share ≡ self.old.recording.share }
        ensures fixed { P.fixed ports.new ≡ P.fixed ports.old }
        ensures asked { AreRead (P.asked ports.old) (P.asked ports.new) [] }
        ensures second { self.old.second ≤ now → OnOk result (self.new.second ≡ now) }
        ensures most { (most : ℕ) → self.old.second ≤ most → now ≤ most → self.new.second ≤ most }
        ensures goes_on { GoesOn now self.old.row self.new.row }
        ensures later { OnOk result (IsLaterThan now (row_state self.new.row)) }
        ensures end { self.new.end ≡ self.old.end }
    {
        self.catch_up(ports, place, now)?;
        self.take_event(
            ports,
            place,
            Event::Recv {
                server: packet.server,
                bytes: packet.bytes,
            },
        )
    }

    /// Notes whether the device goes on, and when it is due then. `Err`: no memory was left.
    fn settle(&mut self, taken: Result<(), DeviceEnd>) -> Result<(), AllocError>
        requires { self.old.end ≡ None }
        ensures device { self.new.device ≡ self.old.device }
        ensures second { self.new.second ≡ self.old.second }
        ensures row { self.new.row ≡ self.old.row }
        ensures recording { self.new.recording ≡ self.old.recording }
        ensures ok { OnOk taken ((self.new.end ≡ None) × IsDue self.new.device self.new.due) }
        ensures ended { IfErr taken (λ end. self.new.end ≡ Some end) }
        ensures memory { self.new.end ≡ Some DeviceEnd.Memory → is_err result ≡ true }
    {
        match taken {
            Ok(()) => {
                self.due = self.device.due();
                Ok(())
            }
            Err(end) => {
                self.end = Some(end);
                match end {
                    DeviceEnd::Memory => Err(AllocError),
                    DeviceEnd::Port | DeviceEnd::Spent => Ok(()),
                }
            }
        }
    }

    /// Lets the device receive what its port has just handed out, at this second. One that has ended does not hear it.
    /// `Err`: no memory was left.
    pub(crate) fn hear<P: Ports>(
        &mut self,
        ports: &mut P,
        place: usize,
        now: u64,
        packet: Packet,
    ) -> Result<(), AllocError>
        ensures served { (class : Template) (row : List Step) (before between : Option Traffic)
            → IsServed class row before self.old false between
            → Carries between (P.told ports.old place) (handed_at now packet) → self.old.second ≤ now
            → IsServed class row before self.new (is_err result) (P.told ports.new place) }
        ensures others { (e : ℕ) → e ≢ place → Carries (P.told ports.old e) (P.told ports.new e) no_traffic }
        ensures share { self.new.recording.share ≡ self.old.recording.share }
        ensures fixed { P.fixed ports.new ≡ P.fixed ports.old }
        ensures asked { AreRead (P.asked ports.old) (P.asked ports.new) [] }
        ensures second { self.old.second ≤ now → self.new.end ≡ None → self.new.second ≡ now }
        ensures later { self.new.end ≡ None → IsLaterThan now (row_state self.new.row) }
        ensures goes_on { GoesOn now self.old.row self.new.row }
        ensures most { (most : ℕ) → self.old.second ≤ most → now ≤ most → self.new.second ≤ most }
    {
        match self.end {
            None => {
                let taken = self.take_packet(ports, place, now, packet);
                self.settle(taken)
            }
            Some(_) => Ok(()),
        }
    }

    /// Brings the device to this second. `Err`: no memory was left.
    pub(crate) fn reach<P: Ports>(
        &mut self,
        ports: &mut P,
        place: usize,
        now: u64,
    ) -> Result<(), AllocError>
        ensures served { (class : Template) (row : List Step) (before : Option Traffic)
            → IsServed class row before self.old false (P.told ports.old place)
            → IsServed class row before self.new (is_err result) (P.told ports.new place) }
        ensures others { (e : ℕ) → e ≢ place → Carries (P.told ports.old e) (P.told ports.new e) no_traffic }
        ensures share { self.new.recording.share ≡ self.old.recording.share }
        ensures fixed { P.fixed ports.new ≡ P.fixed ports.old }
        ensures asked { AreRead (P.asked ports.old) (P.asked ports.new) [] }
        ensures second { self.old.second ≤ now → self.new.end ≡ None → self.new.second ≡ now }
        ensures later { self.new.end ≡ None → IsLaterThan now (row_state self.new.row) }
        ensures over { self.old.end ≢ None → self.new ≡ self.old }
        ensures goes_on { GoesOn now self.old.row self.new.row }
        ensures most { (most : ℕ) → self.old.second ≤ most → now ≤ most → self.new.second ≤ most }
    {
        match self.end {
            None => {
                let taken = self.catch_up(ports, place, now);
                self.settle(taken)
            }
            Some(_) => Ok(()),
        }
    }

    /// Whether, at this second or before, it sends something by itself or a step of its row is due.
    fn is_due(&self, now: u64) -> bool
        ensures due { (class : Template) (row : List Step) (before after : Option Traffic)
            → IsServed class row before self.now false after → self.now.end ≡ None → result ≡ true
            → self.now.second ≤ now }
        ensures later { result ≡ false → IsSweptAt self.now now }
    {
        if self.row.due_by(now).is_some() {
            return true;
        }
        match self.due {
            None => false,
            Some(due) => due <= now,
        }
    }

    /// Brings the device to this second, if it is due then or before. `Err`: no memory was left.
    pub(crate) fn sweep<P: Ports>(
        &mut self,
        ports: &mut P,
        place: usize,
        now: u64,
    ) -> Result<(), AllocError>
        ensures served { (class : Template) (row : List Step) (before : Option Traffic)
            → IsServed class row before self.old false (P.told ports.old place)
            → IsServed class row before self.new (is_err result) (P.told ports.new place) }
        ensures others { (e : ℕ) → e ≢ place → Carries (P.told ports.old e) (P.told ports.new e) no_traffic }
        ensures share { self.new.recording.share ≡ self.old.recording.share }
        ensures fixed { P.fixed ports.new ≡ P.fixed ports.old }
        ensures asked { AreRead (P.asked ports.old) (P.asked ports.new) [] }
        ensures goes_on { GoesOn now self.old.row self.new.row }
        ensures most { (most : ℕ) → self.old.second ≤ most → now ≤ most → self.new.second ≤ most }
        ensures swept { (class : Template) (row : List Step) (before : Option Traffic)
            → IsServed class row before self.old false (P.told ports.old place)
            → self.new.end ≡ None → IsSweptAt self.new now }
    {
        if !self.is_due(now) {
            return Ok(());
        }
        self.reach(ports, place, now)
    }

    /// Notes that the port of the device failed.
    pub(crate) fn fail(&mut self)
        ensures served { (class : Template) (row : List Step) (before between after : Option Traffic)
            → IsServed class row before self.old false between → Carries between after failed_once
            → IsServed class row before self.new false after }
        ensures second { self.new.second ≡ self.old.second }
        ensures row { self.new.row ≡ self.old.row }
        ensures share { self.new.recording.share ≡ self.old.recording.share }
        ensures ended { self.new.end ≢ None }
    {
        match self.end {
            None => self.end = Some(DeviceEnd::Port),
            Some(_) => {}
        }
    }

    /// Whether its row waits at a need.
    pub(crate) fn waits(&self) -> bool
        ensures { result ≡ is_waiting (row_state self.now.row) }
    {
        match self.row.state() {
            RowState::Waits(_, _) => true,
            RowState::Due(_) | RowState::Ended => false,
        }
    }

    /// Whether its row waits for posts to this group.
    pub(crate) fn is_waiting(&self, group: u8) -> bool
        ensures { result ≡ is_waiting_for group (row_state self.now.row) }
    {
        match self.row.state() {
            RowState::Waits(other, _) => other == group,
            RowState::Due(_) | RowState::Ended => false,
        }
    }

    /// How many posts to this group its row has made.
    pub(crate) fn posts(&self, group: u8) -> u64
        ensures { result ≡ min (posts_made self.now.row group) (2 ^ 64 - 1) }
    {
        self.row.posts(group)
    }

    /// Passes the need at which its row waits, if it is one to this group, and so many posts to it stand.
    pub(crate) fn pass_need(&mut self, group: u8, posts: u64, now: u64)
        ensures served { (class : Template) (row : List Step) (before after : Option Traffic)
            → IsServed class row before self.old false after → self.old.second ≤ now
            → IsServed class row before self.new false after }
        ensures passed { (self.new.row ≡ self.old.row) ⊎ ((self.old.end ≡ None)
            × IsPassed group posts now self.old.row self.new.row) }
        ensures left { (count second : ℕ) → self.new.row ≡ self.old.row → self.old.end ≡ None
            → row_state self.old.row ≡ RowState.Waits group count → self.old.row.second ≡ Some second → second ≤ now
            → now < second + 2 ^ 32 → posts < count }
        ensures kept { self.new.row ≡ self.old.row → self.new ≡ self.old }
        ensures share { self.new.recording.share ≡ self.old.recording.share }
        ensures second { self.new.second ≡ self.old.second }
        ensures end { self.new.end ≡ self.old.end }
    {
        match self.end {
            None => self.row.pass_need(group, posts, now),
            Some(_) => {}
        }
    }
}
