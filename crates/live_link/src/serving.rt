//! A device that is served: what arrives on a wire is what it receives, and the seconds of a clock are its ticks.
ghost use Rattle.std.specs.Prelude.{◌≡◌, ◌⊎◌, ◌+◌, ◌≤◌, ◌∷◌, ◌++◌, [], ℕ, List, Option, Some, Err};
ghost use Rattle.std.specs.Prelude.{IfErr, IfOk, OnErr, OnOk, IsTrue, false, unwrap_or, vec_capacity, vec_len};
ghost use Rattle.device_machine.specs.State.{Device, Machine, Shows};
ghost use Rattle.device_machine.specs.Reactions.{flat_after, is_refused, outputs_of};
ghost use Rattle.scenario_image.specs.declared.step.Step.TheVariants.{Event as event_step};
ghost use Rattle.live_link.specs.declared.packet.Packet.{Packet};
ghost use Rattle.live_link.specs.Wire.{Traffic};
ghost use Rattle.live_link.specs.Live.{heard_steps, packets_in, tick_steps, IsLiveStep};
ghost use Rattle.live_link.specs.Served.{IsSession};
ghost use Rattle.live_link.specs.Serving.{passed_at, IsBroken, IsServing, IsStepEnd, IsUnderWay};

use crate::packet::Packet;
use crate::seconds::Seconds;
use crate::sending::{packets_of, send_all};
use crate::session::{LiveEnd, LiveSession};
use crate::wire::{Wire, WireFault};
use device_machine::{Device, Event};
use scenario_image::Step;
use std::alloc::Global;

/// The most seconds that pass at once: a day.
const MOST_SECONDS: u64 = 86_400;

/// A device that is served.
#[derive(Drop)]
struct Serving {
    alloc: Global,
    device: Device,
    /// The second of the clock up to which seconds have passed; none before the first reading.
    counted: Option<u64>,
    steps: Vec<Step>,
    sent: Vec<Packet>,
}

/// The seconds that pass at a reading, and the second up to which they have passed then.
fn pass_seconds(counted: Option<u64>, now: u64) -> (u32, u64)
    ensures seconds { result.0 ≡ passed_at counted now }
    ensures counted { result.1 ≡ unwrap_or counted now + result.0 }
{
    let counted = counted.unwrap_or(now);
    let seconds = now.saturating_sub(counted).min(MOST_SECONDS);
    (seconds as u32, counted + seconds)
}

impl Serving {
    /// Lets the device take an event. The datagrams that it outputs are given, and there is room to note them. A step
    /// for which no memory was left is not among the steps.
    #[tactic(auto, using(crate::proofs::Served::accepted))]
    fn step(&mut self, event: Event) -> Result<Vec<Packet>, LiveEnd>
        ensures taken { IfOk result (λ packets. is_refused self.old.device event ≡ false) }
        ensures shows { IfOk result (λ packets. (f : Machine) → Shows self.old.device f
            → Shows self.new.device (flat_after f event)) }
        ensures output { IfOk result (λ packets. (f : Machine) → Shows self.old.device f
            → packets.items ≡ packets_in (outputs_of f event)) }
        ensures noted { OnOk result (self.new.steps.items ≡ self.old.steps.items ++ event_step event ∷ []) }
        ensures room { IfOk result (λ packets. vec_len self.new.sent + vec_len packets
            ≤ vec_capacity self.new.sent) }
        ensures refused { IfErr result (λ end. (end ≡ LiveEnd.Memory)
            ⊎ ((end ≡ LiveEnd.Spent) × IsTrue (is_refused self.old.device event))) }
        ensures unnoted { OnErr result (self.new.steps.items ≡ self.old.steps.items) }
        ensures sent { self.new.sent.items ≡ self.old.sent.items }
        ensures counted { self.new.counted ≡ self.old.counted }
    {
        self.steps.reserve(1)?;
        let outputs = self.device.step(&event)?;
        let packets = packets_of(self.alloc, outputs.as_slice())?;
        self.sent.reserve(packets.len())?;
        self.steps.push_reserved(Step::Event(event));
        Ok(packets)
    }

    /// Lets the device take an event, and sends what it outputs.
    fn take_event<W: Wire>(&mut self, wire: &mut W, event: Event) -> Result<(), LiveEnd>
        ensures serving { (first : Device) (before : Option Traffic) (received : List (Option Packet))
            → IsServing first before received self.old.device self.old.steps.items self.old.sent.items
            (W.told wire.old) → IsLiveStep (event_step event) → OnOk result (IsServing first before received
            self.new.device self.new.steps.items self.new.sent.items (W.told wire.new)) }
        ensures noted { OnOk result (self.new.steps.items ≡ self.old.steps.items ++ event_step event ∷ []) }
        ensures cut { (first : Device) (before : Option Traffic) (received : List (Option Packet))
            → IsServing first before received self.old.device self.old.steps.items self.old.sent.items
            (W.told wire.old) → IsLiveStep (event_step event) → IfErr result (λ end. IsBroken end first before
            received (self.old.steps.items ++ event_step event ∷ []) self.new.steps.items self.new.sent.items
            (W.told wire.new)) }
        ensures at_step { IfErr result IsStepEnd }
        ensures counted { self.new.counted ≡ self.old.counted }
    {
        let packets = self.step(event)?;
        send_all(wire, &mut self.sent, packets)
    }

    /// Lets the seconds pass that the clock counted since they last passed.
    fn pass<W: Wire>(&mut self, wire: &mut W, now: u64) -> Result<(), LiveEnd>
        ensures serving { (first : Device) (before : Option Traffic) (received : List (Option Packet))
            → IsServing first before received self.old.device self.old.steps.items self.old.sent.items
            (W.told wire.old) → OnOk result (IsServing first before received self.new.device self.new.steps.items
            self.new.sent.items (W.told wire.new)) }
        ensures noted { OnOk result (self.new.steps.items
            ≡ self.old.steps.items ++ tick_steps (passed_at self.old.counted now)) }
        ensures cut { (first : Device) (before : Option Traffic) (received : List (Option Packet))
            → IsServing first before received self.old.device self.old.steps.items self.old.sent.items
            (W.told wire.old) → IfErr result (λ end. IsBroken end first before received
            (self.old.steps.items ++ tick_steps (passed_at self.old.counted now)) self.new.steps.items
            self.new.sent.items (W.told wire.new)) }
        ensures at_step { IfErr result IsStepEnd }
        ensures counted { self.new.counted
            ≡ Some (unwrap_or self.old.counted now + passed_at self.old.counted now) }
    {
        let (seconds, counted) = pass_seconds(self.counted, now);
        self.counted = Some(counted);
        if seconds == 0 {
            return Ok(());
        }
        self.take_event(wire, Event::Tick(seconds))
    }

    /// Lets the device receive what the wire handed out by its last call.
    fn take_packet<W: Wire>(&mut self, wire: &mut W, packet: Packet) -> Result<(), LiveEnd>
        ensures serving { (first : Device) (before : Option Traffic) (received : List (Option Packet))
            → IsServing first before received self.old.device self.old.steps.items self.old.sent.items
            (W.told wire.old) → OnOk result (IsServing first before received self.new.device self.new.steps.items
            self.new.sent.items (W.told wire.new)) }
        ensures noted { OnOk result (self.new.steps.items ≡ self.old.steps.items ++ heard_steps (Some packet)) }
        ensures cut { (first : Device) (before : Option Traffic) (received : List (Option Packet))
            → IsServing first before received self.old.device self.old.steps.items self.old.sent.items
            (W.told wire.old) → IfErr result (λ end. IsBroken end first before received
            (self.old.steps.items ++ heard_steps (Some packet)) self.new.steps.items self.new.sent.items
            (W.told wire.new)) }
        ensures counted { self.new.counted ≡ self.old.counted }
    {
        self.take_event(
            wire,
            Event::Recv {
                server: packet.server,
                bytes: packet.bytes,
            },
        )
    }

    /// Receives once.
    fn hear<W: Wire>(&mut self, wire: &mut W) -> Result<(), LiveEnd>
        ensures serving { (first : Device) (before : Option Traffic) (received : List (Option Packet))
            → IsServing first before received self.old.device self.old.steps.items self.old.sent.items
            (W.told wire.old) → OnOk result ((heard : Option Packet)
            × IsServing first before (received ++ heard ∷ []) self.new.device self.new.steps.items
            self.new.sent.items (W.told wire.new)
            × (self.new.steps.items ≡ self.old.steps.items ++ heard_steps heard)) }
        ensures cut { (first : Device) (before : Option Traffic) (received : List (Option Packet))
            → IsServing first before received self.old.device self.old.steps.items self.old.sent.items
            (W.told wire.old) → IfErr result (λ end. (heard : Option Packet)
            × IsBroken end first before (received ++ heard ∷ [])
            (self.old.steps.items ++ heard_steps heard) self.new.steps.items self.new.sent.items
            (W.told wire.new)) }
        ensures counted { self.new.counted ≡ self.old.counted }
    {
        match wire.receive() {
            Ok(None) => Ok(()),
            Ok(Some(packet)) => self.take_packet(wire, packet),
            Err(WireFault::Failed) => Err(LiveEnd::ReceiveFault),
            Err(WireFault::Memory) => Err(LiveEnd::Memory),
        }
    }

    /// Makes a turn: seconds pass, and then a datagram is received, if one has arrived.
    fn turn<W: Wire, C: Seconds>(&mut self, wire: &mut W, clock: &mut C) -> Result<(), LiveEnd>
        ensures under_way { (first : Device) (before : Option Traffic) (read_before : Option (List ℕ)) (turns : ℕ)
            → IsUnderWay first before read_before turns self.old.device self.old.counted self.old.steps.items
            self.old.sent.items (W.told wire.old) (C.read clock.old)
            → OnOk result (IsUnderWay first before read_before (turns + 1) self.new.device self.new.counted
            self.new.steps.items self.new.sent.items (W.told wire.new) (C.read clock.new)) }
        ensures over { (first : Device) (before : Option Traffic) (read_before : Option (List ℕ)) (turns most : ℕ)
            → IsUnderWay first before read_before turns self.old.device self.old.counted self.old.steps.items
            self.old.sent.items (W.told wire.old) (C.read clock.old) → turns + 1 ≤ most
            → IfErr result (λ end. IsSession (Shows first) first.spent most end self.new.steps.items
            self.new.sent.items before (W.told wire.new) read_before (C.read clock.new)) }
    {
        let now = clock.now();
        self.pass(wire, now)?;
        self.hear(wire)
    }

    fn into_session(self, end: LiveEnd) -> LiveSession
        ensures steps { result.steps.items ≡ self.steps.items }
        ensures sent { result.sent.items ≡ self.sent.items }
        ensures end { result.end ≡ end }
    {
        LiveSession {
            steps: self.steps,
            sent: self.sent,
            end,
        }
    }
}

/// Puts a device on a wire, for n turns: in each the clock is read, the seconds that passed are a tick of the device,
/// and what has then arrived on the wire is received. What the device outputs is sent before the next step. Over every
/// wire and clock that keeps the contract of its trait, the steps, what was sent and the end are a session
/// (`IsSession`):
///
/// - What was sent is what the wire took in during the call, in order, and is what the steps output; where `send`
///   failed or had no memory, all before the datagram that failed, and no later step was made.
/// - The steps are those of the turns, one turn for each reading of the clock: the seconds that passed, and then what
///   the call of `receive` after it gave; in the last turn that call may not have been made. A step that was refused,
///   or for which no memory was left, is not among them, and nothing of it was sent.
/// - The seconds of a turn are those from the first reading to its own, without those that have passed before, and at
///   most a day; where the clock goes back none passes until it is beyond what was counted.
/// - At `Turns` the clock was read and the wire asked exactly as often as there were turns. `ReceiveFault` and
///   `SendFault` come only if the wire failed, and `Spent` only if the device was spent at the call, or the tick that
///   was due would take its clock past 2^63 - 1.
pub fn serve<W: Wire, C: Seconds>(
    alloc: Global,
    wire: &mut W,
    clock: &mut C,
    device: Device,
    turns: u32,
) -> LiveSession
    ensures { IsSession (Shows device) device.spent turns result.end result.steps.items result.sent.items
        (W.told wire.old) (W.told wire.new) (C.read clock.old) (C.read clock.new) }
{
    let mut serving = Serving {
        alloc,
        device,
        counted: None,
        steps: Vec::new(alloc),
        sent: Vec::new(alloc),
    };
    for _turn in 0..turns {
        match serving.turn(wire, clock) {
            Ok(()) => {}
            Err(end) => return serving.into_session(end),
        }
    }
    serving.into_session(LiveEnd::Turns)
}
