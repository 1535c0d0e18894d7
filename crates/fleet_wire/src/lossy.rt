//! Ports over a wire: a decorator of ports.
ghost use Rattle.std.specs.Prelude.{◌≡◌, ◌⊎◌, ◌≤◌, ◌<◌, ◌++◌, ◌∷◌, [], ℕ, List, Option, Some, IfOk, OnOk, IsOk};
ghost use Rattle.std.specs.Prelude.{length, false, true};
ghost use Rattle.live_link.specs.Wire.{AreRead};
ghost use Rattle.fleet_link.specs.Traffic.{Carries, Traffic, at_port, no_traffic, sent_all, traffic_of_receipt};
ghost use Rattle.fleet_wire.specs.Lane.{came_by, IsIdle};
ghost use Rattle.fleet_wire.specs.Noting.{taken_in};
ghost use Rattle.fleet_wire.specs.Wire.{asked_by, near_end, told_by, IsQuietUnless, IsWhole, IsWire, IsWired};

use crate::lane::Lane;
use crate::note::{Note, Taken};
use crate::plan::{Direction, Plan};
use crate::wire::{Calls, Wire};
use fleet_link::{Ports, PortsFault, Receipt};
use std::alloc::{AllocError, Global};
use std::snapshot::Snapshot;

/// Sends the next datagram that is to go on, at the second of the wire. The result says whether there was one.
fn send_next<P: Ports>(wire: &mut Wire, ports: &mut P) -> bool
    ensures wired { (plan : Plan) (devices : ℕ) (before : ℕ → Option Traffic)
        → IsWired plan devices before (P.told ports.old) wire.old
        → IsWired plan devices before (P.told ports.new) wire.new }
    ensures idle { result ≡ false → IsIdle wire.old.plan.late_by wire.old.second wire.new.outgoing }
    ensures fewer { result ≡ true
        → length wire.new.outgoing.held.items < length wire.old.outgoing.held.items }
    ensures came { (e : ℕ) → came_by wire.new.outgoing.log e ≡ came_by wire.old.outgoing.log e }
    ensures plan { wire.new.plan ≡ wire.old.plan }
    ensures second { wire.new.second ≡ wire.old.second }
    ensures incoming { wire.new.incoming ≡ wire.old.incoming }
    ensures whole { wire.new.whole ≡ wire.old.whole }
    ensures calls { wire.new.calls ≡ wire.old.calls }
    ensures taken { wire.new.taken ≡ wire.old.taken }
    ensures fixed { P.fixed ports.new ≡ P.fixed ports.old }
    ensures asked { AreRead (P.asked ports.old) (P.asked ports.new) [] }
{
    match wire.outgoing.go(wire.plan.late_by, wire.second) {
        None => false,
        Some(held) => {
            ports.send(
                held.device,
                held.packet.server,
                held.packet.bytes.as_slice(),
            );
            true
        }
    }
}

/// Sends what is to go on, at the second of the wire.
fn send_on<P: Ports>(wire: &mut Wire, ports: &mut P)
    ensures whole_one { (plan : Plan) (devices : ℕ) (before : ℕ → Option Traffic)
        → IsWired plan devices before (P.told ports.old) wire.old
        → IsWhole plan devices before (P.told ports.new) wire.new }
    ensures came { (e : ℕ) → came_by wire.new.outgoing.log e ≡ came_by wire.old.outgoing.log e }
    ensures plan { wire.new.plan ≡ wire.old.plan }
    ensures second { wire.new.second ≡ wire.old.second }
    ensures incoming { wire.new.incoming ≡ wire.old.incoming }
    ensures whole { wire.new.whole ≡ wire.old.whole }
    ensures calls { wire.new.calls ≡ wire.old.calls }
    ensures taken { wire.new.taken ≡ wire.old.taken }
    ensures fixed { P.fixed ports.new ≡ P.fixed ports.old }
    ensures asked { AreRead (P.asked ports.old) (P.asked ports.new) [] }
{
    while send_next(wire, ports) {}
}

/// Ports over a wire.
#[derive(Drop)]
pub struct LossyPorts<P> {
    pub(crate) ports: P,
    pub(crate) wire: Wire,
}

impl<P: Ports> LossyPorts<P> {
    /// Puts a wire on ports, for n devices. Nothing has gone through it yet.
    pub fn new(
        alloc: Global,
        ports: P,
        plan: Plan,
        devices: usize,
    ) -> Result<LossyPorts<P>, AllocError>
    where
        P: Drop,
        ensures wire { IfOk result
            (λ lossy. IsWire plan devices (P.told ports) (P.told lossy.ports) lossy.wire) }
        ensures told { IfOk result (λ lossy. (e : ℕ) → told_by lossy.wire e ≡ Some no_traffic) }
        ensures asked { IfOk result (λ lossy. asked_by lossy.wire ≡ Some []) }
        ensures plan { IfOk result (λ lossy. lossy.wire.plan ≡ plan) }
        ensures taken { IfOk result (λ lossy. taken_in lossy.wire.taken ≡ []) }
        ensures notes { IfOk result (λ lossy. lossy.wire.notes.items ≡ []) }
        ensures ports { IfOk result (λ lossy. lossy.ports ≡ ports) }
    {
        let incoming = Lane::new(alloc, Direction::In, devices)?;
        let outgoing = Lane::new(alloc, Direction::Out, devices)?;
        Ok(LossyPorts {
            ports,
            wire: Wire {
                alloc,
                plan,
                second: 0,
                incoming,
                outgoing,
                whole: true,
                calls: Calls::Begun,
                notes: Vec::new(alloc),
                taken: Taken::Nothing,
            },
        })
    }

    /// What happened to datagrams since this was asked last.
    pub fn take_notes(&mut self) -> Vec<Note>
        ensures notes { result.items ≡ self.old.wire.notes.items }
        ensures left { self.new.wire.notes.items ≡ [] }
        ensures taken { taken_in self.new.wire.taken ≡ taken_in self.old.wire.taken ++ result.items }
        ensures wire { (plan : Plan) (devices : ℕ) (before : ℕ → Option Traffic)
            → IsWire plan devices before (P.told self.old.ports) self.old.wire
            → IsWire plan devices before (P.told self.new.ports) self.new.wire }
        ensures told { (e : ℕ) → told_by self.new.wire e ≡ told_by self.old.wire e }
        ensures asked { asked_by self.new.wire ≡ asked_by self.old.wire }
        ensures plan { self.new.wire.plan ≡ self.old.wire.plan }
        ensures whole { self.new.wire.whole ≡ self.old.wire.whole }
        ensures ports { self.new.ports ≡ self.old.ports }
    {
        let notes = std::mem::replace(&mut self.wire.notes, Vec::new(self.wire.alloc));
        self.wire.taken = Taken::Then(Snapshot::of(&self.wire.taken), Snapshot::of(&notes));
        notes
    }

    /// Asks the ports below, where nothing that waits is to go on.
    fn ask(&mut self, second: u64) -> Result<Receipt, PortsFault>
        requires { self.old.wire.second ≡ second }
        ensures wire { (plan : Plan) (devices : ℕ) (before : ℕ → Option Traffic)
            → IsIdle self.old.wire.plan.late_by second self.old.wire.incoming
            → IsWire plan devices before (P.told self.old.ports) self.old.wire
            → IsWire plan devices before (P.told self.new.ports) self.new.wire }
        ensures told { (e : ℕ) → Carries (told_by self.old.wire e) (told_by self.new.wire e)
            (traffic_of_receipt second result e) }
        ensures asked { asked_by self.new.wire ≡ asked_by self.old.wire }
        ensures fixed { P.fixed self.new.ports ≡ P.fixed self.old.ports }
        ensures asked_below { AreRead (P.asked self.old.ports) (P.asked self.new.ports) (second ∷ []) }
        ensures plan { self.new.wire.plan ≡ self.old.wire.plan }
        ensures taken { self.new.wire.taken ≡ self.old.wire.taken }
        ensures kept { OnOk result (self.new.wire.whole ≡ self.old.wire.whole) }
        ensures prompt { IsIdle self.old.wire.plan.late_by second self.old.wire.incoming
            → IsQuietUnless result (IsIdle self.old.wire.plan.late_by second self.new.wire.incoming) }
    {
        match self.ports.receive(second) {
            Err(fault) => Err(fault),
            Ok(Receipt::Nothing) => Ok(Receipt::Nothing),
            Ok(Receipt::Dropped) => Ok(Receipt::Dropped),
            Ok(Receipt::Failed(device)) => {
                self.wire.calls = Calls::Failed(
                    Snapshot::of(&self.wire.calls),
                    Snapshot::of(&device),
                );
                Ok(Receipt::Failed(device))
            }
            Ok(Receipt::Arrived(arrival)) => self.wire.take_in(arrival),
        }
    }
}

impl<P: Ports> Ports for LossyPorts<P> {
    ghost told = { λ lossy e. told_by lossy.wire e };

    ghost asked = { λ lossy. asked_by lossy.wire };

    ghost Fixed = { P.Fixed };

    ghost fixed = { λ lossy. P.fixed lossy.ports };

    /// It sends what is to go on by now, gives what is to go on to a device, and else asks the ports below. A second
    /// before the last one at which it was asked gives nothing. Where there was no memory for a datagram, it fails.
    fn receive(&mut self, second: u64) -> Result<Receipt, PortsFault>
        ensures told { (e : ℕ) → Carries (told_by self.old.wire e) (told_by self.new.wire e)
            (traffic_of_receipt second result e) }
        ensures asked { AreRead (asked_by self.old.wire) (asked_by self.new.wire) (second ∷ []) }
        ensures fixed { P.fixed self.new.ports ≡ P.fixed self.old.ports }
        ensures wire { (plan : Plan) (devices : ℕ) (before : ℕ → Option Traffic)
            → IsWire plan devices before (P.told self.old.ports) self.old.wire
            → IsWire plan devices before (P.told self.new.ports) self.new.wire }
        ensures plan { self.new.wire.plan ≡ self.old.wire.plan }
        ensures taken { self.new.wire.taken ≡ self.old.wire.taken }
        ensures kept { OnOk result (self.new.wire.whole ≡ self.old.wire.whole) }
        ensures prompt { self.old.wire.second ≤ second
            → IsQuietUnless result (IsIdle self.old.wire.plan.late_by second self.new.wire.incoming) }
        ensures asked_below { self.old.wire.second ≤ second
            → IsQuietUnless result (AreRead (P.asked self.old.ports) (P.asked self.new.ports) (second ∷ [])) }
    {
        self.wire.calls = Calls::Asked(Snapshot::of(&self.wire.calls), Snapshot::of(&second));
        if !self.wire.whole {
            return Err(PortsFault::Memory);
        }
        if second < self.wire.second {
            return Ok(Receipt::Nothing);
        }
        self.wire.second = second;
        send_on(&mut self.wire, &mut self.ports);
        match self.wire.hand_out() {
            Some(arrival) => Ok(Receipt::Arrived(arrival)),
            None => self.ask(second),
        }
    }

    /// What a device sends comes to the wire, and what is to go on then is sent. Where there is no memory for it, it is
    /// sent at once, and the wire tells no more.
    fn send(&mut self, device: usize, server: u16, bytes: &[u8])
        ensures told { (e : ℕ) → Carries (told_by self.old.wire e) (told_by self.new.wire e)
            (at_port device e (sent_all (record { server = server; bytes = bytes.now } ∷ []))) }
        ensures asked { AreRead (asked_by self.old.wire) (asked_by self.new.wire) [] }
        ensures fixed { P.fixed self.new.ports ≡ P.fixed self.old.ports }
        ensures wire { (plan : Plan) (devices : ℕ) (before : ℕ → Option Traffic)
            → IsWire plan devices before (P.told self.old.ports) self.old.wire
            → IsWire plan devices before (P.told self.new.ports) self.new.wire }
        ensures plan { self.new.wire.plan ≡ self.old.wire.plan }
        ensures taken { self.new.wire.taken ≡ self.old.wire.taken }
    {
        match self.wire.take_out(device, server, bytes) {
            Ok(()) => send_on(&mut self.wire, &mut self.ports),
            Err(_) => {
                self.wire.whole = false;
                self.ports.send(device, server, bytes);
            }
        }
    }

    /// It waits on the ports below, unless something is to go on to a device now.
    fn wait(&mut self, millis: u32) -> Result<(), PortsFault>
        ensures told { (e : ℕ) → Carries (told_by self.old.wire e) (told_by self.new.wire e) no_traffic }
        ensures asked { AreRead (asked_by self.old.wire) (asked_by self.new.wire) [] }
        ensures fixed { P.fixed self.new.ports ≡ P.fixed self.old.ports }
        ensures wire { (plan : Plan) (devices : ℕ) (before : ℕ → Option Traffic)
            → IsWire plan devices before (P.told self.old.ports) self.old.wire
            → IsWire plan devices before (P.told self.new.ports) self.new.wire }
        ensures same { self.new.wire ≡ self.old.wire }
        ensures ready { IsIdle self.old.wire.plan.late_by self.old.wire.second self.old.wire.incoming
            ⊎ (IsOk result × (self.new ≡ self.old)) }
    {
        if self
            .wire
            .incoming
            .is_ready(self.wire.plan.late_by, self.wire.second)
        {
            return Ok(());
        }
        self.ports.wait(millis)
    }
}
