//! What ports over UDP do with a wire on them.

use crate::happened::Happened;
use crate::lossy::LossyPorts;
use crate::note::Note;
use crate::plan::Plan;
use crate::wired::WiredPorts;
use fleet_link::{Counts, Ports, PortsFault, Receipt, UdpPorts};
use std::alloc::{AllocError, Global};

impl WiredPorts {
    ghost use Rattle.std.specs.Prelude.{◌≡◌, ◌++◌, [], ℕ, Some, IfOk, true};
    ghost use Rattle.fleet_link.specs.Counting.{AreCountsOf};
    ghost use Rattle.fleet_link.specs.Traffic.{no_traffic};
    ghost use Rattle.fleet_link.specs.Udp.{asked_over_udp, fixed_over_udp, told_over_udp};
    ghost use Rattle.fleet_wire.specs.Happened.{happened_in};
    ghost use Rattle.fleet_wire.specs.Over.{new_ports, IsOverWire};
    ghost use Rattle.fleet_wire.specs.Wire.{asked_by, near_end, told_by};
    ghost use Rattle.fleet_wire.specs.Wired.{carried_under, fixed_on};

    /// Puts a wire with a plan on new ports of n devices.
    pub fn new(
        alloc: Global,
        ports: UdpPorts,
        plan: Plan,
        devices: usize,
    ) -> Result<WiredPorts, AllocError>
        requires { (e : ℕ) → told_over_udp ports e ≡ Some no_traffic }
        ensures told { IfOk result (λ wired. (e : ℕ) → told_by wired.lossy.wire e ≡ Some no_traffic) }
        ensures asked { IfOk result (λ wired. asked_by wired.lossy.wire ≡ Some []) }
        ensures fixed { IfOk result (λ wired. fixed_on wired ≡ record {
          plan = plan;
          devices = devices;
          taken = [];
          servers = fixed_over_udp ports;
        }) }
        ensures notes { IfOk result (λ wired. wired.lossy.wire.notes.items ≡ []) }
    {
        let lossy = LossyPorts::new(alloc, ports, plan, devices)?;
        Ok(WiredPorts {
            lossy,
            devices,
            happened: Happened::nothing(),
        })
    }

    /// How many datagrams went through the ports below the wire.
    pub fn counts(&self) -> Counts
        ensures counts { result ≡ self.now.lossy.ports.tally.counts }
        ensures counted { AreCountsOf (λ e. Some (carried_under self.now e)) result }
    {
        self.lossy.ports.counts()
    }

    /// Whether there was memory for each datagram. Then devices received and sent what the wire, by its plan, made of
    /// what the ports carried, and each datagram that did not just go on has its note.
    pub fn is_whole(&self) -> bool
        ensures whole { result ≡ self.now.lossy.wire.whole }
        ensures told { result ≡ true
            → (e : ℕ) → told_by self.now.lossy.wire e ≡ Some (near_end self.now.lossy.wire e) }
        ensures over { result ≡ true → ∥ IsOverWire self.now.lossy.wire.plan self.now.devices
            ((fixed_on self.now).taken ++ self.now.lossy.wire.notes.items) (carried_under self.now)
            (near_end self.now.lossy.wire) ∥₁ }
    {
        self.lossy.wire.whole
    }

    /// What happened to datagrams since this was asked last.
    pub fn take_notes(&mut self) -> Vec<Note>
        ensures notes { result.items ≡ self.old.lossy.wire.notes.items }
        ensures left { self.new.lossy.wire.notes.items ≡ [] }
        ensures fixed { fixed_on self.new
            ≡ record (fixed_on self.old) { taken = (fixed_on self.old).taken ++ result.items } }
        ensures told { (e : ℕ) → told_by self.new.lossy.wire e ≡ told_by self.old.lossy.wire e }
        ensures asked { asked_by self.new.lossy.wire ≡ asked_by self.old.lossy.wire }
        ensures whole { self.new.lossy.wire.whole ≡ self.old.lossy.wire.whole }
        ensures ports { self.new.lossy.ports ≡ self.old.lossy.ports }
    {
        let notes = self.lossy.take_notes();
        self.happened.add_all(notes.as_slice());
        notes
    }

    /// How often the wire did what, by the notes that were taken.
    pub fn happened(&self) -> Happened
        ensures { result ≡ happened_in (fixed_on self.now).taken }
    {
        self.happened
    }
}

impl Ports for WiredPorts {
    ghost use Rattle.std.specs.Prelude.{◌≡◌, ◌∷◌, [], ℕ, OnOk};
    ghost use Rattle.live_link.specs.Wire.{AreRead};
    ghost use Rattle.fleet_link.specs.Traffic.{Carries, no_traffic, traffic_of_receipt};
    ghost use Rattle.fleet_wire.specs.Over.{FixedWire as OnWire};
    ghost use Rattle.fleet_wire.specs.Wire.{asked_by, told_by};
    ghost use Rattle.fleet_wire.specs.Wired.{fixed_on};

    ghost told = { λ wired e. told_by wired.lossy.wire e };

    ghost asked = { λ wired. asked_by wired.lossy.wire };

    ghost Fixed = { OnWire };

    ghost fixed = { λ wired. fixed_on wired };

    /// Where it gives something, or nothing, the wire is whole if it was.
    fn receive(&mut self, second: u64) -> Result<Receipt, PortsFault>
        ensures told { (e : ℕ) → Carries (told_by self.old.lossy.wire e) (told_by self.new.lossy.wire e)
            (traffic_of_receipt second result e) }
        ensures fixed { fixed_on self.new ≡ fixed_on self.old }
        ensures asked { AreRead (asked_by self.old.lossy.wire) (asked_by self.new.lossy.wire) (second ∷ []) }
        ensures kept { OnOk result (self.new.lossy.wire.whole ≡ self.old.lossy.wire.whole) }
    {
        self.lossy.receive(second)
    }

    fn send(&mut self, device: usize, server: u16, bytes: &[u8]) {
        self.lossy.send(device, server, bytes);
    }

    fn wait(&mut self, millis: u32) -> Result<(), PortsFault>
        ensures told { (e : ℕ) → Carries (told_by self.old.lossy.wire e) (told_by self.new.lossy.wire e) no_traffic }
        ensures fixed { fixed_on self.new ≡ fixed_on self.old }
        ensures asked { AreRead (asked_by self.old.lossy.wire) (asked_by self.new.lossy.wire) [] }
        ensures same { self.new.lossy.wire ≡ self.old.lossy.wire }
    {
        self.lossy.wait(millis)
    }
}
