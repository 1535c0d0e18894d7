//! What ports do that keep what goes through them.

use crate::shown::Shown;
use crate::shown_ports::ShownPorts;
use crate::tape::Tape;
use fleet_link::{Ports, PortsFault, Receipt};
use std::alloc::Global;
use std::snapshot::Snapshot;

impl<P: Ports> ShownPorts<P> {
    ghost use Rattle.std.specs.Prelude.{◌≡◌, ◌++◌, [], true};
    ghost use Rattle.fleet_lines.specs.Shown.{AreShown, all_shown, taken_shown};

    /// Keeps what goes through these ports from now on.
    pub fn new(alloc: Global, ports: P) -> ShownPorts<P>
        ensures ports { result.ports ≡ ports }
        ensures began { result.began.value ≡ ports }
        ensures second { result.tape.second ≡ 0 }
        ensures shown { result.tape.shown.items ≡ [] }
        ensures taken { taken_shown result.tape.taken ≡ [] }
        ensures whole { result.tape.whole ≡ true }
    {
        let began = Snapshot::of(&ports);
        ShownPorts {
            ports,
            began,
            tape: Tape::new(alloc),
        }
    }

    /// Whether there was memory for each datagram. Then what was taken and what is kept are all that the other ports
    /// handed out and sent since they are shown.
    pub fn is_whole(&self) -> bool
        ensures whole { result ≡ self.now.tape.whole }
        ensures shown { result ≡ true
            → ∥ AreShown (P.told self.now.began.value) (P.told self.now.ports) (all_shown self.now.tape) ∥₁ }
    {
        self.tape.whole
    }

    /// What has gone through the ports since this was asked last, in order.
    pub fn take_shown(&mut self) -> Vec<Shown>
        ensures shown { result.items ≡ self.old.tape.shown.items }
        ensures left { self.new.tape.shown.items ≡ [] }
        ensures taken { taken_shown self.new.tape.taken ≡ taken_shown self.old.tape.taken ++ result.items }
        ensures second { self.new.tape.second ≡ self.old.tape.second }
        ensures whole { self.new.tape.whole ≡ self.old.tape.whole }
        ensures began { self.new.began ≡ self.old.began }
        ensures ports { self.new.ports ≡ self.old.ports }
    {
        self.tape.take()
    }
}

impl<P: Ports> Ports for ShownPorts<P> {
    ghost use Rattle.std.specs.Prelude.{◌≡◌, ◌++◌, ◌∷◌, [], ℕ, OnErr, OnOk, false, true};
    ghost use Rattle.live_link.specs.Wire.{AreRead};
    ghost use Rattle.fleet_link.specs.Traffic.{Carries, at_port, no_traffic, sent_all, traffic_of_receipt};
    ghost use Rattle.fleet_wire.specs.declared.plan.Direction.TheVariants.{Out};
    ghost use Rattle.fleet_lines.specs.Shown.{FixedShown, fixed_with, shown_by_result, while_whole};

    ghost told = { λ shown e. while_whole shown.tape.whole (P.told shown.ports e) };

    ghost asked = { λ shown. while_whole shown.tape.whole (P.asked shown.ports) };

    ghost Fixed = { FixedShown P.Fixed };

    ghost fixed = { λ shown. fixed_with (P.told shown.began.value) shown.tape (P.fixed shown.ports) };

    /// It asks the other ports, and keeps what they give. Where there was no memory for a datagram, it fails.
    fn receive(&mut self, second: u64) -> Result<Receipt, PortsFault>
        ensures told { (e : ℕ) → Carries (while_whole self.old.tape.whole (P.told self.old.ports e))
            (while_whole self.new.tape.whole (P.told self.new.ports e)) (traffic_of_receipt second result e) }
        ensures asked { AreRead (while_whole self.old.tape.whole (P.asked self.old.ports))
            (while_whole self.new.tape.whole (P.asked self.new.ports)) (second ∷ []) }
        ensures fixed { fixed_with (P.told self.new.began.value) self.new.tape (P.fixed self.new.ports)
            ≡ fixed_with (P.told self.old.began.value) self.old.tape (P.fixed self.old.ports) }
        ensures shown { OnOk result (self.new.tape.shown.items
            ≡ self.old.tape.shown.items ++ shown_by_result second result) }
        ensures left { OnErr result (self.new.tape.shown.items ≡ self.old.tape.shown.items) }
        ensures lacking { self.old.tape.whole ≡ false → result ≡ Err PortsFault.Memory }
        ensures second { OnOk result (self.new.tape.second ≡ second) }
        ensures kept { OnOk result (self.new.tape.whole ≡ true) }
    {
        if !self.tape.whole {
            return Err(PortsFault::Memory);
        }
        match self.ports.receive(second) {
            Err(fault) => Err(fault),
            Ok(receipt) => self.tape.hear(second, receipt),
        }
    }

    /// It keeps what is sent, if there is memory for it, and the other ports send it.
    fn send(&mut self, device: usize, server: u16, bytes: &[u8])
        ensures told { (e : ℕ) → Carries (while_whole self.old.tape.whole (P.told self.old.ports e))
            (while_whole self.new.tape.whole (P.told self.new.ports e))
            (at_port device e (sent_all (record { server = server; bytes = bytes.now } ∷ []))) }
        ensures asked { AreRead (while_whole self.old.tape.whole (P.asked self.old.ports))
            (while_whole self.new.tape.whole (P.asked self.new.ports)) [] }
        ensures fixed { fixed_with (P.told self.new.began.value) self.new.tape (P.fixed self.new.ports)
            ≡ fixed_with (P.told self.old.began.value) self.old.tape (P.fixed self.old.ports) }
        ensures shown { self.new.tape.whole ≡ true
            → self.new.tape.shown.items ≡ self.old.tape.shown.items ++ (record {
              second = self.old.tape.second;
              device = device;
              direction = Out;
              packet = record { server = server; bytes = bytes.now };
            }) ∷ [] }
        ensures second { self.new.tape.second ≡ self.old.tape.second }
        ensures kept { self.new.tape.whole ≡ true → self.old.tape.whole ≡ true }
    {
        self.tape.send(device, server, bytes);
        self.ports.send(device, server, bytes);
    }

    fn wait(&mut self, millis: u32) -> Result<(), PortsFault>
        ensures told { (e : ℕ) → Carries (while_whole self.old.tape.whole (P.told self.old.ports e))
            (while_whole self.new.tape.whole (P.told self.new.ports e)) no_traffic }
        ensures asked { AreRead (while_whole self.old.tape.whole (P.asked self.old.ports))
            (while_whole self.new.tape.whole (P.asked self.new.ports)) [] }
        ensures fixed { fixed_with (P.told self.new.began.value) self.new.tape (P.fixed self.new.ports)
            ≡ fixed_with (P.told self.old.began.value) self.old.tape (P.fixed self.old.ports) }
        ensures same { self.new.tape ≡ self.old.tape }
    {
        self.ports.wait(millis)
    }
}
