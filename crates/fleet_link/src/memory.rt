//! Ports in memory, for tests: they do what a script says, and tell what they did.
ghost use Rattle.std.specs.Prelude.{◌≡◌, ◌∷◌, ◌++◌, [], ℕ, List, drop, IsOk, OnOk, Ok, Some, IfSome, true};
ghost use Rattle.live_link.specs.declared.packet.Packet.{Packet};
ghost use Rattle.live_link.specs.Wire.{AreRead};
ghost use Rattle.fleet_link.specs.Traffic.{Carries, at_port, no_traffic, sent_all, traffic_of_receipt};
ghost use Rattle.fleet_link.specs.Memory.{asked_by, given_first, script_of, sent_in, told_by};

use crate::ports::{Ports, PortsFault, Receipt};
use live_link::Packet;
use octets::Bytes;
use std::alloc::{AllocError, Global};
use std::snapshot::Snapshot;
use std::vec::IntoIter;

/// The calls of `receive`, one after another. It takes no memory: contracts alone see the calls before.
#[derive(Drop)]
pub(crate) enum Calls {
    Begun,
    /// After these calls `receive` was asked at this second, and gave this.
    Received(Snapshot<Calls>, Snapshot<u64>, Snapshot<Result<Receipt, PortsFault>>),
}

/// A datagram that a device sent.
#[derive(Drop)]
pub struct Sending {
    /// The place of the device in its fleet.
    pub device: usize,
    pub packet: Packet,
}

/// Ports in memory.
#[derive(Drop)]
pub struct ScriptedPorts {
    alloc: Global,
    /// What the next calls of `receive` give, one after another; after them, nothing has arrived.
    script: IntoIter<Result<Receipt, PortsFault>, Global>,
    sent: Vec<Sending>,
    /// Whether there was memory for all that was sent. Ports for which there was none tell no more.
    whole: bool,
    calls: Calls,
}

impl ScriptedPorts {
    /// Ports that receive what the script says. No call of them was made yet.
    pub fn new(alloc: Global, script: Vec<Result<Receipt, PortsFault>>) -> ScriptedPorts
        ensures told { (e : ℕ) → told_by result e ≡ Some no_traffic }
        ensures asked { asked_by result ≡ Some [] }
        ensures script { script_of result ≡ script.items }
    {
        ScriptedPorts {
            alloc,
            script: script.into_iter(),
            sent: Vec::new(alloc),
            whole: true,
            calls: Calls::Begun,
        }
    }

    /// What was sent, by all devices, in order; none where memory was lacking for some of it.
    pub fn sent(&self) -> Option<&[Sending]>
        ensures { IfSome result (λ sent. (e : ℕ) → IfSome (told_by self.now e) (λ traffic.
            traffic.sent ≡ sent_in sent.now e)) }
    {
        if !self.whole {
            return None;
        }
        Some(self.sent.as_slice())
    }

    /// Notes a datagram that is sent.
    fn note_sent(&mut self, device: usize, server: u16, bytes: &[u8]) -> Result<(), AllocError>
        ensures noted { OnOk result (self.new.sent.items ≡ self.old.sent.items ++ record {
          device = device;
          packet = record { server = server; bytes = bytes.now };
        } ∷ []) }
        ensures calls { self.new.calls ≡ self.old.calls }
        ensures script { self.new.script ≡ self.old.script }
        ensures whole { self.new.whole ≡ self.old.whole }
    {
        let bytes = Bytes::from_slice(self.alloc, bytes)?;
        self.sent.push(Sending {
            device,
            packet: Packet { server, bytes },
        })?;
        Ok(())
    }
}

impl Ports for ScriptedPorts {
    ghost told = { λ ports e. told_by ports e };

    ghost asked = { λ ports. asked_by ports };

    ghost fixed = { λ _. [] };

    /// It gives the first item that is left of its script; after the last one, nothing has arrived. It takes no memory.
    fn receive(&mut self, second: u64) -> Result<Receipt, PortsFault>
        ensures told { (e : ℕ) → Carries (told_by self.old e) (told_by self.new e)
            (traffic_of_receipt second result e) }
        ensures asked { AreRead (asked_by self.old) (asked_by self.new) (second ∷ []) }
        ensures given { result ≡ given_first (script_of self.old) }
        ensures script { script_of self.new ≡ drop 1 (script_of self.old) }
        ensures whole { self.new.whole ≡ self.old.whole }
    {
        let given = match self.script.next() {
            Some(given) => given,
            None => Ok(Receipt::Nothing),
        };
        self.calls = Calls::Received(
            Snapshot::of(&self.calls),
            Snapshot::of(&second),
            Snapshot::of(&given),
        );
        given
    }

    /// It notes what is sent. Where there is no memory for that, the ports tell no more.
    fn send(&mut self, device: usize, server: u16, bytes: &[u8])
        ensures told { (e : ℕ) → Carries (told_by self.old e) (told_by self.new e)
            (at_port device e (sent_all (record { server = server; bytes = bytes.now } ∷ []))) }
        ensures asked { AreRead (asked_by self.old) (asked_by self.new) [] }
        ensures script { script_of self.new ≡ script_of self.old }
    {
        match self.note_sent(device, server, bytes) {
            Ok(()) => {}
            Err(_) => self.whole = false,
        }
    }

    /// It does not wait.
    fn wait(&mut self, _millis: u32) -> Result<(), PortsFault>
        ensures told { (e : ℕ) → Carries (told_by self.old e) (told_by self.new e) no_traffic }
        ensures asked { AreRead (asked_by self.old) (asked_by self.new) [] }
        ensures ok { IsOk result }
        ensures same { self.new ≡ self.old }
    {
        Ok(())
    }
}
