//! A wire and a clock in memory, for tests: they do what a script says, and tell what they did.
ghost use Rattle.std.specs.Prelude.{◌≡◌, ◌↔◌, ◌∷◌, ◌++◌, [], drop, Err, OnErr, OnOk, Some, true};
ghost use Rattle.live_link.specs.Wire.{traffic_and, traffic_of_receive, traffic_of_send};
ghost use Rattle.live_link.specs.Memory.{given_first, one_sooner, read_by, script_of, shown_by, shown_first};
ghost use Rattle.live_link.specs.Memory.{traffic_by, traffic_of_fault};

use crate::calls::{Calls, Readings};
use crate::packet::Packet;
use crate::seconds::Seconds;
use crate::wire::{Wire, WireFault};
use octets::Bytes;
use std::alloc::{AllocError, Global};
use std::snapshot::Snapshot;
use std::vec::IntoIter;

/// What a call of `receive` gives.
#[derive(Drop)]
pub enum Receipt {
    /// A datagram has arrived.
    Arrived(Packet),
    /// Nothing has arrived.
    Nothing,
    /// The wire fails.
    Failure,
}

/// A wire in memory.
#[derive(Drop)]
pub struct ScriptedWire {
    alloc: Global,
    /// What the next calls of `receive` give, one after another; after them, nothing has arrived.
    receipts: IntoIter<Receipt, Global>,
    /// After how many calls of `send` one fails, if one does.
    failing: Option<u64>,
    taken: Vec<Packet>,
    calls: Calls,
}

impl ScriptedWire {
    /// A wire that receives what the script says, and fails at the call of `send` of that number, counted from 0, if
    /// there is one. No call of it was made yet.
    pub fn new(alloc: Global, receipts: Vec<Receipt>, failing: Option<u64>) -> ScriptedWire
        ensures told { traffic_by result
            ≡ record { received = []; taken = []; failures = 0; refusals = 0 } }
        ensures script { script_of result ≡ record { receipts = receipts.items; failing = failing } }
    {
        ScriptedWire {
            alloc,
            receipts: receipts.into_iter(),
            failing,
            taken: Vec::new(alloc),
            calls: Calls::Begun,
        }
    }

    /// What it took in, in order.
    pub fn taken(&self) -> &[Packet]
        ensures { result.now ≡ (traffic_by self.now).taken }
    {
        self.taken.as_slice()
    }

    /// Whether this call of `send` is the one that fails.
    fn fails_now(&mut self) -> bool
        ensures told { traffic_by self.new ≡ traffic_by self.old }
        ensures fails { (result ≡ true) ↔ ((script_of self.old).failing ≡ Some 0) }
        ensures script { script_of self.new ≡ record {
          receipts = (script_of self.old).receipts;
          failing = one_sooner (script_of self.old).failing;
        } }
    {
        match self.failing {
            None => false,
            Some(0) => {
                self.failing = None;
                true
            }
            Some(calls) => {
                self.failing = Some(calls - 1);
                false
            }
        }
    }

    /// Notes a datagram that is taken in.
    fn note_taken(&mut self, server: u16, bytes: &[u8]) -> Result<(), AllocError>
        ensures script { script_of self.new ≡ script_of self.old }
        ensures noted { OnOk result (traffic_by self.new ≡ traffic_and (traffic_by self.old) (record {
          received = [];
          taken = record { server = server; bytes = bytes.now } ∷ [];
          failures = 0;
          refusals = 0;
        })) }
        ensures unchanged { OnErr result (traffic_by self.new ≡ traffic_by self.old) }
    {
        let bytes = Bytes::from_slice(self.alloc, bytes)?;
        self.taken.push(Packet { server, bytes })?;
        Ok(())
    }

    /// Notes that a datagram was not taken in, and why.
    fn note_fault(&mut self, fault: WireFault) -> WireFault
        ensures same { result ≡ fault }
        ensures script { script_of self.new ≡ script_of self.old }
        ensures told { traffic_by self.new ≡ traffic_and (traffic_by self.old) (traffic_of_fault fault) }
    {
        self.calls = Calls::Unsent(Snapshot::of(&self.calls), Snapshot::of(&fault));
        fault
    }
}

impl Wire for ScriptedWire {
    ghost told = { λ wire. Some (traffic_by wire) };

    /// It gives the first receipt that is left of its script; after the last one, nothing has arrived. It takes no
    /// memory.
    fn receive(&mut self) -> Result<Option<Packet>, WireFault>
        ensures told { traffic_by self.new ≡ traffic_and (traffic_by self.old) (traffic_of_receive result) }
        ensures given { result ≡ given_first (script_of self.old).receipts }
        ensures script { script_of self.new ≡ record {
          receipts = drop 1 (script_of self.old).receipts;
          failing = (script_of self.old).failing;
        } }
    {
        let given = match self.receipts.next() {
            Some(Receipt::Arrived(packet)) => Ok(Some(packet)),
            Some(Receipt::Nothing) | None => Ok(None),
            Some(Receipt::Failure) => Err(WireFault::Failed),
        };
        self.calls = Calls::Received(Snapshot::of(&self.calls), Snapshot::of(&given));
        given
    }

    /// It fails at the call that its script names, and takes the datagram in at each other one, if memory is left.
    fn send(&mut self, server: u16, bytes: &[u8]) -> Result<(), WireFault>
        ensures told { traffic_by self.new ≡ traffic_and (traffic_by self.old)
            (traffic_of_send (record { server = server; bytes = bytes.now }) result) }
        ensures fails { (result ≡ Err WireFault.Failed) ↔ ((script_of self.old).failing ≡ Some 0) }
        ensures script { script_of self.new ≡ record {
          receipts = (script_of self.old).receipts;
          failing = one_sooner (script_of self.old).failing;
        } }
    {
        if self.fails_now() {
            return Err(self.note_fault(WireFault::Failed));
        }
        match self.note_taken(server, bytes) {
            Ok(()) => Ok(()),
            Err(_) => Err(self.note_fault(WireFault::Memory)),
        }
    }
}

/// A clock in memory.
#[derive(Drop)]
pub struct ScriptedClock {
    /// What it shows next, one reading after another; after them, 0.
    shown: IntoIter<u64, Global>,
    read: Readings,
}

impl ScriptedClock {
    /// A clock that shows these seconds.
    pub fn new(shown: Vec<u64>) -> ScriptedClock
        ensures read { read_by result ≡ [] }
        ensures shown { shown_by result ≡ shown.items }
    {
        ScriptedClock {
            shown: shown.into_iter(),
            read: Readings::Unread,
        }
    }
}

impl Seconds for ScriptedClock {
    ghost read = { λ clock. Some (read_by clock) };

    /// It shows the first second that is left of its script; after the last one, 0.
    fn now(&mut self) -> u64
        ensures read { read_by self.new ≡ read_by self.old ++ result ∷ [] }
        ensures shown { result ≡ shown_first (shown_by self.old) }
        ensures script { shown_by self.new ≡ drop 1 (shown_by self.old) }
    {
        let second = self.shown.next().unwrap_or(0);
        self.read = Readings::Read(Snapshot::of(&self.read), Snapshot::of(&second));
        second
    }
}
