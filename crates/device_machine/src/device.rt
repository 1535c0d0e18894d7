ghost use Rattle.std.specs.Prelude.{◌≡◌, ◌↔◌, [], false, IfOk, MatchOption, OnOk, OnErr, IsTrue, Ok, Err, is_some};
ghost use Rattle.std.specs.Option.{option_copied};
ghost use Rattle.object_defs.specs.Path.{full_path};
ghost use Rattle.device_notifications.specs.Outlooks.{outlooks_of};
ghost use Rattle.device_machine.specs.Template.{start_of};
ghost use Rattle.device_machine.specs.Memory.{event_takes_memory};
ghost use Rattle.device_machine.specs.Held.{IsNextSending, IsSilent};
ghost use Rattle.device_machine.specs.State.{Machine as FlatState, Shows, value_in};
ghost use Rattle.device_machine.specs.Reactions.{outputs_of, flat_after, is_refused, passes_end, repeat_of};

use crate::event::Event;
use crate::fault::StepFault;
use crate::machine::Machine;
use crate::output::Outputs;
use coap_codec::Message;
use device_requests::Client;
use device_template::Template;
use lwm2m_values::Value;
use notifier::{Attributes, Observations};
use object_defs::Path;
use std::alloc::AllocError;
use std::marker::Model;

/// An emulated device.
///
/// It shows a flat state, and its outputs and its next state are those that the tables give for
/// each flat state that it shows. Only a failed allocation makes it spent; a spent device refuses each
/// event.
pub struct Device {
    // It has a place of its own, so a device that moves from one owner to another moves few bytes.
    machine: Box<Machine>,
    spent: bool,
}

/// By hand, so that a caller's proof has one step where it is dropped, and no case for each of its parts.
impl Drop for Device {
    fn drop(self) {
        let Device {
            machine: _machine,
            spent: _,
        } = self;
    }
}

impl Model for Device {
    ghost use Rattle.std.specs.Prelude.{◌≡◌, false};
    ghost use Rattle.std.specs.Coded.{codes};
    ghost use Rattle.instance_store.specs.Stored.{stored_code};
    ghost use Rattle.device_requests.specs.Client.{attributes_code};
    ghost use Rattle.device_machine.specs.Held.{IsUpToDate};
    ghost use Rattle.device_machine.specs.Template.{start_of};
    ghost use Rattle.device_machine.specs.State.{Device, with_live_records};

    ghost Value = { Device };

    ghost coded = { Prim.hlevel (codes, stored_code, attributes_code) };

    ghost view = { λ d. record { spent = d.spent; flat = with_live_records d.machine.value.flat } };

    ghost invariant = { λ d. d.spent ≡ false → IsUpToDate d.machine.value };
}

/// The last second that a device's clock can show.
const LAST_SECOND: u64 = (1 << 63) - 1;

/// Whether the event would take the clock past its last second.
fn passes_end(clock: u64, event: &Event) -> bool
    ensures { result ≡ passes_end clock event.now }
{
    match event {
        Event::Recv { .. } | Event::Put { .. } | Event::Firmware(_) => false,
        Event::Tick(seconds) => clock > LAST_SECOND || LAST_SECOND - clock < u64::from(*seconds),
    }
}

impl Device {
    /// A device in the state in which a template starts.
    pub fn start(template: &Template) -> Result<Device, AllocError>
        ensures { IfOk result (λ d. Shows d (record { kept = start_of template.now; recorded = [] })) }
    {
        let machine = Machine::start(template)?;
        Ok(Device {
            machine: Box::new(machine.alloc(), machine)?,
            spent: false,
        })
    }

    /// A copy, which shows what its source shows, and is spent where that is.
    pub fn copy(&self) -> Result<Device, AllocError>
        ensures { IfOk result (λ d. d ≡ self.now) }
    {
        let machine = self.machine.copy()?;
        Ok(Device {
            machine: Box::new(machine.alloc(), machine)?,
            spent: self.spent,
        })
    }

    /// The second that the device's clock shows, from 0 at its start.
    pub fn clock(&self) -> u64
        ensures shown { (f : FlatState) → Shows self.now f → result ≡ f.kept.clock }
        ensures held { result ≡ self.now.flat.kept.clock }
    {
        self.machine.clock()
    }

    /// The first second after the clock's, below 2^64, in which the device sends or removes something by itself, if no
    /// other event comes: a notification, the same once more, or an answer that ends an observation; or an observation
    /// is removed. None where there is none. Up to the second before it a Tick changes the clock alone. It takes no
    /// memory.
    pub fn due(&self) -> Option<u64>
        ensures { (f : FlatState) → Shows self.now f → MatchOption result (IsSilent f) (IsNextSending f) }
    {
        self.machine.due()
    }

    /// Takes an event, and returns what the device outputs, in order. For every flat state that the device shows, the
    /// outputs and the flat state afterwards are those of the tables, which have the list of all requests since the
    /// start: that the device may forget those past their lifetime is proved.
    ///
    /// `Memory` leaves the device spent, and nothing else does. It shows no flat state then: what it holds is open, and
    /// so is what its other methods return. `Spent`: it was spent, or the tick would take its clock past 2^63 - 1;
    /// nothing changes.
    ///
    /// No event ends a device for lack of memory that is (`may_lack_memory`): a datagram of a server without an
    /// account, of another version or of fewer than four bytes; an acknowledgement or a Reset, whatever follows the
    /// header; a NON that is Empty or has a format error in its header or right after its token; seconds in which
    /// nothing is sent and no observation removed; a Put that does not fit, or one of an Integer, Time, Flag or Link
    /// over a value that is held and reaches no observation; an end of a download or an update that is not taken, or
    /// over a State and an Update Result that are held and reach no observation. A value reaches an observation at or
    /// below its path, and as one of Access Control, a Short Server ID or a default period.
    pub fn step(&mut self, event: &Event) -> Result<Outputs, StepFault>
        ensures outputs { (f : FlatState) → Shows self.old f → IfOk result (λ o. o ≡ outputs_of f event.now) }
        ensures shows { (f : FlatState) → Shows self.old f → OnOk result (Shows self.new (flat_after f event.now)) }
        ensures spent { (result ≡ Err StepFault.Spent) ↔ IsTrue (is_refused self.old event.now) }
        ensures unchanged { result ≡ Err StepFault.Spent → self.new ≡ self.old }
        ensures memory { result ≡ Err StepFault.Memory → IsTrue self.new.spent }

        // Some events take no memory, so they never end a device: each datagram of a server without an account, each
        // acknowledgement and Reset, and each second without an observation.
        ensures may_lack_memory { result ≡ Err StepFault.Memory
            → IsTrue (event_takes_memory self.old.flat.kept event.now) }
    {
        if self.spent || passes_end(self.machine.clock(), event) {
            return Err(StepFault::Spent);
        }
        match self.take(event) {
            Ok(outputs) => Ok(outputs),
            Err(AllocError) => Err(StepFault::Memory),
        }
    }

    /// Lets the device take an event that it does not refuse, and gives what it outputs: a step, whose answer is passed
    /// on as it is. Without memory the device is spent, as `step` says.
    pub fn take(&mut self, event: &Event) -> Result<Outputs, AllocError>
        requires { is_refused self.old event.now ≡ false }
        ensures outputs { (f : FlatState) → Shows self.old f → IfOk result (λ o. o ≡ outputs_of f event.now) }
        ensures shows { (f : FlatState) → Shows self.old f → OnOk result (Shows self.new (flat_after f event.now)) }
        ensures memory { OnErr result (IsTrue self.new.spent) }
        ensures may_lack_memory { OnErr result (IsTrue (event_takes_memory self.old.flat.kept event.now)) }
    {
        // For the proof alone: no two of the recorded requests have one key.
        self.machine.knows_keys();
        self.spent = true;
        let result = self.machine.react(event);
        match &result {
            Ok(_) => self.spent = false,
            Err(AllocError) => {}
        }
        result
    }

    /// What management requests read and modify.
    pub fn client(&self) -> &Client
        ensures shown { (f : FlatState) → Shows self.now f → result.now ≡ f.kept.client }
        ensures held { result.now ≡ self.now.flat.kept.client }
    {
        self.machine.client()
    }

    /// Whether a request is a repeat: this server sent one of the same type and message ID, whose lifetime has not
    /// elapsed (RFC 7252 section 4.5).
    pub fn is_repeat(&self, server: u16, message: &Message) -> bool
        ensures shown { (f : FlatState) → Shows self.now f → result ≡ is_some (repeat_of f server message.now) }
    {
        self.machine.repeat_of(server, message).is_some()
    }

    /// The attributes that servers set.
    pub fn attributes(&self) -> &Attributes
        ensures shown { (f : FlatState) → Shows self.now f → result.now ≡ f.kept.client.attributes }
        ensures held { result.now ≡ self.now.flat.kept.client.attributes }
    {
        self.machine.attributes()
    }

    /// The observations, in the order of registration, with what their present answers are, and their periods.
    pub fn observations(&self) -> &Observations
        ensures shown { (f : FlatState) → Shows self.now f → result.now.list ≡ f.kept.observations }
        ensures said { (f : FlatState) → Shows self.now f
            → result.now.said ≡ outlooks_of f.kept.client f.kept.observations }
        ensures held { result.now.list ≡ self.now.flat.kept.observations }
    {
        self.machine.observations()
    }

    /// The value at a path of three or four numbers.
    pub fn value(&self, path: &Path) -> Option<&Value>
        ensures shown { (f : FlatState) → Shows self.now f
            → option_copied result ≡ value_in f.kept (full_path path.now) }
        ensures held { option_copied result ≡ value_in self.now.flat.kept (full_path path.now) }
    {
        let path = path.full()?;
        self.machine.store().get(path)
    }
}
