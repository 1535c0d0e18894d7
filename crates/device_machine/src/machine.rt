//! All that a device keeps, and what it does on an event.

ghost use Rattle.std.specs.Prelude.{◌≡◌, ◌+◌, ◌<◌, ◌^◌, [], true, false, None, Some, IfOk, OnErr, OnOk, IsFalse};
ghost use Rattle.std.specs.Prelude.{MatchOption};
ghost use Rattle.instance_store.specs.Stored.{has_instance, value_at};
ghost use Rattle.device_template.specs.Values.{instance_at, is_one_too_many, with_value_at};
ghost use Rattle.device_requests.specs.Client.{with_stored};
ghost use Rattle.object_defs.specs.Path.{full_path};
ghost use Rattle.device_machine.specs.Template.{start_of};
ghost use Rattle.device_machine.specs.Memory.{event_takes_memory, put_takes_memory};
ghost use Rattle.device_machine.specs.declared.event.Event.TheVariants.{Firmware, Tick};
ghost use Rattle.device_machine.specs.Reactions.{Gives, on_firmware, on_put, passes_end, sweep_in};
ghost use Rattle.device_machine.specs.Records.{reaction_of_device};
ghost use Rattle.device_machine.specs.Held.{IsNextSending, IsUpToDate, IsSilent};
ghost use Rattle.device_notifications.specs.Progress.{does_act};
ghost use Rattle.device_firmware.specs.Firmware.{firmware_after};
ghost use Rattle.device_firmware.specs.declared.event.FirmwareEvent.TheVariants.{Ended};

mod notes;
mod plain;
mod repeats;
mod requests;

use crate::event::Event;
use crate::output::{Output, Outputs};
use crate::records::Records;
use coap_codec::Opt;
use device_notifications::{say_reached, seconds};
use device_requests::{Act, Client};
use device_template::{Template, misses};
use instance_store::{Store, StoreFault};
use lwm2m_values::Value;
use notifier::{Attributes, Observations};
use object_defs::object_number::FIRMWARE_UPDATE;
use object_defs::resource_number::{UPDATE_RESULT, UPDATE_STATE};
use object_defs::{FullPath, Path};
use std::alloc::{AllocError, Global};
use std::marker::Model;

/// All that a device keeps. Contracts see a flat state, in which each recorded request lives, and what was last said of
/// each observation.
pub(crate) struct Machine {
    client: Client,
    observations: Observations,
    clock: u64,
    next_id: u16,
    recorded: Records,
    alloc: Global,
    /// Memory for the options of a request. No option is in it between two of them.
    spare: Vec<Opt>,
    /// Scratch buffer for replies; its content is meaningless between calls.
    buffer: Vec<u8>,
}

/// By hand, so that a caller's proof has one step where it is dropped, and no case for each of its parts.
impl Drop for Machine {
    fn drop(self) {
        let Machine {
            client: _client,
            observations: _observations,
            clock: _,
            next_id: _,
            recorded: _recorded,
            alloc: _,
            spare: _spare,
            buffer: _buffer,
        } = self;
    }
}

impl Model for Machine {
    ghost use Rattle.std.specs.Coded.{codes};
    ghost use Rattle.instance_store.specs.Stored.{stored_code};
    ghost use Rattle.device_requests.specs.Client.{attributes_code};
    ghost use Rattle.device_machine.specs.Held.{StateWithOutlooks};
    ghost use Rattle.device_machine.specs.Records.{AllLive};

    ghost Value = { StateWithOutlooks };

    ghost coded = { Prim.hlevel (codes, stored_code, attributes_code) };

    ghost view = { λ c. record {
      flat = record {
        kept = record { client = c.client; observations = c.observations.list; clock = c.clock; next_id = c.next_id };
        recorded = c.recorded;
      };
      said = c.observations.said;
    } };

    ghost invariant = { λ c. AllLive c.clock c.recorded };
}

/// The State of Firmware Update.
const STATE: FullPath = FullPath {
    object: FIRMWARE_UPDATE,
    instance: 0,
    resource: UPDATE_STATE,
    part: None,
};

/// Its Update Result.
const RESULT: FullPath = FullPath {
    object: FIRMWARE_UPDATE,
    instance: 0,
    resource: UPDATE_RESULT,
    part: None,
};

/// Sets a value whose instance is there, and which is not one part too many.
fn put_fitting(client: &mut Client, path: FullPath, value: Value) -> Result<(), AllocError>
    requires there { has_instance client.old.store (instance_at path) ≡ true }
    requires room { is_one_too_many client.old.store path ≡ false }
    ensures put { OnOk result (client.new ≡ with_stored client.old (with_value_at client.old.store (Some path) value)) }
    ensures may_lack_memory { OnErr result (value_at client.old.store path ≡ None) }
    ensures unchanged { OnErr result (client.new ≡ client.old) }
{
    match client.put(path, value) {
        Ok(()) => Ok(()),
        Err(StoreFault::Memory) => Err(AllocError),
        Err(_) => unreachable!(),
    }
}

impl Machine {
    /// What a device of the template keeps at its start.
    pub(crate) fn start(template: &Template) -> Result<Machine, AllocError>
        ensures { IfOk result (λ m. m ≡ record {
          flat = record { kept = start_of template.now; recorded = [] };
          said = [];
        }) }
    {
        let accounts = template.copy_accounts()?;
        let alloc = *accounts.allocator();
        let catalog = template.catalog().copy()?;
        let store = template.start_store()?;
        Ok(Machine {
            client: Client::new(alloc, accounts, catalog, store, template.notify()),
            observations: Observations::new(alloc),
            clock: 0,
            next_id: 0,
            recorded: Records::new(alloc),
            alloc,
            spare: Vec::new(alloc),
            buffer: Vec::new(alloc),
        })
    }

    /// A copy, which equals its source.
    pub(crate) fn copy(&self) -> Result<Machine, AllocError>
        ensures { IfOk result (λ m. m ≡ self.now) }
    {
        Ok(Machine {
            client: self.client.copy()?,
            observations: self.observations.copy()?,
            clock: self.clock,
            next_id: self.next_id,
            recorded: self.recorded.copy()?,
            alloc: self.alloc,
            spare: Vec::new(self.alloc),
            buffer: Vec::new(self.alloc),
        })
    }

    /// The values and instances.
    pub(crate) fn store(&self) -> &Store
        ensures { result.now ≡ self.now.flat.kept.client.store }
    {
        self.client.store()
    }

    /// What management requests read and modify.
    pub(crate) fn client(&self) -> &Client
        ensures { result.now ≡ self.now.flat.kept.client }
    {
        &self.client
    }

    /// The attributes that servers set.
    pub(crate) fn attributes(&self) -> &Attributes
        ensures { result.now ≡ self.now.flat.kept.client.attributes }
    {
        self.client.attributes()
    }

    /// The observations.
    pub(crate) fn observations(&self) -> &Observations
        ensures list { result.now.list ≡ self.now.flat.kept.observations }
        ensures said { result.now.said ≡ self.now.said }
    {
        &self.observations
    }

    /// Where its memory comes from.
    pub(crate) fn alloc(&self) -> Global {
        self.alloc
    }

    /// The second, from 0 at the start.
    pub(crate) fn clock(&self) -> u64
        ensures { result ≡ self.now.flat.kept.clock }
    {
        self.clock
    }

    /// The first second after the clock's in which the device sends or removes something by itself.
    pub(crate) fn due(&self) -> Option<u64>
        ensures { IsUpToDate self.now → MatchOption result (IsSilent self.now.flat) (IsNextSending self.now.flat) }
    {
        self.observations.due(self.clock)
    }

    /// Lets seconds pass, in each of which the observations have their turns. They end the life of recorded requests,
    /// and those are forgotten. All that a second allocates, room for its outputs too, is there before it changes an
    /// observation.
    fn tick(&mut self, count: u32) -> Result<Outputs, AllocError>
        requires fits { self.old.flat.kept.clock + count < 2 ^ 63 }
        requires up_to_date { IsUpToDate self.old }
        ensures gives { IfOk result (λ o. Gives o self.new.flat (reaction_of_device self.old.flat (Tick count))) }
        ensures up_to_date { OnOk result (IsUpToDate self.new) }

        // It takes memory only where something is sent or an observation is removed.
        ensures may_lack_memory { OnErr result
            (does_act (sweep_in self.old.flat.kept count) self.old.flat.kept.observations ≡ true) }
    {
        let observations = &mut self.observations;
        let mut room = Vec::new(self.alloc);
        let outbox = seconds(
            self.alloc,
            &self.client,
            observations,
            self.clock,
            count,
            self.next_id,
            &mut room,
        )?;
        self.clock += u64::from(count);
        self.next_id = outbox.next_id();
        self.recorded.forget(self.clock);
        Ok(Outputs::of_datagrams(room, outbox.into_vec()))
    }

    /// Sets a value where it fits. Only the observations that it reaches are read anew.
    #[tactic(auto, using(crate::proofs::Putting::has_its_instance, crate::proofs::Putting::has_room))]
    fn put(&mut self, path: Path, value: &Value) -> Result<Outputs, AllocError>
        requires { IsUpToDate self.old }
        ensures gives { IfOk result (λ o. Gives o self.new.flat (on_put self.old.flat (full_path path) value.now)) }
        ensures up_to_date { OnOk result (IsUpToDate self.new) }
        ensures may_lack_memory { OnErr result (put_takes_memory self.old.flat.kept (full_path path) value.now ≡ true) }
    {
        let Some(full) = path.full() else {
            return Outputs::one(self.alloc, Output::Act(Act::Missed));
        };
        if misses(self.client.catalog(), self.client.store(), full, value) {
            return Outputs::one(self.alloc, Output::Act(Act::Missed));
        }
        let value = value.copy()?;
        put_fitting(&mut self.client, full, value)?;
        say_reached(&self.client, &mut self.observations, &[full])?;
        Ok(Outputs::none(self.alloc))
    }

    /// Ends a download or an update of the firmware, where there is one.
    fn end_firmware(&mut self, code: u8) -> Result<Outputs, AllocError>
        requires { IsUpToDate self.old }
        ensures gives { IfOk result (λ o. Gives o self.new.flat
            (on_firmware self.old.flat (firmware_after self.old.flat.kept.client.store (Ended code)))) }
        ensures up_to_date { OnOk result (IsUpToDate self.new) }
        ensures may_lack_memory { OnErr result (event_takes_memory self.old.flat.kept (Firmware code) ≡ true) }
    {
        if self.client.end_firmware(code)? {
            say_reached(&self.client, &mut self.observations, &[STATE, RESULT])?;
            return Ok(Outputs::none(self.alloc));
        }
        Outputs::one(self.alloc, Output::Act(Act::Missed))
    }

    /// Takes an event, and forgets the recorded requests that no longer live. Only a tick can end a
    /// request's life. All that a device does is in here; it stays a call, so that a post and a need cost
    /// nothing of it.
    #[inline(never)]
    pub(crate) fn react(&mut self, event: &Event) -> Result<Outputs, AllocError>
        requires fits { IsFalse (passes_end self.old.flat.kept.clock event.now) }
        requires up_to_date { IsUpToDate self.old }
        ensures gives { IfOk result (λ o. Gives o self.new.flat (reaction_of_device self.old.flat event.now)) }
        ensures up_to_date { OnOk result (IsUpToDate self.new) }
        ensures may_lack_memory { OnErr result (event_takes_memory self.old.flat.kept event.now ≡ true) }
    {
        match event {
            Event::Recv { server, bytes } => self.receive(*server, bytes.as_slice()),
            Event::Put { path, value } => self.put(*path, value),
            Event::Firmware(code) => self.end_firmware(*code),
            Event::Tick(count) => self.tick(*count),
        }
    }
}
