ghost use Rattle.std.specs.Prelude.{◌≡◌, ◌⊎◌, true, false, None, IfOk, OnOk, OnErr};
ghost use Rattle.std.specs.Option.{is_some, unwrap_or};
ghost use Rattle.object_defs.specs.Numbers.{package_uri, update_state, update_result};
ghost use Rattle.object_defs.specs.Path.{single_of};
ghost use Rattle.instance_store.specs.Stored.{has_instance, with_value};
ghost use Rattle.device_firmware.specs.Firmware.{firmware, firmware_resource, firmware_value, is_ready, outcome_in};
ghost use Rattle.device_firmware.specs.Firmware.{uri_of, with_uri, with_outcome, firmware_after};

use crate::event::FirmwareEvent;
use crate::state::{Outcome, next_from, state_as, state_number};
use instance_store::{Store, StoreFault};
use lwm2m_values::{Text, Value};
use object_defs::object_number::FIRMWARE_UPDATE;
use object_defs::resource_number::{PACKAGE_URI, UPDATE_RESULT, UPDATE_STATE};
use object_defs::{InstancePath, ResourcePath};
use std::alloc::{AllocError, Global};

/// Firmware Update has one instance.
const FIRMWARE: InstancePath = InstancePath {
    object: FIRMWARE_UPDATE,
    instance: 0,
};

/// A resource of that instance.
fn resource(resource: u16) -> ResourcePath
    ensures { result ≡ firmware_resource resource }
{
    ResourcePath {
        object: FIRMWARE_UPDATE,
        instance: 0,
        resource,
    }
}

/// What an event leads to, if it is taken.
fn outcome_in(store: &Store, event: &FirmwareEvent) -> Option<Outcome>
    ensures { result ≡ outcome_in store.now event.now }
{
    if !store.has_instance(FIRMWARE) {
        return None;
    }
    let state = resource(UPDATE_STATE);
    next_from(event, state_as(store.get(state.single())))
}

/// The Package URI after an event, where it changes.
fn uri_of(alloc: Global, event: FirmwareEvent) -> Option<Text>
    ensures { result ≡ uri_of event }
{
    match event {
        FirmwareEvent::Cleared => Some(Text::from_string(String::new(alloc))),
        FirmwareEvent::Uri(text) => Some(text),
        FirmwareEvent::Package => None,
        FirmwareEvent::Update => None,
        FirmwareEvent::Ended(_) => None,
    }
}

/// Sets the value of a resource of the instance, which is there.
fn put(store: &mut Store, number: u16, value: Value) -> Result<(), AllocError>
    requires { has_instance store.old firmware ≡ true }
    ensures ok { OnOk result (store.new ≡ with_value store.old (single_of (firmware_resource number)) value) }
    ensures may_lack_memory { OnErr result (firmware_value store.old number ≡ None) }
{
    match store.put(resource(number), value) {
        Ok(()) => Ok(()),
        Err(StoreFault::Memory) => Err(AllocError),
        Err(_) => unreachable!(),
    }
}

/// Sets the Package URI, if there is one to be set.
fn set_uri(store: &mut Store, uri: Option<Text>) -> Result<(), AllocError>
    requires { has_instance store.old firmware ≡ true }
    ensures ok { OnOk result (store.new ≡ with_uri store.old uri) }
    ensures may_lack_memory { OnErr result ((firmware_value store.old package_uri ≡ None) × (is_some uri ≡ true)) }
{
    match uri {
        Some(text) => put(store, PACKAGE_URI, Value::Text(text)),
        None => Ok(()),
    }
}

/// Sets the State and the Update Result.
fn set_outcome(store: &mut Store, outcome: Outcome) -> Result<(), AllocError>
    requires { has_instance store.old firmware ≡ true }
    ensures ok { OnOk result (store.new ≡ with_outcome store.old outcome) }
    ensures may_lack_memory { OnErr result ((firmware_value store.old update_state ≡ None)
        ⊎ (firmware_value store.old update_result ≡ None)) }
{
    put(
        store,
        UPDATE_STATE,
        Value::Whole(state_number(outcome.state)),
    )?;
    put(store, UPDATE_RESULT, Value::Whole(i64::from(outcome.code)))?;
    Ok(())
}

/// Sets what an event leads to.
fn change(
    alloc: Global,
    store: &mut Store,
    event: FirmwareEvent,
    outcome: Outcome,
) -> Result<(), AllocError>
    requires { has_instance store.old firmware ≡ true }
    ensures ok { OnOk result (store.new ≡ with_outcome (with_uri store.old (uri_of event)) outcome) }
    ensures may_lack_memory { OnErr result (is_ready store.old event ≡ false) }
{
    set_uri(store, uri_of(alloc, event))?;
    set_outcome(store, outcome)?;
    Ok(())
}

/// Whether an event is in the table of what the device's State allows, as `take` returns. It takes no memory.
pub fn takes(store: &Store, event: &FirmwareEvent) -> bool
    ensures { result ≡ is_some (firmware_after store.now event.now) }
{
    outcome_in(store, event).is_some()
}

/// Applies an event, and returns whether it is in the table of what the device's State allows; one that is not changes
/// nothing. An allocation can fail only for one that is (`taken`), and only if what it sets is not all held
/// (`may_lack_memory`), as before the first event: State and Update Result, and Package URI if that changes. Some of it
/// may be set then.
pub fn take(alloc: Global, store: &mut Store, event: FirmwareEvent) -> Result<bool, AllocError>
    ensures answer { IfOk result (λ taken. taken ≡ is_some (firmware_after store.old event)) }
    ensures change { OnOk result (store.new ≡ unwrap_or (firmware_after store.old event) store.old) }

    // It takes memory only for an event that is taken, and only if what it sets is not all held.
    ensures taken { OnErr result (is_some (firmware_after store.old event) ≡ true) }
    ensures may_lack_memory { OnErr result (is_ready store.old event ≡ false) }
{
    let Some(outcome) = outcome_in(store, &event) else {
        return Ok(false);
    };
    change(alloc, store, event, outcome)?;
    Ok(true)
}
