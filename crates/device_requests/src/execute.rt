//! An Execute: its rules, its arguments, what it changes, and what the device does after it.

ghost use Rattle.std.specs.Prelude.{◌≡◌, ◌||◌, ◌∷◌, [], true, false, not, pos, IfOk, None, OnErr, OnOk};
ghost use Rattle.lwm2m_values.specs.declared.value.Value.TheVariants.{Whole};
ghost use Rattle.object_defs.specs.Numbers.{firmware_update_object, device_object, update, reset_error_code};
ghost use Rattle.object_defs.specs.Lines.{first_line};
ghost use Rattle.object_defs.specs.Path.{part_of};
ghost use Rattle.instance_store.specs.Stored.{has_instance, instance_of, is_full, resource_path, with_value};
ghost use Rattle.instance_store.specs.Stored.{without_values};
ghost use Rattle.device_requests.specs.Answer.{Leaves};
ghost use Rattle.lwm2m_payloads.specs.Scanning.{are_arguments};
ghost use Rattle.device_requests.specs.Execute.{act_of, after_execute, with_no_error};
ghost use Rattle.device_requests.specs.Inside.{has_place};
ghost use Rattle.device_requests.specs.Outcomes.{execute_outcome};
ghost use Rattle.device_requests.specs.Refusals.{is_executable, is_plain, is_untimely, refusal_of, to_execute};
ghost use Rattle.device_requests.specs.Targets.{definition_at, is_resource};

use crate::answer::{Act, Answer};
use crate::client::Client;
use crate::ruling::Ruling;
use crate::targets::{definition_at, exists_as, is_resource, resource_place};
use device_firmware::{FirmwareEvent, take, takes};
use instance_store::{Store, StoreFault};
use lwm2m_payloads::{Format, are_arguments};
use lwm2m_values::Value;
use object_defs::object_number::{DEVICE, FIRMWARE_UPDATE, SECURITY, SERVER};
use object_defs::resource_number::{
    DISABLE, ERROR_CODE, FACTORY_RESET, REBOOT, REGISTRATION_UPDATE_TRIGGER, RESET_ERROR_CODE,
    UPDATE,
};
use object_defs::{Path, ResourceDef, ResourcePath};
use std::alloc::{AllocError, Global};

/// Whether a resource is defined, and can be executed.
pub fn is_executable(definition: Option<ResourceDef>) -> bool
    ensures { result ≡ is_executable definition }
{
    match definition {
        None => false,
        Some(definition) => definition.ops.can_execute(),
    }
}

/// Whether a Content-Format is that of arguments, or there is none.
fn is_plain(number: Option<u16>) -> bool
    ensures { result ≡ is_plain number }
{
    match number {
        None => true,
        Some(number) => number == Format::PlainText.number(),
    }
}

/// Whether the path is that of Update, and the State of the firmware does not allow it.
fn is_untimely(store: &Store, path: Path) -> bool
    ensures { result ≡ is_untimely store.now path }
{
    is_resource(FIRMWARE_UPDATE, UPDATE, path) && !takes(store, &FirmwareEvent::Update)
}

/// What the device does after the reply.
fn act_of(path: Path) -> Option<Act>
    ensures { result ≡ act_of path }
{
    if is_resource(DEVICE, REBOOT, path) {
        return Some(Act::Reboot);
    }
    if is_resource(DEVICE, FACTORY_RESET, path) {
        return Some(Act::FactoryReset);
    }
    if is_resource(SERVER, DISABLE, path) {
        return Some(Act::Disable);
    }
    if is_resource(SERVER, REGISTRATION_UPDATE_TRIGGER, path) {
        return Some(Act::RegUpdate);
    }
    None
}

/// Removes what a resource of an instance that is there holds.
fn clear(store: &mut Store, place: ResourcePath)
    requires { has_instance store.old (instance_of place) ≡ true }
    ensures { store.new ≡ without_values store.old (resource_path place) }
{
    match store.clear_resource(place) {
        Ok(()) => {}
        Err(_) => unreachable!(),
    }
}

/// Sets part 0 of a resource of an instance that is there to 0, where the resource has room for it.
fn put_zero(store: &mut Store, place: ResourcePath) -> Result<(), AllocError>
    requires there { has_instance store.old (instance_of place) ≡ true }
    requires room { is_full store.old place 0 ≡ false }
    ensures { OnOk result (store.new ≡ with_value store.old (part_of place 0) (Whole (pos 0))) }
{
    match store.put_part(place, 0, Value::Whole(0)) {
        Ok(()) => Ok(()),
        Err(StoreFault::Memory) => Err(AllocError),
        Err(_) => unreachable!(),
    }
}

/// Leaves 0, no error, as the one error code of an instance that is there.
fn reset_errors(store: &mut Store, path: Path) -> Result<(), AllocError>
    requires { has_place store.old path ≡ true }
    ensures { OnOk result (store.new ≡ with_no_error store.old path) }
{
    match path {
        Path::Resource(object, instance, _) => {
            let codes = resource_place(object, instance, ERROR_CODE);
            clear(store, codes);
            put_zero(store, codes)
        }
        Path::Object(_) | Path::Instance(_, _) | Path::Part(_, _, _, _) => Ok(()),
    }
}

/// Does what an Execute asks for in an instance that exists.
fn execute_at(alloc: Global, store: &mut Store, path: Path) -> Result<(), AllocError>
    requires { has_place store.old path ≡ true }
    ensures done { OnOk result (store.new ≡ after_execute store.old path) }
    ensures may_lack_memory { OnErr result ((is_resource firmware_update_object update path
        || is_resource device_object reset_error_code path) ≡ true) }
{
    if is_resource(FIRMWARE_UPDATE, UPDATE, path) {
        take(alloc, store, FirmwareEvent::Update)?;
        return Ok(());
    }
    if is_resource(DEVICE, RESET_ERROR_CODE, path) {
        return reset_errors(store, path);
    }
    Ok(())
}

impl Client {
    /// What refuses the arguments of an Execute, or the Execute as untimely.
    fn argument_refusal(&self, path: Path, number: Option<u16>, payload: &[u8]) -> Option<Ruling>
        ensures { result ≡ first_line ((not (is_plain number), Ruling.ContentFormat)
            ∷ (not (are_arguments payload.now), Ruling.Payload)
            ∷ (is_untimely self.now.store path, Ruling.State) ∷ []) }
    {
        if !is_plain(number) {
            return Some(Ruling::ContentFormat);
        }
        if !are_arguments(payload) {
            return Some(Ruling::Payload);
        }
        if is_untimely(&self.store, path) {
            return Some(Ruling::State);
        }
        None
    }

    /// What refuses an Execute.
    fn execute_refusal(
        &self,
        server: u16,
        path: Path,
        number: Option<u16>,
        payload: &[u8],
    ) -> Option<Ruling>
        ensures { result ≡ refusal_of self.now server path (to_execute number payload.now) }
    {
        if path.object() == SECURITY {
            return Some(Ruling::Security);
        }
        let definition = definition_at(&self.catalog, path);
        if !exists_as(&self.catalog, &self.store, path, definition) {
            return Some(Ruling::Target);
        }
        if !self.rights(server, path).execute {
            return Some(Ruling::Right);
        }
        if !is_executable(definition) {
            return Some(Ruling::Operation);
        }
        self.argument_refusal(path, number, payload)
    }

    /// Executes a resource, where no rule refuses it.
    #[tactic(auto, using(crate::proofs::Present::execute_has))]
    pub(crate) fn execute(
        &mut self,
        server: u16,
        path: Path,
        number: Option<u16>,
        payload: &[u8],
    ) -> Result<Answer, AllocError>
        ensures outcome { IfOk result
            (λ a. Leaves a self.new (execute_outcome self.old server path number payload.now)) }

        // Only Update and Reset Error Code take memory, and only if nothing refuses them.
        ensures may_lack_memory { OnErr result ((is_resource firmware_update_object update path
            || is_resource device_object reset_error_code path) ≡ true) }
        ensures unrefused { OnErr result (refusal_of self.old server path (to_execute number payload.now) ≡ None) }
        ensures executable { OnErr result (is_executable (definition_at self.old.catalog path) ≡ true) }
    {
        match self.execute_refusal(server, path, number, payload) {
            Some(ruling) => Ok(Answer::bare(self.alloc, ruling)),
            None => {
                execute_at(self.alloc, &mut self.store, path)?;
                Ok(Answer::done(self.alloc, act_of(path)))
            }
        }
    }
}
