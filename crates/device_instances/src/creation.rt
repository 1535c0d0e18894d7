ghost use Rattle.std.specs.Prelude.{◌≡◌, ◌≢◌, ◌↔◌, true, false, nat_le, None, if◌then◌else◌, IfErr, OnOk};
ghost use Rattle.std.specs.Prelude.{IsTrue, IsFalse, IsErrOf, Err};
ghost use Rattle.object_defs.specs.Numbers.{access_control_object, object_id, object_instance_id, acl};
ghost use Rattle.object_defs.specs.Numbers.{access_control_owner};
ghost use Rattle.instance_store.specs.Stored.{Stored, has_instance, resource_path, with_instance};
ghost use Rattle.instance_store.specs.Stored.{without_values};
ghost use Rattle.access_control.specs.Rights.{control};
ghost use Rattle.lwm2m_payloads.specs.Changes.{has_too_many, instance_written};
ghost use Rattle.object_defs.specs.declared.path.InstancePath.{InstancePath};
ghost use Rattle.object_defs.specs.declared.path.ResourcePath.{ResourcePath};
ghost use Rattle.lwm2m_payloads.specs.declared.given.Mode.TheVariants.{Replace};
ghost use Rattle.device_instances.specs.Numbers.{instance_at, smallest_free};
ghost use Rattle.device_instances.specs.Creations.{is_full, has_no_room, with_number, with_control, with_created};

use crate::number::free_number;
use crate::room::lack_of_room;
use access_control::control;
use instance_store::{Store, StoreFault};
use lwm2m_payloads::{Assignments, Mode, write_instance};
use lwm2m_values::Value;
use object_defs::object_number::ACCESS_CONTROL;
use object_defs::resource_number::{ACCESS_CONTROL_OWNER, ACL, OBJECT_ID, OBJECT_INSTANCE_ID};
use object_defs::{InstancePath, ResourceDef};
use std::alloc::AllocError;

/// Adds an instance for which there is room.
fn add(store: &mut Store, place: InstancePath) -> Result<(), AllocError>
    requires free { has_instance store.old place ≡ false }
    requires room { is_full store.old place.object ≡ false }
    ensures { OnOk result (store.new ≡ with_instance store.old place) }
{
    match store.add_instance(place) {
        Ok(()) => Ok(()),
        Err(StoreFault::Memory) => Err(AllocError),
        Err(_) => unreachable!(),
    }
}

/// Sets a number in an instance of Access Control that is there.
fn put_number(
    store: &mut Store,
    instance: u16,
    resource: u16,
    number: u16,
) -> Result<(), AllocError>
    requires { has_instance store.old (instance_at access_control_object instance) ≡ true }
    ensures { OnOk result (store.new ≡ with_number store.old (control instance resource) number) }
{
    match store.put(control(instance, resource), Value::Whole(i64::from(number))) {
        Ok(()) => Ok(()),
        Err(StoreFault::Memory) => Err(AllocError),
        Err(_) => unreachable!(),
    }
}

/// Removes the entries in the ACL of an instance of Access Control that is there.
fn clear_acl(store: &mut Store, instance: u16)
    requires { has_instance store.old (instance_at access_control_object instance) ≡ true }
    ensures { store.new ≡ without_values store.old (resource_path (control instance acl)) }
{
    match store.clear_resource(control(instance, ACL)) {
        Ok(()) => {}
        Err(_) => unreachable!(),
    }
}

/// Makes an instance of Access Control that is there refer to a place and have a server as owner.
fn fill_control(
    store: &mut Store,
    instance: u16,
    server: u16,
    place: InstancePath,
) -> Result<(), AllocError>
    requires { has_instance store.old (instance_at access_control_object instance) ≡ true }
    ensures { OnOk result (store.new ≡ with_number (with_number (with_number
        (without_values store.old (resource_path (control instance acl)))
        (control instance object_id) place.object) (control instance object_instance_id) place.instance)
        (control instance access_control_owner) server) }
{
    clear_acl(store, instance);
    put_number(store, instance, OBJECT_ID, place.object)?;
    put_number(store, instance, OBJECT_INSTANCE_ID, place.instance)?;
    put_number(store, instance, ACCESS_CONTROL_OWNER, server)?;
    Ok(())
}

/// Adds an instance of Access Control that refers to a place and has a server as owner.
fn add_control(
    store: &mut Store,
    instance: u16,
    server: u16,
    place: InstancePath,
) -> Result<(), AllocError>
    requires free { has_instance store.old (instance_at access_control_object instance) ≡ false }
    requires room { is_full store.old access_control_object ≡ false }
    ensures { OnOk result (store.new ≡ with_control store.old instance server place) }
{
    let at = InstancePath {
        object: ACCESS_CONTROL,
        instance,
    };
    add(store, at)?;
    fill_control(store, instance, server, place)
}

/// The number of the instance of Access Control that a Create adds: with two accounts or more, the smallest free one.
fn control_number(store: &Store, accounts: usize) -> Option<u16>
    ensures { result ≡ (if nat_le 2 accounts then smallest_free store.now access_control_object else None) }
{
    if accounts < 2 {
        return None;
    }
    free_number(store, ACCESS_CONTROL)
}

/// Sets what the resources of an instance that is there are given, where there is room for all their parts.
fn write(
    resources: &[ResourceDef],
    store: &mut Store,
    place: InstancePath,
    given: Assignments,
) -> Result<(), AllocError>
    requires there { has_instance store.old place ≡ true }
    requires room { has_too_many Replace resources.now store.old place given ≡ false }
    ensures { OnOk result (store.new ≡ instance_written Replace resources.now store.old place given) }
{
    match write_instance(Mode::Replace, resources, store, place, given) {
        Ok(()) => Ok(()),
        Err(StoreFault::Memory) => Err(AllocError),
        Err(_) => unreachable!(),
    }
}

/// Adds an instance with what it is given, for which there is room.
fn add_given(
    resources: &[ResourceDef],
    store: &mut Store,
    place: InstancePath,
    given: Assignments,
) -> Result<(), AllocError>
    requires free { has_instance store.old place ≡ false }
    requires room { is_full store.old place.object ≡ false }
    requires few { has_too_many Replace resources.now store.old place given ≡ false }
    ensures { OnOk result
        (store.new ≡ instance_written Replace resources.now (with_instance store.old place) place given) }
{
    add(store, place)?;
    write(resources, store, place, given)
}

/// Adds an instance for which there is room, with what it is given, and with its instance of Access Control.
fn make(
    store: &mut Store,
    accounts: usize,
    server: u16,
    resources: &[ResourceDef],
    place: InstancePath,
    given: Assignments,
) -> Result<(), AllocError>
    requires free { has_instance store.old place ≡ false }
    requires room { has_no_room store.old accounts resources.now place given ≡ false }
    requires other { place.object ≢ 2 }
    ensures { OnOk result (store.new ≡ with_created store.old accounts server resources.now place given) }
{
    let Some(instance) = control_number(store, accounts) else {
        return add_given(resources, store, place, given);
    };
    add_control(store, instance, server, place)?;
    add_given(resources, store, place, given)
}

/// Creates an instance of an object other than 2 with what its resources are given, for a server of a device that has
/// this many accounts. With two accounts or more it also adds an instance of object 2 Access Control, which refers to
/// it and has the server as owner. `Exists`, otherwise `Full` exactly if there is no room (`lack_of_room`): both change
/// nothing. If an allocation fails, part of this may be done.
pub fn create(
    store: &mut Store,
    accounts: usize,
    server: u16,
    resources: &[ResourceDef],
    place: InstancePath,
    given: Assignments,
) -> Result<(), StoreFault>
    // Nobody creates instances of Access Control.
    requires { place.object ≢ 2 }
    ensures ok { OnOk result (store.new ≡ with_created store.old accounts server resources.now place given) }

    // The instance already exists; or else there is no room.
    ensures exists { IsErrOf result StoreFault.Exists ↔ IsTrue (has_instance store.old place) }
    ensures full { IsErrOf result StoreFault.Full
        ↔ (IsFalse (has_instance store.old place) × IsTrue (has_no_room store.old accounts resources.now place given)) }
    ensures never_absent { result ≢ Err StoreFault.Absent }
    ensures unchanged { IfErr result (λ fault. fault ≢ StoreFault.Memory → store.new ≡ store.old) }
{
    if store.has_instance(place) {
        return Err(StoreFault::Exists);
    }
    if lack_of_room(store, accounts, resources, place, &given).is_some() {
        return Err(StoreFault::Full);
    }
    make(store, accounts, server, resources, place, given)?;
    Ok(())
}
