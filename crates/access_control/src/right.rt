ghost use Rattle.std.specs.Prelude.{◌≡◌, ◌==◌, if◌then◌else◌};
ghost use Rattle.lwm2m_values.specs.Value.{is_integer};
ghost use Rattle.object_defs.specs.Numbers.{access_control_object};
ghost use Rattle.object_defs.specs.Path.{single_of};
ghost use Rattle.instance_store.specs.Stored.{value_at, instances_of};
ghost use Rattle.access_control.specs.Rights.{control, integer_in, names, speaks_of, entry_of, control_of};
ghost use Rattle.access_control.specs.Rights.{right_by, right_on_control, right_of, creation};

use crate::letters::{EVERY, NONE, READ, READ_WRITE, Rights, letters_of};
use instance_store::Store;
use lwm2m_values::Value;
use object_defs::object_number::ACCESS_CONTROL;
use object_defs::resource_number::{ACCESS_CONTROL_OWNER, ACL, OBJECT_ID, OBJECT_INSTANCE_ID};
use object_defs::{FullPath, ResourcePath};

/// The number that stands for the instances that are not there yet.
const CREATION: u16 = 65535;

/// Returns the path of a resource of an instance of Access Control.
pub fn control(instance: u16, resource: u16) -> ResourcePath
    ensures { result ≡ control instance resource }
{
    ResourcePath {
        object: ACCESS_CONTROL,
        instance,
        resource,
    }
}

/// The Integer at a path.
pub fn integer_at(store: &Store, path: FullPath) -> Option<i64>
    ensures { result ≡ integer_in (value_at store.now path) }
{
    match store.get(path) {
        Some(Value::Whole(number)) => Some(*number),
        Some(_) => None,
        None => None,
    }
}

/// Whether a single resource of an instance of Access Control holds this number.
fn names(store: &Store, instance: u16, resource: u16, number: u16) -> bool
    ensures { result ≡ names store.now instance resource number }
{
    let path = control(instance, resource);
    match integer_at(store, path.single()) {
        Some(found) => found == i64::from(number),
        None => false,
    }
}

/// The entry of a server in the ACL of an instance of Access Control.
pub fn entry_of(store: &Store, instance: u16, server: u16) -> Option<i64>
    ensures { result ≡ entry_of store.now instance server }
{
    let acl = control(instance, ACL);
    integer_at(store, acl.part(server))
}

/// Whether an instance of Access Control refers to this object and instance.
fn speaks_of(store: &Store, control: u16, object: u16, instance: u16) -> bool
    ensures { result ≡ speaks_of store.now control object instance }
{
    names(store, control, OBJECT_ID, object) && names(store, control, OBJECT_INSTANCE_ID, instance)
}

/// The instance of Access Control that decides: the lowest that refers to this object and instance.
pub fn control_of(store: &Store, object: u16, instance: u16) -> Option<u16>
    ensures { result ≡ control_of store.now object instance }
{
    let mut controls = store.instances(ACCESS_CONTROL).iter().copied();
    controls.find(|control| speaks_of(store, *control, object, instance))
}

/// The right that an instance of Access Control gives a server.
fn right_by(store: &Store, server: u16, instance: Option<u16>) -> Rights
    ensures { result ≡ right_by store.now server instance }
{
    let Some(instance) = instance else {
        return NONE;
    };
    if let Some(number) = entry_of(store, instance, server) {
        return letters_of(number);
    }
    if names(store, instance, ACCESS_CONTROL_OWNER, server) {
        return EVERY;
    }
    match entry_of(store, instance, 0) {
        Some(number) => letters_of(number),
        None => NONE,
    }
}

/// The right of a server on an instance of Access Control.
fn right_on_control(store: &Store, server: u16, instance: u16) -> Rights
    ensures { result ≡ right_on_control store.now server instance }
{
    if names(store, instance, ACCESS_CONTROL_OWNER, server) {
        READ_WRITE
    } else {
        READ
    }
}

/// The right of a server on an object instance, in a device that has two accounts or more.
#[inline(never)]
fn rights_among(store: &Store, server: u16, object: u16, instance: u16) -> Rights
    ensures { result ≡ (if object == access_control_object then right_on_control store.now server instance
        else right_by store.now server (control_of store.now object instance)) }
{
    if object == ACCESS_CONTROL {
        return right_on_control(store, server, instance);
    }
    right_by(store, server, control_of(store, object, instance))
}

/// The right of a server on an object instance, in a device that has this many accounts, by the first case that applies
/// (OMA LwM2M 1.1 Core; the cases are this profile's). It holds of every store and server, and takes no memory.
#[inline]
pub fn rights(store: &Store, accounts: usize, server: u16, object: u16, instance: u16) -> Rights
    ensures { result ≡ right_of store.now accounts server object instance }
{
    if accounts <= 1 {
        return EVERY;
    }
    rights_among(store, server, object, instance)
}

/// Whether a server may create instances of an object, in a device that has this many accounts: letter C on instance
/// number 65535, which no instance has.
pub fn may_create(store: &Store, accounts: usize, server: u16, object: u16) -> bool
    ensures { result ≡ (right_of store.now accounts server object creation).create }
{
    rights(store, accounts, server, object, CREATION).create
}
