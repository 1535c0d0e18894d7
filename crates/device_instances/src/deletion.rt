ghost use Rattle.std.specs.Prelude.{◌≡◌, true, Ok, Err, OnOk, OnErr, if◌then◌else◌};
ghost use Rattle.instance_store.specs.Stored.{has_instance, without_instance};
ghost use Rattle.device_instances.specs.Deletions.{without_deleted};

use access_control::control_of;
use instance_store::{Store, StoreFault};
use object_defs::InstancePath;

/// Removes an instance that is there.
fn remove(store: &mut Store, place: InstancePath)
    requires { has_instance store.old place ≡ true }
    ensures { store.new ≡ without_instance store.old place }
{
    match store.remove_instance(place) {
        Ok(()) => {}
        Err(_) => unreachable!(),
    }
}

/// Deletes an instance with its values, and each instance of object 2 Access Control that refers to it, also where it
/// is one of object 2 itself. `Absent`: there is none. It takes no memory.
pub fn delete(store: &mut Store, place: InstancePath) -> Result<(), StoreFault>
    ensures answer { result ≡ (if has_instance store.old place then Ok tt else Err StoreFault.Absent) }
    ensures ok { OnOk result (store.new ≡ without_deleted store.old place) }
    ensures unchanged { OnErr result (store.new ≡ store.old) }
{
    if !store.has_instance(place) {
        return Err(StoreFault::Absent);
    }
    remove(store, place);
    while let Some(instance) = control_of(store, place.object, place.instance) {
        remove(
            store,
            InstancePath {
                object: 2,
                instance,
            },
        );
    }
    Ok(())
}
