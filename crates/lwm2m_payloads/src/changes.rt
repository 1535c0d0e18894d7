ghost use Rattle.std.specs.Prelude.{◌≡◌, ◌≢◌, ◌&&◌, Err, IsErrOf, IsFalse, IsTrue, OnOk, if◌then◌else◌};
ghost use Rattle.instance_store.specs.Stored.{has_instance, instance_of};
ghost use Rattle.lwm2m_payloads.specs.Changes.{gives_new, is_kept, is_lost, is_too_many, has_too_many, resource_of};
ghost use Rattle.lwm2m_payloads.specs.Changes.{with_parts, with_given, with_assignments, without_lost};
ghost use Rattle.lwm2m_payloads.specs.Changes.{instance_written, has_new};
ghost use Rattle.lwm2m_payloads.specs.declared.given.Given.TheVariants as given;
ghost use Rattle.lwm2m_payloads.specs.declared.given.Mode.TheVariants.{Update};

use crate::definitions::is_kept;
use crate::given::{Assignment, Assignments, Given, Mode, Parts};
use instance_store::{Store, StoreFault};
use object_defs::{InstancePath, ResourceDef, ResourcePath};

fn put_parts(store: &mut Store, path: ResourcePath, parts: Parts) -> Result<(), StoreFault>
    ensures ok { OnOk result (store.new ≡ with_parts store.old path parts) }
    ensures absent { IsErrOf result StoreFault.Absent → IsFalse (has_instance store.old (instance_of path)) }
    ensures full { IsErrOf result StoreFault.Full → IsTrue (is_too_many Update store.old path (given.Parts parts)) }
    ensures never_exists { result ≢ Err StoreFault.Exists }
    ensures may_lack_memory { IsErrOf result StoreFault.Memory
        → IsTrue (gives_new Update store.old path (given.Parts parts)) }
{
    for (part, value) in parts.into_vec() {
        store.put_part(path, part, value)?;
    }
    Ok(())
}

/// Sets what a resource is given: its single value, or parts. Under Replace it then has these parts and no others;
/// under Update it keeps the others. `Absent`: there is no such instance; `Full`: the resource would have more than 32
/// parts, for which `excess_of` is the test. An allocation can fail only if something is given, and kept, that
/// replaces no value. After an error some of its values may be gone or set.
pub fn set_given(
    mode: Mode,
    store: &mut Store,
    path: ResourcePath,
    given: Given,
) -> Result<(), StoreFault>
    ensures ok { OnOk result (store.new ≡ with_given mode store.old path given) }

    // There is no such instance; or else the resource would have more than 32 parts. Otherwise only an allocation can
    // fail, for a value that replaces none.
    ensures absent { IsErrOf result StoreFault.Absent → IsFalse (has_instance store.old (instance_of path)) }
    ensures full { IsErrOf result StoreFault.Full → IsTrue (is_too_many mode store.old path given) }
    ensures never_exists { result ≢ Err StoreFault.Exists }
    ensures may_lack_memory { IsErrOf result StoreFault.Memory → IsTrue (gives_new mode store.old path given) }
{
    match given {
        Given::Single(value) => store.put(path, value),
        Given::Parts(parts) => match mode {
            Mode::Replace => {
                store.clear_resource(path)?;
                put_parts(store, path, parts)
            }
            Mode::Update => put_parts(store, path, parts),
        },
    }
}

fn set_assigned(
    mode: Mode,
    resources: &[ResourceDef],
    store: &mut Store,
    place: InstancePath,
    assignment: Assignment,
) -> Result<(), StoreFault>
    ensures ok { OnOk result (store.new ≡ (if is_kept resources.now assignment
        then with_given mode store.old (resource_of place assignment.resource) assignment.given else store.old)) }
    ensures absent { IsErrOf result StoreFault.Absent → IsFalse (has_instance store.old place) }
    ensures full { IsErrOf result StoreFault.Full
        → IsTrue (is_kept resources.now assignment
        && is_too_many mode store.old (resource_of place assignment.resource) assignment.given) }
    ensures never_exists { result ≢ Err StoreFault.Exists }
    ensures may_lack_memory { IsErrOf result StoreFault.Memory
        → IsTrue (is_kept resources.now assignment
        && gives_new mode store.old (resource_of place assignment.resource) assignment.given) }
{
    if !is_kept(resources, assignment.resource) {
        return Ok(());
    }
    let path = place.resource_path(assignment.resource);
    set_given(mode, store, path, assignment.given)
}

fn set_all(
    mode: Mode,
    resources: &[ResourceDef],
    store: &mut Store,
    place: InstancePath,
    given: Assignments,
) -> Result<(), StoreFault>
    ensures ok { OnOk result (store.new ≡ with_assignments mode resources.now store.old place given) }
    ensures absent { IsErrOf result StoreFault.Absent → IsFalse (has_instance store.old place) }
    ensures full { IsErrOf result StoreFault.Full → IsTrue (has_too_many mode resources.now store.old place given) }
    ensures never_exists { result ≢ Err StoreFault.Exists }
    ensures may_lack_memory { IsErrOf result StoreFault.Memory
        → IsTrue (has_new mode resources.now store.old place given) }
{
    for assignment in given.into_vec() {
        set_assigned(mode, resources, store, place, assignment)?;
    }
    Ok(())
}

/// Whether Replace removes a resource: an optional writable one that is not named.
fn is_lost(given: &Assignments, definition: ResourceDef) -> bool
    ensures { result ≡ is_lost given.now definition }
{
    !definition.mandatory && definition.ops.can_write() && !given.has(definition.id)
}

fn clear_lost(
    resources: &[ResourceDef],
    store: &mut Store,
    place: InstancePath,
    given: &Assignments,
) -> Result<(), StoreFault>
    ensures ok { OnOk result (store.new ≡ without_lost resources.now store.old place given.now) }
    ensures absent { IsErrOf result StoreFault.Absent → IsFalse (has_instance store.old place) }
    ensures never_full { result ≢ Err StoreFault.Full }
    ensures never_exists { result ≢ Err StoreFault.Exists }
    ensures never_memory { result ≢ Err StoreFault.Memory }
{
    for definition in resources {
        if is_lost(given, *definition) {
            store.clear_resource(place.resource_path(definition.id))?;
        }
    }
    Ok(())
}

/// Writes what an instance is given (OMA LwM2M 1.1 Core, Write). Replace first takes away the optional writable
/// resources that are not named. Values of write-only resources are not kept. `Absent`: there is no such instance;
/// `Full`: a resource would have more than 32 parts, for which `first_excess` is the test. An allocation can fail only
/// if something is given, and kept, that replaces no value. After an error a part of this may be done.
pub fn write_instance(
    mode: Mode,
    resources: &[ResourceDef],
    store: &mut Store,
    place: InstancePath,
    given: Assignments,
) -> Result<(), StoreFault>
    ensures ok { OnOk result (store.new ≡ instance_written mode resources.now store.old place given) }

    // There is no such instance; or else some resource would have more than 32 parts. Otherwise only an allocation can
    // fail, for a value that replaces none.
    ensures absent { IsErrOf result StoreFault.Absent → IsFalse (has_instance store.old place) }
    ensures full { IsErrOf result StoreFault.Full → IsTrue (has_too_many mode resources.now store.old place given) }
    ensures never_exists { result ≢ Err StoreFault.Exists }
    ensures may_lack_memory { IsErrOf result StoreFault.Memory
        → IsTrue (has_new mode resources.now store.old place given) }
{
    match mode {
        Mode::Replace => {
            clear_lost(resources, store, place, &given)?;
            set_all(Mode::Replace, resources, store, place, given)
        }
        Mode::Update => set_all(Mode::Update, resources, store, place, given),
    }
}
