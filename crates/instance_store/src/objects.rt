//! The objects of a store, each with its instances: how a value or an instance is found, set and
//! removed.
ghost use Rattle.std.specs.Prelude.{◌≡◌, ◌≢◌, ◌<◌, ◌+◌, ◌^◌, ◌↔◌, not, None, Err, IfOk, OnOk, OnErr, IsErrOf};
ghost use Rattle.std.specs.Prelude.{IsTrue, IsFalse};
ghost use Rattle.std.specs.FinMap as map;
ghost use Rattle.std.specs.Option.{option_copied, is_some};
ghost use Rattle.instance_store.specs.Stored.{value_at, value_count, has_instance, instance_of};
ghost use Rattle.instance_store.specs.Stored.{resource_path, with_value};
ghost use Rattle.instance_store.specs.Stored.{without_values, with_instance, without_instance};
ghost use Rattle.instance_store.specs.Tree.{tree, stored_from, instance_below};

use crate::fault::StoreFault;
use crate::instance::Instance;
use crate::table::Table;
use lwm2m_values::Value;
use object_defs::{FullPath, InstancePath, ResourcePath};
use std::alloc::{AllocError, Global};

/// The instance at a path.
pub(crate) fn find(objects: &Table<Table<Instance>>, at: InstancePath) -> Option<&Instance>
    ensures { option_copied result ≡ map.get (tree objects.now) at }
{
    match objects.get(at.object) {
        Some(object) => object.get(at.instance),
        None => None,
    }
}

/// Sets a value of an instance, and returns whether there was none. It takes memory only then. `Absent`: there is no
/// such instance.
pub(crate) fn put_value(
    alloc: Global,
    objects: &mut Table<Table<Instance>>,
    path: FullPath,
    value: Value,
) -> Result<bool, StoreFault>
    ensures ok { OnOk result (stored_from objects.new ≡ with_value (stored_from objects.old) path value) }
    ensures added { IfOk result (λ added. added ≡ not (is_some (value_at (stored_from objects.old) path))) }
    ensures absent { IsErrOf result StoreFault.Absent
        ↔ IsFalse (has_instance (stored_from objects.old) (instance_below path)) }
    ensures never_exists { result ≢ Err StoreFault.Exists }
    ensures never_full { result ≢ Err StoreFault.Full }
    ensures may_lack_memory { IsErrOf result StoreFault.Memory → value_at (stored_from objects.old) path ≡ None }
    ensures err { OnErr result (stored_from objects.new ≡ stored_from objects.old) }
{
    match objects.get_mut(path.object) {
        Some(object) => match object.get_mut(path.instance) {
            Some(instance) => {
                let added = instance.put(alloc, path.resource, path.part, value)?;
                Ok(added)
            }
            None => Err(StoreFault::Absent),
        },
        None => Err(StoreFault::Absent),
    }
}

/// Removes the values of a resource of an instance, and returns how many there were.
pub(crate) fn clear_values(objects: &mut Table<Table<Instance>>, path: ResourcePath) -> usize
    requires present { IsTrue (has_instance (stored_from objects.old) (instance_of path)) }
    requires fits { value_count (stored_from objects.old) < 2 ^ 64 }
    ensures values { stored_from objects.new ≡ without_values (stored_from objects.old) (resource_path path) }
    ensures count { result + value_count (stored_from objects.new) ≡ value_count (stored_from objects.old) }
{
    match objects.get_mut(path.object) {
        Some(object) => match object.get_mut(path.instance) {
            Some(instance) => instance.clear(path.resource),
            None => unreachable!(),
        },
        None => unreachable!(),
    }
}

/// Removes an instance and its values, and returns how many values there were.
pub(crate) fn remove_instance(objects: &mut Table<Table<Instance>>, at: InstancePath) -> usize
    requires present { IsTrue (has_instance (stored_from objects.old) at) }
    requires fits { value_count (stored_from objects.old) < 2 ^ 64 }
    ensures values { stored_from objects.new ≡ without_instance (stored_from objects.old) at }
    ensures count { result + value_count (stored_from objects.new) ≡ value_count (stored_from objects.old) }
{
    let count = match find(objects, at) {
        Some(instance) => instance.len(),
        None => unreachable!(),
    };
    match objects.get_mut(at.object) {
        Some(object) => object.remove(at.instance),
        None => unreachable!(),
    }
    count
}

/// Adds an instance with no value.
pub(crate) fn add_instance(
    alloc: Global,
    objects: &mut Table<Table<Instance>>,
    at: InstancePath,
) -> Result<(), AllocError>
    requires { IsFalse (has_instance (stored_from objects.old) at) }
    ensures ok { OnOk result (stored_from objects.new ≡ with_instance (stored_from objects.old) at) }
    ensures err { OnErr result (stored_from objects.new ≡ stored_from objects.old) }
{
    match objects.get_mut(at.object) {
        Some(object) => {
            object.insert(at.instance, Instance::new(alloc))?;
        }
        None => {
            let mut object = Table::new(alloc);
            object.insert(at.instance, Instance::new(alloc))?;
            objects.insert(at.object, object)?;
        }
    }
    Ok(())
}
