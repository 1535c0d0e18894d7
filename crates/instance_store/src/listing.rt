//! What a store lists, in the order of the full paths.
ghost use Rattle.std.specs.Prelude.{◌≡◌, ◌↔◌, ◌++◌, map, IsTrue, OnOk};
ghost use Rattle.std.specs.FinMap as fin_map;
ghost use Rattle.instance_store.specs.Listing.{shown_pairs};
ghost use Rattle.instance_store.specs.Nested.{block, flat_entries};
ghost use Rattle.instance_store.specs.Stored.{empty, values_in};
ghost use Rattle.instance_store.specs.Tree.{tree, stored_from, place, path_below};

use crate::instance::Instance;
use crate::objects::find;
use crate::table::Table;
use lwm2m_values::Value;
use object_defs::{FullPath, InstancePath, Path};
use std::alloc::AllocError;

/// Puts the values of an object's instances, with their full paths, after others.
fn push_object<'a>(
    found: &mut Vec<(FullPath, &'a Value)>,
    number: u16,
    object: &'a Table<Instance>,
) -> Result<(), AllocError>
    ensures { OnOk result (shown_pairs found.new.items
        ≡ shown_pairs found.old.items ++ flat_entries path_below (block place number (fin_map.entries object.now))) }
{
    for index in 0..object.len() {
        let (instance, held) = object.entry(index);
        let at = InstancePath {
            object: number,
            instance,
        };
        held.push_values(found, at)?;
    }
    Ok(())
}

/// Puts all values, with their full paths, after others.
pub(crate) fn push_all<'a>(
    found: &mut Vec<(FullPath, &'a Value)>,
    objects: &'a Table<Table<Instance>>,
) -> Result<(), AllocError>
    ensures { OnOk result (shown_pairs found.new.items
        ≡ shown_pairs found.old.items ++ fin_map.entries (stored_from objects.now).values) }
{
    for index in 0..objects.len() {
        let (number, object) = objects.entry(index);
        push_object(found, number, object)?;
    }
    Ok(())
}

/// Puts the values at or below a path, with their full paths, after others.
pub(crate) fn push_below<'a>(
    found: &mut Vec<(FullPath, &'a Value)>,
    objects: &'a Table<Table<Instance>>,
    path: Path,
) -> Result<(), AllocError>
    ensures { OnOk result (shown_pairs found.new.items
        ≡ shown_pairs found.old.items ++ values_in (stored_from objects.now) path) }
{
    match path {
        Path::Object(object) => match objects.get(object) {
            Some(held) => push_object(found, object, held),
            None => Ok(()),
        },
        Path::Instance(object, instance) => {
            let at = InstancePath { object, instance };
            match find(objects, at) {
                Some(held) => held.push_values(found, at),
                None => Ok(()),
            }
        }
        Path::Resource(object, instance, resource) => {
            let at = InstancePath { object, instance };
            match find(objects, at) {
                Some(held) => held.push_resource(found, at, resource),
                None => Ok(()),
            }
        }
        Path::Part(object, instance, resource, part) => {
            let at = InstancePath { object, instance };
            match find(objects, at) {
                Some(held) => held.push_part(found, at, resource, part),
                None => Ok(()),
            }
        }
    }
}

/// Puts the instances of an object after others.
fn push_places(
    found: &mut Vec<InstancePath>,
    object: u16,
    numbers: &[u16],
) -> Result<(), AllocError>
    ensures { OnOk result (found.new.items ≡ found.old.items ++ map (place object) numbers.now) }
{
    for number in numbers {
        found.push(InstancePath {
            object,
            instance: *number,
        })?;
    }
    Ok(())
}

/// Puts all instances after others.
pub(crate) fn push_instances(
    found: &mut Vec<InstancePath>,
    objects: &Table<Table<Instance>>,
) -> Result<(), AllocError>
    ensures { OnOk result (found.new.items ≡ found.old.items ++ fin_map.keys (stored_from objects.now).instances) }
{
    for index in 0..objects.len() {
        let (number, object) = objects.entry(index);
        push_places(found, number, object.numbers())?;
    }
    Ok(())
}

/// Whether no object has an instance.
pub(crate) fn is_bare(objects: &Table<Table<Instance>>) -> bool
    ensures { IsTrue result ↔ (stored_from objects.now ≡ empty) }
{
    for index in 0..objects.len() {
        let (_, object) = objects.entry(index);
        if object.len() > 0 {
            return false;
        }
    }
    true
}
