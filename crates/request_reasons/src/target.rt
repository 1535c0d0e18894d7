//! Rule 7: what of a path is not there.

ghost use Rattle.std.specs.Prelude.{◌≡◌, Some};
ghost use Rattle.object_defs.specs.Lines.{first_line};
ghost use Rattle.device_requests.specs.Inside.{has_place};
ghost use Rattle.request_reasons.specs.Missing.{is_part_of_single, is_undefined, missing_lines};

use device_requests::definition_at;
use instance_store::Store;
use object_defs::{Catalog, InstancePath, Path};

/// What of a path is not there, from the object down.
#[derive(Clone, Copy)]
pub enum Missing {
    /// The device does not know the object.
    Object,
    /// The device does not have the instance.
    Instance,
    /// The object does not define the resource.
    Resource,
    /// The resource is a single one, which has no parts.
    Parts,
    /// The resource holds no value, or does not have the part.
    Value,
}

/// Whether the instance that a path names, or in which it lies, is there.
fn has_place(store: &Store, path: Path) -> bool
    ensures { result ≡ has_place store.now path }
{
    match path {
        Path::Object(_) => true,
        Path::Instance(object, instance)
        | Path::Resource(object, instance, _)
        | Path::Part(object, instance, _, _) => {
            store.has_instance(InstancePath { object, instance })
        }
    }
}

/// Whether a path names a resource that its object does not define.
fn is_undefined(catalog: &Catalog, path: Path) -> bool
    ensures { result ≡ is_undefined catalog.now path }
{
    match path {
        Path::Object(_) | Path::Instance(_, _) => false,
        Path::Resource(_, _, _) | Path::Part(_, _, _, _) => definition_at(catalog, path).is_none(),
    }
}

/// Whether a path names a part of a resource that has none.
fn is_part_of_single(catalog: &Catalog, path: Path) -> bool
    ensures { result ≡ is_part_of_single catalog.now path }
{
    match path {
        Path::Object(_) | Path::Instance(_, _) | Path::Resource(_, _, _) => false,
        Path::Part(_, _, _, _) => match definition_at(catalog, path) {
            None => true,
            Some(definition) => !definition.multiple,
        },
    }
}

/// What of a path is not there, where the target of an operation is missing.
pub(crate) fn missing_at(catalog: &Catalog, store: &Store, path: Path) -> Missing
    ensures { first_line (missing_lines catalog.now store.now path) ≡ Some result }
{
    if catalog.object(path.object()).is_none() {
        return Missing::Object;
    }
    if !has_place(store, path) {
        return Missing::Instance;
    }
    if is_undefined(catalog, path) {
        return Missing::Resource;
    }
    if is_part_of_single(catalog, path) {
        return Missing::Parts;
    }
    Missing::Value
}
