//! The targets of operations: how the catalog defines a path, and which paths exist.

ghost use Rattle.std.specs.Prelude.{◌≡◌};
ghost use Rattle.device_requests.specs.Refusals.{is_fixed};
ghost use Rattle.device_requests.specs.Targets.{definition_at, exists, is_multiple, is_readable, is_resource};
ghost use Rattle.device_requests.specs.Targets.{resource_place, resources_defined};

use instance_store::Store;
use object_defs::object_number::{ACCESS_CONTROL, DEVICE, FIRMWARE_UPDATE, SERVER};
use object_defs::{Catalog, InstancePath, Path, ResourceDef, ResourcePath};

/// The path of a resource.
pub(crate) fn resource_place(object: u16, instance: u16, resource: u16) -> ResourcePath
    ensures { result ≡ resource_place object instance resource }
{
    ResourcePath {
        object,
        instance,
        resource,
    }
}

/// Whether a path is that of this resource, in any instance.
pub(crate) fn is_resource(object: u16, resource: u16, path: Path) -> bool
    ensures { result ≡ is_resource object resource path }
{
    match path {
        Path::Resource(o, _, r) => o == object && r == resource,
        Path::Object(_) | Path::Instance(_, _) | Path::Part(_, _, _, _) => false,
    }
}

/// Whether servers create and delete no instances of the object.
pub fn is_fixed(object: u16) -> bool
    ensures { result ≡ is_fixed object }
{
    object == SERVER || object == ACCESS_CONTROL || object == DEVICE || object == FIRMWARE_UPDATE
}

/// The definitions of an object's resources; none where the object is not known.
pub fn defined(catalog: &Catalog, object: u16) -> &[ResourceDef]
    ensures { result.now ≡ resources_defined catalog.now object }
{
    match catalog.object(object) {
        None => &[],
        Some(object) => object.resources.as_slice(),
    }
}

/// The definition of the resource that a path names.
pub fn definition_at(catalog: &Catalog, path: Path) -> Option<ResourceDef>
    ensures { result ≡ definition_at catalog.now path }
{
    match path {
        Path::Object(_) | Path::Instance(_, _) => None,
        Path::Resource(object, _, resource) => catalog.resource(object, resource).copied(),
        Path::Part(object, _, resource, _) => catalog.resource(object, resource).copied(),
    }
}

/// Whether a resource is defined, and as a multiple one.
pub(crate) fn is_multiple(definition: Option<ResourceDef>) -> bool
    ensures { result ≡ is_multiple definition }
{
    match definition {
        None => false,
        Some(definition) => definition.multiple,
    }
}

/// Whether a resource is defined, and can be read.
pub fn is_readable(definition: Option<ResourceDef>) -> bool
    ensures { result ≡ is_readable definition }
{
    match definition {
        None => false,
        Some(definition) => definition.ops.can_read(),
    }
}

/// Whether a path exists: an object in the catalog, an instance in the store, a resource by its
/// definition, a part where its resource is multiple and holds it.
pub(crate) fn exists(catalog: &Catalog, store: &Store, path: Path) -> bool
    ensures { result ≡ exists catalog.now store.now path }
{
    exists_as(catalog, store, path, definition_at(catalog, path))
}

/// Like `exists`, for a caller that has looked up the definition of the resource.
pub(crate) fn exists_as(
    catalog: &Catalog,
    store: &Store,
    path: Path,
    definition: Option<ResourceDef>,
) -> bool
    requires { definition ≡ definition_at catalog.now path }
    ensures { result ≡ exists catalog.now store.now path }
{
    match path {
        Path::Object(object) => catalog.object(object).is_some(),
        Path::Instance(object, instance) => {
            catalog.object(object).is_some()
                && store.has_instance(InstancePath { object, instance })
        }
        Path::Resource(object, instance, resource) => {
            let place = resource_place(object, instance, resource);
            store.has_resource(place, definition)
        }
        Path::Part(object, instance, resource, part) => {
            let place = resource_place(object, instance, resource);
            store.has_instance(InstancePath { object, instance })
                && is_multiple(definition)
                && store.get(place.part(part)).is_some()
        }
    }
}
