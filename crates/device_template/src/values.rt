//! Which values may be held at a path, and how one is set.

ghost use Rattle.std.specs.Prelude.{◌≡◌, ◌≢◌, ◌↔◌, ◌||◌, not, IsErrOf, IsFalse, IsTrue, Err, OnOk, OnErr, None, Some};
ghost use Rattle.lwm2m_values.specs.Value.{IsGood};
ghost use Rattle.instance_store.specs.Stored.{has_instance, value_at, with_value};
ghost use Rattle.device_template.specs.Template.{plain};
ghost use Rattle.device_template.specs.Values.{fits, fits_object, fits_resource, has_all_parts, has_kind, has_place};
ghost use Rattle.device_template.specs.Values.{instance_at, is_one_too_many, is_set_at_start, misses, resource_at};

use instance_store::{Store, StoreFault};
use lwm2m_values::{Text, Value, ValueKind};
use object_defs::object_number::FIRMWARE_UPDATE;
use object_defs::resource_number::{PACKAGE_URI, UPDATE_RESULT, UPDATE_STATE};
use object_defs::{Catalog, FullPath, InstancePath, ObjectDef, ResourceDef, ResourcePath};
use octets::Bytes;
use std::alloc::Global;

/// The value of a kind that is empty, zero or false. It takes no memory.
pub(crate) fn plain(alloc: Global, kind: ValueKind) -> Value
    ensures { result ≡ plain kind }
{
    match kind {
        ValueKind::Text => Value::Text(Text::from_string(String::new(alloc))),
        ValueKind::Whole => Value::Whole(0),
        ValueKind::Flag => Value::Flag(false),
        ValueKind::Opaque => Value::Opaque(Bytes::new(alloc)),
        ValueKind::Moment => Value::Moment(0),
        ValueKind::Link => Value::Link(0, 0),
    }
}

/// Whether the value is of the kind.
fn has_kind(value: &Value, kind: ValueKind) -> bool
    ensures { result ≡ has_kind value.now kind }
{
    match value {
        Value::Text(_) => kind == ValueKind::Text,
        Value::Whole(_) => kind == ValueKind::Whole,
        Value::Flag(_) => kind == ValueKind::Flag,
        Value::Opaque(_) => kind == ValueKind::Opaque,
        Value::Moment(_) => kind == ValueKind::Moment,
        Value::Link(_, _) => kind == ValueKind::Link,
    }
}

/// Whether the device itself sets the value at its start.
fn is_set_at_start(path: FullPath) -> bool
    ensures { result ≡ is_set_at_start path }
{
    path.object == FIRMWARE_UPDATE
        && path.instance == 0
        && (path.resource == PACKAGE_URI
            || path.resource == UPDATE_STATE
            || path.resource == UPDATE_RESULT)
}

/// Whether the resource can be read, is of the value's kind, and has parts exactly where the path
/// names one.
fn fits_resource(path: FullPath, value: &Value, definition: Option<ResourceDef>) -> bool
    ensures { result ≡ fits_resource path value.now definition }
{
    let Some(definition) = definition else {
        return false;
    };
    if !definition.ops.can_read() || !has_kind(value, definition.kind) {
        return false;
    }
    if definition.multiple {
        path.part.is_some()
    } else {
        path.part.is_none()
    }
}

/// Whether the value fits its path and the definition there, in an object that is known.
fn fits_object(path: FullPath, value: &Value, object: &ObjectDef) -> bool
    ensures { result ≡ fits_object path value.now (Some object.now) }
{
    fits_resource(path, value, object.resource(path.resource).copied()) && !is_set_at_start(path)
}

/// Whether the value fits its path and the definition there, if its object is known.
pub fn fits(catalog: &Catalog, path: FullPath, value: &Value) -> bool
    ensures fits { result ≡ fits catalog.now path value.now }
    ensures good { IsTrue result → IsGood value.now }
{
    if !value.is_good() {
        return false;
    }
    match catalog.object(path.object) {
        None => true,
        Some(object) => fits_object(path, value, object),
    }
}

/// Whether the object and the instance are there.
pub(crate) fn has_place(catalog: &Catalog, store: &Store, path: FullPath) -> bool
    ensures { result ≡ has_place catalog.now store.now path }
{
    catalog.object(path.object).is_some() && store.has_instance(instance_at(path))
}

/// Whether the resource has the 32 parts that it may have.
pub(crate) fn has_all_parts(store: &Store, path: FullPath) -> bool
    ensures { result ≡ has_all_parts store.now path }
{
    path.part.is_some() && store.part_count(resource_at(path)) >= 32
}

fn instance_at(path: FullPath) -> InstancePath
    ensures { result ≡ instance_at path }
{
    InstancePath {
        object: path.object,
        instance: path.instance,
    }
}

fn resource_at(path: FullPath) -> ResourcePath
    ensures { result ≡ resource_at path }
{
    ResourcePath {
        object: path.object,
        instance: path.instance,
        resource: path.resource,
    }
}

/// Puts a value at a full path. `Absent` (the instance is not there), then `Full` (it would be the resource's 33rd
/// part). Only a path without a value takes memory.
pub fn put(store: &mut Store, path: FullPath, value: Value) -> Result<(), StoreFault>
    ensures ok { OnOk result (store.new ≡ with_value store.old path value) }
    ensures absent { IsErrOf result StoreFault.Absent ↔ IsFalse (has_instance store.old (instance_at path)) }
    ensures full { IsErrOf result StoreFault.Full
        ↔ (IsTrue (has_instance store.old (instance_at path)) × IsTrue (is_one_too_many store.old path)) }
    ensures never_exists { result ≢ Err StoreFault.Exists }
    ensures may_lack_memory { IsErrOf result StoreFault.Memory → value_at store.old path ≡ None }
    ensures err { OnErr result (store.new ≡ store.old) }
{
    match path.part {
        None => store.put(resource_at(path), value),
        Some(part) => store.put_part(resource_at(path), part, value),
    }
}

/// Whether a value has no place in the store: its instance is not there, or it would be a 33rd part. One that is held
/// has its place.
fn has_no_place(store: &Store, path: FullPath) -> bool
    ensures { result ≡ (not (has_instance store.now (instance_at path)) || is_one_too_many store.now path) }
{
    if store.holds(path) {
        return false;
    }
    !store.has_instance(instance_at(path)) || has_all_parts(store, path)
}

/// Whether a new value does not fit: its path or kind is wrong, its instance does not exist, or it would be a 33rd
/// part.
pub fn misses(catalog: &Catalog, store: &Store, path: FullPath, value: &Value) -> bool
    ensures { result ≡ misses catalog.now store.now (Some path) value.now }
{
    if !value.is_good() {
        return true;
    }
    match catalog.object(path.object) {
        None => true,
        Some(object) => !fits_object(path, value, object) || has_no_place(store, path),
    }
}
