ghost use Rattle.std.specs.Prelude.{◌≡◌, ◌≤◌, ◌<◌, ◌+◌, ◌^◌, ◌↔◌, ◌&&◌, not, length, IsTrue, IsFalse, IsErrOf, ◌≢◌};
ghost use Rattle.std.specs.Prelude.{[], true, None, Ok, Err, if◌then◌else◌, IfOk, IfSome, OnOk, OnErr};
ghost use Rattle.std.specs.FinMap as map;
ghost use Rattle.std.specs.Option.{option_copied, is_some};
ghost use Rattle.instance_store.specs.Existence.{is_held, has_resource};
ghost use Rattle.instance_store.specs.Listing.{shown_pairs};
ghost use Rattle.object_defs.specs.Path.{single_of, part_of};
ghost use Rattle.instance_store.specs.Stored.{value_at, value_count, has_instance, instances_of, instance_of};
ghost use Rattle.instance_store.specs.Stored.{resource_path, parts_of, resources_of, values_in, is_full, with_value};
ghost use Rattle.instance_store.specs.Stored.{without_values, without_instance, with_instance, empty};
ghost use Rattle.instance_store.specs.Tree.{instance_below};

use crate::fault::StoreFault;
use crate::instance::Instance;
use crate::listing::{is_bare, push_all, push_below, push_instances};
use crate::objects;
use crate::table::Table;
use lwm2m_values::Value;
use object_defs::{FullPath, InstancePath, Path, ResourceDef, ResourcePath};
use std::alloc::{AllocError, Global};
use std::marker::Model;

/// The values of a device by their full paths, and the instances that there are.
#[derive(Clone)]
pub struct Store {
    alloc: Global,
    objects: Table<Table<Instance>>,
    // How many values there are.
    count: usize,
}

/// By hand, so that a caller's proof has one step where it is dropped, and no case for each of its parts.
impl Drop for Store {
    fn drop(self) {
        let Store {
            alloc: _,
            objects: _objects,
            count: _,
        } = self;
    }
}

impl Model for Store {
    ghost use Rattle.std.specs.Prelude.{◌≡◌};
    ghost use Rattle.instance_store.specs.Stored.{Stored, stored_code, value_count};
    ghost use Rattle.instance_store.specs.Tree.{stored_from};

    ghost Value = { Stored };

    ghost coded = { stored_code };

    ghost view = { λ s. stored_from s.objects };

    ghost invariant = { λ s. s.count ≡ value_count (stored_from s.objects) };
}

/// The instance of a resource.
fn place_of(path: ResourcePath) -> InstancePath
    ensures { result ≡ instance_of path }
{
    InstancePath {
        object: path.object,
        instance: path.instance,
    }
}

/// The instance that a full path is below.
fn place_above(path: FullPath) -> InstancePath
    ensures { result ≡ instance_below path }
{
    InstancePath {
        object: path.object,
        instance: path.instance,
    }
}

impl Store {
    /// A store with no instance and no value.
    pub fn new(alloc: Global) -> Store
        ensures { result ≡ empty }
    {
        Store {
            alloc,
            objects: Table::new(alloc),
            count: 0,
        }
    }

    /// A copy, which equals its source. One of a store with no instance and no value takes no memory.
    pub fn copy(&self) -> Result<Store, AllocError>
        ensures copy { IfOk result (λ s. s ≡ self.now) }
        ensures may_lack_memory { OnErr result (self.now ≢ empty) }
    {
        if is_bare(&self.objects) {
            return Ok(Store::new(self.alloc));
        }
        self.clone()
    }

    /// The value at a full path.
    pub fn get(&self, path: FullPath) -> Option<&Value>
        ensures { option_copied result ≡ value_at self.now path }
    {
        match objects::find(&self.objects, place_above(path)) {
            Some(instance) => instance.get(path.resource, path.part),
            None => None,
        }
    }

    /// The single value of a resource. An instance that holds a value is there, so where this finds one nothing else
    /// needs to be looked up.
    pub fn single(&self, path: ResourcePath) -> Option<&Value>
        ensures value { option_copied result ≡ value_at self.now (single_of path) }
        ensures there { IfSome result (λ _. has_instance self.now (instance_of path) ≡ true) }
    {
        match objects::find(&self.objects, place_of(path)) {
            Some(instance) => instance.get(path.resource, None),
            None => None,
        }
    }

    /// How many values there are.
    pub fn len(&self) -> usize
        ensures { result ≡ value_count self.now }
    {
        self.count
    }

    /// Whether there is no value.
    pub fn is_empty(&self) -> bool
        ensures { IsTrue result ↔ (value_count self.now ≡ 0) }
    {
        self.len() == 0
    }

    /// Whether there is this instance.
    pub fn has_instance(&self, place: InstancePath) -> bool
        ensures { result ≡ has_instance self.now place }
    {
        match objects::find(&self.objects, place) {
            Some(_) => true,
            None => false,
        }
    }

    /// Adds an instance, which has no value: removing it again restores the store. `Exists`, then `Full`: the object
    /// has 64.
    pub fn add_instance(&mut self, place: InstancePath) -> Result<(), StoreFault>
        ensures ok { OnOk result (self.new ≡ with_instance self.old place) }
        ensures removal { OnOk result (without_instance self.new place ≡ self.old) }

        // The instance already exists; or else the object has 64.
        ensures exists { IsErrOf result StoreFault.Exists ↔ IsTrue (has_instance self.old place) }
        ensures full { IsErrOf result StoreFault.Full
            ↔ (IsFalse (has_instance self.old place) × (64 ≤ length (instances_of self.old place.object))) }
        ensures never_absent { result ≢ Err StoreFault.Absent }
        ensures unchanged { OnErr result (self.new ≡ self.old) }
    {
        if self.has_instance(place) {
            return Err(StoreFault::Exists);
        }
        if self.instances(place.object).len() >= 64 {
            return Err(StoreFault::Full);
        }
        objects::add_instance(self.alloc, &mut self.objects, place)?;
        Ok(())
    }

    /// Sets the single value of a resource. `Absent`: there is no such instance. Only a path without a value takes
    /// memory.
    pub fn put(&mut self, path: ResourcePath, value: Value) -> Result<(), StoreFault>
        ensures ok { OnOk result (self.new ≡ with_value self.old (single_of path) value) }

        // There is no such instance. Otherwise only an allocation can fail.
        ensures absent { IsErrOf result StoreFault.Absent ↔ IsFalse (has_instance self.old (instance_of path)) }
        ensures never_exists { result ≢ Err StoreFault.Exists }
        ensures never_full { result ≢ Err StoreFault.Full }
        ensures may_lack_memory { IsErrOf result StoreFault.Memory → value_at self.old (single_of path) ≡ None }
        ensures unchanged { OnErr result (self.new ≡ self.old) }
    {
        self.set(path.single(), value)
    }

    /// Sets a value of an instance. `Absent`: there is no such instance. It takes memory only where there is no value.
    fn set(&mut self, path: FullPath, value: Value) -> Result<(), StoreFault>
        ensures ok { OnOk result (self.new ≡ with_value self.old path value) }
        ensures absent { IsErrOf result StoreFault.Absent ↔ IsFalse (has_instance self.old (instance_below path)) }
        ensures never_exists { result ≢ Err StoreFault.Exists }
        ensures never_full { result ≢ Err StoreFault.Full }
        ensures may_lack_memory { IsErrOf result StoreFault.Memory → value_at self.old path ≡ None }
        ensures err { OnErr result (self.new ≡ self.old) }
    {
        if self.is_past_count(path) {
            return Err(StoreFault::Memory);
        }
        if objects::put_value(self.alloc, &mut self.objects, path, value)? {
            self.count += 1;
        }
        Ok(())
    }

    /// Whether a value at a full path would be new to its instance, and one more than can be counted.
    fn is_past_count(&self, path: FullPath) -> bool
        ensures new { IsTrue result → (IsTrue (has_instance self.now (instance_below path))
            × (value_at self.now path ≡ None)) }
        ensures fits { IsFalse result → IsTrue (has_instance self.now (instance_below path))
            → value_at self.now path ≡ None → value_count self.now + 1 < 2 ^ 64 }
    {
        if self.count < usize::MAX {
            return false;
        }
        self.lacks(path)
    }

    /// Whether an instance that there is has no value at a full path.
    #[cold]
    fn lacks(&self, path: FullPath) -> bool
        ensures { result ≡ has_instance self.now (instance_below path) && not (is_some (value_at self.now path)) }
    {
        self.has_instance(place_above(path)) && !self.holds(path)
    }

    /// Whether there is a value at a full path. Where there is one, its instance is there.
    pub fn holds(&self, path: FullPath) -> bool
        ensures value { result ≡ is_some (value_at self.now path) }
        ensures instance { IsTrue result
            → IsTrue (has_instance self.now (record { object = path.object; instance = path.instance })) }
    {
        match objects::find(&self.objects, place_above(path)) {
            Some(instance) => instance.get(path.resource, path.part).is_some(),
            None => false,
        }
    }

    /// Sets the value of a part of a resource. `Absent` (no such instance), then `Full` (a new part of a resource that
    /// has 32). Only a path without a value takes memory.
    pub fn put_part(
        &mut self,
        path: ResourcePath,
        part: u16,
        value: Value,
    ) -> Result<(), StoreFault>
        ensures ok { OnOk result (self.new ≡ with_value self.old (part_of path part) value) }

        // There is no such instance; or else the part is new and the resource has 32.
        ensures absent { IsErrOf result StoreFault.Absent ↔ IsFalse (has_instance self.old (instance_of path)) }
        ensures full { IsErrOf result StoreFault.Full
            ↔ (IsTrue (has_instance self.old (instance_of path)) × IsTrue (is_full self.old path part)) }
        ensures never_exists { result ≢ Err StoreFault.Exists }
        ensures may_lack_memory { IsErrOf result StoreFault.Memory → value_at self.old (part_of path part) ≡ None }
        ensures unchanged { OnErr result (self.new ≡ self.old) }
    {
        if self.is_full(path, part) {
            return Err(StoreFault::Full);
        }
        self.set(path.part(part), value)
    }

    /// Whether a part is new to a resource that has 32. The instance of one that has parts is there.
    fn is_full(&self, path: ResourcePath, part: u16) -> bool
        ensures full { result ≡ is_full self.now path part }
        ensures instance { IsTrue result → IsTrue (has_instance self.now (instance_of path)) }
    {
        if self.holds(path.part(part)) {
            return false;
        }
        let parts = self.part_numbers(path);
        parts.len() >= 32
    }

    /// Removes the single value and the parts of a resource; one that holds nothing stays as it is. `Absent`: there is
    /// no such instance.
    pub fn clear_resource(&mut self, path: ResourcePath) -> Result<(), StoreFault>
        ensures answer { result ≡ (if has_instance self.old (instance_of path) then Ok tt else Err StoreFault.Absent) }
        ensures ok { OnOk result (self.new ≡ without_values self.old (resource_path path)) }
        ensures unchanged { OnErr result (self.new ≡ self.old) }
    {
        if !self.has_instance(place_of(path)) {
            return Err(StoreFault::Absent);
        }
        self.count -= objects::clear_values(&mut self.objects, path);
        Ok(())
    }

    /// Removes an instance and every value below it. `Absent`: there is none.
    pub fn remove_instance(&mut self, place: InstancePath) -> Result<(), StoreFault>
        ensures answer { result ≡ (if has_instance self.old place then Ok tt else Err StoreFault.Absent) }
        ensures ok { OnOk result (self.new ≡ without_instance self.old place) }
        ensures unchanged { OnErr result (self.new ≡ self.old) }
    {
        if !self.has_instance(place) {
            return Err(StoreFault::Absent);
        }
        self.count -= objects::remove_instance(&mut self.objects, place);
        Ok(())
    }

    /// The values at or below a path, with their full paths, in the order of these.
    pub fn values_in(&self, path: Path) -> Result<Vec<(FullPath, &Value)>, AllocError>
        ensures { IfOk result (λ v. shown_pairs v.items ≡ values_in self.now path) }
    {
        let mut found = Vec::new(self.alloc);
        push_below(&mut found, &self.objects, path)?;
        Ok(found)
    }

    /// The numbers of an instance's resources that have a value, ascending.
    pub fn resources(&self, place: InstancePath) -> Result<Vec<u16>, AllocError>
        ensures { IfOk result (λ v. v.items ≡ resources_of self.now place) }
    {
        self.resource_numbers(place).to_vec(self.alloc)
    }

    /// The numbers of an instance's resources that have a value, ascending, by reference.
    fn resource_numbers(&self, place: InstancePath) -> &[u16]
        ensures { result.now ≡ resources_of self.now place }
    {
        match objects::find(&self.objects, place) {
            Some(instance) => instance.resources(),
            None => &[],
        }
    }

    /// How many parts of a resource have a value.
    pub fn part_count(&self, path: ResourcePath) -> usize
        ensures { result ≡ length (parts_of self.now path) }
    {
        self.part_numbers(path).len()
    }

    /// The numbers of a resource's parts that have a value, ascending, by reference.
    fn part_numbers(&self, path: ResourcePath) -> &[u16]
        ensures parts { result.now ≡ parts_of self.now path }
        ensures absent { IsFalse (has_instance self.now (instance_of path)) → result.now ≡ [] }
    {
        match objects::find(&self.objects, place_of(path)) {
            Some(instance) => instance.parts(path.resource),
            None => &[],
        }
    }

    /// Whether a resource is held: a multiple one with at least one part, another with its single
    /// value.
    pub fn is_held(&self, path: ResourcePath, multiple: bool) -> bool
        ensures { result ≡ is_held self.now path multiple }
    {
        if multiple {
            self.part_count(path) > 0
        } else {
            self.get(path.single()).is_some()
        }
    }

    /// Whether a resource exists: its instance does, and it is defined, and executable, write-only
    /// or held.
    pub fn has_resource(&self, path: ResourcePath, definition: Option<ResourceDef>) -> bool
        ensures { result ≡ has_resource self.now path definition }
    {
        if !self.has_instance(place_of(path)) {
            return false;
        }
        match definition {
            None => false,
            Some(definition) => {
                !definition.ops.can_read() || self.is_held(path, definition.multiple)
            }
        }
    }

    /// The numbers of a resource's parts that have a value, ascending.
    pub fn parts(&self, path: ResourcePath) -> Result<Vec<u16>, AllocError>
        ensures { IfOk result (λ v. v.items ≡ parts_of self.now path) }
    {
        self.part_numbers(path).to_vec(self.alloc)
    }

    /// All values, with their full paths, in the order of these.
    pub fn values(&self) -> Result<Vec<(FullPath, &Value)>, AllocError>
        ensures { IfOk result (λ v. shown_pairs v.items ≡ map.entries self.now.values) }
    {
        let mut found = Vec::new(self.alloc);
        push_all(&mut found, &self.objects)?;
        Ok(found)
    }

    /// All instances, in their order.
    pub fn all_instances(&self) -> Result<Vec<InstancePath>, AllocError>
        ensures { IfOk result (λ v. v.items ≡ map.keys self.now.instances) }
    {
        let mut found = Vec::new(self.alloc);
        push_instances(&mut found, &self.objects)?;
        Ok(found)
    }

    /// The numbers of an object's instances, ascending.
    pub fn instances(&self, object: u16) -> &[u16]
        ensures { result.now ≡ instances_of self.now object }
    {
        match self.objects.get(object) {
            Some(instances) => instances.numbers(),
            None => &[],
        }
    }
}
