ghost use Rattle.std.specs.Prelude.{◌≡◌, ◌<◌, ◌^◌, ◌++◌, ◌==◌, not, length, map, None, Some, OnOk, OnErr, IfOk, IsErr};
ghost use Rattle.std.specs.List.{filter, filter_map, dedup};
ghost use Rattle.std.specs.Option.{option_copied, is_some};
ghost use Rattle.std.specs.FinMap as fin_map;
ghost use Rattle.instance_store.specs.Listing.{shown_pairs};
ghost use Rattle.instance_store.specs.Nested.{block};
ghost use Rattle.instance_store.specs.Tree.{at_part, path_below, instance_values, value_at_part};

use crate::resource::Resource;
use crate::table::Table;
use lwm2m_values::Value;
use object_defs::{FullPath, InstancePath};
use std::alloc::{AllocError, Global};
use std::marker::Model;

/// The values of an object instance, by resource and part. A resource that is kept has a value.
#[derive(Drop)]
pub(crate) struct Instance {
    resources: Table<Resource>,
}

impl Model for Instance {
    ghost use Rattle.instance_store.specs.Tree.{InstanceValues, values_code, instance_values, HoldValues};

    ghost Value = { InstanceValues };

    ghost coded = { values_code };

    ghost view = { λ i. instance_values i.resources };

    ghost invariant = { λ i. HoldValues i.resources };
}

impl Clone for Instance {
    ghost use Rattle.std.specs.Prelude.{◌≡◌};

    ghost is_clone = { λ instance copy. copy ≡ instance };

    fn clone(&self) -> Result<Self, AllocError> {
        let resources = self.resources.clone()?;
        Ok(Instance { resources })
    }
}

/// How many values the resources have.
fn count_values(resources: &Table<Resource>) -> usize
    requires { fin_map.len (instance_values resources.now) < 2 ^ 64 }
    ensures { result ≡ fin_map.len (instance_values resources.now) }
{
    let mut count = 0;
    for index in 0..resources.len() {
        let (_, held) = resources.entry(index);
        count += held.len();
    }
    count
}

/// Puts the values of the resources of an instance, with their full paths, after others.
fn push_resources<'a>(
    found: &mut Vec<(FullPath, &'a Value)>,
    place: InstancePath,
    resources: &'a Table<Resource>,
) -> Result<(), AllocError>
    ensures { OnOk result (shown_pairs found.new.items
        ≡ shown_pairs found.old.items ++ block path_below place (fin_map.entries (instance_values resources.now))) }
{
    for index in 0..resources.len() {
        let (resource, held) = resources.entry(index);
        held.push_values(found, place.resource_path(resource))?;
    }
    Ok(())
}

impl Instance {
    /// An instance with no value.
    pub(crate) fn new(alloc: Global) -> Instance
        ensures { result ≡ fin_map.empty }
    {
        Instance {
            resources: Table::new(alloc),
        }
    }

    /// The value of a resource, or of its part.
    pub(crate) fn get(&self, resource: u16, part: Option<u16>) -> Option<&Value>
        ensures { option_copied result ≡ fin_map.get self.now (at_part resource part) }
    {
        match self.resources.get(resource) {
            Some(held) => held.get(part),
            None => None,
        }
    }

    /// Sets a value, and returns whether there was none. It takes memory only then.
    pub(crate) fn put(
        &mut self,
        alloc: Global,
        resource: u16,
        part: Option<u16>,
        value: Value,
    ) -> Result<bool, AllocError>
        ensures ok { OnOk result (self.new ≡ fin_map.insert self.old (at_part resource part) value) }
        ensures added { IfOk result (λ added. added ≡ not (fin_map.contains_key self.old (at_part resource part))) }
        ensures may_lack_memory { IsErr result → fin_map.get self.old (at_part resource part) ≡ None }
        ensures err { OnErr result (self.new ≡ self.old) }
    {
        match self.resources.get_mut(resource) {
            Some(held) => held.put(part, value),
            None => {
                let held = Resource::with_value(alloc, part, value)?;
                self.resources.insert(resource, held)
            }
        }
    }

    /// How many values a resource has.
    fn resource_len(&self, resource: u16) -> usize
        requires { length (filter (λ e. e.0.0 == resource) (fin_map.entries self.now)) < 2 ^ 64 }
        ensures { result ≡ length (filter (λ e. e.0.0 == resource) (fin_map.entries self.now)) }
    {
        match self.resources.get(resource) {
            Some(held) => held.len(),
            None => 0,
        }
    }

    /// Removes the values of a resource, and returns how many there were.
    pub(crate) fn clear(&mut self, resource: u16) -> usize
        requires { length (filter (λ e. e.0.0 == resource) (fin_map.entries self.old)) < 2 ^ 64 }
        ensures values { self.new ≡ fin_map.retain_keys self.old (λ k. not (k.0 == resource)) }
        ensures count { result ≡ length (filter (λ e. e.0.0 == resource) (fin_map.entries self.old)) }
    {
        let count = self.resource_len(resource);
        self.resources.remove(resource);
        count
    }

    /// How many values there are.
    pub(crate) fn len(&self) -> usize
        requires { fin_map.len self.now < 2 ^ 64 }
        ensures { result ≡ fin_map.len self.now }
    {
        count_values(&self.resources)
    }

    /// The numbers of the resources, ascending.
    pub(crate) fn resources(&self) -> &[u16]
        ensures { result.now ≡ dedup ◌==◌ (map (λ e. e.0.0) (fin_map.entries self.now)) }
    {
        self.resources.numbers()
    }

    /// The numbers of a resource's parts, ascending.
    pub(crate) fn parts(&self, resource: u16) -> &[u16]
        ensures { result.now
            ≡ filter_map (λ e. e.0.1) (filter (λ e. e.0.0 == resource) (fin_map.entries self.now)) }
    {
        match self.resources.get(resource) {
            Some(held) => held.parts(),
            None => &[],
        }
    }

    /// Puts the values of a resource, with their full paths, after others, in the order of these.
    pub(crate) fn push_resource<'a>(
        &'a self,
        found: &mut Vec<(FullPath, &'a Value)>,
        place: InstancePath,
        resource: u16,
    ) -> Result<(), AllocError>
        ensures { OnOk result (shown_pairs found.new.items ≡ shown_pairs found.old.items
            ++ block path_below place (filter (λ e. e.0.0 == resource) (fin_map.entries self.now))) }
    {
        match self.resources.get(resource) {
            Some(held) => held.push_values(found, place.resource_path(resource)),
            None => Ok(()),
        }
    }

    /// Puts all values, with their full paths, after others, in the order of these.
    pub(crate) fn push_values<'a>(
        &'a self,
        found: &mut Vec<(FullPath, &'a Value)>,
        place: InstancePath,
    ) -> Result<(), AllocError>
        ensures { OnOk result (shown_pairs found.new.items
            ≡ shown_pairs found.old.items ++ block path_below place (fin_map.entries self.now)) }
    {
        push_resources(found, place, &self.resources)
    }

    /// Puts the value of a part, with its full path, after others, where there is one.
    pub(crate) fn push_part<'a>(
        &'a self,
        found: &mut Vec<(FullPath, &'a Value)>,
        place: InstancePath,
        resource: u16,
        part: u16,
    ) -> Result<(), AllocError>
        ensures { OnOk result (shown_pairs found.new.items ≡ shown_pairs found.old.items
            ++ value_at_part place resource part (fin_map.get self.now (at_part resource (Some part)))) }
    {
        match self.get(resource, Some(part)) {
            Some(value) => {
                let path = place.resource_path(resource).part(part);
                found.push((path, value))?;
                Ok(())
            }
            None => Ok(()),
        }
    }
}
