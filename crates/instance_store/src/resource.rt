ghost use Rattle.std.specs.Prelude.{◌≡◌, ◌<◌, ◌^◌, ◌++◌, map, not, None, IfOk, OnOk, OnErr, IsErr};
ghost use Rattle.std.specs.List.{filter_map};
ghost use Rattle.std.specs.Option.{option_copied};
ghost use Rattle.std.specs.FinMap as fin_map;
ghost use Rattle.instance_store.specs.Listing.{shown_pairs};
ghost use Rattle.instance_store.specs.Tree.{part_entries, path_in};

use crate::table::Table;
use lwm2m_values::Value;
use object_defs::{FullPath, ResourcePath};
use std::alloc::{AllocError, Global};
use std::marker::Model;

/// The values of a resource: its single value and its parts.
#[derive(Drop)]
pub(crate) struct Resource {
    single: Option<Value>,
    parts: Table<Value>,
}

impl Model for Resource {
    ghost use Rattle.instance_store.specs.Tree.{ResourceValues, resource_code, resource_values};

    ghost Value = { ResourceValues };

    ghost coded = { resource_code };

    ghost view = { λ r. resource_values r.single r.parts };
}

/// A copy of a single value.
fn copy_single(single: &Option<Value>) -> Result<Option<Value>, AllocError>
    ensures { IfOk result (λ o. o ≡ single.now) }
{
    match single {
        Some(value) => {
            let copy = value.clone()?;
            Ok(Some(copy))
        }
        None => Ok(None),
    }
}

impl Clone for Resource {
    ghost use Rattle.std.specs.Prelude.{◌≡◌};

    ghost is_clone = { λ resource copy. copy ≡ resource };

    fn clone(&self) -> Result<Self, AllocError> {
        let single = copy_single(&self.single)?;
        let parts = self.parts.clone()?;
        Ok(Resource { single, parts })
    }
}

/// Puts the parts of a resource, with their full paths, after others.
fn push_parts<'a>(
    found: &mut Vec<(FullPath, &'a Value)>,
    path: ResourcePath,
    parts: &'a Table<Value>,
) -> Result<(), AllocError>
    ensures { OnOk result (shown_pairs found.new.items
        ≡ shown_pairs found.old.items
        ++ map (λ e. (path_in path e.0, e.1)) (part_entries (fin_map.entries parts.now))) }
{
    for index in 0..parts.len() {
        let (number, value) = parts.entry(index);
        found.push((path.part(number), value))?;
    }
    Ok(())
}

impl Resource {
    /// A resource with no value. None is kept so.
    pub(crate) fn new(alloc: Global) -> Resource
        ensures { result ≡ fin_map.empty }
    {
        Resource {
            single: None,
            parts: Table::new(alloc),
        }
    }

    /// A resource that has one value.
    #[inline(never)]
    pub(crate) fn with_value(
        alloc: Global,
        part: Option<u16>,
        value: Value,
    ) -> Result<Resource, AllocError>
        ensures { IfOk result (λ r. r ≡ fin_map.insert fin_map.empty part value) }
    {
        let mut resource = Resource::new(alloc);
        resource.put(part, value)?;
        Ok(resource)
    }

    /// The single value, or the part of a number.
    pub(crate) fn get(&self, part: Option<u16>) -> Option<&Value>
        ensures { option_copied result ≡ fin_map.get self.now part }
    {
        match part {
            None => self.single.as_ref(),
            Some(number) => self.parts.get(number),
        }
    }

    /// Sets the single value, or the part of a number, and returns whether there was none. It takes
    /// memory only then.
    pub(crate) fn put(&mut self, part: Option<u16>, value: Value) -> Result<bool, AllocError>
        ensures ok { OnOk result (self.new ≡ fin_map.insert self.old part value) }
        ensures added { IfOk result (λ added. added ≡ not (fin_map.contains_key self.old part)) }
        ensures may_lack_memory { IsErr result → fin_map.get self.old part ≡ None }
        ensures err { OnErr result (self.new ≡ self.old) }
    {
        match part {
            None => {
                let added = self.single.is_none();
                self.single = Some(value);
                Ok(added)
            }
            Some(number) => self.parts.insert(number, value),
        }
    }

    /// How many values there are.
    pub(crate) fn len(&self) -> usize
        requires { fin_map.len self.now < 2 ^ 64 }
        ensures { result ≡ fin_map.len self.now }
    {
        match self.single {
            Some(_) => self.parts.len() + 1,
            None => self.parts.len(),
        }
    }

    /// The numbers of the parts, ascending.
    pub(crate) fn parts(&self) -> &[u16]
        ensures { result.now ≡ filter_map (λ e. e.0) (fin_map.entries self.now) }
    {
        self.parts.numbers()
    }

    /// Puts the values, with their full paths, after others, in the order of these.
    pub(crate) fn push_values<'a>(
        &'a self,
        found: &mut Vec<(FullPath, &'a Value)>,
        path: ResourcePath,
    ) -> Result<(), AllocError>
        ensures { OnOk result (shown_pairs found.new.items
            ≡ shown_pairs found.old.items ++ map (λ e. (path_in path e.0, e.1)) (fin_map.entries self.now)) }
    {
        match &self.single {
            Some(value) => {
                found.push((path.single(), value))?;
                push_parts(found, path, &self.parts)
            }
            None => push_parts(found, path, &self.parts),
        }
    }
}
