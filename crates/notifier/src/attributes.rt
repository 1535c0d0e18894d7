ghost use Rattle.std.specs.Prelude.{◌≡◌, ◌≢◌, ◌↔◌, [], pos, ◌+ℤ◌, ◌*ℤ◌, int_lt, ◌==◌, not, filter, map as map_list};
ghost use Rattle.std.specs.Prelude.{None, Err, IfOk, OnOk, OnErr, IsErrOf, IsSome, IsTrue, IsFalse, is_none, is_some};
ghost use Rattle.std.specs.Prelude.{◌&&◌};
ghost use Rattle.std.specs.List.{list_any};
ghost use Rattle.std.specs.FinMap as map;
ghost use Rattle.object_defs.specs.declared.path.Path.TheVariants as paths;
ghost use Rattle.notifier.specs.Attributes.{key_cmp, key_of, path_of, assigned_number, effective, with_number};
ghost use Rattle.notifier.specs.Attributes.{with_changes, agree, is_consistent, has_number, lies_under, without_under};
ghost use Rattle.notifier.specs.Attributes.{attributes_of_server, sets_new};
ghost use Rattle.notifier.specs.Inside.{AreOfDistinctNames, all_names, change_as_in, changes_as_in, numbers_in};

use crate::attribute::{AttributeKey, Change, Name};
use crate::fault::WriteFault;
use object_defs::Path;
use std::alloc::{AllocError, Global};
use std::collections::BTreeMap;
use std::marker::Model;

/// The attributes that servers write. Contracts see a finite map from their keys to their numbers.
pub struct Attributes {
    alloc: Global,
    numbers: BTreeMap<AttributeKey, i64>,
}

/// By hand, so that a caller's proof has one step where it is dropped, and no case for each of its parts.
impl Drop for Attributes {
    fn drop(self) {
        let Attributes {
            alloc: _,
            numbers: _numbers,
        } = self;
    }
}

impl Model for Attributes {
    ghost use Rattle.std.specs.Coded.{coded_ℤ};
    ghost use Rattle.std.specs.FinMap as map;
    ghost use Rattle.notifier.specs.Attributes.{Numbers, key_code};

    ghost Value = { Numbers };

    ghost coded = { map.code key_code coded_ℤ };

    ghost view = { λ a. map.from_entries a.numbers.entries };
}

/// The number at a key.
fn number_at(numbers: &BTreeMap<AttributeKey, i64>, key: AttributeKey) -> Option<i64>
    ensures { result ≡ map.get (map.from_entries {R = key_cmp} numbers.now.entries) key }
{
    numbers.get(&key).copied()
}

/// A clone of a map.
fn clone_of(
    numbers: &BTreeMap<AttributeKey, i64>,
) -> Result<BTreeMap<AttributeKey, i64>, AllocError>
    ensures { IfOk result (λ m. m.entries ≡ numbers.now.entries) }
{
    numbers.clone()
}

/// Sets the number at a key. Only a key that has none takes memory.
fn set(
    numbers: &mut BTreeMap<AttributeKey, i64>,
    key: AttributeKey,
    number: i64,
) -> Result<(), AllocError>
    ensures ok { OnOk result (numbers_in numbers.new.entries
        ≡ map.insert (numbers_in numbers.old.entries) key number) }
    ensures absent { OnErr result (map.get (numbers_in numbers.old.entries) key ≡ None) }
    ensures err { OnErr result (numbers_in numbers.new.entries ≡ numbers_in numbers.old.entries) }
{
    numbers.insert(key, number)?;
    Ok(())
}

/// Unsets the number at a key.
fn unset(numbers: &mut BTreeMap<AttributeKey, i64>, key: AttributeKey)
    ensures { numbers_in numbers.new.entries ≡ map.remove (numbers_in numbers.old.entries) key }
{
    numbers.remove(&key);
}

/// Sets the number at a key that has none, if there is one to set. Returns whether it did: only then it takes memory.
fn set_absent(
    numbers: &mut BTreeMap<AttributeKey, i64>,
    key: AttributeKey,
    number: Option<i64>,
) -> Result<bool, AllocError>
    ensures absent { IfOk result (λ done. IsTrue done → map.get (numbers_in numbers.old.entries) key ≡ None) }
    ensures some { IfOk result (λ done. IsTrue done → IsSome number) }
    ensures made { IfOk result (λ done. IsTrue done → numbers_in numbers.new.entries
        ≡ with_number (numbers_in numbers.old.entries) key number) }
    ensures present { IfOk result (λ done. IsFalse done → IsSome number
        → IsSome (map.get (numbers_in numbers.old.entries) key)) }
    ensures kept { IfOk result (λ done. IsFalse done → numbers_in numbers.new.entries
        ≡ numbers_in numbers.old.entries) }
    ensures may_lack_memory { OnErr result (IsSome number × (map.get (numbers_in numbers.old.entries) key ≡ None)) }
    ensures err { OnErr result (numbers_in numbers.new.entries ≡ numbers_in numbers.old.entries) }
{
    let Some(number) = number else {
        return Ok(false);
    };
    if number_at(numbers, key).is_some() {
        return Ok(false);
    }
    set(numbers, key, number)?;
    Ok(true)
}

/// Sets the number at a key that has one, or unsets it. It takes no memory.
fn replace(numbers: &mut BTreeMap<AttributeKey, i64>, key: AttributeKey, number: Option<i64>)
    requires { IsSome number → IsSome (map.get (numbers_in numbers.old.entries) key) }
    ensures { numbers_in numbers.new.entries ≡ with_number (numbers_in numbers.old.entries) key number }
{
    match number {
        Some(number) => set(numbers, key, number).unwrap(),
        None => unset(numbers, key),
    }
}

/// The number that an attribute has after these changes.
fn number_after(
    numbers: &BTreeMap<AttributeKey, i64>,
    server: u16,
    path: Path,
    changes: &[Change],
    name: Name,
) -> Option<i64>
    ensures { result ≡ assigned_number (with_changes (map.from_entries numbers.now.entries) server path changes.now)
        server path
        name }
{
    let mut number = number_at(numbers, AttributeKey::new(server, path, name));
    for change in changes {
        if change.name == name {
            number = change.number;
        }
    }
    number
}

/// The change of an attribute to the number that it has after these changes.
fn change_after(
    numbers: &BTreeMap<AttributeKey, i64>,
    server: u16,
    path: Path,
    changes: &[Change],
    name: Name,
) -> Change
    ensures { result ≡ change_as_in (with_changes (numbers_in numbers.now.entries) server path changes.now)
        server path
        name }
{
    Change {
        name,
        number: number_after(numbers, server, path, changes, name),
    }
}

/// The change of each attribute to the number that it has after these changes.
fn changes_by_name(
    numbers: &BTreeMap<AttributeKey, i64>,
    server: u16,
    path: Path,
    changes: &[Change],
) -> [Change; 5]
    ensures { result ≡ changes_as_in (with_changes (numbers_in numbers.now.entries) server path changes.now)
        server path
        all_names }
{
    [
        change_after(numbers, server, path, changes, Name::Pmin),
        change_after(numbers, server, path, changes, Name::Pmax),
        change_after(numbers, server, path, changes, Name::Gt),
        change_after(numbers, server, path, changes, Name::Lt),
        change_after(numbers, server, path, changes, Name::St),
    ]
}

/// Makes these changes, no two of one name. All that takes memory comes first: a number that is new is set before the
/// later changes are made, and unset again where one of them runs out of memory. One that is there is replaced after
/// them. So an error changes nothing.
fn apply_changes(
    numbers: &mut BTreeMap<AttributeKey, i64>,
    server: u16,
    path: Path,
    changes: &[Change],
) -> Result<(), AllocError>
    requires distinct { AreOfDistinctNames changes.now }
    ensures ok { OnOk result (numbers_in numbers.new.entries
        ≡ with_changes (numbers_in numbers.old.entries) server path changes.now) }
    ensures may_lack_memory { OnErr result
        (IsTrue (list_any (sets_new (numbers_in numbers.old.entries) server path) changes.now)) }
    ensures err { OnErr result (numbers_in numbers.new.entries ≡ numbers_in numbers.old.entries) }
{
    let Some((change, later)) = changes.split_first() else {
        return Ok(());
    };
    let key = AttributeKey::new(server, path, change.name);
    if set_absent(numbers, key, change.number)? {
        if let Err(error) = apply_changes(numbers, server, path, later) {
            unset(numbers, key);
            return Err(error);
        }
        return Ok(());
    }
    apply_changes(numbers, server, path, later)?;
    replace(numbers, key, change.number);
    Ok(())
}

/// Makes these changes in place, the later over the earlier. An error changes nothing.
fn write_changes(
    numbers: &mut BTreeMap<AttributeKey, i64>,
    server: u16,
    path: Path,
    changes: &[Change],
) -> Result<(), AllocError>
    ensures ok { OnOk result (numbers_in numbers.new.entries
        ≡ with_changes (numbers_in numbers.old.entries) server path changes.now) }
    ensures may_lack_memory { OnErr result
        (IsTrue (list_any (sets_new (numbers_in numbers.old.entries) server path) changes.now)) }
    ensures only_with_changes { OnErr result (changes.now ≢ []) }
    ensures err { OnErr result (numbers_in numbers.new.entries ≡ numbers_in numbers.old.entries) }
{
    let by_name = changes_by_name(numbers, server, path, changes);
    apply_changes(numbers, server, path, &by_name)
}

/// The number two steps above lt.
fn two_steps_above(lt: i64, st: i64) -> i128
    ensures { result ≡ lt +ℤ (pos 2 *ℤ st) }
{
    i128::from(lt) + 2 * i128::from(st)
}

/// Whether two steps above lt are below gt.
fn leaves_step(gt: i64, lt: i64, st: i64) -> bool
    ensures { result ≡ int_lt (lt +ℤ (pos 2 *ℤ st)) gt }
{
    two_steps_above(lt, st) < i128::from(gt)
}

/// Whether gt, lt and st agree.
fn agree(gt: Option<i64>, lt: Option<i64>, st: Option<i64>) -> bool
    ensures { result ≡ agree gt lt st }
{
    match (gt, lt, st) {
        (Some(gt), Some(lt), None) => lt < gt,
        (Some(gt), Some(lt), Some(st)) => { lt < gt && leaves_step(gt, lt, st) }
        _ => true,
    }
}

/// Whether a number of a path is this one.
fn has_number(number: u16, found: Option<u16>) -> bool
    ensures { result ≡ has_number number found }
{
    match found {
        Some(found) => found == number,
        None => false,
    }
}

/// Whether the path of a key is a path or lies below it.
fn lies_under(path: Path, key: AttributeKey) -> bool
    ensures { result ≡ lies_under path key }
{
    match path {
        Path::Object(object) => key.object == object,
        Path::Instance(object, instance) => {
            key.object == object && has_number(instance, key.instance)
        }
        Path::Resource(object, instance, resource) => {
            key.object == object
                && has_number(instance, key.instance)
                && has_number(resource, key.resource)
        }
        Path::Part(object, instance, resource, part) => {
            key.object == object
                && has_number(instance, key.instance)
                && has_number(resource, key.resource)
                && has_number(part, key.part)
        }
    }
}

/// Keeps the numbers of the keys that do not lie under a path.
fn keep_elsewhere(numbers: &mut BTreeMap<AttributeKey, i64>, path: Path)
    ensures { numbers.new.entries ≡ filter (λ e. not (lies_under path e.0)) numbers.old.entries }
{
    numbers.retain(
        |key: &AttributeKey, number: &mut i64| -> bool
            ensures { (result ≡ not (lies_under path key.now)) × (number.new ≡ number.old) }
        { !lies_under(path, *key) },
    );
}

/// The attributes of a server, in the order of the map.
fn list_of(
    alloc: Global,
    numbers: &BTreeMap<AttributeKey, i64>,
    server: u16,
) -> Result<Vec<(Path, Name, i64)>, AllocError>
    ensures listed { IfOk result (λ v. v.items ≡ attributes_of_server (map.from_entries numbers.now.entries) server) }
    ensures may_lack_memory { OnErr result (attributes_of_server
        (map.from_entries {R = key_cmp} numbers.now.entries) server ≢ []) }
{
    let mut found = Vec::new(alloc);
    for (key, number) in numbers {
        if key.server == server {
            found.push((key.path(), key.name, *number))?;
        }
    }
    Ok(found)
}

impl Attributes {
    /// No attribute.
    pub fn new(alloc: Global) -> Attributes
        ensures { result ≡ map.empty }
    {
        Attributes {
            alloc,
            numbers: BTreeMap::new(alloc),
        }
    }

    /// A copy, which equals its source. Only an attribute takes memory.
    pub fn copy(&self) -> Result<Attributes, AllocError>
        ensures same { IfOk result (λ a. a ≡ self.now) }
        ensures may_lack_memory { OnErr result (self.now ≢ map.empty) }
    {
        if self.numbers.is_empty() {
            return Ok(Attributes::new(self.alloc));
        }
        Ok(Attributes {
            alloc: self.alloc,
            numbers: clone_of(&self.numbers)?,
        })
    }

    /// The number that a server set for a path itself: seconds of pmin and pmax, thousandths of gt,
    /// lt and st.
    pub fn assigned(&self, server: u16, path: Path, name: Name) -> Option<i64>
        ensures { result ≡ assigned_number self.now server path name }
    {
        number_at(&self.numbers, AttributeKey::new(server, path, name))
    }

    /// The number that has effect for a server on a path: of the lowest level that has one, its
    /// resource, its instance or its object. A resource instance has none of its own.
    pub fn effective(&self, server: u16, path: Path, name: Name) -> Option<i64>
        ensures { result ≡ effective self.now server path name }
    {
        match path {
            Path::Object(object) => self.assigned(server, Path::Object(object), name),
            Path::Instance(object, instance) => {
                self.effective_of_instance(server, object, instance, name)
            }
            Path::Resource(object, instance, resource) => {
                self.effective_of_resource(server, object, instance, resource, name)
            }
            Path::Part(object, instance, resource, _) => {
                self.effective_of_resource(server, object, instance, resource, name)
            }
        }
    }

    fn effective_of_instance(
        &self,
        server: u16,
        object: u16,
        instance: u16,
        name: Name,
    ) -> Option<i64>
        ensures { result ≡ effective self.now server (paths.Instance object instance) name }
    {
        match self.assigned(server, Path::Instance(object, instance), name) {
            Some(number) => Some(number),
            None => self.assigned(server, Path::Object(object), name),
        }
    }

    fn effective_of_resource(
        &self,
        server: u16,
        object: u16,
        instance: u16,
        resource: u16,
        name: Name,
    ) -> Option<i64>
        ensures { result ≡ effective self.now server (paths.Resource object instance resource) name }
    {
        match self.assigned(server, Path::Resource(object, instance, resource), name) {
            Some(number) => Some(number),
            None => self.effective_of_instance(server, object, instance, name),
        }
    }

    /// Whether the numbers of a server on a path would agree after these changes.
    fn stays_consistent(&self, server: u16, path: Path, changes: &[Change]) -> bool
        ensures { result ≡ is_consistent (with_changes self.now server path changes.now) server path }
    {
        agree(
            number_after(&self.numbers, server, path, changes, Name::Gt),
            number_after(&self.numbers, server, path, changes, Name::Lt),
            number_after(&self.numbers, server, path, changes, Name::St),
        )
    }

    /// Makes these changes for a server on a path, the later over the earlier. `Inconsistent` exactly if the numbers of
    /// this server on this path would then not keep lt < gt, or lt + 2 st < gt. An error changes nothing, and only an
    /// attribute that had no number takes memory. The levels at which attributes stand are not looked at.
    pub fn write(&mut self, server: u16, path: Path, changes: &[Change]) -> Result<(), WriteFault>
        ensures ok { OnOk result (self.new ≡ with_changes self.old server path changes.now) }
        ensures inconsistent { IsErrOf result WriteFault.Inconsistent
            ↔ IsFalse (is_consistent (with_changes self.old server path changes.now) server path) }

        // A change that unsets an attribute takes no memory, nor does one of a number that is set.
        ensures may_lack_memory { IsErrOf result WriteFault.Memory
            → IsTrue (list_any (sets_new self.old server path) changes.now) }
        ensures only_with_changes { IsErrOf result WriteFault.Memory → changes.now ≢ [] }
        ensures unchanged { OnErr result (self.new ≡ self.old) }
    {
        if !self.stays_consistent(server, path, changes) {
            return Err(WriteFault::Inconsistent);
        }
        write_changes(&mut self.numbers, server, path, changes)?;
        Ok(())
    }

    /// The attributes of a server with their paths, by the numbers of the paths, a path before those below it, and then
    /// by name: pmin, pmax, gt, lt, st. Only an attribute of the server takes memory.
    pub fn list(&self, server: u16) -> Result<Vec<(Path, Name, i64)>, AllocError>
        ensures listed { IfOk result (λ v. v.items ≡ attributes_of_server self.now server) }

        // Only attributes of the server take memory.
        ensures may_lack_memory { OnErr result (attributes_of_server self.now server ≢ []) }
    {
        list_of(self.alloc, &self.numbers, server)
    }

    /// Removes the attributes of every server at or below a path.
    pub fn remove_under(&mut self, path: Path)
        ensures { self.new ≡ without_under self.old path }
    {
        keep_elsewhere(&mut self.numbers, path);
    }
}
