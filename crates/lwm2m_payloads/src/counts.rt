ghost use Rattle.std.specs.Prelude.{◌≡◌, ℕ, ◌^◌, ◌-◌, length, min, IfOk, OnErr, IsTrue};
ghost use Rattle.std.specs.List.{filter, list_any};
ghost use Rattle.instance_store.specs.Stored.{parts_of};
ghost use Rattle.lwm2m_payloads.specs.Changes.{KeepsParts, above_limit, excess_by, excess_of, first_excess, is_kept};
ghost use Rattle.lwm2m_payloads.specs.Changes.{is_other, parts_behind};
ghost use Rattle.lwm2m_payloads.specs.declared.given.Mode.TheVariants.{Update};

use crate::definitions::is_kept;
use crate::given::{Assignment, Assignments, Given, Mode, Parts};
use instance_store::Store;
use object_defs::{InstancePath, ResourceDef, ResourcePath};
use std::alloc::AllocError;

/// A resource that would have more parts than 32 (this profile's limit).
#[derive(Clone, Copy)]
pub struct Excess {
    /// The resource's number.
    pub resource: u16,
    /// How many parts it would have, or the greatest `usize`.
    pub count: usize,
}

/// How many of the parts that a resource has are not among those given.
fn count_others(store: &Store, path: ResourcePath, parts: &Parts) -> Result<usize, AllocError>
    ensures { IfOk result (λ n. n ≡ length (filter (is_other parts.now) (parts_of store.now path))) }
{
    let held = store.parts(path)?;
    Ok(held.as_slice().iter().filter(|n| !parts.has(**n)).count())
}

/// How many parts a resource has after a change, or the greatest `usize`.
fn count_behind(
    mode: Mode,
    store: &Store,
    path: ResourcePath,
    parts: &Parts,
) -> Result<usize, AllocError>
    ensures count { IfOk result (λ n. n ≡ min (parts_behind mode store.now path parts.now) (2 ^ 64 - 1)) }
    ensures counts { OnErr result (mode ≡ Update) }
{
    let given = parts.as_slice().len();
    match mode {
        Mode::Replace => Ok(given),
        Mode::Update => Ok(given.saturating_add(count_others(store, path, parts)?)),
    }
}

/// A count of parts, where it is more than 32 (this profile's limit).
fn above_limit(count: usize) -> Option<usize>
    ensures { (n : ℕ) → count ≡ min n (2 ^ 64 - 1) → result ≡ above_limit n }
{
    if count > 32 { Some(count) } else { None }
}

/// How many parts a resource would have after a change, where these are more than 32 (this profile's limit). Only the
/// parts that it has, and keeps under Update, are counted in memory.
pub fn excess_of(
    mode: Mode,
    store: &Store,
    path: ResourcePath,
    given: &Given,
) -> Result<Option<usize>, AllocError>
    ensures test { IfOk result (λ e. e ≡ excess_of mode store.now path given.now) }
    ensures counts { OnErr result (KeepsParts mode given.now) }
{
    match given {
        Given::Single(_) => Ok(None),
        Given::Parts(parts) => Ok(above_limit(count_behind(mode, store, path, parts)?)),
    }
}

fn excess_by(
    mode: Mode,
    resources: &[ResourceDef],
    store: &Store,
    place: InstancePath,
    assignment: &Assignment,
) -> Result<Option<Excess>, AllocError>
    ensures test { IfOk result (λ e. e ≡ excess_by mode resources.now store.now place assignment.now) }
    ensures counts { OnErr result ((mode ≡ Update) × IsTrue (is_kept resources.now assignment.now)) }
{
    let resource = assignment.resource;
    if !is_kept(resources, resource) {
        return Ok(None);
    }
    let path = place.resource_path(resource);
    match excess_of(mode, store, path, &assignment.given)? {
        None => Ok(None),
        Some(count) => Ok(Some(Excess { resource, count })),
    }
}

/// The first resource of an instance that would have more than 32 parts (this profile's limit) after a Write, in the
/// order in which they are given. Each resource is counted once: that assignments name none twice is an invariant of
/// `Assignments`.
pub fn first_excess(
    mode: Mode,
    resources: &[ResourceDef],
    store: &Store,
    place: InstancePath,
    given: &Assignments,
) -> Result<Option<Excess>, AllocError>
    ensures test { IfOk result (λ e. e ≡ first_excess mode resources.now store.now place given.now) }
    ensures counts { OnErr result ((mode ≡ Update) × IsTrue (list_any (is_kept resources.now) given.now)) }
{
    for assignment in given.as_slice() {
        let excess = excess_by(mode, resources, store, place, assignment)?;
        if excess.is_some() {
            return Ok(excess);
        }
    }
    Ok(None)
}
