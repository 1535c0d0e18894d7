ghost use Rattle.std.specs.Prelude.{◌≡◌, nat_le, option_map, if◌then◌else◌, None};
ghost use Rattle.lwm2m_payloads.specs.Changes.{first_excess};
ghost use Rattle.lwm2m_payloads.specs.declared.given.Mode.TheVariants.{Replace};
ghost use Rattle.object_defs.specs.Numbers.{access_control_object};
ghost use Rattle.device_instances.specs.Creations.{full_count, lack_of_room};
ghost use Rattle.device_instances.specs.declared.room.NoRoom.TheVariants as no_room;

use instance_store::Store;
use lwm2m_payloads::{Assignments, Excess, Mode, first_excess};
use object_defs::object_number::ACCESS_CONTROL;
use object_defs::{InstancePath, ResourceDef};

/// Why a store has no room for a new instance (this profile's limits).
#[derive(Clone, Copy)]
pub enum NoRoom {
    /// Its object has 64 instances or more.
    Instances {
        /// How many it has.
        count: usize,
    },
    /// A resource would have more than 32 parts.
    Parts {
        /// The number of the first such resource.
        resource: u16,
        /// How many it would have.
        count: usize,
    },
    /// Access Control, which gets an instance too, has 64 or more.
    Controls {
        /// How many it has.
        count: usize,
    },
}

/// How many instances an object has, where it has 64 or more.
fn full_count(store: &Store, object: u16) -> Option<usize>
    ensures { result ≡ full_count store.now object }
{
    let count = store.instances(object).len();
    if count >= 64 { Some(count) } else { None }
}

/// The first resource of a new instance that would have more than 32 parts.
fn excess(
    resources: &[ResourceDef],
    store: &Store,
    place: InstancePath,
    given: &Assignments,
) -> Option<Excess>
    ensures { result ≡ first_excess Replace resources.now store.now place given.now }
{
    match first_excess(Mode::Replace, resources, store, place, given) {
        Ok(excess) => excess,
        Err(_) => unreachable!(),
    }
}

/// How many instances Access Control has, where it would get one more, with two accounts or more, and has 64 or more.
fn full_controls(store: &Store, accounts: usize) -> Option<NoRoom>
    ensures { result ≡ (if nat_le 2 accounts
        then option_map (λ n. no_room.Controls n) (full_count store.now access_control_object) else None) }
{
    if accounts < 2 {
        return None;
    }
    match full_count(store, ACCESS_CONTROL) {
        Some(count) => Some(NoRoom::Controls { count }),
        None => None,
    }
}

/// Why a store has no room for a new instance with what it is given (this profile's limits): its object has 64
/// instances; or a resource would have more than 32 parts; or, with two accounts or more, Access Control has 64
/// instances. The first of these that holds. It takes no memory.
pub fn lack_of_room(
    store: &Store,
    accounts: usize,
    resources: &[ResourceDef],
    place: InstancePath,
    given: &Assignments,
) -> Option<NoRoom>
    ensures { result ≡ lack_of_room store.now accounts resources.now place given.now }
{
    if let Some(count) = full_count(store, place.object) {
        return Some(NoRoom::Instances { count });
    }
    if let Some(excess) = excess(resources, store, place, given) {
        let resource = excess.resource;
        let count = excess.count;
        return Some(NoRoom::Parts { resource, count });
    }
    full_controls(store, accounts)
}
