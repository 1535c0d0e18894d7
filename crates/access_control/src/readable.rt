ghost use Rattle.std.specs.Prelude.{◌≡◌, IfOk};
ghost use Rattle.access_control.specs.Readable.{reads, shown_instances};

use crate::right::rights;
use instance_store::Store;
use std::alloc::{AllocError, Global};

/// Whether a server has R on an instance, in a device that has this many accounts.
#[inline]
pub fn reads(store: &Store, accounts: usize, server: u16, object: u16, instance: u16) -> bool
    ensures { result ≡ reads store.now accounts server object instance }
{
    rights(store, accounts, server, object, instance).read
}

/// The instances of an object on which a server has R, in order: a Read of the object shows these, and no others.
pub fn shown_instances(
    alloc: Global,
    store: &Store,
    accounts: usize,
    server: u16,
    object: u16,
) -> Result<Vec<u16>, AllocError>
    ensures { IfOk result (λ v. v.items ≡ shown_instances store.now accounts server object) }
{
    let instances = store.instances(object).iter().copied();
    instances
        .filter(|instance| reads(store, accounts, server, object, *instance))
        .collect(alloc)
}
