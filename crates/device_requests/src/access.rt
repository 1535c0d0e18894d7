//! The rights of a server at the paths of requests.

ghost use Rattle.std.specs.Prelude.{◌≡◌, ◌==◌, ◌||◌, length};
ghost use Rattle.std.specs.List.{list_any};
ghost use Rattle.instance_store.specs.Stored.{instances_of};
ghost use Rattle.device_requests.specs.Access.{may_read, may_read_at, reads, rights_at, rights_on};

use crate::client::Client;
use access_control::{Rights, reads, rights};
use instance_store::Store;
use object_defs::Path;

/// The number that stands for the instances that are not there yet.
const CREATION: u16 = 65535;

/// The rights of a server at a path, in a device with this many accounts: those on its instance; at an
/// object those by which instances are created.
fn rights_at(store: &Store, accounts: usize, server: u16, path: Path) -> Rights
    ensures { result ≡ rights_at store.now accounts server path }
{
    match path {
        Path::Object(object) => rights(store, accounts, server, object, CREATION),
        Path::Instance(object, instance)
        | Path::Resource(object, instance, _)
        | Path::Part(object, instance, _, _) => rights(store, accounts, server, object, instance),
    }
}

/// Whether there is an instance of an object on which the server has R.
fn reads_one(store: &Store, accounts: usize, server: u16, object: u16) -> bool
    ensures { result ≡ list_any (reads store.now accounts server object) (instances_of store.now object) }
{
    let mut instances = store.instances(object).iter();
    instances.any(|instance| reads(store, accounts, server, object, *instance))
}

/// Whether an object has no instance, or one on which the server has R.
fn may_read_object(store: &Store, accounts: usize, server: u16, object: u16) -> bool
    ensures { result ≡ (length (instances_of store.now object) == 0
        || list_any (reads store.now accounts server object) (instances_of store.now object)) }
{
    store.instances(object).len() == 0 || reads_one(store, accounts, server, object)
}

/// Whether a server may read at a path.
fn may_read_at(store: &Store, accounts: usize, server: u16, path: Path) -> bool
    ensures { result ≡ may_read_at store.now accounts server path }
{
    match path {
        Path::Object(object) => may_read_object(store, accounts, server, object),
        Path::Instance(object, instance)
        | Path::Resource(object, instance, _)
        | Path::Part(object, instance, _, _) => reads(store, accounts, server, object, instance),
    }
}

impl Client {
    /// The rights of a server at a path.
    pub(crate) fn rights(&self, server: u16, path: Path) -> Rights
        ensures { result ≡ rights_on self.now server path }
    {
        rights_at(&self.store, self.account_count(), server, path)
    }

    /// Whether a server may read at a path.
    pub(crate) fn may_read(&self, server: u16, path: Path) -> bool
        ensures { result ≡ may_read self.now server path }
    {
        may_read_at(&self.store, self.account_count(), server, path)
    }
}
