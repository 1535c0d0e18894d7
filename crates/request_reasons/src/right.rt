//! Rule 8: the right that an operation asks for, and what gives or denies it.

ghost use Rattle.std.specs.Prelude.{◌≡◌, ◌==◌, true, false, length, Ok, Some};
ghost use Rattle.object_defs.specs.Path.{object_in};
ghost use Rattle.object_defs.specs.declared.path.Path.TheVariants as paths;
ghost use Rattle.access_control.specs.Rights.{owns, right_of};
ghost use Rattle.device_requests.specs.Access.{may_read};
ghost use Rattle.device_requests.specs.Refusals.{lacks_right};
ghost use Rattle.device_requests.specs.Request.{purpose_of, request_of};
ghost use Rattle.request_reasons.specs.Rights.{IsDenied, IsDeniedAll, IsGrant, instance_asked, is_read_of_object};
ghost use Rattle.request_reasons.specs.Rights.{letter_for, rights_by};

use access_control::{Rights, control, control_of, entry_of, integer_at, rights};
use coap_codec::Message;
use device_requests::{Client, Operation, Request};
use instance_store::Store;
use object_defs::Path;
use object_defs::object_number::ACCESS_CONTROL;
use object_defs::resource_number::ACCESS_CONTROL_OWNER;

/// The instance number by whose right instances are created: none has it.
const CREATION: u16 = 65535;

/// A letter of a right: Read, Write, Execute, Delete or Create (OMA LwM2M 1.1 Core).
#[derive(Clone, Copy)]
pub enum Letter {
    R,
    W,
    E,
    D,
    C,
}

/// What decides the right of a server on an instance, in a device with several accounts: the first of these that
/// applies (docs/device/access.md).
#[derive(Clone, Copy)]
pub enum Grant {
    /// The instance is one of Access Control itself: its owner has R and W, every other server R.
    OfControl {
        /// Whether the server is its owner.
        is_owner: bool,
    },
    /// No instance of Access Control refers to the instance: nobody has a right.
    Unreferred,
    /// The entry of the server.
    Own {
        /// The lowest instance of Access Control that refers to the instance.
        control: u16,
        /// The entry's number.
        number: i64,
        /// Its letters.
        rights: Rights,
    },
    /// The server has no entry, and is the owner: it has every right.
    Owner {
        /// The lowest instance of Access Control that refers to the instance.
        control: u16,
    },
    /// Entry 0.
    Default {
        /// The lowest instance of Access Control that refers to the instance.
        control: u16,
        /// The entry's number.
        number: i64,
        /// Its letters.
        rights: Rights,
    },
    /// There is neither entry: the server has no right.
    NoEntry {
        /// The lowest instance of Access Control that refers to the instance.
        control: u16,
    },
}

/// Whether a server is the owner of an instance of Access Control.
fn owns(store: &Store, instance: u16, server: u16) -> bool
    ensures { result ≡ owns store.now instance server }
{
    let owner = control(instance, ACCESS_CONTROL_OWNER);
    match integer_at(store, owner.single()) {
        Some(found) => found == i64::from(server),
        None => false,
    }
}

/// What decides the right of a server on an instance, where there are several accounts.
fn grant_of(store: &Store, server: u16, object: u16, instance: u16) -> Grant
    ensures granted { IsGrant store.now server object instance result }
    ensures gives { rights_by result ≡ right_of store.now 2 server object instance }
{
    if object == ACCESS_CONTROL {
        let is_owner = owns(store, instance, server);
        return Grant::OfControl { is_owner };
    }
    let rights = rights(store, 2, server, object, instance);
    let Some(control) = control_of(store, object, instance) else {
        return Grant::Unreferred;
    };
    if let Some(number) = entry_of(store, control, server) {
        return Grant::Own {
            control,
            number,
            rights,
        };
    }
    if owns(store, control, server) {
        return Grant::Owner { control };
    }
    match entry_of(store, control, 0) {
        Some(number) => Grant::Default {
            control,
            number,
            rights,
        },
        None => Grant::NoEntry { control },
    }
}

/// The letter that an operation on an object asks for.
fn letter_for(operation: Operation, object: u16) -> Option<Letter>
    ensures { result ≡ letter_for operation object }
{
    match operation {
        Operation::Read => Some(Letter::R),
        Operation::Discover => None,
        Operation::WriteReplace | Operation::WritePartial => Some(Letter::W),
        Operation::WriteAttributes => {
            if object == ACCESS_CONTROL {
                return Some(Letter::W);
            }
            Some(Letter::R)
        }
        Operation::Create => Some(Letter::C),
        Operation::Execute => Some(Letter::E),
        Operation::Delete => Some(Letter::D),
    }
}

/// The instance on which an operation asks for its right.
fn instance_asked(path: Path) -> u16
    ensures { result ≡ instance_asked path }
{
    match path {
        Path::Object(_) => CREATION,
        Path::Instance(_, instance)
        | Path::Resource(_, instance, _)
        | Path::Part(_, instance, _, _) => instance,
    }
}

/// The letter that a server lacks, the instance on which it is asked for, and what decides the right there.
pub(crate) fn denied(
    client: &Client,
    server: u16,
    message: &Message,
    request: Request,
) -> (Letter, u16, Grant)
    requires read { request_of message.now ≡ Ok request }
    requires denied { lacks_right client.now server request.path (purpose_of message.now request.operation) ≡ true }
    requires other { is_read_of_object request.operation request.path ≡ false }
    ensures { IsDenied client.now server request.path request.operation result.0 result.1 result.2 }
{
    let object = request.path.object();
    let instance = instance_asked(request.path);
    match letter_for(request.operation, object) {
        Some(letter) => (
            letter,
            instance,
            grant_of(client.store(), server, object, instance),
        ),
        None => unreachable!(),
    }
}

/// How many instances an object has on which a server lacks R, the first of them, and what decides the right there.
pub(crate) fn denied_all(client: &Client, server: u16, object: u16) -> (usize, u16, Grant)
    requires { may_read client.now server (paths.Object object) ≡ false }
    ensures { IsDeniedAll client.now server object result.0 result.1 result.2 }
{
    let store = client.store();
    let instances = store.instances(object);
    match instances {
        [] => unreachable!(),
        [first, ..] => (
            instances.len(),
            *first,
            grant_of(store, server, object, *first),
        ),
    }
}
