ghost use Rattle.std.specs.Prelude.{◌≡◌, option_and_then};
ghost use Rattle.lwm2m_values.specs.Value.{is_integer};
ghost use Rattle.notifier.specs.Attributes.{effective};
ghost use Rattle.instance_store.specs.Stored.{value_at};
ghost use Rattle.device_notifications.specs.Period.{account_of, account_path, default_period, is_account};
ghost use Rattle.device_notifications.specs.Period.{period_of, pmax_of, pmin_of, seconds_in};
ghost use Rattle.device_notifications.specs.Report.{number_in};

use crate::report::number_in;
use device_requests::Client;
use instance_store::Store;
use notifier::Name;
use object_defs::object_number::SERVER;
use object_defs::resource_number::{
    DEFAULT_MAXIMUM_PERIOD, DEFAULT_MINIMUM_PERIOD, SHORT_SERVER_ID,
};
use object_defs::{FullPath, Path, ResourcePath};

/// The greatest number of seconds of a period.
const LONGEST: u64 = 2_147_483_647;

/// The seconds that a number is, where it is in the range of periods.
fn seconds_in(number: i64) -> Option<u64>
    ensures { result ≡ seconds_in number }
{
    if number < 0 {
        return None;
    }
    let seconds = number.unsigned_abs();
    if seconds > LONGEST {
        return None;
    }
    Some(seconds)
}

/// A single resource of an instance of Server.
fn account_path(instance: u16, resource: u16) -> FullPath
    ensures { result ≡ account_path instance resource }
{
    let place = ResourcePath {
        object: SERVER,
        instance,
        resource,
    };
    place.single()
}

/// Whether an instance of Server is of this server.
fn is_account(store: &Store, server: u16, instance: u16) -> bool
    ensures { result ≡ is_account store.now server instance }
{
    match number_in(store, account_path(instance, SHORT_SERVER_ID)) {
        Some(number) => number == i64::from(server),
        None => false,
    }
}

/// The lowest instance of Server that is of this server.
fn account_of(store: &Store, server: u16) -> Option<u16>
    ensures { result ≡ account_of store.now server }
{
    let mut accounts = store.instances(SERVER).iter().copied();
    accounts.find(|instance| is_account(store, server, *instance))
}

/// The seconds that a resource of the server's instance of Server says.
fn default_period(store: &Store, server: u16, resource: u16) -> Option<u64>
    ensures { result ≡ default_period store.now server resource }
{
    let instance = account_of(store, server)?;
    let number = number_in(store, account_path(instance, resource))?;
    seconds_in(number)
}

/// The seconds that an attribute has at a path, where one has effect there.
fn assigned_period(client: &Client, server: u16, path: Path, name: Name) -> Option<u64>
    ensures { result ≡ option_and_then seconds_in (effective client.now.attributes server path name) }
{
    let number = client.attributes().effective(server, path, name)?;
    seconds_in(number)
}

/// The attribute of the lowest level that has one, else the default of the server.
fn period_of(client: &Client, server: u16, path: Path, name: Name, resource: u16) -> Option<u64>
    ensures { result ≡ period_of client.now server path name resource }
{
    match assigned_period(client, server, path, name) {
        Some(seconds) => Some(seconds),
        None => default_period(client.store(), server, resource),
    }
}

/// The minimum period of a server's observation of a path, in seconds: the attribute pmin of the
/// lowest level that has one, else the Default Minimum Period of the lowest instance of Server
/// that is of this server, else 0. Numbers over 2,147,483,647 are none.
pub fn pmin_of(client: &Client, server: u16, path: Path) -> u64
    ensures { result ≡ pmin_of client.now server path }
{
    period_of(client, server, path, Name::Pmin, DEFAULT_MINIMUM_PERIOD).unwrap_or(0)
}

/// The maximum period of a server's observation of a path, in seconds, if there is one: the
/// attribute pmax, else the Default Maximum Period, found as for pmin. It has effect where it is
/// above 0 and not below pmin.
pub fn pmax_of(client: &Client, server: u16, path: Path) -> Option<u64>
    ensures { result ≡ pmax_of client.now server path }
{
    period_of(client, server, path, Name::Pmax, DEFAULT_MAXIMUM_PERIOD)
}
