ghost use Rattle.std.specs.Prelude.{◌≡◌};
ghost use Rattle.instance_store.specs.Stored.{value_at};
ghost use Rattle.object_defs.specs.Catalog.{definition_of};
ghost use Rattle.device_requests.specs.Targets.{is_multiple};
ghost use Rattle.device_notifications.specs.Report.{number_in, number_at, report_of};

use device_requests::Client;
use instance_store::Store;
use lwm2m_values::Value;
use notifier::Report;
use object_defs::{Catalog, FullPath, Path, ResourcePath};
use octets::Bytes;

/// The number of the value at a full path, where it is an Integer or a Time.
pub(crate) fn number_in(store: &Store, path: FullPath) -> Option<i64>
    ensures { result ≡ number_in (value_at store.now path) }
{
    match store.get(path) {
        Some(Value::Whole(number)) => Some(*number),
        Some(Value::Moment(number)) => Some(*number),
        Some(_) => None,
        None => None,
    }
}

/// Whether a resource is a multiple one.
fn is_multiple(catalog: &Catalog, object: u16, resource: u16) -> bool
    ensures { result ≡ is_multiple (definition_of catalog.now object resource) }
{
    match catalog.resource(object, resource) {
        Some(definition) => definition.multiple,
        None => false,
    }
}

/// The number at a path, where that names a single resource that is an Integer or a Time.
pub(crate) fn number_at(client: &Client, path: Path) -> Option<i64>
    ensures { result ≡ number_at client.now path }
{
    let Path::Resource(object, instance, resource) = path else {
        return None;
    };
    if is_multiple(client.catalog(), object, resource) {
        return None;
    }
    let place = ResourcePath {
        object,
        instance,
        resource,
    };
    number_in(client.store(), place.single())
}

/// What a message with this payload reports at a path: the payload, and the number where the path
/// names a single resource that is an Integer or a Time.
pub fn report_of(client: &Client, path: Path, payload: Bytes) -> Report
    ensures { result ≡ report_of client.now path payload }
{
    let number = number_at(client, path);
    Report { payload, number }
}
