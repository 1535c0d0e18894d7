//! The values of Firmware Update at the start of a device.

ghost use Rattle.std.specs.Prelude.{◌≡◌, true, OnOk};
ghost use Rattle.object_defs.specs.Numbers.{firmware_update_object};
ghost use Rattle.instance_store.specs.Stored.{has_instance, with_value};
ghost use Rattle.device_template.specs.Template.{firmware_path, with_idle_firmware};

use instance_store::{Store, StoreFault};
use lwm2m_values::{Text, Value};
use object_defs::object_number::FIRMWARE_UPDATE;
use object_defs::resource_number::{PACKAGE_URI, UPDATE_RESULT, UPDATE_STATE};
use object_defs::{InstancePath, ResourcePath};
use std::alloc::{AllocError, Global};

/// Sets Package URI, State and Update Result where there is an instance of Firmware Update.
pub(crate) fn set_firmware_idle(alloc: Global, store: &mut Store) -> Result<(), AllocError>
    ensures { OnOk result (store.new ≡ with_idle_firmware store.old) }
{
    let place = InstancePath {
        object: FIRMWARE_UPDATE,
        instance: 0,
    };
    if !store.has_instance(place) {
        return Ok(());
    }
    let none = Value::Text(Text::from_str(alloc, "")?);
    set_firmware(store, PACKAGE_URI, none)?;
    set_firmware(store, UPDATE_STATE, Value::Whole(0))?;
    set_firmware(store, UPDATE_RESULT, Value::Whole(0))
}

/// Sets a resource of the instance of Firmware Update.
fn set_firmware(store: &mut Store, resource: u16, value: Value) -> Result<(), AllocError>
    requires { has_instance store.old (record { object = firmware_update_object; instance = 0 }) ≡ true }
    ensures { OnOk result (store.new ≡ with_value store.old (firmware_path resource) value) }
{
    let path = ResourcePath {
        object: FIRMWARE_UPDATE,
        instance: 0,
        resource,
    };
    match store.put(path, value) {
        Ok(()) => Ok(()),
        Err(StoreFault::Memory) => Err(AllocError),
        Err(_) => unreachable!(),
    }
}
