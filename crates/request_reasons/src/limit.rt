//! Rule 12: the State of the firmware, and the limits of what is shown and stored.

ghost use Rattle.std.specs.Prelude.{◌≡◌, true, is_some, IfOk, Ok, Some};
ghost use Rattle.std.specs.Option.{option_copied};
ghost use Rattle.device_requests.specs.Refusals.{is_too_much};
ghost use Rattle.device_requests.specs.Request.{purpose_of, request_of};
ghost use Rattle.device_requests.specs.Create.{creation_lack, newborn};
ghost use Rattle.device_requests.specs.Write.{write_excess};
ghost use Rattle.request_reasons.specs.Limits.{IsLimit, IsPartsLimit, IsRoomLimit, firmware_state_in, state_as};

use coap_codec::Message;
use device_instances::NoRoom;
use device_requests::{Client, Operation, Request, creation_lack, write_excess};
use instance_store::Store;
use lwm2m_payloads::{Excess, Mode};
use lwm2m_values::Value;
use object_defs::object_number::FIRMWARE_UPDATE;
use object_defs::resource_number::UPDATE_STATE;
use object_defs::{InstancePath, Path, ResourcePath};
use std::alloc::{AllocError, Global};

/// The State of a device's firmware (OMA LwM2M 1.1 Core, Firmware Update).
#[derive(Clone, Copy)]
pub enum FirmwareState {
    /// There is no instance 0 of Firmware Update.
    NoInstance,
    /// It holds no State from 0 to 3.
    NoState,
    /// 0.
    Idle,
    /// 1.
    Downloading,
    /// 2.
    Downloaded,
    /// 3.
    Updating,
}

/// A limit that would be passed (this profile).
#[derive(Clone, Copy)]
pub enum Limit {
    /// A payload has 1,024 bytes at most.
    Size,
    /// A resource has 32 parts at most.
    Parts {
        /// The first resource that would have more, and how many.
        excess: Excess,
    },
    /// There is no room for a new instance.
    Room {
        /// The first limit that it would pass.
        lack: NoRoom,
    },
}

/// The State that a value stands for.
fn state_as(value: Option<&Value>) -> FirmwareState
    ensures { result ≡ state_as (option_copied value.entry) }
{
    match value {
        Some(Value::Whole(number)) => state_of(*number),
        Some(_) => FirmwareState::NoState,
        None => FirmwareState::NoState,
    }
}

fn state_of(number: i64) -> FirmwareState
    ensures { result ≡ state_as (Some (Value.Whole number)) }
{
    match number {
        0 => FirmwareState::Idle,
        1 => FirmwareState::Downloading,
        2 => FirmwareState::Downloaded,
        3 => FirmwareState::Updating,
        _ => FirmwareState::NoState,
    }
}

/// The State of the firmware.
pub(crate) fn firmware_state_in(store: &Store) -> FirmwareState
    ensures { result ≡ firmware_state_in store.now }
{
    let place = InstancePath {
        object: FIRMWARE_UPDATE,
        instance: 0,
    };
    if !store.has_instance(place) {
        return FirmwareState::NoInstance;
    }
    let state = ResourcePath {
        object: FIRMWARE_UPDATE,
        instance: 0,
        resource: UPDATE_STATE,
    };
    state_as(store.get(state.single()))
}

/// The limit that a Write would pass.
fn parts_limit(
    alloc: Global,
    client: &Client,
    mode: Mode,
    path: Path,
    number: Option<u16>,
    payload: &[u8],
) -> Result<Limit, AllocError>
    requires { is_some (write_excess client.now mode path number payload.now) ≡ true }
    ensures { IfOk result (λ l. IsPartsLimit client.now mode path number payload.now l) }
{
    match write_excess(alloc, client, mode, path, number, payload)? {
        Some(excess) => Ok(Limit::Parts { excess }),
        None => unreachable!(),
    }
}

/// The limit that a Create would pass.
fn room_limit(
    alloc: Global,
    client: &Client,
    object: u16,
    payload: &[u8],
) -> Result<Limit, AllocError>
    requires { is_some (creation_lack client.now object (newborn client.now object payload.now)) ≡ true }
    ensures { IfOk result (λ l. IsRoomLimit client.now object payload.now l) }
{
    match creation_lack(alloc, client, object, payload)? {
        Some(lack) => Ok(Limit::Room { lack }),
        None => unreachable!(),
    }
}

/// The limit that a request would pass. The server is for the contract alone.
pub(crate) fn limit_of(
    alloc: Global,
    client: &Client,
    _server: u16,
    message: &Message,
    request: Request,
) -> Result<Limit, AllocError>
    requires read { request_of message.now ≡ Ok request }
    requires exceeded { is_too_much client.now _server request.path (purpose_of message.now request.operation) ≡ true }
    ensures { IfOk result (λ l. IsLimit client.now _server request.path (purpose_of message.now request.operation) l) }
{
    let path = request.path;
    let number = request.content_format;
    let payload = message.payload().as_slice();
    match request.operation {
        Operation::Read | Operation::Discover => Ok(Limit::Size),
        Operation::WriteReplace => parts_limit(alloc, client, Mode::Replace, path, number, payload),
        Operation::WritePartial => parts_limit(alloc, client, Mode::Update, path, number, payload),
        Operation::Create => room_limit(alloc, client, path.object(), payload),
        Operation::WriteAttributes | Operation::Execute | Operation::Delete => unreachable!(),
    }
}
