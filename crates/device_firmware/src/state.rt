ghost use Rattle.std.specs.Prelude.{◌≡◌, pos};
ghost use Rattle.std.specs.Option.{option_copied};
ghost use Rattle.device_firmware.specs.Firmware.{state_number, state_as, next, next_from, downloading_ended};
ghost use Rattle.device_firmware.specs.Firmware.{updating_ended, is_failure};

use crate::event::FirmwareEvent;
use lwm2m_values::Value;

/// The State of a firmware update (OMA LwM2M 1.1 Core).
#[derive(Clone, Copy, PartialEq, Eq)]
pub(crate) enum State {
    /// 0.
    Idle,
    /// 1.
    Downloading,
    /// 2.
    Downloaded,
    /// 3.
    Updating,
}

/// The State and the Update Result after an event.
#[derive(Clone, Copy, PartialEq, Eq)]
pub(crate) struct Outcome {
    pub(crate) state: State,
    pub(crate) code: u8,
}

/// The State's number.
pub(crate) fn state_number(state: State) -> i64
    ensures { result ≡ pos (state_number state) }
{
    match state {
        State::Idle => 0,
        State::Downloading => 1,
        State::Downloaded => 2,
        State::Updating => 3,
    }
}

/// The State that a value stands for.
pub(crate) fn state_as(value: Option<&Value>) -> Option<State>
    ensures { result ≡ state_as (option_copied value.entry) }
{
    match value {
        Some(Value::Whole(number)) => state_of(*number),
        Some(_) => None,
        None => None,
    }
}

fn state_of(number: i64) -> Option<State>
    ensures { result ≡ state_as (Some (Value.Whole number)) }
{
    match number {
        0 => Some(State::Idle),
        1 => Some(State::Downloading),
        2 => Some(State::Downloaded),
        3 => Some(State::Updating),
        _ => None,
    }
}

/// An outcome.
fn to(state: State, code: u8) -> Option<Outcome>
    ensures { result ≡ Some (record { state = state; code = code }) }
{
    Some(Outcome { state, code })
}

/// Whether a code says why a download or an update has failed.
fn is_failure(code: u8) -> bool
    ensures { result ≡ is_failure code }
{
    code >= 2 && code <= 9 && code != 8
}

fn downloading_ended(code: u8) -> Option<Outcome>
    ensures { result ≡ downloading_ended code }
{
    if code == 0 {
        to(State::Downloaded, 0)
    } else if is_failure(code) {
        to(State::Idle, code)
    } else {
        None
    }
}

fn updating_ended(code: u8) -> Option<Outcome>
    ensures { result ≡ updating_ended code }
{
    if code == 1 {
        to(State::Idle, 1)
    } else if code == 8 {
        to(State::Downloaded, 8)
    } else if is_failure(code) {
        to(State::Idle, code)
    } else {
        None
    }
}

/// What an event leads to in a state, if it is taken there.
fn next(event: &FirmwareEvent, state: State) -> Option<Outcome>
    ensures { result ≡ next event.now state }
{
    match (event, state) {
        (FirmwareEvent::Cleared, _) => to(State::Idle, 0),
        (FirmwareEvent::Package, State::Idle | State::Downloaded) => to(State::Downloaded, 0),
        (FirmwareEvent::Uri(_), State::Idle) => to(State::Downloading, 0),
        (FirmwareEvent::Update, State::Downloaded) => to(State::Updating, 0),
        (FirmwareEvent::Ended(code), State::Downloading) => downloading_ended(*code),
        (FirmwareEvent::Ended(code), State::Updating) => updating_ended(*code),
        _ => None,
    }
}

/// Like `next`, for a State that may be missing or invalid.
pub(crate) fn next_from(event: &FirmwareEvent, state: Option<State>) -> Option<Outcome>
    ensures { result ≡ next_from event.now state }
{
    match (event, state) {
        (_, Some(state)) => next(event, state),
        (FirmwareEvent::Cleared, None) => to(State::Idle, 0),
        (_, None) => None,
    }
}
