//! Questions about the state of a device.

ghost use Rattle.std.specs.Prelude.{◌≡◌, ◌↔◌, IsTrue};
ghost use Rattle.std.specs.Option.{option_copied};
ghost use Rattle.device_machine.specs.State.{Machine, Shows};
ghost use Rattle.case_play.specs.Questions.{IsDue, IsAnswer};

use case_text::Question;
use device_machine::Device;
use lwm2m_values::Value;

/// Whether two values, where they are there, are the same.
fn is_same_value(value: Option<&Value>, stated: Option<&Value>) -> bool
    ensures { IsTrue result ↔ (option_copied value.entry ≡ option_copied stated.entry) }
{
    match (value, stated) {
        (None, None) => true,
        (Some(value), Some(stated)) => value == stated,
        (None, Some(_)) | (Some(_), None) => false,
    }
}

/// Whether two seconds, where they are there, are the same.
fn is_same_second(second: Option<u64>, stated: Option<u64>) -> bool
    ensures { IsTrue result ↔ (second ≡ stated) }
{
    match (second, stated) {
        (None, None) => true,
        (Some(second), Some(stated)) => second == stated,
        (None, Some(_)) | (Some(_), None) => false,
    }
}

/// Whether a device gives the stated answer to what it is asked.
pub(crate) fn is_answered(question: &Question, device: &Device) -> bool
    ensures { (f : Machine) → Shows device.now f → IsTrue result ↔ IsAnswer question.now f }
{
    match question {
        Question::Value { path, value } => is_same_value(device.value(path), value.as_ref()),
        Question::Clock(second) => device.clock() == *second,
        Question::Observations(count) => device.observations().len() as u64 == *count,
        Question::Due(second) => is_same_second(device.due(), *second),
    }
}
