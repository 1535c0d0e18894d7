//! The answers to `value D PATH`, `obs D` and `out D`.
ghost use Rattle.std.specs.Prelude.{◌≡◌, ◌++◌, Some, IfOk, OnOk};
ghost use Rattle.std.specs.List.{flat_map};
ghost use Rattle.std.specs.Option.{option_copied, option_to_list};
ghost use Rattle.std.specs.String.{string_bytes};
ghost use Rattle.debugger.specs.Shown.{value_shown, observations_shown, outputs_shown};
ghost use Rattle.debug_answers.specs.Outputs.{output_lines};
ghost use Rattle.debug_answers.specs.Show.{count_line, line_end, observation_line, observation_lines};
ghost use Rattle.debug_answers.specs.Show.{observation_words, value_line};
ghost use Rattle.debug_answers.specs.Replies.{IsDeviceAnswer};

use crate::lines::fixed_line;
use crate::outputs::outputs_text;
use debugger::{Debugger, DeviceFault};
use lwm2m_values::Value;
use notifier::{Observation, Observations, Timer};
use object_defs::{Path, path_text};
use scenario_words::{hex_word, spell};
use std::alloc::{AllocError, Global};

fn spelled_line(alloc: Global, value: &Value) -> Result<String, AllocError>
    ensures { IfOk result (λ text. string_bytes text ≡ value_line (Some value.now)) }
{
    let mut text = spell(alloc, value)?;
    text.push('\n')?;
    Ok(text)
}

fn value_line(alloc: Global, value: Option<&Value>) -> Result<String, AllocError>
    ensures { IfOk result (λ text. string_bytes text ≡ value_line (option_copied value.entry)) }
{
    match value {
        None => fixed_line(alloc, "none"),
        Some(value) => spelled_line(alloc, value),
    }
}

/// `value D PATH`: the value as in scenario text, or `none`; `no device` exactly if there is no row.
pub fn show_value(
    alloc: Global,
    debugger: &Debugger,
    device: u16,
    path: &Path,
) -> Result<String, AllocError>
    ensures { IfOk result (λ text. IsDeviceAnswer debugger.now device
        (value_line (value_shown debugger.now.scenario debugger.now.entries debugger.now.place device path.now))
        (string_bytes text)) }
{
    match debugger.value(device, path) {
        Ok(value) => value_line(alloc, value),
        Err(DeviceFault::NoDevice) => fixed_line(alloc, "no device"),
    }
}

/// How the line of an observation ends.
fn line_end(timer: &Option<Timer>) -> &'static str
    ensures { result.now ≡ line_end timer.now }
{
    match timer {
        None => "",
        Some(_) => " open",
    }
}

fn observation_words(
    alloc: Global,
    server: u16,
    token: &str,
    path: &str,
    number: u32,
    ending: &str,
) -> Result<String, AllocError>
    ensures { IfOk result (λ text. string_bytes text
        ≡ observation_words server token.now path.now number ending.now) }
{
    format!(in alloc; "{server} {token} {path} {number}{ending}\n")
}

fn observation_line(alloc: Global, observation: &Observation) -> Result<String, AllocError>
    ensures { IfOk result (λ text. string_bytes text ≡ observation_line observation.now) }
{
    let token = hex_word(alloc, observation.token.as_slice())?;
    let path = path_text(alloc, observation.path)?;
    observation_words(
        alloc,
        observation.server,
        token.as_str(),
        path.as_str(),
        observation.number,
        line_end(&observation.timer),
    )
}

fn count_line(alloc: Global, count: usize) -> Result<String, AllocError>
    ensures { IfOk result (λ text. string_bytes text ≡ count_line count) }
{
    format!(in alloc; "observations {count}\n")
}

/// Appends the line of an observation, if there is one.
fn push_line(
    alloc: Global,
    text: &mut String,
    observation: Option<&Observation>,
) -> Result<(), AllocError>
    ensures { OnOk result (string_bytes text.new
        ≡ string_bytes text.old ++ flat_map observation_line (option_to_list (option_copied observation.entry))) }
{
    match observation {
        None => Ok(()),
        Some(observation) => {
            let line = observation_line(alloc, observation)?;
            text.push_str(line.as_str())
        }
    }
}

/// How many observations there are, and a line for each.
#[tactic(auto, using(crate::proofs::ObservationLines::next_line, crate::proofs::ObservationLines::every_line))]
fn observation_lines(alloc: Global, observations: &Observations) -> Result<String, AllocError>
    ensures { IfOk result (λ text. string_bytes text ≡ observation_lines observations.now.list) }
{
    let count = observations.len();
    let mut text = count_line(alloc, count)?;
    for place in 0..count {
        push_line(alloc, &mut text, observations.at(place))?;
    }
    Ok(text)
}

/// `obs D`: `observations K`, then a line for each in the order of registration, with the Observe number of its last
/// message, and ` open` if that awaits an acknowledgement; `no device` exactly if there is no row.
pub fn show_observations(
    alloc: Global,
    debugger: &Debugger,
    device: u16,
) -> Result<String, AllocError>
    ensures { IfOk result (λ text. IsDeviceAnswer debugger.now device
        (observation_lines
        (observations_shown debugger.now.scenario debugger.now.entries debugger.now.place device))
        (string_bytes text)) }
{
    match debugger.observations(device) {
        Ok(observations) => observation_lines(alloc, observations),
        Err(DeviceFault::NoDevice) => fixed_line(alloc, "no device"),
    }
}

/// `out D`: a line for each output of the device's latest entry, or `nothing`; `no device` exactly if there is no row.
pub fn show_outputs(alloc: Global, debugger: &Debugger, device: u16) -> Result<String, AllocError>
    ensures { IfOk result (λ text. IsDeviceAnswer debugger.now device
        (output_lines (outputs_shown debugger.now.scenario debugger.now.entries debugger.now.place device))
        (string_bytes text)) }
{
    match debugger.outputs(device) {
        Ok(outputs) => outputs_text(alloc, outputs),
        Err(DeviceFault::NoDevice) => fixed_line(alloc, "no device"),
    }
}
