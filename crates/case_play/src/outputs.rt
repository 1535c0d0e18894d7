//! What a device outputs, beside the answers below its step.

ghost use Rattle.std.specs.Prelude.{◌≡◌, ◌↔◌, ◌≤◌, length, slice_get, IsTrue, IfOk};
ghost use Rattle.case_play.specs.Outputs.{StatesSend, StatesAct, StatesOne, StatesThis, IsOutputSo, IsSo, IsUnstated};
ghost use Rattle.case_play.specs.Outputs.{output_width, width};

use crate::digits::matches;
use crate::messages::{is_message, is_notification};
use case_text::{Answer, OutputStated, Stated};
use device_machine::{Act, Output};
use std::alloc::{AllocError, Global};

/// Whether an answer states that this server is sent this datagram.
fn states_send(
    alloc: Global,
    stated: &OutputStated,
    to: u16,
    bytes: &[u8],
) -> Result<bool, AllocError>
    ensures { IfOk result (λ b. IsTrue b ↔ StatesSend stated.now to bytes.now) }
{
    match stated {
        OutputStated::Send { server, digits } => {
            Ok(to == *server && matches(digits.as_slice(), bytes))
        }
        OutputStated::Code { code, text } => is_message(alloc, *code, text.as_ref(), bytes),
        OutputStated::Notification { number, text } => {
            is_notification(alloc, *number, text, bytes)
        }
        OutputStated::Nothing | OutputStated::Act(_) | OutputStated::More(_) => Ok(false),
    }
}

/// Whether an answer states that the device does this.
fn states_act(stated: &OutputStated, act: Act) -> bool
    ensures { IsTrue result ↔ StatesAct stated.now act }
{
    match stated {
        OutputStated::Act(stated) => act == *stated,
        OutputStated::Nothing
        | OutputStated::Send { .. }
        | OutputStated::Code { .. }
        | OutputStated::Notification { .. }
        | OutputStated::More(_) => false,
    }
}

/// Whether an answer states this output.
fn states_one(alloc: Global, stated: &OutputStated, output: &Output) -> Result<bool, AllocError>
    ensures { IfOk result (λ b. IsTrue b ↔ StatesOne stated.now output.now) }
{
    match output {
        Output::Send { server, bytes } => states_send(alloc, stated, *server, bytes.as_slice()),
        Output::Act(act) => Ok(states_act(stated, *act)),
    }
}

/// Whether there is an output of this number, counted from 0, and the answer states it.
fn states_next(
    alloc: Global,
    stated: &OutputStated,
    outputs: &[Output],
    place: usize,
) -> Result<bool, AllocError>
    ensures { IfOk result (λ b. IsTrue b ↔ StatesThis stated.now (slice_get outputs.now place)) }
{
    match outputs.get(place) {
        None => Ok(false),
        Some(output) => states_one(alloc, stated, output),
    }
}

/// How many outputs an answer on outputs is about.
fn output_width(stated: &OutputStated) -> usize
    ensures { result ≡ output_width stated.now }
{
    match stated {
        OutputStated::Nothing => 0,
        OutputStated::Send { .. }
        | OutputStated::Code { .. }
        | OutputStated::Notification { .. }
        | OutputStated::Act(_) => 1,
        OutputStated::More(count) => *count as usize,
    }
}

/// How many outputs an answer is about.
fn width(stated: &Stated) -> usize
    ensures { result ≡ width stated.now }
{
    match stated {
        Stated::Output(stated) => output_width(stated),
        Stated::End(_) | Stated::Verdict(_) | Stated::Written(_) => 0,
    }
}

/// Whether an answer on outputs is so of them, of which the answers above it are about the first `before`.
fn is_output_so(
    alloc: Global,
    stated: &OutputStated,
    outputs: &[Output],
    before: usize,
) -> Result<bool, AllocError>
    requires { before ≤ length outputs.now }
    ensures { IfOk result (λ b. IsTrue b ↔ IsOutputSo stated.now outputs.now before) }
{
    match stated {
        OutputStated::Nothing => Ok(outputs.len() == before),
        OutputStated::Send { .. } => states_next(alloc, stated, outputs, before),
        OutputStated::Code { .. } => states_next(alloc, stated, outputs, before),
        OutputStated::Notification { .. } => states_next(alloc, stated, outputs, before),
        OutputStated::Act(_) => states_next(alloc, stated, outputs, before),
        OutputStated::More(count) => Ok(*count as usize <= outputs.len() - before),
    }
}

/// Whether an answer is so of outputs, of which the answers above it are about the first `before`.
fn is_so(
    alloc: Global,
    stated: &Stated,
    outputs: &[Output],
    before: usize,
) -> Result<bool, AllocError>
    requires { before ≤ length outputs.now }
    ensures { IfOk result (λ b. IsTrue b ↔ IsSo stated.now outputs.now before) }
{
    match stated {
        Stated::Output(stated) => is_output_so(alloc, stated, outputs, before),
        Stated::End(_) | Stated::Verdict(_) | Stated::Written(_) => Ok(true),
    }
}

/// The number, counted from 0, of the first answer that is not so of the outputs; the count of the answers where all
/// are, and an output is left. None where they state the outputs, all of them, in their order.
pub(crate) fn first_unstated(
    alloc: Global,
    answers: &[Answer],
    outputs: &[Output],
) -> Result<Option<usize>, AllocError>
    ensures { IfOk result (λ r. IsUnstated answers.now outputs.now r) }
{
    let mut before = 0;
    for (i, answer) in answers.iter().enumerate() {
        if !is_so(alloc, &answer.stated, outputs, before)? {
            return Ok(Some(i));
        }
        before += width(&answer.stated);
    }
    if before < outputs.len() {
        return Ok(Some(answers.len()));
    }
    Ok(None)
}
