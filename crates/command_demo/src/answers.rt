ghost use Rattle.std.specs.Prelude.{◌≡◌, IfErr, IfOk, Ok};
ghost use Rattle.hex.specs.Hex.{decode_of};
ghost use Rattle.command_demo.specs.InJson.{IsOneJsonDone};
ghost use Rattle.command_demo.specs.One.{IsOneDone, IsOneFault};
ghost use Rattle.command_demo.specs.Why.{IsOneWhyDone};

use crate::demo;
use crate::explained::explained_text;
use command_files::{Answer, Fault, Refusal, Status, Why, read_hex};
use debug_answers::outputs_text;
use octets::Bytes;
use std::alloc::Global;
use trace_json::outputs_line;

/// The bytes of a word, or why it is refused.
#[tactic(auto, using(crate::proofs::Answered::no_hex))]
fn bytes_of<'a>(alloc: Global, hex: &'a str) -> Result<Bytes, Refusal<'a>>
    ensures value { IfOk result (λ bytes. decode_of hex.entry.now ≡ Ok bytes) }
    ensures refused { IfErr result (λ r. IsOneFault hex.entry.now r.fault) }
{
    match read_hex(alloc, hex) {
        Ok(bytes) => Ok(bytes),
        Err(Fault::Hex) => Err(Refusal {
            fault: Fault::Hex,
            about: Some(hex),
            why: Why::Known("it is not pairs of hexadecimal digits"),
        }),
        Err(fault) => Err(Refusal::from(fault)),
    }
}

/// `one HEX`: what the demonstration device outputs for a datagram from its server, a line for each output, or
/// `nothing`.
#[tactic(auto, using(crate::proofs::Answered::one_done, crate::proofs::Answered::one_memory))]
pub fn one<'a>(alloc: Global, hex: &'a str) -> Result<Answer<'a>, Refusal<'a>>
    ensures done { IfOk result (IsOneDone hex.entry.now) }
    ensures refused { IfErr result (λ r. IsOneFault hex.entry.now r.fault) }
{
    let bytes = bytes_of(alloc, hex)?;
    let outputs = demo::answer(alloc, bytes)?;
    let text = outputs_text(alloc, outputs.as_slice())?;
    Ok(Answer::printed(Status::Done, text))
}

/// `one --why HEX`: what `one HEX` prints, and below its first line what the reply says and why the device answers so,
/// each in a line that begins with four spaces and `#`.
#[tactic(auto, using(crate::proofs::Answered::why_done, crate::proofs::Answered::one_memory))]
pub fn one_why<'a>(alloc: Global, hex: &'a str) -> Result<Answer<'a>, Refusal<'a>>
    ensures done { IfOk result (IsOneWhyDone hex.entry.now) }
    ensures refused { IfErr result (λ r. IsOneFault hex.entry.now r.fault) }
{
    let bytes = bytes_of(alloc, hex)?;
    let line = demo::reason(alloc, bytes.as_slice())?;
    let outputs = demo::answer(alloc, bytes)?;
    let text = explained_text(alloc, outputs.as_slice(), line.as_str())?;
    Ok(Answer::printed(Status::Done, text))
}

/// `one --json HEX`: the same outputs as an object in a line.
#[tactic(auto, using(crate::proofs::Answered::json_done, crate::proofs::Answered::one_memory))]
pub fn one_json<'a>(alloc: Global, hex: &'a str) -> Result<Answer<'a>, Refusal<'a>>
    ensures done { IfOk result (IsOneJsonDone hex.entry.now) }
    ensures refused { IfErr result (λ r. IsOneFault hex.entry.now r.fault) }
{
    let bytes = bytes_of(alloc, hex)?;
    let outputs = demo::answer(alloc, bytes)?;
    let text = outputs_line(alloc, outputs.as_slice())?;
    Ok(Answer::printed(Status::Done, text))
}
