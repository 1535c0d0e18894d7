//! The answer to `why D`.

ghost use Rattle.std.specs.Prelude.{IfOk};
ghost use Rattle.std.specs.String.{string_bytes};
ghost use Rattle.device_machine.specs.State.{Machine as FlatState, Shows};
ghost use Rattle.debug_answers.specs.Why.{IsWhyAnswer, IsWhyLine};

use crate::lines::fixed_line;
use debugger::{Debugger, DeviceFault};
use device_machine::{Device, Event};
use device_reasons::{arrival_reason, arrival_reason_text};
use scenario_image::Step;
use std::alloc::{AllocError, Global};

/// Why a device handles bytes that come from a server as it does, in a line.
fn why_line(alloc: Global, device: &Device, server: u16, bytes: &[u8]) -> Result<String, AllocError>
    ensures { (f : FlatState) → Shows device.now f
        → IfOk result (λ text. IsWhyLine f server bytes.now (string_bytes text)) }
{
    let reason = arrival_reason(alloc, device, server, bytes)?;
    let words = arrival_reason_text(alloc, &reason)?;
    fixed_line(alloc, words.as_str())
}

/// `why D`: why the device handled the datagram of its latest entry as it did, in the state right before it;
/// `no datagram` where none arrived there, `no step` before its first entry; `no device` exactly if there is no row.
#[tactic(auto, using(crate::proofs::Whys::why_there, crate::proofs::Whys::why_nowhere))]
pub fn show_why(alloc: Global, debugger: &Debugger, device: u16) -> Result<String, AllocError>
    ensures { IfOk result (λ text. IsWhyAnswer debugger.now device (string_bytes text)) }
{
    match debugger.latest_step(device) {
        Err(DeviceFault::NoDevice) => fixed_line(alloc, "no device"),
        Ok(None) => fixed_line(alloc, "no step"),
        Ok(Some(Step::Event(Event::Recv { server, bytes }))) => {
            let before = debugger.before_latest(device)?;
            why_line(alloc, &before, *server, bytes.as_slice())
        }
        Ok(
            Some(
                Step::Event(Event::Put { .. } | Event::Firmware(_) | Event::Tick(_))
                | Step::Post(_)
                | Step::Need(_, _),
            ),
        ) => fixed_line(alloc, "no datagram"),
    }
}
