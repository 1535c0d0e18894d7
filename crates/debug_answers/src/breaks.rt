//! The answers to `break ..`, `clear ID` and `resume`.
ghost use Rattle.std.specs.Prelude.{◌≡◌, IfOk, OnErr};
ghost use Rattle.std.specs.String.{string_bytes};
ghost use Rattle.debug_answers.specs.Answers.{IsAsBeforeOrAfter, IsBreak, IsCleared, IsResumed};

use crate::lines::{break_line, cleared_line, fixed_line, stop_line};
use debugger::{Break, Debugger};
use std::alloc::{AllocError, Global};

/// `break ..`: `break ID` with the number of the new breakpoint, or `full`. Without memory the breakpoint may have been
/// added, and nothing else has changed.
#[tactic(auto, using(crate::proofs::WithoutMemory::added_left))]
pub fn add_break(alloc: Global, debugger: &mut Debugger, point: Break) -> Result<String, AllocError>
    ensures answer { IfOk result (λ text. IsBreak debugger.old point debugger.new (string_bytes text)) }
    ensures as_before_or_after { OnErr result
        (IsAsBeforeOrAfter (IsBreak debugger.old point) debugger.old debugger.new) }
{
    match debugger.add_break(point) {
        Ok(id) => break_line(alloc, id),
        Err(_) => fixed_line(alloc, "full"),
    }
}

/// `clear ID`: `cleared ID`, or `no such`. Without memory nothing changes.
pub fn clear(alloc: Global, debugger: &mut Debugger, id: u8) -> Result<String, AllocError>
    ensures answer { IfOk result (λ text. IsCleared debugger.old id debugger.new (string_bytes text)) }
    ensures unchanged { OnErr result (debugger.new ≡ debugger.old) }
{
    let cleared = cleared_line(alloc, id)?;
    let none = fixed_line(alloc, "no such")?;
    match debugger.remove_break(id) {
        Ok(()) => Ok(cleared),
        Err(_) => Ok(none),
    }
}

/// `resume`: `break ID at N`, or `end at N`. Without memory the debugger may be at the next stop, and nothing else has
/// changed.
#[tactic(auto, using(crate::proofs::WithoutMemory::resumed_left))]
pub fn resume(alloc: Global, debugger: &mut Debugger) -> Result<String, AllocError>
    ensures answer { IfOk result (λ text. IsResumed debugger.old debugger.new (string_bytes text)) }
    ensures as_before_or_after { OnErr result (IsAsBeforeOrAfter (IsResumed debugger.old) debugger.old debugger.new) }
{
    let stop = debugger.resume()?;
    stop_line(alloc, stop, debugger.at())
}
