//! The answers to `at`, `forward N` and `back N`.
ghost use Rattle.std.specs.Prelude.{◌≡◌, IfOk, OnErr};
ghost use Rattle.std.specs.String.{string_bytes};
ghost use Rattle.debug_answers.specs.Lines.{at_line};
ghost use Rattle.debug_answers.specs.Answers.{IsBack, IsForward};

use crate::lines::{at_line, fixed_line};
use debugger::{BackFault, Debugger, ForwardFault};
use std::alloc::{AllocError, Global};

/// `at`: the place.
pub fn place(alloc: Global, debugger: &Debugger) -> Result<String, AllocError>
    ensures { IfOk result (λ text. string_bytes text ≡ at_line debugger.now.place) }
{
    at_line(alloc, debugger.at())
}

/// `forward N`: the new place, or `past end`. Without memory nothing changes.
pub fn forward(alloc: Global, debugger: &mut Debugger, count: usize) -> Result<String, AllocError>
    ensures answer { IfOk result (λ text. IsForward debugger.old count debugger.new (string_bytes text)) }
    ensures unchanged { OnErr result (debugger.new ≡ debugger.old) }
{
    let there = at_line(alloc, debugger.at().saturating_add(count))?;
    let past = fixed_line(alloc, "past end")?;
    match debugger.forward(count) {
        Ok(()) => {
            // For the proof alone: a place that is read is a usize, so the sum above was not cut off.
            let _known = debugger.at();
            Ok(there)
        }
        Err(ForwardFault::PastEnd) => Ok(past),
        Err(ForwardFault::Memory) => Err(AllocError),
    }
}

/// `back N`: the new place, or `past start`. Without memory nothing changes.
pub fn back(alloc: Global, debugger: &mut Debugger, count: usize) -> Result<String, AllocError>
    ensures answer { IfOk result (λ text. IsBack debugger.old count debugger.new (string_bytes text)) }
    ensures unchanged { OnErr result (debugger.new ≡ debugger.old) }
{
    let there = at_line(alloc, debugger.at().saturating_sub(count))?;
    let past = fixed_line(alloc, "past start")?;
    match debugger.back(count) {
        Ok(()) => Ok(there),
        Err(BackFault::PastStart) => Ok(past),
        Err(BackFault::Memory) => Err(AllocError),
    }
}
