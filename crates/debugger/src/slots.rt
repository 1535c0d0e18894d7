//! The numbers of breakpoints: that of number i + 1, or none, is at i.

ghost use Rattle.std.specs.Prelude.{◌≡◌, ℕ, ◌+◌, ◌<◌, ◌↔◌, length, replicate, slice_get, Some, None, IsTrue, IfOk};
ghost use Rattle.std.specs.Prelude.{IfSome, IfNone};
ghost use Rattle.debugger.specs.Session.{most_breaks};
ghost use Rattle.debugger.specs.Breaks.{IsTaken};

use crate::breaks::Break;
use std::alloc::{AllocError, Global};

/// How many breakpoints there may be.
const MOST_BREAKS: usize = 64;

/// Room for all the breakpoints, with none of them.
pub(crate) fn no_breaks(alloc: Global) -> Result<Vec<Option<Break>>, AllocError>
    ensures { IfOk result (λ v. v.items ≡ replicate most_breaks None) }
{
    let mut breaks = Vec::with_capacity(alloc, MOST_BREAKS)?;
    for _slot in 0..MOST_BREAKS {
        breaks.push(None)?;
    }
    Ok(breaks)
}

/// The first slot without a breakpoint.
pub(crate) fn free_slot(breaks: &[Option<Break>]) -> Option<usize>
    ensures free { IfSome result (λ i. slice_get breaks.now i ≡ Some None) }
    ensures least { IfSome result (λ i. (k : ℕ) → k < i → IsTaken breaks.now (k + 1)) }
    ensures none { IfNone result ((k : ℕ) → k < length breaks.now → IsTaken breaks.now (k + 1)) }
{
    for (slot, point) in breaks.iter().enumerate() {
        if point.is_none() {
            return Some(slot);
        }
    }
    None
}

/// Whether there is a breakpoint of this number.
pub(crate) fn is_taken(breaks: &[Option<Break>], id: u8) -> bool
    ensures { IsTrue result ↔ IsTaken breaks.now id }
{
    if id == 0 {
        return false;
    }
    match breaks.get(usize::from(id) - 1) {
        Some(Some(_)) => true,
        Some(None) | None => false,
    }
}
