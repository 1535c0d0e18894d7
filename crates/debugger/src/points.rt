//! The breakpoints that there are, without the free numbers between them.

ghost use Rattle.std.specs.Prelude.{◌≡◌, ◌≤◌, length, IfOk};
ghost use Rattle.debugger.specs.Searches.{AreSet};

use crate::breaks::Break;
use std::alloc::{AllocError, Global};

/// A breakpoint with its number.
#[derive(Drop)]
pub(crate) struct Numbered {
    /// The number.
    pub(crate) number: u8,
    /// The breakpoint.
    pub(crate) point: Break,
}

/// The breakpoints that there are, in the order of their numbers.
pub(crate) fn set_points(
    alloc: Global,
    breaks: &[Option<Break>],
) -> Result<Vec<Numbered>, AllocError>
    requires { length breaks.now ≤ 64 }
    ensures { IfOk result (λ v. AreSet breaks.now (length breaks.now) v.items) }
{
    let mut points = Vec::new(alloc);
    for (slot, point) in breaks.iter().enumerate() {
        let Some(point) = point else {
            continue;
        };
        points.push(Numbered {
            number: slot as u8 + 1,
            point: *point,
        })?;
    }
    Ok(points)
}
