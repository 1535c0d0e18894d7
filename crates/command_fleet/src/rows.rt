//! The rows of a part of a scenario.
ghost use Rattle.std.specs.Prelude.{◌≡◌, IfOk};
ghost use Rattle.fleet_link.specs.Playing.{played_steps};

use fleet_link::own_steps;
use scenario_image::Step;
use std::alloc::{AllocError, Global};

/// Copies of the steps of a row that are played: all but its datagrams, if rows are played.
pub(crate) fn steps_to_play(
    alloc: Global,
    steps: &[Step],
    played: bool,
) -> Result<Vec<Step>, AllocError>
    ensures { IfOk result (λ own. own.items ≡ played_steps played steps.now) }
{
    if !played {
        return Ok(Vec::new(alloc));
    }
    own_steps(alloc, steps)
}
