//! The image of a slice.
ghost use Rattle.std.specs.Prelude.{◌≡◌, ◌+◌, ◌≤◌, ◌↔◌, IfErr, IfOk, IsTrue, Some, option_map};
ghost use Rattle.command_join.specs.Join.{HasCountOf, IsImageOf, IsUnread};

use crate::slice::{Slice, blamed};
use command_files::files::Files;
use command_files::{Refusal, load_scenario};
use scenario_image::Scenario;
use std::alloc::Global;

/// Whether there are so many devices from the first to the last one.
fn is_count(first: u16, last: u16, devices: usize) -> bool
    requires { devices ≤ 16384 }
    ensures { IsTrue result ↔ (devices + first ≡ last + 1) }
{
    devices + usize::from(first) == usize::from(last) + 1
}

/// Whether a scenario has as many devices as the slice says; any number where it does not say it.
fn has_count_of(slice: &Slice, part: &Scenario) -> bool
    ensures { IsTrue result ↔ HasCountOf slice.now part.now }
{
    slice.devices.is_none() || is_count(slice.first(), slice.last(), part.rows())
}

/// The scenario of a slice's image, which has as many devices as the slice says.
#[tactic(auto, using(crate::proofs::Joined::image_of, crate::proofs::Joined::other_count, crate::proofs::Joined::no_image))]
pub(crate) fn load_slice<'a, F: Files>(
    alloc: Global,
    slice: Slice<'a>,
    files: &F,
) -> Result<Scenario, Refusal<'a>>
    ensures found { IfOk result (IsImageOf (F.holds files.now) slice.entry) }
    ensures refused { IfErr result (λ r. IsUnread (F.holds files.now) (F.fails files.now) slice.entry
        (option_map (λ w. w.now) r.about) r.fault) }
{
    let part = load_scenario(alloc, slice.path, files)?;
    if !has_count_of(&slice, &part) {
        return Err(blamed(slice, "its image does not have as many devices"));
    }
    Ok(part)
}
