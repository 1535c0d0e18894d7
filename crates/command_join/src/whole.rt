//! The whole scenario of slices, one after another.
ghost use Rattle.std.specs.Prelude.{◌≡◌, ◌≢◌, ◌+◌, ◌≤◌, ◌<◌, ◌↔◌, ◌++◌, IfErr, IfOk, IsTrue, None, Some, length};
ghost use Rattle.std.specs.Prelude.{option_map};
ghost use Rattle.scenario_image.specs.Scenario.{most_rows};
ghost use Rattle.command_files.specs.declared.fault.Fault.TheVariants.{Slices};
ghost use Rattle.command_join.specs.Join.{IsAdded, IsJoined, IsNext, IsRefusedNext, IsUnadded, IsWholeFault};

use crate::classes::have_same_classes;
use crate::loading::load_slice;
use crate::rows::add_rows;
use crate::slice::Slice;
use command_files::files::Files;
use command_files::{Fault, Refusal, Why};
use scenario_image::{Scenario, ScenarioFault};
use std::alloc::Global;

/// How many rows a scenario may have.
const MOST_ROWS: usize = 16384;

/// The refusal of the image of a slice.
fn refusal_at<'a>(path: &'a str, fault: Fault, why: &'static str) -> Refusal<'a>
    ensures fault { result.fault ≡ fault }
    ensures about { option_map (λ p. p.now) result.about ≡ Some path.entry.now }
{
    Refusal {
        fault,
        about: Some(path),
        why: Why::Known(why),
    }
}

/// The scenario with the rows of a part after its own, if it has the same classes and there is room for them.
#[tactic(auto, using(crate::proofs::Joined::added, crate::proofs::Joined::other_classes, crate::proofs::Joined::too_many, crate::proofs::Joined::no_memory))]
fn append_part<'a>(
    alloc: Global,
    mut whole: Scenario,
    part: &Scenario,
    path: &'a str,
) -> Result<Scenario, Refusal<'a>>
    ensures added { IfOk result (IsAdded (Some whole) part.now) }
    ensures refused { IfErr result (λ r. IsUnadded (Some whole) part.now path.entry.now
        (option_map (λ p. p.now) r.about) r.fault) }
{
    if !have_same_classes(alloc, part, &whole)? {
        return Err(refusal_at(
            path,
            Fault::OtherClasses,
            "its classes are not those of the images before it",
        ));
    }
    if whole.rows() + part.rows() > MOST_ROWS {
        let fault = Fault::Session(ScenarioFault::Limit);
        return Err(refusal_at(path, fault, "a scenario has at most 16,384 devices"));
    }
    add_rows(&mut whole, part)?;
    Ok(whole)
}

/// What was joined so far, with a part more.
#[tactic(auto, using(crate::proofs::Joined::first_part, crate::proofs::Joined::next_part, crate::proofs::Joined::unadded_part))]
fn with_part<'a>(
    alloc: Global,
    so_far: Option<Scenario>,
    part: Scenario,
    path: &'a str,
) -> Result<Scenario, Refusal<'a>>
    ensures added { IfOk result (IsAdded so_far part) }
    ensures refused { IfErr result (λ r. IsUnadded so_far part path.entry.now (option_map (λ p. p.now) r.about)
        r.fault) }
{
    match so_far {
        None => Ok(part),
        Some(whole) => append_part(alloc, whole, &part, path),
    }
}

/// What was joined so far, with a slice more.
#[tactic(auto, using(crate::proofs::Joined::next_joined, crate::proofs::Joined::unread_next, crate::proofs::Joined::unadded_next))]
fn with_slice<'a, F: Files>(
    alloc: Global,
    so_far: Option<Scenario>,
    slice: Slice<'a>,
    files: &F,
) -> Result<Scenario, Refusal<'a>>
    ensures whole { IfOk result (IsNext (F.holds files.now) so_far slice.entry) }
    ensures refused { IfErr result (λ r. IsRefusedNext (F.holds files.now) (F.fails files.now) so_far slice.entry
        (option_map (λ p. p.now) r.about) r.fault) }
{
    let part = load_slice(alloc, slice, files)?;
    with_part(alloc, so_far, part, slice.path)
}

/// The whole scenario of slices in their order.
pub(crate) fn whole_of<'a, F: Files>(
    alloc: Global,
    slices: &[Slice<'a>],
    files: &F,
) -> Result<Scenario, Refusal<'a>>
    ensures whole { IfOk result (IsJoined (F.holds files.now) slices.now) }
    ensures refused { IfErr result (λ r. IsWholeFault (F.holds files.now) (F.fails files.now) slices.now
        (option_map (λ p. p.now) r.about) r.fault) }
{
    let mut so_far = None;
    for slice in slices {
        so_far = Some(with_slice(alloc, so_far, *slice, files)?);
    }
    match so_far {
        Some(whole) => Ok(whole),
        None => Err(Refusal {
            fault: Fault::Slices,
            about: None,
            why: Why::Known("there is no image"),
        }),
    }
}
