//! What the program answers to `join`. Nothing is written or printed here: a file that is only borrowed cannot be.
ghost use Rattle.std.specs.Prelude.{◌≡◌, IfErr, IfOk, map, option_map};
ghost use Rattle.std.specs.String.{string_bytes};
ghost use Rattle.command_join.specs.Join.{IsJoinDone, IsJoinFault, joined_line};

use crate::order::in_order;
use crate::slice::slices_of;
use crate::whole::whole_of;
use command_files::files::Files;
use command_files::{Answer, Refusal, Status, image_file};
use std::alloc::{AllocError, Global};

/// How many devices of how many images are joined.
fn joined_line(alloc: Global, devices: usize, images: usize) -> Result<String, AllocError>
    ensures { IfOk result (λ text. string_bytes text ≡ joined_line devices images) }
{
    format!(in alloc; "joined {devices} devices of {images} images\n")
}

/// `join OUT IMAGE ..`: the scenario of slices, whose image goes to OUT, in version 2. It has the classes of each of
/// them, and the rows of all.
#[tactic(auto, using(crate::proofs::Answered::join_done, crate::proofs::Answered::order_fault, crate::proofs::Answered::whole_fault, crate::proofs::Answered::join_memory, crate::proofs::Words::upward))]
pub fn join<'a, F: Files>(
    alloc: Global,
    output: &'a str,
    images: &[&'a str],
    files: &F,
) -> Result<Answer<'a>, Refusal<'a>>
    ensures done { IfOk result (IsJoinDone (F.holds files.now) output.entry.now (map (λ w. w.now) images.now)) }
    ensures refused { IfErr result (λ r. IsJoinFault (F.holds files.now) (F.fails files.now)
        (map (λ w. w.now) images.now) (option_map (λ w. w.now) r.about) r.fault) }
{
    let named = slices_of(alloc, images)?;
    let order = in_order(named)?;
    let whole = whole_of(alloc, order.as_slice(), files)?;
    let file = image_file(alloc, &whole, output)?;
    let text = joined_line(alloc, whole.rows(), images.len())?;
    Ok(Answer {
        status: Status::Done,
        text,
        file: Some(file),
    })
}
