ghost use Rattle.std.specs.Prelude.{◌≡◌, IfOk};
ghost use Rattle.scenario_image.specs.Image.{IsImageIn};

use crate::answer::NewFile;
use octets::Bytes;
use scenario_image::{Scenario, save};
use std::alloc::{AllocError, Global};

/// The image of a scenario, of version 2, for the path.
pub fn image_file<'a>(
    alloc: Global,
    scenario: &Scenario,
    path: &'a str,
) -> Result<NewFile<'a>, AllocError>
    ensures path { IfOk result (λ f. f.path.now ≡ path.entry.now) }
    ensures image { IfOk result (λ f. IsImageIn 2 f.bytes scenario.now) }
{
    let bytes = Bytes::from_vec(save(alloc, scenario)?);
    Ok(NewFile { path, bytes })
}
