//! The scenario of a file, which is its image or its text.
ghost use Rattle.std.specs.Prelude.{◌≡◌, ◌⊎◌, IfErr, IfOk};
ghost use Rattle.command_files.specs.Fault.{IsReadingFault};
ghost use Rattle.command_files.specs.Loading.{IsHeld};
ghost use Rattle.command_sources.specs.Sources.{IsNoScenario, IsScenarioOf, is_marked};

use command_files::files::Files;
use command_files::{Refusal, image_of, read_file};
use command_texts::text_of;
use scenario_image::Scenario;
use std::alloc::Global;

/// Whether bytes begin with the mark of an image.
fn is_marked(bytes: &[u8]) -> bool
    ensures { result ≡ is_marked bytes.now }
{
    bytes.starts_with(b"LWSC")
}

/// The scenario whose image or text these bytes of the file at this path are.
#[tactic(auto, using(crate::proofs::Sourced::of_image, crate::proofs::Sourced::of_text, crate::proofs::Sourced::no_image, crate::proofs::Sourced::no_text))]
fn scenario_of<'a>(alloc: Global, path: &'a str, bytes: &[u8]) -> Result<Scenario, Refusal<'a>>
    ensures found { IfOk result (IsScenarioOf bytes.now) }
    ensures refused { IfErr result (λ r. IsNoScenario bytes.now r.fault) }
{
    if is_marked(bytes) {
        image_of(alloc, path, bytes)
    } else {
        text_of(alloc, path, bytes)
    }
}

/// The scenario of the file at this path, which is its image or its text.
#[tactic(auto, using(crate::proofs::Sourced::held, crate::proofs::Sourced::unread, crate::proofs::Sourced::no_scenario))]
pub fn load_source<'a, F: Files>(
    alloc: Global,
    path: &'a str,
    files: &F,
) -> Result<Scenario, Refusal<'a>>
    ensures found { IfOk result (λ s. IsHeld (F.holds files.now) path.entry.now (λ bytes. IsScenarioOf bytes s)) }
    ensures refused { IfErr result (λ r. IsReadingFault (F.fails files.now path.entry.now) r.fault
        ⊎ IsHeld (F.holds files.now) path.entry.now (λ bytes. IsNoScenario bytes r.fault)) }
{
    let bytes = read_file(alloc, path, files)?;
    scenario_of(alloc, path, bytes.as_slice())
}
