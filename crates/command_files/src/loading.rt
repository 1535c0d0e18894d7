//! Scenarios and traces, read from files.
ghost use Rattle.std.specs.Prelude.{◌≡◌, ◌≢◌, IfErr, IfOk, Some, option_map};
ghost use Rattle.byte_layout.specs.declared.fault.LayoutFault.TheVariants.{Memory};
ghost use Rattle.scenario_image.specs.Image.{IsImage, HasImageFault};
ghost use Rattle.command_files.specs.Fault.{IsReadingFault};
ghost use Rattle.command_files.specs.Loading.{IsImageFault, IsNoImage, IsScenarioAt, IsTextUnread, IsTraceAt};
ghost use Rattle.command_files.specs.Loading.{IsTraceFault};
ghost use Rattle.command_files.specs.Verdicts.{IsVerdictAt};

use crate::fault::Fault;
use crate::files::{FileFault, Files};
use crate::refusal::{Refusal, Why};
use byte_layout::LayoutFault;
use fleet_core::{Verdict, check_file};
use lwm2m_values::Text;
use scenario_image::{Scenario, load};
use std::alloc::Global;
use trace_file::{Entries, read_entries};

/// All bytes of the file at this path.
pub fn read_file<'a, F: Files>(
    alloc: Global,
    path: &'a str,
    files: &F,
) -> Result<Vec<u8>, Refusal<'a>>
    ensures content { IfOk result (λ bytes. F.holds files.now path.entry.now bytes.items) }
    ensures refused { IfErr result (λ r. IsReadingFault (F.fails files.now path.entry.now) r.fault) }
    ensures names_path { IfErr result (λ r. option_map (λ p. p.now) r.about ≡ Some path.entry.now) }
{
    match files.read_all(alloc, path) {
        Ok(bytes) => Ok(bytes),
        Err(FileFault::Failed(why)) => Err(Refusal {
            fault: Fault::Read,
            about: Some(path),
            why: Why::Known(why),
        }),
        Err(FileFault::Memory) => Err(refused_file(path, Fault::Memory)),
    }
}

/// The text of the file at this path. A file that is not valid UTF-8 is refused as one that cannot be read.
#[tactic(auto, using(crate::proofs::Faults::unread, crate::proofs::Faults::not_text))]
pub fn read_text<'a, F: Files>(alloc: Global, path: &'a str, files: &F) -> Result<Text, Refusal<'a>>
    ensures held { IfOk result (F.holds files.now path.entry.now) }
    ensures refused { IfErr result (λ r. IsTextUnread (F.holds files.now) (F.fails files.now) path.entry.now r.fault) }
    ensures names_path { IfErr result (λ r. option_map (λ p. p.now) r.about ≡ Some path.entry.now) }
{
    let bytes = read_file(alloc, path, files)?;
    match String::from_utf8(bytes) {
        Ok(text) => Ok(Text::from_string(text)),
        Err(_) => Err(Refusal {
            fault: Fault::Read,
            about: Some(path),
            why: Why::Known("not valid UTF-8"),
        }),
    }
}

/// The refusal of a file for a fault whose name says why.
fn refused_file<'a>(path: &'a str, fault: Fault) -> Refusal<'a>
    ensures fault { result.fault ≡ fault }
    ensures names_path { option_map (λ p. p.now) result.about ≡ Some path.entry.now }
{
    Refusal {
        fault,
        about: Some(path),
        why: Why::Named,
    }
}

/// The scenario whose image these bytes are; else their first fault from the left.
fn scenario_of(alloc: Global, bytes: &[u8]) -> Result<Scenario, LayoutFault>
    ensures found { IfOk result (λ s. IsImage bytes.now s) }
    ensures fault { IfErr result (λ f. f ≢ Memory → HasImageFault bytes.now f) }
{
    load(alloc, bytes)
}

/// The scenario whose image these bytes of the file at this path are. A fault names the path.
#[tactic(auto, using(crate::proofs::Faults::broken_image))]
pub fn image_of<'a>(alloc: Global, path: &'a str, bytes: &[u8]) -> Result<Scenario, Refusal<'a>>
    ensures found { IfOk result (IsImage bytes.now) }
    ensures refused { IfErr result (λ r. IsNoImage bytes.now r.fault) }
    ensures names_path { IfErr result (λ r. option_map (λ p. p.now) r.about ≡ Some path.entry.now) }
{
    match scenario_of(alloc, bytes) {
        Ok(scenario) => Ok(scenario),
        Err(fault) => Err(refused_file(path, Fault::from(fault))),
    }
}

/// The scenario whose image the file at this path is. A fault names the path.
#[tactic(auto, using(crate::proofs::Faults::reading_file, crate::proofs::Faults::no_image_at, crate::proofs::Built::scenario_at))]
pub fn load_scenario<'a, F: Files>(
    alloc: Global,
    path: &'a str,
    files: &F,
) -> Result<Scenario, Refusal<'a>>
    ensures found { IfOk result (IsScenarioAt (F.holds files.now) path.entry.now) }
    ensures refused { IfErr result (λ r. IsImageFault (F.holds files.now) (F.fails files.now) path.entry.now r.fault) }
    ensures names_path { IfErr result (λ r. option_map (λ p. p.now) r.about ≡ Some path.entry.now) }
{
    let bytes = read_file(alloc, path, files)?;
    image_of(alloc, path, bytes.as_slice())
}

/// The entries whose trace file the file at this path is. A fault names the path.
#[tactic(auto, using(crate::proofs::Faults::reading_file, crate::proofs::Faults::broken_at, crate::proofs::Built::trace_at))]
pub fn load_trace<'a, F: Files>(
    alloc: Global,
    path: &'a str,
    files: &F,
) -> Result<Entries, Refusal<'a>>
    ensures found { IfOk result (IsTraceAt (F.holds files.now) path.entry.now) }
    ensures refused { IfErr result (λ r. IsTraceFault (F.holds files.now) (F.fails files.now) path.entry.now r.fault) }
    ensures names_path { IfErr result (λ r. option_map (λ p. p.now) r.about ≡ Some path.entry.now) }
{
    let bytes = read_file(alloc, path, files)?;
    match read_entries(alloc, bytes.as_slice()) {
        Ok(entries) => Ok(entries),
        Err(fault) => Err(refused_file(path, Fault::from(fault))),
    }
}

/// The verdict on the entries whose trace file the file at this path is: whether they are a run of the scenario. Each
/// is judged as it is read, and none is kept. A fault names the path.
#[tactic(auto, using(crate::proofs::Faults::reading_file, crate::proofs::Faults::broken_at, crate::proofs::Built::verdict_at))]
pub fn load_verdict<'a, F: Files>(
    alloc: Global,
    path: &'a str,
    scenario: &Scenario,
    files: &F,
) -> Result<Verdict, Refusal<'a>>
    ensures found { IfOk result (IsVerdictAt (F.holds files.now) path.entry.now scenario.now) }
    ensures refused { IfErr result (λ r. IsTraceFault (F.holds files.now) (F.fails files.now) path.entry.now r.fault) }
    ensures names_path { IfErr result (λ r. option_map (λ p. p.now) r.about ≡ Some path.entry.now) }
{
    let bytes = read_file(alloc, path, files)?;
    match check_file(alloc, scenario, bytes.as_slice()) {
        Ok(verdict) => Ok(verdict),
        Err(fault) => Err(refused_file(path, Fault::from(fault))),
    }
}
