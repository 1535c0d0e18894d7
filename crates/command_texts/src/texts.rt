//! Texts of scenarios: the scenario that one denotes.
ghost use Rattle.std.specs.Prelude.{◌≡◌, IfErr, IfOk, Some, option_map};
ghost use Rattle.scenario_asm.specs.Denotes.{Denotes};
ghost use Rattle.command_texts.specs.Texts.{IsNoText, IsTextAt, IsTextFault, IsTextWhy, IsTextWhyAt};

use crate::blaming::refuse_text;
use command_files::files::Files;
use command_files::{Fault, Refusal, Why, read_file};
use scenario_asm::assemble_or_limit;
use scenario_image::Scenario;
use std::alloc::Global;
use std::str;

/// The scenario that the text in the file at this path denotes. A fault names the path.
#[tactic(auto, using(crate::proofs::Denoted::text_at, crate::proofs::Denoted::unread, crate::proofs::Denoted::no_text_at, crate::proofs::Denoted::unread_why, crate::proofs::Denoted::why_at))]
pub fn load_text<'a, F: Files>(
    alloc: Global,
    path: &'a str,
    files: &F,
) -> Result<Scenario, Refusal<'a>>
    ensures found { IfOk result (IsTextAt (F.holds files.now) path.entry.now) }
    ensures refused { IfErr result (λ r. IsTextFault (F.holds files.now) (F.fails files.now) path.entry.now r.fault) }
    ensures blamed { IfErr result (λ r. IsTextWhyAt (F.holds files.now) path.entry.now r.fault r.why) }
    ensures names_path { IfErr result (λ r. option_map (λ p. p.now) r.about ≡ Some path.entry.now) }
{
    let bytes = read_file(alloc, path, files)?;
    text_of(alloc, path, bytes.as_slice())
}

/// The scenario that these bytes of the file at this path denote, as a text. A fault names the path.
#[tactic(auto, using(crate::proofs::Denoted::no_utf8, crate::proofs::Denoted::wrong_text, crate::proofs::Denoted::text_why, scenario_asm::proofs::Denoting::so_denotes))]
pub fn text_of<'a>(alloc: Global, path: &'a str, bytes: &[u8]) -> Result<Scenario, Refusal<'a>>
    ensures found { IfOk result (Denotes bytes.now) }
    ensures refused { IfErr result (λ r. IsNoText bytes.now r.fault) }
    ensures blamed { IfErr result (λ r. IsTextWhy bytes.now r.fault r.why) }
    ensures names_path { IfErr result (λ r. option_map (λ p. p.now) r.about ≡ Some path.entry.now) }
{
    let Ok(text) = str::from_utf8(bytes) else {
        return Err(Refusal {
            fault: Fault::Read,
            about: Some(path),
            why: Why::Known("not valid UTF-8"),
        });
    };
    match assemble_or_limit(alloc, text) {
        Ok(scenario) => Ok(scenario),
        Err(fault) => Err(refuse_text(alloc, path, text, fault)),
    }
}
