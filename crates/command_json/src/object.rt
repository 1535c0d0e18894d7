//! The line of a refusal's object.
ghost use Rattle.std.specs.Prelude.{◌≡◌, IfOk, option_map};
ghost use Rattle.std.specs.String.{string_bytes};
ghost use Rattle.command_files.specs.FaultLine.{place_of};
ghost use Rattle.command_json.specs.Told.{IsObjectLine, blamed_word, refused_line};

use crate::parts::{
    blamed_word, object_name, refusal_cause, refused_file, refused_line, refused_place,
    refused_word,
};
use command_files::{Fault, Refusal};
use std::alloc::{AllocError, Global};
use trace_json::{FaultParts, fault_line};

/// The text of what may be there.
fn text_of(text: &Option<String>) -> Option<&str>
    ensures { option_map (λ x. x.now) result ≡ option_map (λ t. string_bytes t) text.now }
{
    match text {
        Some(text) => Some(text.as_str()),
        None => None,
    }
}

/// The parts of a fault, from these texts.
fn parts_of<'b>(
    fault: Fault,
    name: &'b str,
    cause: Option<&'b str>,
    word: Option<&'b str>,
    file: Option<&'b str>,
) -> FaultParts<'b>
    ensures name { result.name.now ≡ name.entry.now }
    ensures line { result.line ≡ refused_line fault }
    ensures place { result.place ≡ place_of fault }
    ensures cause { option_map (λ x. x.now) result.cause ≡ option_map (λ x. x.now) cause.entry }
    ensures word { option_map (λ x. x.now) result.word ≡ option_map (λ x. x.now) word.entry }
    ensures file { option_map (λ x. x.now) result.file ≡ option_map (λ x. x.now) file.entry }
{
    FaultParts {
        name,
        line: refused_line(fault),
        place: refused_place(fault),
        cause,
        word,
        file,
    }
}

/// The line of the object of a refusal's fault.
#[tactic(auto, using(crate::proofs::Objects::object_line))]
pub fn object_line(alloc: Global, refusal: &Refusal) -> Result<String, AllocError>
    ensures { IfOk result (λ t. IsObjectLine (option_map (λ p. p.now) refusal.now.about) (blamed_word refusal.now.why)
        refusal.now.fault (string_bytes t)) }
{
    let fault = refusal.fault;
    let name = object_name(alloc, fault)?;
    let cause = refusal_cause(alloc, fault)?;
    let word = refused_word(fault, refusal.about, blamed_word(&refusal.why));
    let file = refused_file(fault, refusal.about);
    let parts = parts_of(fault, name.as_str(), text_of(&cause), word, file);
    fault_line(alloc, &parts)
}
