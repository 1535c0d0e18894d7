//! What the object of a fault has.
ghost use Rattle.std.specs.Prelude.{◌≡◌, IfOk, option_map};
ghost use Rattle.std.specs.String.{string_bytes};
ghost use Rattle.command_files.specs.FaultLine.{place_of};
ghost use Rattle.command_json.specs.Told.{IsRefusedWord, blamed_word, object_name, refusal_cause, refused_file};
ghost use Rattle.command_json.specs.Told.{refused_line};

use crate::cases::case_words;
use byte_layout::LayoutFault;
use case_text::CaseFault;
use command_files::{Fault, Why};
use scenario_asm::TextFault;
use scenario_words::cause_words;
use std::alloc::{AllocError, Global};

/// The name of a fault.
pub(crate) fn object_name(alloc: Global, fault: Fault) -> Result<String, AllocError>
    ensures { IfOk result (λ t. string_bytes t ≡ object_name fault) }
{
    match fault {
        Fault::Text(_) | Fault::Cases(_) => String::from_str(alloc, "line"),
        Fault::Layout(LayoutFault::BadField(_)) => String::from_str(alloc, "bad field"),
        Fault::Layout(LayoutFault::Limit(_)) => String::from_str(alloc, "limit"),
        _ => format!(in alloc; "{fault}"),
    }
}

/// The line that is refused.
pub(crate) fn refused_line(fault: Fault) -> Option<u64>
    ensures { result ≡ refused_line fault }
{
    match fault {
        Fault::Text(TextFault { line, .. }) => Some(line as u64),
        Fault::Cases(CaseFault { line, .. }) => Some(line as u64),
        _ => None,
    }
}

/// The place that is refused.
pub(crate) fn refused_place(fault: Fault) -> Option<u64>
    ensures { result ≡ place_of fault }
{
    match fault {
        Fault::Layout(LayoutFault::BadField(place)) => Some(place as u64),
        Fault::Layout(LayoutFault::Limit(place)) => Some(place as u64),
        _ => None,
    }
}

/// Why the line is refused.
pub(crate) fn refusal_cause(alloc: Global, fault: Fault) -> Result<Option<String>, AllocError>
    ensures { IfOk result (λ o. option_map (λ t. string_bytes t) o ≡ refusal_cause fault) }
{
    match fault {
        Fault::Text(TextFault { cause, .. }) => {
            Ok(Some(String::from_str(alloc, cause_words(cause))?))
        }
        Fault::Cases(CaseFault { why, .. }) => Ok(Some(case_words(alloc, why)?)),
        _ => Ok(None),
    }
}

/// The file that a fault is about.
pub(crate) fn refused_file<'a>(fault: Fault, about: Option<&'a str>) -> Option<&'a str>
    ensures { option_map (λ x. x.now) result ≡ refused_file fault (option_map (λ x. x.now) about.entry) }
{
    match fault {
        Fault::Hex
        | Fault::NoDevice
        | Fault::Bind
        | Fault::Wire
        | Fault::NoSuchCase
        | Fault::NoDatagram
        | Fault::Slices => None,
        _ => about,
    }
}

/// The word that a fault is about; of a line of a scenario's text the one that is to blame.
pub(crate) fn refused_word<'a>(
    fault: Fault,
    about: Option<&'a str>,
    blamed: Option<&'a str>,
) -> Option<&'a str>
    ensures { IsRefusedWord fault (option_map (λ x. x.now) about.entry) (option_map (λ x. x.now) blamed.entry)
        (option_map (λ x. x.now) result) }
{
    match fault {
        Fault::Hex
        | Fault::NoDevice
        | Fault::Bind
        | Fault::Wire
        | Fault::NoSuchCase
        | Fault::NoDatagram
        | Fault::Slices => about,
        Fault::Text(_) => blamed,
        _ => None,
    }
}

/// The word of a refused line that is to blame, as standard error has it.
pub(crate) fn blamed_word(why: &Why) -> Option<&str>
    ensures { option_map (λ x. x.now) result ≡ blamed_word why.now }
{
    match why {
        Why::Word(word) => Some(word.as_str()),
        _ => None,
    }
}
