//! A fault, and what standard error says of it.
ghost use Rattle.std.specs.Prelude.{◌≡◌, ◌++◌, IfOk, option_map};
ghost use Rattle.std.specs.String.{string_bytes};
ghost use Rattle.command_files.specs.FaultLine.{fault_name};
ghost use Rattle.command_files.specs.Refusals.{IsAbout, IsComplaint, IsNamed, IsReason, about_line, limit_passed};
ghost use Rattle.command_files.specs.Refusals.{limit_told, line_then, plain_line, with_line, with_word, word_then};

use crate::fault::Fault;
use scenario_asm::ScenarioLimit;
use scenario_image::ScenarioFault;
use std::alloc::{AllocError, Global};

/// Why the program could not do what its words ask for, and which file or word is to blame.
#[derive(Drop)]
pub struct Refusal<'a> {
    /// The fault, whose line standard output gets.
    pub fault: Fault,
    /// The file or the word that it is about, if it is about one.
    pub about: Option<&'a str>,
    /// Why, for people.
    pub why: Why,
}

/// Why something was refused, in words for people.
#[derive(Drop)]
pub enum Why {
    /// The name of the fault says it.
    Named,
    /// These words say it.
    Known(&'static str),
    /// These words say it, which were put together for it.
    Made(String),
    /// This word of a refused line is to blame.
    Word(String),
    /// This is the refused line, of which no word is to blame.
    Line(String),
}

impl<'a> From<Fault> for Refusal<'a> {
    ghost from_gives = { λ fault e. e.fault ≡ fault };

    fn from(fault: Fault) -> Refusal<'a> {
        Refusal {
            fault,
            about: None,
            why: Why::Named,
        }
    }
}

impl<'a> From<AllocError> for Refusal<'a> {
    ghost use Rattle.command_files.specs.declared.fault.Fault.TheVariants.{Memory};

    ghost from_gives = { λ _ e. e.fault ≡ Memory };

    fn from(_error: AllocError) -> Refusal<'a> {
        Refusal {
            fault: Fault::Memory,
            about: None,
            why: Why::Named,
        }
    }
}

/// The line that standard error gets for a refusal. It begins with the path of the file that is refused, if there is
/// one.
#[tactic(auto, using(crate::proofs::Streams::is_about, crate::proofs::Streams::is_plain, crate::proofs::Streams::complains_about, crate::proofs::Streams::complains_plainly))]
pub fn complaint(alloc: Global, refusal: &Refusal) -> Result<String, AllocError>
    ensures about { IfOk result (λ text. IsAbout (option_map (λ p. p.now) refusal.now.about) (string_bytes text)) }
    ensures reason { IfOk result (λ text. IsComplaint (option_map (λ p. p.now) refusal.now.about) refusal.now.fault
        refusal.now.why (string_bytes text)) }
{
    let why = words_of(alloc, refusal)?;
    match refusal.about {
        Some(about) => about_line(alloc, about, why.as_str()),
        None => plain_line(alloc, why.as_str()),
    }
}

fn words_of(alloc: Global, refusal: &Refusal) -> Result<String, AllocError>
    ensures { IfOk result (λ text. IsReason refusal.now.fault refusal.now.why (string_bytes text)) }
{
    match &refusal.why {
        Why::Named => named(alloc, refusal.fault),
        Why::Known(words) => String::from_str(alloc, words),
        Why::Made(words) => String::from_str(alloc, words.as_str()),
        Why::Word(word) => with_word(alloc, refusal.fault, word.as_str()),
        Why::Line(line) => with_line(alloc, refusal.fault, line.as_str()),
    }
}

/// The limit that a line passes, if it is refused for one, with a colon before it.
fn limit_told(alloc: Global, limit: Option<ScenarioLimit>) -> Result<String, AllocError>
    ensures { IfOk result (λ text. string_bytes text ≡ limit_told limit) }
{
    match limit {
        Some(limit) => format!(in alloc; ": {limit}"),
        None => Ok(String::new(alloc)),
    }
}

fn limit_passed(alloc: Global, fault: Fault) -> Result<String, AllocError>
    ensures { IfOk result (λ text. string_bytes text ≡ limit_passed fault) }
{
    match fault {
        Fault::Text(fault) => limit_told(alloc, fault.limit),
        _ => Ok(String::new(alloc)),
    }
}

fn word_then(alloc: Global, fault: Fault, word: &str, limit: &str) -> Result<String, AllocError>
    ensures { IfOk result (λ text. string_bytes text ≡ word_then fault word.now limit.now) }
{
    format!(in alloc; "{fault} \"{word}\"{limit}")
}

fn with_word(alloc: Global, fault: Fault, word: &str) -> Result<String, AllocError>
    ensures { IfOk result (λ text. string_bytes text ≡ with_word fault word.now) }
{
    let limit = limit_passed(alloc, fault)?;
    word_then(alloc, fault, word, limit.as_str())
}

fn line_then(alloc: Global, fault: Fault, line: &str, limit: &str) -> Result<String, AllocError>
    ensures { IfOk result (λ text. string_bytes text ≡ line_then fault line.now limit.now) }
{
    format!(in alloc; "{fault} in \"{line}\"{limit}")
}

fn with_line(alloc: Global, fault: Fault, line: &str) -> Result<String, AllocError>
    ensures { IfOk result (λ text. string_bytes text ≡ with_line fault line.now) }
{
    let limit = limit_passed(alloc, fault)?;
    line_then(alloc, fault, line, limit.as_str())
}

/// The fault of a line that is not shown, and the limit that it passes.
fn unshown(alloc: Global, fault: Fault, limit: &str) -> Result<String, AllocError>
    ensures { IfOk result (λ text. string_bytes text ≡ fault_name fault ++ limit.now) }
{
    format!(in alloc; "{fault}{limit}")
}

fn named(alloc: Global, fault: Fault) -> Result<String, AllocError>
    ensures { IfOk result (λ text. IsNamed fault (string_bytes text)) }
{
    match fault {
        Fault::Text(text) => {
            let limit = limit_told(alloc, text.limit)?;
            unshown(alloc, fault, limit.as_str())
        }
        Fault::Memory => String::from_str(alloc, "out of memory"),
        Fault::Workers => String::from_str(alloc, "the number of workers is not from 1 to 64"),
        Fault::Batch => String::from_str(alloc, "the batch is not from 1 to 64"),
        Fault::Spent => String::from_str(alloc, "no ticket is left"),
        Fault::NoDevice => String::from_str(alloc, "the scenario has no device of this number"),
        Fault::PastEnd => String::from_str(alloc, "the trace has no entry of this number"),
        Fault::Range => String::from_str(alloc, "`--to` is below `--from`"),
        Fault::TooLong => String::from_str(alloc, "a datagram is too long for a packet"),
        Fault::Bind => String::from_str(alloc, "cannot bind the port"),
        Fault::NoSuchCase => String::from_str(alloc, "no title begins with these words"),
        Fault::NoDatagram => String::from_str(alloc, "it denotes no datagram"),
        Fault::Session(ScenarioFault::Limit) => {
            String::from_str(alloc, "the session has more steps than a scenario may have")
        }
        _ => format!(in alloc; "{fault}"),
    }
}

fn about_line(alloc: Global, about: &str, why: &str) -> Result<String, AllocError>
    ensures { IfOk result (λ text. string_bytes text ≡ about_line about.now why.now) }
{
    format!(in alloc; "lwbench: {about}: {why}\n")
}

fn plain_line(alloc: Global, why: &str) -> Result<String, AllocError>
    ensures { IfOk result (λ text. string_bytes text ≡ plain_line why.now) }
{
    format!(in alloc; "lwbench: {why}\n")
}
