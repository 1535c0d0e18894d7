//! The datagram of a statement, in hex.
ghost use Rattle.std.specs.Prelude.{◌≡◌, IfErr, IfOk, map};
ghost use Rattle.std.specs.List.{join_with_byte};
ghost use Rattle.std.specs.String.{string_bytes};
ghost use Rattle.hex.specs.Hex.{IsBytes, encode_upper};
ghost use Rattle.scenario_words.specs.Words.{ended_line};
ghost use Rattle.command_texts.specs.Blamed.{IsRefusedText};
ghost use Rattle.command_words.specs.Spelling.{IsSpellDone, IsSpellFault, IsSpellWhy, passed_by, words_cause};

use crate::arrival::{arrival_of, words_cause};
use command_files::{Answer, Fault, Refusal, Status, Why};
use command_texts::{LineReader, refuse_by};
use scenario_asm::{ScenarioLimit, TextFault};
use scenario_words::Cause;
use std::alloc::{AllocError, Global};

/// What `spell` reads: a statement of scenario text, or `ack`.
struct Statements;

impl LineReader for Statements {
    ghost causes = { words_cause };

    fn cause_of(&self, alloc: Global, line: &[u8]) -> Result<Option<Cause>, AllocError> {
        words_cause(alloc, line)
    }
}

/// The words with a space between each two.
#[tactic(auto, using(crate::proofs::Joined::joined))]
fn joined(alloc: Global, given: &[&str]) -> Result<String, AllocError>
    ensures { IfOk result (λ t. string_bytes t ≡ join_with_byte 32 (map (λ w. w.now) given.now)) }
{
    given.join(alloc, " ")
}

/// The line of bytes in upper-case hex.
fn hex_line(alloc: Global, bytes: &[u8]) -> Result<String, AllocError>
    ensures line { IfOk result (λ t. string_bytes t ≡ ended_line (encode_upper bytes.now)) }
    ensures octets { IsBytes bytes.now }
{
    let mut text = hex::encode_upper(alloc, bytes)?;
    text.push('\n')?;
    Ok(text)
}

/// The limit that a statement passes which is refused for this cause: its datagram is too long.
fn passed_by(cause: Cause) -> Option<ScenarioLimit>
    ensures { result ≡ passed_by cause }
{
    match cause {
        Cause::Limit => Some(ScenarioLimit::Datagram),
        Cause::Missing
        | Cause::Token
        | Cause::UnknownWord
        | Cause::Range
        | Cause::Duplicate
        | Cause::Memory => None,
    }
}

/// The refusal of a line of words for this cause, as the first line of a text is refused.
fn refused<'a>(alloc: Global, line: &str, cause: Cause) -> Refusal<'a>
    ensures { IsRefusedText words_cause line.now (record { line = 1; cause = cause; limit = passed_by cause })
        result.fault result.why }
{
    let fault = TextFault {
        line: 1,
        cause,
        limit: passed_by(cause),
    };
    refuse_by(alloc, None, line, fault, &Statements)
}

#[tactic(auto, using(crate::proofs::Spelled::spelled, crate::proofs::Spelled::refused, crate::proofs::Spelled::no_memory, crate::proofs::Spelled::spelled_why, crate::proofs::Spelled::memory_why))]
/// `spell STATEMENT`: the datagram that a statement denotes, a mnemonic, `recv` or `ack`, in hex.
pub fn spell<'a>(alloc: Global, given: &[&'a str]) -> Result<Answer<'a>, Refusal<'a>>
    ensures done { IfOk result (IsSpellDone (map (λ w. w.now) given.now)) }
    ensures refused { IfErr result (λ r. IsSpellFault (map (λ w. w.now) given.now) r.fault) }
    ensures blamed { IfErr result (λ r. IsSpellWhy (map (λ w. w.now) given.now) r.fault r.why) }
{
    let line = joined(alloc, given)?;
    match arrival_of(alloc, line.as_bytes()) {
        Ok(Some(arrival)) => {
            let text = hex_line(alloc, arrival.bytes.as_slice())?;
            Ok(Answer::printed(Status::Done, text))
        }
        Ok(None) => Err(Refusal {
            fault: Fault::NoDatagram,
            about: given.first().copied(),
            why: Why::Named,
        }),
        Err(cause) => Err(refused(alloc, line.as_str(), cause)),
    }
}
