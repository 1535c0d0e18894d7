//! Which word of a refused line is to blame.
ghost use Rattle.std.specs.Prelude.{◌≡◌, ◌↔◌, ℕ, List, Option, Some, IfOk, IsTrue, MatchOption, option_map};
ghost use Rattle.std.specs.String.{string_bytes};
ghost use Rattle.scenario_words.specs.Words.{words};
ghost use Rattle.scenario_words.specs.declared.cause.Cause.{Cause};
ghost use Rattle.command_texts.specs.Blamed.{AreRefusedFor, HaveNoWrongWord, IsBlamed, IsRefusedText};
ghost use Rattle.command_texts.specs.Blamed.{IsSaidOfLine, IsSaidOfWord, IsShown, IsWrongWord, line_at, statement_cause};

use command_files::{Fault, Refusal, Why};
use scenario_asm::TextFault;
use scenario_statements::read_statement;
use scenario_words::{Cause, next_line, next_word};
use std::alloc::{AllocError, Global};
use std::str;

/// The longest word or line that is shown, in bytes.
const MOST_SHOWN: usize = 200;

/// What reads the words of a line.
pub trait LineReader {
    /// Why words are refused; none where they are not.
    ghost causes: { List (List ℕ) → Option Cause };

    /// Why the words of this line are refused; none where they are not.
    fn cause_of(&self, alloc: Global, line: &[u8]) -> Result<Option<Cause>, AllocError>
        ensures { IfOk result (λ cause. cause ≡ causes (words line.now)) };
}

/// Lines of scenario text.
struct Statements;

impl LineReader for Statements {
    ghost causes = { statement_cause };

    fn cause_of(&self, alloc: Global, line: &[u8]) -> Result<Option<Cause>, AllocError> {
        statement_cause(alloc, line)
    }
}

/// Why the words of a line of scenario text are refused; none where they are not.
pub fn statement_cause(alloc: Global, line: &[u8]) -> Result<Option<Cause>, AllocError>
    ensures { IfOk result (λ cause. cause ≡ statement_cause (words line.now)) }
{
    match read_statement(alloc, line) {
        Ok(_) => Ok(None),
        Err(Cause::Memory) => Err(AllocError),
        Err(cause) => Ok(Some(cause)),
    }
}

/// The refusal for this fault of the text of a scenario in the file at this path, with what is to blame.
pub(crate) fn refuse_text<'a>(
    alloc: Global,
    path: &'a str,
    text: &str,
    fault: TextFault,
) -> Refusal<'a>
    ensures blamed { IsRefusedText statement_cause text.now fault result.fault result.why }
    ensures names_path { option_map (λ p. p.now) result.about ≡ Some path.entry.now }
{
    refuse_by(alloc, Some(path), text, fault, &Statements)
}

/// The refusal for this fault of a text whose lines have this reader, with what is to blame.
#[tactic(auto, using(crate::proofs::Denoted::refused_so, crate::proofs::Denoted::no_memory))]
pub fn refuse_by<'a, L: LineReader>(
    alloc: Global,
    about: Option<&'a str>,
    text: &str,
    fault: TextFault,
    reader: &L,
) -> Refusal<'a>
    ensures blamed { IsRefusedText L.causes text.now fault result.fault result.why }
    ensures about { option_map (λ p. p.now) result.about ≡ option_map (λ p. p.now) about.entry }
{
    if fault.cause != Cause::Memory {
        if let Ok(why) = blame(alloc, text, fault, reader) {
            return Refusal {
                fault: Fault::Text(fault),
                about,
                why,
            };
        }
    }
    Refusal {
        fault: Fault::Memory,
        about,
        why: Why::Named,
    }
}

/// The word or the line of a text that is to blame for this fault, where its lines have this reader.
#[tactic(auto, using(crate::proofs::Searching::word_blamed, crate::proofs::Searching::line_blamed))]
fn blame<L: LineReader>(
    alloc: Global,
    text: &str,
    fault: TextFault,
    reader: &L,
) -> Result<Why, AllocError>
    ensures { IfOk result (IsBlamed L.causes text.now fault) }
{
    let line = line_at(text.as_bytes(), fault.line);
    match wrong_word(alloc, line, fault.cause, reader)? {
        Some(word) => said_word(alloc, word),
        None => said_line(alloc, line),
    }
}

/// The line of that number, counted from 1.
#[tactic(auto, using(crate::proofs::Numbered::next_is, crate::proofs::Numbered::none_behind, crate::proofs::Numbered::first_is))]
fn line_at(text: &[u8], number: usize) -> &[u8]
    ensures { result.now ≡ line_at text.now number }
{
    let mut left = text;
    let mut count = number;
    while count > 1 {
        match next_line(left) {
            (_, Some(behind)) => left = behind,
            (_, None) => return &[],
        }
        count -= 1;
    }
    next_line(left).0
}

/// The first word up to which the line is refused for this cause; none where what stands before the line is to blame.
#[tactic(auto, using(crate::proofs::Searching::none_yet, crate::proofs::Searching::wrong_here, crate::proofs::Searching::one_more, crate::proofs::Searching::all_searched))]
fn wrong_word<'a, L: LineReader>(
    alloc: Global,
    line: &'a [u8],
    cause: Cause,
    reader: &L,
) -> Result<Option<&'a [u8]>, AllocError>
    ensures { IfOk result (λ found. MatchOption found
        (HaveNoWrongWord L.causes cause (words line.entry.now))
        (λ word. IsWrongWord L.causes cause (words line.entry.now) word.now)) }
{
    let mut so_far = Vec::new(alloc);
    let mut left = line;
    while let Some((word, behind)) = next_word(left) {
        so_far.extend_from_slice(word)?;
        if is_refused(alloc, so_far.as_slice(), cause, reader)? {
            return Ok(Some(word));
        }
        so_far.push(b' ')?;
        left = behind;
    }
    Ok(None)
}

/// Whether the words are refused for this cause. A line that is cut short may always lack a word.
#[tactic(auto, using(crate::proofs::Searching::refused_so, crate::proofs::Searching::refused_is, crate::proofs::Searching::refused_more))]
fn is_refused<L: LineReader>(
    alloc: Global,
    line: &[u8],
    cause: Cause,
    reader: &L,
) -> Result<bool, AllocError>
    ensures { IfOk result (λ b. IsTrue b ↔ AreRefusedFor L.causes cause (words line.now)) }
{
    match reader.cause_of(alloc, line)? {
        None => Ok(false),
        Some(found) => Ok(found == cause && cause != Cause::Missing),
    }
}

/// The text of bytes, where they are shown.
fn shown(alloc: Global, bytes: &[u8]) -> Result<Option<String>, AllocError>
    ensures { IfOk result (λ text. MatchOption text (IsShown bytes.now → ⊥)
        (λ t. (string_bytes t ≡ bytes.now) × IsShown bytes.now)) }
{
    match str::from_utf8(bytes) {
        Ok(text) if !text.is_empty() && text.len() <= MOST_SHOWN => {
            Ok(Some(String::from_str(alloc, text)?))
        }
        _ => Ok(None),
    }
}

/// What is said of a word that is to blame.
fn said_word(alloc: Global, word: &[u8]) -> Result<Why, AllocError>
    ensures { IfOk result (IsSaidOfWord word.now) }
{
    match shown(alloc, word)? {
        Some(text) => Ok(Why::Word(text)),
        None => Ok(Why::Named),
    }
}

/// What is said of a line that is to blame.
fn said_line(alloc: Global, line: &[u8]) -> Result<Why, AllocError>
    ensures { IfOk result (IsSaidOfLine line.now) }
{
    match shown(alloc, line)? {
        Some(text) => Ok(Why::Line(text)),
        None => Ok(Why::Named),
    }
}
