//! What a line of a case of a file is.

ghost use Rattle.std.specs.Prelude.{◌≡◌, ◌++◌, ◌∷◌, [], IfOk};
ghost use Rattle.scenario_words.specs.Words.{words};
ghost use Rattle.scenario_words.specs.Reading.{Gives};
ghost use Rattle.case_text.specs.FileLines.{adding_of, and_of, each_of, file_answer_of, file_line_of};
ghost use Rattle.case_text.specs.FileLines.{file_text_line_of};
ghost use Rattle.case_text.specs.FileLines.{given_of, making_of, makes, more_of, text_file_of, text_more_of, with_of};
ghost use Rattle.case_text.specs.Marks.{Finds, line_or_refusal, of_text, text_from};
ghost use Rattle.case_text.specs.declared.fault.Why.TheVariants as why;
ghost use Rattle.case_text.specs.declared.line.Line.TheVariants as is;
ghost use Rattle.case_text.specs.BytesWords.{all_digits, bytes_of};
ghost use Rattle.case_text.specs.declared.trial.Made.TheVariants as file_made;

use crate::above::Adding;
use crate::bytes_words::{bytes_at, bytes_of, digits_of_line};
use crate::fault::Why;
use crate::file_case::FileKind;
use crate::file_stated::FileStated;
use crate::file_stating::read_file_stated;
use crate::line::{FileLine, Line};
use crate::marks::{behind, checked, text_from, unless_memory};
use crate::stating::{after_name, only_number};
use crate::trial::Made;
use octets::Bytes;
use scenario_words::{Cause, is_name, next_word};
use std::alloc::{AllocError, Global};

/// `image BYTES`, `trace BYTES`, by what stands behind the name.
pub(crate) fn given_of(alloc: Global, kind: FileKind, line: &[u8]) -> Result<Line, Why>
    ensures { Finds (λ l. l) result (given_of kind line.now) }
{
    match bytes_of(alloc, line) {
        Ok(bytes) => Ok(Line::File(FileLine::Gives { kind, bytes })),
        Err(cause) => Err(unless_memory(cause, Why::NotBytes(cause))),
    }
}

/// `text`, by what stands behind it.
pub(crate) fn text_file_of(alloc: Global, line: &[u8]) -> Result<Line, Why>
    ensures { result ≡ text_file_of (words line.now) }
{
    if next_word(line).is_some() {
        return Err(Why::NoSuchLine);
    }
    Ok(Line::File(FileLine::Gives {
        kind: FileKind::Text,
        bytes: Bytes::new(alloc),
    }))
}

fn with_of(alloc: Global, line: &[u8]) -> Result<Made, Cause>
    ensures { Gives (λ m. m) result (with_of (words line.now)) }
{
    let (bytes, line) = bytes_at(alloc, line)?;
    let line = after_name(alloc, "at", line)?;
    let place = only_number(line, 0, u64::MAX)?;
    Ok(Made::With { bytes, place })
}

fn with_line_of(alloc: Global, line: &[u8]) -> Result<Line, Why>
    ensures { Finds (λ l. l) result (line_or_refusal why.NotBytes makes (with_of (words line.now))) }
{
    match with_of(alloc, line) {
        Ok(other) => Ok(Line::File(FileLine::Makes(other))),
        Err(cause) => Err(unless_memory(cause, Why::NotBytes(cause))),
    }
}

fn and_line_of(alloc: Global, line: &[u8]) -> Result<Line, Why>
    ensures { Finds (λ l. l) result (of_text (λ t. makes (file_made.And t)) (text_from line.now)) }
{
    let Some(text) = checked(line) else {
        return Err(Why::NotText);
    };
    let bytes = Bytes::from_slice(alloc, text.as_bytes())?;
    Ok(Line::File(FileLine::Makes(Made::And(bytes))))
}

fn and_bytes_of(alloc: Global, line: &[u8]) -> Result<Line, Why>
    ensures { Finds (λ l. l) result (line_or_refusal why.NotBytes (λ b. makes (file_made.And b))
        (bytes_of (words line.now))) }
{
    match bytes_of(alloc, line) {
        Ok(bytes) => Ok(Line::File(FileLine::Makes(Made::And(bytes)))),
        Err(cause) => Err(unless_memory(cause, Why::NotBytes(cause))),
    }
}

fn and_of(alloc: Global, kind: FileKind, line: &[u8]) -> Result<Line, Why>
    ensures { Finds (λ l. l) result (and_of kind line.now) }
{
    match kind {
        FileKind::Text => and_line_of(alloc, line),
        FileKind::Image | FileKind::Trace => and_bytes_of(alloc, line),
    }
}

fn each_of(line: &[u8]) -> Result<Line, Why>
    ensures { result ≡ each_of (words line.now) }
{
    let Some((word, behind)) = next_word(line) else {
        return Err(Why::NoSuchLine);
    };
    if next_word(behind).is_some() {
        return Err(Why::NoSuchLine);
    }
    if is_name(word, "front") {
        Ok(Line::File(FileLine::Makes(Made::EachFront)))
    } else if is_name(word, "change") {
        Ok(Line::File(FileLine::Makes(Made::EachChange)))
    } else {
        Err(Why::NoSuchLine)
    }
}

fn making_of(alloc: Global, kind: FileKind, line: &[u8]) -> Result<Line, Why>
    ensures { Finds (λ l. l) result (making_of kind line.now) }
{
    if let Some(words) = behind(line, "with ") {
        return with_line_of(alloc, words);
    }
    if let Some(words) = behind(line, "and ") {
        return and_of(alloc, kind, words);
    }
    if let Some(words) = behind(line, "each ") {
        return each_of(words);
    }
    Err(Why::NoSuchLine)
}

fn more_bytes_of(alloc: Global, line: &[u8]) -> Result<Line, Why>
    ensures { Finds (λ l. l) result (line_or_refusal why.NotBytes is.More (bytes_of (words line.now))) }
{
    match bytes_of(alloc, line) {
        Ok(bytes) => Ok(Line::More(bytes)),
        Err(cause) => Err(unless_memory(cause, Why::NotBytes(cause))),
    }
}

fn more_digits_of(alloc: Global, line: &[u8]) -> Result<Line, Why>
    ensures { Finds (λ l. l) result (line_or_refusal why.NotBytes is.MoreDigits (all_digits (words line.now))) }
{
    match digits_of_line(alloc, line) {
        Ok(digits) => Ok(Line::MoreDigits(digits)),
        Err(cause) => Err(unless_memory(cause, Why::NotBytes(cause))),
    }
}

/// `+ BYTES`, by what stands behind the `+`.
pub(crate) fn more_of(alloc: Global, adding: Adding, line: &[u8]) -> Result<Line, Why>
    ensures { Finds (λ l. l) result (more_of adding line.now) }
{
    match adding {
        Adding::Nothing => Err(Why::AddsToNothing),
        Adding::Bytes => more_bytes_of(alloc, line),
        Adding::Digits => more_digits_of(alloc, line),
    }
}

/// The bytes of a line with the LF that ends it.
fn ended_bytes(alloc: Global, line: &[u8]) -> Result<Bytes, AllocError>
    ensures { IfOk result (λ b. b ≡ line.now ++ 10 ∷ []) }
{
    let mut ended = Vec::new(alloc);
    ended.extend_from_slice(line)?;
    ended.push(b'\n')?;
    Ok(Bytes::from_vec(ended))
}

fn more_text_of(alloc: Global, line: &[u8]) -> Result<Line, Why>
    ensures { Finds (λ l. l) result (of_text (λ t. is.More (t ++ 10 ∷ [])) (text_from line.now)) }
{
    let Some(text) = checked(line) else {
        return Err(Why::NotText);
    };
    Ok(Line::More(ended_bytes(alloc, text.as_bytes())?))
}

fn text_more_of(alloc: Global, kind: FileKind, adding: Adding, line: &[u8]) -> Result<Line, Why>
    ensures { Finds (λ l. l) result (text_more_of kind adding line.now) }
{
    match (kind, adding) {
        (FileKind::Text, Adding::Bytes) => more_text_of(alloc, line),
        (FileKind::Text, Adding::Nothing | Adding::Digits) => Err(Why::AddsToNothing),
        (FileKind::Image | FileKind::Trace, _) => Err(Why::NoSuchLine),
    }
}

fn adding_of(alloc: Global, kind: FileKind, adding: Adding, line: &[u8]) -> Result<Line, Why>
    ensures { Finds (λ l. l) result (adding_of kind adding line.now) }
{
    if let Some(words) = behind(line, "+ ") {
        return more_of(alloc, adding, words);
    }
    if is_name(line, "|") {
        return text_more_of(alloc, kind, adding, &[]);
    }
    if let Some(text) = behind(line, "| ") {
        return text_more_of(alloc, kind, adding, text);
    }
    making_of(alloc, kind, line)
}

fn file_answer_of(alloc: Global, must_not: bool, line: &[u8]) -> Result<Line, Why>
    ensures { Finds (λ l. l) result (file_answer_of must_not line.now) }
{
    match read_file_stated(alloc, line) {
        Ok(stated) => Ok(Line::File(FileLine::Answer { must_not, stated })),
        Err(cause) => Err(unless_memory(cause, Why::NotAnAnswer(cause))),
    }
}

fn file_text_line_of(alloc: Global, line: &[u8]) -> Result<Line, Why>
    ensures { Finds (λ l. l) result (file_text_line_of line.now) }
{
    let text = text_from(alloc, line)?;
    Ok(Line::File(FileLine::Answer {
        must_not: false,
        stated: FileStated::TextLine(text),
    }))
}

/// A line with words that begins no case, in a case of a file of this kind.
pub(crate) fn file_line_of(
    alloc: Global,
    kind: FileKind,
    adding: Adding,
    line: &[u8],
) -> Result<Line, Why>
    ensures { Finds (λ l. l) result (file_line_of kind adding line.now) }
{
    if let Some(answer) = behind(line, "=> ") {
        return file_answer_of(alloc, false, answer);
    }
    if let Some(answer) = behind(line, "=/> ") {
        return file_answer_of(alloc, true, answer);
    }
    if is_name(line, "=|") {
        return file_text_line_of(alloc, &[]);
    }
    if let Some(text) = behind(line, "=| ") {
        return file_text_line_of(alloc, text);
    }
    adding_of(alloc, kind, adding, line)
}
