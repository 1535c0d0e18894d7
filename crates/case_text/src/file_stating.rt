//! What a line states of a file, and of a recorded trace: a reader for the words after each first word.

ghost use Rattle.std.specs.Prelude.{◌≡◌, IfOk};
ghost use Rattle.scenario_words.specs.Words.{words};
ghost use Rattle.scenario_words.specs.Reading.{Gives};
ghost use Rattle.case_text.specs.FileStating.{fault_words, file_fault_by, file_stated_by, file_stated_of, not_a_run};
ghost use Rattle.case_text.specs.FileStating.{ok_at, ok_by, ok_scenario, recorded_fault, recorded_stated_by};
ghost use Rattle.case_text.specs.FileStating.{recorded_stated_of, phrase};

use crate::bytes_words::digits_of_line;
use crate::file_stated::FileStated;
use crate::marks::checked;
use crate::stated::{EndStated, Stated, VerdictStated};
use crate::stating::{after_name, fault, only_name, only_number, stalled};
use lwm2m_values::Text;
use scenario_words::{Cause, end, first_word, is_name, name_fault, natural, next_word};
use std::alloc::{AllocError, Global};

/// A word, and each word of a line with a space before it.
fn put_words(alloc: Global, word: &[u8], line: &[u8]) -> Result<Vec<u8>, AllocError>
    ensures { IfOk result (λ v. v.items ≡ phrase word.now (words line.now)) }
{
    let mut all = Vec::new(alloc);
    all.extend_from_slice(word)?;
    let mut rest = line;
    while let Some((next, behind)) = next_word(rest) {
        all.push(b' ')?;
        all.extend_from_slice(next)?;
        rest = behind;
    }
    Ok(all)
}

fn fault_words(alloc: Global, line: &[u8]) -> Result<Text, Cause>
    ensures { Gives (λ t. t) result (fault_words (words line.now)) }
{
    let (word, line) = first_word(line)?;
    let all = put_words(alloc, word, line)?;
    match checked(all.as_slice()) {
        Some(text) => Ok(Text::from_str(alloc, text)?),
        None => Err(Cause::Token),
    }
}

/// `D devices S steps` behind a number of classes.
fn ok_scenario(alloc: Global, classes: u64, line: &[u8]) -> Result<FileStated, Cause>
    ensures { Gives (λ s. s) result (ok_scenario classes (words line.now)) }
{
    let (devices, line) = natural(line, 0, u64::MAX)?;
    let line = after_name(alloc, "devices", line)?;
    let (steps, line) = natural(line, 0, u64::MAX)?;
    only_name(alloc, "steps", line)?;
    Ok(FileStated::Ok {
        classes,
        devices,
        steps,
    })
}

fn ok_by(alloc: Global, number: u64, word: &[u8], line: &[u8]) -> Result<FileStated, Cause>
    ensures { Gives (λ s. s) result (ok_by number word.now (words line.now)) }
{
    if is_name(word, "classes") {
        ok_scenario(alloc, number, line)
    } else if is_name(word, "entries") {
        end(line)?;
        Ok(FileStated::OkEntries(number))
    } else {
        Err(name_fault(alloc, word))
    }
}

fn ok_at(alloc: Global, line: &[u8]) -> Result<FileStated, Cause>
    ensures { Gives (λ s. s) result (ok_at (words line.now)) }
{
    let (number, line) = natural(line, 0, u64::MAX)?;
    let (word, line) = first_word(line)?;
    ok_by(alloc, number, word, line)
}

/// What a fault of these words is.
fn file_fault_by(words: Text) -> FileStated
    ensures { result ≡ file_fault_by words }
{
    if is_name(words.as_str().as_bytes(), "or ok") {
        FileStated::FaultOrOk
    } else {
        FileStated::Fault(words)
    }
}

/// What is stated of a file, by its first word and the line after it.
fn file_stated_by(alloc: Global, word: &[u8], line: &[u8]) -> Result<FileStated, Cause>
    ensures { Gives (λ s. s) result (file_stated_by word.now (words line.now)) }
{
    if is_name(word, "ok") {
        ok_at(alloc, line)
    } else if is_name(word, "fault") {
        let words = fault_words(alloc, line)?;
        Ok(file_fault_by(words))
    } else if is_name(word, "image") {
        let digits = digits_of_line(alloc, line)?;
        Ok(FileStated::Image(digits))
    } else if is_name(word, "trace") {
        let digits = digits_of_line(alloc, line)?;
        Ok(FileStated::Trace(digits))
    } else if is_name(word, "text") {
        end(line)?;
        Ok(FileStated::Text)
    } else if is_name(word, "entries") {
        end(line)?;
        Ok(FileStated::Entries)
    } else {
        Err(name_fault(alloc, word))
    }
}

/// What a line states of a file, by the line after its `=>`. Faults are those of `read_stated`.
pub(crate) fn read_file_stated(alloc: Global, line: &[u8]) -> Result<FileStated, Cause>
    ensures { Gives (λ s. s) result (file_stated_of (words line.now)) }
{
    let (word, line) = first_word(line)?;
    file_stated_by(alloc, word, line)
}

/// `a run at N` behind `not`.
fn not_a_run(alloc: Global, line: &[u8]) -> Result<Stated, Cause>
    ensures { Gives (λ s. s) result (not_a_run (words line.now)) }
{
    let line = after_name(alloc, "a", line)?;
    let line = after_name(alloc, "run", line)?;
    let line = after_name(alloc, "at", line)?;
    let entry = only_number(line, 0, u64::MAX)?;
    Ok(Stated::Verdict(VerdictStated::NotARun(entry)))
}

/// A fault of the text, whose words begin with `line`, or of the trace file.
fn recorded_fault(alloc: Global, line: &[u8]) -> Result<Stated, Cause>
    ensures { Gives (λ s. s) result (recorded_fault (words line.now)) }
{
    let (word, _) = first_word(line)?;
    if is_name(word, "line") {
        return fault(alloc, line);
    }
    let words = fault_words(alloc, line)?;
    Ok(Stated::Verdict(VerdictStated::Fault(words)))
}

/// What is stated of a recorded trace, by its first word and the line after it.
fn recorded_stated_by(alloc: Global, word: &[u8], line: &[u8]) -> Result<Stated, Cause>
    ensures { Gives (λ s. s) result (recorded_stated_by word.now (words line.now)) }
{
    if is_name(word, "run") {
        end(line)?;
        Ok(Stated::Verdict(VerdictStated::Run))
    } else if is_name(word, "not") {
        not_a_run(alloc, line)
    } else if is_name(word, "fault") {
        recorded_fault(alloc, line)
    } else if is_name(word, "done") {
        let steps = only_number(line, 0, u64::MAX)?;
        Ok(Stated::End(EndStated::Done(steps)))
    } else if is_name(word, "stalled") {
        stalled(alloc, line)
    } else {
        Err(name_fault(alloc, word))
    }
}

/// What a line states of the recorded trace above it, by the line after its `=>`. Faults are those of `read_stated`.
pub(crate) fn read_recorded_stated(alloc: Global, line: &[u8]) -> Result<Stated, Cause>
    ensures { Gives (λ s. s) result (recorded_stated_of (words line.now)) }
{
    let (word, line) = first_word(line)?;
    recorded_stated_by(alloc, word, line)
}
