//! What a line is by what stands above it.

ghost use Rattle.std.specs.Prelude.{◌≡◌, ◌==◌};
ghost use Rattle.std.specs.List.{list_all};
ghost use Rattle.case_text.specs.AnyLine.{line_in, line_of, opening_of, scenario_line_of, title_of, worded_of};
ghost use Rattle.case_text.specs.Marks.{Finds};

use crate::above::{Above, Adding, CaseKind};
use crate::fault::Why;
use crate::file_case::FileKind;
use crate::file_reading::{file_line_of, given_of, more_of, text_file_of};
use crate::line::Line;
use crate::marks::{behind, headed, text_from};
use crate::reading::marked_of;
use scenario_words::{is_name, next_word};
use std::alloc::Global;

fn are_spaces(bytes: &[u8]) -> bool
    ensures { result ≡ list_all (λ b. b == 32) bytes.now }
{
    bytes.iter().all(|byte| *byte == b' ')
}

fn title_of(alloc: Global, title: &[u8]) -> Result<Line, Why>
    ensures { Finds (λ l. l) result (title_of title.now) }
{
    if are_spaces(title) {
        return Err(Why::NoTitle);
    }
    Ok(Line::Title(text_from(alloc, title)?))
}

/// The first line with words of a case, by its first word.
fn opening_of(alloc: Global, word: &[u8], line: &[u8]) -> Result<Line, Why>
    ensures { Finds (λ l. l) result (opening_of word.now line.now) }
{
    if let Some(bytes) = headed(word, line, "image") {
        return given_of(alloc, FileKind::Image, bytes);
    }
    if let Some(bytes) = headed(word, line, "trace") {
        return given_of(alloc, FileKind::Trace, bytes);
    }
    if let Some(words) = headed(word, line, "text") {
        return text_file_of(alloc, words);
    }
    if headed(word, line, "entries").is_some() {
        return Err(Why::NoSuchLine);
    }
    marked_of(alloc, CaseKind::Scenario, word, line)
}

/// A line of a case of a scenario, by its first word.
fn scenario_line_of(
    alloc: Global,
    kind: CaseKind,
    adding: Adding,
    word: &[u8],
    line: &[u8],
) -> Result<Line, Why>
    ensures { Finds (λ l. l) result (scenario_line_of kind adding word.now line.now) }
{
    match adding {
        Adding::Nothing => marked_of(alloc, kind, word, line),
        Adding::Bytes | Adding::Digits => match behind(line, "+ ") {
            Some(bytes) => more_of(alloc, adding, bytes),
            None => marked_of(alloc, kind, word, line),
        },
    }
}

/// A line with words that begins no case, by its first word.
fn line_in(
    alloc: Global,
    kind: CaseKind,
    adding: Adding,
    word: &[u8],
    line: &[u8],
) -> Result<Line, Why>
    ensures { Finds (λ l. l) result (line_in kind adding word.now line.now) }
{
    match kind {
        CaseKind::Open => opening_of(alloc, word, line),
        CaseKind::File(file) => file_line_of(alloc, file, adding, line),
        CaseKind::Scenario | CaseKind::Recorded => scenario_line_of(
            alloc, kind, adding, word, line,
        ),
    }
}

/// A line with words, by its first word.
fn worded_of(alloc: Global, above: Above, word: &[u8], line: &[u8]) -> Result<Line, Why>
    ensures { Finds (λ l. l) result (worded_of above word.now line.now) }
{
    if is_name(line, "case") {
        return Err(Why::NoTitle);
    }
    if let Some(title) = behind(line, "case ") {
        return title_of(alloc, title);
    }
    line_in(alloc, above.kind, above.adding, word, line)
}

/// What a line of a file of cases is, by what stands above it.
pub fn read_line(alloc: Global, above: Above, line: &[u8]) -> Result<Line, Why>
    ensures { Finds (λ l. l) result (line_of above line.now) }
{
    match next_word(line) {
        Some((word, _)) => worded_of(alloc, above, word, line),
        None => Ok(Line::Remark),
    }
}
