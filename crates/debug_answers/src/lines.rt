//! The lines that are answered.
ghost use Rattle.std.specs.Prelude.{◌≡◌, IfOk};
ghost use Rattle.std.specs.String.{string_bytes};
ghost use Rattle.debug_answers.specs.Lines.{at_line, at_word, break_at_line, break_line, break_text, cleared_line};
ghost use Rattle.debug_answers.specs.Lines.{end_line, stop_line};
ghost use Rattle.scenario_words.specs.Words.{ended_line};

use debugger::Stop;
use std::alloc::{AllocError, Global};

/// `at N`.
pub fn at_line(alloc: Global, place: usize) -> Result<String, AllocError>
    ensures { IfOk result (λ text. string_bytes text ≡ at_line place) }
{
    format!(in alloc; "at {place}\n")
}

/// `break ID`.
pub fn break_line(alloc: Global, id: u8) -> Result<String, AllocError>
    ensures { IfOk result (λ text. string_bytes text ≡ break_line id) }
{
    format!(in alloc; "break {id}\n")
}

/// `cleared ID`.
pub fn cleared_line(alloc: Global, id: u8) -> Result<String, AllocError>
    ensures { IfOk result (λ text. string_bytes text ≡ cleared_line id) }
{
    format!(in alloc; "cleared {id}\n")
}

/// A place, after ` at `.
fn at_word(alloc: Global, place: usize) -> Result<String, AllocError>
    ensures { IfOk result (λ text. string_bytes text ≡ at_word place) }
{
    format!(in alloc; " at {place}")
}

fn break_text(alloc: Global, id: u8, place: &str) -> Result<String, AllocError>
    ensures { IfOk result (λ text. string_bytes text ≡ break_text id place.now) }
{
    format!(in alloc; "break {id}{place}\n")
}

/// `break ID at N`.
fn break_at_line(alloc: Global, id: u8, place: usize) -> Result<String, AllocError>
    ensures { IfOk result (λ text. string_bytes text ≡ break_at_line id place) }
{
    let word = at_word(alloc, place)?;
    break_text(alloc, id, word.as_str())
}

/// `end at N`.
fn end_line(alloc: Global, place: usize) -> Result<String, AllocError>
    ensures { IfOk result (λ text. string_bytes text ≡ end_line place) }
{
    format!(in alloc; "end at {place}\n")
}

/// `break ID at N` or `end at N`.
pub fn stop_line(alloc: Global, stop: Stop, place: usize) -> Result<String, AllocError>
    ensures { IfOk result (λ text. string_bytes text ≡ stop_line stop place) }
{
    match stop {
        Stop::Break(id) => break_at_line(alloc, id, place),
        Stop::End => end_line(alloc, place),
    }
}

/// A line of these words.
pub fn fixed_line(alloc: Global, words: &str) -> Result<String, AllocError>
    ensures { IfOk result (λ text. string_bytes text ≡ ended_line words.now) }
{
    format!(in alloc; "{words}\n")
}
