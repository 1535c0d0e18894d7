//! What a line asks a device: a reader for the words after each first word.

ghost use Rattle.std.specs.Prelude.{◌≡◌};
ghost use Rattle.scenario_words.specs.Words.{words};
ghost use Rattle.scenario_words.specs.Reading.{Gives, Reads, word_by};
ghost use Rattle.case_text.specs.Asking.{arrow_of, due_asked, number_asked, only_value, question_by, question_of};
ghost use Rattle.case_text.specs.Asking.{second_or_none, value_asked, value_or_none};

use crate::question::Question;
use crate::stating::only_number;
use lwm2m_values::Value;
use scenario_words::{
    Cause, end, first_word, is_name, name_fault, natural, path, value as value_words,
};
use std::alloc::Global;

fn arrow_of(alloc: Global, word: &[u8]) -> Result<bool, Cause>
    ensures { Gives (λ b. b) result (arrow_of word.now) }
{
    if is_name(word, "=/>") {
        Ok(true)
    } else if is_name(word, "=>") {
        Ok(false)
    } else {
        Err(name_fault(alloc, word))
    }
}

/// Whether the answer that follows must not come, and the line after the arrow.
fn arrow(alloc: Global, line: &[u8]) -> Result<(bool, &[u8]), Cause>
    ensures { Gives (λ x. (x.0, words x.1.now)) result (word_by arrow_of (words line.now)) }
{
    let (word, line) = first_word(line)?;
    let must_not = arrow_of(alloc, word)?;
    Ok((must_not, line))
}

fn only_value(alloc: Global, line: &[u8]) -> Result<Value, Cause>
    ensures { Gives (λ v. v) result (only_value (words line.now)) }
{
    let (value, line) = value_words(alloc, line)?;
    end(line)?;
    Ok(value)
}

fn value_or_none(alloc: Global, line: &[u8]) -> Result<Option<Value>, Cause>
    ensures { Gives (λ v. v) result (value_or_none (words line.now)) }
{
    let (word, rest) = first_word(line)?;
    if is_name(word, "none") {
        end(rest)?;
        return Ok(None);
    }
    Ok(Some(only_value(alloc, line)?))
}

fn second_or_none(line: &[u8]) -> Result<Option<u64>, Cause>
    ensures { Reads (λ n. n) result (second_or_none (words line.now)) }
{
    let (word, rest) = first_word(line)?;
    if is_name(word, "none") {
        end(rest)?;
        return Ok(None);
    }
    Ok(Some(only_number(line, 0, u64::MAX)?))
}

fn value_asked(alloc: Global, line: &[u8]) -> Result<(bool, Question), Cause>
    ensures { Gives (λ x. x) result (value_asked (words line.now)) }
{
    let (path, line) = path(line)?;
    let (must_not, line) = arrow(alloc, line)?;
    let value = value_or_none(alloc, line)?;
    Ok((must_not, Question::Value { path, value }))
}

fn number_asked(alloc: Global, line: &[u8]) -> Result<(bool, u64), Cause>
    ensures { Gives (λ x. x) result (number_asked (words line.now)) }
{
    let (must_not, line) = arrow(alloc, line)?;
    let number = only_number(line, 0, u64::MAX)?;
    Ok((must_not, number))
}

fn due_asked(alloc: Global, line: &[u8]) -> Result<(bool, Question), Cause>
    ensures { Gives (λ x. x) result (due_asked (words line.now)) }
{
    let (must_not, line) = arrow(alloc, line)?;
    let second = second_or_none(line)?;
    Ok((must_not, Question::Due(second)))
}

/// What is asked, by its first word and the line after it.
fn question_by(alloc: Global, word: &[u8], line: &[u8]) -> Result<(bool, Question), Cause>
    ensures { Gives (λ x. x) result (question_by word.now (words line.now)) }
{
    if is_name(word, "value") {
        value_asked(alloc, line)
    } else if is_name(word, "clock") {
        let (must_not, second) = number_asked(alloc, line)?;
        Ok((must_not, Question::Clock(second)))
    } else if is_name(word, "observations") {
        let (must_not, count) = number_asked(alloc, line)?;
        Ok((must_not, Question::Observations(count)))
    } else if is_name(word, "due") {
        due_asked(alloc, line)
    } else {
        Err(name_fault(alloc, word))
    }
}

/// What a line asks a device, by the line after its `?`, and whether the answer that it states must not come (`=/>`).
/// Faults are those of `read_stated`.
pub fn read_question(alloc: Global, line: &[u8]) -> Result<(bool, Question), Cause>
    ensures { Gives (λ x. x) result (question_of (words line.now)) }
{
    let (word, line) = first_word(line)?;
    question_by(alloc, word, line)
}
