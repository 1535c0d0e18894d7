//! What a line states: a reader for the words after each first word.

ghost use Rattle.std.specs.Prelude.{◌≡◌, ◌≤◌, IfOk};
ghost use Rattle.scenario_words.specs.Words.{words};
ghost use Rattle.scenario_words.specs.Reading.{Gives, Reads, word_by};
ghost use Rattle.scenario_statements.specs.Grammar.{check_of_name, only_number};
ghost use Rattle.case_text.specs.Stating.{act_at, act_by, cause_by, code, code_of, devices_of, fault, is_count, more};
ghost use Rattle.case_text.specs.Stating.{notification, only_digits, only_name, only_text, send, some_devices, stalled};
ghost use Rattle.case_text.specs.Stating.{stated_by, stated_of, text_or_none, whole_by};

use crate::digits::Digits;
use crate::numbers::DeviceNumbers;
use crate::pieces::read_digits;
use crate::stated::{EndStated, OutputStated, Stated, WrittenStated};
use device_machine::Act;
use lwm2m_values::Text;
use scenario_words::{Cause, end, first_word, is_name, name_fault, natural, next_word, quoted};
use std::alloc::Global;

/// One number, and no word after it.
pub(crate) fn only_number(line: &[u8], low: u64, high: u64) -> Result<u64, Cause>
    ensures read { Reads (λ n. n) result (only_number low high (words line.now)) }
    ensures range { IfOk result (λ n. n ≤ high) }
{
    let (number, line) = natural(line, low, high)?;
    end(line)?;
    Ok(number)
}

pub(crate) fn named(alloc: Global, name: &str, word: &[u8]) -> Result<(), Cause>
    ensures { Gives (λ u. u) result (check_of_name name.now word.now) }
{
    if is_name(word, name) {
        Ok(())
    } else {
        Err(name_fault(alloc, word))
    }
}

/// The line after its first word, which has to be this name.
pub(crate) fn after_name<'a>(alloc: Global, name: &str, line: &'a [u8]) -> Result<&'a [u8], Cause>
    ensures { Gives (λ rest. (tt, words rest.now)) result (word_by (check_of_name name.now) (words line.now)) }
{
    let (word, line) = first_word(line)?;
    named(alloc, name, word)?;
    Ok(line)
}

pub(crate) fn only_name(alloc: Global, name: &str, line: &[u8]) -> Result<(), Cause>
    ensures { Gives (λ u. u) result (only_name name.now (words line.now)) }
{
    let line = after_name(alloc, name, line)?;
    end(line)
}

fn only_digits(alloc: Global, line: &[u8]) -> Result<Digits, Cause>
    ensures { Gives (λ d. d) result (only_digits (words line.now)) }
{
    let (word, line) = first_word(line)?;
    let digits = read_digits(alloc, word)?;
    end(line)?;
    Ok(digits)
}

pub(crate) fn only_text(alloc: Global, line: &[u8]) -> Result<Text, Cause>
    ensures { Gives (λ t. t) result (only_text (words line.now)) }
{
    let (text, line) = quoted(alloc, line)?;
    end(line)?;
    Ok(text)
}

fn text_or_none(alloc: Global, line: &[u8]) -> Result<Option<Text>, Cause>
    ensures { Gives (λ t. t) result (text_or_none (words line.now)) }
{
    if next_word(line).is_none() {
        return Ok(None);
    }
    Ok(Some(only_text(alloc, line)?))
}

fn code_of(word: &[u8]) -> Result<u8, Cause>
    ensures { Reads (λ c. c) result (code_of word.now) }
{
    let [class, b'.', high, low] = word else {
        return Err(Cause::Token);
    };
    if !class.is_ascii_digit() || !high.is_ascii_digit() || !low.is_ascii_digit() {
        return Err(Cause::Token);
    }
    let class = *class - b'0';
    let detail = (*high - b'0') * 10 + (*low - b'0');
    if class < 8 && detail < 32 {
        Ok(class * 32 + detail)
    } else {
        Err(Cause::Range)
    }
}

fn send(alloc: Global, line: &[u8]) -> Result<Stated, Cause>
    ensures { Gives (λ s. s) result (send (words line.now)) }
{
    let (server, line) = natural(line, 1, 65534)?;
    let digits = only_digits(alloc, line)?;
    Ok(Stated::Output(OutputStated::Send {
        server: server as u16,
        digits,
    }))
}

fn code(alloc: Global, line: &[u8]) -> Result<Stated, Cause>
    ensures { Gives (λ s. s) result (code (words line.now)) }
{
    let (word, line) = first_word(line)?;
    let code = code_of(word)?;
    let text = text_or_none(alloc, line)?;
    Ok(Stated::Output(OutputStated::Code { code, text }))
}

fn notification(alloc: Global, line: &[u8]) -> Result<Stated, Cause>
    ensures { Gives (λ s. s) result (notification (words line.now)) }
{
    let (number, line) = natural(line, 0, 16_777_215)?;
    let text = only_text(alloc, line)?;
    Ok(Stated::Output(OutputStated::Notification {
        number: number as u32,
        text,
    }))
}

fn act_by(alloc: Global, word: &[u8], line: &[u8]) -> Result<Act, Cause>
    ensures { Gives (λ a. a) result (act_by word.now (words line.now)) }
{
    if is_name(word, "reboot") {
        end(line)?;
        Ok(Act::Reboot)
    } else if is_name(word, "factory") {
        only_name(alloc, "reset", line)?;
        Ok(Act::FactoryReset)
    } else if is_name(word, "reg") {
        only_name(alloc, "update", line)?;
        Ok(Act::RegUpdate)
    } else if is_name(word, "disable") {
        end(line)?;
        Ok(Act::Disable)
    } else if is_name(word, "missed") {
        end(line)?;
        Ok(Act::Missed)
    } else {
        Err(name_fault(alloc, word))
    }
}

fn act(alloc: Global, line: &[u8]) -> Result<Stated, Cause>
    ensures { Gives (λ s. s) result (act_at (words line.now)) }
{
    let (word, line) = first_word(line)?;
    let act = act_by(alloc, word, line)?;
    Ok(Stated::Output(OutputStated::Act(act)))
}

fn more(alloc: Global, line: &[u8]) -> Result<Stated, Cause>
    ensures { Gives (λ s. s) result (more (words line.now)) }
{
    let (count, line) = natural(line, 1, 100_000)?;
    only_name(alloc, "more", line)?;
    Ok(Stated::Output(OutputStated::More(count as u32)))
}

/// The numbers of devices that a line has.
fn devices_of(alloc: Global, line: &[u8]) -> Result<Vec<u16>, Cause>
    ensures { Gives (λ v. v.items) result (devices_of (words line.now)) }
{
    let mut devices = Vec::new(alloc);
    let mut rest = line;
    while next_word(rest).is_some() {
        let (device, behind) = natural(rest, 0, 65535)?;
        devices.push(device as u16)?;
        rest = behind;
    }
    Ok(devices)
}

fn some_devices(alloc: Global, line: &[u8]) -> Result<DeviceNumbers, Cause>
    ensures { Gives (λ d. d) result (some_devices (words line.now)) }
{
    first_word(line)?;
    Ok(DeviceNumbers::from_vec(devices_of(alloc, line)?))
}

pub(crate) fn stalled(alloc: Global, line: &[u8]) -> Result<Stated, Cause>
    ensures { Gives (λ s. s) result (stalled (words line.now)) }
{
    let (steps, line) = natural(line, 0, u64::MAX)?;
    let line = after_name(alloc, "waiting", line)?;
    let waiting = some_devices(alloc, line)?;
    Ok(Stated::End(EndStated::Stalled { steps, waiting }))
}

fn cause_by(alloc: Global, word: &[u8], line: &[u8]) -> Result<Cause, Cause>
    ensures { Gives (λ c. c) result (cause_by word.now (words line.now)) }
{
    if is_name(word, "missing") {
        end(line)?;
        Ok(Cause::Missing)
    } else if is_name(word, "token") {
        end(line)?;
        Ok(Cause::Token)
    } else if is_name(word, "unknown") {
        only_name(alloc, "word", line)?;
        Ok(Cause::UnknownWord)
    } else if is_name(word, "range") {
        end(line)?;
        Ok(Cause::Range)
    } else if is_name(word, "duplicate") {
        end(line)?;
        Ok(Cause::Duplicate)
    } else if is_name(word, "limit") {
        end(line)?;
        Ok(Cause::Limit)
    } else {
        Err(name_fault(alloc, word))
    }
}

pub(crate) fn fault(alloc: Global, line: &[u8]) -> Result<Stated, Cause>
    ensures { Gives (λ s. s) result (fault (words line.now)) }
{
    let line = after_name(alloc, "line", line)?;
    let (number, line) = natural(line, 1, u64::MAX)?;
    let (word, line) = first_word(line)?;
    let cause = cause_by(alloc, word, line)?;
    Ok(Stated::End(EndStated::Fault {
        line: number,
        cause,
    }))
}

/// What is stated of a scenario as a whole, by its first word and the line after it.
fn whole_by(alloc: Global, word: &[u8], line: &[u8]) -> Result<Stated, Cause>
    ensures { Gives (λ s. s) result (whole_by word.now (words line.now)) }
{
    if is_name(word, "done") {
        let steps = only_number(line, 0, u64::MAX)?;
        Ok(Stated::End(EndStated::Done(steps)))
    } else if is_name(word, "stalled") {
        stalled(alloc, line)
    } else if is_name(word, "image") {
        let digits = only_digits(alloc, line)?;
        Ok(Stated::Written(WrittenStated::Image(digits)))
    } else if is_name(word, "trace") {
        let digits = only_digits(alloc, line)?;
        Ok(Stated::Written(WrittenStated::Trace(digits)))
    } else if is_name(word, "text") {
        end(line)?;
        Ok(Stated::Written(WrittenStated::Text))
    } else if is_name(word, "fault") {
        fault(alloc, line)
    } else {
        Err(name_fault(alloc, word))
    }
}

/// What is stated, by its first word and the line after it.
fn stated_by(alloc: Global, word: &[u8], line: &[u8]) -> Result<Stated, Cause>
    ensures { Gives (λ s. s) result (stated_by word.now (words line.now)) }
{
    if is_name(word, "nothing") {
        end(line)?;
        Ok(Stated::Output(OutputStated::Nothing))
    } else if is_name(word, "send") {
        send(alloc, line)
    } else if is_name(word, "code") {
        code(alloc, line)
    } else if is_name(word, "notification") {
        notification(alloc, line)
    } else if is_name(word, "act") {
        act(alloc, line)
    } else {
        whole_by(alloc, word, line)
    }
}

/// Whether a word begins with a decimal digit.
fn is_count(word: &[u8]) -> bool
    ensures { result ≡ is_count word.now }
{
    match word {
        [] => false,
        [first, ..] => first.is_ascii_digit(),
    }
}

/// What a line states, by the line after its `=>`.
///
/// Words are read from the left, and each fault is the first: `Missing` (a word is absent), `Token` (a word of the
/// wrong form), `UnknownWord`, `Range` (a number outside its range), and after the last `Token` (a word too many).
pub fn read_stated(alloc: Global, line: &[u8]) -> Result<Stated, Cause>
    ensures { Gives (λ s. s) result (stated_of (words line.now)) }
{
    let (word, rest) = first_word(line)?;
    if is_count(word) {
        return more(alloc, line);
    }
    stated_by(alloc, word, rest)
}
