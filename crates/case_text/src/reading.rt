//! What a line of a case of a scenario is.

ghost use Rattle.std.specs.Prelude.{◌≡◌, ◌++◌, ◌∷◌, [], false, None, IfOk};
ghost use Rattle.std.specs.List.{repeat};
ghost use Rattle.std.specs.String.{string_bytes};
ghost use Rattle.scenario_words.specs.Words.{parts, words};
ghost use Rattle.scenario_words.specs.Reading.{Gives};
ghost use Rattle.scenario_statements.specs.declared.statement.Statement.TheVariants as says;
ghost use Rattle.scenario_statements.specs.Acks.{ack_datagram};
ghost use Rattle.scenario_statements.specs.Grammar.{statement_of};
ghost use Rattle.scenario_statements.specs.Spelling.{line_of};
ghost use Rattle.case_text.specs.Lines.{ack_event, answer_of, aside_of, asking_of, beside, counted_of, event_by};
ghost use Rattle.case_text.specs.Lines.{event_of};
ghost use Rattle.case_text.specs.Lines.{event_or, is_marked, line_in_text, marked_of, part_by, part_of};
ghost use Rattle.case_text.specs.Lines.{question_line_of};
ghost use Rattle.case_text.specs.Lines.{recorded_of, stated_in, text_line_of, text_of, text_part, unmarked_of};
ghost use Rattle.case_text.specs.Marks.{Finds};

use crate::above::CaseKind;
use crate::asking::read_question;
use crate::bytes_words::bytes_of;
use crate::expanding::expanded;
use crate::fault::Why;
use crate::file_stating::read_recorded_stated;
use crate::item::Part;
use crate::line::Line;
use crate::marks::{begins, behind, checked, headed, text_from, unless_memory};
use crate::pieces::times_of;
use crate::stated::{Stated, WrittenStated};
use crate::stating::read_stated;
use device_machine::Event;
use lwm2m_values::Text;
use scenario_mnemonics::{Mnemonic, encode};
use scenario_statements::{Ack, Statement, ack_bytes, read_statement, recv_line, said_ack};
use scenario_words::{Cause, cut, is_name};
use std::alloc::{AllocError, Global};

/// What a line states in a case of this kind, by the line behind its `=>`.
fn stated_in(alloc: Global, kind: CaseKind, line: &[u8]) -> Result<Stated, Cause>
    ensures { Gives (λ s. s) result (stated_in kind (words line.now)) }
{
    match kind {
        CaseKind::Recorded => read_recorded_stated(alloc, line),
        CaseKind::Open | CaseKind::Scenario | CaseKind::File(_) => read_stated(alloc, line),
    }
}

fn answer_of(alloc: Global, kind: CaseKind, must_not: bool, line: &[u8]) -> Result<Line, Why>
    ensures { Finds (λ l. l) result (answer_of kind must_not line.now) }
{
    match stated_in(alloc, kind, line) {
        Ok(stated) => Ok(Line::Answer { must_not, stated }),
        Err(cause) => Err(unless_memory(cause, Why::NotAnAnswer(cause))),
    }
}

fn text_line_of(alloc: Global, line: &[u8]) -> Result<Line, Why>
    ensures { Finds (λ l. l) result (text_line_of line.now) }
{
    let text = text_from(alloc, line)?;
    Ok(Line::Answer {
        must_not: false,
        stated: Stated::Written(WrittenStated::TextLine(text)),
    })
}

/// A line that adds only an empty line to the scenario's text.
fn beside(alloc: Global, part: Part) -> Result<Line, AllocError>
    ensures { IfOk result (λ l. l ≡ beside part) }
{
    let text = Text::from_str(alloc, "\n")?;
    Ok(Line::Part {
        part,
        text,
        lines: 1,
    })
}

fn question_line_of(alloc: Global, line: &[u8]) -> Result<Line, Why>
    ensures { Finds (λ l. l) result (question_line_of line.now) }
{
    match read_question(alloc, line) {
        Ok((must_not, question)) => Ok(beside(alloc, Part::Ask { must_not, question })?),
        Err(cause) => Err(unless_memory(cause, Why::NotAQuestion(cause))),
    }
}

/// The event that a mnemonic's datagram is.
fn request_event(alloc: Global, server: u16, mnemonic: &Mnemonic) -> Result<Event, Cause>
    ensures { Gives (λ e. e) result (event_by (says.Request server mnemonic.now)) }
{
    if !mnemonic.fits() {
        return Err(Cause::Range);
    }
    let bytes = encode(alloc, mnemonic)?;
    Ok(Event::Recv { server, bytes })
}

/// The event that a statement is.
fn event_by(alloc: Global, statement: Statement) -> Result<Event, Cause>
    ensures { Gives (λ e. e) result (event_by statement) }
{
    match statement {
        Statement::Recv { server, bytes } => Ok(Event::Recv { server, bytes }),
        Statement::Request { server, mnemonic } => request_event(alloc, server, &mnemonic),
        Statement::Tick(seconds) => Ok(Event::Tick(seconds)),
        Statement::Put { path, value } => Ok(Event::Put { path, value }),
        Statement::Firmware(code) => Ok(Event::Firmware(code)),
        _ => Err(Cause::UnknownWord),
    }
}

/// The Empty ACK that arrives.
fn ack_event(alloc: Global, ack: Ack) -> Result<Event, AllocError>
    ensures { IfOk result (λ e. e ≡ ack_event ack) }
{
    let bytes = ack_bytes(alloc, ack.mid)?;
    Ok(Event::Recv {
        server: ack.server,
        bytes,
    })
}

/// The event of the statement of a line.
fn stated_event(alloc: Global, line: &[u8]) -> Result<Event, Cause>
    ensures { Gives (λ e. e) result (event_or line.now None) }
{
    match read_statement(alloc, line)? {
        Some(statement) => event_by(alloc, statement),
        None => Err(Cause::Missing),
    }
}

/// The event that a line says: a statement, or `ack S MID`.
fn event_of(alloc: Global, line: &[u8]) -> Result<Event, Cause>
    ensures { Gives (λ e. e) result (event_of line.now) }
{
    match said_ack(line) {
        Some(ack) => Ok(ack_event(alloc, ack)?),
        None => stated_event(alloc, line),
    }
}

fn aside_of(alloc: Global, line: &[u8]) -> Result<Line, Why>
    ensures { Finds (λ l. l) result (aside_of line.now) }
{
    let line = expanded(alloc, line)?;
    match event_of(alloc, line.as_slice()) {
        Ok(event) => Ok(beside(alloc, Part::Aside(event))?),
        Err(cause) => Err(unless_memory(cause, Why::NotAnEvent(cause))),
    }
}

/// What a line of the scenario's text is by its statement, where it stands `times` times.
fn part_by(times: u32, statement: &Statement) -> Part
    ensures { result ≡ part_by times statement.now }
{
    match statement {
        Statement::Scenario
        | Statement::Class
        | Statement::Notify(_)
        | Statement::Account(_)
        | Statement::Object(_)
        | Statement::Def(_)
        | Statement::Instance(_)
        | Statement::Value { .. } => Part::Line,
        Statement::Device(_) => Part::Device { times },
        _ => Part::Step { times },
    }
}

fn part_of(alloc: Global, times: u32, line: &[u8]) -> Result<Part, AllocError>
    ensures { IfOk result (λ p. p ≡ part_of times (statement_of (words line.now))) }
{
    match read_statement(alloc, line) {
        Ok(Some(statement)) => Ok(part_by(times, &statement)),
        Ok(None) => Ok(Part::Line),
        Err(Cause::Memory) => Err(AllocError),
        Err(_) => Ok(Part::Line),
    }
}

/// A line with the LF that ends it, repeated.
fn ended_lines(alloc: Global, line: &str, times: u32) -> Result<Text, AllocError>
    ensures { IfOk result (λ t. t ≡ repeat times (line.now ++ 10 ∷ [])) }
{
    let mut ended = String::from_str(alloc, line)?;
    ended.push('\n')?;
    let all = ended.as_str().repeat(alloc, times as usize)?;
    Ok(Text::from_string(all))
}

/// The Empty ACK as scenario text has it.
fn ack_line(alloc: Global, ack: Ack) -> Result<String, AllocError>
    ensures { IfOk result (λ s. string_bytes s ≡ line_of (says.Recv ack.server (ack_datagram ack.mid))) }
{
    let bytes = ack_bytes(alloc, ack.mid)?;
    recv_line(alloc, ack.server, bytes.as_slice())
}

/// A line as scenario text has it: `ack S MID` is a `recv` there.
fn line_in_text(alloc: Global, line: &str) -> Result<String, AllocError>
    ensures { IfOk result (λ s. string_bytes s ≡ line_in_text line.now) }
{
    match said_ack(line.as_bytes()) {
        Some(ack) => ack_line(alloc, ack),
        None => String::from_str(alloc, line),
    }
}

/// The part and the text of a line of the scenario's text that stands `times` times.
fn text_part(alloc: Global, times: u32, line: &str) -> Result<Line, AllocError>
    ensures { IfOk result (λ l. l ≡ text_part times line.now) }
{
    let part = part_of(alloc, times, line.as_bytes())?;
    let text = ended_lines(alloc, line, times)?;
    Ok(Line::Part {
        part,
        text,
        lines: times,
    })
}

/// A line of the scenario's text that stands `times` times.
fn text_of(alloc: Global, times: u32, line: &[u8]) -> Result<Line, Why>
    ensures { Finds (λ l. l) result (text_of times line.now) }
{
    let Some(text) = checked(line) else {
        return Err(Why::NotText);
    };
    let text = line_in_text(alloc, text)?;
    Ok(text_part(alloc, times, text.as_str())?)
}

/// `N LINE`.
#[tactic(auto, using(crate::proofs::Counted::counted_behind))]
fn counted_of(alloc: Global, line: &[u8]) -> Result<Line, Why>
    ensures { Finds (λ l. l) result (counted_of (parts 32 line.now)) }
{
    let (count, behind) = cut(line, b' ');
    let Some(line) = behind else {
        return Err(Why::NotACount);
    };
    let Ok(times) = times_of(count) else {
        return Err(Why::NotACount);
    };
    let line = expanded(alloc, line)?;
    text_of(alloc, times, line.as_slice())
}

/// The trace file of a recorded run.
fn recorded_of(alloc: Global, line: &[u8]) -> Result<Line, Why>
    ensures { Finds (λ l. l) result (recorded_of line.now) }
{
    match bytes_of(alloc, line) {
        Ok(bytes) => Ok(beside(alloc, Part::Recorded(bytes))?),
        Err(cause) => Err(unless_memory(cause, Why::NotBytes(cause))),
    }
}

/// Whether a line begins as no line of a text does.
fn is_marked(line: &[u8]) -> bool
    ensures { result ≡ is_marked line.now }
{
    begins(line, "=") || begins(line, "?") || begins(line, "!") || begins(line, "<=")
}

/// A line without a mark, by its first word.
fn unmarked_of(alloc: Global, word: &[u8], line: &[u8]) -> Result<Line, Why>
    ensures { Finds (λ l. l) result (unmarked_of word.now line.now) }
{
    if is_marked(line) {
        return Err(Why::NoSuchLine);
    }
    if let Some(bytes) = headed(word, line, "trace") {
        return recorded_of(alloc, bytes);
    }
    text_of(alloc, 1, line)
}

/// Any other line with words.
fn asking_of(alloc: Global, word: &[u8], line: &[u8]) -> Result<Line, Why>
    ensures { Finds (λ l. l) result (asking_of word.now line.now) }
{
    if let Some(question) = behind(line, "? ") {
        return question_line_of(alloc, question);
    }
    if let Some(event) = behind(line, "! ") {
        return aside_of(alloc, event);
    }
    if let Some(counted) = behind(line, "*") {
        return counted_of(alloc, counted);
    }
    unmarked_of(alloc, word, line)
}

/// A line with words that begins no case, by its first word, in a case of this kind.
pub(crate) fn marked_of(
    alloc: Global,
    kind: CaseKind,
    word: &[u8],
    line: &[u8],
) -> Result<Line, Why>
    ensures { Finds (λ l. l) result (marked_of kind word.now line.now) }
{
    if let Some(answer) = behind(line, "=> ") {
        return answer_of(alloc, kind, false, answer);
    }
    if let Some(answer) = behind(line, "=/> ") {
        return answer_of(alloc, kind, true, answer);
    }
    if is_name(line, "=|") {
        return text_line_of(alloc, &[]);
    }
    if let Some(text) = behind(line, "=| ") {
        return text_line_of(alloc, text);
    }
    asking_of(alloc, word, line)
}
