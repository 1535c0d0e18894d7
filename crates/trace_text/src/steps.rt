//! Steps in words, and what arrives in them.

ghost use Rattle.std.specs.Prelude.{◌≡◌, ◌++◌, Some, IfOk, OnOk};
ghost use Rattle.std.specs.Option.{option_copied};
ghost use Rattle.std.specs.String.{string_bytes};
ghost use Rattle.scenario_words.specs.Words.{ended_line};
ghost use Rattle.scenario_mnemonics.specs.Denoting.{mnemonic_of};
ghost use Rattle.scenario_statements.specs.Spelling.{line_of};
ghost use Rattle.scenario_asm.specs.Canonical.{of_datagram, of_step};
ghost use Rattle.trace_text.specs.Datagrams.{arrival_text, statement_text};
ghost use Rattle.trace_text.specs.Lines.{arrival_lines, step_words};

use crate::lines::{put_hidden, put_line, put_said};
use device_machine::Event;
use scenario_image::Step;
use scenario_mnemonics::{Mnemonic, mnemonic_for, spell};
use scenario_statements::{Statement, line_of, recv_line, value_line};
use std::alloc::{AllocError, Global};

/// The words of a datagram that comes from a server: those of this mnemonic, if there is one, else its bytes.
fn words_by(
    alloc: Global,
    mnemonic: Option<&Mnemonic>,
    server: u16,
    bytes: &[u8],
) -> Result<String, AllocError>
    ensures { IfOk result (λ t. string_bytes t
        ≡ line_of (of_datagram server bytes.now (option_copied mnemonic.entry))) }
{
    match mnemonic {
        Some(mnemonic) => spell(alloc, server, mnemonic),
        None => recv_line(alloc, server, bytes),
    }
}

/// Writes the line of a datagram that comes from a server, by this mnemonic, if there is one.
fn put_words(
    alloc: Global,
    out: &mut String,
    mnemonic: Option<&Mnemonic>,
    server: u16,
    bytes: &[u8],
) -> Result<(), AllocError>
    ensures { OnOk result (string_bytes out.new ≡ string_bytes out.old
        ++ ended_line (line_of (of_datagram server bytes.now (option_copied mnemonic.entry)))) }
{
    let words = words_by(alloc, mnemonic, server, bytes)?;
    put_line(out, words.as_str())
}

/// Writes a datagram whose bytes its reader has: the mnemonic that denotes it, else its bytes, and what it says.
pub(crate) fn put_stated(
    alloc: Global,
    out: &mut String,
    server: u16,
    bytes: &[u8],
) -> Result<(), AllocError>
    ensures { OnOk result (string_bytes out.new ≡ string_bytes out.old ++ statement_text server bytes.now) }
{
    let mnemonic = mnemonic_for(alloc, bytes)?;
    put_words(alloc, out, mnemonic.as_ref(), server, bytes)?;
    put_said(alloc, out, bytes)
}

/// Writes a datagram that comes from a server: the mnemonic that denotes it and its bytes, else these alone, and what
/// it says.
pub(crate) fn put_received(
    alloc: Global,
    out: &mut String,
    server: u16,
    bytes: &[u8],
) -> Result<(), AllocError>
    ensures { OnOk result (string_bytes out.new ≡ string_bytes out.old ++ arrival_text server bytes.now) }
{
    let mnemonic = mnemonic_for(alloc, bytes)?;
    put_words(alloc, out, mnemonic.as_ref(), server, bytes)?;
    put_hidden(alloc, out, mnemonic.as_ref(), bytes)?;
    put_said(alloc, out, bytes)
}

/// Writes the line of a statement, which is not needed any more.
fn put_statement(alloc: Global, out: &mut String, statement: Statement) -> Result<(), AllocError>
    ensures { OnOk result (string_bytes out.new ≡ string_bytes out.old ++ ended_line (line_of statement)) }
{
    let words = line_of(alloc, &statement)?;
    put_line(out, words.as_str())
}

fn put_known_step(alloc: Global, out: &mut String, step: &Step) -> Result<(), AllocError>
    ensures { OnOk result (string_bytes out.new ≡ string_bytes out.old
        ++ (ended_line (line_of (of_step step.now)) ++ arrival_lines (Some step.now))) }
{
    match step {
        Step::Event(Event::Recv { server, bytes }) => {
            put_received(alloc, out, *server, bytes.as_slice())
        }
        Step::Event(Event::Put { path, value }) => {
            let words = value_line(alloc, "put", *path, value)?;
            put_line(out, words.as_str())
        }
        Step::Event(Event::Firmware(code)) => {
            put_statement(alloc, out, Statement::Firmware(*code))
        }
        Step::Event(Event::Tick(seconds)) => put_statement(alloc, out, Statement::Tick(*seconds)),
        Step::Post(group) => put_statement(alloc, out, Statement::Post(*group)),
        Step::Need(group, count) => {
            let statement = Statement::Need {
                group: *group,
                count: *count,
            };
            put_statement(alloc, out, statement)
        }
    }
}

/// Writes the words of a step, as a canonical scenario text has them, or that there is no such step; and the lines of
/// what arrives in it.
pub(crate) fn put_step(
    alloc: Global,
    out: &mut String,
    step: Option<&Step>,
) -> Result<(), AllocError>
    ensures { OnOk result (string_bytes out.new ≡ string_bytes out.old
        ++ (ended_line (step_words (option_copied step.entry)) ++ arrival_lines (option_copied step.entry))) }
{
    match step {
        None => put_line(out, "no such step"),
        Some(step) => put_known_step(alloc, out, step),
    }
}
