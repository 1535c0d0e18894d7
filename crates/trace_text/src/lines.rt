//! The lines of an entry. Where memory runs out, some of them may have been written.

ghost use Rattle.std.specs.Prelude.{◌≡◌, ◌++◌, OnOk};
ghost use Rattle.std.specs.Fmt.{decimal};
ghost use Rattle.std.specs.Option.{option_copied};
ghost use Rattle.std.specs.String.{string_bytes};
ghost use Rattle.scenario_words.specs.Words.{ended_line};
ghost use Rattle.trace_text.specs.Lines.{all_output_lines, bytes_line, bytes_lines, entry_start, output_lines};
ghost use Rattle.trace_text.specs.Lines.{said_line, sent_line};

use device_machine::{Output, act_name};
use message_words::{put_datagram, put_decimal};
use scenario_mnemonics::Mnemonic;
use scenario_words::hex_word;
use std::alloc::{AllocError, Global};
use trace_file::Entry;

/// Writes a name and a number.
fn put_field(out: &mut String, name: &str, number: usize) -> Result<(), AllocError>
    ensures { OnOk result (string_bytes out.new ≡ string_bytes out.old ++ (name.now ++ decimal number)) }
{
    out.push_str(name)?;
    put_decimal(out, number)
}

/// Writes what stands before the words of a step in the line of an entry, of this number in its trace: with the second
/// of its device.
pub(crate) fn put_entry_start(
    out: &mut String,
    number: usize,
    entry: &Entry,
    second: u32,
) -> Result<(), AllocError>
    ensures { OnOk result (string_bytes out.new ≡ string_bytes out.old ++ entry_start number entry.now second) }
{
    put_decimal(out, number)?;
    put_field(out, " worker ", usize::from(entry.worker))?;
    put_field(out, " device ", usize::from(entry.device))?;
    put_field(out, " step ", entry.step as usize)?;
    put_field(out, " second ", second as usize)?;
    out.push_str(": ")
}

/// Writes words, and the end of their line.
pub(crate) fn put_line(out: &mut String, words: &str) -> Result<(), AllocError>
    ensures { OnOk result (string_bytes out.new ≡ string_bytes out.old ++ ended_line words.now) }
{
    out.push_str(words)?;
    out.push('\n')
}

/// Writes what a datagram says, in a line of its own.
pub(crate) fn put_said(alloc: Global, out: &mut String, bytes: &[u8]) -> Result<(), AllocError>
    ensures { OnOk result (string_bytes out.new ≡ string_bytes out.old ++ said_line bytes.now) }
{
    out.push_str("    # ")?;
    put_datagram(alloc, out, bytes)?;
    out.push('\n')
}

/// Writes the bytes of a datagram, in a line of its own.
fn put_bytes(alloc: Global, out: &mut String, bytes: &[u8]) -> Result<(), AllocError>
    ensures { OnOk result (string_bytes out.new ≡ string_bytes out.old ++ bytes_line bytes.now) }
{
    let hex = hex_word(alloc, bytes)?;
    out.push_str("    # ")?;
    put_line(out, hex.as_str())
}

/// Writes the bytes of a datagram that is written as a mnemonic.
pub(crate) fn put_hidden(
    alloc: Global,
    out: &mut String,
    mnemonic: Option<&Mnemonic>,
    bytes: &[u8],
) -> Result<(), AllocError>
    ensures { OnOk result (string_bytes out.new
        ≡ string_bytes out.old ++ bytes_lines (option_copied mnemonic.entry) bytes.now) }
{
    match mnemonic {
        Some(_) => put_bytes(alloc, out, bytes),
        None => Ok(()),
    }
}

/// Writes the line of a datagram that is sent to a server.
pub(crate) fn put_sent(
    alloc: Global,
    out: &mut String,
    server: u16,
    bytes: &[u8],
) -> Result<(), AllocError>
    ensures { OnOk result (string_bytes out.new ≡ string_bytes out.old ++ sent_line server bytes.now) }
{
    let word = hex_word(alloc, bytes)?;
    put_field(out, "=> send ", usize::from(server))?;
    out.push(' ')?;
    put_line(out, word.as_str())
}

/// Writes the lines of an output.
fn put_output(alloc: Global, out: &mut String, output: &Output) -> Result<(), AllocError>
    ensures { OnOk result (string_bytes out.new ≡ string_bytes out.old ++ output_lines output.now) }
{
    match output {
        Output::Send { server, bytes } => {
            put_sent(alloc, out, *server, bytes.as_slice())?;
            put_said(alloc, out, bytes.as_slice())
        }
        Output::Act(act) => {
            out.push_str("=> act ")?;
            put_line(out, act_name(*act))
        }
    }
}

/// Writes the lines of outputs, in their order.
pub fn put_outputs(alloc: Global, out: &mut String, outputs: &[Output]) -> Result<(), AllocError>
    ensures { OnOk result (string_bytes out.new ≡ string_bytes out.old ++ all_output_lines outputs.now) }
{
    for output in outputs {
        put_output(alloc, out, output)?;
    }
    Ok(())
}
