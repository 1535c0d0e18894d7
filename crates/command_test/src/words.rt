//! The words of answers that stand in one line.
ghost use Rattle.std.specs.Prelude.{◌≡◌, ◌++◌, codes, IfOk, OnOk};
ghost use Rattle.std.specs.Fmt.{decimal};
ghost use Rattle.std.specs.Option.{option_copied};
ghost use Rattle.std.specs.String.{string_bytes};
ghost use Rattle.scenario_words.specs.HexWord.{hex_word};
ghost use Rattle.case_play.specs.EntryWords.{output_words};
ghost use Rattle.command_test.specs.Came.{came_words, counts_words, device_words, number_or_none, run_words};
ghost use Rattle.command_test.specs.Came.{value_or_none};

use case_play::Came;
use device_machine::{Output, act_name};
use lwm2m_values::Value;
use scenario_words::{hex_word, spell};
use std::alloc::{AllocError, Global};

/// A word, and what follows it.
fn joined(alloc: Global, word: &str, rest: &str) -> Result<String, AllocError>
    ensures { IfOk result (λ text. string_bytes text ≡ word.now ++ codes " " ++ rest.now) }
{
    format!(in alloc; "{word} {rest}")
}

/// Words, and a number after them.
fn counted(alloc: Global, words: &str, number: u64) -> Result<String, AllocError>
    ensures { IfOk result (λ text. string_bytes text ≡ words.now ++ codes " " ++ decimal number) }
{
    format!(in alloc; "{words} {number}")
}

/// A word, and bytes in hex after it.
fn in_hex(alloc: Global, word: &str, bytes: &[u8]) -> Result<String, AllocError>
    ensures { IfOk result (λ text. string_bytes text ≡ word.now ++ codes " " ++ hex_word bytes.now) }
{
    let hex = hex_word(alloc, bytes)?;
    joined(alloc, word, hex.as_str())
}

fn sent_words(alloc: Global, server: u16, hex: &str) -> Result<String, AllocError>
    ensures { IfOk result (λ text. string_bytes text ≡ codes "send " ++ decimal server ++ codes " " ++ hex.now) }
{
    format!(in alloc; "send {server} {hex}")
}

/// The words of an output: a datagram by its server and its bytes in hex, or what is done.
pub(crate) fn output_words(alloc: Global, output: &Output) -> Result<String, AllocError>
    ensures { IfOk result (λ text. string_bytes text ≡ output_words output.now) }
{
    match output {
        Output::Send { server, bytes } => {
            let hex = hex_word(alloc, bytes.as_slice())?;
            sent_words(alloc, *server, hex.as_str())
        }
        Output::Act(act) => joined(alloc, "act", act_name(*act)),
    }
}

fn value_or_none(alloc: Global, value: Option<&Value>) -> Result<String, AllocError>
    ensures { IfOk result (λ text. string_bytes text ≡ value_or_none (option_copied value.entry)) }
{
    match value {
        None => String::from_str(alloc, "none"),
        Some(value) => spell(alloc, value),
    }
}

fn value_words(alloc: Global, value: Option<&Value>) -> Result<String, AllocError>
    ensures { IfOk result (λ text. string_bytes text ≡ codes "value " ++ value_or_none (option_copied value.entry)) }
{
    let spelling = value_or_none(alloc, value)?;
    joined(alloc, "value", spelling.as_str())
}

fn due_words(alloc: Global, second: Option<u64>) -> Result<String, AllocError>
    ensures { IfOk result (λ text. string_bytes text ≡ codes "due " ++ number_or_none second) }
{
    match second {
        None => String::from_str(alloc, "due none"),
        Some(second) => counted(alloc, "due", second),
    }
}

fn put_device(out: &mut String, device: u16) -> Result<(), AllocError>
    ensures { OnOk result (string_bytes out.new ≡ string_bytes out.old ++ (codes " " ++ decimal device)) }
{
    write!(out, " {device}")
}

/// Writes the numbers of devices, each after a space.
fn put_devices(out: &mut String, devices: &[u16]) -> Result<(), AllocError>
    ensures { OnOk result (string_bytes out.new ≡ string_bytes out.old ++ device_words devices.now) }
{
    for device in devices {
        put_device(out, *device)?;
    }
    Ok(())
}

fn stalled_words(alloc: Global, entries: u64, devices: &[u16]) -> Result<String, AllocError>
    ensures { IfOk result (λ text. string_bytes text
        ≡ codes "stalled " ++ decimal entries ++ codes " waiting" ++ device_words devices.now) }
{
    let mut out = counted(alloc, "stalled", entries)?;
    out.push_str(" waiting")?;
    put_devices(&mut out, devices)?;
    Ok(out)
}

fn run_words(alloc: Global, entries: u64, devices: &[u16]) -> Result<String, AllocError>
    ensures { IfOk result (λ text. string_bytes text ≡ run_words entries devices.now) }
{
    if devices.is_empty() {
        return counted(alloc, "done", entries);
    }
    stalled_words(alloc, entries, devices)
}

fn counts_words(alloc: Global, classes: u64, devices: u64, steps: u64) -> Result<String, AllocError>
    ensures { IfOk result (λ text. string_bytes text ≡ counts_words classes devices steps) }
{
    format!(in alloc; "ok {classes} classes {devices} devices {steps} steps")
}

fn entries_words(alloc: Global, count: u64) -> Result<String, AllocError>
    ensures { IfOk result (λ text. string_bytes text ≡ codes "ok " ++ decimal count ++ codes " entries") }
{
    format!(in alloc; "ok {count} entries")
}

/// The words of an answer that stands in one line; of others those of their first line.
pub(crate) fn came_words(alloc: Global, came: &Came) -> Result<String, AllocError>
    ensures { IfOk result (λ text. string_bytes text ≡ came_words came.now) }
{
    match came {
        Came::Nowhere => String::from_str(alloc, "nothing: this cannot be"),
        Came::Outputs(_) => String::from_str(alloc, "nothing"),
        Came::Value(value) => value_words(alloc, value.as_ref()),
        Came::Clock(second) => counted(alloc, "clock", *second),
        Came::Observations(count) => counted(alloc, "observations", *count),
        Came::Due(second) => due_words(alloc, *second),
        Came::Run { entries, waiting } => run_words(alloc, *entries, waiting.as_slice()),
        Came::Image(bytes) => in_hex(alloc, "image", bytes.as_slice()),
        Came::Trace(bytes) => in_hex(alloc, "trace", bytes.as_slice()),
        Came::TooLarge => String::from_str(alloc, "fault too large"),
        Came::Text(_) => String::from_str(alloc, "text"),
        Came::IsRun => String::from_str(alloc, "run"),
        Came::NotARun(entry) => counted(alloc, "not a run at", *entry),
        Came::Fault(words) => joined(alloc, "fault", words.as_str()),
        Came::Ok {
            classes,
            devices,
            steps,
        } => counts_words(alloc, *classes, *devices, *steps),
        Came::OkEntries(count) => entries_words(alloc, *count),
        Came::Entries(_) => String::from_str(alloc, "entries"),
    }
}
