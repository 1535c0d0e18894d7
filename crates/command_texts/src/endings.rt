//! What is said of a run at its end.
ghost use Rattle.std.specs.Prelude.{◌≡◌, IfOk};
ghost use Rattle.std.specs.String.{string_bytes};
ghost use Rattle.command_texts.specs.Endings.{device_word, device_words, done_line, end_line, stalled_line};
ghost use Rattle.command_texts.specs.Endings.{stalled_text};

use std::alloc::{AllocError, Global};

/// The line of a run of `count` entries, after which the devices in `waiting` are not at the end of their rows.
pub fn end_line(alloc: Global, count: usize, waiting: &[u16]) -> Result<String, AllocError>
    ensures { IfOk result (λ text. string_bytes text ≡ end_line count waiting.now) }
{
    match waiting {
        [] => done_line(alloc, count),
        [_, ..] => stalled_line(alloc, count, waiting),
    }
}

fn done_line(alloc: Global, count: usize) -> Result<String, AllocError>
    ensures { IfOk result (λ text. string_bytes text ≡ done_line count) }
{
    format!(in alloc; "done {count}\n")
}

fn stalled_line(alloc: Global, count: usize, waiting: &[u16]) -> Result<String, AllocError>
    ensures { IfOk result (λ text. string_bytes text ≡ stalled_line count waiting.now) }
{
    let devices = device_words(alloc, waiting)?;
    stalled_text(alloc, count, devices.as_str())
}

fn stalled_text(alloc: Global, count: usize, devices: &str) -> Result<String, AllocError>
    ensures { IfOk result (λ text. string_bytes text ≡ stalled_text count devices.now) }
{
    format!(in alloc; "stalled {count} waiting{devices}\n")
}

fn device_words(alloc: Global, devices: &[u16]) -> Result<String, AllocError>
    ensures { IfOk result (λ text. string_bytes text ≡ device_words devices.now) }
{
    let mut text = String::new(alloc);
    for device in devices {
        let word = device_word(alloc, *device)?;
        text.push_str(word.as_str())?;
    }
    Ok(text)
}

fn device_word(alloc: Global, device: u16) -> Result<String, AllocError>
    ensures { IfOk result (λ text. string_bytes text ≡ device_word device) }
{
    format!(in alloc; " {device}")
}
