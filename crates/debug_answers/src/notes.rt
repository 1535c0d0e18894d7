//! What a person gets on standard error beside the answer `bad command`.
ghost use Rattle.std.specs.Prelude.{◌≡◌, ◌++◌, IfOk, OnOk, take};
ghost use Rattle.std.specs.String.{string_bytes};
ghost use Rattle.scenario_words.specs.Quoted.{escaped_byte, quoted_word};
ghost use Rattle.debug_answers.specs.Notes.{cut_mark, most_shown_bytes, no_command, no_command_line};

use scenario_words::{hex_word, is_plain};
use std::alloc::{AllocError, Global};

/// The most bytes of a line that are shown.
const MOST_SHOWN: usize = 200;

/// The line for a person that says that another one is neither `help` nor a command, and shows it.
pub fn no_command(alloc: Global, line: &[u8]) -> Result<String, AllocError>
    ensures { IfOk result (λ text. string_bytes text ≡ no_command line.now) }
{
    let shown = in_quotes(alloc, first_bytes(line))?;
    no_command_line(alloc, shown.as_str(), cut_mark(line))
}

fn no_command_line(alloc: Global, shown: &str, mark: &str) -> Result<String, AllocError>
    ensures { IfOk result (λ text. string_bytes text ≡ no_command_line shown.now mark.now) }
{
    format!(in alloc; "lwbench: standard input: not a command: {shown}{mark}\n")
}

/// The bytes of a line that are shown.
#[tactic(auto, using(crate::proofs::CutLines::all_shown))]
fn first_bytes(line: &[u8]) -> &[u8]
    ensures { result.now ≡ take most_shown_bytes line.now }
{
    if line.len() <= MOST_SHOWN {
        return line;
    }
    &line[..MOST_SHOWN]
}

/// What follows these bytes: a mark if there are more.
fn cut_mark(line: &[u8]) -> &'static str
    ensures { result.now ≡ cut_mark line.now }
{
    if line.len() <= MOST_SHOWN {
        ""
    } else {
        " and more"
    }
}

/// Bytes in quotes, as scenario text has them.
fn in_quotes(alloc: Global, bytes: &[u8]) -> Result<String, AllocError>
    ensures { IfOk result (λ text. string_bytes text ≡ quoted_word bytes.now) }
{
    let mut text = String::from_str(alloc, "\"")?;
    for byte in bytes {
        push_escaped(alloc, &mut text, *byte)?;
    }
    text.push('"')?;
    Ok(text)
}

fn push_escaped(alloc: Global, text: &mut String, byte: u8) -> Result<(), AllocError>
    ensures { OnOk result (string_bytes text.new ≡ string_bytes text.old ++ escaped_byte byte) }
{
    if is_plain(byte) {
        return text.push(char::from(byte));
    }
    let digits = hex_word(alloc, &[byte])?;
    text.push('\\')?;
    text.push_str(digits.as_str())
}
