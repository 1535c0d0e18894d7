//! The lines of outputs, with what the first says and the line of a reason.

ghost use Rattle.std.specs.Prelude.{◌≡◌, ◌++◌, IfOk, OnOk};
ghost use Rattle.std.specs.List.{flat_map};
ghost use Rattle.std.specs.String.{string_bytes};
ghost use Rattle.debug_answers.specs.Outputs.{output_line};
ghost use Rattle.command_demo.specs.Why.{explained_lines, reply_line};

use debug_answers::outputs_text;
use device_machine::Output;
use message_words::datagram_text;
use std::alloc::{AllocError, Global};

/// Writes what a reply says.
fn put_reply(alloc: Global, out: &mut String, output: &Output) -> Result<(), AllocError>
    ensures { OnOk result (string_bytes out.new ≡ string_bytes out.old ++ reply_line output.now) }
{
    match output {
        Output::Send { bytes, .. } => {
            let words = datagram_text(alloc, bytes.as_slice())?;
            out.push_str("    # ")?;
            out.push_str(words.as_str())?;
            out.push('\n')
        }
        Output::Act(_) => Ok(()),
    }
}

/// Writes the lines of outputs, if there are some.
fn put_outputs(alloc: Global, out: &mut String, outputs: &[Output]) -> Result<(), AllocError>
    ensures { OnOk result (string_bytes out.new ≡ string_bytes out.old ++ flat_map output_line outputs.now) }
{
    if outputs.is_empty() {
        return Ok(());
    }
    let text = outputs_text(alloc, outputs)?;
    out.push_str(text.as_str())
}

/// The lines of outputs, with this line below the first of them and what that says, or below `nothing`.
pub(crate) fn explained_text(
    alloc: Global,
    outputs: &[Output],
    line: &str,
) -> Result<String, AllocError>
    ensures { IfOk result (λ text. string_bytes text ≡ explained_lines outputs.now line.now) }
{
    let [first, rest @ ..] = outputs else {
        let mut text = outputs_text(alloc, outputs)?;
        text.push_str(line)?;
        return Ok(text);
    };
    let (head, _) = outputs.split_at(1);
    let mut text = outputs_text(alloc, head)?;
    put_reply(alloc, &mut text, first)?;
    text.push_str(line)?;
    put_outputs(alloc, &mut text, rest)?;
    Ok(text)
}
