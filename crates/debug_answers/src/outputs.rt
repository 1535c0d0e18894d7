//! The lines of what a device outputs.
ghost use Rattle.std.specs.Prelude.{◌≡◌, IfOk};
ghost use Rattle.std.specs.String.{string_bytes};
ghost use Rattle.debug_answers.specs.Outputs.{act_line, output_line, output_lines, send_line};

use device_machine::{Output, act_name};
use std::alloc::{AllocError, Global};

/// The outputs, a line for each, or the line `nothing`.
pub fn outputs_text(alloc: Global, outputs: &[Output]) -> Result<String, AllocError>
    ensures { IfOk result (λ text. string_bytes text ≡ output_lines outputs.now) }
{
    if outputs.is_empty() {
        return String::from_str(alloc, "nothing\n");
    }
    let mut text = String::new(alloc);
    for output in outputs {
        let line = output_line(alloc, output)?;
        text.push_str(line.as_str())?;
    }
    Ok(text)
}

fn output_line(alloc: Global, output: &Output) -> Result<String, AllocError>
    ensures { IfOk result (λ text. string_bytes text ≡ output_line output.now) }
{
    match output {
        Output::Send { server, bytes } => {
            let hex = hex::encode_upper(alloc, bytes.as_slice())?;
            send_line(alloc, *server, hex.as_str())
        }
        Output::Act(act) => act_line(alloc, act_name(*act)),
    }
}

fn send_line(alloc: Global, server: u16, hex: &str) -> Result<String, AllocError>
    ensures { IfOk result (λ text. string_bytes text ≡ send_line server hex.now) }
{
    format!(in alloc; "send {server} {hex}\n")
}

fn act_line(alloc: Global, name: &str) -> Result<String, AllocError>
    ensures { IfOk result (λ text. string_bytes text ≡ act_line name.now) }
{
    format!(in alloc; "act {name}\n")
}
