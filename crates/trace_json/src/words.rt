//! The words of steps, as the text of a trace has them.

ghost use Rattle.std.specs.Prelude.{◌≡◌, IfOk};
ghost use Rattle.std.specs.Option.{option_copied};
ghost use Rattle.std.specs.String.{string_bytes};
ghost use Rattle.scenario_mnemonics.specs.Denoting.{mnemonic_of};
ghost use Rattle.scenario_statements.specs.Spelling.{line_of};
ghost use Rattle.scenario_asm.specs.Canonical.{of_datagram, of_step};
ghost use Rattle.trace_text.specs.Lines.{step_words};

use device_machine::Event;
use scenario_image::Step;
use scenario_mnemonics::mnemonic_for;
use scenario_statements::{Statement, line_of, recv_line, value_line};
use std::alloc::{AllocError, Global};

/// The words of a statement, which is not needed any more.
fn statement_words(alloc: Global, statement: Statement) -> Result<String, AllocError>
    ensures { IfOk result (λ t. string_bytes t ≡ line_of statement) }
{
    line_of(alloc, &statement)
}

/// The words of a datagram that comes from a server: the mnemonic that denotes it, else its bytes.
fn datagram_words(alloc: Global, server: u16, bytes: &[u8]) -> Result<String, AllocError>
    ensures { IfOk result (λ t. string_bytes t ≡ line_of (of_datagram server bytes.now (mnemonic_of bytes.now))) }
{
    if let Some(mnemonic) = mnemonic_for(alloc, bytes)? {
        return statement_words(alloc, Statement::Request { server, mnemonic });
    }
    recv_line(alloc, server, bytes)
}

fn words_of(alloc: Global, step: &Step) -> Result<String, AllocError>
    ensures { IfOk result (λ t. string_bytes t ≡ line_of (of_step step.now)) }
{
    match step {
        Step::Event(Event::Recv { server, bytes }) => {
            datagram_words(alloc, *server, bytes.as_slice())
        }
        Step::Event(Event::Put { path, value }) => value_line(alloc, "put", *path, value),
        Step::Event(Event::Firmware(code)) => statement_words(alloc, Statement::Firmware(*code)),
        Step::Event(Event::Tick(seconds)) => statement_words(alloc, Statement::Tick(*seconds)),
        Step::Post(group) => statement_words(alloc, Statement::Post(*group)),
        Step::Need(group, count) => {
            let statement = Statement::Need {
                group: *group,
                count: *count,
            };
            statement_words(alloc, statement)
        }
    }
}

/// The words of a step, or that there is no such step.
pub(crate) fn step_words(alloc: Global, step: Option<&Step>) -> Result<String, AllocError>
    ensures { IfOk result (λ t. string_bytes t ≡ step_words (option_copied step.entry)) }
{
    match step {
        None => String::from_str(alloc, "no such step"),
        Some(step) => words_of(alloc, step),
    }
}
