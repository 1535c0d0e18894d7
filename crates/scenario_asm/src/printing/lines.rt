//! Lines, written at the end of a text. Where memory runs out, part of a line may have been written.

ghost use Rattle.std.specs.Prelude.{◌≡◌, ◌++◌, OnOk};
ghost use Rattle.std.specs.String.{string_bytes};
ghost use Rattle.scenario_words.specs.Words.{ended_line};
ghost use Rattle.scenario_asm.specs.Canonical.{printed_line};

use scenario_statements::{Statement, line_of};
use std::alloc::{AllocError, Global};

/// Writes a line, and the LF that ends it.
pub(crate) fn put_line(out: &mut String, line: &str) -> Result<(), AllocError>
    ensures { OnOk result (string_bytes out.new ≡ string_bytes out.old ++ ended_line line.now) }
{
    out.push_str(line)?;
    out.push('\n')
}

/// Writes the line of a statement.
pub(crate) fn put_statement(
    alloc: Global,
    out: &mut String,
    statement: &Statement,
) -> Result<(), AllocError>
    ensures { OnOk result (string_bytes out.new ≡ string_bytes out.old ++ printed_line statement.now) }
{
    let line = line_of(alloc, statement)?;
    put_line(out, line.as_str())
}
