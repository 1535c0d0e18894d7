//! A trace as JSON Lines.

ghost use Rattle.std.specs.Prelude.{◌≡◌, ◌++◌, ◌∷◌, [], IfErr, IfOk, OnOk};
ghost use Rattle.std.specs.Str.{IsUtf8};
ghost use Rattle.std.specs.String.{string_bytes};
ghost use Rattle.std.specs.List.{AllByRecursion};
ghost use Rattle.trace_text.specs.Selection.{IsSelectable, IsSelectionFault};
ghost use Rattle.trace_json.specs.Entries.{selected_json, trace_json};
ghost use Rattle.trace_json.specs.Lines.{AreLinesOf, json_lines};
ghost use Rattle.trace_json.specs.Writing.{IsReadAgain};

use crate::lines::{JsonLines, put_head_line, text_of};
use scenario_image::Scenario;
use std::alloc::{AllocError, Global};
use trace_file::Entry;
use trace_text::{Selection, SelectionFault};

/// Writes the line of an entry, of this number in its trace, if it is asked for.
fn put_asked(
    lines: &mut JsonLines,
    out: Vec<u8>,
    selection: Selection,
    number: usize,
    entry: &Entry,
) -> Result<Vec<u8>, AllocError>
    requires { IsUtf8 out.items }
    ensures text { IfOk result
        (λ v. v.items ≡ out.items ++ json_lines (selected_json lines.old selection number (entry.now ∷ []))) }
    ensures utf8 { IfOk result (λ v. IsUtf8 v.items) }
    ensures read_again { OnOk result
        (AllByRecursion IsReadAgain (selected_json lines.old selection number (entry.now ∷ []))) }
    ensures same { lines.new ≡ lines.old }
{
    if !selection.has(number, entry) {
        return Ok(out);
    }
    let bytes = lines.put_entry_line(out, number, entry)?;
    Ok(bytes)
}

/// Writes the line that begins a trace, and those of the selected entries, which may be none.
fn put_trace(
    alloc: Global,
    scenario: &Scenario,
    entries: &[Entry],
    selection: Selection,
) -> Result<Vec<u8>, AllocError>
    ensures text { IfOk result (λ v. v.items ≡ json_lines (trace_json scenario.now selection entries.now)) }
    ensures utf8 { IfOk result (λ v. IsUtf8 v.items) }
    ensures read_again { OnOk result (AllByRecursion IsReadAgain (trace_json scenario.now selection entries.now)) }
{
    let mut lines = JsonLines::new(alloc, scenario)?;
    let mut out = put_head_line(Vec::new(alloc), scenario.rows(), entries.len())?;
    for (number, entry) in entries.iter().enumerate() {
        out = put_asked(&mut lines, out, selection, number, entry)?;
    }
    Ok(out)
}

/// The line that begins a trace, and the lines of those of its entries that are of a device and have numbers from one
/// number to another, each as in the lines of the whole trace, with its number there; or the first of what the scenario
/// and the trace do not have.
pub fn selected_lines(
    alloc: Global,
    scenario: &Scenario,
    entries: &[Entry],
    selection: Selection,
) -> Result<String, SelectionFault>
    ensures selectable { OnOk result (IsSelectable scenario.now selection entries.now) }
    ensures lines { IfOk result
        (λ t. AreLinesOf (trace_json scenario.now selection entries.now) (string_bytes t)) }
    ensures refused { IfErr result (IsSelectionFault scenario.now selection entries.now) }
{
    selection.check(scenario, entries)?;
    let bytes = put_trace(alloc, scenario, entries, selection)?;
    Ok(text_of(bytes))
}
