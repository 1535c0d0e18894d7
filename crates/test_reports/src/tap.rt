//! Reports of cases in the form of the Test Anything Protocol, version 14.
ghost use Rattle.std.specs.Prelude.{◌≡◌, ◌++◌, codes, IfOk, OnOk};
ghost use Rattle.std.specs.Fmt.{decimal};
ghost use Rattle.std.specs.List.{flat_map};
ghost use Rattle.std.specs.String.{string_bytes};
ghost use Rattle.scenario_words.specs.Words.{ended_line};
ghost use Rattle.test_reports.specs.Tap.{answer_item, block, block_if, came_list, entry, item, place, plan, point};
ghost use Rattle.test_reports.specs.Tap.{point_line, points, refusal_words, result_word, tap_text};

use crate::case_report::{CaseReport, Difference};
use crate::escaping::{Escape, put_escaped, put_in_quotes};
use crate::instead::{CameAnswer, Instead};
use crate::report::title_of;
use scenario_words::{Cause, cause_words};
use std::alloc::{AllocError, Global};

/// Writes the version, and the plan of this many test points.
fn put_plan(out: &mut String, count: usize) -> Result<(), AllocError>
    ensures { OnOk result (string_bytes out.new ≡ string_bytes out.old ++ plan count) }
{
    write!(out, "TAP version 14\n1..{count}\n")
}

/// Writes the line of a test point: `ok` or `not ok`, its number and its title.
#[tactic(auto, unfolding(crate::specs::Tap::point_line))]
fn put_point_line(
    alloc: Global,
    out: &mut String,
    word: &str,
    number: usize,
    title: &str,
) -> Result<(), AllocError>
    ensures { OnOk result (string_bytes out.new ≡ string_bytes out.old ++ point_line word.now number title.now) }
{
    write!(out, "{word} {number} - ")?;
    put_escaped(alloc, out, Escape::Title, title)?;
    out.push('\n')
}

/// Writes a line of a block: a name, and a text in quotes.
fn put_entry(alloc: Global, out: &mut String, name: &str, text: &str) -> Result<(), AllocError>
    ensures { OnOk result (string_bytes out.new ≡ string_bytes out.old ++ entry name.now text.now) }
{
    out.push_str(name)?;
    put_in_quotes(alloc, out, text)?;
    out.push('\n')
}

fn put_line_number(out: &mut String, line: u128) -> Result<(), AllocError>
    ensures { OnOk result (string_bytes out.new ≡ string_bytes out.old
        ++ ended_line (codes "  line: " ++ decimal line)) }
{
    write!(out, "  line: {line}\n")
}

/// Writes the lines of a block for the file of a case, a line of it, and what the line states.
#[tactic(auto, unfolding(crate::specs::Tap::place))]
fn put_place(
    alloc: Global,
    out: &mut String,
    path: &str,
    line: u128,
    stated: &str,
) -> Result<(), AllocError>
    ensures { OnOk result (string_bytes out.new ≡ string_bytes out.old ++ place path.now line stated.now) }
{
    put_entry(alloc, out, "  file: ", path)?;
    put_line_number(out, line)?;
    put_entry(alloc, out, "  stated: ", stated)
}

fn fault_words(alloc: Global, line: usize, words: &str) -> Result<String, AllocError>
    ensures { IfOk result (λ text. string_bytes text
        ≡ codes "fault line " ++ decimal line ++ codes " " ++ words.now) }
{
    format!(in alloc; "fault line {line} {words}")
}

/// Why the text of a case is refused, in this line below its title.
pub(crate) fn refusal_words(alloc: Global, line: usize, cause: Cause) -> Result<String, AllocError>
    ensures { IfOk result (λ text. string_bytes text ≡ refusal_words line cause) }
{
    fault_words(alloc, line, cause_words(cause))
}

/// Writes an item of the list of what came.
fn put_item(alloc: Global, out: &mut String, words: &str) -> Result<(), AllocError>
    ensures { OnOk result (string_bytes out.new ≡ string_bytes out.old ++ item words.now) }
{
    out.push_str("    - ")?;
    put_in_quotes(alloc, out, words)?;
    out.push('\n')
}

fn put_items(alloc: Global, out: &mut String, answers: &[CameAnswer]) -> Result<(), AllocError>
    ensures { OnOk result (string_bytes out.new ≡ string_bytes out.old ++ flat_map answer_item answers.now) }
{
    for answer in answers {
        put_item(alloc, out, answer.words.as_str())?;
    }
    Ok(())
}

/// Writes what came, a list of the words of each answer.
fn put_came(alloc: Global, out: &mut String, instead: &Instead) -> Result<(), AllocError>
    ensures { OnOk result (string_bytes out.new ≡ string_bytes out.old ++ came_list instead.now) }
{
    match instead {
        Instead::Nothing => Ok(()),
        Instead::Came { answers, .. } => {
            out.push_str("  came:\n")?;
            put_items(alloc, out, answers.as_slice())
        }
        Instead::Refused { line, cause } => {
            let words = refusal_words(alloc, *line, *cause)?;
            out.push_str("  came:\n")?;
            put_item(alloc, out, words.as_str())
        }
    }
}

/// Writes the block of a case that differs.
#[tactic(auto, unfolding(crate::specs::Tap::block))]
fn put_block(
    alloc: Global,
    out: &mut String,
    path: &str,
    difference: &Difference,
) -> Result<(), AllocError>
    ensures { OnOk result (string_bytes out.new ≡ string_bytes out.old ++ block path.now difference.now) }
{
    out.push_str("  ---\n")?;
    put_place(alloc, out, path, difference.line, difference.stated)?;
    put_came(alloc, out, &difference.instead)?;
    out.push_str("  ...\n")
}

fn put_block_if(
    alloc: Global,
    out: &mut String,
    path: &str,
    difference: &Option<Difference>,
) -> Result<(), AllocError>
    ensures { OnOk result (string_bytes out.new ≡ string_bytes out.old ++ block_if path.now difference.now) }
{
    match difference {
        None => Ok(()),
        Some(difference) => put_block(alloc, out, path, difference),
    }
}

fn result_word(difference: &Option<Difference>) -> &'static str
    ensures { result.now ≡ result_word difference.now }
{
    match difference {
        None => "ok",
        Some(_) => "not ok",
    }
}

fn put_point(
    alloc: Global,
    out: &mut String,
    number: usize,
    case: &CaseReport,
) -> Result<(), AllocError>
    ensures { OnOk result (string_bytes out.new ≡ string_bytes out.old ++ point number case.now) }
{
    let title = title_of(alloc, case)?;
    let word = result_word(&case.difference);
    put_point_line(alloc, out, word, number, title.as_str())?;
    put_block_if(alloc, out, case.path, &case.difference)
}

fn put_points(alloc: Global, out: &mut String, all: &[CaseReport]) -> Result<(), AllocError>
    ensures { OnOk result (string_bytes out.new ≡ string_bytes out.old ++ points 1 all.now) }
{
    for (place, case) in all.iter().enumerate() {
        put_point(alloc, out, place + 1, case)?;
    }
    Ok(())
}

/// What is printed of cases as TAP: the plan, and a test point for each, with a block in YAML where it differs.
pub(crate) fn tap_text(alloc: Global, all: &[CaseReport]) -> Result<String, AllocError>
    ensures { IfOk result (λ text. string_bytes text ≡ tap_text all.now) }
{
    let mut out = String::new(alloc);
    put_plan(&mut out, all.len())?;
    put_points(alloc, &mut out, all)?;
    Ok(out)
}
