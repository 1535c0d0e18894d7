//! The lines of cases that were played.

ghost use Rattle.std.specs.Prelude.{◌≡◌, ◌++◌, IfOk, OnOk, Some, map, option_map};
ghost use Rattle.std.specs.String.{string_bytes};
ghost use Rattle.serde_json.specs.Data.{string};
ghost use Rattle.json.specs.Tree.{members_tokens};
ghost use Rattle.serde_json.specs.Written.{members_outline};
ghost use Rattle.trace_json.specs.Answers.{case_json, counts_json, differing_fields, differing_of, holds_if};
ghost use Rattle.trace_json.specs.Answers.{texts_json};
ghost use Rattle.trace_json.specs.Json.{fields_json, object_json};
ghost use Rattle.trace_json.specs.Writing.{Has64Bits, IsReadAgain, json_line, tokens_of};

use crate::lines::{end_line, text_of};
use crate::members::{put_flag, put_number, put_number_if, put_string};
use json::Writer;
use std::alloc::{AllocError, Global};

/// What a case states that does not hold.
#[derive(Clone, Copy)]
pub struct CaseDifference<'a> {
    /// The line of its file, counted from 1, if its number has 64 bits.
    pub line: Option<u64>,
    /// What stands there.
    pub stated: &'a str,
    /// What came: the words of each answer, in their order.
    pub came: &'a [String],
}

/// What a line says of a case that was played.
#[derive(Clone, Copy)]
pub struct CaseParts<'a> {
    /// Its title.
    pub title: &'a str,
    /// The path of its file.
    pub file: &'a str,
    /// What differs, if something does.
    pub difference: Option<CaseDifference<'a>>,
}

/// Writes a text of an array.
fn put_text(out: &mut Writer, text: &String) -> Result<(), AllocError>
    ensures adds { OnOk result (out.new.tokens ≡ out.old.tokens ++ tokens_of (string (string_bytes text.now))) }
    ensures before { out.new.before ≡ out.old.before }
    ensures exact { Has64Bits (string (string_bytes text.now)) }
{
    out.string(text.as_str())
}

/// Writes the array of texts, in their order.
fn put_texts(out: &mut Writer, texts: &[String]) -> Result<(), AllocError>
    ensures adds { OnOk result (out.new.tokens ≡ out.old.tokens
        ++ tokens_of (texts_json (map (λ w. string_bytes w) texts.now))) }
    ensures before { out.new.before ≡ out.old.before }
    ensures exact { OnOk result (Has64Bits (texts_json (map (λ w. string_bytes w) texts.now))) }
{
    out.begin_array()?;
    for text in texts {
        put_text(out, text)?;
    }
    out.end_array()?;
    Ok(())
}

/// Writes what differs, and the end of its case's object.
fn put_difference(out: &mut Writer, difference: CaseDifference<'_>) -> Result<(), AllocError>
    ensures adds { OnOk result (out.new.tokens ≡ out.old.tokens
        ++ members_tokens (members_outline (fields_json (differing_fields (Some (differing_of difference.entry)))))) }
    ensures before { out.new.before ≡ out.old.before }
    ensures exact { OnOk result (Has64Bits (object_json (differing_fields (Some (differing_of difference.entry))))) }
{
    put_number_if(out, "line", difference.line)?;
    put_string(out, "stated", difference.stated)?;
    out.key("came")?;
    put_texts(out, difference.came)?;
    out.end_object()?;
    Ok(())
}

/// Writes what differs, if something does, and the end of its case's object.
fn put_difference_if(
    out: &mut Writer,
    difference: Option<CaseDifference<'_>>,
) -> Result<(), AllocError>
    ensures adds { OnOk result (out.new.tokens ≡ out.old.tokens ++ members_tokens (members_outline (fields_json
        (differing_fields (option_map differing_of difference.entry))))) }
    ensures before { out.new.before ≡ out.old.before }
    ensures exact { OnOk result (Has64Bits
        (object_json (differing_fields (option_map differing_of difference.entry)))) }
{
    match difference {
        None => {
            out.end_object()?;
            Ok(())
        }
        Some(difference) => put_difference(out, difference),
    }
}

/// Whether a case holds.
fn holds(difference: Option<CaseDifference<'_>>) -> bool
    ensures { result ≡ holds_if (option_map differing_of difference.entry) }
{
    match difference {
        None => true,
        Some(_) => false,
    }
}

/// Writes the object of a case.
#[tactic(auto, unfolding(crate::specs::Answers::case_json))]
fn put_case(out: &mut Writer, case: &CaseParts<'_>) -> Result<(), AllocError>
    ensures adds { OnOk result (out.new.tokens ≡ out.old.tokens ++ tokens_of
        (case_json case.now.title.now case.now.file.now (option_map differing_of case.now.difference))) }
    ensures before { out.new.before ≡ out.old.before }
    ensures exact { OnOk result (Has64Bits
        (case_json case.now.title.now case.now.file.now (option_map differing_of case.now.difference))) }
{
    out.begin_object()?;
    put_string(out, "title", case.title)?;
    put_string(out, "file", case.file)?;
    put_flag(out, "holds", holds(case.difference))?;
    put_difference_if(out, case.difference)?;
    Ok(())
}

/// The line of a case that was played: whether it holds, and where it does not the line of the file that differs, and
/// what came.
#[tactic(auto, using(crate::proofs::Depth::case_again))]
pub fn case_line(alloc: Global, case: &CaseParts<'_>) -> Result<String, AllocError>
    ensures line { IfOk result (λ t. string_bytes t ≡ json_line
        (case_json case.now.title.now case.now.file.now (option_map differing_of case.now.difference))) }
    ensures read_again { OnOk result (IsReadAgain
        (case_json case.now.title.now case.now.file.now (option_map differing_of case.now.difference))) }
{
    let mut writer = Writer::new(Vec::new(alloc));
    put_case(&mut writer, case)?;
    let bytes = end_line(writer)?;
    Ok(text_of(bytes))
}

/// Writes the object of how many cases there are, and how many differ.
#[tactic(auto, unfolding(crate::specs::Answers::counts_json))]
fn put_counts(out: &mut Writer, cases: usize, differ: usize) -> Result<(), AllocError>
    ensures adds { OnOk result (out.new.tokens ≡ out.old.tokens ++ tokens_of (counts_json cases differ)) }
    ensures before { out.new.before ≡ out.old.before }
    ensures exact { Has64Bits (counts_json cases differ) }
{
    out.begin_object()?;
    put_number(out, "cases", cases as u64)?;
    put_number(out, "differ", differ as u64)?;
    out.end_object()?;
    Ok(())
}

/// The line of how many cases there are, and how many of them differ.
#[tactic(auto, using(crate::proofs::Depth::counts_again))]
pub fn counts_line(alloc: Global, cases: usize, differ: usize) -> Result<String, AllocError>
    ensures line { IfOk result (λ t. string_bytes t ≡ json_line (counts_json cases differ)) }
    ensures read_again { OnOk result (IsReadAgain (counts_json cases differ)) }
{
    let mut writer = Writer::new(Vec::new(alloc));
    put_counts(&mut writer, cases, differ)?;
    let bytes = end_line(writer)?;
    Ok(text_of(bytes))
}
