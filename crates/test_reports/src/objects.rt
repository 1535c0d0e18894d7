//! A case as an object in JSON, in a line of its own.
ghost use Rattle.std.specs.Prelude.{◌≡◌, ◌++◌, ◌∷◌, [], IfOk, OnOk, Some, codes, map, option_map};
ghost use Rattle.std.specs.String.{string_bytes};
ghost use Rattle.json.specs.Tree.{members_tokens};
ghost use Rattle.serde_json.specs.Data.{boolean, string};
ghost use Rattle.serde_json.specs.Written.{members_outline};
ghost use Rattle.trace_json.specs.Answers.{texts_json};
ghost use Rattle.trace_json.specs.Json.{fields_json, number_json, object_json};
ghost use Rattle.trace_json.specs.Notes.{if_there};
ghost use Rattle.trace_json.specs.Writing.{Has64Bits, IsReadAgain, fields_tokens, json_line, member_tokens, tokens_of};
ghost use Rattle.test_reports.specs.InJson.{came_fields, case_json, difference_fields, holds, line_number};
ghost use Rattle.test_reports.specs.Tap.{refusal_words};

use crate::case_report::{CaseReport, Difference};
use crate::instead::{CameAnswer, Instead};
use crate::tap::refusal_words;
use json::Writer;
use scenario_words::Cause;
use std::alloc::{AllocError, Global};
use trace_json::{end_line, put_number, put_string, text_of};

/// The number of a line, where it has 64 bits.
fn line_number(line: u128) -> Option<u64>
    ensures { result ≡ line_number line }
{
    if line < 0x1_0000_0000_0000_0000 {
        Some(line as u64)
    } else {
        None
    }
}

/// Writes a number, if there is one.
fn put_number_if(out: &mut Writer, key: &str, number: Option<u64>) -> Result<(), AllocError>
    ensures adds { OnOk result (out.new.tokens
        ≡ out.old.tokens ++ fields_tokens (if_there key.now (option_map number_json number))) }
    ensures before { out.new.before ≡ out.old.before }
    ensures exact { Has64Bits (object_json (if_there key.now (option_map number_json number))) }
{
    match number {
        None => Ok(()),
        Some(number) => put_number(out, key, number),
    }
}

/// Writes the number of a line, where it has 64 bits.
fn put_line(out: &mut Writer, line: u128) -> Result<(), AllocError>
    ensures adds { OnOk result (out.new.tokens
        ≡ out.old.tokens ++ fields_tokens (if_there (codes "line") (option_map number_json (line_number line)))) }
    ensures before { out.new.before ≡ out.old.before }
    ensures exact { OnOk result
        (Has64Bits (object_json (if_there (codes "line") (option_map number_json (line_number line))))) }
{
    put_number_if(out, "line", line_number(line))
}

fn device_number(device: Option<u16>) -> Option<u64>
    ensures { result ≡ device }
{
    match device {
        None => None,
        Some(device) => Some(u64::from(device)),
    }
}

/// Writes the number of a device, if there is one.
fn put_device(out: &mut Writer, device: Option<u16>) -> Result<(), AllocError>
    ensures adds { OnOk result (out.new.tokens
        ≡ out.old.tokens ++ fields_tokens (if_there (codes "device") (option_map number_json device))) }
    ensures before { out.new.before ≡ out.old.before }
    ensures exact { OnOk result
        (Has64Bits (object_json (if_there (codes "device") (option_map number_json device)))) }
{
    put_number_if(out, "device", device_number(device))
}

/// Writes whether something holds.
fn put_flag(out: &mut Writer, key: &str, flag: bool) -> Result<(), AllocError>
    ensures adds { OnOk result (out.new.tokens ≡ out.old.tokens ++ member_tokens key.now (boolean flag)) }
    ensures before { out.new.before ≡ out.old.before }
{
    out.key(key)?;
    out.boolean(flag)
}

fn put_word(out: &mut Writer, words: &str) -> Result<(), AllocError>
    ensures adds { OnOk result (out.new.tokens ≡ out.old.tokens ++ tokens_of (string words.now)) }
    ensures before { out.new.before ≡ out.old.before }
    ensures exact { Has64Bits (string words.now) }
{
    out.string(words)
}

/// Writes the array of the words of answers, in their order.
fn put_words(out: &mut Writer, answers: &[CameAnswer]) -> Result<(), AllocError>
    ensures adds { OnOk result (out.new.tokens ≡ out.old.tokens
        ++ tokens_of (texts_json (map (λ a. a.words) answers.now))) }
    ensures before { out.new.before ≡ out.old.before }
    ensures exact { OnOk result (Has64Bits (texts_json (map (λ a. a.words) answers.now))) }
{
    out.begin_array()?;
    for answer in answers {
        put_word(out, answer.words.as_str())?;
    }
    out.end_array()?;
    Ok(())
}

/// Writes the array of why the text of a case is refused.
fn put_refusal(alloc: Global, out: &mut Writer, line: usize, cause: Cause) -> Result<(), AllocError>
    ensures adds { OnOk result (out.new.tokens ≡ out.old.tokens
        ++ tokens_of (texts_json (refusal_words line cause ∷ []))) }
    ensures before { out.new.before ≡ out.old.before }
    ensures exact { Has64Bits (texts_json (refusal_words line cause ∷ [])) }
{
    let words = refusal_words(alloc, line, cause)?;
    out.begin_array()?;
    out.string(words.as_str())?;
    out.end_array()?;
    Ok(())
}

/// Writes what came, where it is known, and the end of its case's object.
fn put_came(alloc: Global, out: &mut Writer, instead: &Instead) -> Result<(), AllocError>
    ensures adds { OnOk result (out.new.tokens ≡ out.old.tokens
        ++ members_tokens (members_outline (fields_json (came_fields instead.now)))) }
    ensures before { out.new.before ≡ out.old.before }
    ensures exact { OnOk result (Has64Bits (object_json (came_fields instead.now))) }
{
    match instead {
        Instead::Nothing => {
            out.end_object()?;
            Ok(())
        }
        Instead::Came { answers, .. } => {
            out.key("came")?;
            put_words(out, answers.as_slice())?;
            out.end_object()?;
            Ok(())
        }
        Instead::Refused { line, cause } => {
            out.key("came")?;
            put_refusal(alloc, out, *line, *cause)?;
            out.end_object()?;
            Ok(())
        }
    }
}

/// Writes where a case differs, and the end of its object.
fn put_difference(
    alloc: Global,
    out: &mut Writer,
    difference: &Difference,
) -> Result<(), AllocError>
    ensures adds { OnOk result (out.new.tokens ≡ out.old.tokens
        ++ members_tokens (members_outline (fields_json (difference_fields (Some difference.now))))) }
    ensures before { out.new.before ≡ out.old.before }
    ensures exact { OnOk result (Has64Bits (object_json (difference_fields (Some difference.now)))) }
{
    put_line(out, difference.line)?;
    put_string(out, "stated", difference.stated)?;
    put_came(alloc, out, &difference.instead)?;
    Ok(())
}

/// Writes where a case differs, if it does, and the end of its object.
fn put_difference_if(
    alloc: Global,
    out: &mut Writer,
    difference: &Option<Difference>,
) -> Result<(), AllocError>
    ensures adds { OnOk result (out.new.tokens ≡ out.old.tokens
        ++ members_tokens (members_outline (fields_json (difference_fields difference.now)))) }
    ensures before { out.new.before ≡ out.old.before }
    ensures exact { OnOk result (Has64Bits (object_json (difference_fields difference.now))) }
{
    match difference {
        None => {
            out.end_object()?;
            Ok(())
        }
        Some(difference) => put_difference(alloc, out, difference),
    }
}

fn holds(difference: &Option<Difference>) -> bool
    ensures { result ≡ holds difference.now }
{
    match difference {
        None => true,
        Some(_) => false,
    }
}

/// Writes the object of a case.
fn put_case(alloc: Global, out: &mut Writer, case: &CaseReport) -> Result<(), AllocError>
    ensures adds { OnOk result (out.new.tokens ≡ out.old.tokens ++ tokens_of (case_json case.now)) }
    ensures before { out.new.before ≡ out.old.before }
    ensures exact { OnOk result (Has64Bits (case_json case.now)) }
{
    out.begin_object()?;
    put_string(out, "title", case.title)?;
    put_string(out, "file", case.path)?;
    put_device(out, case.device)?;
    put_flag(out, "holds", holds(&case.difference))?;
    put_difference_if(alloc, out, &case.difference)?;
    Ok(())
}

/// The line of a case: whether it holds, and where it does not the line of the file that differs, and what came.
#[tactic(auto, using(crate::proofs::Again::case_again))]
pub(crate) fn case_object(alloc: Global, case: &CaseReport) -> Result<String, AllocError>
    ensures line { IfOk result (λ text. string_bytes text ≡ json_line (case_json case.now)) }
    ensures read_again { OnOk result (IsReadAgain (case_json case.now)) }
{
    let mut writer = Writer::new(Vec::new(alloc));
    put_case(alloc, &mut writer, case)?;
    let bytes = end_line(writer)?;
    Ok(text_of(bytes))
}
