//! What of a payload, of queries or of arguments is not valid, in words.

ghost use Rattle.std.specs.Prelude.{◌≡◌, true, false, length, ◌<◌, IfOk, MatchOption};
ghost use Rattle.std.specs.Str.{is_utf8};
ghost use Rattle.std.specs.String.{string_bytes};
ghost use Rattle.request_reasons.specs.PayloadWords.{bytes_text, end_words, ops_text, query_text, query_words};
ghost use Rattle.request_reasons.specs.PayloadWords.{argument_words, fault_words, record_text, record_words};
ghost use Rattle.request_reasons.specs.PayloadWords.{disagreement_words, standing_words, taken_words, unfit_words};

use crate::length_words::length_words;
use crate::tlv_words::tlv_words;
use crate::unfit::{Standing, Unfit};
use device_requests::thousandths_text;
use lwm2m_payloads::{Format, PayloadFault, RecordFault};
use notifier::QueryFault;
use object_defs::{Ops, Path, path_text};
use scenario_words::{hex_word, kind_word, quoted_word};
use std::alloc::{AllocError, Global};

/// The text that bytes are, where they are UTF-8.
fn utf8_of(bytes: &[u8]) -> Option<&str>
    ensures { MatchOption result (is_utf8 bytes.now ≡ false) (λ s. (s.now ≡ bytes.now) × (is_utf8 bytes.now ≡ true)) }
{
    str::from_utf8(bytes).ok()
}

/// Bytes: in quotes where they are UTF-8, else in hex.
pub(crate) fn bytes_text(alloc: Global, bytes: &[u8]) -> Result<String, AllocError>
    ensures { IfOk result (λ text. string_bytes text ≡ bytes_text bytes.now) }
{
    match utf8_of(bytes) {
        Some(text) => quoted_word(alloc, text),
        None => hex_word(alloc, bytes),
    }
}

/// The operations of a resource.
pub(crate) fn ops_text(ops: Ops) -> &'static str
    ensures { result.now ≡ ops_text ops }
{
    match ops {
        Ops::R => "R",
        Ops::W => "W",
        Ops::RW => "RW",
        Ops::E => "E",
    }
}

/// Why a query is no valid change.
fn query_text(why: QueryFault) -> &'static str
    ensures { result.now ≡ query_text why }
{
    match why {
        QueryFault::UnknownName => "its name is not pmin, pmax, gt, lt or st",
        QueryFault::Repeated => "an earlier query has its name",
        QueryFault::BadNumber => "its number is not valid",
        QueryFault::Level => "gt, lt and st are for a single resource of a number",
        QueryFault::Memory => "memory ran out",
    }
}

/// The byte at which the number of a query of this length stops being one.
fn end_words(alloc: Global, length: usize, at: Option<usize>) -> Result<String, AllocError>
    ensures { IfOk result (λ text. string_bytes text ≡ end_words length at) }
{
    match at {
        None => Ok(String::new(alloc)),
        Some(at) => {
            if at < length {
                return format!(in alloc; ": at byte {at}");
            }
            String::from_str(alloc, ": it ends too early")
        }
    }
}

/// A query that is no valid change.
fn query_words(
    alloc: Global,
    place: usize,
    bytes: &[u8],
    why: QueryFault,
    at: Option<usize>,
) -> Result<String, AllocError>
    ensures { IfOk result (λ text. string_bytes text ≡ query_words place bytes.now why at) }
{
    let query = bytes_text(alloc, bytes)?;
    let end = end_words(alloc, bytes.len(), at)?;
    let why = query_text(why);
    format!(in alloc; "query {place} is {query}, and {why}{end}")
}

/// A number that gt, lt or st would have.
fn standing_words(alloc: Global, name: &str, standing: Standing) -> Result<String, AllocError>
    ensures { IfOk result (λ text. string_bytes text ≡ standing_words name.now standing) }
{
    let number = thousandths_text(alloc, standing.number)?;
    if standing.is_given {
        return format!(in alloc; "{name} {number} is given");
    }
    format!(in alloc; "{name} {number} stood before")
}

/// Numbers that would not agree.
fn disagreement_words(
    alloc: Global,
    gt: Standing,
    lt: Standing,
    st: Option<Standing>,
) -> Result<String, AllocError>
    ensures { IfOk result (λ text. string_bytes text ≡ disagreement_words gt lt st) }
{
    let upper = standing_words(alloc, "gt", gt)?;
    let lower = standing_words(alloc, "lt", lt)?;
    match st {
        None => format!(in alloc; "gt, lt and st would not agree: {upper}, {lower}"),
        Some(st) => {
            let step = standing_words(alloc, "st", st)?;
            format!(in alloc; "gt, lt and st would not agree: {upper}, {lower}, {step}")
        }
    }
}

/// Why a record is refused.
fn record_text(alloc: Global, why: RecordFault) -> Result<String, AllocError>
    ensures { IfOk result (λ text. string_bytes text ≡ record_text why) }
{
    match why {
        RecordFault::Number => String::from_str(alloc, "does not have the number of the path"),
        RecordFault::Undefined => String::from_str(alloc, "is of no resource of the object"),
        RecordFault::Operations { ops } => {
            let operations = ops_text(ops);
            format!(in alloc; "is of a resource with the operations {operations}")
        }
        RecordFault::Form => String::from_str(alloc, "is not of the type that is needed there"),
        RecordFault::Value { kind, length } => {
            let more = length_words(alloc, Format::Tlv, kind, length)?;
            let kind = kind_word(kind);
            format!(in alloc; "is not a value of the kind {kind}{more}")
        }
        RecordFault::Part { part, kind, length } => {
            let more = length_words(alloc, Format::Tlv, kind, length)?;
            format!(in alloc; "has a part {part} that is not of its kind{more}")
        }
        RecordFault::PartTwice { part } => format!(in alloc; "has part {part} twice"),
        RecordFault::Empty => {
            String::from_str(alloc, "has no part, and its resource is mandatory")
        }
        RecordFault::Twice => String::from_str(alloc, "has the number of a later record"),
    }
}

/// A record that is refused.
fn record_words(
    alloc: Global,
    place: usize,
    number: u16,
    why: RecordFault,
) -> Result<String, AllocError>
    ensures { IfOk result (λ text. string_bytes text ≡ record_words place number why) }
{
    let why = record_text(alloc, why)?;
    format!(in alloc; "record {place}, of number {number}, {why}")
}

/// Why a payload gives nothing, in the format in which it is read.
fn fault_words(alloc: Global, format: Format, fault: PayloadFault) -> Result<String, AllocError>
    ensures { IfOk result (λ text. string_bytes text ≡ fault_words format fault) }
{
    match fault {
        PayloadFault::NotValue { kind, length } => {
            let more = length_words(alloc, format, kind, length)?;
            let kind = kind_word(kind);
            format!(in alloc; "the payload is not a value of the kind {kind}{more}")
        }
        PayloadFault::NotTlv => String::from_str(alloc, "the payload is not TLV"),
        PayloadFault::Records { count } => format!(in alloc; "there are {count} records, not 1"),
        PayloadFault::Record {
            place,
            number,
            fault,
        } => record_words(alloc, place, number, fault),
        PayloadFault::Mandatory { resource } => {
            format!(in alloc; "resource {resource} is mandatory, and not given")
        }
    }
}

/// A number that a new instance does not get.
fn taken_words(alloc: Global, path: Path, number: u16) -> Result<String, AllocError>
    ensures { IfOk result (λ text. string_bytes text ≡ taken_words path number) }
{
    if number == 65535 {
        return String::from_str(alloc, "no instance has the number 65535");
    }
    let instance = path_text(alloc, Path::Instance(path.object(), number))?;
    format!(in alloc; "there is an instance {instance} already")
}

/// Where a payload stops being arguments: at this byte, or at its end.
fn argument_words(alloc: Global, at: usize, byte: Option<u8>) -> Result<String, AllocError>
    ensures { IfOk result (λ text. string_bytes text ≡ argument_words at byte) }
{
    match byte {
        Some(byte) => {
            let digits = hex_word(alloc, &[byte])?;
            format!(in alloc; "the payload is not a list of arguments: byte {at} is 0x{digits}")
        }
        None => {
            format!(in alloc;
                "the payload is not a list of arguments: it ends too early, after {at} bytes"
            )
        }
    }
}

/// What of a payload, of queries or of arguments is not valid.
pub(crate) fn unfit_words(alloc: Global, path: Path, unfit: &Unfit) -> Result<String, AllocError>
    ensures { IfOk result (λ text. string_bytes text ≡ unfit_words path unfit.now) }
{
    match unfit {
        Unfit::NotArguments { at, byte } => argument_words(alloc, *at, *byte),
        Unfit::Query {
            place,
            bytes,
            fault,
            at,
        } => query_words(alloc, *place, bytes.as_slice(), *fault, *at),
        Unfit::Inconsistent { gt, lt, st } => disagreement_words(alloc, *gt, *lt, *st),
        Unfit::NotTlv { place } => tlv_words(alloc, *place),
        Unfit::Payload { format, fault } => fault_words(alloc, *format, *fault),
        Unfit::Taken { number } => taken_words(alloc, path, *number),
        Unfit::NoNumber => String::from_str(alloc, "no number of an instance is free"),
    }
}
