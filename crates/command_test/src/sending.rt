//! The datagram that a line of a case states.
ghost use Rattle.std.specs.Prelude.{◌≡◌, ◌<◌, length, option_and_then, option_map, Some, IfOk, MatchOption};
ghost use Rattle.command_test.specs.Stated.{byte_before, if_none, known_byte, known_bytes, sent_at, sent_by, stated_by};
ghost use Rattle.command_test.specs.Stated.{stated_in};

use case_text::{Answer, Case, Digit, Item, OutputStated, Stated};
use std::alloc::{AllocError, Global};

/// The byte of two digits, where both are stated.
fn known_byte(high: Digit, low: Digit) -> Option<u8>
    ensures { result ≡ known_byte high low }
{
    match (high, low) {
        (Digit::Is(high), Digit::Is(low)) if high < 16 && low < 16 => Some(high * 16 + low),
        _ => None,
    }
}

/// The byte at the front of digits, where both of its digits are stated, and the digits after it.
fn first_byte(digits: &[Digit]) -> Option<(u8, &[Digit])>
    ensures known { MatchOption result (known_bytes digits.now ≡ if_none digits.now)
        (λ x. known_bytes digits.now ≡ byte_before (Some x.0) (known_bytes x.1.now)) }
    ensures shorter { MatchOption result (Unit {0}) (λ x. length x.1.now < length digits.now) }
{
    let [high, low, others @ ..] = digits else {
        return None;
    };
    let byte = known_byte(*high, *low)?;
    Some((byte, others))
}

/// The bytes of digits, where each digit is stated.
fn known_bytes(alloc: Global, digits: &[Digit]) -> Result<Option<Vec<u8>>, AllocError>
    ensures { IfOk result (λ o. option_map (λ v. v.items) o ≡ known_bytes digits.now) }
{
    let mut bytes = Vec::new(alloc);
    let mut rest = digits;
    while let Some((byte, others)) = first_byte(rest) {
        bytes.push(byte)?;
        rest = others;
    }
    if rest.is_empty() {
        Ok(Some(bytes))
    } else {
        Ok(None)
    }
}

/// The datagram that is stated to be sent.
fn sent_by(alloc: Global, stated: &Stated) -> Result<Option<Vec<u8>>, AllocError>
    ensures { IfOk result (λ o. option_map (λ v. v.items) o ≡ sent_by stated.now) }
{
    match stated {
        Stated::Output(OutputStated::Send { digits, .. }) => known_bytes(alloc, digits.as_slice()),
        Stated::Output(_) | Stated::End(_) | Stated::Verdict(_) | Stated::Written(_) => Ok(None),
    }
}

/// What the answer in this line states, if an answer stands there.
fn stated_by(line: usize, answers: &[Answer]) -> Option<&Stated>
    ensures { option_map (λ s. s.now) result ≡ stated_by line answers.now }
{
    let answer = answers.iter().find(|answer| answer.line == line)?;
    Some(&answer.stated)
}

fn stated_in(line: usize, items: &[Item]) -> Option<&Stated>
    ensures { option_map (λ s. s.now) result ≡ stated_in line items.now }
{
    for item in items {
        if let Some(stated) = stated_by(line, item.answers.as_slice()) {
            return Some(stated);
        }
    }
    None
}

fn sent_in(alloc: Global, line: usize, items: &[Item]) -> Result<Option<Vec<u8>>, AllocError>
    ensures { IfOk result (λ o. option_map (λ v. v.items) o ≡ option_and_then sent_by (stated_in line items.now)) }
{
    match stated_in(line, items) {
        Some(stated) => sent_by(alloc, stated),
        None => Ok(None),
    }
}

/// The datagram that a line of a case states, if it states one and all its digits.
pub(crate) fn sent_at(
    alloc: Global,
    case: &Case,
    line: usize,
) -> Result<Option<Vec<u8>>, AllocError>
    ensures { IfOk result (λ o. option_map (λ v. v.items) o ≡ sent_at case.now line) }
{
    match case {
        Case::Scenario(case) => sent_in(alloc, line, case.items.as_slice()),
        Case::File(_) => Ok(None),
    }
}
