//! Bytes in pieces.

ghost use Rattle.std.specs.Prelude.{◌≡◌, ◌≤◌, ◌∷◌, [], IfOk};
ghost use Rattle.std.specs.List.{filter_map, list_all, repeat};
ghost use Rattle.scenario_words.specs.Words.{words, parts};
ghost use Rattle.scenario_words.specs.Reading.{Gives, Reads};
ghost use Rattle.case_text.specs.Digits.{digit_of, digits_of, is_digit, is_hex, piece_of, pieces_of, times_of};

use crate::digit::Digit;
use crate::digits::Digits;
use scenario_words::{Cause, cut, end, hex_digit_value, is_name, natural};
use std::alloc::{AllocError, Global};

fn digit_of(byte: u8) -> Option<Digit>
    ensures { result ≡ digit_of byte }
{
    if byte == b'.' {
        return Some(Digit::Any);
    }
    match hex_digit_value(byte) {
        Some(value) => Some(Digit::Is(value)),
        None => None,
    }
}

fn is_digit(byte: u8) -> bool
    ensures { result ≡ is_digit byte }
{
    digit_of(byte).is_some()
}

fn are_digits(bytes: &[u8]) -> bool
    ensures { result ≡ list_all is_digit bytes.now }
{
    bytes.iter().all(|byte| is_digit(*byte))
}

fn is_hex(hex: &[u8]) -> bool
    ensures { result ≡ is_hex hex.now }
{
    !hex.is_empty() && hex.len() % 2 == 0 && are_digits(hex)
}

/// How many times something stands there: a number from 1 to 100,000.
pub(crate) fn times_of(line: &[u8]) -> Result<u32, Cause>
    ensures read { Reads (λ n. n) result (times_of line.now) }
    ensures range { IfOk result (λ n. n ≤ 100000) }
{
    let (times, line) = natural(line, 1, 100_000)?;
    end(line)?;
    Ok(times as u32)
}

/// These bytes, repeated.
pub(crate) fn repeated(alloc: Global, bytes: &[u8], times: u32) -> Result<Vec<u8>, AllocError>
    ensures { IfOk result (λ v. v.items ≡ repeat times bytes.now) }
{
    let mut all = Vec::new(alloc);
    let mut left = times;
    while left > 0 {
        all.extend_from_slice(bytes)?;
        left -= 1;
    }
    Ok(all)
}

#[tactic(auto, using(crate::proofs::Parts::too_many))]
fn piece_of(alloc: Global, piece: &[u8]) -> Result<Vec<u8>, Cause>
    ensures { Gives (λ v. v.items) result (piece_of (parts 42 piece.now)) }
{
    let (hex, behind) = cut(piece, b'*');
    let Some(behind) = behind else {
        return hex_once(alloc, hex);
    };
    let (count, more) = cut(behind, b'*');
    if more.is_some() {
        return Err(Cause::Token);
    }
    hex_times(alloc, hex, count)
}

fn hex_once(alloc: Global, hex: &[u8]) -> Result<Vec<u8>, Cause>
    ensures { Gives (λ v. v.items) result (piece_of (hex.now ∷ [])) }
{
    if !is_hex(hex) {
        return Err(Cause::Token);
    }
    let mut all = Vec::new(alloc);
    all.extend_from_slice(hex)?;
    Ok(all)
}

fn hex_times(alloc: Global, hex: &[u8], count: &[u8]) -> Result<Vec<u8>, Cause>
    ensures { Gives (λ v. v.items) result (piece_of (hex.now ∷ count.now ∷ [])) }
{
    if !is_hex(hex) {
        return Err(Cause::Token);
    }
    let times = times_of(count)?;
    Ok(repeated(alloc, hex, times)?)
}

/// The hex of a word in pieces.
#[tactic(auto, using(crate::proofs::Parts::next_piece))]
pub(crate) fn pieces_of(alloc: Global, word: &[u8]) -> Result<Vec<u8>, Cause>
    ensures { Gives (λ v. v.items) result (pieces_of (parts 43 word.now)) }
{
    let mut all = Vec::new(alloc);
    let mut left = Some(word);
    while let Some(word) = left {
        let (piece, behind) = cut(word, b'+');
        let hex = piece_of(alloc, piece)?;
        all.extend_from_slice(hex.as_slice())?;
        left = behind;
    }
    Ok(all)
}

/// The digits of hex.
pub(crate) fn digits_in(alloc: Global, hex: &[u8]) -> Result<Vec<Digit>, AllocError>
    ensures { IfOk result (λ v. v.items ≡ filter_map digit_of hex.now) }
{
    hex.iter().filter_map(|byte| digit_of(*byte)).collect(alloc)
}

/// The digits of a word: pieces of hex joined by `+`, where `.` is any digit and `HEX*N` is N times HEX; `-` for none.
pub fn read_digits(alloc: Global, word: &[u8]) -> Result<Digits, Cause>
    ensures { Gives (λ d. d) result (digits_of word.now) }
{
    if is_name(word, "-") {
        return Ok(Digits::from_vec(Vec::new(alloc)));
    }
    let hex = pieces_of(alloc, word)?;
    Ok(Digits::from_vec(digits_in(alloc, hex.as_slice())?))
}
