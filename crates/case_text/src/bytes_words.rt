//! BYTES: words of a line, each hex in pieces or a text in quotes.

ghost use Rattle.std.specs.Prelude.{◌≡◌, ◌≢◌, ◌++◌, ◌∷◌, [], IfOk};
ghost use Rattle.std.specs.List.{repeat};
ghost use Rattle.hex.specs.Hex.{decode_of, encode_lower};
ghost use Rattle.hex.specs.declared.error.FromHexError.TheVariants.{OutOfMemory};
ghost use Rattle.scenario_words.specs.declared.cause.Cause.TheVariants.{Memory, Token};
ghost use Rattle.scenario_words.specs.Words.{parts, words};
ghost use Rattle.scenario_words.specs.Reading.{Gives, Reads};
ghost use Rattle.case_text.specs.BytesWords.{all_digits, bytes_at, bytes_of, hex_at, hex_of, hex_up_to_at, or_token, plain_hex};
ghost use Rattle.case_text.specs.BytesWords.{text_hex, times_after, word_hex};

use crate::digits::Digits;
use crate::pieces::{digits_in, pieces_of, repeated, times_of};
use crate::stating::only_text;
use hex::FromHexError;
use octets::Bytes;
use scenario_words::{Cause, cut, end, first_word, is_name, next_word};
use std::alloc::{AllocError, Global};

fn times_after(behind: &[u8]) -> Result<u32, Cause>
    ensures { Reads (λ n. n) result (times_after behind.now) }
{
    match behind {
        [] => Ok(1),
        [b'*', count @ ..] => times_of(count),
        _ => Err(Cause::Token),
    }
}

/// A text with the quotes before and after it.
fn in_quotes(alloc: Global, inside: &[u8]) -> Result<Vec<u8>, AllocError>
    ensures { IfOk result (λ v. v.items ≡ 34 ∷ inside.now ++ 34 ∷ []) }
{
    let mut word = Vec::new(alloc);
    word.push(b'"')?;
    word.extend_from_slice(inside)?;
    word.push(b'"')?;
    Ok(word)
}

/// The hex of these bytes, repeated.
fn repeated_hex(alloc: Global, bytes: &[u8], times: u32) -> Result<Vec<u8>, AllocError>
    ensures { IfOk result (λ v. v.items ≡ repeat times (encode_lower bytes.now)) }
{
    let hex = hex::encode(alloc, bytes)?;
    repeated(alloc, hex.as_str().as_bytes(), times)
}

/// The hex of a text by what stands in its quotes, and of what stands behind them.
fn quoted_hex(alloc: Global, inside: &[u8], behind: &[u8]) -> Result<Vec<u8>, Cause>
    ensures { Gives (λ v. v.items) result (text_hex (inside.now ∷ behind.now ∷ [])) }
{
    let word = in_quotes(alloc, inside)?;
    let text = only_text(alloc, word.as_slice())?;
    let times = times_after(behind)?;
    Ok(repeated_hex(alloc, text.as_str().as_bytes(), times)?)
}

#[tactic(auto, using(crate::proofs::Parts::too_many_quotes))]
fn text_hex(alloc: Global, rest: &[u8]) -> Result<Vec<u8>, Cause>
    ensures { Gives (λ v. v.items) result (text_hex (parts 34 rest.now)) }
{
    let (inside, behind) = cut(rest, b'"');
    let Some(behind) = behind else {
        return Err(Cause::Token);
    };
    let (count, more) = cut(behind, b'"');
    if more.is_some() {
        return Err(Cause::Token);
    }
    quoted_hex(alloc, inside, count)
}

fn plain_hex(alloc: Global, word: &[u8]) -> Result<Vec<u8>, Cause>
    ensures { Gives (λ v. v.items) result (plain_hex word.now) }
{
    if is_name(word, "-") {
        return Ok(Vec::new(alloc));
    }
    pieces_of(alloc, word)
}

fn word_hex(alloc: Global, word: &[u8]) -> Result<Vec<u8>, Cause>
    ensures { Gives (λ v. v.items) result (word_hex word.now) }
{
    match word {
        [b'"', rest @ ..] => text_hex(alloc, rest),
        _ => plain_hex(alloc, word),
    }
}

/// The hex of the words of a line up to `at`, and the line from there on.
fn hex_up_to_at(alloc: Global, line: &[u8]) -> Result<(Vec<u8>, &[u8]), Cause>
    ensures { Gives (λ x. (x.0.items, words x.1.now)) result (hex_up_to_at (words line.now)) }
{
    let mut all = Vec::new(alloc);
    let mut rest = line;
    while let Some((word, behind)) = next_word(rest) {
        if is_name(word, "at") {
            return Ok((all, rest));
        }
        let hex = word_hex(alloc, word)?;
        all.extend_from_slice(hex.as_slice())?;
        rest = behind;
    }
    Ok((all, rest))
}

/// The same, of at least one word.
fn hex_at(alloc: Global, line: &[u8]) -> Result<(Vec<u8>, &[u8]), Cause>
    ensures { Gives (λ x. (x.0.items, words x.1.now)) result (hex_at (words line.now)) }
{
    let (word, line) = first_word(line)?;
    let mut all = word_hex(alloc, word)?;
    let (others, line) = hex_up_to_at(alloc, line)?;
    all.extend_from_slice(others.as_slice())?;
    Ok((all, line))
}

fn hex_of(alloc: Global, line: &[u8]) -> Result<Vec<u8>, Cause>
    ensures { Gives (λ v. v.items) result (hex_of (words line.now)) }
{
    let (hex, line) = hex_at(alloc, line)?;
    end(line)?;
    Ok(hex)
}

/// Why hex is refused.
fn hex_cause(error: FromHexError) -> Cause
    ensures memory { error ≡ OutOfMemory → result ≡ Memory }
    ensures token { error ≢ OutOfMemory → result ≡ Token }
{
    match error {
        FromHexError::OutOfMemory => Cause::Memory,
        _ => Cause::Token,
    }
}

/// The bytes of hex.
fn decoded(alloc: Global, hex: &[u8]) -> Result<Bytes, Cause>
    ensures { Gives (λ b. b) result (or_token (decode_of hex.now)) }
{
    match hex::decode(alloc, hex) {
        Ok(bytes) => Ok(Bytes::from_vec(bytes)),
        Err(error) => Err(hex_cause(error)),
    }
}

/// The bytes that a line of BYTES gives.
pub(crate) fn bytes_of(alloc: Global, line: &[u8]) -> Result<Bytes, Cause>
    ensures { Gives (λ b. b) result (bytes_of (words line.now)) }
{
    let hex = hex_of(alloc, line)?;
    decoded(alloc, hex.as_slice())
}

/// The digits that a line of BYTES states.
pub(crate) fn digits_of_line(alloc: Global, line: &[u8]) -> Result<Digits, Cause>
    ensures { Gives (λ d. d) result (all_digits (words line.now)) }
{
    let hex = hex_of(alloc, line)?;
    Ok(Digits::from_vec(digits_in(alloc, hex.as_slice())?))
}

/// The bytes of the words up to `at`, and the line from there on.
pub(crate) fn bytes_at(alloc: Global, line: &[u8]) -> Result<(Bytes, &[u8]), Cause>
    ensures { Gives (λ x. (x.0, words x.1.now)) result (bytes_at (words line.now)) }
{
    let (hex, line) = hex_at(alloc, line)?;
    let bytes = decoded(alloc, hex.as_slice())?;
    Ok((bytes, line))
}
