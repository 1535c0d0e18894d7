ghost use Rattle.std.specs.Prelude.{◌≡◌, ◌≢◌, ℕ, List, slice_index, Err, ◌++◌, ◌∷◌, [], ◌<◌, ◌+◌, length, Some, None};
ghost use Rattle.std.specs.Prelude.{true, false, IfOk, OnOk, MatchOption, if◌then◌else◌};
ghost use Rattle.std.specs.String.{string_bytes};
ghost use Rattle.std.specs.List.{flat_map, list_all};
ghost use Rattle.std.specs.Str.{is_utf8, bytes_eq};
ghost use Rattle.hex.specs.Hex.{hex_digit_value};
ghost use Rattle.scenario_words.specs.declared.cause.Cause.TheVariants.{Token, Missing};
ghost use Rattle.scenario_words.specs.Words.{words};
ghost use Rattle.scenario_words.specs.Reading.{Gives, word_by};
ghost use Rattle.scenario_words.specs.HexWord.{or_token, with_first_byte};
ghost use Rattle.scenario_words.specs.Quoted.{is_plain, unquoted_bytes, text_of, escaped_byte, quoted_word};

use crate::cause::Cause;
use crate::hex_words::put_byte;
use crate::line::first_word;
use crate::number::utf8_of;
use lwm2m_values::Text;
use std::alloc::{AllocError, Global};

/// Whether a byte stands for itself in quotes.
pub fn is_plain(byte: u8) -> bool
    ensures { result ≡ is_plain byte }
{
    (32 <= byte && byte <= 126) && (byte != b'"' && byte != b'\\')
}

/// Returns the value of a hex digit, in either case.
pub fn hex_digit_value(digit: u8) -> Option<u8>
    ensures value { result ≡ hex_digit_value digit }
    ensures small { MatchOption result (Unit {0}) (λ v. v < 16) }
{
    match digit {
        b'A'..=b'F' => Some(digit - 55),
        b'a'..=b'f' => Some(digit - 87),
        b'0'..=b'9' => Some(digit - 48),
        _ => None,
    }
}

/// The byte that stands in quotes at the front, by itself or as an escape, and what stands after it.
fn byte_at(bytes: &[u8]) -> Option<(u8, &[u8])>
    ensures byte { MatchOption result
        (unquoted_bytes bytes.now ≡ (if bytes_eq bytes.now (34 ∷ []) then Some [] else None))
        (λ x. unquoted_bytes bytes.now ≡ with_first_byte x.0 (unquoted_bytes x.1.now)) }
    ensures shorter { MatchOption result (Unit {0}) (λ x. length x.1.now < length bytes.now) }
{
    match bytes {
        [b'\\', high, low, behind @ ..] => {
            let high = hex_digit_value(*high)?;
            let low = hex_digit_value(*low)?;
            Some((high * 16 + low, behind))
        }
        [byte, behind @ ..] if is_plain(*byte) => Some((*byte, behind)),
        _ => None,
    }
}

/// The bytes that stand in quotes, up to the closing one.
fn unquoted(alloc: Global, body: &[u8]) -> Result<Vec<u8>, Cause>
    ensures { Gives (λ t. t.items) result (or_token (unquoted_bytes body.now)) }
{
    let mut text = Vec::new(alloc);
    let mut rest = body;
    while let Some((byte, behind)) = byte_at(rest) {
        text.push(byte)?;
        rest = behind;
    }
    if rest == b"\"".as_slice() {
        Ok(text)
    } else {
        Err(Cause::Token)
    }
}

/// The text that bytes are, where they are UTF-8.
fn checked(bytes: &[u8]) -> Option<&str>
    ensures { MatchOption result (is_utf8 bytes.now ≡ false) (λ s. (s.now ≡ bytes.now) × (is_utf8 bytes.now ≡ true)) }
{
    utf8_of(bytes)
}

/// The text of a quoted word.
pub(crate) fn text_of(alloc: Global, word: &[u8]) -> Result<Text, Cause>
    ensures read { Gives (λ t. t) result (text_of word.now) }
    ensures bare { slice_index word.now 0 ≢ 34 → result ≡ Err Token }
{
    let [b'"', body @ ..] = word else {
        return Err(Cause::Token);
    };
    let bytes = unquoted(alloc, body)?;
    match checked(bytes.as_slice()) {
        Some(text) => Ok(Text::from_str(alloc, text)?),
        None => Err(Cause::Token),
    }
}

/// The first word of the line as a text in quotes, and the line after it.
pub fn quoted(alloc: Global, line: &[u8]) -> Result<(Text, &[u8]), Cause>
    ensures read { Gives (λ x. (x.0, words x.1.now)) result (word_by text_of (words line.now)) }
    ensures missing { words line.now ≡ [] → result ≡ Err Missing }
    ensures bare { (w : List ℕ) (ws : List (List ℕ))
        → words line.now ≡ w ∷ ws → slice_index w 0 ≢ 34 → result ≡ Err Token }
{
    let (word, line) = first_word(line)?;
    let text = text_of(alloc, word)?;
    Ok((text, line))
}

/// Writes a byte as it stands in quotes.
fn put_escaped(out: &mut String, byte: u8) -> Result<(), AllocError>
    ensures { OnOk result (string_bytes out.new ≡ string_bytes out.old ++ escaped_byte byte) }
{
    if is_plain(byte) {
        return out.push(char::from(byte));
    }
    out.push('\\')?;
    put_byte(out, byte)
}

/// Whether each of these bytes stands for itself in quotes.
fn are_plain(bytes: &[u8]) -> bool
    ensures { result ≡ list_all is_plain bytes.now }
{
    bytes.iter().all(|b| is_plain(*b))
}

/// Writes a text as it stands between quotes.
#[tactic(auto, using(crate::proofs::Written::plain_text))]
fn put_escaped_text(out: &mut String, text: &str) -> Result<(), AllocError>
    ensures { OnOk result (string_bytes out.new ≡ string_bytes out.old ++ flat_map escaped_byte text.now) }
{
    if are_plain(text.as_bytes()) {
        return out.push_str(text);
    }
    for byte in text.as_bytes() {
        put_escaped(out, *byte)?;
    }
    Ok(())
}

/// Writes a text in quotes, with only the escapes that it needs.
pub(crate) fn put_quoted(out: &mut String, text: &str) -> Result<(), AllocError>
    ensures { OnOk result (string_bytes out.new ≡ string_bytes out.old ++ quoted_word text.now) }
{
    out.push('"')?;
    put_escaped_text(out, text)?;
    out.push('"')
}

/// A text in quotes, with only the escapes that it needs.
pub fn quoted_word(alloc: Global, text: &str) -> Result<String, AllocError>
    ensures { IfOk result (λ s. string_bytes s ≡ quoted_word text.now) }
{
    let mut out = String::with_capacity(alloc, text.len() + 2)?;
    put_quoted(&mut out, text)?;
    Ok(out)
}
