ghost use Rattle.std.specs.Prelude.{◌≡◌, ◌≢◌, ◌++◌, ◌∷◌, [], ℕ, List, ◌<◌, ◌+◌, ◌%◌, true, false, codes, length, Ok};
ghost use Rattle.std.specs.Prelude.{Err, IfOk, OnOk};
ghost use Rattle.std.specs.Str.{bytes_eq};
ghost use Rattle.std.specs.String.{string_bytes};
ghost use Rattle.hex.specs.declared.error.FromHexError.TheVariants.{OutOfMemory};
ghost use Rattle.scenario_words.specs.declared.cause.Cause.TheVariants.{Token, Missing, Memory};
ghost use Rattle.scenario_words.specs.Words.{words};
ghost use Rattle.scenario_words.specs.Reading.{Gives, word_by};
ghost use Rattle.scenario_words.specs.HexWord.{bytes_of, digit_of, hex_byte, hex_word};

use crate::cause::Cause;
use crate::line::{first_word, is_name};
use hex::FromHexError;
use octets::Bytes;
use std::alloc::{AllocError, Global};

/// Why a hex word was not read.
fn hex_cause(error: FromHexError) -> Cause
    ensures memory { error ≡ OutOfMemory → result ≡ Memory }
    ensures token { error ≢ OutOfMemory → result ≡ Token }
{
    match error {
        FromHexError::OutOfMemory => Cause::Memory,
        _ => Cause::Token,
    }
}

/// The bytes of a hex word.
pub(crate) fn bytes_of(alloc: Global, word: &[u8]) -> Result<Bytes, Cause>
    ensures read { Gives (λ b. b) result (bytes_of word.now) }
    ensures none { bytes_eq word.now (codes "-") ≡ true → result ≡ Ok [] }
    ensures odd { bytes_eq word.now (codes "-") ≡ false → length word.now % 2 ≡ 1 → result ≡ Err Token }
{
    if is_name(word, "-") {
        return Ok(Bytes::new(alloc));
    }
    match hex::decode(alloc, word) {
        Ok(bytes) => Ok(Bytes::from_vec(bytes)),
        Err(error) => Err(hex_cause(error)),
    }
}

/// The first word of the line as bytes in hex, in either case, with `-` for none, and the line after it.
pub fn hex_bytes(alloc: Global, line: &[u8]) -> Result<(Bytes, &[u8]), Cause>
    ensures read { Gives (λ x. (x.0, words x.1.now)) result (word_by bytes_of (words line.now)) }
    ensures missing { words line.now ≡ [] → result ≡ Err Missing }
    ensures odd { (w : List ℕ) (ws : List (List ℕ))
        → words line.now ≡ w ∷ ws → bytes_eq w (codes "-") ≡ false → length w % 2 ≡ 1
        → result ≡ Err Token }
{
    let (word, line) = first_word(line)?;
    let bytes = bytes_of(alloc, word)?;
    Ok((bytes, line))
}

/// The hex digit, in upper case, of a value below 16.
fn digit_of(value: u8) -> u8
    requires { value < 16 }
    ensures digit { result ≡ digit_of value }
    ensures ascii { result < 128 }
{
    if value < 10 {
        b'0' + value
    } else {
        b'A' - 10 + value
    }
}

/// Writes a byte in upper-case hex.
pub(crate) fn put_byte(out: &mut String, byte: u8) -> Result<(), AllocError>
    ensures { OnOk result (string_bytes out.new ≡ string_bytes out.old ++ hex_byte byte) }
{
    let high = char::from(digit_of(byte / 16));
    let low = char::from(digit_of(byte % 16));
    out.push(high)?;
    out.push(low)
}

/// Bytes in upper-case hex, or `-` for none.
pub fn hex_word(alloc: Global, bytes: &[u8]) -> Result<String, AllocError>
    ensures { IfOk result (λ s. string_bytes s ≡ hex_word bytes.now) }
{
    if bytes.is_empty() {
        return String::from_str(alloc, "-");
    }
    hex::encode_upper(alloc, bytes)
}
