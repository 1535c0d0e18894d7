ghost use Rattle.std.specs.Prelude.{◌≡◌, ◌<◌, ◌≤◌, ◌^◌, ◌⊎◌, true, false, length, slice_index, nat_le, nat_lt, ◌==◌, ◌&&◌};
ghost use Rattle.std.specs.Prelude.{◌||◌, MatchOption, IfOk, Ok, Err, if◌then◌else◌};
ghost use Rattle.std.specs.Str.{IsUtf8};
ghost use Rattle.std.specs.Str.Parse.{digits_value};
ghost use Rattle.std.specs.Char.{is_ascii_digit};
ghost use Rattle.std.specs.List.{list_all};
ghost use Rattle.scenario_words.specs.declared.cause.Cause.TheVariants.{Range};
ghost use Rattle.scenario_words.specs.Words.{words};
ghost use Rattle.scenario_words.specs.Reading.{Reads, word_by};
ghost use Rattle.scenario_words.specs.Number.{is_natural, is_number, number_of, integer_value, is_64_bits, integer_of};

use crate::cause::Cause;
use crate::line::first_word;

fn are_digits(bytes: &[u8]) -> bool
    ensures { result ≡ list_all is_ascii_digit bytes.now }
{
    bytes.iter().all(|b| b.is_ascii_digit())
}

/// Whether there are bytes, and no zero in front of others.
fn begins_as_number(word: &[u8]) -> bool
    ensures { result ≡ (nat_lt 0 (length word.now)
        && (nat_lt 48 (slice_index word.now 0) || length word.now == 1)) }
{
    !word.is_empty() && (word[0] > b'0' || word.len() == 1)
}

fn is_natural(word: &[u8]) -> bool
    ensures { result ≡ is_natural word.now }
{
    are_digits(word) && begins_as_number(word)
}

/// Whether the word is a number: decimal digits with no needless zero, and for a number below 0 a
/// minus sign in front.
pub(crate) fn is_number(word: &[u8]) -> bool
    ensures { result ≡ is_number word.now }
{
    match word {
        [] => false,
        [b'-', digits @ ..] => is_natural(digits) && digits[0] > b'0',
        _ => is_natural(word),
    }
}

/// The text that bytes are, where they are UTF-8.
pub(crate) fn utf8_of(bytes: &[u8]) -> Option<&str>
    ensures { MatchOption result (¬ (IsUtf8 bytes.now)) (λ s. (s.now ≡ bytes.now) × IsUtf8 bytes.now) }
{
    str::from_utf8(bytes).ok()
}

/// The number that digits write, where it is below 2^64.
fn natural_value(digits: &[u8]) -> Option<u64>
    requires { is_natural digits.now ≡ true }
    ensures { MatchOption result (2 ^ 64 ≤ digits_value 10 digits.now) (λ n. n ≡ digits_value 10 digits.now) }
{
    let text = utf8_of(digits)?;
    text.parse::<u64>().ok()
}

/// The number that up to 18 digits write, or none where one of the bytes is no digit.
fn digits_number(bytes: &[u8]) -> Option<u64>
    requires { length bytes.now ≤ 18 }
    ensures { MatchOption result
        (list_all is_ascii_digit bytes.now ≡ false)
        (λ n. (list_all is_ascii_digit bytes.now ≡ true) × (n ≡ digits_value 10 bytes.now)) }
{
    let mut number = 0;
    for byte in bytes {
        if !byte.is_ascii_digit() {
            return None;
        }
        number = number * 10 + u64::from(*byte - b'0');
    }
    Some(number)
}

/// The number of a word of up to 18 digits with no needless zero, as most words of numbers are.
fn short_natural(word: &[u8]) -> Option<u64>
    ensures { MatchOption result
        ((is_natural word.now ≡ false) ⊎ (18 < length word.now))
        (λ n. (is_natural word.now ≡ true) × (n ≡ digits_value 10 word.now) × (n < 10 ^ 18)) }
{
    if word.len() > 18 {
        return None;
    }
    if !begins_as_number(word) {
        return None;
    }
    digits_number(word)
}

/// A number that has to be from `low` to `high`.
fn in_range(number: u64, low: u64, high: u64) -> Result<u64, Cause>
    ensures { result ≡ (if nat_le low number && nat_le number high then Ok number else Err Range) }
{
    if low <= number && number <= high {
        Ok(number)
    } else {
        Err(Cause::Range)
    }
}

/// The number of a word that has to be from `low` to `high`.
#[tactic(auto, using(crate::proofs::Short::natural_read))]
pub(crate) fn number_of(word: &[u8], low: u64, high: u64) -> Result<u64, Cause>
    ensures { Reads (λ n. n) result (number_of low high word.now) }
{
    match short_natural(word) {
        Some(number) => in_range(number, low, high),
        None => other_number(word, low, high),
    }
}

/// The same of any word, also of one that is no short number. It stands apart, so that what is usual stays small.
#[inline(never)]
fn other_number(word: &[u8], low: u64, high: u64) -> Result<u64, Cause>
    ensures { Reads (λ n. n) result (number_of low high word.now) }
{
    if !is_number(word) {
        return Err(Cause::Token);
    }
    if !is_natural(word) {
        return Err(Cause::Range);
    }
    match natural_value(word) {
        Some(number) if low <= number && number <= high => Ok(number),
        _ => Err(Cause::Range),
    }
}

/// The integer that a number's word stands for, where it has 64 bits.
fn integer_value(word: &[u8]) -> Option<i64>
    requires { is_number word.now ≡ true }
    ensures { MatchOption result (is_64_bits (integer_value word.now) ≡ false)
        (λ z. (z ≡ integer_value word.now) × (is_64_bits (integer_value word.now) ≡ true)) }
{
    let text = utf8_of(word)?;
    text.parse::<i64>().ok()
}

/// The integer of a word.
#[tactic(auto, using(crate::proofs::Short::integer_read))]
pub(crate) fn integer_of(word: &[u8]) -> Result<i64, Cause>
    ensures { Reads (λ z. z) result (integer_of word.now) }
{
    match short_natural(word) {
        Some(number) => Ok(number as i64),
        None => other_integer(word),
    }
}

/// The same of any word, also of one that is no short number. It stands apart, so that what is usual stays small.
#[inline(never)]
fn other_integer(word: &[u8]) -> Result<i64, Cause>
    ensures { Reads (λ z. z) result (integer_of word.now) }
{
    if !is_number(word) {
        return Err(Cause::Token);
    }
    integer_value(word).ok_or(Cause::Range)
}

/// The first word of the line as a number from `low` to `high`, and the line after it.
pub fn natural(line: &[u8], low: u64, high: u64) -> Result<(u64, &[u8]), Cause>
    ensures read { Reads (λ x. (x.0, words x.1.now)) result (word_by (number_of low high) (words line.now)) }
    ensures range { IfOk result (λ x. (low ≤ x.0) × (x.0 ≤ high)) }
{
    let (word, line) = first_word(line)?;
    let number = number_of(word, low, high)?;
    Ok((number, line))
}

/// The first word of the line as an integer of 64 bits, and the line after it.
pub fn integer(line: &[u8]) -> Result<(i64, &[u8]), Cause>
    ensures { Reads (λ x. (x.0, words x.1.now)) result (word_by integer_of (words line.now)) }
{
    let (word, line) = first_word(line)?;
    let number = integer_of(word)?;
    Ok((number, line))
}
