//! Where a text stops being a number of an attribute.

ghost use Rattle.std.specs.Prelude.{◌≡◌, ◌==◌, ◌≤◌, length, slice_index};
ghost use Rattle.notifier.specs.NumberEnd.{digits_in, has_point, is_zero, number_end, seconds_in, signed_end};
ghost use Rattle.notifier.specs.NumberEnd.{step_end, unsigned_end};

use crate::attribute::Name;
use crate::numerals::{TOO_LONG, unsigned_of};

/// How many of the first bytes are digits, this many at most.
fn digits_in(text: &[u8], most: usize) -> usize
    ensures count { result ≡ digits_in most text.now }
    ensures within { result ≤ length text.now }
{
    let mut count: usize = 0;
    for byte in text {
        if count == most || !byte.is_ascii_digit() {
            return count;
        }
        count += 1;
    }
    count
}

/// How many of the first bytes are digits of at most 2,147,483,647 seconds.
fn seconds_end(text: &[u8]) -> usize
    ensures end { result ≡ seconds_in 0 text.now }
    ensures within { result ≤ length text.now }
{
    let mut number: u64 = 0;
    let mut count: usize = 0;
    for byte in text {
        if !byte.is_ascii_digit() {
            return count;
        }
        number = number * 10 + u64::from(*byte - b'0');
        if number >= TOO_LONG {
            return count;
        }
        count += 1;
    }
    count
}

/// Whether a point follows these digits, if there are any.
fn has_point(text: &[u8], whole: usize) -> bool
    ensures { result ≡ has_point whole text.now }
{
    0 < whole && whole < text.len() && text[whole] == b'.'
}

/// The end of the longest beginning with which thousandths without a sign begin.
fn unsigned_end(text: &[u8]) -> usize
    ensures end { result ≡ unsigned_end text.now }
    ensures within { result ≤ length text.now }
{
    let whole = digits_in(text, 15);
    if has_point(text, whole) {
        whole + 1 + digits_in(&text[whole + 1..], 3)
    } else {
        whole
    }
}

/// Whether a text begins with a minus sign.
fn is_negative(text: &[u8]) -> bool
    ensures { result ≡ (slice_index text.now 0 == 45) }
{
    !text.is_empty() && text[0] == b'-'
}

/// The end of the longest beginning with which thousandths begin.
fn signed_end(text: &[u8]) -> usize
    ensures end { result ≡ signed_end text.now }
    ensures within { result ≤ length text.now }
{
    if is_negative(text) {
        1 + unsigned_end(&text[1..])
    } else {
        unsigned_end(text)
    }
}

/// Whether a beginning is 0, with three digits after its point: nothing above 0 begins with it.
fn is_zero(text: &[u8], end: usize) -> bool
    requires { end ≤ length text.now }
    ensures { result ≡ is_zero end text.now }
{
    5 <= end && text[end - 4] == b'.' && unsigned_of(&text[..end]) == Some(0)
}

/// The end of the longest beginning with which thousandths above 0 begin.
fn step_end(text: &[u8]) -> usize
    ensures end { result ≡ step_end text.now }
    ensures within { result ≤ length text.now }
{
    if is_negative(text) {
        return 0;
    }
    let end = unsigned_end(text);
    if is_zero(text, end) { end - 1 } else { end }
}

/// The end of the longest beginning with which a number of an attribute begins.
pub(crate) fn number_end(name: Name, text: &[u8]) -> usize
    ensures end { result ≡ number_end name text.now }
    ensures within { result ≤ length text.now }
{
    match name {
        Name::Pmin | Name::Pmax => seconds_end(text),
        Name::Gt | Name::Lt => signed_end(text),
        Name::St => step_end(text),
    }
}
