ghost use Rattle.std.specs.Prelude.{◌≡◌, ◌==◌, length, position, ◌<◌, ◌≤◌, ◌^◌, pos, neg_ℤ, option_map, IfSome};
ghost use Rattle.notifier.specs.Query.{digits_of, seconds_of, fraction_of, unsigned_of, thousandths_of, above_zero};
ghost use Rattle.notifier.specs.Query.{attribute_number};

use crate::attribute::Name;
use lwm2m_values::number_below;

/// The place of the first such byte.
pub(crate) fn place_of(text: &[u8], byte: u8) -> Option<usize>
    ensures place { result ≡ position (λ c. c == byte) text.now }
    ensures within { IfSome result (λ i. i < length text.now) }
{
    first_place(text, byte)
}

fn first_place(text: &[u8], byte: u8) -> Option<usize>
    ensures { result ≡ position (λ c. c == byte) text.now }
{
    text.iter().position(|other| *other == byte)
}

/// The number that 1 to this many decimal digits are.
fn digits_of(text: &[u8], most: usize) -> Option<u64>
    requires { most ≤ 15 }
    ensures value { result ≡ digits_of most text.now }
    ensures fits { IfSome result (λ n. n < 10 ^ 15) }
{
    if text.len() > most {
        return None;
    }
    number_below(text, 1_000_000_000_000_000)
}

/// One more than the most seconds of pmin and pmax.
pub(crate) const TOO_LONG: u64 = 1 << 31;

/// The seconds that digits are, leading zeros among them: at most 2,147,483,647.
fn seconds_of(text: &[u8]) -> Option<i64>
    ensures { result ≡ option_map pos (seconds_of text.now) }
{
    match number_below(text, TOO_LONG) {
        Some(seconds) => Some(seconds as i64),
        None => None,
    }
}

/// The thousandths that 1 to 3 digits after a point are.
fn fraction_of(text: &[u8]) -> Option<u64>
    ensures value { result ≡ fraction_of text.now }
    ensures fits { IfSome result (λ n. n < 10 ^ 18) }
{
    let number = digits_of(text, 3)?;
    match text.len() {
        1 => Some(number * 100),
        2 => Some(number * 10),
        _ => Some(number),
    }
}

/// The thousandths that 1 to 15 digits are, with a point and 1 to 3 digits after them or not.
pub(crate) fn unsigned_of(text: &[u8]) -> Option<i64>
    ensures { result ≡ option_map pos (unsigned_of text.now) }
{
    match place_of(text, b'.') {
        Some(point) => {
            let whole = digits_of(&text[..point], 15)?;
            let fraction = fraction_of(&text[point + 1..])?;
            Some((whole * 1000 + fraction) as i64)
        }
        None => {
            let whole = digits_of(text, 15)?;
            Some((whole * 1000) as i64)
        }
    }
}

/// The thousandths below 0 that such a text is.
fn negative(text: &[u8]) -> Option<i64>
    ensures { result ≡ option_map (λ n. neg_ℤ (pos n)) (unsigned_of text.now) }
{
    let number = unsigned_of(text)?;
    Some(-number)
}

/// The thousandths that such a text is, after a minus sign or without one.
fn thousandths_of(text: &[u8]) -> Option<i64>
    ensures { result ≡ thousandths_of text.now }
{
    if !text.is_empty() && text[0] == b'-' {
        return negative(&text[1..]);
    }
    unsigned_of(text)
}

/// A number above 0.
fn above_zero(number: i64) -> Option<i64>
    ensures { result ≡ above_zero number }
{
    if 0 < number { Some(number) } else { None }
}

/// The number of an attribute that a text spells: seconds of pmin and pmax, thousandths of the
/// others.
pub(crate) fn attribute_number(name: Name, text: &[u8]) -> Option<i64>
    ensures { result ≡ attribute_number name text.now }
{
    match name {
        Name::Pmin => seconds_of(text),
        Name::Pmax => seconds_of(text),
        Name::Gt => thousandths_of(text),
        Name::Lt => thousandths_of(text),
        Name::St => above_zero(thousandths_of(text)?),
    }
}
