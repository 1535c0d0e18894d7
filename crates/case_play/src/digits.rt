//! The hex digits of bytes, beside those that are stated.

ghost use Rattle.std.specs.Prelude.{◌↔◌, IsTrue};
ghost use Rattle.case_play.specs.Digits.{Allows, Matches};

use case_text::Digit;

fn allows(digit: Digit, n: u8) -> bool
    ensures { IsTrue result ↔ Allows digit n }
{
    match digit {
        Digit::Any => true,
        Digit::Is(value) => n == value,
    }
}

/// Whether these are the digits of the bytes, two a byte, where `Any` stands for each.
pub fn matches(digits: &[Digit], bytes: &[u8]) -> bool
    ensures { IsTrue result ↔ Matches digits.now bytes.now }
{
    if digits.len() % 2 != 0 || digits.len() / 2 != bytes.len() {
        return false;
    }
    for (i, byte) in bytes.iter().enumerate() {
        if !allows(digits[2 * i], *byte / 16) {
            return false;
        }
        if !allows(digits[2 * i + 1], *byte % 16) {
            return false;
        }
    }
    true
}
