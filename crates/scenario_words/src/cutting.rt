ghost use Rattle.std.specs.Prelude.{◌≡◌, ◌==◌, ◌<◌, ◌∷◌, length, option_map, [], IfSome, MatchOption, position};
ghost use Rattle.scenario_words.specs.Words.{parts, parts_behind, lines, HasTwo};

use memchr::memchr;

/// Where the first byte is that is this one, if one is.
fn place_of(bytes: &[u8], byte: u8) -> Option<usize>
    ensures { result ≡ position (λ b. b == byte) bytes.now }
{
    memchr(byte, bytes)
}

/// What stands before the first byte that is this one, and, where there is one, what stands after it.
pub fn cut(bytes: &[u8], byte: u8) -> (&[u8], Option<&[u8]>)
    ensures parts { parts byte bytes.now ≡ result.0.now ∷ parts_behind byte (option_map (λ x. x.now) result.1) }
    ensures shorter { IfSome result.1 (λ x. length x.now < length bytes.now) }
{
    match place_of(bytes, byte) {
        Some(place) => (&bytes[..place], Some(&bytes[place + 1..])),
        None => (bytes, None),
    }
}

/// The bytes, where none of them is this one.
pub(crate) fn last(bytes: &[u8], byte: u8) -> Option<&[u8]>
    ensures { MatchOption result
        (HasTwo (parts byte bytes.now))
        (λ x. parts byte bytes.now ≡ x.now ∷ []) }
{
    match place_of(bytes, byte) {
        Some(_) => None,
        None => Some(bytes),
    }
}

/// The first line of a text, and what stands after the LF that ends it, where one does.
pub fn next_line(text: &[u8]) -> (&[u8], Option<&[u8]>)
    ensures first { lines text.now ≡ result.0.now ∷ parts_behind 10 (option_map (λ x. x.now) result.1) }
    ensures shorter { IfSome result.1 (λ x. length x.now < length text.now) }
{
    cut(text, b'\n')
}
