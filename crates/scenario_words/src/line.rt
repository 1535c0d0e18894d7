ghost use Rattle.std.specs.Prelude.{◌≡◌, ◌==◌, not, ◌&&◌, ◌||◌, ◌≢◌, ◌<◌, ◌≤◌, ◌∷◌, [], length, slice_index, take};
ghost use Rattle.std.specs.Prelude.{drop, MatchOption};
ghost use Rattle.std.specs.Str.{bytes_eq};
ghost use Rattle.scenario_words.specs.Words.{words};
ghost use Rattle.scenario_words.specs.Reading.{Reads, first_of, check_of_end};

use crate::cause::Cause;

/// The line from its first byte on that is no space.
fn behind_spaces(line: &[u8]) -> &[u8]
    ensures same { words result.now ≡ words line.now }
    ensures first { 0 < length result.now → slice_index result.now 0 ≢ 32 }
{
    let mut rest = line;
    while let [b' ', after @ ..] = rest {
        rest = after;
    }
    rest
}

/// Whether a byte belongs to the word, in quotes or not.
fn is_in_word(quoted: bool, byte: u8) -> bool
    ensures { result ≡ (quoted || not (byte == 32)) }
{
    quoted || byte != b' '
}

/// Whether quotes are open after a byte.
fn stays_quoted(quoted: bool, byte: u8) -> bool
    ensures { result ≡ (quoted && not (byte == 34)) }
{
    quoted && byte != b'"'
}

/// How long the word is that a line begins with, which begins with quotes; they are included.
fn quoted_len(line: &[u8]) -> usize
    requires some { 0 < length line.now }
    requires quotes { slice_index line.now 0 ≡ 34 }
    ensures within { result ≤ length line.now }
    ensures word { words line.now ≡ take result line.now ∷ words (drop result line.now) }
{
    let mut quoted = true;
    let mut len = 1;
    while len < line.len() && is_in_word(quoted, line[len]) {
        quoted = stays_quoted(quoted, line[len]);
        len += 1;
    }
    len
}

/// How long the word is that a line begins with, which does not begin with quotes: it goes to the first space.
fn plain_len(line: &[u8]) -> usize
    requires some { 0 < length line.now }
    requires no_space { slice_index line.now 0 ≢ 32 }
    requires no_comment { slice_index line.now 0 ≢ 35 }
    requires no_quotes { slice_index line.now 0 ≢ 34 }
    ensures within { result ≤ length line.now }
    ensures word { words line.now ≡ take result line.now ∷ words (drop result line.now) }
{
    let mut len = 1;
    while len < line.len() && line[len] != b' ' {
        len += 1;
    }
    len
}

/// How long the word is that a line begins with, its quotes included.
fn word_len(line: &[u8]) -> usize
    requires some { 0 < length line.now }
    requires no_space { slice_index line.now 0 ≢ 32 }
    requires no_comment { slice_index line.now 0 ≢ 35 }
    ensures within { result ≤ length line.now }
    ensures word { words line.now ≡ take result line.now ∷ words (drop result line.now) }
{
    if line[0] == b'"' {
        quoted_len(line)
    } else {
        plain_len(line)
    }
}

/// The first word of a line and the line after it, or none where only spaces or a comment are left.
pub fn next_word(line: &[u8]) -> Option<(&[u8], &[u8])>
    ensures { MatchOption result (words line.now ≡ []) (λ x. words line.now ≡ x.0.now ∷ words x.1.now) }
{
    let line = behind_spaces(line);
    if line.is_empty() || line[0] == b'#' {
        return None;
    }
    let (word, rest) = line.split_at(word_len(line));
    Some((word, rest))
}

/// The first word of a line, which may not be absent, and the line after it. A word that is missing is that fault,
/// whatever memory there is.
pub fn first_word(line: &[u8]) -> Result<(&[u8], &[u8]), Cause>
    ensures { Reads (λ x. (x.0.now, words x.1.now)) result (first_of (words line.now)) }
{
    next_word(line).ok_or(Cause::Missing)
}

/// Whether bytes are the same as others of their length, byte by byte: a name is short, and its length a constant.
#[inline(always)]
fn are_same(word: &[u8], name: &[u8]) -> bool
    requires { length word.now ≡ length name.now }
    ensures { result ≡ bytes_eq word.now name.now }
{
    for i in 0..name.len() {
        if word[i] != name[i] {
            return false;
        }
    }
    true
}

/// Whether a word is this name.
#[inline]
pub fn is_name(word: &[u8], name: &str) -> bool
    ensures { result ≡ bytes_eq word.now name.now }
{
    let name = name.as_bytes();
    if word.len() != name.len() {
        return false;
    }
    are_same(word, name)
}

/// Refuses a line that has a further word.
pub fn end(line: &[u8]) -> Result<(), Cause>
    ensures { Reads (λ x. x) result (check_of_end (words line.now)) }
{
    match next_word(line) {
        Some(_) => Err(Cause::Token),
        None => Ok(()),
    }
}
