//! Lines in which words may be in pieces.

ghost use Rattle.std.specs.Prelude.{◌≡◌, ◌==◌, ◌++◌, ◌∷◌, [], IfOk, OnOk};
ghost use Rattle.std.specs.List.{list_any};
ghost use Rattle.scenario_words.specs.Words.{parts};
ghost use Rattle.case_text.specs.Expanding.{expanded_line, expanded_word, has_star};

use crate::pieces::pieces_of;
use scenario_words::{Cause, cut};
use std::alloc::{AllocError, Global};

fn has_star(word: &[u8]) -> bool
    ensures { result ≡ has_star word.now }
{
    word.iter().any(|byte| *byte == b'*')
}

/// Adds a word, or where it has a `*` and is in pieces, its hex.
fn put_word(alloc: Global, out: &mut Vec<u8>, word: &[u8]) -> Result<(), AllocError>
    ensures { OnOk result (out.new.items ≡ out.old.items ++ expanded_word word.now) }
{
    if !has_star(word) {
        return out.extend_from_slice(word);
    }
    match pieces_of(alloc, word) {
        Ok(hex) => out.extend_from_slice(hex.as_slice()),
        Err(Cause::Memory) => Err(AllocError),
        Err(_) => out.extend_from_slice(word),
    }
}

/// A line in which each word with a `*` that is in pieces stands for its hex, and a space after each word.
pub(crate) fn expanded(alloc: Global, line: &[u8]) -> Result<Vec<u8>, AllocError>
    ensures { IfOk result (λ v. v.items ≡ expanded_line (parts 32 line.now)) }
{
    let mut out = Vec::new(alloc);
    let mut left = Some(line);
    while let Some(line) = left {
        let (word, behind) = cut(line, b' ');
        put_word(alloc, &mut out, word)?;
        out.push(b' ')?;
        left = behind;
    }
    Ok(out)
}
