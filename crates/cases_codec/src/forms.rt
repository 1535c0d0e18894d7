//! The words of questions and answers: bytes in hex with runs, text with escapes.

use crate::question::Question;
use case_sheet::Sheet;

/// The most bytes of one word: some more than a TLV content may have.
const MOST: u64 = 33_554_432;

/// The next word as bytes in hex.
pub fn bytes(question: &mut Question<'_>) -> Vec<u8> {
    let word = question.word();
    hex(question, word)
}

/// The last word as bytes in hex.
pub fn last_bytes(question: &mut Question<'_>) -> Vec<u8> {
    let bytes = bytes(question);
    question.end();
    bytes
}

/// The bytes of a word in hex, `-` for none: pieces joined by `+`, of which `XX..*N` stands for N times these bytes.
pub fn hex(question: &mut Question<'_>, word: &str) -> Vec<u8> {
    let mut out = Vec::new(question.alloc());
    if word != "-" {
        for piece in word.split('+') {
            add_piece(question, &mut out, piece);
        }
    }
    out
}

fn add_piece(question: &mut Question<'_>, out: &mut Vec<u8>, piece: &str) {
    match piece.split_once('*') {
        Some((digits, count)) => {
            let count = count_of(question, count);
            add_digits(question, out, digits, count);
        }
        None => add_digits(question, out, piece, 1),
    }
}

/// How often bytes are repeated.
fn count_of(question: &mut Question<'_>, word: &str) -> u64 {
    match word.parse::<u64>() {
        Ok(count) if count <= MOST => count,
        _ => {
            question.refuse("not a count of repeated bytes");
            1
        }
    }
}

/// Adds the bytes of these digits n times.
fn add_digits(question: &mut Question<'_>, out: &mut Vec<u8>, digits: &str, count: u64) {
    match hex::decode(question.alloc(), digits) {
        Ok(bytes) => repeat(question, out, bytes.as_slice(), count),
        Err(hex::FromHexError::OutOfMemory) => question.cut(),
        Err(_) => question.refuse("not bytes in hex"),
    }
}

/// Adds bytes n times.
fn repeat(question: &mut Question<'_>, out: &mut Vec<u8>, bytes: &[u8], count: u64) {
    if bytes.is_empty() {
        question.refuse("not bytes in hex");
        return;
    }
    for _ in 0..count {
        if out.len() as u64 > MOST {
            question.refuse("too many bytes");
            return;
        }
        if out.extend_from_slice(bytes).is_err() {
            question.cut();
            return;
        }
    }
}

/// What is left of a question, as the bytes of a text.
pub fn text(question: &mut Question<'_>) -> Vec<u8> {
    let words = question.rest();
    text_of(question, words)
}

/// The bytes of a text: `%XX` is the byte of these two hex digits, `%XX*N` that byte N times, `%-` alone no byte, and
/// any other character stands for itself.
pub fn text_of(question: &mut Question<'_>, words: &str) -> Vec<u8> {
    let mut out = Vec::new(question.alloc());
    if words.is_empty() {
        question.refuse("the text is missing, %- is the empty one");
    } else if words != "%-" {
        add_text(question, &mut out, words);
    }
    out
}

/// Adds the pieces of a text, of which all but the first are escapes.
fn add_text(question: &mut Question<'_>, out: &mut Vec<u8>, words: &str) {
    let mut is_escape = false;
    for piece in words.split('%') {
        add_text_piece(question, out, piece, is_escape);
        is_escape = true;
    }
}

fn add_text_piece(question: &mut Question<'_>, out: &mut Vec<u8>, piece: &str, is_escape: bool) {
    if is_escape {
        add_escape(question, out, piece);
    } else {
        add_plain(question, out, piece);
    }
}

fn add_plain(question: &mut Question<'_>, out: &mut Vec<u8>, words: &str) {
    if out.extend_from_slice(words.as_bytes()).is_err() {
        question.cut();
    }
}

/// Adds what an escape without its `%` stands for, and what stands after it.
fn add_escape(question: &mut Question<'_>, out: &mut Vec<u8>, piece: &str) {
    let Some((digits, behind)) = piece.split_at_checked(2) else {
        question.refuse("% without two hex digits");
        return;
    };
    match behind.strip_prefix('*') {
        Some(tail) => add_run(question, out, digits, tail),
        None => {
            add_digits(question, out, digits, 1);
            add_plain(question, out, behind);
        }
    }
}

/// Adds a byte as often as a number says, and what stands after that number.
fn add_run(question: &mut Question<'_>, out: &mut Vec<u8>, digits: &str, tail: &str) {
    let behind = tail.trim_start_matches(|c: char| c.is_ascii_digit());
    let count = count_of(question, tail.strip_suffix(behind).unwrap_or(""));
    add_digits(question, out, digits, count);
    add_plain(question, out, behind);
}

/// Adds an item to a list.
pub fn push<T: Drop>(question: &mut Question<'_>, list: &mut Vec<T>, item: T) {
    if list.push(item).is_err() {
        question.cut();
    }
}

/// How many equal bytes in a row are written out, before they are written as a run.
const ROW: usize = 32;

/// Adds bytes as a word in hex: upper case, `-` for none, and more than 32 equal bytes in a row as `XX*N`.
pub fn put_hex(out: &mut Sheet, bytes: &[u8]) {
    if bytes.is_empty() {
        out.put("-");
    }
    let mut is_first = true;
    let mut is_apart = false;
    for row in bytes.chunk_by(|a, b| a == b) {
        let is_run = row.len() > ROW;
        if !is_first && (is_apart || is_run) {
            out.put("+");
        }
        put_row(out, row, is_run);
        is_first = false;
        is_apart = is_run;
    }
}

fn put_row(out: &mut Sheet, row: &[u8], is_run: bool) {
    if let Some(byte) = row.first()
        && is_run
    {
        put_run(out, *byte, row.len());
    } else {
        out.put_hex(row);
    }
}

fn put_run(out: &mut Sheet, byte: u8, count: usize) {
    out.put_hex(&[byte]);
    out.put("*");
    out.put_number(count as u64);
}

/// Adds a text as it is; `%-` for the empty one.
pub fn put_text(out: &mut Sheet, text: &str) {
    out.put(if text.is_empty() { "%-" } else { text });
}
