//! The words of an expectation, read from the left.
ghost use Rattle.std.specs.Prelude.{◌≡◌, IfOk};
ghost use Rattle.scenario_words.specs.HexWord.{bytes_of};
ghost use Rattle.scenario_words.specs.Number.{number_of};
ghost use Rattle.scenario_words.specs.Reading.{Gives, Reads};
ghost use Rattle.scenario_words.specs.Words.{words};
ghost use Rattle.scenario_mnemonics.specs.MnemonicWords.{format_of, formed_queries, last_by};
ghost use Rattle.expectations.specs.ExpectationWords.{before_within, content_at, detail_by, details_at, expected_at};
ghost use Rattle.expectations.specs.ExpectationWords.{format_at, from_within, is_over, message_at, payload_at};
ghost use Rattle.expectations.specs.ExpectationWords.{queries_at, queries_of, request_at, silence_at, what_at};
ghost use Rattle.expectations.specs.ExpectationWords.{what_named, within_at};

use crate::expectation::Expected;
use crate::what::{AskedRequest, Details, What};
use octets::Bytes;
use scenario_mnemonics::{Format, Keyword, Queries, Verb, format_of};
use scenario_words::{
    Cause, end, first_word, hex_bytes, is_name, name_fault, natural, next_word, path,
};
use std::alloc::{AllocError, Global};

/// Whether no detail stands there: it is the end, or `within`.
fn is_over(line: &[u8]) -> bool
    ensures { result ≡ is_over (words line.now) }
{
    match next_word(line) {
        None => true,
        Some((word, _)) => is_name(word, "within"),
    }
}

/// A format, which may be left out, and the line after it.
fn format(alloc: Global, line: &[u8]) -> Result<(Option<Format>, &[u8]), Cause>
    ensures { Gives (λ x. (x.0, words x.1.now)) result (detail_by format_of (words line.now)) }
{
    if is_over(line) {
        return Ok((None, line));
    }
    let (word, line) = first_word(line)?;
    let format = format_of(alloc, word)?;
    Ok((Some(format), line))
}

/// Bytes in hex, which may be left out, and the line after them.
fn payload(alloc: Global, line: &[u8]) -> Result<(Option<Bytes>, &[u8]), Cause>
    ensures { Gives (λ x. (x.0, words x.1.now)) result (detail_by bytes_of (words line.now)) }
{
    if is_over(line) {
        return Ok((None, line));
    }
    let (bytes, line) = hex_bytes(alloc, line)?;
    Ok((Some(bytes), line))
}

/// The words of a line up to its end, or to `within`, and the line from there on.
fn words_before_within(alloc: Global, line: &[u8]) -> Result<(Vec<Bytes>, &[u8]), AllocError>
    ensures { IfOk result (λ x. (x.0.items ≡ before_within (words line.now))
        × (words x.1.now ≡ from_within (words line.now))) }
{
    let mut found = Vec::new(alloc);
    let mut rest = line;
    while let Some((word, behind)) = next_word(rest) {
        if is_name(word, "within") {
            break;
        }
        found.push(Bytes::from_slice(alloc, word)?)?;
        rest = behind;
    }
    Ok((found, rest))
}

/// Queries that are all well formed.
fn formed_queries(words: Vec<Bytes>) -> Result<Queries, Cause>
    ensures { Reads (λ q. q) result (formed_queries words.items) }
{
    Queries::new(words).ok_or(Cause::Token)
}

/// The queries of these words, of which there may be none.
fn queries_of(words: Vec<Bytes>) -> Result<Option<Queries>, Cause>
    ensures { Reads (λ q. q) result (queries_of words.items) }
{
    if words.is_empty() {
        return Ok(None);
    }
    Ok(Some(formed_queries(words)?))
}

fn format_at(alloc: Global, line: &[u8]) -> Result<(Details, &[u8]), Cause>
    ensures { Gives (λ x. (x.0, words x.1.now)) result (format_at (words line.now)) }
{
    let (format, line) = format(alloc, line)?;
    let details = Details {
        format,
        payload: None,
        queries: None,
    };
    Ok((details, line))
}

fn payload_at(alloc: Global, line: &[u8]) -> Result<(Details, &[u8]), Cause>
    ensures { Gives (λ x. (x.0, words x.1.now)) result (payload_at (words line.now)) }
{
    let (payload, line) = payload(alloc, line)?;
    let details = Details {
        format: None,
        payload,
        queries: None,
    };
    Ok((details, line))
}

fn content_at(alloc: Global, line: &[u8]) -> Result<(Details, &[u8]), Cause>
    ensures { Gives (λ x. (x.0, words x.1.now)) result (content_at (words line.now)) }
{
    let (format, line) = format(alloc, line)?;
    let (payload, line) = payload(alloc, line)?;
    let details = Details {
        format,
        payload,
        queries: None,
    };
    Ok((details, line))
}

fn queries_at(alloc: Global, line: &[u8]) -> Result<(Details, &[u8]), Cause>
    ensures { Gives (λ x. (x.0, words x.1.now)) result (queries_at (words line.now)) }
{
    let (found, line) = words_before_within(alloc, line)?;
    let queries = queries_of(found)?;
    let details = Details {
        format: None,
        payload: None,
        queries,
    };
    Ok((details, line))
}

/// What is said of a request behind its path, and the line after that.
fn details_at(alloc: Global, verb: Verb, line: &[u8]) -> Result<(Details, &[u8]), Cause>
    ensures { Gives (λ x. (x.0, words x.1.now)) result (details_at verb (words line.now)) }
{
    match verb {
        Verb::Read | Verb::Observe | Verb::Cancel => format_at(alloc, line),
        Verb::Write | Verb::Update | Verb::Create => content_at(alloc, line),
        Verb::Attr => queries_at(alloc, line),
        Verb::Exec => payload_at(alloc, line),
        Verb::Discover | Verb::Delete => {
            let details = Details {
                format: None,
                payload: None,
                queries: None,
            };
            Ok((details, line))
        }
    }
}

/// A request by what stands behind its verb, and the line after it.
fn request_at(alloc: Global, verb: Verb, line: &[u8]) -> Result<(What, &[u8]), Cause>
    ensures { Gives (λ x. (x.0, words x.1.now)) result (request_at verb (words line.now)) }
{
    let (path, line) = path(line)?;
    let (details, line) = details_at(alloc, verb, line)?;
    let asked = AskedRequest {
        verb,
        path,
        details,
    };
    Ok((What::Request(asked), line))
}

/// What is sent, by its first word, and the line after it.
fn what_named<'a>(alloc: Global, word: &[u8], line: &'a [u8]) -> Result<(What, &'a [u8]), Cause>
    ensures { Gives (λ x. (x.0, words x.1.now)) result (what_named word.now (words line.now)) }
{
    if is_name(word, "ack") {
        return Ok((What::Ack, line));
    }
    match Keyword::named(word) {
        Some(Keyword::Reset) => Ok((What::Reset, line)),
        Some(Keyword::Request(verb)) => request_at(alloc, verb, line),
        None => Err(name_fault(alloc, word)),
    }
}

/// What is sent, and the line after it.
fn what_at(alloc: Global, line: &[u8]) -> Result<(What, &[u8]), Cause>
    ensures { Gives (λ x. (x.0, words x.1.now)) result (what_at (words line.now)) }
{
    let (word, line) = first_word(line)?;
    what_named(alloc, word, line)
}

/// A number of seconds and no more.
fn seconds(line: &[u8]) -> Result<u32, Cause>
    ensures { Reads (λ n. n) result (last_by (number_of 1 4294967295) (words line.now)) }
{
    let (seconds, line) = natural(line, 1, 4294967295)?;
    end(line)?;
    Ok(seconds as u32)
}

/// `within N`, which may be left out, and no more.
fn within_at(line: &[u8]) -> Result<Option<u32>, Cause>
    ensures { Reads (λ n. n) result (within_at (words line.now)) }
{
    let Some((word, line)) = next_word(line) else {
        return Ok(None);
    };
    if !is_name(word, "within") {
        return Err(Cause::Token);
    }
    Ok(Some(seconds(line)?))
}

fn message_at(alloc: Global, line: &[u8]) -> Result<Expected, Cause>
    ensures { Gives (λ e. e) result (message_at (words line.now)) }
{
    let (server, line) = natural(line, 1, 65534)?;
    let (what, line) = what_at(alloc, line)?;
    let within = within_at(line)?;
    Ok(Expected::Message {
        server: server as u16,
        what,
        within,
    })
}

fn silence_at(line: &[u8]) -> Result<Expected, Cause>
    ensures { Reads (λ e. e) result (silence_at (words line.now)) }
{
    let seconds = within_at(line)?.ok_or(Cause::Missing)?;
    Ok(Expected::Silence { seconds })
}

/// What a line says behind its `<=`. Words are read from the left, and the first fault is returned: `Missing` (no
/// word), `Token` (the wrong form, a query that no word can say, or a word too many), `UnknownWord` (what is sent, or a
/// format), `Range` (a number), or `Memory`. That the path has as many numbers as the verb needs is not looked at.
pub(crate) fn read_expected(alloc: Global, line: &[u8]) -> Result<Expected, Cause>
    ensures { Gives (λ e. e) result (expected_at (words line.now)) }
{
    let (word, behind) = first_word(line)?;
    if is_name(word, "none") {
        return silence_at(behind);
    }
    message_at(alloc, line)
}
