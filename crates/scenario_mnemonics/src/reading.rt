//! The words of a mnemonic, read from the left.

ghost use Rattle.std.specs.Prelude.{◌≡◌, IfOk};
ghost use Rattle.scenario_words.specs.Words.{words};
ghost use Rattle.scenario_words.specs.HexWord.{bytes_of};
ghost use Rattle.scenario_words.specs.Reading.{Gives, Reads, word_by};
ghost use Rattle.scenario_mnemonics.specs.MnemonicWords.{type_of, format_of, last_by, short_token, token_at, head_at};
ghost use Rattle.scenario_mnemonics.specs.MnemonicWords.{content_at, formed_queries, queries_at, action_at};
ghost use Rattle.scenario_mnemonics.specs.MnemonicWords.{mnemonic_at};

use crate::action::Action;
use crate::format::Format;
use crate::head::Head;
use crate::mnemonic::{Mnemonic, Request};
use crate::queries::Queries;
use crate::request_type::RequestType;
use crate::token::Token;
use crate::verb::{Keyword, Verb};
use octets::Bytes;
use scenario_words::{
    Cause, end, first_word, hex_bytes, is_name, name_fault, natural, next_word, path,
};
use std::alloc::{AllocError, Global};

fn type_of(alloc: Global, word: &[u8]) -> Result<RequestType, Cause>
    ensures { Gives (λ k. k) result (type_of word.now) }
{
    if is_name(word, "con") {
        Ok(RequestType::Con)
    } else if is_name(word, "non") {
        Ok(RequestType::Non)
    } else {
        Err(name_fault(alloc, word))
    }
}

/// The first word as a type, and the line after it.
fn request_type(alloc: Global, line: &[u8]) -> Result<(RequestType, &[u8]), Cause>
    ensures { Gives (λ x. (x.0, words x.1.now)) result (word_by type_of (words line.now)) }
{
    let (word, line) = first_word(line)?;
    let kind = type_of(alloc, word)?;
    Ok((kind, line))
}

/// The format that a word names.
pub fn format_of(alloc: Global, word: &[u8]) -> Result<Format, Cause>
    ensures { Gives (λ f. f) result (format_of word.now) }
{
    if is_name(word, "any") {
        Ok(Format::Any)
    } else if is_name(word, "text") {
        Ok(Format::Text)
    } else if is_name(word, "opaque") {
        Ok(Format::Opaque)
    } else if is_name(word, "tlv") {
        Ok(Format::Tlv)
    } else {
        Err(name_fault(alloc, word))
    }
}

/// The first word as a format, and the line after it.
fn format(alloc: Global, line: &[u8]) -> Result<(Format, &[u8]), Cause>
    ensures { Gives (λ x. (x.0, words x.1.now)) result (word_by format_of (words line.now)) }
{
    let (word, line) = first_word(line)?;
    let format = format_of(alloc, word)?;
    Ok((format, line))
}

/// A token of at most 8 bytes.
fn short_token(bytes: Bytes) -> Result<Token, Cause>
    ensures { Reads (λ t. t) result (short_token bytes) }
{
    Token::new(bytes).ok_or(Cause::Token)
}

/// The first word as a token, and the line after it.
fn token(alloc: Global, line: &[u8]) -> Result<(Token, &[u8]), Cause>
    ensures { Gives (λ x. (x.0, words x.1.now)) result (token_at (words line.now)) }
{
    let (bytes, line) = hex_bytes(alloc, line)?;
    let token = short_token(bytes)?;
    Ok((token, line))
}

/// The first words of a request, and the line after them.
fn head(alloc: Global, line: &[u8]) -> Result<(Head, &[u8]), Cause>
    ensures { Gives (λ x. (x.0, words x.1.now)) result (head_at (words line.now)) }
{
    let (server, line) = natural(line, 1, 65534)?;
    let (kind, line) = request_type(alloc, line)?;
    let (mid, line) = natural(line, 0, 65535)?;
    let (token, line) = token(alloc, line)?;
    let (path, line) = path(line)?;
    let head = Head {
        server: server as u16,
        kind,
        mid: mid as u16,
        token,
        path,
    };
    Ok((head, line))
}

/// A format and no more.
fn format_alone(alloc: Global, line: &[u8]) -> Result<Format, Cause>
    ensures { Gives (λ f. f) result (last_by format_of (words line.now)) }
{
    let (format, line) = format(alloc, line)?;
    end(line)?;
    Ok(format)
}

/// Bytes in hex and no more.
fn payload(alloc: Global, line: &[u8]) -> Result<Bytes, Cause>
    ensures { Gives (λ b. b) result (last_by bytes_of (words line.now)) }
{
    let (bytes, line) = hex_bytes(alloc, line)?;
    end(line)?;
    Ok(bytes)
}

/// A format, bytes in hex and no more.
fn content(alloc: Global, line: &[u8]) -> Result<(Format, Bytes), Cause>
    ensures { Gives (λ c. c) result (content_at (words line.now)) }
{
    let (format, line) = format(alloc, line)?;
    let bytes = payload(alloc, line)?;
    Ok((format, bytes))
}

/// All the words of a line.
fn all_words(alloc: Global, line: &[u8]) -> Result<Vec<Bytes>, AllocError>
    ensures { IfOk result (λ ws. ws.items ≡ words line.now) }
{
    let mut found = Vec::new(alloc);
    let mut rest = line;
    while let Some((word, behind)) = next_word(rest) {
        found.push(Bytes::from_slice(alloc, word)?)?;
        rest = behind;
    }
    Ok(found)
}

/// Queries that are all well formed.
fn formed_queries(words: Vec<Bytes>) -> Result<Queries, Cause>
    ensures { Reads (λ q. q) result (formed_queries words.items) }
{
    Queries::new(words).ok_or(Cause::Token)
}

/// One query or more, of these words.
fn queries_of(words: Vec<Bytes>) -> Result<Queries, Cause>
    ensures { Reads (λ q. q) result (queries_at words.items) }
{
    if words.is_empty() {
        return Err(Cause::Missing);
    }
    formed_queries(words)
}

/// One query or more.
fn queries(alloc: Global, line: &[u8]) -> Result<Queries, Cause>
    ensures { Gives (λ q. q) result (queries_at (words line.now)) }
{
    let words = all_words(alloc, line)?;
    queries_of(words)
}

/// The words after the path.
fn action(alloc: Global, verb: Verb, line: &[u8]) -> Result<Action, Cause>
    ensures { Gives (λ a. a) result (action_at verb (words line.now)) }
{
    match verb {
        Verb::Read => Ok(Action::Read(format_alone(alloc, line)?)),
        Verb::Observe => Ok(Action::Observe(format_alone(alloc, line)?)),
        Verb::Cancel => Ok(Action::Cancel(format_alone(alloc, line)?)),
        Verb::Discover => {
            end(line)?;
            Ok(Action::Discover)
        }
        Verb::Delete => {
            end(line)?;
            Ok(Action::Delete)
        }
        Verb::Attr => Ok(Action::Attr(queries(alloc, line)?)),
        Verb::Exec => Ok(Action::Exec(payload(alloc, line)?)),
        Verb::Write => {
            let (format, bytes) = content(alloc, line)?;
            Ok(Action::Write(format, bytes))
        }
        Verb::Update => {
            let (format, bytes) = content(alloc, line)?;
            Ok(Action::Update(format, bytes))
        }
        Verb::Create => {
            let (format, bytes) = content(alloc, line)?;
            Ok(Action::Create(format, bytes))
        }
    }
}

fn request(alloc: Global, verb: Verb, line: &[u8]) -> Result<(u16, Mnemonic), Cause>
    ensures { Gives (λ x. x) result (mnemonic_at (Keyword.Request verb) (words line.now)) }
{
    let (head, line) = head(alloc, line)?;
    let action = action(alloc, verb, line)?;
    let request = Request {
        kind: head.kind,
        mid: head.mid,
        token: head.token,
        path: head.path,
        action,
    };
    Ok((head.server, Mnemonic::Request(request)))
}

fn reset(line: &[u8]) -> Result<(u16, Mnemonic), Cause>
    ensures { Reads (λ x. x) result (mnemonic_at Keyword.Reset (words line.now)) }
{
    let (server, line) = natural(line, 1, 65534)?;
    let (mid, line) = natural(line, 0, 65535)?;
    end(line)?;
    Ok((server as u16, Mnemonic::Reset(mid as u16)))
}

/// The line after a keyword, to its end, as a server from 1 to 65534 and the mnemonic that it sends. Words are read
/// from the left, and the first fault is answered: `Missing` (no word), `Token` (the wrong form, a token of more
/// than 8 bytes, a query that no word can say, or a word too many), `UnknownWord` (a type or a format), `Range` (a
/// number), or `Memory`. That the path has as many numbers as it needs is not looked at: [`Mnemonic::fits`].
pub fn read(alloc: Global, keyword: Keyword, line: &[u8]) -> Result<(u16, Mnemonic), Cause>
    ensures { Gives (λ x. x) result (mnemonic_at keyword (words line.now)) }
{
    match keyword {
        Keyword::Request(verb) => request(alloc, verb, line),
        Keyword::Reset => reset(line),
    }
}
