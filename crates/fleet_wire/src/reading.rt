//! Choices as words: `10%`, or `2,5-6`.
ghost use Rattle.std.specs.Prelude.{◌≡◌, ◌⊎◌, ◌<◌, ◌+◌, Err, IfSome, MatchResult, drop, length, take};
ghost use Rattle.std.specs.List.{position};
ghost use Rattle.fleet_wire.specs.Reading.{is_comma, is_hyphen, is_share, next_span, number_of};
ghost use Rattle.fleet_wire.specs.Reading.{share_of, span_of, spans_of, IsRefused, IsSaid, IsWithLast};

use crate::choice::{Choice, Span};
use lwm2m_values::number_below;
use std::alloc::Global;

/// Why a word is no choice.
#[derive(Clone, Copy)]
pub enum ChoiceFault {
    /// It has no number where one is wanted, or one of 2^32 or more.
    NoNumber,
    /// It is a share of more than a hundred.
    OverHundred,
    /// Its numbers do not ascend from 1.
    OutOfOrder,
    /// No memory was left.
    Memory,
}

/// The number that a text writes.
fn number_of(text: &[u8]) -> Option<u64>
    ensures { result ≡ number_of text.now }
{
    number_below(text, 1 << 32)
}

/// The place of the first hyphen.
fn hyphen_in(text: &[u8]) -> Option<usize>
    ensures { result ≡ position is_hyphen text.now }
{
    text.iter().position(|byte| *byte == b'-')
}

/// The place of the first comma.
fn comma_in(text: &[u8]) -> Option<usize>
    ensures found { result ≡ position is_comma text.now }
    ensures within { IfSome result (λ place. place < length text.now) }
{
    text.iter().position(|byte| *byte == b',')
}

/// The span that a part of a list writes: `5`, or `5-6`.
fn span_of(text: &[u8]) -> Option<Span>
    ensures { result ≡ span_of text.now }
{
    match hyphen_in(text) {
        None => match number_of(text) {
            None => None,
            Some(number) => Some(Span {
                from: number,
                to: number,
            }),
        },
        Some(place) => match number_of(&text[..place]) {
            None => None,
            Some(from) => match number_of(&text[place + 1..]) {
                None => None,
                Some(to) => Some(Span { from, to }),
            },
        },
    }
}

/// The span that a part of a list writes, which has to begin after the last number.
fn next_span(last: u64, text: &[u8]) -> Result<Span, ChoiceFault>
    ensures { result ≡ next_span last text.now }
{
    match span_of(text) {
        None => Err(ChoiceFault::NoNumber),
        Some(span) => {
            if last < span.from && span.from <= span.to {
                Ok(span)
            } else {
                Err(ChoiceFault::OutOfOrder)
            }
        }
    }
}

/// What stands before a place.
fn before_place(text: &[u8], place: usize) -> &[u8]
    requires { place < length text.now }
    ensures { result.now ≡ take place text.now }
{
    &text[..place]
}

/// What stands after a place.
fn after_place(text: &[u8], place: usize) -> &[u8]
    requires { place < length text.now }
    ensures { result.now ≡ drop (place + 1) text.now }
{
    &text[place + 1..]
}

/// The spans, with that of the last part.
fn with_last(mut spans: Vec<Span>, last: u64, text: &[u8]) -> Result<Vec<Span>, ChoiceFault>
    ensures { MatchResult result (λ all. IsWithLast spans.items (next_span last text.now) all.items)
        (λ fault. (fault ≡ ChoiceFault.Memory) ⊎ (next_span last text.now ≡ Err fault)) }
{
    match next_span(last, text) {
        Err(fault) => Err(fault),
        Ok(span) => match spans.push(span) {
            Ok(()) => Ok(spans),
            Err(_) => Err(ChoiceFault::Memory),
        },
    }
}

/// The spans that a list writes.
fn read_spans(alloc: Global, text: &[u8]) -> Result<Vec<Span>, ChoiceFault>
    ensures { MatchResult result (λ spans. spans_of text.now ≡ Ok spans.items)
        (λ fault. (fault ≡ ChoiceFault.Memory) ⊎ (spans_of text.now ≡ Err fault)) }
{
    let mut spans = Vec::new(alloc);
    let mut last = 0;
    let mut rest = text;
    loop {
        match comma_in(rest) {
            None => return with_last(spans, last, rest),
            Some(place) => {
                let span = match next_span(last, before_place(rest, place)) {
                    Ok(span) => span,
                    Err(fault) => return Err(fault),
                };
                match spans.push(span) {
                    Ok(()) => {}
                    Err(_) => return Err(ChoiceFault::Memory),
                }
                last = span.to;
                rest = after_place(rest, place);
            }
        }
    }
}

/// The share that a number writes.
fn share_of(text: &[u8]) -> Result<u8, ChoiceFault>
    ensures { result ≡ share_of text.now }
{
    match number_of(text) {
        None => Err(ChoiceFault::NoNumber),
        Some(percent) => {
            if percent > 100 {
                return Err(ChoiceFault::OverHundred);
            }
            Ok(percent as u8)
        }
    }
}

/// Whether a word is a share: it ends with a percent sign.
fn is_share(word: &[u8]) -> bool
    ensures { result ≡ is_share word.now }
{
    !word.is_empty() && word[word.len() - 1] == b'%'
}

impl Choice {
    /// The choice that a word says: `10%`, or `2,5-6`.
    pub fn read(alloc: Global, word: &[u8]) -> Result<Choice, ChoiceFault>
        ensures { MatchResult result (λ choice. IsSaid choice word.now)
            (λ fault. (fault ≡ ChoiceFault.Memory) ⊎ IsRefused fault word.now) }
    {
        if is_share(word) {
            return match share_of(&word[..word.len() - 1]) {
                Ok(percent) => Ok(Choice::Share(percent)),
                Err(fault) => Err(fault),
            };
        }
        match read_spans(alloc, word) {
            Ok(spans) => Ok(Choice::Listed(spans)),
            Err(fault) => Err(fault),
        }
    }
}
