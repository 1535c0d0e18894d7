//! The datagram that the words of a line denote.
ghost use Rattle.std.specs.Prelude.{◌≡◌, IfOk};
ghost use Rattle.scenario_words.specs.Reading.{Gives};
ghost use Rattle.scenario_words.specs.Words.{words};
ghost use Rattle.command_texts.specs.Blamed.{cause_in};
ghost use Rattle.command_words.specs.Spelling.{ack, arrival_of, arrival_of_statement, arrival_of_statement_words};
ghost use Rattle.command_words.specs.Spelling.{within_limits, words_cause};

use command_texts::statement_cause;
use octets::Bytes;
use scenario_mnemonics::encode;
use scenario_statements::{Ack, Statement, ack_bytes, read_ack, read_statement};
use scenario_words::{Cause, is_name, next_word};
use std::alloc::{AllocError, Global};

/// The most bytes of a datagram that a step of a scenario may have.
const MOST_BYTES: usize = 1_500;

/// A datagram, and the server that sends it.
#[derive(Drop)]
pub(crate) struct Arrival {
    /// The Short Server ID of the server.
    pub server: u16,
    /// The bytes of the datagram.
    pub bytes: Bytes,
}

/// The datagram, where a step of a scenario may have it.
fn within_limits(arrival: Arrival) -> Result<Option<Arrival>, Cause>
    ensures { result ≡ within_limits arrival }
{
    if arrival.bytes.len() <= MOST_BYTES {
        Ok(Some(arrival))
    } else {
        Err(Cause::Limit)
    }
}

/// The datagram that a statement denotes, if it denotes one.
fn denoted(alloc: Global, statement: Statement) -> Result<Option<Arrival>, Cause>
    ensures { Gives (λ a. a) result (arrival_of_statement statement) }
{
    match statement {
        Statement::Recv { server, bytes } => within_limits(Arrival { server, bytes }),
        Statement::Request { server, mnemonic } => {
            if !mnemonic.fits() {
                return Err(Cause::Range);
            }
            let bytes = encode(alloc, &mnemonic)?;
            within_limits(Arrival { server, bytes })
        }
        _ => Ok(None),
    }
}

/// The datagram of the statement of a line.
fn stated(alloc: Global, line: &[u8]) -> Result<Option<Arrival>, Cause>
    ensures { Gives (λ a. a) result (arrival_of_statement_words (words line.now)) }
{
    match read_statement(alloc, line)? {
        Some(statement) => denoted(alloc, statement),
        None => Err(Cause::Missing),
    }
}

/// The datagram of the words after `ack`.
fn ack(alloc: Global, line: &[u8]) -> Result<Option<Arrival>, Cause>
    ensures { Gives (λ a. a) result (ack (words line.now)) }
{
    let Ack { server, mid } = read_ack(line)?;
    let bytes = ack_bytes(alloc, mid)?;
    Ok(Some(Arrival { server, bytes }))
}

/// The datagram that the words of a line denote, if they denote one. The line is refused as a text of scenarios is.
pub(crate) fn arrival_of(alloc: Global, line: &[u8]) -> Result<Option<Arrival>, Cause>
    ensures { Gives (λ a. a) result (arrival_of (words line.now)) }
{
    match next_word(line) {
        None => Err(Cause::Missing),
        Some((word, behind)) if is_name(word, "ack") => ack(alloc, behind),
        Some(_) => stated(alloc, line),
    }
}

/// Why the words after `ack` are refused; none where they are not.
fn ack_cause(alloc: Global, line: &[u8]) -> Result<Option<Cause>, AllocError>
    ensures { IfOk result (λ cause. cause ≡ cause_in (ack (words line.now))) }
{
    match ack(alloc, line) {
        Ok(_) => Ok(None),
        Err(Cause::Memory) => Err(AllocError),
        Err(cause) => Ok(Some(cause)),
    }
}

/// Why the words of a line are refused, whatever they denote; none where they are not.
pub(crate) fn words_cause(alloc: Global, line: &[u8]) -> Result<Option<Cause>, AllocError>
    ensures { IfOk result (λ cause. cause ≡ words_cause (words line.now)) }
{
    match next_word(line) {
        Some((word, behind)) if is_name(word, "ack") => ack_cause(alloc, behind),
        _ => statement_cause(alloc, line),
    }
}
