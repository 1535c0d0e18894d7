//! The statement of a line: its keyword, and a reader for the words after each keyword.

ghost use Rattle.std.specs.Prelude.{◌≡◌, ◌≤◌, IfOk};
ghost use Rattle.scenario_words.specs.Words.{words};
ghost use Rattle.scenario_words.specs.Reading.{Gives, Reads};
ghost use Rattle.scenario_mnemonics.specs.MnemonicWords.{keyword_named};
ghost use Rattle.scenario_statements.specs.Grammar.{definition, instance, need, notify, of_device, only_number, put};
ghost use Rattle.scenario_statements.specs.Grammar.{recv, request, statement_by, statement_of, value};

use crate::choice::{after_name, choice, ops};
use crate::statement::Statement;
use object_defs::{InstancePath, ResourceDef};
use scenario_mnemonics::{Keyword, read as read_mnemonic};
use scenario_words::{
    Cause, end, hex_bytes, is_name, kind, name_fault, natural, next_word, path,
    value as value_words,
};
use std::alloc::Global;

/// One number, and no word after it.
fn only_number(line: &[u8], low: u64, high: u64) -> Result<u64, Cause>
    ensures read { Reads (λ n. n) result (only_number low high (words line.now)) }
    ensures range { IfOk result (λ n. n ≤ high) }
{
    let (number, line) = natural(line, low, high)?;
    end(line)?;
    Ok(number)
}

fn notify(alloc: Global, line: &[u8]) -> Result<Statement, Cause>
    ensures { Gives (λ s. s) result (notify (words line.now)) }
{
    let line = after_name(alloc, "con", line)?;
    let seconds = only_number(line, 2, 3)?;
    Ok(Statement::Notify(seconds as u8))
}

fn definition(alloc: Global, line: &[u8]) -> Result<Statement, Cause>
    ensures { Gives (λ s. s) result (definition (words line.now)) }
{
    let (id, line) = natural(line, 0, 65535)?;
    let (ops, line) = ops(alloc, line)?;
    let (multiple, line) = choice(alloc, "multiple", "single", line)?;
    let (mandatory, line) = choice(alloc, "mandatory", "optional", line)?;
    let (kind, line) = kind(alloc, line)?;
    end(line)?;
    Ok(Statement::Def(ResourceDef {
        id: id as u16,
        ops,
        multiple,
        mandatory,
        kind,
    }))
}

fn instance(line: &[u8]) -> Result<Statement, Cause>
    ensures { Reads (λ s. s) result (instance (words line.now)) }
{
    let (object, line) = natural(line, 0, 65535)?;
    let (instance, line) = natural(line, 0, 65534)?;
    end(line)?;
    Ok(Statement::Instance(InstancePath {
        object: object as u16,
        instance: instance as u16,
    }))
}

fn value(alloc: Global, line: &[u8]) -> Result<Statement, Cause>
    ensures { Gives (λ s. s) result (value (words line.now)) }
{
    let (path, line) = path(line)?;
    let (value, line) = value_words(alloc, line)?;
    end(line)?;
    Ok(Statement::Value { path, value })
}

fn recv(alloc: Global, line: &[u8]) -> Result<Statement, Cause>
    ensures { Gives (λ s. s) result (recv (words line.now)) }
{
    let (server, line) = natural(line, 1, 65534)?;
    let (bytes, line) = hex_bytes(alloc, line)?;
    end(line)?;
    Ok(Statement::Recv {
        server: server as u16,
        bytes,
    })
}

fn put(alloc: Global, line: &[u8]) -> Result<Statement, Cause>
    ensures { Gives (λ s. s) result (put (words line.now)) }
{
    let (path, line) = path(line)?;
    let (value, line) = value_words(alloc, line)?;
    end(line)?;
    Ok(Statement::Put { path, value })
}

fn need(line: &[u8]) -> Result<Statement, Cause>
    ensures { Reads (λ s. s) result (need (words line.now)) }
{
    let (group, line) = natural(line, 0, 255)?;
    let (count, line) = natural(line, 1, 1_000_000)?;
    end(line)?;
    Ok(Statement::Need {
        group: group as u8,
        count: count as u32,
    })
}

/// What a line says whose keyword is a mnemonic's.
fn request(alloc: Global, keyword: &[u8], line: &[u8]) -> Result<Statement, Cause>
    ensures { Gives (λ s. s) result (request (keyword_named keyword.now) keyword.now (words line.now)) }
{
    let Some(named) = Keyword::named(keyword) else {
        return Err(name_fault(alloc, keyword));
    };
    let (server, mnemonic) = read_mnemonic(alloc, named, line)?;
    Ok(Statement::Request { server, mnemonic })
}

/// What a line about a device says, by its keyword and the line after it. Each reader answers by itself, so what it
/// read is moved once.
fn of_device(alloc: Global, keyword: &[u8], line: &[u8]) -> Result<Statement, Cause>
    ensures { Gives (λ s. s) result (of_device keyword.now (words line.now)) }
{
    if is_name(keyword, "device") {
        let class = only_number(line, 0, 65535)?;
        return Ok(Statement::Device(class as u16));
    }
    if is_name(keyword, "recv") {
        return recv(alloc, line);
    }
    if is_name(keyword, "tick") {
        let seconds = only_number(line, 1, 86400)?;
        return Ok(Statement::Tick(seconds as u32));
    }
    if is_name(keyword, "put") {
        return put(alloc, line);
    }
    if is_name(keyword, "firmware") {
        let code = only_number(line, 0, 9)?;
        return Ok(Statement::Firmware(code as u8));
    }
    if is_name(keyword, "post") {
        let group = only_number(line, 0, 255)?;
        return Ok(Statement::Post(group as u8));
    }
    if is_name(keyword, "need") {
        return need(line);
    }
    request(alloc, keyword, line)
}

/// What a line says, by its keyword and the line after it.
fn statement_by(alloc: Global, keyword: &[u8], line: &[u8]) -> Result<Statement, Cause>
    ensures { Gives (λ s. s) result (statement_by keyword.now (words line.now)) }
{
    if is_name(keyword, "scenario") {
        only_number(line, 1, 1)?;
        return Ok(Statement::Scenario);
    }
    if is_name(keyword, "class") {
        end(line)?;
        return Ok(Statement::Class);
    }
    if is_name(keyword, "notify") {
        return notify(alloc, line);
    }
    if is_name(keyword, "account") {
        let server = only_number(line, 1, 65534)?;
        return Ok(Statement::Account(server as u16));
    }
    if is_name(keyword, "object") {
        let object = only_number(line, 10241, 32768)?;
        return Ok(Statement::Object(object as u16));
    }
    if is_name(keyword, "def") {
        return definition(alloc, line);
    }
    if is_name(keyword, "instance") {
        return instance(line);
    }
    if is_name(keyword, "value") {
        return value(alloc, line);
    }
    of_device(alloc, keyword, line)
}

/// What a line of scenario text says: the statement of its words, or none where it has no word.
///
/// Words are read from the left, and each fault is the first: `Missing` (a word is absent), `Token` (a word of the
/// wrong form), `UnknownWord`, `Range` (a number outside its range), and after the last `Token` (a word too many).
/// Nothing is said of what fits together.
pub fn read_statement(alloc: Global, line: &[u8]) -> Result<Option<Statement>, Cause>
    ensures { Gives (λ s. s) result (statement_of (words line.now)) }
{
    let Some((keyword, line)) = next_word(line) else {
        return Ok(None);
    };
    let statement = statement_by(alloc, keyword, line)?;
    Ok(Some(statement))
}
