//! Statements as their lines.

ghost use Rattle.std.specs.Prelude.{◌≡◌, if◌then◌else◌, IfOk};
ghost use Rattle.std.specs.String.{string_bytes};
ghost use Rattle.std.specs.List.{join_with_byte};
ghost use Rattle.scenario_statements.specs.Spelling.{line_of, ops_word, value_words, words_of_statement};
ghost use Rattle.scenario_statements.specs.declared.statement.Statement.TheVariants.{Def, Recv};

use crate::statement::Statement;
use lwm2m_values::Value;
use object_defs::{Ops, Path, ResourceDef, path_text};
use scenario_mnemonics::spell as spell_mnemonic;
use scenario_words::{hex_word, kind_word, spell};
use std::alloc::{AllocError, Global};

/// The name of operations.
fn ops_word(ops: Ops) -> &'static str
    ensures { result.now ≡ ops_word ops }
{
    match ops {
        Ops::R => "r",
        Ops::W => "w",
        Ops::RW => "rw",
        Ops::E => "e",
    }
}

/// The first of two names where it was chosen, else the second.
fn chosen(is_first: bool, first: &'static str, second: &'static str) -> &'static str
    ensures { result.now ≡ (if is_first then first.now else second.now) }
{
    if is_first { first } else { second }
}

/// The line of a resource's definition.
fn definition_line(alloc: Global, definition: &ResourceDef) -> Result<String, AllocError>
    ensures { IfOk result (λ s. string_bytes s ≡ line_of (Def definition.now)) }
{
    let id = definition.id;
    let ops = ops_word(definition.ops);
    let multiple = chosen(definition.multiple, "multiple", "single");
    let mandatory = chosen(definition.mandatory, "mandatory", "optional");
    let kind = kind_word(definition.kind);
    format!(in alloc; "def {id} {ops} {multiple} {mandatory} {kind}")
}

/// The line of a keyword, a path and a value.
pub fn value_line(
    alloc: Global,
    keyword: &str,
    path: Path,
    value: &Value,
) -> Result<String, AllocError>
    ensures { IfOk result (λ s. string_bytes s ≡ join_with_byte 32 (value_words keyword.now path value.now)) }
{
    let path = path_text(alloc, path)?;
    let value = spell(alloc, value)?;
    format!(in alloc; "{keyword} {path} {value}")
}

/// The line of a datagram that comes from a server, in hex.
pub fn recv_line(alloc: Global, server: u16, bytes: &[u8]) -> Result<String, AllocError>
    ensures { IfOk result (λ s. string_bytes s ≡ line_of (Recv server bytes.now)) }
{
    let bytes = hex_word(alloc, bytes)?;
    format!(in alloc; "recv {server} {bytes}")
}

/// The line of a statement, without the LF that ends it.
pub fn line_of(alloc: Global, statement: &Statement) -> Result<String, AllocError>
    ensures { IfOk result (λ s. string_bytes s ≡ line_of statement.now) }
{
    match statement {
        Statement::Scenario => String::from_str(alloc, "scenario 1"),
        Statement::Class => String::from_str(alloc, "class"),
        Statement::Notify(seconds) => format!(in alloc; "notify con {seconds}"),
        Statement::Account(server) => format!(in alloc; "account {server}"),
        Statement::Object(object) => format!(in alloc; "object {object}"),
        Statement::Def(definition) => definition_line(alloc, definition),
        Statement::Instance(place) => {
            let object = place.object;
            let instance = place.instance;
            format!(in alloc; "instance {object} {instance}")
        }
        Statement::Value { path, value } => value_line(alloc, "value", *path, value),
        Statement::Device(class) => format!(in alloc; "device {class}"),
        Statement::Recv { server, bytes } => recv_line(alloc, *server, bytes.as_slice()),
        Statement::Request { server, mnemonic } => spell_mnemonic(alloc, *server, mnemonic),
        Statement::Tick(seconds) => format!(in alloc; "tick {seconds}"),
        Statement::Put { path, value } => value_line(alloc, "put", *path, value),
        Statement::Firmware(code) => format!(in alloc; "firmware {code}"),
        Statement::Post(group) => format!(in alloc; "post {group}"),
        Statement::Need { group, count } => format!(in alloc; "need {group} {count}"),
    }
}
