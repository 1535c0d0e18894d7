//! The attributes that servers write (OMA LwM2M 1.1 Core): what operations on them answer.

use crate::forms::push;
use crate::notifying::{change_of, name_of, name_word};
use crate::places::{last_path, path, put_path};
use crate::question::Question;
use case_sheet::Sheet;
use notifier::{Attributes, Change, Name, WriteFault};
use object_defs::Path;

/// Answers a question of this subject; `false` where the subject is none of this module's.
pub fn answer(subject: &str, question: &mut Question<'_>, out: &mut Sheet) -> bool {
    if subject != "attributes" {
        return false;
    }
    operations(question, out);
    true
}

/// `attributes OPERATIONS`: what each answers, of a device whose servers set none before.
fn operations(question: &mut Question<'_>, out: &mut Sheet) {
    let mut attributes = Attributes::new(out.alloc());
    let mut kept = Attributes::new(out.alloc());
    for operation in question.rest().split(';') {
        question.turn_to(operation.trim());
        take(question, out, &mut attributes, &mut kept);
    }
}

/// Adds what an operation answers.
fn take(
    question: &mut Question<'_>,
    out: &mut Sheet,
    attributes: &mut Attributes,
    kept: &mut Attributes,
) {
    out.next("; ");
    match question.rest() {
        "copy" => copy(out, attributes, kept),
        "restore" => copy(out, kept, attributes),
        _ => operate(question, out, attributes),
    }
}

fn copy(out: &mut Sheet, from: &Attributes, to: &mut Attributes) {
    match from.copy() {
        Ok(copy) => {
            *to = copy;
            out.put("ok");
        }
        Err(_) => out.cut(),
    }
}

fn operate(question: &mut Question<'_>, out: &mut Sheet, attributes: &mut Attributes) {
    match question.word() {
        "write" => write(question, out, attributes),
        "remove" => {
            attributes.remove_under(last_path(question));
            out.put("ok");
        }
        "list" => list(question, out, attributes),
        "assigned" => {
            let (server, path, name) = attribute(question);
            put_number(out, attributes.assigned(server, path, name));
        }
        "effective" => {
            let (server, path, name) = attribute(question);
            put_number(out, attributes.effective(server, path, name));
        }
        _ => question.refuse("not an operation on attributes"),
    }
}

/// `write SERVER PATH NAME=NUMBER ..`.
fn write(question: &mut Question<'_>, out: &mut Sheet, attributes: &mut Attributes) {
    let (server, path) = (question.half(), path(question));
    let changes = changes(question);
    match attributes.write(server, path, changes.as_slice()) {
        Ok(()) => out.put("ok"),
        Err(WriteFault::Inconsistent) => out.put("inconsistent"),
        Err(WriteFault::Memory) => out.cut(),
    }
}

fn changes(question: &mut Question<'_>) -> Vec<Change> {
    let mut changes = Vec::new(question.alloc());
    for word in question.rest().split(' ') {
        let change = change_of(question, word);
        push(question, &mut changes, change);
    }
    changes
}

/// A server, a path and the name of an attribute.
fn attribute(question: &mut Question<'_>) -> (u16, Path, Name) {
    let (server, path) = (question.half(), path(question));
    let word = question.word();
    let name = name_of(question, word);
    question.end();
    (server, path, name)
}

fn put_number(out: &mut Sheet, number: Option<i64>) {
    match number {
        Some(number) => out.put_signed(number),
        None => out.put("none"),
    }
}

/// `list SERVER`.
fn list(question: &mut Question<'_>, out: &mut Sheet, attributes: &Attributes) {
    match attributes.list(question.last_half()) {
        Ok(items) => put_attributes(out, items.as_slice()),
        Err(_) => out.cut(),
    }
}

/// Adds attributes with commas between them, or `-` for none.
fn put_attributes(out: &mut Sheet, items: &[(Path, Name, i64)]) {
    if items.is_empty() {
        out.put("-");
    }
    let mut separator = "";
    for (path, name, number) in items {
        out.put(separator);
        put_path(out, *path);
        out.put_all(&[" ", name_word(*name), "="]);
        out.put_signed(*number);
        separator = ", ";
    }
}
