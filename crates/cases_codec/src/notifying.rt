//! Queries of attributes, and when an observation sends (OMA LwM2M 1.1 Core, attributes).

use crate::forms::{push, text_of};
use crate::places::put_yes_no;
use crate::question::Question;
use case_sheet::Sheet;
use notifier::{Change, Changes, Level, Name, QueryFault, Report, is_due, triggers};
use octets::Bytes;

/// Answers a question of this subject; `false` where the subject is none of this module's.
pub fn answer(subject: &str, question: &mut Question<'_>, out: &mut Sheet) -> bool {
    match subject {
        "query" => query(question, out),
        "triggers" => is_triggered(question, out),
        "due" => is_sent(question, out),
        _ => return false,
    }
    true
}

/// The name of an attribute.
pub fn name_word(name: Name) -> &'static str {
    match name {
        Name::Pmin => "pmin",
        Name::Pmax => "pmax",
        Name::Gt => "gt",
        Name::Lt => "lt",
        Name::St => "st",
    }
}

/// A word as the name of an attribute.
pub fn name_of(question: &mut Question<'_>, word: &str) -> Name {
    match word {
        "pmin" => Name::Pmin,
        "pmax" => Name::Pmax,
        "gt" => Name::Gt,
        "lt" => Name::Lt,
        "st" => Name::St,
        _ => {
            question.refuse("not an attribute");
            Name::Pmin
        }
    }
}

/// The change of a word `NAME=NUMBER`: seconds of pmin and pmax, thousandths of gt, lt and st.
pub fn change_of(question: &mut Question<'_>, word: &str) -> Change {
    let (name, number) = match word.split_once('=') {
        Some(parts) => parts,
        None => (word, ""),
    };
    Change {
        name: name_of(question, name),
        number: Some(question.integer_of(number)),
    }
}

fn level(question: &mut Question<'_>) -> Level {
    match question.word() {
        "object" => Level::Object,
        "instance" => Level::Instance,
        "resource" => Level::Resource,
        "number" => Level::Number,
        _ => {
            question.refuse("not a level");
            Level::Object
        }
    }
}

/// `query LEVEL QUERY ..`: the changes that the queries spell, or their first fault.
fn query(question: &mut Question<'_>, out: &mut Sheet) {
    let level = level(question);
    let texts = texts(question);
    let mut queries = Vec::new(out.alloc());
    for text in texts.iter() {
        push(question, &mut queries, text.as_slice());
    }
    put_read(out, queries.as_slice(), level);
}

fn put_read(out: &mut Sheet, queries: &[&[u8]], level: Level) {
    match Changes::parse(out.alloc(), queries, level) {
        Ok(changes) => put_changes(out, changes.as_slice()),
        Err(QueryFault::Memory) => out.cut(),
        Err(fault) => out.put(fault_name(fault)),
    }
}

/// The texts of the words that are left.
fn texts(question: &mut Question<'_>) -> Vec<Vec<u8>> {
    let mut texts = Vec::new(question.alloc());
    for word in question.rest().split(' ') {
        let text = text_of(question, word);
        push(question, &mut texts, text);
    }
    texts
}

/// Adds changes, `-` for none.
fn put_changes(out: &mut Sheet, changes: &[Change]) {
    if changes.is_empty() {
        out.put("-");
    }
    for change in changes {
        out.next(", ");
        out.put_all(&[name_word(change.name), " "]);
        match change.number {
            Some(number) => out.put_signed(number),
            None => out.put("unset"),
        }
    }
}

fn fault_name(fault: QueryFault) -> &'static str {
    match fault {
        QueryFault::UnknownName => "unknown-name",
        QueryFault::Repeated => "repeated",
        QueryFault::BadNumber => "bad-number",
        QueryFault::Level => "level",
        QueryFault::Memory => "memory",
    }
}

/// The conditions on numbers, in thousandths.
#[derive(Clone, Copy)]
struct Conditions {
    gt: Option<i64>,
    lt: Option<i64>,
    st: Option<i64>,
}

/// The conditions of words such as `gt=50000`.
fn conditions_of(question: &mut Question<'_>) -> Conditions {
    let mut found = Conditions {
        gt: None,
        lt: None,
        st: None,
    };
    for word in question.rest().split(' ') {
        if !word.is_empty() {
            add_condition(question, &mut found, word);
        }
    }
    found
}

fn add_condition(question: &mut Question<'_>, found: &mut Conditions, word: &str) {
    let change = change_of(question, word);
    match change.name {
        Name::Gt => found.gt = change.number,
        Name::Lt => found.lt = change.number,
        Name::St => found.st = change.number,
        Name::Pmin | Name::Pmax => question.refuse("not a condition"),
    }
}

/// `triggers same|other OLD NOW CONDITION ..`: whether a report of the number NOW, with the payload of the last report
/// or another, is a trigger after one of the number OLD.
fn is_triggered(question: &mut Question<'_>, out: &mut Sheet) {
    let is_same = is_same(question);
    let (old, now) = (question.integer(), question.integer());
    let Conditions { gt, lt, st } = conditions_of(question);
    match Bytes::from_slice(out.alloc(), b"a") {
        Ok(payload) => {
            let last = Report {
                payload,
                number: Some(old),
            };
            let payload = if is_same { b"a" } else { b"b" };
            put_yes_no(out, triggers(gt, lt, st, &last, Some(now), payload));
        }
        Err(_) => out.cut(),
    }
}

/// Whether a report has the payload of the last one.
fn is_same(question: &mut Question<'_>) -> bool {
    match question.word() {
        "same" => true,
        "other" => false,
        _ => {
            question.refuse("neither same nor other");
            false
        }
    }
}

/// `due AGE PMIN PMAX triggered|quiet`, with `-` for no pmax: whether an observation sends whose last message is this
/// old.
fn is_sent(question: &mut Question<'_>, out: &mut Sheet) {
    let (age, pmin) = (question.natural(), question.natural());
    let pmax = pmax(question);
    let has_trigger = has_trigger(question);
    put_yes_no(out, is_due(age, pmin, pmax, has_trigger));
}

/// Whether the last word says that there is a trigger.
fn has_trigger(question: &mut Question<'_>) -> bool {
    match question.rest() {
        "triggered" => true,
        "quiet" => false,
        _ => {
            question.refuse("neither triggered nor quiet");
            false
        }
    }
}

fn pmax(question: &mut Question<'_>) -> Option<u64> {
    if question.rest().starts_with("- ") {
        question.word();
        return None;
    }
    Some(question.natural())
}
