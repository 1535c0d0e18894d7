//! The tables of the formats that no command shows, as questions that stand beside their answers: reads them from
//! standard input, asks the crates, and prints each line whose answer differs. docs/inside/codec-cases.md says how a
//! line is written.
#![tactic(auto)]

mod attributes;
mod case;
mod catalog;
mod firmware;
mod forms;
mod managing;
mod messages;
mod notifying;
mod observing;
mod payloads;
mod places;
mod question;
mod records;
mod stating;
mod stores;
mod tally;
mod values;
mod writing;

use case::{Case, Line};
use case_sheet::Sheet;
use question::Question;
use std::io;
use std::process::ExitCode;
use tally::Tally;

/// Answers a question; `false` where no module has its subject.
fn answer(subject: &str, question: &mut Question<'_>, out: &mut Sheet) -> bool {
    messages::answer(subject, question, out)
        || values::answer(subject, question, out)
        || records::answer(subject, question, out)
        || catalog::answer(subject, question, out)
        || payloads::answer(subject, question, out)
        || notifying::answer(subject, question, out)
        || attributes::answer(subject, question, out)
        || observing::answer(subject, question, out)
        || stores::answer(subject, question, out)
        || firmware::answer(subject, question, out)
}

/// Asks a question. Where its answer is another, or where it has none, the report gets the line.
fn check(number: u64, case: &Case<'_>, tally: &mut Tally, report: &mut Sheet) {
    let (subject, words) = match case.question.split_once(' ') {
        Some(parts) => parts,
        None => (case.question, ""),
    };
    let mut question = Question::new(report.alloc(), words.trim());
    let mut got = Sheet::new(report.alloc());
    if !answer(subject, &mut question, &mut got) {
        question.refuse("unknown subject");
    }
    if question.is_cut() || got.is_cut() {
        report.cut();
    }
    match question.fault() {
        Some(why) => refuse(number, why, case.question, tally, report),
        None => compare(number, case, got.as_str(), tally, report),
    }
}

/// Adds the line of a case whose answer is another.
fn compare(number: u64, case: &Case<'_>, got: &str, tally: &mut Tally, report: &mut Sheet) {
    tally.count_case();
    if (got == case.answer) == case.is_same {
        return;
    }
    tally.count_other();
    put_place(number, report);
    report.put_all(&[": ", case.question, " => ", got]);
    report.put(if case.is_same {
        "\n"
    } else {
        ", which must not be\n"
    });
}

/// Adds a line that is not a case, and why.
fn refuse(number: u64, why: &str, text: &str, tally: &mut Tally, report: &mut Sheet) {
    tally.count_refused();
    put_place(number, report);
    report.put_all(&[" is not a case, ", why, ": ", text, "\n"]);
}

/// Adds which line it is.
fn put_place(number: u64, report: &mut Sheet) {
    report.put("line ");
    report.put_number(number);
}

/// Goes through the lines of a table, and adds what they come to.
fn check_all(table: &str, report: &mut Sheet) -> Tally {
    let mut tally = Tally::new();
    let mut number: u64 = 0;
    for line in table.lines() {
        number = number.saturating_add(1);
        match case::read_line(line) {
            Line::Comment => {}
            Line::Case(case) => check(number, &case, &mut tally, report),
            Line::Unread(why) => refuse(number, why, line, &mut tally, report),
        }
    }
    report.put_number(tally.cases());
    report.put(" cases, ");
    report.put_number(tally.differ());
    report.put(" differ\n");
    tally
}

fn main(rt: HostRuntime) -> io::Result<ExitCode> {
    let alloc = rt.alloc();
    let table = io::read_to_string(alloc, rt.reader())?;
    let mut report = Sheet::new(alloc);
    let tally = check_all(table.as_str(), &mut report);
    let report = report.finish()?;
    rt.print(report.as_str())?;
    Ok(ExitCode::from(tally.status()))
}
