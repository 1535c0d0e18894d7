//! `cases_memory`: calls of the bench that may run out of memory. It reads cases from standard input, makes the call of
//! each, and once more where memory was refused, and prints what differs from what is stated. docs/inside/refusals.md
//! says how a case is written, and how each allocation is refused in turn, for which there are arguments.
#![tactic(auto)]

mod asking;
mod building;
mod classes;
mod devices;
mod fleets;
mod gathering;
mod given;
mod images;
mod jobs;
mod line;
mod lives;
mod locks;
mod marks;
mod puts;
mod sessions;
mod shared;
mod table;
mod traces;
mod workers;

ghost use Rattle.std.specs.Thread.{IsSync};

use case_sheet::Sheet;
use given::{Given, number_of, scenario_of};
use line::Line;
use marks::{Marks, Mode};
use std::process::ExitCode;
use std::sync::Wait;
use std::thread::Threads;
use std::{env, io};
use table::{Case, Table};

fn main(rt: HostRuntime) -> io::Result<ExitCode> {
    let alloc = rt.alloc();
    let words = env::args(&rt)?.collect::<Vec<String>>(alloc)?;
    let mode = mode_of(words.as_slice());
    let text = io::read_to_string(alloc, rt.reader())?;
    let mut report = Sheet::new(alloc);
    let status = report_on(&rt, mode, text.as_str(), &mut report);
    let report = report.finish()?;
    rt.print(report.as_str())?;
    Ok(ExitCode::from(status))
}

/// What the arguments ask for: `boxes N`, `count before` or `count after`; with no argument there are no boxes.
fn mode_of(words: &[String]) -> Mode {
    let (Some(what), Some(word)) = (words.get(1), words.get(2)) else {
        return Mode::Boxes(0);
    };
    match (what.as_str(), word.as_str()) {
        ("count", "before") => Mode::CountBefore,
        ("count", _) => Mode::CountAfter,
        (_, count) => Mode::Boxes(number_of(count)),
    }
}

/// Writes what is to be said of the cases of a text. Status 0: none differs; 1: one differs; 2: a line can't be read,
/// or there is no case.
fn report_on<R: Threads + Wait + Sync>(rt: &R, mode: Mode, text: &str, report: &mut Sheet) -> u8
    requires { IsSync R.row }
{
    let mut table = Table::new(report.alloc());
    let unread = table.read(text);
    if table.is_cut {
        report.cut();
    }
    match unread {
        Some(number) => {
            put_count(report, "line ", u64::from(number), " can't be read\n");
            2
        }
        None => report_cases(rt, mode, &table, report),
    }
}

fn report_cases<R: Threads + Wait + Sync>(
    rt: &R,
    mode: Mode,
    table: &Table,
    report: &mut Sheet,
) -> u8
    requires { IsSync R.row }
{
    let mut differing: u32 = 0;
    for case in table.cases.as_slice() {
        if !is_right(rt, mode, table, case, report) {
            differing = differing.saturating_add(1);
        }
    }
    let cases = table.cases.as_slice().len();
    put_count(report, "", cases as u64, " cases, ");
    put_count(report, "", u64::from(differing), " differ\n");
    if cases == 0 {
        2
    } else if differing == 0 {
        0
    } else {
        1
    }
}

/// Adds a number between words.
fn put_count(report: &mut Sheet, before: &str, number: u64, after: &str) {
    report.put(before);
    report.put_number(number);
    report.put(after);
}

/// Whether what comes of a case is what it states. Where boxes are counted, the report gets their number.
fn is_right<R: Threads + Wait + Sync>(
    rt: &R,
    mode: Mode,
    table: &Table,
    case: &Case,
    report: &mut Sheet,
) -> bool
    requires { IsSync R.row }
{
    let mut marks = Marks::new(report.alloc(), mode);
    let mut came = Line::new(report.alloc());
    answer(rt, table, case, &mut marks, &mut came);
    came.end();
    match marks.counted() {
        Some(count) => {
            put_count(report, "counted ", u64::from(count), "\n");
            true
        }
        None => compare(case, came.as_str(), report),
    }
}

/// Whether this is what a case states; else the report gets it.
fn compare(case: &Case, came: &str, report: &mut Sheet) -> bool {
    let is_right = is_stated(case.stated.as_slice(), came) == case.is_same;
    if !is_right {
        put_count(report, "line ", u64::from(case.line), " came ");
        report.put_all(&[came, "\n"]);
    }
    is_right
}

fn is_stated(stated: &[&str], came: &str) -> bool {
    for line in stated {
        if *line == came {
            return true;
        }
    }
    false
}

/// Makes the call of a case.
fn answer<R: Threads + Wait + Sync>(
    rt: &R,
    table: &Table,
    case: &Case,
    marks: &mut Marks,
    came: &mut Line,
)
    requires { IsSync R.row }
{
    let (call, rest) = split(case.words);
    let (name, words) = split(rest);
    let text = text_of(table, name);
    let Ok(scenario) = scenario_of(came.alloc(), text) else {
        return came.cut();
    };
    let given = Given {
        alloc: came.alloc(),
        text,
        scenario: &scenario,
        words,
    };
    asking::ask(rt, call, &given, marks, came)
}

/// The first word, and the rest.
fn split(words: &str) -> (&str, &str) {
    match words.split_once(' ') {
        Some(parts) => parts,
        None => (words, ""),
    }
}

/// The text of this name; an empty one, where there is none.
fn text_of<'a>(table: &'a Table, name: &str) -> &'a str {
    for text in table.texts.as_slice() {
        if text.name == name {
            return text.text.as_str();
        }
    }
    ""
}
