//! `cases_live`: reads sessions from standard input, each with what has to come of it, lets a device go on over a wire
//! and a clock in memory, or over UDP on this machine's loopback address, and prints each whose end is another.
//! docs/inside/live-cases.md says how a line is written.
//!
//! What prints writes on a `Sheet`, and what reads a line notes what it can't read: neither has a `Result`. A failed
//! allocation is noted, and `Sheet::finish` returns it. Each `?` at which a device or a session is alive would cost the
//! proof of its function seconds.
#![tactic(auto)]

mod answer;
mod question;
mod udp;

use answer::put_answer;
use case_sheet::Sheet;
use question::Question;
use std::alloc::{AllocError, Global};
use std::io;
use std::net::Net;
use std::process::ExitCode;
use std::thread::Threads;

fn main(rt: HostRuntime) -> io::Result<ExitCode> {
    let alloc = rt.alloc();
    let table = io::read_to_string(alloc, rt.reader())?;
    let mut report = Report::new(alloc);
    report.look_over(&rt, table.as_str());
    let status = report.status();
    let said = report.finish()?;
    rt.print(said.as_str())?;
    Ok(ExitCode::from(status))
}

/// What is to be said of the lines of a table.
#[derive(Drop)]
struct Report {
    out: Sheet,
    cases: u32,
    differing: u32,
    unread: u32,
}

impl Report {
    fn new(alloc: Global) -> Report {
        Report {
            out: Sheet::new(alloc),
            cases: 0,
            differing: 0,
            unread: 0,
        }
    }

    /// Status 0: all is as it has to be; 1: a line differs; 2: a line can't be read, or there is no case.
    fn status(&self) -> u8 {
        if self.unread > 0 || self.cases == 0 {
            2
        } else {
            u8::from(self.differing > 0)
        }
    }

    fn look_over<R: Net + Threads>(&mut self, rt: &R, table: &str) {
        let mut number = 0u64;
        for line in table.lines() {
            number = number.saturating_add(1);
            if !line.trim().is_empty() && !line.starts_with('#') {
                self.cases = self.cases.saturating_add(1);
                self.look_at(rt, line, number);
            }
        }
    }

    /// Compares what comes of a line with what stands after its arrow.
    fn look_at<R: Net + Threads>(&mut self, rt: &R, line: &str, number: u64) {
        match line.split_once(" => ") {
            None => self.unread(number, &[" has no arrow\n"]),
            Some((words, stated)) => match Question::read(self.out.alloc(), words) {
                None => self.unread(number, &[" can't be read: ", words, "\n"]),
                Some(question) => self.ask(rt, number, words, question, stated.trim()),
            },
        }
    }

    fn ask<R: Net + Threads>(
        &mut self,
        rt: &R,
        number: u64,
        words: &str,
        question: Question,
        stated: &str,
    ) {
        let mut came = Sheet::new(self.out.alloc());
        put_answer(rt, &mut came, question);
        if came.is_cut() {
            self.out.cut();
        }
        if came.as_str() != stated {
            self.differing = self.differing.saturating_add(1);
            self.put_line(number, &[": ", words, " => ", came.as_str(), "\n"]);
        }
    }

    fn unread(&mut self, number: u64, words: &[&str]) {
        self.unread = self.unread.saturating_add(1);
        self.put_line(number, words);
    }

    fn put_line(&mut self, number: u64, words: &[&str]) {
        self.out.put("line ");
        self.out.put_number(number);
        self.out.put_all(words);
    }

    /// All that is to be said, after the last line; an error if memory ran out at any place.
    fn finish(self) -> Result<String, AllocError> {
        let Report {
            mut out,
            cases,
            differing,
            unread: _,
        } = self;
        out.put_number(u64::from(cases));
        out.put(" cases, ");
        out.put_number(u64::from(differing));
        out.put(" differ\n");
        out.finish()
    }
}
