//! The lines of a table of cases.
use crate::given::number_of;
use std::alloc::Global;

/// A text that cases name.
#[derive(Drop)]
pub struct Text<'a> {
    pub name: &'a str,
    pub text: String,
}

/// A call, and the lines of which one has to come.
#[derive(Drop)]
pub struct Case<'a> {
    /// The number of its line.
    pub line: u32,
    /// The call, the name of a text, and what else the call is given.
    pub words: &'a str,
    /// Whether one of the lines has to come, or none of them.
    pub is_same: bool,
    pub stated: Vec<&'a str>,
}

/// What a table has.
#[derive(Drop)]
pub struct Table<'a> {
    alloc: Global,
    pub texts: Vec<Text<'a>>,
    pub cases: Vec<Case<'a>>,
    /// Whether memory ran out, so that something is missing.
    pub is_cut: bool,
}

impl<'a> Table<'a> {
    /// Without a text and a case.
    pub fn new(alloc: Global) -> Table<'a> {
        Table {
            alloc,
            texts: Vec::new(alloc),
            cases: Vec::new(alloc),
            is_cut: false,
        }
    }

    /// Takes all lines. The number of the first one that can't be read, if there is one.
    pub fn read(&mut self, text: &'a str) -> Option<u32> {
        let mut number: u32 = 0;
        for line in text.lines() {
            number = number.saturating_add(1);
            if !line.trim().is_empty() && !line.starts_with('#') && !self.take(number, line) {
                return Some(number);
            }
        }
        None
    }

    /// Takes a line. Whether it could be read, and had its place there.
    fn take(&mut self, number: u32, line: &'a str) -> bool {
        let (first, rest) = match line.split_once(' ') {
            Some(parts) => parts,
            None => (line, ""),
        };
        match first {
            "text" => self.add_text(rest),
            "|" => self.add_line(rest),
            "*" => self.add_lines(rest),
            "case" => self.add_case(number, rest, true),
            "!case" => self.add_case(number, rest, false),
            // what comes where memory is refused; tools/check/refusals states it in the place of what else comes
            "->" => !self.cases.is_empty(),
            "=>" => self.add_stated(rest),
            _ => false,
        }
    }

    fn add_text(&mut self, name: &'a str) -> bool {
        let text = String::new(self.alloc);
        if self.texts.push(Text { name, text }).is_err() {
            self.is_cut = true;
        }
        !name.is_empty()
    }

    fn add_line(&mut self, line: &str) -> bool {
        let Some(text) = self.texts.last_mut() else {
            return false;
        };
        if text.text.push_str(line).is_err() || text.text.push('\n').is_err() {
            self.is_cut = true;
        }
        true
    }

    /// A number, and a line that is added as often.
    fn add_lines(&mut self, rest: &str) -> bool {
        let Some((count, line)) = rest.split_once(' ') else {
            return false;
        };
        for _ in 0..number_of(count) {
            if !self.add_line(line) {
                return false;
            }
        }
        true
    }

    fn add_case(&mut self, line: u32, words: &'a str, is_same: bool) -> bool {
        let case = Case {
            line,
            words,
            is_same,
            stated: Vec::new(self.alloc),
        };
        if self.cases.push(case).is_err() {
            self.is_cut = true;
        }
        true
    }

    fn add_stated(&mut self, line: &'a str) -> bool {
        let Some(case) = self.cases.last_mut() else {
            return false;
        };
        if case.stated.push(line).is_err() {
            self.is_cut = true;
        }
        true
    }
}
