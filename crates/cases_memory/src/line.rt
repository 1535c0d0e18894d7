//! The words that come of a case.
//!
//! No method returns a `Result`, as none of `Sheet` does: calls are made with a device, a fleet or a debugger at hand,
//! and an exit for each word would make the proof of each such function several times as expensive. Memory that is
//! refused while a case is prepared, or while its words are written, is noted with `cut`, and `end` says it.
use byte_layout::LayoutFault;
use case_sheet::Sheet;
use device_machine::{Act, Output};
use scenario_image::{Scenario, save};
use std::alloc::{AllocError, Global};

/// Words, with a space between them, and whether the call of the case was refused memory.
#[derive(Drop)]
pub struct Line {
    sheet: Sheet,
    is_refused: bool,
}

impl Line {
    /// No word.
    pub fn new(alloc: Global) -> Line {
        Line {
            sheet: Sheet::new(alloc),
            is_refused: false,
        }
    }

    /// The allocator of the words.
    pub fn alloc(&self) -> Global {
        self.sheet.alloc()
    }

    /// The words.
    pub fn as_str(&self) -> &str {
        self.sheet.as_str()
    }

    /// Adds words.
    pub fn add(&mut self, words: &str) {
        self.sheet.next(" ");
        self.sheet.put(words);
    }

    /// Adds words and a number.
    pub fn add_count(&mut self, words: &str, number: u64) {
        self.add(words);
        self.sheet.put(" ");
        self.sheet.put_number(number);
    }

    /// Adds bytes in hex.
    pub fn add_bytes(&mut self, bytes: &[u8]) {
        self.sheet.next(" ");
        self.sheet.put_hex(bytes);
    }

    /// Adds the image of a scenario.
    pub fn add_image(&mut self, scenario: &Scenario) {
        match save(self.alloc(), scenario) {
            Ok(image) => self.add_bytes(image.as_slice()),
            Err(AllocError) => self.cut(),
        }
    }

    /// The call was refused memory.
    pub fn refuse(&mut self) {
        self.add("memory,");
        self.is_refused = true;
    }

    /// Whether the call was refused memory: then it is made once more.
    pub fn is_refused(&self) -> bool {
        self.is_refused
    }

    /// The call returned that bytes have this fault.
    pub fn add_fault(&mut self, fault: LayoutFault) {
        match fault {
            LayoutFault::Memory => self.refuse(),
            LayoutFault::Magic => self.add("magic"),
            LayoutFault::Version => self.add("version"),
            LayoutFault::Cut => self.add("cut"),
            LayoutFault::Trailing => self.add("trailing"),
            LayoutFault::BadField(place) => self.add_count("bad field at", place as u64),
            LayoutFault::Limit(place) => self.add_count("limit at", place as u64),
        }
    }

    /// How many of the calls after that were refused since what was called is spent.
    pub fn add_spent(&mut self, refused: u64, asked: u64) {
        self.add_count("then spent", refused);
        self.add_count("of", asked);
        self.sheet.put(",");
    }

    /// Adds what a device output: of more than eight outputs how many there are, the first and the last.
    pub fn add_outputs(&mut self, outputs: &[Output]) {
        if outputs.is_empty() {
            self.add("nothing");
        }
        if outputs.len() > 8 {
            self.add_ends(outputs);
        } else {
            for output in outputs {
                self.add_output(output);
            }
        }
    }

    fn add_ends(&mut self, outputs: &[Output]) {
        self.add_count("outputs", outputs.len() as u64);
        if let (Some(first), Some(last)) = (outputs.first(), outputs.last()) {
            self.add("first");
            self.add_output(first);
            self.add("last");
            self.add_output(last);
        }
    }

    fn add_output(&mut self, output: &Output) {
        match output {
            Output::Send { server, bytes } => self.add_sent(*server, bytes.as_slice()),
            Output::Act(Act::Missed) => self.add("act missed"),
            Output::Act(_) => self.add("act"),
        }
    }

    /// Adds a datagram to a server.
    pub fn add_sent(&mut self, server: u16, bytes: &[u8]) {
        self.add_count("send", u64::from(server));
        self.add_bytes(bytes);
    }

    /// Memory was refused outside of the call.
    pub fn cut(&mut self) {
        self.sheet.cut();
    }

    /// The same, unless what takes memory was done.
    pub fn need(&mut self, is_done: bool) {
        if !is_done {
            self.cut();
        }
    }

    /// Says whether memory was refused outside of the call.
    pub fn end(&mut self) {
        if self.sheet.is_cut() {
            self.add("memory was refused outside of the call");
        }
    }
}
