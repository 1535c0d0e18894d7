//! A sheet that the programs of cases write their answers on.
//!
//! No method says by a `Result` that memory ran out: the sheet notes it, and `finish` says so. A `?` at each word would
//! make the proof of each function that writes several times as expensive. The methods have no `ensures` for the same
//! reason: no caller needs to know what is written, the cases show it.
#![tactic(auto)]

use std::alloc::{AllocError, Global};

/// Text that is written word by word.
#[derive(Drop)]
pub struct Sheet {
    alloc: Global,
    text: String,
    is_cut: bool,
}

impl Sheet {
    /// An empty sheet.
    pub fn new(alloc: Global) -> Sheet {
        Sheet {
            alloc,
            text: String::new(alloc),
            is_cut: false,
        }
    }

    /// The allocator of its text.
    pub fn alloc(&self) -> Global {
        self.alloc
    }

    /// What is written so far.
    pub fn as_str(&self) -> &str {
        self.text.as_str()
    }

    /// Whether nothing is written yet.
    pub fn is_empty(&self) -> bool {
        self.text.is_empty()
    }

    /// Adds words as they are.
    pub fn put(&mut self, words: &str) {
        if self.text.push_str(words).is_err() {
            self.is_cut = true;
        }
    }

    /// Adds words one after another.
    pub fn put_all(&mut self, words: &[&str]) {
        for word in words {
            self.put(word);
        }
    }

    /// Adds a separator, unless nothing is written yet: each item of a list begins so.
    pub fn next(&mut self, separator: &str) {
        if !self.text.is_empty() {
            self.put(separator);
        }
    }

    /// Adds a number in decimal.
    pub fn put_number(&mut self, number: u64) {
        match number.to_string(self.alloc) {
            Ok(digits) => self.put(digits.as_str()),
            Err(_) => self.is_cut = true,
        }
    }

    /// Adds an integer in decimal.
    pub fn put_signed(&mut self, number: i64) {
        match number.to_string(self.alloc) {
            Ok(digits) => self.put(digits.as_str()),
            Err(_) => self.is_cut = true,
        }
    }

    /// Adds bytes in hexadecimal, in upper case; `-` for none.
    pub fn put_hex(&mut self, bytes: &[u8]) {
        if bytes.is_empty() {
            self.put("-");
            return;
        }
        match hex::encode_upper(self.alloc, bytes) {
            Ok(digits) => self.put(digits.as_str()),
            Err(_) => self.is_cut = true,
        }
    }

    /// Notes that memory ran out elsewhere.
    pub fn cut(&mut self) {
        self.is_cut = true;
    }

    /// Whether memory ran out.
    pub fn is_cut(&self) -> bool {
        self.is_cut
    }

    /// The text; an error if memory ran out at any place.
    pub fn finish(self) -> Result<String, AllocError> {
        let Sheet {
            alloc: _,
            text,
            is_cut,
        } = self;
        if is_cut { Err(AllocError) } else { Ok(text) }
    }
}
