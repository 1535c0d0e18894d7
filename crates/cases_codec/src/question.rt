//! The words of a question, read one after another.
//!
//! No method says by a `Result` that a word can't be read or that memory ran out: the question notes it, goes on with a
//! value that stands for any, and `main` looks once at what is noted. What is written in the meantime is thrown away.

use std::alloc::Global;

/// The words of a question that are not read yet.
#[derive(Clone, Copy)]
pub struct Question<'a> {
    alloc: Global,
    rest: &'a str,
    fault: Option<&'static str>,
    is_cut: bool,
}

impl<'a> Question<'a> {
    /// A question of these words.
    pub fn new(alloc: Global, words: &'a str) -> Question<'a> {
        Question {
            alloc,
            rest: words,
            fault: None,
            is_cut: false,
        }
    }

    /// The allocator of what is read.
    pub fn alloc(&self) -> Global {
        self.alloc
    }

    /// The first reason why the words can't be read.
    pub fn fault(&self) -> Option<&'static str> {
        self.fault
    }

    /// Whether memory ran out.
    pub fn is_cut(&self) -> bool {
        self.is_cut
    }

    /// Notes why words can't be read.
    pub fn refuse(&mut self, why: &'static str) {
        if self.fault.is_none() {
            self.fault = Some(why);
        }
    }

    /// Notes that memory ran out.
    pub fn cut(&mut self) {
        self.is_cut = true;
    }

    /// Goes on with other words.
    pub fn turn_to(&mut self, words: &'a str) {
        self.rest = words;
    }

    /// The words that are left, which stay.
    pub fn rest(&self) -> &'a str {
        self.rest
    }

    /// Whether no word is left.
    pub fn is_over(&self) -> bool {
        self.rest.is_empty()
    }

    /// Refuses further words.
    pub fn end(&mut self) {
        if !self.rest.is_empty() {
            self.refuse("a word too many");
        }
    }

    /// The next word.
    pub fn word(&mut self) -> &'a str {
        let rest = self.rest;
        if rest.is_empty() {
            self.refuse("a word is missing");
        }
        match rest.split_once(' ') {
            Some((word, behind)) => {
                self.rest = behind.trim_start();
                word
            }
            None => {
                self.rest = "";
                rest
            }
        }
    }

    /// Refuses any other next word than this one.
    pub fn expect(&mut self, name: &str) {
        if self.word() != name {
            self.refuse("another word was expected");
        }
    }

    /// The next word as a number from 0 on.
    pub fn natural(&mut self) -> u64 {
        let word = self.word();
        self.natural_of(word)
    }

    /// A word as a number from 0 on.
    pub fn natural_of(&mut self, word: &str) -> u64 {
        match word.parse::<u64>() {
            Ok(number) => number,
            Err(_) => {
                self.refuse("not a number");
                0
            }
        }
    }

    /// The next word as a number of 16 bits.
    pub fn half(&mut self) -> u16 {
        let word = self.word();
        self.half_of(word)
    }

    /// A word as a number of 16 bits.
    pub fn half_of(&mut self, word: &str) -> u16 {
        match word.parse::<u16>() {
            Ok(number) => number,
            Err(_) => {
                self.refuse("not a number of 16 bits");
                0
            }
        }
    }

    /// The next word as a number of 8 bits.
    pub fn byte(&mut self) -> u8 {
        let number = self.half();
        self.byte_of(number)
    }

    /// A number that has to be one of 8 bits.
    pub fn byte_of(&mut self, number: u16) -> u8 {
        match u8::try_from(number) {
            Ok(number) => number,
            Err(_) => {
                self.refuse("not a number of 8 bits");
                0
            }
        }
    }

    /// The next word as an integer of 64 bits.
    pub fn integer(&mut self) -> i64 {
        let word = self.word();
        self.integer_of(word)
    }

    /// A word as an integer of 64 bits.
    pub fn integer_of(&mut self, word: &str) -> i64 {
        match word.parse::<i64>() {
            Ok(number) => number,
            Err(_) => {
                self.refuse("not an integer of 64 bits");
                0
            }
        }
    }

    /// The last word as a number from 0 on.
    pub fn last_natural(&mut self) -> u64 {
        let number = self.natural();
        self.end();
        number
    }

    /// The last word as a number of 16 bits.
    pub fn last_half(&mut self) -> u16 {
        let number = self.half();
        self.end();
        number
    }

    /// The last word as an integer of 64 bits.
    pub fn last_integer(&mut self) -> i64 {
        let number = self.integer();
        self.end();
        number
    }
}
