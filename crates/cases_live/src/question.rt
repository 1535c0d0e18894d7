//! What a line asks: a session.
use hex::FromHexError;
use live_link::{Packet, Receipt};
use octets::Bytes;
use std::alloc::Global;

/// A session: of how many turns, and what its clock and its wire do.
#[derive(Drop)]
pub struct Question {
    pub turns: u32,
    /// What the clock shows, one reading after another.
    pub readings: Vec<u64>,
    /// What the calls of `receive` give, one after another.
    pub receipts: Vec<Receipt>,
    /// The call of `send` that fails, counted from 0, if one does.
    pub failing: Option<u64>,
    /// The datagram that a client sends over UDP, if it is a session over UDP.
    pub asked: Option<Vec<u8>>,
    /// Whether memory ran out.
    pub is_cut: bool,
}

/// What the words after a keyword are.
#[derive(Clone, Copy)]
enum Part {
    Turns,
    Clock,
    Hears,
    Fails,
    Udp,
}

impl Part {
    fn named(word: &str) -> Option<Part> {
        match word {
            "turns" => Some(Part::Turns),
            "clock" => Some(Part::Clock),
            "hears" => Some(Part::Hears),
            "fails" => Some(Part::Fails),
            "udp" => Some(Part::Udp),
            _ => None,
        }
    }
}

impl Question {
    /// What the words say; none where they can't be read.
    pub fn read(alloc: Global, words: &str) -> Option<Question> {
        let mut question = Question {
            turns: 0,
            readings: Vec::new(alloc),
            receipts: Vec::new(alloc),
            failing: None,
            asked: None,
            is_cut: false,
        };
        let mut part = Part::Turns;
        let mut is_read = true;
        for word in words.split_whitespace() {
            match Part::named(word) {
                Some(named) => part = named,
                None => is_read = question.take(alloc, part, word) && is_read,
            }
        }
        if is_read { Some(question) } else { None }
    }

    /// Takes a word. Whether it could be read.
    fn take(&mut self, alloc: Global, part: Part, word: &str) -> bool {
        match part {
            Part::Hears => return self.hear(alloc, word),
            Part::Udp => return self.ask(alloc, word),
            Part::Turns => match word.parse::<u32>() {
                Ok(turns) => self.turns = turns,
                Err(_) => return false,
            },
            Part::Clock => match word.parse::<u64>() {
                Ok(reading) => self.read_clock(reading),
                Err(_) => return false,
            },
            Part::Fails => match word.parse::<u64>() {
                Ok(place) => self.failing = Some(place),
                Err(_) => return false,
            },
        }
        true
    }

    fn read_clock(&mut self, reading: u64) {
        if self.readings.push(reading).is_err() {
            self.is_cut = true;
        }
    }

    /// Takes what the wire gives: `nothing`, `failure`, or `SERVER:HEX` with `-` for no bytes. Whether it could be
    /// read.
    fn hear(&mut self, alloc: Global, word: &str) -> bool {
        match word.split_once(':') {
            Some((server, digits)) => self.hear_packet(alloc, server, digits),
            None if word == "nothing" => self.keep(Receipt::Nothing),
            None if word == "failure" => self.keep(Receipt::Failure),
            None => false,
        }
    }

    fn hear_packet(&mut self, alloc: Global, server: &str, digits: &str) -> bool {
        let Ok(server) = server.parse::<u16>() else {
            return false;
        };
        match hex::decode(alloc, if digits == "-" { "" } else { digits }) {
            Ok(bytes) => self.keep(Receipt::Arrived(Packet {
                server,
                bytes: Bytes::from_vec(bytes),
            })),
            Err(FromHexError::OutOfMemory) => {
                self.is_cut = true;
                true
            }
            Err(_) => false,
        }
    }

    /// Takes a datagram that a client sends. Whether it could be read.
    fn ask(&mut self, alloc: Global, digits: &str) -> bool {
        match hex::decode(alloc, digits) {
            Ok(bytes) => self.asked = Some(bytes),
            Err(FromHexError::OutOfMemory) => self.is_cut = true,
            Err(_) => return false,
        }
        true
    }

    fn keep(&mut self, receipt: Receipt) -> bool {
        if self.receipts.push(receipt).is_err() {
            self.is_cut = true;
        }
        true
    }
}
