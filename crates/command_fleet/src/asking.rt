//! What may ask a session to end: standard input, whose end does so, or a line that is `q`.

use expectations::ExpectedCase;
use fleet_link::Fleet;
use mio::unix::SourceFd;
use mio::{Events, Interest, Poll, Token};
use std::alloc::{AllocError, Global};
use std::io;
use std::io::{BufRead, Input};
use std::net::Net;
use std::time::Duration;

/// What may ask a session to end.
pub trait Quit {
    ghost use Rattle.std.specs.Prelude.{◌≡◌, Bool};

    /// Whether it has asked so.
    ghost asked: { Self → Bool };

    /// Whether it has asked the session to end by now, whose devices are these, and in which servers have to send what
    /// is expected. It does not wait.
    fn asks(&mut self, fleet: &Fleet, goal: &[ExpectedCase]) -> bool
        ensures { result ≡ asked self.new };
}

/// The number of the file that is standard input.
const STANDARD_INPUT: i32 = 0;

/// What has come of a line that may be `q`.
#[derive(Clone, Copy)]
enum Line {
    Nothing,
    /// A `q`, and nothing else.
    Asks,
    Other,
}

/// Standard input, which is read as it comes. Nothing is claimed of what it has.
#[derive(Drop)]
pub(crate) struct StandardInput<B: BufRead + Drop> {
    reader: B,
    /// What says whether there is something to read; none for what never makes a reader wait, as a file.
    poll: Option<Poll>,
    events: Events,
    /// Whether its end asks the session to end.
    ends: bool,
    line: Line,
    /// Whether its end has come.
    over: bool,
    asked: bool,
}

/// Whether the system says so, where it can: no poll is had for what is always ready.
fn watch<R: Net>(rt: &R) -> io::Result<Option<Poll>> {
    let poll = Poll::new(rt)?;
    let registered = poll.registry().register(
        &mut SourceFd(&STANDARD_INPUT),
        Token(0),
        Interest::READABLE,
    );
    match registered {
        Ok(()) => Ok(Some(poll)),
        Err(_) => Ok(None),
    }
}

impl<B: BufRead + Drop> StandardInput<B> {
    /// Standard input, whose end asks the session to end, or does not. Where the system cannot watch it, it is never
    /// read.
    pub(crate) fn new<R: Net + Input<Reader = B>>(
        rt: &R,
        alloc: Global,
        ends: bool,
    ) -> Result<StandardInput<B>, AllocError> {
        let (poll, over) = match watch(rt) {
            Ok(poll) => (poll, false),
            Err(_) => (None, true),
        };
        Ok(StandardInput {
            reader: rt.reader(),
            poll,
            events: Events::with_capacity(alloc, 1)?,
            ends,
            line: Line::Nothing,
            over,
            asked: false,
        })
    }

    /// Whether it can be read, and does not make the reader wait.
    fn is_ready(&mut self) -> bool {
        match &mut self.poll {
            None => true,
            Some(poll) => match poll.poll(&mut self.events, Some(Duration::from_millis(0))) {
                Ok(()) => !self.events.is_empty(),
                Err(_) => false,
            },
        }
    }

    /// Has the system say again whether there is something to read.
    fn watch_again(&mut self) {
        if let Some(poll) = &self.poll {
            let _again = poll.registry().reregister(
                &mut SourceFd(&STANDARD_INPUT),
                Token(0),
                Interest::READABLE,
            );
        }
    }

    /// Reads what is there.
    fn read(&mut self) {
        let count = match self.reader.fill_buf() {
            Ok(bytes) => {
                let (line, asks) = after(self.line, bytes);
                self.line = line;
                self.asked = self.asked || asks;
                bytes.len()
            }
            Err(_) => 0,
        };
        self.reader.consume(count);
        if count == 0 {
            self.over = true;
            self.asked = self.asked || self.ends;
        }
    }
}

/// What has come of a line after these bytes, and whether one of those that they end asks for the end.
fn after(line: Line, bytes: &[u8]) -> (Line, bool) {
    let mut line = line;
    let mut asks = false;
    for byte in bytes {
        line = match (line, *byte) {
            (Line::Asks, b'\n') => {
                asks = true;
                Line::Nothing
            }
            (_, b'\n') => Line::Nothing,
            (Line::Nothing, b'q') => Line::Asks,
            _ => Line::Other,
        };
    }
    (line, asks)
}

impl<B: BufRead + Drop> Quit for StandardInput<B> {
    ghost asked = { λ input. input.asked };

    fn asks(&mut self, _fleet: &Fleet, _goal: &[ExpectedCase]) -> bool {
        if self.asked || self.over {
            return self.asked;
        }
        if self.is_ready() {
            self.read();
            self.watch_again();
        }
        self.asked
    }
}
