//! Where memory is refused.
use std::alloc::Global;

/// What is done around the call that a case is about.
#[derive(Clone, Copy)]
pub enum Mode {
    /// So many boxes are made before the call, and each is freed at once.
    Boxes(u32),
    /// Before the call boxes are made until one is refused.
    CountBefore,
    /// The same after the call.
    CountAfter,
}

/// More than the allocations that a call makes in one run and not in another.
const MOST_FEWER: u32 = 100;

/// The beginning and the end of a call. `rt try --fail-alloc N` refuses the Nth allocation of the whole program, and
/// only that one; so boxes decide which of the call's own allocations it is. A call that is made once more stands
/// between no marks.
#[derive(Drop)]
pub struct Marks {
    alloc: Global,
    mode: Mode,
    has_begun: bool,
    has_ended: bool,
    counted: Option<u32>,
}

impl Marks {
    /// Before the call.
    pub fn new(alloc: Global, mode: Mode) -> Marks {
        Marks {
            alloc,
            mode,
            has_begun: false,
            has_ended: false,
            counted: None,
        }
    }

    /// How many boxes were made before one was refused, where that was to be counted.
    pub fn counted(&self) -> Option<u32> {
        self.counted
    }

    /// The call comes next.
    pub fn begin(&mut self) {
        if self.has_begun {
            return;
        }
        self.has_begun = true;
        match self.mode {
            Mode::Boxes(count) => {
                make(self.alloc, count);
            }
            Mode::CountBefore => self.counted = Some(make(self.alloc, u32::MAX)),
            Mode::CountAfter => {}
        }
    }

    /// Makes boxes in the place of allocations that the call makes in another run and not in this one, as threads that
    /// share its work may: a refusal that the call did not meet then meets a box, and nothing that follows.
    pub fn make_up(&mut self) {
        if let Mode::Boxes(_) = self.mode {
            make(self.alloc, MOST_FEWER);
        }
    }

    /// The call has returned.
    pub fn end(&mut self) {
        if self.has_ended {
            return;
        }
        self.has_ended = true;
        if let Mode::CountAfter = self.mode {
            self.counted = Some(make(self.alloc, u32::MAX));
        }
    }
}

/// Makes boxes, `most` at most, until one is refused: how many were made.
fn make(alloc: Global, most: u32) -> u32 {
    for made in 0..most {
        match Box::new(alloc, 0u8) {
            Ok(_) => {}
            Err(_) => return made,
        }
    }
    most
}
