/// What a table came to.
#[derive(Clone, Copy)]
pub struct Tally {
    cases: u64,
    differ: u64,
    refused: u64,
}

impl Tally {
    /// Nothing counted yet.
    pub fn new() -> Tally {
        Tally {
            cases: 0,
            differ: 0,
            refused: 0,
        }
    }

    /// Counts a case.
    pub fn count_case(&mut self) {
        self.cases = self.cases.saturating_add(1);
    }

    /// Counts a case, counted before, whose answer is another.
    pub fn count_other(&mut self) {
        self.differ = self.differ.saturating_add(1);
    }

    /// Counts a line that is not a case.
    pub fn count_refused(&mut self) {
        self.refused = self.refused.saturating_add(1);
    }

    /// How many cases there were.
    pub fn cases(&self) -> u64 {
        self.cases
    }

    /// How many cases had another answer.
    pub fn differ(&self) -> u64 {
        self.differ
    }

    /// The exit status: 2 where there was no case or a line was none, 1 where an answer differed, else 0.
    pub fn status(&self) -> u8 {
        if self.refused > 0 || self.cases == 0 {
            2
        } else if self.differ > 0 {
            1
        } else {
            0
        }
    }
}
