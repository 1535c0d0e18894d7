//! What a server has to send, as lines of a file, and whether the datagrams that a device's row receives are that.
//! docs/use/expectations.md has it in words.
#![tactic(auto)]

mod arrival;
mod checking;
mod expectation;
mod expecting;
mod file;
mod grouping;
mod judging;
mod laws;
mod limits;
mod line;
mod reading;
mod row;
mod settling;
mod verdict;
mod what;

pub use arrival::Arrival;
pub use expectation::{Expectation, Expectations, Expected, ExpectedCase};
pub use expecting::is_expected;
pub use file::read_expectations;
pub use judging::judge;
pub use laws::{earlier_lines, later_arrivals, one_verdict, settled_verdicts};
pub use row::{arrivals_of, end_of_row, received_in};
pub use settling::is_settled;
pub use verdict::Verdict;
pub use what::{AskedRequest, Details, What};
