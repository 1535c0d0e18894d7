//! `test --on`: the expectations of files, judged in the rows of a scenario, and what is printed of them.
#![tactic(auto)]

mod answers;
mod judging;

pub use answers::{expect, report_on};
