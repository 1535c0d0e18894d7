//! `asm`, `dis`, `run` and `check`: scenarios as texts and images, and their runs.
#![tactic(auto)]

mod answers;
mod runs;
mod texts;
mod verdicts;

pub use answers::{asm, check, check_json, dis, run};
pub use texts::count_line;
