//! Whether cases hold, and what came where they do not. A case of a scenario: what it states of the outputs and the
//! states of devices, beside what the rows of the scenario say. A case of a file: what it states, beside what is found
//! in the file, and in others that are made of it.
#![tactic(auto)]

mod answer_place;
mod arrivals;
mod below;
mod came;
mod differences;
mod digits;
mod ends;
mod entries;
mod faults;
mod file_judging;
mod file_stating;
mod finding;
mod instead;
mod items;
mod judging;
mod laws;
mod looking;
mod making;
mod messages;
mod outcomes;
mod outputs;
mod questions;
mod recorded;
mod refusals;
mod text_faults;
mod trying;
mod verdict;
mod walk;
mod written;

pub use came::Came;
pub use digits::matches;
pub use entries::entries_in_words;
pub use faults::fault_words;
pub use file_judging::{judge, judge_file};
pub use finding::Finding;
pub use judging::judge_scenario;
pub use laws::what_is_tried;
pub use verdict::Verdict;
