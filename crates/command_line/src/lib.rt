//! The words of the command line, and what they ask the program to do. Nothing else of the project names `clap`.
#![tactic(auto)]

mod argument;
mod commands;
mod fleet_words;
mod help;
mod jobs;
mod subcommands;
mod values;
mod verdict_words;
mod wire_words;
mod words;

pub use fleet_words::AskedFleet;
pub use verdict_words::AskedVerdict;
pub use wire_words::AskedWire;
pub use words::{Asked, CaseForm, EntriesForm, Job, Live, NO_TEXT, TraceForm, read};
