//! The entries of a run, and the file of a trace, which holds them. docs/use/files.md has the file in words.
#![tactic(auto)]

mod entries;
mod entry;
mod fault;
mod laws;
mod reading;
mod taking;
mod writing;

pub use entries::Entries;
pub use entry::Entry;
pub use fault::WriteFault;
pub use laws::{one_trace_file, what_has_a_trace_file};
pub use reading::read_entries;
pub use taking::{TakesEntries, take_file};
pub use writing::write_entries;
