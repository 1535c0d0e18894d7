//! A trace as JSON Lines, for scripts: a line that begins it, and one for each entry, with all that the text of the
//! trace says of it. And single lines: a verdict, a fault, how a run ended, what a device outputs, whether a case
//! holds.
#![tactic(auto)]

mod cases;
mod datagrams;
mod ends;
mod entries;
mod events;
mod laws;
mod lines;
mod members;
mod notes;
mod outputs;
mod reasons;
mod trace;
mod values;
mod words;

pub use cases::{CaseDifference, CaseParts, case_line, counts_line};
pub use ends::{outputs_line, run_end_line};
pub use laws::{lines_are_counted, lines_have_entries, lines_tell_entries, reasons_are_members};
pub use lines::{JsonLines, end_line, head_line, text_of};
pub use members::{put_number, put_string};
pub use notes::{FaultParts, fault_line, verdict_line};
pub use reasons::{SilentEnd, StepReasons};
pub use trace::selected_lines;
