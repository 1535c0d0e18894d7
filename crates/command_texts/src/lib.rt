//! What several families of commands say of texts and of runs: the scenario of a text, or why it is refused and which
//! word is to blame; the fault of entries that a run does not have; and the line of how a run ended.
#![tactic(auto)]

mod blaming;
mod endings;
mod selections;
mod texts;

pub use blaming::{LineReader, refuse_by, statement_cause};
pub use endings::end_line;
pub use selections::selection_fault;
pub use texts::{load_text, text_of};
