//! Scenarios from their text, and their text: what each statement adds, the first line that is refused, and the
//! canonical text of a scenario. docs/use/scenario-text.md has it in words.
#![tactic(auto)]

mod assembling;
mod causes;
mod class;
mod draft;
mod fault;
mod laws;
mod limit;
mod printing;

pub use assembling::{assemble, assemble_or_limit};
pub use fault::{AsmFault, TextFault};
pub use laws::{
    canonical_lines, canonical_text, limits_are_named, non_confirmable_is_not_said,
    statements_are_sayable, texts_denote,
};
pub use limit::ScenarioLimit;
pub use printing::disassemble;
pub use scenario_words::spell;
