//! `lint`: what servers did wrong in a session that was recorded.
#![tactic(auto)]

mod choice;
mod form;
mod history;
mod lines;
mod linting;
mod objects;
mod reasons;
mod rows;

pub use form::LintForm;
pub use linting::lint;
