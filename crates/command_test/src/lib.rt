//! `test`: the cases of files, played, and what is printed of them; or their titles.
#![tactic(auto)]

mod answers;
mod came;
mod playing;
mod sending;
mod words;

pub use answers::{test, titles};
pub use playing::play;
