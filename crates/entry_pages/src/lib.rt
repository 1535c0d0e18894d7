//! Entries of a run in pages, which are never moved to make room for more.
#![tactic(auto)]

mod entries;
mod pages;

pub use entries::EntryIter;
pub use pages::{PAGE, Pages};
