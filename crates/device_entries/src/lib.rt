//! Where in a run each device has its entries.
#![tactic(auto)]

mod places;

pub use places::{Places, all_places, count_before, has_earlier};
