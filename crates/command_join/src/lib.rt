//! `join`: the slices of a scenario, made one scenario again.
#![tactic(auto)]

mod classes;
mod joining;
mod loading;
mod order;
mod rows;
mod slice;
mod whole;

pub use joining::join;
