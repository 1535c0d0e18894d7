//! Bytes as the crates of the bench keep them: a list of numbers below 256, which contracts see as that list.
#![tactic(auto)]

mod bytes;

pub use bytes::Bytes;
