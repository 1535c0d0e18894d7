//! The scenario of a file, which is its image or its text.
#![tactic(auto)]

pub mod laws;
mod loading;

pub use loading::load_source;
