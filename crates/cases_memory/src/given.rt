//! What a call is given.
use scenario_asm::assemble;
use scenario_image::Scenario;
use scenario_words::Cause;
use std::alloc::{AllocError, Global};

/// What a case gives to its call.
#[derive(Drop)]
pub struct Given<'a> {
    pub alloc: Global,
    /// The text that the case names.
    pub text: &'a str,
    /// The scenario of that text; an empty one, where it is not a text of a scenario.
    pub scenario: &'a Scenario,
    /// The words after the name of the text.
    pub words: &'a str,
}

impl Given<'_> {
    /// The word at this place, as a number; 0 where there is none.
    pub fn number(&self, place: usize) -> usize {
        match self.words.split_whitespace().nth(place) {
            Some(word) => number_of(word) as usize,
            None => 0,
        }
    }
}

/// A word as a number; 0 if it is none.
pub fn number_of(word: &str) -> u32 {
    word.parse::<u32>().unwrap_or(0)
}

/// The scenario of a text; an empty one, if it is not a text of a scenario.
pub fn scenario_of(alloc: Global, text: &str) -> Result<Scenario, AllocError> {
    match assemble(alloc, text) {
        Ok(scenario) => Ok(scenario),
        Err(fault) => match fault.cause {
            Cause::Memory => Err(AllocError),
            _ => Ok(Scenario::empty(alloc)),
        },
    }
}
