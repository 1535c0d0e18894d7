//! `load - HEX`, `save TEXT`, `assemble TEXT`, `disassemble TEXT`: a scenario in each of its forms.
use crate::given::Given;
use crate::line::Line;
use crate::marks::Marks;
use scenario_asm::{assemble, disassemble};
use scenario_image::{load, save};
use scenario_words::{Cause, cause_words};
use std::alloc::AllocError;

pub fn load_image(given: &Given, marks: &mut Marks, line: &mut Line) {
    let Ok(bytes) = hex::decode(given.alloc, given.words) else {
        return line.add("no hex");
    };
    marks.begin();
    let loaded = load(given.alloc, bytes.as_slice());
    marks.end();
    match loaded {
        Ok(scenario) => line.add_image(&scenario),
        Err(fault) => line.add_fault(fault),
    }
}

pub fn save_scenario(given: &Given, marks: &mut Marks, line: &mut Line) {
    marks.begin();
    let saved = save(given.alloc, given.scenario);
    marks.end();
    match saved {
        Ok(image) => line.add_bytes(image.as_slice()),
        Err(AllocError) => line.refuse(),
    }
}

pub fn assemble_text(given: &Given, marks: &mut Marks, line: &mut Line) {
    marks.begin();
    let assembled = assemble(given.alloc, given.text);
    marks.end();
    match assembled {
        Ok(scenario) => line.add_image(&scenario),
        Err(fault) => match fault.cause {
            Cause::Memory => line.refuse(),
            cause => {
                line.add_count("line", fault.line as u64);
                line.add(cause_words(cause));
            }
        },
    }
}

/// Adds the canonical text, with `/` in the place of each line feed.
pub fn print_text(given: &Given, marks: &mut Marks, line: &mut Line) {
    marks.begin();
    let text = disassemble(given.alloc, given.scenario);
    marks.end();
    match text {
        Ok(text) => {
            for part in text.as_str().lines() {
                line.add(part);
                line.add("/");
            }
        }
        Err(AllocError) => line.refuse(),
    }
}
