//! What a text says of a scenario, and where it is refused, as relations on its lines, beside the assembler's reading.
#![tactic(auto)]

mod laws;

pub use laws::{
    blank_lines_add_nothing, causes_are_said, classes_hold_what_is_stated, faults_are_first,
    parts_are_said, refused_at_first_wrong_line,
};
