//! Images of scenarios and trace files, byte for byte. Nothing runs here.
#![tactic(auto)]

mod parts;
mod worked;

pub use parts::parts_have_bytes;
pub use worked::{faults_are_found, image_is_spelled, trace_is_spelled};
