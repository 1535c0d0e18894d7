//! A fault as an object in JSON, in the place of its line.
#![tactic(auto)]

mod cases;
mod object;
mod parts;
mod telling;

pub use object::object_line;
pub use telling::tell_in_json;
