//! What the debugger reads and answers: the command that a line of its input says, and what is answered to it.
#![tactic(auto)]

mod breaks;
mod command;
mod help;
mod laws;
mod lines;
mod moves;
mod notes;
mod outputs;
mod points;
mod reading;
mod replies;
mod show;
mod why;

pub use breaks::{add_break, clear, resume};
pub use command::{Command, Point};
pub use help::show_help;
pub use laws::{commands_read_again, one_command};
pub use moves::{back, forward, place};
pub use notes::no_command;
pub use outputs::outputs_text;
pub use reading::{asks_for_help, command_in, read_command};
pub use replies::{Reply, reply_to};
pub use show::{show_observations, show_outputs, show_value};
pub use why::show_why;
