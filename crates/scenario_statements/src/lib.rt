//! What a line of scenario text says: its statement, read from the line's words, and written.
#![tactic(auto)]

mod acks;
mod choice;
mod laws;
mod reading;
mod statement;
mod writing;

pub use acks::{Ack, ack_bytes, acknowledged, read_ack, said_ack};
pub use laws::statements_read_again;
pub use reading::read_statement;
pub use statement::Statement;
pub use writing::{line_of, recv_line, value_line};
