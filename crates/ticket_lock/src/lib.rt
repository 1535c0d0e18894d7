//! A lock whose holders enter in the order of their tickets, and which knows what each of its passes has seen.
#![tactic(auto)]

mod held;
pub mod laws;
mod lock;
mod logged;
mod pass;
mod rule;

pub use held::Held;
pub use lock::{PassesOut, Spent, TicketLock};
pub use logged::{Logged, Share};
pub use pass::{OneLeft, Pass};
pub use rule::{LAST, NUMBERS};
