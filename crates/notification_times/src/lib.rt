//! At which second something is due: the first one from which on a message is so old, and those at which a Confirmable
//! notification is sent again, or given up.
#![tactic(auto)]

mod first;
mod resending;

pub use first::{earlier, first_at};
pub use resending::{is_resent, is_timed_out, next_resending};
