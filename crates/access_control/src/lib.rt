//! Access control: what a server may do to an object instance (OMA LwM2M 1.1 Core).
#![tactic(auto)]

pub mod laws;
mod letters;
mod readable;
mod right;

pub use letters::Rights;
pub use readable::{reads, shown_instances};
pub use right::{control, control_of, entry_of, integer_at, may_create, rights};
