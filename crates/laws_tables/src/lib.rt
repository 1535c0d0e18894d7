//! What the tables of rights, firmware, attributes and classes say, in the words of OMA LwM2M 1.1. Nothing runs here.
#![tactic(auto)]

mod attributes;
mod classes;
mod firmware;
mod periods;
mod rights;
mod triggers;

pub use attributes::lowest_level_has_effect;
pub use classes::refusals_are_in_order;
pub use firmware::firmware_follows_its_table;
pub use periods::periods_are_set;
pub use rights::{entries_speak_for_servers, letters_are_bits};
pub use triggers::triggers_are_said;
