//! `fleet`: devices of a scenario on UDP, each at a port of its own.
#![tactic(auto)]

mod asking;
mod concluding;
mod devices;
mod in_json;
mod listing;
mod places;
mod placing;
mod rows;
mod servers;
mod serving;
mod session;
mod settling;
mod shortfall;
mod snapshots;
mod telling;
mod wires;

pub use asking::Quit;
pub use concluding::{Held, conclude_session, done_line};
pub use devices::{chosen_devices, part_of};
pub use in_json::{done_object, port_object, ready_object, second_line};
pub use listing::listed_line;
pub use places::ready_line;
pub use placing::port_line;
pub use serving::{Served, serve_part};
pub use session::fleet;
pub use shortfall::Shortfall;
pub use telling::{Telling, progress_line, telling_of};
