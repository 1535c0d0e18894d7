//! A debugger over a recorded run: what each device shows at each place of it, and where breakpoints hold.
#![tactic(auto)]

mod breaks;
mod changes;
mod copies;
mod fault;
mod latest;
mod laws;
mod moves;
mod points;
mod search;
mod session;
mod slots;
mod steps;
mod watches;

pub use breaks::{Break, Stop};
pub use fault::{AddFault, BackFault, DeviceFault, ForwardFault, OpenFault, RemoveFault};
pub use laws::{breaks_need_a_row, ends_show_the_rows, moves_add_up, orders_show_the_same};
pub use session::Debugger;
