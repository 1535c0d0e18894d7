//! Runs of a scenario: what they are, how they are made on one thread, and how they are checked.
#![tactic(auto)]

mod checking;
mod checking_file;
mod fault;
mod fleet;
mod held;
mod laws;
mod next;
mod past;
mod performing;
mod queue;
mod replay;
mod roster;
mod same;
mod serial;
mod verdict;
mod waiters;
mod waiting;

pub use checking::check;
pub use checking_file::check_file;
pub use fault::CommitFault;
pub use fleet::Fleet;
pub use held::{Held, make_entry};
pub use laws::{
    blocks_follow, counts_add_up, devices_stand_alone, outputs_are_the_rows, runs_agree, runs_end,
    runs_grow, steps_are_taken,
};
pub use next::{Next, may_pass, next_of};
pub use performing::{make_step, note_post, start_devices, start_of_row, step_of};
pub use replay::Replay;
pub use serial::run_serial;
pub use trace_file::{Entries, Entry, WriteFault, read_entries, write_entries};
pub use verdict::Verdict;
pub use waiting::{count_entries, unfinished};
