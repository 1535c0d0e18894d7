//! What follows from the tables of a device, for those who manage and observe it. The calls do nothing; their contracts
//! are the laws.
#![tactic(auto)]

mod changing;
mod confirming;
mod messages;
mod notifying;
mod numbering;
mod receiving;
mod sending;
mod serving;
mod ticking;

pub use changing::{firmware_ends_by_its_table, puts_set_one_value, requests_change_a_device};
pub use confirming::{nons_await_nothing, unanswered_are_sent_five_times};
pub use messages::datagrams_are_messages;
pub use notifying::{notifies_for_cause, sends_again, settled_are_quiet};
pub use numbering::message_ids_count_on;
pub use receiving::reactions_are_said;
pub use sending::{changes_send_nothing, only_the_asker_is_answered, strangers_are_ignored};
pub use serving::{refusals_are_bare, requests_are_served};
pub use ticking::{
    quiet_ends_when_due, settled_rows_are_quiet, settled_ticks_are_quiet, ticks_at_rest_are_quiet,
    ticks_notify_for_cause,
};
