//! What the observations of a device do second by second (RFC 7641; OMA LwM2M 1.1 Core, attributes).
#![tactic(auto)]

mod datagram;
mod deeds;
mod evaluation;
mod laws;
mod notification;
mod outbox;
mod outlooks;
mod period;
mod reach;
mod report;
mod sweep;

pub use datagram::Datagram;
pub use evaluation::Evaluation;
pub use laws::{
    counts_message_ids, counts_observe_numbers, due_is_the_first_sending, keeps_order,
    loses_nothing, never_opens_with_nons, others_do_not_reach, quiet_seconds_change_nothing,
    seconds_add, seconds_jump, sends_after_pmin, sends_before_pmax, sends_five_times_at_most,
};
pub use outbox::Outbox;
pub use outlooks::{say_all, say_named};
pub use period::{pmax_of, pmin_of};
pub use reach::say_reached;
pub use report::report_of;
pub use sweep::seconds;
