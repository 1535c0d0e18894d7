//! What follows from the tables of requests, in the words of OMA LwM2M 1.1: what requests change, what a Read shows,
//! what payloads give, which targets exist, which formats are served, and what options say. Nothing runs here.
#![tactic(auto)]

mod laws;

pub use laws::{
    acts_are_asked, answers_hide_the_unreadable, attributes_are_set, creates_add_one_instance,
    deletes_take_what_belongs, executes_change_little, firmware_states_come_before_limits,
    formats_are_served, good_requests_are_done, instances_hold_what_was_given,
    operations_keep_others, options_are_understood, payloads_give_what_they_say,
    reads_multiple_resources, reads_show_what_is_held, reads_the_part_that_was_written,
    requests_change_what_they_ask, targets_exist, writes_are_kept,
};
