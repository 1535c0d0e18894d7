//! What a Discover prints can be read: its attributes as queries, its payload as links. Links show what is set. Nothing
//! runs here.
#![tactic(auto)]

mod laws;

pub use laws::{
    attributes_stay_valid, discovers_are_read, links_ascend, links_show_what_is_set,
    printed_attributes_are_read, reached_attributes_are_sound, shown_attributes_are_queries,
};
