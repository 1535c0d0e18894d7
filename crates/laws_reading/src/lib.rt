//! What texts and bytes say, as relations that a reader can check against the grammar, and that they are what is read.
//! The calls do nothing; their contracts are the laws.
#![tactic(auto)]

mod laws;

pub use laws::{
    decimals_are_read, first_fault_decides, lines_have_words, messages_read_again,
    queries_are_said, statements_are_said, wrong_statements_are_said, wrong_words_are_said,
};
