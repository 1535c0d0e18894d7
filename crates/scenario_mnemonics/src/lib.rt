//! The mnemonics of scenario text: each is one request of a server, or a Reset, of which the text says no
//! more than it has to. What datagram a mnemonic is, what mnemonic a datagram has, and their words.
#![tactic(auto)]

mod action;
mod denoting;
mod format;
mod head;
mod laws;
mod message;
mod mnemonic;
mod options;
mod queries;
mod reading;
mod request_type;
mod token;
mod verb;
mod writing;

pub use action::Action;
pub use denoting::mnemonic_for;
pub use format::Format;
pub use laws::{one_mnemonic, words_again};
pub use message::encode;
pub use mnemonic::{Mnemonic, Request};
pub use queries::Queries;
pub use reading::{format_of, read};
pub use request_type::RequestType;
pub use token::Token;
pub use verb::{Keyword, Verb};
pub use writing::spell;
