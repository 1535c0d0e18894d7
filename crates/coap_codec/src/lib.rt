//! CoAP messages and their bytes (RFC 7252 section 3): the message that a datagram spells, the one fault of a
//! datagram that spells none, and the bytes of a message.
#![tactic(auto)]

mod fault;
mod front;
mod kind;
mod laws;
mod message;
mod number;
mod option;
pub mod option_number;
mod reading;
mod writing;

pub use fault::CoapFault;
pub use front::header;
pub use kind::Kind;
pub use laws::one_reading;
pub use message::Message;
pub use number::{uint, uint_bytes};
pub use option::{Opt, Options};
pub use reading::{Front, decode, decode_in, front_of, message_in};
pub use writing::{
    encode, encode_into, put_number_option, put_option, put_payload, put_plain_text, put_start,
};
