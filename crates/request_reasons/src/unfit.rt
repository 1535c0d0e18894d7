//! Rule 11: what of a payload, of queries or of arguments is not valid.

use lwm2m_payloads::{Format, PayloadFault};
use lwm2m_values::TlvPlace;
use notifier::QueryFault;
use octets::Bytes;

/// What of a payload, of queries or of arguments is not valid. Queries are counted from 1, bytes from 0.
#[derive(Drop)]
pub enum Unfit {
    /// The payload of an Execute is not a list of arguments.
    NotArguments {
        /// The place of the first byte that cannot stand there; the length of the payload, if it ends too early.
        at: usize,
        /// That byte; none if the payload ends too early.
        byte: Option<u8>,
    },
    /// A query is not a valid change.
    Query {
        /// The place of the first such query.
        place: usize,
        /// Its bytes.
        bytes: Bytes,
        /// Why it is not one.
        fault: QueryFault,
        /// Where its number stops being one, if that is the fault: the place of the first byte with which no number
        /// goes on, or the length of the query, if it ends too early.
        at: Option<usize>,
    },
    /// After the changes gt, lt and st would not agree.
    Inconsistent {
        /// What gt would be.
        gt: Standing,
        /// What lt would be.
        lt: Standing,
        /// What st would be, if lt is less than gt: then lt + 2 st is not.
        st: Option<Standing>,
    },
    /// The payload is not TLV.
    NotTlv {
        /// Where it stops being TLV.
        place: TlvPlace,
    },
    /// The payload gives nothing.
    Payload {
        /// The format in which it is read.
        format: Format,
        /// Why it gives nothing.
        fault: PayloadFault,
    },
    /// The number of a new instance is in use, or 65535.
    Taken {
        /// The number.
        number: u16,
    },
    /// All numbers of instances are in use.
    NoNumber,
}

/// The number that gt, lt or st has after changes.
#[derive(Clone, Copy)]
pub struct Standing {
    /// The number, in thousandths.
    pub number: i64,
    /// Whether a change gives it; else it stood before them.
    pub is_given: bool,
}
