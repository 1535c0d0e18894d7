use object_defs::Path;
use octets::Bytes;
use scenario_mnemonics::{Format, Queries, Verb};

/// What an expectation says of a request besides its verb and its path. What is left out may be anything.
#[derive(Drop)]
pub struct Details {
    /// The format that a Read, an Observe or a Cancel accepts, or that of the payload of a Write, an Update or a
    /// Create.
    pub format: Option<Format>,
    /// The payload.
    pub payload: Option<Bytes>,
    /// The queries of an Attr, in their order.
    pub queries: Option<Queries>,
}

/// A request, without its type, its message ID and its token, which a server chooses.
#[derive(Drop)]
pub struct AskedRequest {
    /// What it asks for.
    pub verb: Verb,
    /// The path that it is for.
    pub path: Path,
    /// What else is said of it.
    pub details: Details,
}

/// What a server has to send.
#[derive(Drop)]
pub enum What {
    /// `ack`: an ACK that is Empty.
    Ack,
    /// `reset`: a Reset.
    Reset,
    /// `VERB PATH [DETAILS]`: a request.
    Request(AskedRequest),
}
