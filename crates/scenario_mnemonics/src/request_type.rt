/// The type of a request (RFC 7252 section 4): confirmable, or not.
#[derive(Clone, Copy)]
pub enum RequestType {
    /// Confirmable, `con`.
    Con,
    /// Non-confirmable, `non`.
    Non,
}
