use crate::request_type::RequestType;
use crate::token::Token;
use object_defs::Path;

/// What stands first in each request of a mnemonic, its server included.
#[derive(Drop)]
pub struct Head {
    /// The Short Server ID of its server.
    pub server: u16,
    /// Its type.
    pub kind: RequestType,
    /// Its message ID.
    pub mid: u16,
    /// Its token.
    pub token: Token,
    /// The path that it is for.
    pub path: Path,
}
