ghost use Rattle.std.specs.Prelude.{◌≡◌};
ghost use Rattle.scenario_mnemonics.specs.Messages.{fits_mnemonic};
ghost use Rattle.scenario_mnemonics.specs.MnemonicWords.{keyword_of};

use crate::action::Action;
use crate::request_type::RequestType;
use crate::token::Token;
use crate::verb::Keyword;
use object_defs::Path;

/// A request as a mnemonic says it.
#[derive(Drop)]
pub struct Request {
    /// Its type.
    pub kind: RequestType,
    /// Its message ID.
    pub mid: u16,
    /// Its token.
    pub token: Token,
    /// The path that it is for.
    pub path: Path,
    /// What it asks for.
    pub action: Action,
}

/// A datagram as a mnemonic says it. The server that sends it stands beside it.
#[derive(Drop)]
pub enum Mnemonic {
    /// A request.
    Request(Request),
    /// A Reset of this message ID (RFC 7252 section 4.2).
    Reset(u16),
}

impl Mnemonic {
    /// Its first word.
    pub fn keyword(&self) -> Keyword
        ensures { result ≡ keyword_of self.now }
    {
        match self {
            Mnemonic::Request(request) => Keyword::Request(request.action.verb()),
            Mnemonic::Reset(_) => Keyword::Reset,
        }
    }

    /// Whether its path has as many numbers as it needs: one for `create`, two for `update`, three for `exec`.
    pub fn fits(&self) -> bool
        ensures { result ≡ fits_mnemonic self.now }
    {
        match self {
            Mnemonic::Request(request) => request.action.fits(request.path),
            Mnemonic::Reset(_) => true,
        }
    }
}
