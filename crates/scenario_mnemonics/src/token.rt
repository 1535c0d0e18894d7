ghost use Rattle.std.specs.Prelude.{◌≡◌, ◌≤◌, nat_le, length, if◌then◌else◌, Some, None};

use octets::Bytes;
use std::marker::Model;

/// A token of at most 8 bytes (RFC 7252 section 5.3.1).
///
/// Contracts see the list of its bytes.
#[derive(Drop)]
pub struct Token {
    bytes: Bytes,
}

impl Model for Token {
    ghost use Rattle.std.specs.Prelude.{List, ℕ, length, ◌≤◌};

    ghost Value = { List ℕ };

    ghost view = { λ t. t.bytes };

    ghost invariant = { λ t. length t.bytes ≤ 8 };
}

impl Token {
    /// The token of these bytes, where they are at most 8.
    pub fn new(bytes: Bytes) -> Option<Token>
        ensures { result ≡ (if nat_le (length bytes) 8 then Some bytes else None) }
    {
        if bytes.len() > 8 {
            return None;
        }
        Some(Token { bytes })
    }

    /// The bytes of the token, of which there are at most 8.
    pub fn bytes(&self) -> &Bytes
        ensures bytes { result.now ≡ self.now }
        ensures short { length self.now ≤ 8 }
    {
        &self.bytes
    }
}
