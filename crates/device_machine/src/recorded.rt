ghost use Rattle.std.specs.Prelude.{◌≡◌};

use coap_codec::Kind;
use octets::Bytes;
use std::alloc::AllocError;

/// A request that was received.
#[derive(Drop)]
pub struct Recorded {
    /// The Short Server ID of its server.
    pub server: u16,
    /// Its type, CON or NON.
    pub kind: Kind,
    /// Its message ID.
    pub mid: u16,
    /// The second in which it was received, by the device's clock.
    pub second: u64,
    /// The datagram that replied, or none where there was no reply.
    pub reply: Option<Bytes>,
}

impl Clone for Recorded {
    ghost is_clone = { λ r s. s ≡ r };

    fn clone(&self) -> Result<Recorded, AllocError> {
        let reply = match &self.reply {
            None => None,
            Some(bytes) => Some(bytes.clone()?),
        };
        Ok(Recorded {
            server: self.server,
            kind: self.kind,
            mid: self.mid,
            second: self.second,
            reply,
        })
    }
}
