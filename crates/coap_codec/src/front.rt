ghost use Rattle.std.specs.Prelude.{◌≡◌, ◌↔◌, ◌≤◌, ◌<◌, ◌*◌, ◌+◌, ◌/◌, ◌%◌, length, slice_index, IsSome, IfSome};
ghost use Rattle.coap_codec.specs.Message.{kind_number};

use crate::Kind;

/// The type of these two bits.
pub(crate) fn kind_of(number: u8) -> Kind
    requires { number < 4 }
    ensures { kind_number result ≡ number }
{
    match number {
        0 => Kind::Con,
        1 => Kind::Non,
        2 => Kind::Ack,
        3 => Kind::Rst,
        _ => unreachable!(),
    }
}

/// The type and the message ID of bytes that begin as a message of version 1 does, well formed or
/// not (RFC 7252 section 3): what an answer to a malformed message needs.
pub fn header(bytes: &[u8]) -> Option<(Kind, u16)>
    ensures found { IsSome result ↔ ((4 ≤ length bytes.now) × (slice_index bytes.now 0 / 64 ≡ 1)) }
    ensures value { IfSome result
        (λ x. (kind_number x.0 ≡ slice_index bytes.now 0 / 16 % 4)
        × (x.1 ≡ 256 * slice_index bytes.now 2 + slice_index bytes.now 3)) }
{
    let [first, _, high, low, ..] = bytes else {
        return None;
    };
    if *first / 64 != 1 {
        return None;
    }
    Some((
        kind_of(*first / 16 % 4),
        256 * u16::from(*high) + u16::from(*low),
    ))
}
