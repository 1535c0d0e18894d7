ghost use Rattle.std.specs.Prelude.{◌≡◌, ◌≢◌, ◌≤◌, ◌<◌, length, slice_index, IfOk, IsOk};
ghost use Rattle.coap_codec.specs.Number.{big_endian, shortest_big_endian};

use octets::Bytes;
use std::alloc::{AllocError, Global};

/// The number that an option's value spells, leading zeros included (RFC 7252 section 3.2).
pub fn uint(bytes: &[u8]) -> u32
    requires { length bytes.now ≤ 4 }
    ensures { result ≡ big_endian bytes.now }
{
    match bytes {
        [] => 0,
        [a] => u32::from(*a),
        [a, b] => 256 * u32::from(*a) + u32::from(*b),
        [a, b, c] => 256 * (256 * u32::from(*a) + u32::from(*b)) + u32::from(*c),
        [a, b, c, d] => {
            256 * (256 * (256 * u32::from(*a) + u32::from(*b)) + u32::from(*c)) + u32::from(*d)
        }
        _ => unreachable!(),
    }
}

/// The fewest bytes of a number, zero in none (RFC 7252 section 3.2). They take no memory.
pub fn uint_bytes(alloc: Global, n: u32) -> Result<Bytes, AllocError>
    ensures shortest { IfOk result (λ b. b ≡ shortest_big_endian n) }
    ensures value { IfOk result (λ b. big_endian b ≡ n) }
    ensures fewest { IfOk result (λ b. 0 < length b → slice_index b 0 ≢ 0) }
    ensures len { IfOk result (λ b. length b ≤ 4) }
    ensures succeeds { IsOk result }
{
    if n == 0 {
        return Ok(Bytes::new(alloc));
    }
    let low = (n % 256) as u8;
    if n < 256 {
        return Bytes::from_slice(alloc, &[low]);
    }
    let second = (n / 256 % 256) as u8;
    if n < 65536 {
        return Bytes::from_slice(alloc, &[second, low]);
    }
    let third = (n / 65536 % 256) as u8;
    if n < 16777216 {
        return Bytes::from_slice(alloc, &[third, second, low]);
    }
    Bytes::from_slice(alloc, &[(n / 16777216) as u8, third, second, low])
}
