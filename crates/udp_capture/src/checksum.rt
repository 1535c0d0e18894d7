//! Checksums, from plain sums of words.

ghost use Rattle.std.specs.Prelude.{◌≡◌, ◌+◌, ◌-◌, ◌<◌, ℕ, List, length, sum};
ghost use Rattle.std.specs.List.{AllByRecursion};
ghost use Rattle.udp_capture.specs.Checksum.{ones_sum, sixteen_bit_words};

/// The sum of the words of bytes, with no carry lost.
pub(crate) fn sum_of_words(bytes: &[u8]) -> u32
    requires { length bytes.now < 65536 }
    ensures { result ≡ sum (sixteen_bit_words bytes.now) }
{
    let mut total: u32 = 0;
    let mut left = bytes;
    while let [high, low, rest @ ..] = left {
        total += 256 * u32::from(*high) + u32::from(*low);
        left = rest;
    }
    if let [high] = left {
        total += 256 * u32::from(*high);
    }
    total
}

/// The one's complement of the one's complement sum of words whose plain sum is this: each carry out of the low 16 bits
/// is added to them.
pub(crate) fn checksum_of_sum(total: u32) -> u16
    ensures { (words : List ℕ) → AllByRecursion (λ w. w < 65536) words → sum words ≡ total
        → result ≡ 65535 - ones_sum words }
{
    let once = total % 65536 + total / 65536;
    let twice = once % 65536 + once / 65536;
    (65535 - twice) as u16
}
