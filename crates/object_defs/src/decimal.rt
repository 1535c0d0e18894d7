ghost use Rattle.std.specs.Prelude.{◌≡◌, ◌<◌, ◌≤◌, ◌↔◌, ℕ, length, Some};
ghost use Rattle.std.specs.Fmt.{decimal};
ghost use Rattle.object_defs.specs.Decimal.{decimal_number};

/// The number from 0 to 65535 whose decimal form these bytes are, as a Uri-Path segment spells it:
/// digits alone, with no leading zero (OMA LwM2M 1.1 Core).
pub fn decimal_number(segment: &[u8]) -> Option<u16>
    ensures value { result ≡ decimal_number segment.now }
    ensures number { (n : ℕ) → (result ≡ Some n) ↔ ((n < 65536) × (segment.now ≡ decimal n)) }
{
    read(segment)
}

fn read(segment: &[u8]) -> Option<u16>
    ensures { result ≡ decimal_number segment.now }
{
    if segment.is_empty() {
        return None;
    }
    if segment.len() > 5 {
        return None;
    }
    if segment[0] == b'0' {
        return if segment.len() == 1 { Some(0) } else { None };
    }
    let mut number: u32 = 0;
    for byte in segment {
        if !byte.is_ascii_digit() {
            return None;
        }
        number = number * 10 + u32::from(*byte - b'0');
    }
    u16::try_from(number).ok()
}
