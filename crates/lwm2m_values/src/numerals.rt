ghost use Rattle.std.specs.Prelude.{◌≡◌, ℕ, ◌<◌, ℤ, FitsSigned, Some, IfSome, IsSomeAnd, MatchOption, List, ◌∷◌, ◌++◌};
ghost use Rattle.std.specs.Str.{IsUtf8};
ghost use Rattle.std.specs.Str.Parse.{AllDigits};
ghost use Rattle.std.specs.Int.{w64};
ghost use Rattle.lwm2m_values.specs.Value.{IsDecimal, IsSigned, IsPair};

/// The text that bytes are, where they are UTF-8.
pub(crate) fn utf8_of(bytes: &[u8]) -> Option<&str>
    ensures { MatchOption result (¬ (IsUtf8 bytes.now)) (λ s. (s.now ≡ bytes.now) × IsUtf8 bytes.now) }
{
    str::from_utf8(bytes).ok()
}

/// The number below a limit that a text writes: decimal digits, without a sign; the first may be 0.
pub fn number_below(text: &[u8], limit: u64) -> Option<u64>
    ensures found { IfSome result (λ n. (n < limit) × IsDecimal n text.now) }
    ensures only { (n : ℕ) → n < limit → IsDecimal n text.now → result ≡ Some n }
{
    let digits = utf8_of(text)?;
    if digits.starts_with('+') {
        return None;
    }
    let number = digits.parse::<u64>().ok()?;
    if number < limit { Some(number) } else { None }
}

/// The number of 64 bits that a text writes: decimal digits, with a minus sign in front or none.
pub(crate) fn signed_of(text: &[u8]) -> Option<i64>
    ensures found { IfSome result (λ z. IsSigned z text.now) }
    ensures only { (z : ℤ) → FitsSigned w64 z → IsSigned z text.now → result ≡ Some z }
{
    let text = utf8_of(text)?;
    if text.starts_with('+') {
        return None;
    }
    text.parse::<i64>().ok()
}

/// The texts before and after the first colon.
fn halves_of(text: &[u8]) -> Option<(&str, &str)>
    ensures found { IfSome result (λ p. text.now ≡ p.0.now ++ 58 ∷ p.1.now) }
    ensures only { (a b : List ℕ) → AllDigits 10 a → AllDigits 10 b → text.now ≡ a ++ 58 ∷ b
        → IsSomeAnd result (λ p. (p.0.now ≡ a) × (p.1.now ≡ b)) }
{
    utf8_of(text)?.split_once(':')
}

/// The two numbers below 65,536 that a text writes with a colon between them.
pub(crate) fn pair_of(text: &[u8]) -> Option<(u16, u16)>
    ensures found { IfSome result (λ p. IsPair p.0 p.1 text.now) }
    ensures only { (o i : ℕ) → o < 65536 → i < 65536 → IsPair o i text.now → result ≡ Some (o, i) }
{
    let (object, instance) = halves_of(text)?;
    let object = number_below(object.as_bytes(), 65536)?;
    let instance = number_below(instance.as_bytes(), 65536)?;
    Some((object as u16, instance as u16))
}
