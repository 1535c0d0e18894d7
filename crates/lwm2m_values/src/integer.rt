ghost use Rattle.std.specs.Prelude.{◌≡◌, ℕ, ℤ, FitsSigned, Some, IfSome, IfOk, IsOk};
ghost use Rattle.std.specs.Int.{w8, w16, w32, w64};
ghost use Rattle.lwm2m_values.specs.Value.{IsIntegerOf, IsInteger, shortest_integer};

use octets::Bytes;
use std::alloc::{AllocError, Global};

fn number_of_1(bytes: [u8; 1]) -> i8
    ensures found { IsIntegerOf w8 result bytes }
    ensures only { (z : ℤ) → IsIntegerOf w8 z bytes → result ≡ z }
{
    i8::from_be_bytes(bytes)
}

fn number_of_2(bytes: [u8; 2]) -> i16
    ensures found { IsIntegerOf w16 result bytes }
    ensures only { (z : ℤ) → IsIntegerOf w16 z bytes → result ≡ z }
{
    i16::from_be_bytes(bytes)
}

fn number_of_4(bytes: [u8; 4]) -> i32
    ensures found { IsIntegerOf w32 result bytes }
    ensures only { (z : ℤ) → IsIntegerOf w32 z bytes → result ≡ z }
{
    i32::from_be_bytes(bytes)
}

fn number_of_8(bytes: [u8; 8]) -> i64
    ensures found { IsIntegerOf w64 result bytes }
    ensures only { (z : ℤ) → IsIntegerOf w64 z bytes → result ≡ z }
{
    let number = u64::from_be_bytes(bytes);
    number.cast_signed()
}

/// The number that one, two, four or eight bytes are in two's complement, the highest byte first.
pub(crate) fn integer_of(bytes: &[u8]) -> Option<i64>
    ensures found { IfSome result (λ z. IsInteger z bytes.now) }
    ensures only { (z : ℤ) → IsInteger z bytes.now → result ≡ Some z }
{
    if let Ok(bytes) = <[u8; 1]>::try_from(bytes) {
        return Some(i64::from(number_of_1(bytes)));
    }
    if let Ok(bytes) = <[u8; 2]>::try_from(bytes) {
        return Some(i64::from(number_of_2(bytes)));
    }
    if let Ok(bytes) = <[u8; 4]>::try_from(bytes) {
        return Some(i64::from(number_of_4(bytes)));
    }
    if let Ok(bytes) = <[u8; 8]>::try_from(bytes) {
        return Some(number_of_8(bytes));
    }
    None
}

/// The bytes of a number in the fewest of 8, 16, 32 and 64 bits.
pub(crate) fn integer_bytes(alloc: Global, number: i64) -> Result<Bytes, AllocError>
    ensures shortest { IfOk result (λ b. b ≡ shortest_integer number) }
    ensures succeeds { IsOk result }
{
    if let Ok(number) = i8::try_from(number) {
        return Bytes::from_slice(alloc, &number.to_be_bytes());
    }
    if let Ok(number) = i16::try_from(number) {
        return Bytes::from_slice(alloc, &number.to_be_bytes());
    }
    if let Ok(number) = i32::try_from(number) {
        return Bytes::from_slice(alloc, &number.to_be_bytes());
    }
    Bytes::from_slice(alloc, &number.to_be_bytes())
}
