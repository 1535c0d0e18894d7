//! The fields that formats share, read from the front of bytes.

ghost use Rattle.std.specs.Prelude.{◌≡◌, ◌≢◌, ◌≤◌, length, IfOk, IfErr};
ghost use Rattle.std.specs.Int.{w8, w16, w32, w64};
ghost use Rattle.byte_layout.specs.declared.fault.ReadError.TheVariants.{Memory};
ghost use Rattle.byte_layout.specs.Layout.{raw, number, signed_number, at_most};
ghost use Rattle.byte_layout.specs.Outcome.{Gives};

use crate::fault::{Break, ReadError};

/// A number of one byte, and the bytes after it.
#[tactic(auto, unfolding(crate::specs::Layout::number, crate::specs::Layout::raw))]
pub fn u8_at(bytes: &[u8]) -> Result<(u8, &[u8]), ReadError>
    ensures read { Gives (λ x. (x.0, x.1.now)) result ((number w8).read bytes.now) }
    ensures no_memory { IfErr result (λ e. e ≢ Memory) }
{
    let [first, rest @ ..] = bytes else {
        return Err(ReadError::Fault(Break::Cut));
    };
    Ok((*first, rest))
}

/// A number of two bytes, the high one first, and the bytes after it.
#[tactic(auto, unfolding(crate::specs::Layout::number, crate::specs::Layout::raw))]
pub fn u16_at(bytes: &[u8]) -> Result<(u16, &[u8]), ReadError>
    ensures read { Gives (λ x. (x.0, x.1.now)) result ((number w16).read bytes.now) }
    ensures no_memory { IfErr result (λ e. e ≢ Memory) }
{
    let (field, rest) = bytes_at(2, bytes)?;
    Ok((u16::from_be_bytes([field[0], field[1]]), rest))
}

/// A number of four bytes, the highest first, and the bytes after it.
#[tactic(auto, unfolding(crate::specs::Layout::number, crate::specs::Layout::raw))]
pub fn u32_at(bytes: &[u8]) -> Result<(u32, &[u8]), ReadError>
    ensures read { Gives (λ x. (x.0, x.1.now)) result ((number w32).read bytes.now) }
    ensures no_memory { IfErr result (λ e. e ≢ Memory) }
{
    let (field, rest) = bytes_at(4, bytes)?;
    let number = u32::from_be_bytes([field[0], field[1], field[2], field[3]]);
    Ok((number, rest))
}

/// A count or a length of one byte that is at most this, and the bytes after it.
pub fn u8_at_most(limit: u8, bytes: &[u8]) -> Result<(u8, &[u8]), ReadError>
    ensures read { Gives (λ x. (x.0, x.1.now)) result ((at_most limit (number w8)).read bytes.now) }
    ensures within { IfOk result (λ x. x.0 ≤ limit) }
    ensures no_memory { IfErr result (λ e. e ≢ Memory) }
{
    let (n, rest) = u8_at(bytes)?;
    if n > limit {
        return Err(ReadError::Fault(Break::Limit(bytes.len())));
    }
    Ok((n, rest))
}

/// A count or a length of two bytes that is at most this, and the bytes after it.
pub fn u16_at_most(limit: u16, bytes: &[u8]) -> Result<(u16, &[u8]), ReadError>
    ensures read { Gives (λ x. (x.0, x.1.now)) result ((at_most limit (number w16)).read bytes.now) }
    ensures within { IfOk result (λ x. x.0 ≤ limit) }
    ensures no_memory { IfErr result (λ e. e ≢ Memory) }
{
    let (n, rest) = u16_at(bytes)?;
    if n > limit {
        return Err(ReadError::Fault(Break::Limit(bytes.len())));
    }
    Ok((n, rest))
}

/// A signed number of eight bytes in two's complement, the highest first, and the bytes after it.
#[tactic(auto, unfolding(crate::specs::Layout::number, crate::specs::Layout::raw))]
pub fn i64_at(bytes: &[u8]) -> Result<(i64, &[u8]), ReadError>
    ensures read { Gives (λ x. (x.0, x.1.now)) result ((signed_number w64).read bytes.now) }
    ensures no_memory { IfErr result (λ e. e ≢ Memory) }
{
    let (field, rest) = bytes_at(8, bytes)?;
    let number = i64::from_be_bytes([
        field[0], field[1], field[2], field[3], field[4], field[5], field[6], field[7],
    ]);
    Ok((number, rest))
}

/// n bytes, and the bytes after them.
#[tactic(auto, unfolding(crate::specs::Layout::raw))]
pub fn bytes_at(count: usize, bytes: &[u8]) -> Result<(&[u8], &[u8]), ReadError>
    ensures read { Gives (λ x. (x.0.now, x.1.now)) result ((raw count).read bytes.now) }
    ensures len { IfOk result (λ x. length x.0.now ≡ count) }
    ensures no_memory { IfErr result (λ e. e ≢ Memory) }
{
    if bytes.len() < count {
        return Err(ReadError::Fault(Break::Cut));
    }
    let (field, rest) = bytes.split_at(count);
    Ok((field, rest))
}
