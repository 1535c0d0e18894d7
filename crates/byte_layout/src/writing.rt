//! The fields that formats share, written at the end of a vector. Where memory runs out, the vector has the bytes that
//! it had.

ghost use Rattle.std.specs.Prelude.{◌≡◌, ◌++◌, length, OnOk, OnErr};
ghost use Rattle.std.specs.Int.{w8, w16, w32, w64};
ghost use Rattle.byte_layout.specs.Layout.{number, signed_number, raw};

use std::alloc::AllocError;

/// Writes a number of one byte.
#[tactic(auto, unfolding(crate::specs::Layout::number))]
pub fn put_u8(out: &mut Vec<u8>, n: u8) -> Result<(), AllocError>
    ensures ok { OnOk result (out.new.items ≡ out.old.items ++ (number w8).spell n) }
    ensures err { OnErr result (out.new.items ≡ out.old.items) }
{
    Ok(out.push(n)?)
}

/// Writes a number of two bytes, the high one first.
#[tactic(auto, unfolding(crate::specs::Layout::number))]
pub fn put_u16(out: &mut Vec<u8>, n: u16) -> Result<(), AllocError>
    ensures ok { OnOk result (out.new.items ≡ out.old.items ++ (number w16).spell n) }
    ensures err { OnErr result (out.new.items ≡ out.old.items) }
{
    out.extend_from_slice(&u16::to_be_bytes(n))
}

/// Writes a number of four bytes, the highest first.
#[tactic(auto, unfolding(crate::specs::Layout::number))]
pub fn put_u32(out: &mut Vec<u8>, n: u32) -> Result<(), AllocError>
    ensures ok { OnOk result (out.new.items ≡ out.old.items ++ (number w32).spell n) }
    ensures err { OnErr result (out.new.items ≡ out.old.items) }
{
    out.extend_from_slice(&u32::to_be_bytes(n))
}

/// Writes a signed number of eight bytes in two's complement, the highest first.
#[tactic(auto, unfolding(crate::specs::Layout::number))]
pub fn put_i64(out: &mut Vec<u8>, n: i64) -> Result<(), AllocError>
    ensures ok { OnOk result (out.new.items ≡ out.old.items ++ (signed_number w64).spell n) }
    ensures err { OnErr result (out.new.items ≡ out.old.items) }
{
    out.extend_from_slice(&i64::to_be_bytes(n))
}

/// Writes bytes as they are.
#[tactic(auto, unfolding(crate::specs::Layout::raw))]
pub fn put_bytes(out: &mut Vec<u8>, bytes: &[u8]) -> Result<(), AllocError>
    ensures ok { OnOk result (out.new.items ≡ out.old.items ++ (raw (length bytes.now)).spell bytes.now) }
    ensures err { OnErr result (out.new.items ≡ out.old.items) }
{
    out.extend_from_slice(bytes)
}
