//! The files that a trial is of.

ghost use Rattle.std.specs.Prelude.{◌≡◌, ℕ, ◌+◌, ◌≤◌, ◌++◌, length, take, drop, None, Some, IfOk};
ghost use Rattle.case_play.specs.Files.{file_at, proper_front, with_byte, with_bytes};

use case_text::Made;
use octets::Bytes;
use std::alloc::{AllocError, Global};

/// A number from which on there is no file.
pub(crate) fn end_of_files(made: &Made, body: &[u8]) -> u128
    ensures { (n : ℕ) → result ≤ n → file_at made.now body.now n ≡ None }
{
    match made {
        Made::Itself => 1,
        Made::With { .. } => 1,
        Made::And(_) => 1,
        Made::EachFront => body.len() as u128,
        Made::EachChange => 256 * body.len() as u128,
    }
}

/// The body with these bytes from a place on, up to an end.
fn overwritten(
    alloc: Global,
    bytes: &[u8],
    place: usize,
    end: usize,
    body: &[u8],
) -> Result<Bytes, AllocError>
    requires count { end ≡ place + length bytes.now }
    requires within { end ≤ length body.now }
    ensures { IfOk result (λ file. file ≡ take place body.now ++ bytes.now ++ drop end body.now) }
{
    let mut file = Vec::from_slice(alloc, &body[..place])?;
    file.extend_from_slice(bytes)?;
    file.extend_from_slice(&body[end..])?;
    Ok(Bytes::from_vec(file))
}

/// The body with these bytes from a place on; none where one of them has no place.
fn with_bytes(
    alloc: Global,
    bytes: &[u8],
    place: u64,
    body: &[u8],
) -> Result<Option<Bytes>, AllocError>
    ensures { IfOk result (λ file. file ≡ with_bytes bytes.now place body.now) }
{
    let end = place as u128 + bytes.len() as u128;
    if end > body.len() as u128 {
        return Ok(None);
    }
    let file = overwritten(alloc, bytes, place as usize, end as usize, body)?;
    Ok(Some(file))
}

/// The body with these bytes after it.
fn with_more(alloc: Global, more: &[u8], body: &[u8]) -> Result<Option<Bytes>, AllocError>
    ensures { IfOk result (λ file. file ≡ Some (body.now ++ more.now)) }
{
    let mut longer = Vec::from_slice(alloc, body)?;
    longer.extend_from_slice(more)?;
    Ok(Some(Bytes::from_vec(longer)))
}

/// The first bytes of the body, as many as are asked for; none where these are all, or more.
fn proper_front(alloc: Global, count: u128, body: &[u8]) -> Result<Option<Bytes>, AllocError>
    ensures { IfOk result (λ file. file ≡ proper_front count body.now) }
{
    if count >= body.len() as u128 {
        return Ok(None);
    }
    let front = Bytes::from_slice(alloc, &body[..count as usize])?;
    Ok(Some(front))
}

/// The body with this byte in a place; none where it stands there, or there is no such place.
fn with_byte(alloc: Global, place: u128, byte: u8, body: &[u8]) -> Result<Option<Bytes>, AllocError>
    ensures { IfOk result (λ file. file ≡ with_byte place byte body.now) }
{
    if place >= body.len() as u128 {
        return Ok(None);
    }
    let place = place as usize;
    if body[place] == byte {
        return Ok(None);
    }
    let mut file = Vec::from_slice(alloc, body)?;
    file[place] = byte;
    Ok(Some(Bytes::from_vec(file)))
}

/// The body itself.
fn itself(alloc: Global, body: &[u8]) -> Result<Option<Bytes>, AllocError>
    ensures { IfOk result (λ file. file ≡ Some body.now) }
{
    let file = Bytes::from_slice(alloc, body)?;
    Ok(Some(file))
}

/// The file of this number, counted from 0, if there is one.
pub(crate) fn file_at(
    alloc: Global,
    made: &Made,
    body: &[u8],
    number: u128,
) -> Result<Option<Bytes>, AllocError>
    ensures { IfOk result (λ file. file ≡ file_at made.now body.now number) }
{
    match made {
        Made::Itself => {
            if number > 0 {
                return Ok(None);
            }
            itself(alloc, body)
        }
        Made::With { bytes, place } => {
            if number > 0 {
                return Ok(None);
            }
            with_bytes(alloc, bytes.as_slice(), *place, body)
        }
        Made::And(more) => {
            if number > 0 {
                return Ok(None);
            }
            with_more(alloc, more.as_slice(), body)
        }
        Made::EachFront => proper_front(alloc, number, body),
        Made::EachChange => with_byte(alloc, number / 256, (number % 256) as u8, body),
    }
}
