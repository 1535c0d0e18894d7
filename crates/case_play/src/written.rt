//! Whether what was found in a file is written again as just this file.

ghost use Rattle.std.specs.Prelude.{◌≡◌, ℕ, ◌↔◌, List, ◌∷◌, length, IsTrue, IfOk, IfSome, IfNone};
ghost use Rattle.case_play.specs.Written.{after_version, AreKept, HasZerosMore, IsKept, IsNewer, IsSameImage};
ghost use Rattle.case_play.specs.Written.{IsWrittenAs};

use case_text::FileKind;
use scenario_image::{Scenario, save};
use std::alloc::{AllocError, Global};
use trace_file::{Entry, WriteFault, write_entries};

/// The bytes after this one, if it is the first.
fn after(byte: u8, bytes: &[u8]) -> Option<&[u8]>
    ensures first { IfSome result (λ rest. bytes.now ≡ byte ∷ rest.now) }
    ensures other { IfNone result ((rest : List ℕ) → bytes.now ≡ byte ∷ rest → ⊥) }
{
    match bytes {
        [] => None,
        [first, rest @ ..] => {
            if *first != byte {
                return None;
            }
            Some(rest)
        }
    }
}

/// What is left of the bytes and of the zeros after this byte of the longer list; none where it can't stand there.
#[tactic(auto, using(crate::proofs::Zeros::kept_next, crate::proofs::Zeros::zero_next, crate::proofs::Zeros::not_zero, crate::proofs::Zeros::none_left))]
fn next(byte: u8, bytes: &[u8], zeros: usize) -> Option<(&[u8], usize)>
    ensures some { IfSome result (λ left. (longer : List ℕ) → HasZerosMore zeros bytes.now (byte ∷ longer)
        ↔ HasZerosMore left.1 left.0.now longer) }
    ensures none { IfNone result ((longer : List ℕ) → HasZerosMore zeros bytes.now (byte ∷ longer) → ⊥) }
{
    if let Some(rest) = after(byte, bytes) {
        return Some((rest, zeros));
    }
    if byte != 0 {
        return None;
    }
    if zeros == 0 {
        return None;
    }
    Some((bytes, zeros - 1))
}

/// Whether one list is the other one and this many zeros more.
#[tactic(auto, using(crate::proofs::Zeros::goes_on, crate::proofs::Zeros::ends))]
fn has_zeros_more(zeros: usize, bytes: &[u8], longer: &[u8]) -> bool
    ensures { IsTrue result ↔ HasZerosMore zeros bytes.now longer.now }
{
    let mut rest = bytes;
    let mut left = zeros;
    for byte in longer {
        let Some((after, fewer)) = next(*byte, rest, left) else {
            return false;
        };
        rest = after;
        left = fewer;
    }
    rest.is_empty() && left == 0
}

/// The bytes after the mark of an image and this version.
fn after_version(version: u8, bytes: &[u8]) -> Option<&[u8]>
    ensures there { IfSome result (λ rest. bytes.now ≡ after_version version rest.now) }
    ensures other { IfNone result ((rest : List ℕ) → bytes.now ≡ after_version version rest → ⊥) }
{
    match bytes {
        [b'L', b'W', b'S', b'C', number, rest @ ..] => {
            if *number != version {
                return None;
            }
            Some(rest)
        }
        _ => None,
    }
}

/// Whether a file is an image of version 1, and another one of version 2 says the same, with a byte 0 more for each
/// class.
#[tactic(auto, using(crate::proofs::Zeros::newer, crate::proofs::Zeros::not_old, crate::proofs::Zeros::not_new))]
fn is_newer(classes: usize, file: &[u8], written: &[u8]) -> bool
    ensures { IsTrue result ↔ IsNewer classes file.now written.now }
{
    let Some(old) = after_version(1, file) else {
        return false;
    };
    let Some(new) = after_version(2, written) else {
        return false;
    };
    has_zeros_more(classes, old, new)
}

#[tactic(auto, using(crate::proofs::Zeros::same_or_newer))]
fn is_same_image(classes: usize, file: &[u8], written: &[u8]) -> bool
    ensures { IsTrue result ↔ IsSameImage classes file.now written.now }
{
    if written == file {
        return true;
    }
    is_newer(classes, file, written)
}

/// Whether what is written of a scenario is just this file, or its version 2.
#[tactic(auto, using(crate::proofs::Zeros::written_as))]
fn is_written_as(alloc: Global, file: &[u8], scenario: &Scenario) -> Result<bool, AllocError>
    ensures { IfOk result (λ b. IsTrue b ↔ IsWrittenAs file.now scenario.now) }
{
    let written = save(alloc, scenario)?;
    Ok(is_same_image(scenario.classes(), file, written.as_slice()))
}

/// Whether a file of this kind, in which a scenario was found, is just what is written of it.
pub(crate) fn is_kept(
    alloc: Global,
    kind: FileKind,
    file: &[u8],
    scenario: &Scenario,
) -> Result<bool, AllocError>
    ensures { IfOk result (λ b. IsTrue b ↔ IsKept kind file.now scenario.now) }
{
    match kind {
        FileKind::Image => is_written_as(alloc, file, scenario),
        FileKind::Trace => Ok(false),
        FileKind::Text => Ok(true),
    }
}

/// Whether a trace file, in which entries were found, is just what is written of them.
#[tactic(auto, using(crate::proofs::Zeros::same_file))]
pub(crate) fn are_kept(alloc: Global, file: &[u8], entries: &[Entry]) -> Result<bool, AllocError>
    ensures { IfOk result (λ b. IsTrue b ↔ AreKept file.now entries.now) }
{
    match write_entries(alloc, entries) {
        Ok(written) => Ok(written.as_slice() == file),
        Err(WriteFault::Memory) => Err(AllocError),
        Err(WriteFault::TooLarge) => Ok(false),
    }
}
