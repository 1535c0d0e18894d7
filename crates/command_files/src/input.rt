//! Lines that are read from an input.
ghost use Rattle.std.specs.Prelude.{ℕ, ◌≡◌, ◌≤◌, ◌⊎◌, List, [], ◌∷◌, Option, IfErr, IfNone, IfOk, IfSome, OnErr};
ghost use Rattle.std.specs.Prelude.{OnOk, true, vec_len};
ghost use Rattle.std.specs.Io.BufRead.{DropsThrough, take_through};
ghost use Rattle.std.specs.Io.KnownBytes.{Consumes, IsAtEnd, Keeps};
ghost use Rattle.command_files.specs.Files.{IsFailure};
ghost use Rattle.command_files.specs.Input.{IsLonger, IsOfLine, IsWithin, WhereKnown};

use crate::files::FileFault;
use std::alloc::Global;
use std::io;
use std::io::{BufRead, ErrorKind};

/// What lines are read from: standard input, or what is in memory.
pub trait Input {
    /// The bytes that are still to be read, where they are known.
    ghost rest: { Self → Option (List ℕ) };

    /// That it could not be read.
    ghost fails: { Type 0 };

    /// The bytes through the next line feed, or all where there is none; nothing at the end. A line of more than `most`
    /// bytes is `Failed`. Where it fails, at most `most` bytes were taken, and none that follows the line.
    fn next_line(&mut self, alloc: Global, most: u32) -> Result<Vec<u8>, FileFault>
        ensures bound { IfOk result (λ line. vec_len line ≤ most) }
        ensures line { IfOk result (λ line. IfSome (rest self.old) (λ bytes. line.items ≡ take_through 10 bytes)) }
        ensures rest { OnOk result (DropsThrough (rest self.old) (rest self.new) 10) }
        ensures failed { IfErr result (IsFailure (fails ⊎ IsLonger most (rest self.old))) }
        ensures part { OnErr result (WhereKnown IsOfLine (rest self.old) (rest self.new)) }
        ensures within { OnErr result (WhereKnown (IsWithin most) (rest self.old) (rest self.new)) };
}

/// Every buffered reader. Nothing is claimed of why one could not be read.
impl<B: BufRead> Input for B {
    ghost rest = { B.remaining };

    ghost fails = { Unit {0} };

    #[tactic(auto, using(crate::proofs::Lines::none_yet, crate::proofs::Lines::one_more, crate::proofs::Lines::feed_line, crate::proofs::Lines::feed_rest, crate::proofs::Lines::end_line, crate::proofs::Lines::end_rest))]
    fn next_line(&mut self, alloc: Global, most: u32) -> Result<Vec<u8>, FileFault> {
        let mut line = Vec::new(alloc);
        for _ in 0..most {
            let Some(byte) = next_byte(self)? else {
                return Ok(line);
            };
            if line.push(byte).is_err() {
                return Err(FileFault::Memory);
            }
            if byte == b'\n' {
                return Ok(line);
            }
        }
        if is_at_end(self)? {
            return Ok(line);
        }
        Err(FileFault::Failed("it is larger than 64 MiB"))
    }
}

/// Whether there is no further byte. None is taken. A read that a signal interrupts is tried again.
#[tactic(auto, using(crate::proofs::Lines::ended))]
fn is_at_end<B: BufRead>(reader: &mut B) -> Result<bool, FileFault>
    ensures end { IfOk result (λ b. b ≡ true → IsAtEnd (B.remaining reader.old)) }
    ensures kept { Keeps (B.remaining reader.old) (B.remaining reader.new) }
{
    for _ in 0..u64::MAX {
        match is_empty(reader) {
            Ok(is_empty) => return Ok(is_empty),
            Err(error) => {
                if error.kind() != ErrorKind::Interrupted {
                    return Err(FileFault::from(error));
                }
            }
        }
    }
    Err(FileFault::Failed("input or output failed"))
}

fn is_empty<B: BufRead>(reader: &mut B) -> io::Result<bool>
    ensures end { IfOk result (λ b. b ≡ true → IsAtEnd (B.remaining reader.old)) }
    ensures kept { Keeps (B.remaining reader.old) (B.remaining reader.new) }
{
    Ok(reader.fill_buf()?.is_empty())
}

/// The next byte; none at the end. A read that a signal interrupts is tried again.
#[tactic(auto, using(crate::proofs::Lines::consumed, crate::proofs::Lines::ended))]
fn next_byte<B: BufRead>(reader: &mut B) -> Result<Option<u8>, FileFault>
    ensures byte { IfOk result (λ o. IfSome o (λ byte.
        Consumes (B.remaining reader.old) (B.remaining reader.new) (byte ∷ []))) }
    ensures end { IfOk result (λ o. IfNone o (IsAtEnd (B.remaining reader.old))) }
    ensures kept { IfOk result (λ o. IfNone o (Keeps (B.remaining reader.old) (B.remaining reader.new))) }
    ensures untouched { OnErr result (Keeps (B.remaining reader.old) (B.remaining reader.new)) }
{
    for _ in 0..u64::MAX {
        match try_byte(reader) {
            Ok(byte) => return Ok(byte),
            Err(error) => {
                if error.kind() != ErrorKind::Interrupted {
                    return Err(FileFault::from(error));
                }
            }
        }
    }
    Err(FileFault::Failed("input or output failed"))
}

fn try_byte<B: BufRead>(reader: &mut B) -> io::Result<Option<u8>>
    ensures byte { IfOk result (λ o. IfSome o (λ byte.
        Consumes (B.remaining reader.old) (B.remaining reader.new) (byte ∷ []))) }
    ensures end { IfOk result (λ o. IfNone o (IsAtEnd (B.remaining reader.old))) }
    ensures kept { IfOk result (λ o. IfNone o (Keeps (B.remaining reader.old) (B.remaining reader.new))) }
    ensures untouched { OnErr result (Keeps (B.remaining reader.old) (B.remaining reader.new)) }
{
    let available = reader.fill_buf()?;
    if available.is_empty() {
        return Ok(None);
    }
    let byte = available[0];
    reader.consume(1);
    Ok(Some(byte))
}
