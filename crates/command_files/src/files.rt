ghost use Rattle.std.specs.Prelude.{ℕ, ◌≡◌, ◌≤◌, ◌∷◌, [], List, Option, None, IfErr, IfOk, IfSome, OnErr, OnOk};
ghost use Rattle.std.specs.Prelude.{vec_len};
ghost use Rattle.command_files.specs.Files.{Grows, IsFailure, IsFileFaultOf, MadeFile, most_bytes};

use std::alloc::{AllocError, Global};
use std::fs::File;
use std::io::{ErrorKind, Read};
use std::{fs, io};

/// The most bytes that a file may have to be read: 64 MiB.
pub fn most_bytes() -> u32
    ensures { result ≡ most_bytes }
{
    67_108_864
}

/// Why a file was not read or not written, or a text not printed.
#[derive(Clone, Copy)]
pub enum FileFault {
    /// The system refused it, or the file is too large: why, in words for people.
    Failed(&'static str),
    /// No memory was left.
    Memory,
}

impl From<io::Error> for FileFault {
    ghost use Rattle.std.specs.IoError.{error_kind};

    ghost from_gives = { λ error e. IsFileFaultOf (error_kind error) e };

    fn from(error: io::Error) -> FileFault {
        if error.kind() == ErrorKind::OutOfMemory {
            return FileFault::Memory;
        }
        FileFault::Failed(words_of(error.kind()))
    }
}

impl From<AllocError> for FileFault {
    ghost use Rattle.command_files.specs.declared.files.FileFault.TheVariants.{Memory};

    ghost from_gives = { λ _ e. e ≡ Memory };

    fn from(_error: AllocError) -> FileFault {
        FileFault::Memory
    }
}

fn words_of(kind: ErrorKind) -> &'static str {
    match kind {
        ErrorKind::NotFound => "no such file",
        ErrorKind::PermissionDenied => "permission denied",
        ErrorKind::IsADirectory => "it is a directory",
        ErrorKind::NotADirectory => "a part of its path is not a directory",
        ErrorKind::InvalidFilename => "a name is too long",
        ErrorKind::StorageFull => "no space is left",
        ErrorKind::ReadOnlyFilesystem => "its file system is read-only",
        ErrorKind::BrokenPipe => "nothing reads from it",
        _ => "input or output failed",
    }
}

/// Files that can be read.
pub trait Files {
    /// That the file at a path had these bytes when it was read.
    ghost holds: { Self → List ℕ → List ℕ → Type 0 };

    /// That the file at a path could not be read.
    ghost fails: { Self → List ℕ → Type 0 };

    /// That a file could not be made at a path.
    ghost refuses: { List ℕ → Type 0 };

    /// All bytes of the file at this path, which are at most `most_bytes`. A larger file is `Failed`.
    fn read_all(&self, alloc: Global, path: &str) -> Result<Vec<u8>, FileFault>
        ensures bound { IfOk result (λ bytes. vec_len bytes ≤ most_bytes) }
        ensures content { IfOk result (λ bytes. holds self.now path.now bytes.items) }
        ensures failed { IfErr result (IsFailure (fails self.now path.now)) };
}

/// Where files are: the system, or memory. Only what has it by `&mut` can write.
pub trait MakesFiles: Files {
    /// The files that were made or replaced, in this order, each with all its bytes; where that is known.
    ghost made: { Self → Option (List MadeFile) };

    /// Makes or replaces the file at this path.
    fn write_all(&mut self, path: &str, bytes: &[u8]) -> Result<(), FileFault>
        ensures made { OnOk result (Grows (made self.old) (made self.new)
            ((record { path = path.now; bytes = bytes.now }) ∷ [])) }
        ensures kept { OnErr result (made self.new ≡ made self.old) }
        ensures failed { IfErr result (IsFailure (Self.refuses path.now)) };
}

/// All that a reader has to give, where that is at most `most` bytes; else `Failed`.
pub fn read_at_most<R: Read + Drop>(
    alloc: Global,
    reader: R,
    most: u32,
) -> Result<Vec<u8>, FileFault>
    ensures bound { IfOk result (λ bytes. vec_len bytes ≤ most) }
    ensures whole { IfOk result (λ bytes.
        IfSome (R.remaining reader) (λ all. bytes.items ≡ all)) }
{
    let most = u64::from(most);
    let mut bytes = Vec::new(alloc);
    reader.take(most + 1).read_to_end(&mut bytes)?;
    if bytes.len() as u64 > most {
        return Err(FileFault::Failed("it is larger than 64 MiB"));
    }
    Ok(bytes)
}

/// The files of the system. Nothing is claimed of what they hold.
#[derive(Drop)]
pub struct SystemFiles<'a, R: std::rt::Files> {
    /// The runtime that reaches them.
    pub rt: &'a R,
    /// For the names of files that are not yet at their places.
    pub alloc: Global,
}

impl<R: std::rt::Files> SystemFiles<'_, R> {
    /// Whether a file can be moved to this path: there is nothing yet, or a file that is not a link.
    fn is_replaceable(&self, path: &str) -> bool {
        match fs::symlink_metadata(self.rt, path) {
            Ok(there) => there.is_file(),
            Err(error) => error.kind() == ErrorKind::NotFound,
        }
    }

    /// Makes a file beside this path and moves it there, so that no part of it is ever found at the path itself.
    fn replace(&self, path: &str, bytes: &[u8]) -> Result<(), FileFault> {
        let beside = format!(in self.alloc; "{path}.part")?;
        match self.make_and_move(beside.as_str(), path, bytes) {
            Ok(()) => Ok(()),
            Err(error) => {
                let _ = fs::remove_file(self.rt, beside.as_str());
                Err(FileFault::from(error))
            }
        }
    }

    fn make_and_move(&self, beside: &str, path: &str, bytes: &[u8]) -> io::Result<()> {
        fs::write(self.rt, beside, bytes)?;
        fs::rename(self.rt, beside, path)
    }
}

impl<R: std::rt::Files> Files for SystemFiles<'_, R> {
    ghost holds = { λ _ _ _. Unit {0} };

    ghost fails = { λ _ _. Unit {0} };

    ghost refuses = { λ _. Unit {0} };

    fn read_all(&self, alloc: Global, path: &str) -> Result<Vec<u8>, FileFault> {
        read_at_most(alloc, File::open(self.rt, path)?, most_bytes())
    }
}

impl<R: std::rt::Files> MakesFiles for SystemFiles<'_, R> {
    ghost made = { λ _. None };

    fn write_all(&mut self, path: &str, bytes: &[u8]) -> Result<(), FileFault> {
        if self.is_replaceable(path) {
            return self.replace(path, bytes);
        }
        fs::write(self.rt, path, bytes)?;
        Ok(())
    }
}
