//! An answer of the program: the file that it makes, what it prints, and how it then ends.
ghost use Rattle.std.specs.Prelude.{◌≡◌, None, IfErr, IfOk, IfSome, OnErr, OnOk};
ghost use Rattle.std.specs.Io.KnownBytes.{Appends};
ghost use Rattle.std.specs.String.{string_bytes};
ghost use Rattle.command_files.specs.Answers.{IsUndelivered, files_of, writing_fault};
ghost use Rattle.command_files.specs.Fault.{IsWritingFault};
ghost use Rattle.command_files.specs.Files.{Grows};
ghost use Rattle.command_files.specs.World.{IsAside, OnlyMakes};

use crate::fault::Fault;
use crate::files::FileFault;
use crate::refusal::{Refusal, Why};
use crate::status::Status;
use crate::world::World;
use octets::Bytes;

/// A file that is still to be made.
#[derive(Drop)]
pub struct NewFile<'a> {
    /// Where it goes. What is there is replaced.
    pub path: &'a str,
    /// All that it has.
    pub bytes: Bytes,
}

/// What the program answers: it makes the file, if there is one, then prints the text, and then ends.
#[derive(Drop)]
pub struct Answer<'a> {
    /// How it ends.
    pub status: Status,
    /// The lines, each with its line feed.
    pub text: String,
    /// The file that is made before the text is printed.
    pub file: Option<NewFile<'a>>,
}

impl<'a> Answer<'a> {
    /// The answer that makes no file.
    pub fn printed(status: Status, text: String) -> Answer<'a>
        ensures status { result.status ≡ status }
        ensures text { result.text ≡ text }
        ensures file { result.file ≡ None }
    {
        Answer {
            status,
            text,
            file: None,
        }
    }
}

/// Makes the file, if there is one.
#[tactic(auto, using(crate::proofs::Delivered::unwritten))]
pub fn make<'a, W: World>(file: &Option<NewFile<'a>>, world: &mut W) -> Result<(), Refusal<'a>>
    ensures made { OnOk result (Grows (W.seen world.old).made (W.seen world.new).made (files_of file.now)) }
    ensures kept { OnErr result ((W.seen world.new).made ≡ (W.seen world.old).made) }
    ensures refused { IfErr result (λ r. IsWritingFault (IfSome file.now (λ f. W.refuses f.path.now)) r.fault) }
    ensures only { OnlyMakes (W.seen world.old) (W.seen world.new) }
{
    match file {
        None => Ok(()),
        Some(file) => match world.write_all(file.path, file.bytes.as_slice()) {
            Ok(()) => Ok(()),
            Err(fault) => Err(unwritten(file.path, fault)),
        },
    }
}

/// The refusal of a file that was not made, or of a text that was not printed.
pub fn unwritten<'a>(about: &'a str, fault: FileFault) -> Refusal<'a>
    ensures { result.fault ≡ writing_fault fault }
{
    match fault {
        FileFault::Failed(why) => Refusal {
            fault: Fault::Write,
            about: Some(about),
            why: Why::Known(why),
        },
        FileFault::Memory => Refusal {
            fault: Fault::Memory,
            about: Some(about),
            why: Why::Named,
        },
    }
}

/// Makes the file of an answer, if it has one, and then prints its text. Nothing is printed before the file is made.
#[tactic(auto, using(crate::proofs::Delivered::unwritten, crate::proofs::Delivered::unmade, crate::proofs::Delivered::unprinted))]
pub fn deliver<'a, W: World>(answer: &Answer<'a>, world: &mut W) -> Result<Status, Refusal<'a>>
    ensures status { IfOk result (λ status. status ≡ answer.now.status) }
    ensures made { OnOk result (Grows (W.seen world.old).made (W.seen world.new).made (files_of answer.now.file)) }
    ensures printed { OnOk result (Appends (W.seen world.old).streams.output (W.seen world.new).streams.output
        (string_bytes answer.now.text)) }
    ensures refused { IfErr result (λ r. IsUndelivered W.refuses W.faults (W.seen world.old) (W.seen world.new)
        answer.now r.fault) }
    ensures aside { IsAside (W.seen world.old).streams (W.seen world.new).streams }
{
    make(&answer.file, world)?;
    match world.print(answer.text.as_str()) {
        Ok(()) => Ok(answer.status),
        Err(fault) => Err(unwritten("standard output", fault)),
    }
}
