//! The words of a reason: of operations, paths, options, rights and formats.

ghost use Rattle.std.specs.Prelude.{◌≡◌, option_map, true, false, IfOk, Some};
ghost use Rattle.std.specs.String.{string_bytes};
ghost use Rattle.request_reasons.specs.Words.{entry_path, entry_text, fixed_text, format_words, get_text, grant_text};
ghost use Rattle.request_reasons.specs.Words.{instance_path, kind_text, letter_if, letter_text, letters_text};
ghost use Rattle.request_reasons.specs.Words.{method_text, missing_text, named_format, needed_text, no_entry_text};
ghost use Rattle.request_reasons.specs.Words.{operation_name};
ghost use Rattle.request_reasons.specs.Words.{operations_text, option_text, ownership_text, path_fault_text};
ghost use Rattle.request_reasons.specs.Words.{put_text, resource_path, right_words, rights_text, segment_text};
ghost use Rattle.request_reasons.specs.Words.{served_text};

use crate::format::Served;
use crate::options::OptionFault;
use crate::payload_words::{bytes_text, ops_text};
use crate::right::{Grant, Letter};
use crate::target::Missing;
use crate::uri_path::PathFault;
use access_control::Rights;
use device_requests::Operation;
use message_words::format_name;
use object_defs::{Ops, Path, path_text};
use std::alloc::{AllocError, Global};

/// The name of an operation.
pub(crate) fn operation_name(operation: Operation) -> &'static str
    ensures { result.now ≡ operation_name operation }
{
    match operation {
        Operation::Read => "Read",
        Operation::Discover => "Discover",
        Operation::WriteReplace => "Write",
        Operation::WritePartial => "Write",
        Operation::WriteAttributes => "Write-Attributes",
        Operation::Create => "Create",
        Operation::Execute => "Execute",
        Operation::Delete => "Delete",
    }
}

/// What a path names.
pub(crate) fn kind_text(path: Path) -> &'static str
    ensures { result.now ≡ kind_text path }
{
    match path {
        Path::Object(_) => "an object",
        Path::Instance(_, _) => "an instance",
        Path::Resource(_, _, _) => "a resource",
        Path::Part(_, _, _, _) => "a part",
    }
}

/// The instance that a path names, or in which it lies.
fn instance_path(path: Path) -> Path
    ensures { result ≡ instance_path path }
{
    match path {
        Path::Object(object) => Path::Object(object),
        Path::Instance(object, instance)
        | Path::Resource(object, instance, _)
        | Path::Part(object, instance, _, _) => Path::Instance(object, instance),
    }
}

/// The resource that a path names, or of which it is a part.
fn resource_path(path: Path) -> Path
    ensures { result ≡ resource_path path }
{
    match path {
        Path::Object(object) => Path::Object(object),
        Path::Instance(object, instance) => Path::Instance(object, instance),
        Path::Resource(object, instance, resource) | Path::Part(object, instance, resource, _) => {
            Path::Resource(object, instance, resource)
        }
    }
}

/// Rule 3.
pub(crate) fn option_text(
    alloc: Global,
    number: u16,
    fault: OptionFault,
) -> Result<String, AllocError>
    ensures { IfOk result (λ text. string_bytes text ≡ option_text number fault) }
{
    match fault {
        OptionFault::Unknown => format!(in alloc; "option {number} is critical and not recognized"),
        OptionFault::Length { length } => {
            format!(in alloc; "option {number} has {length} bytes, and is not recognized so")
        }
        OptionFault::Repeated => format!(in alloc; "a second option {number} is not recognized"),
    }
}

/// A segment that is not a number.
fn segment_text(alloc: Global, place: usize, bytes: &[u8]) -> Result<String, AllocError>
    ensures { IfOk result (λ text. string_bytes text ≡ segment_text place bytes.now) }
{
    let word = bytes_text(alloc, bytes)?;
    format!(in alloc; "segment {place} of the Uri-Path is not a number: {word}")
}

/// Rule 4.
pub(crate) fn path_fault_text(alloc: Global, fault: &PathFault) -> Result<String, AllocError>
    ensures { IfOk result (λ text. string_bytes text ≡ path_fault_text fault.now) }
{
    match fault {
        PathFault::Segment { place, bytes } => segment_text(alloc, *place, bytes.as_slice()),
        PathFault::Count { count } => {
            format!(in alloc; "the Uri-Path has {count} segments, not 1 to 4")
        }
    }
}

/// GET, and what stands beside it where it has no operation.
fn get_text(path: Path) -> &'static str
    ensures { result.now ≡ get_text path }
{
    match path {
        Path::Object(_) | Path::Instance(_, _) | Path::Resource(_, _, _) => "GET",
        Path::Part(_, _, _, _) => "GET with Accept 40",
    }
}

/// PUT, and what stands beside it where it has no operation.
fn put_text(path: Path) -> &'static str
    ensures { result.now ≡ put_text path }
{
    match path {
        Path::Object(_) => "PUT without a Uri-Query",
        Path::Instance(_, _) | Path::Resource(_, _, _) => "PUT",
        Path::Part(_, _, _, _) => "PUT with a Uri-Query",
    }
}

/// A method that has no operation at a path.
pub(crate) fn method_text(alloc: Global, method: u8, path: Path) -> Result<String, AllocError>
    ensures { IfOk result (λ text. string_bytes text ≡ method_text method path) }
{
    match method {
        1 => String::from_str(alloc, get_text(path)),
        2 => String::from_str(alloc, "POST"),
        3 => String::from_str(alloc, put_text(path)),
        4 => String::from_str(alloc, "DELETE"),
        _ => format!(in alloc; "method {method}"),
    }
}

/// What of a path is not there.
pub(crate) fn missing_text(
    alloc: Global,
    path: Path,
    missing: Missing,
) -> Result<String, AllocError>
    ensures { IfOk result (λ text. string_bytes text ≡ missing_text path missing) }
{
    match missing {
        Missing::Object => {
            let object = path.object();
            format!(in alloc; "the device does not know object {object}")
        }
        Missing::Instance => {
            let instance = path_text(alloc, instance_path(path))?;
            format!(in alloc; "there is no instance {instance}")
        }
        Missing::Resource => {
            let resource = path_text(alloc, resource_path(path))?;
            format!(in alloc; "{resource} is not defined")
        }
        Missing::Parts => {
            let resource = path_text(alloc, resource_path(path))?;
            format!(in alloc; "{resource} is a single resource")
        }
        Missing::Value => {
            let place = path_text(alloc, path)?;
            format!(in alloc; "{place} holds no value")
        }
    }
}

/// A letter of a right.
pub(crate) fn letter_text(letter: Letter) -> &'static str
    ensures { result.now ≡ letter_text letter }
{
    match letter {
        Letter::R => "R",
        Letter::W => "W",
        Letter::E => "E",
        Letter::D => "D",
        Letter::C => "C",
    }
}

/// A letter where a right has it.
fn letter_if(is_there: bool, letter: Letter) -> &'static str
    ensures { result.now ≡ letter_if is_there letter }
{
    if is_there { letter_text(letter) } else { "" }
}

/// The letters of a right, or `none`.
fn rights_text(alloc: Global, rights: Rights) -> Result<String, AllocError>
    ensures { IfOk result (λ text. string_bytes text ≡ rights_text rights) }
{
    let letters = letters_text(alloc, rights)?;
    if letters.is_empty() {
        return String::from_str(alloc, "none");
    }
    Ok(letters)
}

/// The letters of a right.
fn letters_text(alloc: Global, rights: Rights) -> Result<String, AllocError>
    ensures { IfOk result (λ text. string_bytes text ≡ letters_text rights) }
{
    let read = letter_if(rights.read, Letter::R);
    let write = letter_if(rights.write, Letter::W);
    let execute = letter_if(rights.execute, Letter::E);
    let delete = letter_if(rights.delete, Letter::D);
    let create = letter_if(rights.create, Letter::C);
    format!(in alloc; "{read}{write}{execute}{delete}{create}")
}

/// The path of an entry of the ACL of an instance of Access Control.
fn entry_path(control: u16, server: u16) -> Path
    ensures { result ≡ entry_path control server }
{
    Path::Part(2, control, 2, server)
}

/// An entry of the ACL of an instance of Access Control.
fn entry_text(alloc: Global, path: Path, number: i64, rights: Rights) -> Result<String, AllocError>
    ensures { IfOk result (λ text. string_bytes text ≡ entry_text path number rights) }
{
    let entry = path_text(alloc, path)?;
    let letters = rights_text(alloc, rights)?;
    format!(in alloc; "{entry} is {number} ({letters})")
}

/// That a server owns an instance of Access Control.
fn owner_text(alloc: Global, server: u16, path: Path) -> Result<String, AllocError>
    ensures { IfOk result (λ text. string_bytes text ≡ ownership_text server path true) }
{
    let place = path_text(alloc, path)?;
    format!(in alloc; "server {server} owns {place}, and has RW there")
}

/// That a server does not own an instance of Access Control.
fn other_text(alloc: Global, server: u16, path: Path) -> Result<String, AllocError>
    ensures { IfOk result (λ text. string_bytes text ≡ ownership_text server path false) }
{
    let place = path_text(alloc, path)?;
    format!(in alloc; "server {server} does not own {place}, and has R there")
}

/// Whether a server owns an instance of Access Control, and the letters that it has there.
fn ownership_text(
    alloc: Global,
    server: u16,
    path: Path,
    is_owner: bool,
) -> Result<String, AllocError>
    ensures { IfOk result (λ text. string_bytes text ≡ ownership_text server path is_owner) }
{
    if is_owner {
        owner_text(alloc, server, path)
    } else {
        other_text(alloc, server, path)
    }
}

/// That neither a server has an entry in an instance of Access Control, nor is there a default one.
fn no_entry_text(alloc: Global, server: u16, control: u16) -> Result<String, AllocError>
    ensures { IfOk result (λ text. string_bytes text ≡ no_entry_text server control) }
{
    let own = path_text(alloc, entry_path(control, server))?;
    let default = path_text(alloc, entry_path(control, 0))?;
    format!(in alloc; "there is neither {own} nor {default}")
}

/// What decides the right of a server on an instance.
fn grant_text(alloc: Global, server: u16, path: Path, grant: Grant) -> Result<String, AllocError>
    ensures { IfOk result (λ text. string_bytes text ≡ grant_text server path grant) }
{
    match grant {
        Grant::OfControl { is_owner } => ownership_text(alloc, server, path, is_owner),
        Grant::Unreferred => {
            let place = path_text(alloc, path)?;
            format!(in alloc; "no instance of Access Control refers to {place}")
        }
        Grant::Own {
            control,
            number,
            rights,
        } => entry_text(alloc, entry_path(control, server), number, rights),
        Grant::Owner { control } => {
            let control = path_text(alloc, Path::Instance(2, control))?;
            format!(in alloc; "server {server} owns {control}")
        }
        Grant::Default {
            control,
            number,
            rights,
        } => {
            let entry = entry_text(alloc, entry_path(control, 0), number, rights)?;
            format!(in alloc; "{entry}, the default")
        }
        Grant::NoEntry { control } => no_entry_text(alloc, server, control),
    }
}

/// Rule 8.
pub(crate) fn right_words(
    alloc: Global,
    server: u16,
    letter: Letter,
    path: Path,
    grant: Grant,
) -> Result<String, AllocError>
    ensures { IfOk result (λ text. string_bytes text ≡ right_words server letter path grant) }
{
    let given = grant_text(alloc, server, path, grant)?;
    let letter = letter_text(letter);
    let place = path_text(alloc, path)?;
    format!(in alloc; "{given}: server {server} lacks {letter} on {place}")
}

/// The letter of an operation on a resource.
fn needed_text(operation: Operation) -> &'static str
    ensures { result.now ≡ needed_text operation }
{
    match operation {
        Operation::Read | Operation::Discover => "R",
        Operation::WriteReplace | Operation::WritePartial | Operation::WriteAttributes => "W",
        Operation::Create => "C",
        Operation::Execute => "E",
        Operation::Delete => "D",
    }
}

/// An object or an instance that does not have an operation.
fn fixed_text(alloc: Global, operation: Operation, path: Path) -> Result<String, AllocError>
    ensures { IfOk result (λ text. string_bytes text ≡ fixed_text operation path) }
{
    let object = path.object();
    let place = path_text(alloc, path)?;
    match operation {
        Operation::Read | Operation::Discover => format!(in alloc; "{place} cannot be read"),
        Operation::WriteReplace | Operation::WritePartial | Operation::WriteAttributes => {
            format!(in alloc; "{place} cannot be written as a whole")
        }
        Operation::Create => format!(in alloc; "servers create no instance of object {object}"),
        Operation::Execute => format!(in alloc; "{place} cannot be executed"),
        Operation::Delete => format!(in alloc; "servers delete no instance of object {object}"),
    }
}

/// The operations of a resource, and the one that it lacks.
fn lacking_text(
    alloc: Global,
    operation: Operation,
    path: Path,
    operations: Ops,
) -> Result<String, AllocError>
    ensures { IfOk result (λ text. string_bytes text ≡ operations_text operation path (Some operations)) }
{
    let resource = path_text(alloc, resource_path(path))?;
    let has = ops_text(operations);
    let needs = needed_text(operation);
    format!(in alloc; "{resource} has the operations {has}, not {needs}")
}

/// What a target has in the place of an operation.
pub(crate) fn operations_text(
    alloc: Global,
    operation: Operation,
    path: Path,
    operations: Option<Ops>,
) -> Result<String, AllocError>
    ensures { IfOk result (λ text. string_bytes text ≡ operations_text operation path operations) }
{
    match operations {
        None => fixed_text(alloc, operation, path),
        Some(operations) => lacking_text(alloc, operation, path, operations),
    }
}

/// A Content-Format by its name, where it has one.
fn named_format(
    alloc: Global,
    name: Option<&'static str>,
    number: u16,
) -> Result<String, AllocError>
    ensures { IfOk result (λ text. string_bytes text ≡ named_format (option_map (λ n. n.now) name.entry) number) }
{
    match name {
        Some(name) => format!(in alloc; "{name} ({number})"),
        None => format!(in alloc; "format {number}"),
    }
}

/// A Content-Format: its name and its number.
pub(crate) fn format_words(alloc: Global, number: u16) -> Result<String, AllocError>
    ensures { IfOk result (λ text. string_bytes text ≡ format_words number) }
{
    if number == 11542 {
        return String::from_str(alloc, "TLV (11542)");
    }
    named_format(alloc, format_name(u32::from(number)), number)
}

/// The formats that are served, in words.
pub(crate) fn served_text(served: Served) -> &'static str
    ensures { result.now ≡ served_text served }
{
    match served {
        Served::TlvAlone => "TLV (11542) is",
        Served::PlainTextAlone => "text/plain (0) is",
        Served::PlainTextAndTlv => "text/plain (0) and TLV (11542) are",
        Served::All => "text/plain (0), octet-stream (42) and TLV (11542) are",
    }
}
