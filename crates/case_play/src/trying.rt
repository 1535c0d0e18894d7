//! The files of a trial, one after another. One file at a time is in memory.

ghost use Rattle.std.specs.Prelude.{IfOk};
ghost use Rattle.case_play.specs.Trying.{AreTried, IsFirstOf, IsTriedAt, IsTriedIn};

use crate::file_stating::states_finding;
use crate::finding::Finding;
use crate::looking::find;
use crate::making::{end_of_files, file_at};
use case_text::{FileAnswer, FileCase, FileKind, FileStated, Made};
use octets::Bytes;
use std::alloc::{AllocError, Global};

/// What is found in a file of which an answer is not right; none where it is.
fn wrong_in(
    alloc: Global,
    kind: FileKind,
    file: &[u8],
    stated: &FileStated,
    below: &[FileAnswer],
) -> Result<Option<Finding>, AllocError>
    ensures { IfOk result (λ r. IsTriedIn kind file.now stated.now below.now r) }
{
    let finding = find(alloc, kind, file)?;
    if states_finding(alloc, kind, file, stated, below, &finding)? {
        return Ok(None);
    }
    Ok(Some(finding))
}

/// The same of the file of this number, if there is one.
fn wrong_at(
    alloc: Global,
    case: &FileCase,
    made: &Made,
    stated: &FileStated,
    below: &[FileAnswer],
    number: u128,
) -> Result<Option<Finding>, AllocError>
    ensures { IfOk result (λ r. IsTriedAt case.now made.now stated.now below.now number r) }
{
    match file_at(alloc, made, case.bytes.as_slice(), number)? {
        None => Ok(None),
        Some(file) => wrong_in(alloc, case.kind, file.as_slice(), stated, below),
    }
}

/// What is found in the first file of which an answer is not right; none where it is right of each.
pub(crate) fn first_wrong(
    alloc: Global,
    case: &FileCase,
    made: &Made,
    stated: &FileStated,
    below: &[FileAnswer],
) -> Result<Option<Finding>, AllocError>
    ensures { IfOk result (λ r. AreTried case.now made.now stated.now below.now r) }
{
    let end = end_of_files(made, case.bytes.as_slice());
    for number in 0..end {
        match wrong_at(alloc, case, made, stated, below, number)? {
            None => {}
            Some(finding) => return Ok(Some(finding)),
        }
    }
    Ok(None)
}

/// The first file, if there is one.
pub(crate) fn first_file(
    alloc: Global,
    case: &FileCase,
    made: &Made,
) -> Result<Option<Bytes>, AllocError>
    ensures { IfOk result (λ r. IsFirstOf case.now made.now r) }
{
    let past = end_of_files(made, case.bytes.as_slice());
    for number in 0..past {
        match file_at(alloc, made, case.bytes.as_slice(), number)? {
            None => {}
            Some(file) => return Ok(Some(file)),
        }
    }
    Ok(None)
}
