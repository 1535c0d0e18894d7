//! What lines add to the line above them.

ghost use Rattle.std.specs.Prelude.{◌≡◌, List, ◌++◌, ◌∷◌, IfOk, OnOk};
ghost use Rattle.case_text.specs.Added.{bytes_in, digits_in, is_added, lines_from, whole_in_file, whole_line};
ghost use Rattle.case_text.specs.Added.{whole_lines};
ghost use Rattle.case_text.specs.declared.line.Line.TheVariants.{Remark};
ghost use Rattle.case_text.specs.declared.numbered.Numbered.{Numbered as NumberedData};

use crate::digit::Digit;
use crate::file_stated::FileStated;
use crate::item::Part;
use crate::line::{FileLine, Line};
use crate::numbered::Numbered;
use crate::trial::Made;
use octets::Bytes;
use std::alloc::{AllocError, Global};

fn joined(alloc: Global, bytes: &[u8], more: &[u8]) -> Result<Bytes, AllocError>
    ensures { IfOk result (λ b. b ≡ bytes.now ++ more.now) }
{
    let mut all = Vec::new(alloc);
    all.extend_from_slice(bytes)?;
    all.extend_from_slice(more)?;
    Ok(Bytes::from_vec(all))
}

/// A remark, or a line that adds to the one above.
fn is_added(line: &Line) -> bool
    ensures { result ≡ is_added line.now }
{
    match line {
        Line::Remark | Line::More(_) | Line::MoreDigits(_) => true,
        Line::Title(_) | Line::Answer { .. } | Line::Part { .. } | Line::File(_) => false,
    }
}

fn bytes_in(line: &Line) -> &[u8]
    ensures { result.now ≡ bytes_in line.now }
{
    match line {
        Line::More(bytes) => bytes.as_slice(),
        _ => &[],
    }
}

fn digits_in(line: &Line) -> &[Digit]
    ensures { result.now ≡ digits_in line.now }
{
    match line {
        Line::MoreDigits(digits) => digits.as_slice(),
        _ => &[],
    }
}

/// Adds bytes after others.
fn put_bytes(alloc: Global, bytes: &mut Bytes, more: &[u8]) -> Result<(), AllocError>
    ensures { OnOk result (bytes.new ≡ bytes.old ++ more.now) }
{
    *bytes = joined(alloc, bytes.as_slice(), more)?;
    Ok(())
}

/// Adds to a line of a case of a file, where it gives bytes or states digits.
fn put_in_file(
    alloc: Global,
    line: &mut FileLine,
    more: &[u8],
    digits: &[Digit],
) -> Result<(), AllocError>
    ensures { OnOk result (line.new ≡ whole_in_file line.old more.now digits.now) }
{
    match line {
        FileLine::Gives { bytes, .. } => put_bytes(alloc, bytes, more),
        FileLine::Makes(Made::And(bytes)) => put_bytes(alloc, bytes, more),
        FileLine::Makes(_) => Ok(()),
        FileLine::Answer { stated, .. } => match stated {
            FileStated::Image(all) => all.put(digits),
            FileStated::Trace(all) => all.put(digits),
            _ => Ok(()),
        },
    }
}

/// Adds to a line, where it gives bytes or states digits.
fn put_more(alloc: Global, line: &mut Line, more: &[u8], digits: &[Digit]) -> Result<(), AllocError>
    ensures { OnOk result (line.new ≡ whole_line line.old more.now digits.now) }
{
    match line {
        Line::Part { part, .. } => match part {
            Part::Recorded(bytes) => put_bytes(alloc, bytes, more),
            _ => Ok(()),
        },
        Line::File(line) => put_in_file(alloc, line, more, digits),
        _ => Ok(()),
    }
}

/// Adds the next line to the last one, or puts the last one after all others. Returns the line that is the last one
/// then.
#[tactic(auto, using(crate::proofs::Added::added))]
#[inline(always)]
fn put_next(
    alloc: Global,
    all: &mut Vec<Numbered>,
    mut last: Numbered,
    next: Numbered,
) -> Result<Numbered, AllocError>
    ensures { IfOk result (λ now. (rest : List NumberedData) → all.new.items ++ lines_from now rest
        ≡ all.old.items ++ lines_from last (next ∷ rest)) }
{
    if is_added(&next.line) {
        put_more(
            alloc,
            &mut last.line,
            bytes_in(&next.line),
            digits_in(&next.line),
        )?;
        return Ok(last);
    }
    all.push(last)?;
    Ok(next)
}

/// A remark, and then the lines that add to no other one, each with what is added to it.
#[tactic(auto, using(crate::proofs::Added::added))]
pub(crate) fn whole_lines(alloc: Global, lines: Vec<Numbered>) -> Result<Vec<Numbered>, AllocError>
    ensures { IfOk result (λ v. v.items ≡ record { number = 0; line = Remark } ∷ whole_lines lines.items) }
{
    let mut all = Vec::new(alloc);
    let mut last = Numbered {
        number: 0,
        line: Line::Remark,
    };
    for next in lines {
        last = put_next(alloc, &mut all, last, next)?;
    }
    all.push(last)?;
    Ok(all)
}
