//! The lines of a case of a file, as what they give and try.

ghost use Rattle.std.specs.Prelude.{◌≡◌, IfOk};
ghost use Rattle.case_text.specs.FileCases.{all_trials, file_of, given_in, gives_file, is_given};

use crate::adding::whole_lines;
use crate::body::Body;
use crate::file_answer::{FileAnswer, FileAnswers};
use crate::file_case::{FileCase, FileKind};
use crate::line::{FileLine, Line};
use crate::numbered::Numbered;
use crate::trial::{Made, Trial, Trials};
use octets::Bytes;
use std::alloc::{AllocError, Global};

fn is_given(line: &Line) -> bool
    ensures { result ≡ is_given line.now }
{
    match line {
        Line::File(FileLine::Gives { .. }) => true,
        _ => false,
    }
}

/// Whether one of these lines gives a file.
pub(crate) fn gives_file(lines: &[Numbered]) -> bool
    ensures { result ≡ gives_file lines.now }
{
    lines.iter().any(|line| is_given(&line.line))
}

/// The first line that gives a file: its number, what the file is, and its bytes.
fn given_in(alloc: Global, lines: &[Numbered]) -> Result<(usize, FileKind, Bytes), AllocError>
    ensures { IfOk result (λ g. g ≡ given_in lines.now) }
{
    for next in lines {
        if let Line::File(FileLine::Gives { kind, bytes }) = &next.line {
            return Ok((next.number, *kind, bytes.clone()?));
        }
    }
    Ok((0, FileKind::Text, Bytes::new(alloc)))
}

/// The file itself, which is given in this line, and those that are made of it.
fn all_trials(alloc: Global, first: usize, lines: Vec<Numbered>) -> Result<Trials, AllocError>
    ensures { IfOk result (λ t. t ≡ all_trials first lines.items) }
{
    let mut trials = Vec::new(alloc);
    let mut line = first;
    let mut made = Made::Itself;
    let mut answers = Vec::new(alloc);
    for next in lines {
        let (number, kind) = next.parts();
        match kind {
            Line::File(FileLine::Answer { must_not, stated }) => answers.push(FileAnswer {
                line: number,
                must_not,
                stated,
            })?,
            Line::File(FileLine::Makes(other)) => {
                trials.push(Trial {
                    line,
                    made,
                    answers: FileAnswers::from_vec(answers),
                })?;
                line = number;
                made = other;
                answers = Vec::new(alloc);
            }
            other => drop(other),
        }
    }
    trials.push(Trial {
        line,
        made,
        answers: FileAnswers::from_vec(answers),
    })?;
    Ok(Trials::from_vec(trials))
}

/// A case of a file, of a body of which a line gives it.
pub(crate) fn file_of(alloc: Global, body: Body) -> Result<FileCase, AllocError>
    ensures { IfOk result (λ c. c ≡ file_of body.title body.line body.lines.items) }
{
    let Body { title, line, lines } = body;
    let lines = whole_lines(alloc, lines)?;
    let (first, kind, bytes) = given_in(alloc, lines.as_slice())?;
    let trials = all_trials(alloc, first, lines)?;
    Ok(FileCase {
        title,
        line,
        kind,
        bytes,
        trials,
    })
}
