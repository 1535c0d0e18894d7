//! The lines of a file as its cases.

ghost use Rattle.std.specs.Prelude.{◌≡◌, ◌++◌, ◌∷◌, [], map, replicate, IfOk, OnOk};
ghost use Rattle.std.specs.String.{string_bytes};
ghost use Rattle.case_text.specs.Cases.{all_items, body_of, case_by, case_of, cases_of, count_by, numbers_of};
ghost use Rattle.case_text.specs.Cases.{scenario_of, text_by, text_of};

use crate::adding::whole_lines;
use crate::answer::{Answer, Answers};
use crate::body::Body;
use crate::case::Case;
use crate::file_grouping::{file_of, gives_file};
use crate::item::{Item, Items, Part};
use crate::line::Line;
use crate::numbered::Numbered;
use crate::numbers::LineNumbers;
use crate::scenario_case::ScenarioCase;
use lwm2m_values::Text;
use std::alloc::{AllocError, Global};

/// Adds what a line adds to the text.
fn put_text(out: &mut String, line: &Line) -> Result<(), AllocError>
    ensures { OnOk result (string_bytes out.new ≡ string_bytes out.old ++ text_by line.now) }
{
    match line {
        Line::Title(_) => Ok(()),
        Line::Part { text, .. } => out.push_str(text.as_str()),
        Line::Remark | Line::Answer { .. } | Line::More(_) | Line::MoreDigits(_) | Line::File(_) =>
            out.push('\n'),
    }
}

fn text_of(alloc: Global, lines: &[Numbered]) -> Result<Text, AllocError>
    ensures { IfOk result (λ t. t ≡ text_of lines.now) }
{
    let mut out = String::new(alloc);
    for line in lines {
        put_text(&mut out, &line.line)?;
    }
    Ok(Text::from_string(out))
}

fn count_by(line: &Line) -> u32
    ensures { result ≡ count_by line.now }
{
    match line {
        Line::Title(_) => 0,
        Line::Part { lines, .. } => *lines,
        Line::Remark | Line::Answer { .. } | Line::More(_) | Line::MoreDigits(_) | Line::File(_) =>
            1,
    }
}

/// Adds a number, repeated.
#[tactic(auto, using(crate::proofs::Parts::one_more))]
fn put_number(out: &mut Vec<usize>, number: usize, times: u32) -> Result<(), AllocError>
    ensures { OnOk result (out.new.items ≡ out.old.items ++ replicate times number) }
{
    let mut left = times;
    while left > 0 {
        out.push(number)?;
        left -= 1;
    }
    Ok(())
}

fn numbers_of(alloc: Global, title: usize, lines: &[Numbered]) -> Result<LineNumbers, AllocError>
    ensures { IfOk result (λ n. n ≡ numbers_of title lines.now) }
{
    let mut out = Vec::new(alloc);
    for line in lines {
        let number = line.number.saturating_sub(title);
        put_number(&mut out, number, count_by(&line.line))?;
    }
    Ok(LineNumbers::from_vec(out))
}

/// The start of a case, whose title stands in this line, and the items below it.
fn all_items(alloc: Global, title: usize, lines: Vec<Numbered>) -> Result<Items, AllocError>
    ensures { IfOk result (λ i. i ≡ all_items title lines.items) }
{
    let mut items = Vec::new(alloc);
    let mut line = title;
    let mut part = Part::Start;
    let mut answers = Vec::new(alloc);
    for next in lines {
        let (number, kind) = next.parts();
        match kind {
            Line::Answer { must_not, stated } => answers.push(Answer {
                line: number,
                must_not,
                stated,
            })?,
            Line::Part {
                part: behind,
                text,
                lines: _,
            } => {
                drop(text);
                items.push(Item {
                    line,
                    part,
                    answers: Answers::from_vec(answers),
                })?;
                line = number;
                part = behind;
                answers = Vec::new(alloc);
            }
            other => drop(other),
        }
    }
    items.push(Item {
        line,
        part,
        answers: Answers::from_vec(answers),
    })?;
    Ok(Items::from_vec(items))
}

fn scenario_of(alloc: Global, body: Body) -> Result<ScenarioCase, AllocError>
    ensures { IfOk result (λ c. c ≡ scenario_of body.title body.line body.lines.items) }
{
    let Body { title, line, lines } = body;
    let text = text_of(alloc, lines.as_slice())?;
    let numbers = numbers_of(alloc, line, lines.as_slice())?;
    let items = all_items(alloc, line, whole_lines(alloc, lines)?)?;
    Ok(ScenarioCase {
        title,
        line,
        text,
        numbers,
        items,
    })
}

#[tactic(auto, unfolding(crate::specs::Cases::case_of))]
fn case_of(alloc: Global, body: Body) -> Result<Case, AllocError>
    ensures { IfOk result (λ c. c ≡ case_by body) }
{
    if gives_file(body.lines.as_slice()) {
        Ok(Case::File(file_of(alloc, body)?))
    } else {
        Ok(Case::Scenario(scenario_of(alloc, body)?))
    }
}

/// What stands before the first title, as if it had one, and each title with the lines below it.
fn bodies_of(alloc: Global, lines: Vec<Numbered>) -> Result<Vec<Body>, AllocError>
    ensures { IfOk result (λ v. map case_by v.items ≡ case_of [] 0 (body_of lines.items) ∷ cases_of lines.items) }
{
    let mut bodies = Vec::new(alloc);
    let mut current = Body {
        title: Text::from_string(String::new(alloc)),
        line: 0,
        lines: Vec::new(alloc),
    };
    for next in lines {
        let (number, line) = next.parts();
        match line {
            Line::Title(title) => {
                bodies.push(current)?;
                current = Body {
                    title,
                    line: number,
                    lines: Vec::new(alloc),
                };
            }
            line => current.lines.push(Numbered { number, line })?,
        }
    }
    bodies.push(current)?;
    Ok(bodies)
}

/// A case for each title.
pub(crate) fn cases_of(alloc: Global, lines: Vec<Numbered>) -> Result<Vec<Case>, AllocError>
    ensures { IfOk result (λ v. v.items ≡ cases_of lines.items) }
{
    let mut cases = Vec::new(alloc);
    let mut bodies = bodies_of(alloc, lines)?.into_iter();
    bodies.next();
    for body in bodies {
        cases.push(case_of(alloc, body)?)?;
    }
    Ok(cases)
}
