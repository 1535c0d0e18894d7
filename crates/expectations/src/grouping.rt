//! The lines of a file as its cases.
ghost use Rattle.std.specs.Prelude.{◌≡◌, ◌++◌, IfOk, OnOk};
ghost use Rattle.expectations.specs.ExpectedCases.{cases_of};
ghost use Rattle.expectations.specs.Open.{cases_of_open};

use crate::expectation::{Expectation, Expectations, ExpectedCase};
use crate::line::{Line, Numbered};
use lwm2m_values::Text;
use std::alloc::{AllocError, Global};

/// A title, and the expectations below it as far as they were found.
#[derive(Drop)]
pub(crate) struct OpenCase {
    title: Text,
    line: usize,
    lines: Vec<Expectation>,
}

/// Adds the case that ends here, if there is one.
fn finish(cases: &mut Vec<ExpectedCase>, current: Option<OpenCase>) -> Result<(), AllocError>
    ensures { OnOk result (cases.new.items ≡ cases.old.items ++ cases_of_open current) }
{
    if let Some(OpenCase { title, line, lines }) = current {
        cases.push(ExpectedCase {
            title,
            line,
            lines: Expectations::from_vec(lines),
        })?;
    }
    Ok(())
}

/// A case for each title, of the expectations up to the next one.
pub(crate) fn cases_of(alloc: Global, lines: Vec<Numbered>) -> Result<Vec<ExpectedCase>, AllocError>
    ensures { IfOk result (λ v. v.items ≡ cases_of lines.items) }
{
    let mut cases = Vec::new(alloc);
    let mut current: Option<OpenCase> = None;
    for next in lines {
        let Numbered { number, line } = next;
        match line {
            Line::Remark => {}
            Line::Title(title) => {
                finish(&mut cases, current)?;
                current = Some(OpenCase {
                    title,
                    line: number,
                    lines: Vec::new(alloc),
                });
            }
            Line::Expected(expected) => {
                if let Some(case) = &mut current {
                    case.lines.push(Expectation {
                        line: number,
                        expected,
                    })?;
                }
            }
        }
    }
    finish(&mut cases, current)?;
    Ok(cases)
}
