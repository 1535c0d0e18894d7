//! The cases of a file.

ghost use Rattle.scenario_words.specs.Words.{lines};
ghost use Rattle.case_text.specs.Above.{above_none};
ghost use Rattle.case_text.specs.Cases.{Finds, cases_in, numbered_lines};

use crate::above::Above;
use crate::any_line::read_line;
use crate::case::Case;
use crate::checking::{begun, checked};
use crate::fault::{CaseFault, Why};
use crate::grouping::cases_of;
use crate::numbered::Numbered;
use scenario_words::next_line;
use std::alloc::Global;

/// The lines of a text, or the first that cannot be read.
#[tactic(auto, using(crate::proofs::Grouped::line_by_line))]
fn numbered(alloc: Global, text: &[u8]) -> Result<Vec<Numbered>, CaseFault>
    ensures { Finds (λ v. v.items) result (numbered_lines (lines text.now) 0 above_none) }
{
    let mut all = Vec::new(alloc);
    let mut number = 0;
    let mut above = Above::none();
    let mut left = Some(text);
    while let Some(text) = left {
        let (first, behind) = next_line(text);
        number += 1;
        match read_line(alloc, above, first) {
            Ok(line) => {
                above = above.after(&line);
                all.push(Numbered { number, line })?;
            }
            Err(why) => return Err(CaseFault { line: number, why }),
        }
        left = behind;
    }
    Ok(all)
}

/// The cases of a file, or the first fault: of a line that cannot be read; of what stands before the first case; of a
/// case (two of one title, one that states nothing, a file or a recorded trace without an answer, a `=| LINE` without
/// `=> text` above it).
pub fn read_cases(alloc: Global, text: &[u8]) -> Result<Vec<Case>, CaseFault>
    ensures { Finds (λ v. v.items) result (cases_in text.now) }
{
    let lines = numbered(alloc, text)?;
    begun(lines.as_slice())?;
    let cases = cases_of(alloc, lines)?;
    checked(cases.as_slice())?;
    Ok(cases)
}
