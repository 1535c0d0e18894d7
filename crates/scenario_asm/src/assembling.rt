ghost use Rattle.std.specs.Prelude.{◌≡◌, ◌≢◌, None, Ok, Err, IfErr, MatchResult};
ghost use Rattle.scenario_words.specs.declared.cause.Cause.TheVariants.{Limit, Memory};
ghost use Rattle.scenario_asm.specs.Limits.{PassesAt, asm_fault};
ghost use Rattle.scenario_asm.specs.Text.{IsReached, scenario_of_text};

use crate::draft::Draft;
use crate::fault::{AsmFault, TextFault};
use crate::limit::LineFault;
use scenario_image::Scenario;
use scenario_words::next_line;
use std::alloc::Global;

/// The scenario that a text denotes, otherwise the first line that is refused, and its one cause, the first in this
/// order. In a line words are read from the left (`Missing`, `Token`, `UnknownWord`, `Range`), and no word may be left
/// (`Token`). Then `Missing` (it needs what was not stated before, `scenario 1` in the first place), `Range` (it does
/// not fit), `Duplicate` (it was stated before), `Limit` (a count or a length). A text that states nothing is `Missing`
/// in line 1.
///
/// If memory runs out, the line that is named is one of the text's, and those before it were taken (`memory`). If the
/// cause is `Limit`, the limit is told that the line passes, else none.
#[tactic(auto, using(crate::proofs::Lines::line_by_line))]
pub fn assemble_or_limit(alloc: Global, text: &str) -> Result<Scenario, TextFault>
    ensures assembled { MatchResult result (λ s. scenario_of_text text.now ≡ Ok s)
        (λ f. f.cause ≢ Memory → scenario_of_text text.now ≡ Err (asm_fault f)) }
    ensures memory { IfErr result (λ f. f.cause ≡ Memory → IsReached text.now f.line) }
    ensures limit { IfErr result (λ f. f.cause ≡ Limit → PassesAt text.now f.line f.limit) }
    ensures no_limit { IfErr result (λ f. f.cause ≢ Limit → f.limit ≡ None) }
{
    let mut draft = Draft::nothing(alloc);
    let mut line = 0;
    let mut left = Some(text.as_bytes());
    while let Some(text) = left {
        let (first, behind) = next_line(text);
        line += 1;
        if let Err(LineFault { cause, limit }) = draft.take_line(alloc, first) {
            return Err(TextFault { line, cause, limit });
        }
        left = behind;
    }
    match draft.finish(line) {
        Ok(scenario) => Ok(scenario),
        Err(AsmFault { line, cause }) => Err(TextFault {
            line,
            cause,
            limit: None,
        }),
    }
}

/// The same without the limit.
pub fn assemble(alloc: Global, text: &str) -> Result<Scenario, AsmFault>
    ensures assembled { MatchResult result (λ s. scenario_of_text text.now ≡ Ok s)
        (λ f. f.cause ≢ Memory → scenario_of_text text.now ≡ Err f) }
    ensures memory { IfErr result (λ f. f.cause ≡ Memory → IsReached text.now f.line) }
{
    match assemble_or_limit(alloc, text) {
        Ok(scenario) => Ok(scenario),
        Err(TextFault { line, cause, .. }) => Err(AsmFault { line, cause }),
    }
}
