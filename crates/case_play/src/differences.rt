//! The items of a case, one after another, up to the first that does not hold.

ghost use Rattle.std.specs.Prelude.{IfOk};
ghost use Rattle.case_play.specs.Spots.{Spot, spot_after, PutsOut};
ghost use Rattle.case_play.specs.Cases.{IsJudged};
ghost use Rattle.case_play.specs.Walks.{IsAt, IsSomewhere, IsTold};

use crate::came::Came;
use crate::items::check_outputs;
use crate::outcomes::came_after;
use crate::walk::Walk;
use case_text::Item;
use device_machine::Outputs;
use scenario_image::Scenario;
use std::alloc::{AllocError, Global};

/// Where an item of a case does not hold.
#[derive(Drop)]
pub struct ItemDifference {
    /// The line of the file that is named.
    pub line: usize,
    /// What came of the item.
    pub came: Came,
}

/// Where an item does not hold, of which this is output, and after which the walk is.
fn output_difference(
    alloc: Global,
    scenario: &Scenario,
    walk: &Walk,
    item: &Item,
    outputs: Outputs,
) -> Result<Option<ItemDifference>, AllocError>
    ensures { (spot : Spot) → PutsOut scenario.now spot item.now.part outputs
        → IsAt scenario.now (spot_after spot item.now.part) walk.now
        → IfOk result (λ r. IsTold scenario.now spot item.now r walk.now) }
{
    match check_outputs(alloc, scenario, walk, item, outputs.as_slice())? {
        None => Ok(None),
        Some(line) => {
            let came = came_after(scenario, walk, &item.part, outputs)?;
            Ok(Some(ItemDifference { line, came }))
        }
    }
}

/// Goes past an item, and gives where it does not hold.
fn item_difference(
    alloc: Global,
    scenario: &Scenario,
    walk: &mut Walk,
    item: &Item,
) -> Result<Option<ItemDifference>, AllocError>
    requires { IsSomewhere scenario.now walk.old }
    ensures { (spot : Spot) → IsAt scenario.now spot walk.old
        → IfOk result (λ r. IsTold scenario.now spot item.now r walk.new) }
{
    match walk.pass(alloc, scenario, &item.part)? {
        None => Ok(Some(ItemDifference {
            line: item.line,
            came: Came::Nowhere,
        })),
        Some(outputs) => output_difference(alloc, scenario, walk, item, outputs),
    }
}

/// The first item of a case that does not hold in the scenario: its line, or that of the answer in it that is not so,
/// and what came of it. None where each item holds. The rows are walked once.
pub(crate) fn first_difference(
    alloc: Global,
    scenario: &Scenario,
    items: &[Item],
) -> Result<Option<ItemDifference>, AllocError>
    ensures { IfOk result (λ r. IsJudged scenario.now items.now r) }
{
    let mut walk = Walk::new();
    for item in items {
        match item_difference(alloc, scenario, &mut walk, item)? {
            None => {}
            Some(difference) => return Ok(Some(difference)),
        }
    }
    Ok(None)
}
