//! Tables of the posts to each group.

ghost use Rattle.std.specs.Prelude.{◌≡◌, ℕ, ◌+◌, ◌^◌, ◌<◌, ◌==◌, ◌++◌, List, length, slice_get, slice_index, count_by, OnOk};
ghost use Rattle.std.specs.List.{AllByRecursion};
ghost use Rattle.fleet_core.specs.Run.{steps_in};
ghost use Rattle.scenario_image.specs.Scenario.{IsValid};
ghost use Rattle.device_stations.specs.declared.station.Station.{Station};
ghost use Rattle.shared_trace.specs.Kept.{groups_in, places_for, places_for_steps, table_length, IsRosterOf};

use crate::roster::Roster;
use scenario_image::{Scenario, Step};
use std::alloc::AllocError;

/// How many places a table needs for the step: for a post those up to its group's.
fn places_for(step: &Step) -> usize
    ensures { result ≡ places_for step.now }
{
    match step {
        Step::Event(_) | Step::Need(_, _) => 0,
        Step::Post(group) => usize::from(*group) + 1,
    }
}

/// How many places a table needs for these steps.
fn places_for_steps(steps: &[Step]) -> usize
    ensures { result ≡ places_for_steps steps.now }
{
    steps
        .iter()
        .fold(0, |most, step| most.max(places_for(step)))
}

/// How many places a table needs for the device's row.
fn places_for_row(scenario: &Scenario, device: u16) -> usize
    ensures { result ≡ places_for_steps (steps_in (slice_get scenario.now.rows device)) }
{
    match scenario.row(device) {
        None => 0,
        Some((_, steps)) => places_for_steps(steps),
    }
}

/// How long the tables are: there is a place for each group that is posted to, and none where none is. So where no row
/// posts, a claim copies nothing.
#[tactic(auto, using(crate::proofs::Lengths::more_rows))]
pub(crate) fn table_length(scenario: &Scenario) -> usize
    ensures places { result ≡ table_length scenario.now }
    ensures valid { IsValid scenario.now }
{
    let mut most = 0;
    for device in 0..scenario.rows() {
        most = most.max(places_for_row(scenario, device as u16));
    }
    most
}

/// Counts a post to each of these groups, and wakes the devices that waited for it.
pub(crate) fn add_posts(posts: &mut Vec<u32>, roster: &mut Roster, groups: &[u8])
    requires within { AllByRecursion (λ h. h < length posts.old.items) groups.now }
    requires room { (g : ℕ) → slice_index posts.old.items g + count_by (λ h. h == g) groups.now < 2 ^ 32 }
    requires groups { length roster.old.waiting.items ≡ length posts.old.items }
    ensures count { length posts.new.items ≡ length posts.old.items }
    ensures sums { (g : ℕ) → slice_index posts.new.items g
        ≡ slice_index posts.old.items g + count_by (λ h. h == g) groups.now }
    ensures roster { (stations : List Station) → IsRosterOf posts.old.items stations roster.old
        → IsRosterOf posts.new.items stations roster.new }
{
    for group in groups {
        let count = &mut posts[usize::from(*group)];
        *count += 1;
        roster.post(*group, *count);
    }
}

/// Adds the group of a step that is a post.
pub(crate) fn push_group(groups: &mut Vec<u8>, step: &Step) -> Result<(), AllocError>
    ensures { OnOk result (groups.new.items ≡ groups.old.items ++ groups_in step.now) }
{
    match step {
        Step::Event(_) | Step::Need(_, _) => Ok(()),
        Step::Post(group) => {
            groups.push(*group)?;
            Ok(())
        }
    }
}
