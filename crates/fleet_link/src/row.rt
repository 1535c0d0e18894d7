//! The row of a device, which happens as seconds pass.
ghost use Rattle.std.specs.Prelude.{◌≡◌, ◌+◌, ◌-◌, ◌<◌, ◌≤◌, ◌∷◌, ◌++◌, [], ℕ, List, Option, Some, None, filter, length};
ghost use Rattle.std.specs.Prelude.{◌^◌, ◌⊎◌, slice_get, take, min, if◌then◌else◌, IfOk, IfSome, MatchOption, OnOk};
ghost use Rattle.std.specs.List.{list_any};
ghost use Rattle.device_template.specs.Template.{Template};
ghost use Rattle.scenario_image.specs.declared.step.Step.{Step};
ghost use Rattle.scenario_image.specs.Play.{IsRowOf};
ghost use Rattle.device_machine.specs.declared.event.Event.TheVariants as events;
ghost use Rattle.fleet_core.specs.Run.{posts_to};
ghost use Rattle.scenario_image.specs.declared.step.Step.TheVariants.{Event as event_step};
ghost use Rattle.fleet_link.specs.declared.row.RowState.TheVariants as states;
ghost use Rattle.fleet_link.specs.Playing.{change_at, change_in, changes_of, ends_pass, happened_of, is_own, takes_time};
ghost use Rattle.fleet_link.specs.Playing.{played_steps, posts_among, posts_made, row_state, second_after, second_of_row};
ghost use Rattle.fleet_link.specs.Playing.{IsAdvanced, IsLaterThan, IsOnTime, IsPassed};

use crate::seen::SeenSteps;
use device_machine::Event;
use scenario_image::{Scenario, Step};
use std::alloc::{AllocError, Global};

/// For how many seconds a need holds a row up at most; it is not passed after that.
const LONGEST_WAIT: u64 = 4_294_967_295;

/// How the row of a device goes on.
#[derive(Clone, Copy)]
pub enum RowState {
    /// Its next step is due at this second of the session.
    Due(u64),
    /// It waits for so many posts to a group.
    Waits(u8, u32),
    /// It has no further step, or none in 2^64 seconds.
    Ended,
}

/// The steps of a device's row, which happen as seconds pass.
#[derive(Drop)]
pub struct PlayedRow {
    /// The steps but for datagrams; none where rows are not played.
    steps: Vec<Step>,
    /// Whether they are to begin anew when all of them have happened.
    repeated: bool,
    /// How often all of them have happened.
    passes: u64,
    /// How many of them have happened since.
    place: usize,
    /// The second of the session at which the next one is due; none where that is past 2^64 - 1.
    second: Option<u64>,
    /// What has happened, pass after pass. A need that was passed is the seconds for which it held the row up.
    happened: SeenSteps,
}

/// Adds a step.
fn push(own: &mut Vec<Step>, step: Step) -> Result<(), AllocError>
    ensures { OnOk result (own.new.items ≡ own.old.items ++ step ∷ []) }
{
    own.push(step)?;
    Ok(())
}

/// Adds a copy of a step, unless it is a datagram.
fn push_own(own: &mut Vec<Step>, step: &Step) -> Result<(), AllocError>
    ensures { OnOk result (own.new.items ≡ own.old.items ++ filter is_own (step.now ∷ [])) }
{
    match step {
        Step::Event(Event::Recv { .. }) => Ok(()),
        Step::Event(Event::Put { path, value }) => {
            let value = value.copy()?;
            push(own, Step::Event(Event::Put { path: *path, value }))
        }
        Step::Event(Event::Firmware(code)) => push(own, Step::Event(Event::Firmware(*code))),
        Step::Event(Event::Tick(seconds)) => push(own, Step::Event(Event::Tick(*seconds))),
        Step::Post(group) => push(own, Step::Post(*group)),
        Step::Need(group, count) => push(own, Step::Need(*group, *count)),
    }
}

/// Copies of the steps that are no datagrams.
pub fn own_steps(alloc: Global, steps: &[Step]) -> Result<Vec<Step>, AllocError>
    ensures { IfOk result (λ own. own.items ≡ filter is_own steps.now) }
{
    let mut own = Vec::new(alloc);
    for step in steps {
        push_own(&mut own, step)?;
    }
    Ok(own)
}

/// So many seconds later, if that has 64 bits.
fn later(second: Option<u64>, seconds: u32) -> Option<u64>
    ensures some { (n : ℕ) → second ≡ Some n → MatchOption result (2 ^ 64 ≤ n + seconds) (λ due. due ≡ n + seconds) }
    ensures none { second ≡ None → result ≡ None }
{
    let second = second?;
    second.checked_add(u64::from(seconds))
}

/// The first of these steps.
fn first_of(steps: &[Step], count: usize) -> &[Step]
    ensures { result.now ≡ take count steps.now }
{
    if count >= steps.len() {
        return steps;
    }
    &steps[..count]
}

/// How many seconds pass in a step.
fn seconds_of(step: &Step) -> u32
    ensures { (second : ℕ) → second_after second step.now ≡ second + result }
{
    match step {
        Step::Event(Event::Tick(seconds)) => *seconds,
        Step::Event(Event::Recv { .. } | Event::Put { .. } | Event::Firmware(_))
        | Step::Post(_)
        | Step::Need(_, _) => 0,
    }
}

/// Whether a second passes in the step, or more.
fn takes_time(step: &Step) -> bool
    ensures { result ≡ takes_time step.now }
{
    match step {
        Step::Event(Event::Tick(seconds)) => *seconds >= 1,
        Step::Event(Event::Recv { .. } | Event::Put { .. } | Event::Firmware(_))
        | Step::Post(_)
        | Step::Need(_, _) => false,
    }
}

/// Whether seconds pass in one of the steps.
fn has_tick(steps: &[Step]) -> bool
    ensures { result ≡ list_any takes_time steps.now }
{
    steps.iter().any(|step| takes_time(step))
}

/// Whether the step is a post to this group.
fn is_post(step: &Step, group: u8) -> bool
    ensures { result ≡ posts_to group step.now }
{
    match step {
        Step::Post(other) => *other == group,
        Step::Event(_) | Step::Need(_, _) => false,
    }
}

/// How many posts to this group there are among steps.
fn count_posts(steps: &[Step], group: u8) -> u64
    ensures { result ≡ posts_among group steps.now }
{
    steps.iter().filter(|step| is_post(step, group)).count() as u64
}

impl PlayedRow {
    /// These steps, before the first of them; they are to be repeated, or are not.
    pub(crate) fn new(steps: Vec<Step>, repeated: bool) -> PlayedRow
        ensures steps { result.steps ≡ steps }
        ensures repeated { result.repeated ≡ repeated }
        ensures passes { result.passes ≡ 0 }
        ensures place { result.place ≡ 0 }
        ensures second { result.second ≡ Some 0 }
        ensures happened { happened_of result ≡ [] }
    {
        PlayedRow {
            steps,
            repeated,
            passes: 0,
            place: 0,
            second: Some(0),
            happened: SeenSteps::Begun,
        }
    }

    /// The row of a device, before its first step.
    pub(crate) fn of_device(
        alloc: Global,
        scenario: &Scenario,
        device: u16,
        played: bool,
        repeated: bool,
    ) -> Result<PlayedRow, AllocError>
        ensures steps { (class : Template) (steps : List Step) → IsRowOf scenario.now device class steps
            → IfOk result (λ row. row.steps.items ≡ played_steps played steps) }
        ensures repeated { IfOk result (λ row. row.repeated ≡ repeated) }
        ensures passes { IfOk result (λ row. row.passes ≡ 0) }
        ensures place { IfOk result (λ row. row.place ≡ 0) }
        ensures second { IfOk result (λ row. row.second ≡ Some 0) }
        ensures happened { IfOk result (λ row. happened_of row ≡ []) }
    {
        if !played {
            return Ok(PlayedRow::new(Vec::new(alloc), repeated));
        }
        match scenario.row(device) {
            None => Ok(PlayedRow::new(Vec::new(alloc), repeated)),
            Some((_, steps)) => Ok(PlayedRow::new(own_steps(alloc, steps)?, repeated)),
        }
    }

    /// How it goes on.
    pub fn state(&self) -> RowState
        ensures { result ≡ row_state self.now }
    {
        let Some(second) = self.second else {
            return RowState::Ended;
        };
        match self.steps.get(self.place) {
            None => RowState::Ended,
            Some(Step::Event(_) | Step::Post(_)) => RowState::Due(second),
            Some(Step::Need(group, count)) => RowState::Waits(*group, *count),
        }
    }

    /// The second at which its next step is due, if that is this one or an earlier one.
    pub(crate) fn due_by(&self, now: u64) -> Option<u64>
        ensures due { IfSome result (λ due. row_state self.now ≡ states.Due due) }
        ensures by { IfSome result (λ due. due ≤ now) }
        ensures within { IfSome result (λ due. self.now.place < length self.now.steps.items) }
        ensures later { result ≡ None → IsLaterThan now (row_state self.now) }
    {
        match self.state() {
            RowState::Waits(_, _) | RowState::Ended => None,
            RowState::Due(due) => {
                if now < due {
                    return None;
                }
                Some(due)
            }
        }
    }

    /// The change that its next step is; none where it is none.
    pub(crate) fn next_change(&self) -> Result<Option<Event>, AllocError>
        requires { self.now.place < length self.now.steps.items }
        ensures { (step : Step) → slice_get self.now.steps.items self.now.place ≡ Some step
            → IfOk result (λ change. change ≡ change_in step) }
    {
        match &self.steps[self.place] {
            Step::Event(Event::Put { path, value }) => {
                let value = value.copy()?;
                Ok(Some(Event::Put { path: *path, value }))
            }
            Step::Event(Event::Firmware(code)) => Ok(Some(Event::Firmware(*code))),
            Step::Event(Event::Recv { .. } | Event::Tick(_)) | Step::Post(_) | Step::Need(_, _) => {
                Ok(None)
            }
        }
    }

    /// How many seconds pass in its next step.
    fn next_seconds(&self) -> u32
        requires { self.now.place < length self.now.steps.items }
        ensures { (step : Step) (second : ℕ) → slice_get self.now.steps.items self.now.place ≡ Some step
            → second_after second step ≡ second + result }
    {
        seconds_of(&self.steps[self.place])
    }

    /// Whether its next step is the last of a pass, after which its steps begin anew.
    fn ends_pass(&self) -> bool
        requires { self.now.place < length self.now.steps.items }
        ensures { result ≡ ends_pass self.now }
    {
        if self.place + 1 < self.steps.len() {
            return false;
        }
        self.repeated && has_tick(self.steps.as_slice())
    }

    /// Goes to the step after its next one.
    fn go_on(&mut self)
        requires { self.old.place < length self.old.steps.items }
        ensures steps { self.new.steps ≡ self.old.steps }
        ensures repeated { self.new.repeated ≡ self.old.repeated }
        ensures place { self.new.place ≡ (if ends_pass self.old then 0 else self.old.place + 1) }
        ensures passes { self.new.passes
            ≡ (if ends_pass self.old then min (self.old.passes + 1) (2 ^ 64 - 1) else self.old.passes) }
        ensures second { self.new.second ≡ self.old.second }
        ensures happened { self.new.happened ≡ self.old.happened }
    {
        if !self.ends_pass() {
            self.place += 1;
            return;
        }
        self.place = 0;
        self.passes = self.passes.saturating_add(1);
    }

    /// Notes that its next step has happened.
    pub(crate) fn advance(&mut self)
        requires { self.old.place < length self.old.steps.items }
        ensures { (step : Step) → slice_get self.old.steps.items self.old.place ≡ Some step
            → IsAdvanced step self.old self.new }
    {
        let place = self.place;
        let seconds = self.next_seconds();
        self.go_on();
        self.second = later(self.second, seconds);
        self.happened = self.happened.with(&self.steps[place]);
    }

    /// How many posts to this group it has made: in its whole passes, and in the one that is under way.
    pub(crate) fn posts(&self, group: u8) -> u64
        ensures { result ≡ min (posts_made self.now group) (2 ^ 64 - 1) }
    {
        let steps = self.steps.as_slice();
        let all = count_posts(steps, group);
        let first = count_posts(first_of(steps, self.place), group);
        self.passes.saturating_mul(all).saturating_add(first)
    }

    /// Passes the need that is its next step, at this second, if it is one to this group, and so many posts to it
    /// stand. It is not passed where it has held the row up for 2^32 seconds.
    pub(crate) fn pass_need(&mut self, group: u8, posts: u64, now: u64)
        ensures passed { (self.new ≡ self.old) ⊎ IsPassed group posts now self.old self.new }
        ensures left { (count second : ℕ) → self.new ≡ self.old → row_state self.old ≡ states.Waits group count
            → self.old.second ≡ Some second → second ≤ now → now < second + 2 ^ 32 → posts < count }
    {
        let RowState::Waits(other, count) = self.state() else {
            return;
        };
        let Some(second) = self.second else {
            return;
        };
        if other != group {
            return;
        }
        if posts < u64::from(count) {
            return;
        }
        if now < second {
            return;
        }
        if now - second > LONGEST_WAIT {
            return;
        }
        self.pass(second, now);
    }

    /// Notes that its next step has held it up from one second to another.
    fn pass(&mut self, second: u64, now: u64)
        requires within { self.old.place < length self.old.steps.items }
        requires second { self.old.second ≡ Some second }
        requires order { second ≤ now }
        requires few { now < second + 2 ^ 32 }
        ensures advanced { IsAdvanced (event_step (events.Tick (now - second))) self.old self.new }
        ensures second { self.new.second ≡ Some now }
    {
        let held = Step::Event(Event::Tick((now - second) as u32));
        self.go_on();
        self.second = Some(now);
        self.happened = self.happened.with(&held);
    }
}
