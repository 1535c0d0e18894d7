//! Which devices of the serial run wait for posts, and which of the others is the next to step.

ghost use Rattle.std.specs.Prelude.{◌≡◌, ℕ, [], false, length, IfOk, OnOk};
ghost use Rattle.std.specs.Option.{option_copied};
ghost use Rattle.fleet_core.specs.Run.{posts_of, is_enabled};
ghost use Rattle.fleet_core.specs.Roster.{IsListedFor, ListedBy, Takes, HasWoken, IsOnTurn, IsNextTurn, TurnAfter};

use crate::fleet::Fleet;
use crate::queue::Queue;
use crate::waiters::Waiters;
use scenario_image::{Scenario, Step};
use std::alloc::{AllocError, Global};

/// The devices of the serial run, but for the one whose turn it is: those that may be able to step, and those that wait
/// for posts. One that is at the end of its row is in neither.
#[derive(Drop)]
pub(crate) struct Roster {
    /// The devices from this one on, up to the end, have had no turn yet.
    fresh: u16,
    end: u16,
    /// Those that have the posts for which they waited.
    woken: Queue,
    /// Those that wait, by their groups.
    waiting: Vec<Waiters>,
}

fn no_waiters(alloc: Global) -> Result<Vec<Waiters>, AllocError>
    ensures { IfOk result (λ v. length v.items ≡ 256) }
{
    let mut waiting = Vec::with_capacity(alloc, 256)?;
    'groups: while waiting.len() < 256 {
        waiting.push(Waiters::new(alloc))?;
    }
    Ok(waiting)
}

/// Lets the device wait, if its next step is a need.
fn let_wait(waiting: &mut Vec<Waiters>, device: u16, step: Option<&Step>) -> Result<(), AllocError>
    requires groups { length waiting.old.items ≡ 256 }
    ensures groups { OnOk result (length waiting.new.items ≡ 256) }
    ensures kept { OnOk result ((g : ℕ) (d : ℕ) (n : ℕ) → IsListedFor waiting.old.items g d n
        → IsListedFor waiting.new.items g d n) }
    ensures listed { OnOk result (ListedBy waiting.new.items device (option_copied step.entry)) }
{
    match step {
        Some(Step::Need(group, count)) => {
            let waiters = &mut waiting[usize::from(*group)];
            waiters.add(device, *count)?;
            Ok(())
        }
        None | Some(Step::Event(_) | Step::Post(_)) => Ok(()),
    }
}

impl Roster {
    /// Before the first step: it is the turn of device 0.
    pub(crate) fn new(alloc: Global, scenario: &Scenario) -> Result<Roster, AllocError>
        ensures { IfOk result (λ r. IsOnTurn scenario.now [] r 0) }
    {
        let rows = scenario.rows();
        let waiting = no_waiters(alloc)?;
        Ok(Roster {
            fresh: 1,
            end: rows as u16,
            woken: Queue::new(alloc),
            waiting,
        })
    }

    /// Takes out the lowest device that may be able to step; none where there is none.
    fn take(&mut self) -> Option<u16>
        ensures { Takes self.old self.new result }
    {
        if self.fresh >= self.end {
            return self.woken.take_lowest();
        }
        if self.woken.has_below(self.fresh) {
            return self.woken.take_lowest();
        }
        let device = self.fresh;
        self.fresh += 1;
        Some(device)
    }

    /// Wakes the devices that wait for no more than these posts to the group, and returns the lowest that may be able
    /// to step, with the one whose turn it was.
    #[inline(never)]
    fn wake(&mut self, group: u8, posts: u32, low: u16) -> Result<u16, AllocError>
        requires groups { length self.old.waiting.items ≡ 256 }
        ensures { IfOk result (λ next. HasWoken self.old self.new group posts low next) }
    {
        let waiters = &mut self.waiting[usize::from(group)];
        waiters.wake(posts, &mut self.woken)?;
        self.woken.add(low)?;
        match self.take() {
            Some(next) => Ok(next),
            None => unreachable!(),
        }
    }
}

/// Whose turn it is after that of a device that cannot step: the lowest that can; none where no device can.
#[inline(always)]
pub(crate) fn next_turn(
    fleet: &Fleet,
    roster: &mut Roster,
    low: u16,
) -> Result<Option<u16>, AllocError>
    requires blocked { is_enabled fleet.now.scenario fleet.now.entries low ≡ false }
    requires turn { IsOnTurn fleet.now.scenario fleet.now.entries roster.old low }
    ensures { IfOk result (λ next. IsNextTurn fleet.now.scenario fleet.now.entries roster.new next) }
{
    let mut passed = low;
    'devices: loop {
        let_wait(&mut roster.waiting, passed, fleet.next_step(passed))?;
        let Some(next) = roster.take() else {
            return Ok(None);
        };
        if fleet.enabled(next) {
            return Ok(Some(next));
        }
        passed = next;
    }
}

/// Whose turn it is after this step of the device whose turn it was. A post wakes the devices that wait for no more
/// posts to its group than there are by now. After any other step, and where none does, the device goes on.
#[inline(always)]
pub(crate) fn turn_after(
    fleet: &Fleet,
    roster: &mut Roster,
    step: Option<&Step>,
    low: u16,
) -> Result<u16, AllocError>
    requires groups { length roster.old.waiting.items ≡ 256 }
    ensures { IfOk result (λ next. TurnAfter roster.old roster.new (option_copied step.entry)
        (λ g. posts_of fleet.now.scenario g fleet.now.entries) low next) }
{
    match step {
        Some(Step::Post(group)) => {
            let posts = fleet.posts(*group);
            let waiters = &roster.waiting[usize::from(*group)];
            if !waiters.has_met(posts) {
                return Ok(low);
            }
            let next = roster.wake(*group, posts, low)?;
            Ok(next)
        }
        None | Some(Step::Event(_) | Step::Need(_, _)) => Ok(low),
    }
}
