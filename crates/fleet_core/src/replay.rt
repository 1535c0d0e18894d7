//! The steps of a run, made once more.

ghost use Rattle.std.specs.Prelude.{◌≡◌, ◌&&◌, [], false, Some, is_some, IsTrue, IfOk, OnErr};
ghost use Rattle.std.specs.Option.{option_copied};
ghost use Rattle.device_machine.specs.State.{Device};
ghost use Rattle.fleet_core.specs.Run.{made_by, step_at, is_enabled};
ghost use Rattle.fleet_core.specs.Board.{ShowsAfter, Replays};

use crate::held::{Held, held_of_rows, make_copied};
use crate::next::{may_pass, next_of};
use crate::past::Past;
use crate::performing::{note_post, step_of};
use crate::same::is_entry_of;
use device_machine::Device;
use scenario_image::{Scenario, Step};
use std::alloc::{AllocError, Global};
use std::marker::Model;
use trace_file::Entry;

/// The devices of a scenario, which make the steps of a run once more, entry by entry. No entry is kept. Contracts see
/// the scenario, the entries that were taken, and whether it is spent.
pub struct Replay<'a> {
    alloc: Global,
    scenario: &'a Scenario,
    devices: Vec<Held>,
    made: Vec<u32>,
    posts: Vec<u32>,
    past: Past,
    spent: bool,
}

/// By hand, so that a caller's proof has one step where it is dropped, and no case for each of its parts.
impl Drop for Replay<'_> {
    fn drop(self) {
        let Replay {
            alloc: _,
            scenario: _,
            devices: _devices,
            made: _made,
            posts: _posts,
            past: _past,
            spent: _,
        } = self;
    }
}

impl<'a> Model for Replay<'a> {
    ghost use Rattle.std.specs.Coded.{codes};
    ghost use Rattle.instance_store.specs.Stored.{stored_code};
    ghost use Rattle.fleet_core.specs.Board.{FleetModel, IsFleet};
    ghost use Rattle.fleet_core.specs.Past.{past_entries};

    ghost Value = { FleetModel };

    ghost coded = { Prim.hlevel (codes, stored_code) };

    ghost view = { λ r. record { scenario = r.scenario.now; entries = past_entries r.past; spent = r.spent } };

    ghost invariant = { λ r. IsFleet r.scenario.now (past_entries r.past) r.made.items r.posts.items r.devices.items
        r.spent };
}

impl<'a> Replay<'a> {
    /// The devices of a scenario, each at the start of its row, before the first entry.
    pub fn new(alloc: Global, scenario: &'a Scenario) -> Result<Replay<'a>, AllocError>
        ensures { IfOk result (λ r. r ≡ record { scenario = scenario.now; entries = []; spent = false }) }
    {
        let rows = scenario.rows();
        let devices = held_of_rows(alloc, scenario)?;
        Ok(Replay {
            alloc,
            scenario,
            devices,
            made: vec![in alloc; 0u32; rows]?,
            posts: vec![in alloc; 0u32; 256]?,
            past: Past::Nothing,
            spent: false,
        })
    }

    fn next_step(&self, device: u16) -> Option<&'a Step>
        ensures { option_copied result ≡ step_at self.now.scenario device (made_by device self.now.entries) }
    {
        let made = self.made.get(usize::from(device))?;
        step_of(self.scenario, device, *made)
    }

    fn is_enabled(&self, device: u16) -> bool
        ensures { result ≡ is_enabled self.now.scenario self.now.entries device }
    {
        may_pass(next_of(self.next_step(device)), self.posts.as_slice())
    }

    /// Takes an entry as `take` does. Returns whether it comes next, and if it does and one is wanted, a copy of its
    /// device after it. The checker takes each entry by it, so it is a part of that loop.
    #[inline(always)]
    fn advance(&mut self, entry: &Entry, wanted: bool) -> Result<(bool, Option<Device>), AllocError>
        requires { self.old.spent ≡ false }
        ensures replays { IfOk result (λ took. Replays self.old self.new entry.now took.0) }
        ensures there { IfOk result (λ took. is_some took.1 ≡ (wanted && took.0)) }
        ensures shows { IfOk result (λ took. (x : Device) → took.1 ≡ Some x
            → ShowsAfter self.new.scenario entry.now.device (made_by entry.now.device self.new.entries) x) }
        ensures scenario { self.new.scenario ≡ self.old.scenario }
        ensures refused { IfOk result (λ took. took.0 ≡ false → self.new.entries ≡ self.old.entries) }
        ensures entries { OnErr result (self.new.entries ≡ self.old.entries) }
        ensures memory { OnErr result (IsTrue self.new.spent) }
    {
        let device = entry.device;
        if !self.is_enabled(device) {
            return Ok((false, None));
        }
        let Some(step) = self.next_step(device) else {
            unreachable!()
        };
        let at = usize::from(device);
        let place = self.made[at];
        let held = &mut self.devices[at];
        let next = place + 1;
        let following = step_of(self.scenario, device, next);
        self.spent = true;
        let (outputs, copy) = make_copied(
            self.alloc,
            self.scenario,
            held,
            device,
            place,
            step,
            following,
            wanted,
        )?;
        if !is_entry_of(entry, place, outputs.as_slice()) {
            return Ok((false, None));
        }
        self.made[at] = next;
        note_post(&mut self.posts, step);
        self.past = self.past.with(entry);
        self.spent = false;
        Ok((true, copy))
    }

    /// Takes an entry: its device makes its next step, if it can, and what it outputs is compared with the entry, and
    /// then let go of. Returns whether the entry comes next; one that does not is not taken, and may leave the replay
    /// spent. Without memory the replay is spent, with the entries as they were.
    #[inline(always)]
    pub fn take(&mut self, entry: &Entry) -> Result<bool, AllocError>
        requires { self.old.spent ≡ false }
        ensures replays { IfOk result (λ fits. Replays self.old self.new entry.now fits) }
        ensures scenario { self.new.scenario ≡ self.old.scenario }
        ensures refused { IfOk result (λ fits. fits ≡ false → self.new.entries ≡ self.old.entries) }
        ensures entries { OnErr result (self.new.entries ≡ self.old.entries) }
        ensures memory { OnErr result (IsTrue self.new.spent) }
    {
        let (fits, _copy) = self.advance(entry, false)?;
        Ok(fits)
    }

    /// Takes an entry as `take` does, and returns a copy of its device after it; none if the entry does not come next.
    pub fn take_copied(&mut self, entry: &Entry) -> Result<Option<Device>, AllocError>
        requires { self.old.spent ≡ false }
        ensures replays { IfOk result (λ copy. Replays self.old self.new entry.now (is_some copy)) }
        ensures copied { IfOk result (λ copy. (x : Device) → copy ≡ Some x
            → ShowsAfter self.new.scenario entry.now.device (made_by entry.now.device self.new.entries) x) }
        ensures scenario { self.new.scenario ≡ self.old.scenario }
        ensures refused { IfOk result (λ copy. is_some copy ≡ false → self.new.entries ≡ self.old.entries) }
        ensures entries { OnErr result (self.new.entries ≡ self.old.entries) }
        ensures memory { OnErr result (IsTrue self.new.spent) }
    {
        let (_fits, copy) = self.advance(entry, true)?;
        Ok(copy)
    }
}
