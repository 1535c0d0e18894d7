ghost use Rattle.std.specs.Prelude.{◌≡◌, ℕ, ◌<◌, ◌++◌, ◌∷◌, ◌↔◌, [], length, true, false, Err, IfOk, OnOk, OnErr};
ghost use Rattle.std.specs.Prelude.{IsSome, IsTrue, Some, is_some};
ghost use Rattle.std.specs.Option.{option_copied};
ghost use Rattle.fleet_core.specs.Run.{made_by, step_at, posts_of, is_enabled, entry_of, IsRun, CanGo};
ghost use Rattle.fleet_core.specs.Board.{with_entry};

use crate::fault::CommitFault;
use crate::held::{Held, held_of_rows, make_outputs};
use crate::next::{may_pass, next_of};
use crate::performing::{note_post, step_of};
use scenario_image::{Scenario, Step};
use std::alloc::{AllocError, Global};
use std::marker::Model;
use trace_file::{Entries, Entry};

/// The devices of a scenario, and the entries that they have made: a run. Contracts see the scenario, the entries, and
/// whether a lack of memory has spent the fleet.
pub struct Fleet<'a> {
    alloc: Global,
    scenario: &'a Scenario,
    devices: Vec<Held>,
    made: Vec<u32>,
    posts: Vec<u32>,
    entries: Entries,
    spent: bool,
}

/// By hand, so that a caller's proof has one step where it is dropped, and no case for each of its parts.
impl Drop for Fleet<'_> {
    fn drop(self) {
        let Fleet {
            alloc: _,
            scenario: _,
            devices: _devices,
            made: _made,
            posts: _posts,
            entries: _entries,
            spent: _,
        } = self;
    }
}

impl<'a> Model for Fleet<'a> {
    ghost use Rattle.std.specs.Coded.{codes};
    ghost use Rattle.instance_store.specs.Stored.{stored_code};
    ghost use Rattle.fleet_core.specs.Board.{FleetModel, IsFleet};

    ghost Value = { FleetModel };

    ghost coded = { Prim.hlevel (codes, stored_code) };

    ghost view = { λ f. record { scenario = f.scenario.now; entries = f.entries; spent = f.spent } };

    ghost invariant = { λ f. IsFleet f.scenario.now f.entries f.made.items f.posts.items f.devices.items f.spent };
}

impl<'a> Fleet<'a> {
    /// The fleet of a scenario, each device at the start of its row, with no entry.
    pub fn new(alloc: Global, scenario: &'a Scenario) -> Result<Fleet<'a>, AllocError>
        ensures { IfOk result (λ f. f ≡ record { scenario = scenario.now; entries = []; spent = false }) }
    {
        Fleet::with_room(alloc, scenario, 0)
    }

    /// The same, with room for this many entries before they are there.
    pub(crate) fn with_room(
        alloc: Global,
        scenario: &'a Scenario,
        room: usize,
    ) -> Result<Fleet<'a>, AllocError>
        ensures { IfOk result (λ f. f ≡ record { scenario = scenario.now; entries = []; spent = false }) }
    {
        let rows = scenario.rows();
        let devices = held_of_rows(alloc, scenario)?;
        let entries = Vec::with_capacity(alloc, room)?;
        Ok(Fleet {
            alloc,
            scenario,
            devices,
            made: vec![in alloc; 0u32; rows]?,
            posts: vec![in alloc; 0u32; 256]?,
            entries: Entries::from_vec(entries),
            spent: false,
        })
    }

    /// The step that the device makes next; none after the last one of its row.
    pub fn next_step(&self, device: u16) -> Option<&'a Step>
        ensures { option_copied result ≡ step_at self.now.scenario device (made_by device self.now.entries) }
    {
        let made = self.made.get(usize::from(device))?;
        step_of(self.scenario, device, *made)
    }

    /// How many of the entries are posts to the group.
    pub fn posts(&self, group: u8) -> u32
        ensures { result ≡ posts_of self.now.scenario group self.now.entries }
    {
        self.posts[usize::from(group)]
    }

    fn is_enabled(&self, device: u16) -> bool
        ensures { result ≡ is_enabled self.now.scenario self.now.entries device }
    {
        may_pass(next_of(self.next_step(device)), self.posts.as_slice())
    }

    /// Whether an entry of the device can be added: its row has a next step, and this is not a need of more posts than
    /// there were so far.
    pub fn enabled(&self, device: u16) -> bool
        ensures is { result ≡ is_enabled self.now.scenario self.now.entries device }
        ensures can { IsTrue result ↔ CanGo self.now.scenario self.now.entries device }
    {
        self.is_enabled(device)
    }

    /// The entries so far, in order: a run of the scenario.
    pub fn entries(&self) -> &[Entry]
        ensures entries { result.now ≡ self.now.entries }
        ensures run { IsRun self.now.scenario self.now.entries }
    {
        self.entries.as_slice()
    }

    /// The entries, with their memory.
    pub fn into_entries(self) -> Entries
        ensures { result ≡ self.entry.entries }
    {
        let Fleet {
            alloc: _,
            scenario: _,
            devices: _devices,
            made: _made,
            posts: _posts,
            entries,
            spent: _,
        } = self;
        entries
    }

    /// Lets the device make its next step, under the worker's number, and adds just that entry. `NotEnabled`, exactly
    /// if no entry of the device can be added; otherwise `Spent`, exactly if the fleet is spent; both change nothing.
    /// `Memory` leaves the fleet spent, with the entries as they were.
    pub fn commit(&mut self, worker: u16, device: u16) -> Result<(), CommitFault>
        ensures added { OnOk result (self.new.entries ≡ self.old.entries
            ++ entry_of self.old.scenario worker device self.old.entries ∷ []) }
        ensures scenario { self.new.scenario ≡ self.old.scenario }
        ensures enabled { OnOk result (is_enabled self.old.scenario self.old.entries device ≡ true) }
        ensures ready { OnOk result (self.new.spent ≡ false) }
        ensures not_enabled { result ≡ Err CommitFault.NotEnabled
            → is_enabled self.old.scenario self.old.entries device ≡ false }
        ensures spent { result ≡ Err CommitFault.Spent → IsTrue self.old.spent }
        ensures unchanged { OnErr result (self.new.entries ≡ self.old.entries) }
        ensures memory { result ≡ Err CommitFault.Memory → IsTrue self.new.spent }
        ensures not_enabled_same { result ≡ Err CommitFault.NotEnabled → self.new ≡ self.old }
        ensures spent_same { result ≡ Err CommitFault.Spent → self.new ≡ self.old }
        ensures refuses { is_enabled self.old.scenario self.old.entries device ≡ false
            → result ≡ Err CommitFault.NotEnabled }
        ensures stays_spent { is_enabled self.old.scenario self.old.entries device ≡ true → IsTrue self.old.spent
            → result ≡ Err CommitFault.Spent }
    {
        if self.spent {
            if self.is_enabled(device) {
                return Err(CommitFault::Spent);
            }
            return Err(CommitFault::NotEnabled);
        }
        match self.advance(worker, device)? {
            Some(_) => Ok(()),
            None => Err(CommitFault::NotEnabled),
        }
    }

    /// Lets the device make its next step, under the worker's number, adds just that entry, and returns the step. None,
    /// and nothing changes, if no entry of the device can be added. Without memory the fleet is spent, with the entries
    /// as they were. The serial run makes each step by it, so it is a part of that loop.
    #[inline(always)]
    pub(crate) fn advance(
        &mut self,
        worker: u16,
        device: u16,
    ) -> Result<Option<&'a Step>, AllocError>
        requires ready { self.old.spent ≡ false }
        ensures can { IfOk result (λ step. is_some step ≡ is_enabled self.old.scenario self.old.entries device) }
        ensures step { IfOk result (λ step. is_some step ≡ true
            → option_copied step ≡ step_at self.old.scenario device (made_by device self.old.entries)) }
        ensures added { IfOk result (λ step. is_some step ≡ true → self.new ≡ with_entry self.old worker device) }
        ensures unchanged { IfOk result (λ step. is_some step ≡ false → self.new ≡ self.old) }
        ensures scenario { self.new.scenario ≡ self.old.scenario }
        ensures entries { OnErr result (self.new.entries ≡ self.old.entries) }
        ensures memory { OnErr result (IsTrue self.new.spent) }
        ensures enabled { OnErr result (is_enabled self.old.scenario self.old.entries device ≡ true) }
    {
        if !self.is_enabled(device) {
            return Ok(None);
        }
        let Some(step) = self.next_step(device) else {
            unreachable!()
        };
        let at = usize::from(device);
        let place = self.made[at];
        let held = &mut self.devices[at];
        let next = place + 1;
        let following = step_of(self.scenario, device, next);
        self.spent = true;
        let outputs = make_outputs(
            self.alloc,
            self.scenario,
            held,
            device,
            place,
            step,
            following,
        )?;
        self.entries.push(Entry {
            worker,
            device,
            step: place,
            outputs,
        })?;
        self.made[at] = next;
        note_post(&mut self.posts, step);
        self.spent = false;
        Ok(Some(step))
    }
}
