//! A job: a device that a worker has, and the steps that it makes.

ghost use Rattle.std.specs.Prelude.{◌≡◌, ◌<◌, ◌≤◌, [], true, false, length, Some, Ok, Err, IfOk, OnOk, OnErr, IsTrue};
ghost use Rattle.std.specs.Prelude.{slice_index};
ghost use Rattle.std.specs.List.{AllByRecursion};
ghost use Rattle.fleet_core.specs.Run.{IsRun, is_enabled, step_at};
ghost use Rattle.ticket_lock.specs.Names.{pass_view, lowest_work};
ghost use Rattle.shared_trace.specs.Trace.{no_work};
ghost use Rattle.shared_trace.specs.Job.{Task, IsOf, StandsIn, IsSameJob, Advances, Steps, seen_by};
ghost use Rattle.shared_trace.specs.Kept.{IsJob, table_length};

use crate::tables::push_group;
use crate::trace::Trace;
use entry_pages::PAGE;
use fleet_core::{Held, Next, make_entry, may_pass, next_of, note_post, step_of};
use scenario_image::Scenario;
use std::alloc::{AllocError, Global};
use std::marker::Model;
use std::snapshot::Snapshot;
use ticket_lock::Pass;
use trace_file::Entry;

/// A device that is out with a worker, and the entries that it has made since. It has to be put into its trace again,
/// or given up. Contracts see the scenario, the worker, the device, the trace's entries at the claim, the job's own,
/// what is held of the device, and whether memory ran out.
pub struct Job {
    pub(crate) alloc: Global,
    pub(crate) claimed: Snapshot<Trace>,
    pub(crate) worker: u16,
    pub(crate) device: u16,
    pub(crate) place: u32,
    pub(crate) known: Vec<u32>,
    pub(crate) posted: Vec<u8>,
    pub(crate) entries: Vec<Entry>,
    pub(crate) held: Held,
    pub(crate) next: Next,
    pub(crate) spent: bool,
}

impl Model for Job {
    ghost use Rattle.std.specs.Coded.{codes};
    ghost use Rattle.instance_store.specs.Stored.{stored_code};
    ghost use Rattle.device_requests.specs.Client.{attributes_code};
    ghost use Rattle.shared_trace.specs.Job.{Task};
    ghost use Rattle.shared_trace.specs.Kept.{IsJob};

    ghost Value = { Task };

    ghost coded = { Prim.hlevel (codes, stored_code, attributes_code) };

    ghost view = { λ j. record {
      subject = j.claimed.value.subject;
      worker = j.worker;
      device = j.device;
      front = j.claimed.value.entries;
      entries = j.entries.items;
      held = j.held;
      spent = j.spent;
    } };

    ghost invariant = { λ j. IsJob j.claimed.value.subject j.worker j.device j.claimed.value.entries j.entries.items
        j.held j.spent j.known.items j.posted.items j.place j.next };
}

/// Why a job makes no more steps.
#[derive(Clone, Copy)]
pub enum AdvanceFault {
    /// No memory was left. The job can only be given up.
    Memory,
    /// Memory had run out before; nothing changed.
    Spent,
}

impl Job {
    /// The entries made since the claim, in order. After those at the claim they are a run.
    pub fn entries(&self) -> &[Entry]
        ensures entries { result.now ≡ self.now.entries }
        ensures run { IsRun self.now.subject (seen_by self.now) }
        ensures each { AllByRecursion (IsOf self.now.worker self.now.device) self.now.entries }
    {
        self.entries.as_slice()
    }

    /// The device.
    pub fn device(&self) -> u16
        ensures { result ≡ self.now.device }
    {
        self.device
    }

    /// Gives the job up. Its device stays out.
    pub fn abandon(self) {
        let Job {
            alloc: _,
            claimed: _,
            worker: _,
            device: _,
            place: _,
            known,
            posted,
            entries,
            held,
            next: _,
            spent: _,
        } = self;
        drop(known);
        drop(posted);
        drop(entries);
        drop(held);
    }

    /// Makes the device's next step, if it can step by the posts that the job knows. Without memory the job is spent.
    fn step(&mut self, scenario: &Scenario) -> Result<bool, AllocError>
        requires scenario { scenario.now ≡ self.old.subject }
        requires ready { self.old.spent ≡ false }
        ensures steps { IfOk result (λ made. Steps self.old self.new made) }
        ensures same { IsSameJob self.old self.new }
        ensures memory { OnErr result (IsTrue self.new.spent) }
        ensures began { is_enabled self.old.subject self.old.front self.old.device ≡ true }
    {
        if !may_pass(self.next, self.known.as_slice()) {
            return Ok(false);
        }
        let Some(step) = step_of(scenario, self.device, self.place) else {
            unreachable!()
        };
        self.spent = true;
        let entry = make_entry(
            self.alloc,
            scenario,
            &mut self.held,
            self.worker,
            self.device,
            self.place,
            step,
        )?;
        push_group(&mut self.posted, step)?;
        self.entries.push(entry)?;
        note_post(&mut self.known, step);
        self.place += 1;
        let next = step_of(scenario, self.device, self.place);
        self.next = next_of(next);
        self.spent = false;
        Ok(true)
    }

    /// Makes the room of a page for the job's entries, so that their list can become one. Without memory the job is
    /// spent.
    fn make_room(&mut self) -> Result<(), AllocError>
        requires ready { self.old.spent ≡ false }
        ensures room { OnOk result (self.new ≡ self.old) }
        ensures same { IsSameJob self.old self.new }
        ensures memory { OnErr result (IsTrue self.new.spent) }
    {
        self.spent = true;
        let room = PAGE.saturating_sub(self.entries.len());
        self.entries.reserve(room)?;
        self.spent = false;
        Ok(())
    }

    /// Lets the device make steps: at least one of a fresh job and at most this many, until its row ends or a need is
    /// not met by the posts that there were at the claim and the job's own. It borrows the pass, which has seen the
    /// claim and is outside the lock. `Memory` leaves the job spent; then it can only be given up.
    #[tactic(auto, using(crate::proofs::Stepping::steps_made))]
    pub fn advance(
        &mut self,
        pass: &Pass<Trace>,
        scenario: &Scenario,
        batch: u32,
    ) -> Result<(), AdvanceFault>
        requires stands { StandsIn (lowest_work (pass_view pass.now) no_work).out self.old }
        requires subject { (pass_view pass.now).subject ≡ Some self.old.subject }
        requires scenario { scenario.now ≡ self.old.subject }
        requires batch { 1 ≤ batch }
        ensures advances { OnOk result (Advances self.old self.new batch) }
        ensures fresh { self.old.entries ≡ [] → OnOk result (1 ≤ length self.new.entries) }
        ensures same { IsSameJob self.old self.new }
        ensures memory { result ≡ Err AdvanceFault.Memory → IsTrue self.new.spent }
        ensures spent { result ≡ Err AdvanceFault.Spent → (self.new ≡ self.old) × IsTrue self.old.spent }
        ensures refuses { IsTrue self.old.spent → result ≡ Err AdvanceFault.Spent }
    {
        if self.spent {
            return Err(AdvanceFault::Spent);
        }
        match self.make_room() {
            Ok(()) => {}
            Err(AllocError) => return Err(AdvanceFault::Memory),
        }
        for _made in 0..batch {
            match self.step(scenario) {
                Ok(true) => {}
                Ok(false) => return Ok(()),
                Err(AllocError) => return Err(AdvanceFault::Memory),
            }
        }
        Ok(())
    }
}
