//! A trace.

ghost use Rattle.std.specs.Prelude.{◌≡◌, ℕ, ◌<◌, ◌≤◌, [], true, false, length, Some, slice_get, IfOk, IfSome, IfNone};
ghost use Rattle.std.specs.Prelude.{IfErr, OnOk, OnErr};
ghost use Rattle.fleet_core.specs.Run.{IsRun, made_by, is_enabled};
ghost use Rattle.fleet_core.specs.Waiting.{is_waiting};
ghost use Rattle.ticket_lock.specs.Log.{Adds};
ghost use Rattle.device_stations.specs.declared.station.Place.TheVariants.{Parked, Out};
ghost use Rattle.shared_trace.specs.Trace.{TraceModel, IsShared, IsReady, with_out, with_block, stopped_under};
ghost use Rattle.shared_trace.specs.Trace.{is_stopped, open_by, trace_log};
ghost use Rattle.shared_trace.specs.Job.{Task, MayPut, StandsIn};
ghost use Rattle.shared_trace.specs.Claims.{IsTaken, IsAnyOut, IsAnyLeft, AreAllAtEnd, Claims, ClaimStands};
ghost use Rattle.shared_trace.specs.Kept.{IsTrace, IsStation, table_length};
ghost use Rattle.device_stations.specs.Stations.{is_parked};
ghost use Rattle.device_stations.specs.declared.station.Place.{Place};

use crate::claims::Claim;
use crate::job::Job;
use crate::roster::Roster;
use crate::start::start_stations;
use crate::stops::Stops;
use crate::tables::{add_posts, table_length};
use crate::work::OpenWork;
use device_stations::{Place, Station, any_out, count_ended, first_left};
use entry_pages::{EntryIter, Pages};
use scenario_image::Scenario;
use std::alloc::{AllocError, Global};
use std::marker::Model;
use std::snapshot::Snapshot;
use ticket_lock::Logged;
use trace_file::{Entries, Entry};

/// A run of a scenario that workers make together. Contracts see its scenario, its entries, where each device is, and
/// which workers have stopped it.
#[derive(Drop)]
pub struct Trace {
    alloc: Global,
    subject: Snapshot<Scenario>,
    entries: Pages,
    stations: Vec<Station>,
    posts: Vec<u32>,
    /// Each device before this one is at the end of its row.
    low: usize,
    /// Finds the lowest device that is ready.
    roster: Roster,
    /// The device that was handed out last.
    last: usize,
    stops: Stops,
}

impl Model for Trace {
    ghost use Rattle.std.specs.Coded.{codes};
    ghost use Rattle.instance_store.specs.Stored.{stored_code};
    ghost use Rattle.device_requests.specs.Client.{attributes_code};
    ghost use Rattle.shared_trace.specs.Trace.{TraceModel};
    ghost use Rattle.shared_trace.specs.Stops.{numbers_in};
    ghost use Rattle.shared_trace.specs.Kept.{IsTrace, IsRosterOf, places_of};
    ghost use Rattle.device_stations.specs.Stations.{AreEnded};

    ghost Value = { TraceModel };

    ghost coded = { Prim.hlevel (codes, stored_code, attributes_code) };

    ghost view = { λ t. record {
      subject = t.subject.value;
      entries = t.entries.held;
      places = places_of t.stations.items;
      stopped_by = numbers_in t.stops;
    } };

    ghost invariant = { λ t. IsTrace t.subject.value t.entries.held t.stations.items t.posts.items
        × AreEnded t.stations.items t.low × IsRosterOf t.posts.items t.stations.items t.roster };
}

impl Logged for Trace {
    ghost use Rattle.shared_trace.specs.Trace.{trace_log};

    type Entry = Entry;

    type Subject = Scenario;

    type Work = OpenWork;

    ghost log = { trace_log };
}

impl Trace {
    /// The trace of a scenario: no entries, and each device parked at the start of its row. A device is started by the
    /// job that makes its first step.
    pub fn new(alloc: Global, scenario: &Scenario) -> Result<Trace, AllocError>
        ensures subject { IfOk result (λ t. t.subject ≡ scenario.now) }
        ensures entries { IfOk result (λ t. t.entries ≡ []) }
        ensures going { IfOk result (λ t. t.stopped_by ≡ []) }
        ensures parked { IfOk result (λ t. (d : ℕ) (p : Place) → slice_get t.places d ≡ Some p → is_parked p ≡ true) }
        ensures shared { IfOk result (λ t. IsShared t) }
    {
        let places = table_length(scenario);
        let stations = start_stations(alloc, scenario, places)?;
        let posts = vec![in alloc; 0u32; places]?;
        let entries = Pages::new(alloc)?;
        let roster = Roster::new(alloc, stations.as_slice(), places)?;
        Ok(Trace {
            alloc,
            subject: Snapshot::of(scenario),
            entries,
            stations,
            posts,
            low: 0,
            roster,
            last: 0,
            stops: Stops::Never,
        })
    }

    /// Whether the device's row is not at its end. Nothing changes.
    pub fn unfinished(&self, device: u16) -> bool
        ensures { result ≡ is_waiting self.now.subject self.now.entries device }
    {
        match self.stations.get(usize::from(device)) {
            None => false,
            Some(station) => !station.is_at_end(),
        }
    }

    /// The entries so far, in order, each once: a run of the scenario. A parked device shows the state after its steps,
    /// before the first and after the last too, and one that is out has a step left (`shared`).
    pub fn entries(&self) -> EntryIter<'_>
        ensures entries { result ≡ self.now.entries }
        ensures shared { IsShared self.now }
    {
        self.entries.iter()
    }

    /// The entries, in one list. Without memory for it the trace comes back.
    pub fn into_entries(self) -> Result<Entries, (Trace, AllocError)>
        ensures ok { IfOk result (λ r. r ≡ self.entries) }
        ensures back { IfErr result (λ e. e.0 ≡ self) }
    {
        let Trace {
            alloc,
            subject,
            entries,
            stations,
            posts,
            low,
            roster,
            last,
            stops,
        } = self;
        match entries.into_vec() {
            Ok(entries) => Ok(Entries::from_vec(entries)),
            Err((entries, fault)) => {
                let trace = Trace {
                    alloc,
                    subject,
                    entries,
                    stations,
                    posts,
                    low,
                    roster,
                    last,
                    stops,
                };
                Err((trace, fault))
            }
        }
    }

    /// Stops the trace under the worker's number: each later claim answers so. Nothing else changes, and another
    /// number's open work stays.
    pub fn stop(&mut self, worker: u16)
        ensures stopped { self.new ≡ stopped_under self.old worker }
        ensures adds { Adds trace_log worker self.old self.new }
        ensures shared { IsShared self.new }
    {
        self.stops = Stops::By(Snapshot::of(&self.stops), worker);
    }

    fn is_stopped(&self) -> bool
        ensures is { result ≡ is_stopped self.now }
        ensures shared { IsShared self.now }
    {
        match self.stops {
            Stops::Never => false,
            Stops::By(_, _) => true,
        }
    }

    /// The lowest device that is ready. `low` moves on to the lowest device that is not at the end of its row, past all
    /// devices where there is none.
    fn lowest(&mut self) -> Option<u16>
        ensures same { self.new ≡ self.old }
        ensures ready { IfSome result (λ d. IsReady self.new d × ((i : ℕ) → IsReady self.new i → d ≤ i)) }
        ensures none { IfNone result ((i : ℕ) → IsReady self.new i → ⊥) }
    {
        self.low = count_ended(self.stations.as_slice(), self.low);
        match self
            .roster
            .candidates
            .lowest_ready(self.stations.as_slice(), self.posts.as_slice())
        {
            Some(device) => Some(device as u16),
            None => None,
        }
    }

    /// What is answered where no device is ready.
    fn idle(&self) -> Claim
        requires going { is_stopped self.now ≡ false }
        requires none { (d : ℕ) → IsReady self.now d → ⊥ }
        ensures claims { (worker : ℕ) → Claims self.now self.now worker result }
        ensures stands { (worker : ℕ) → ClaimStands self.now worker result }
    {
        match any_out(self.stations.as_slice(), self.last) {
            Some(_) => return Claim::Busy,
            None => {}
        }
        match first_left(self.stations.as_slice(), self.low) {
            Some(_) => Claim::Stalled,
            None => Claim::Done,
        }
    }

    /// An empty list for the entries of a job.
    fn list_for_job(&mut self) -> Vec<Entry>
        ensures same { self.new ≡ self.old }
        ensures empty { result.items ≡ [] }
    {
        self.entries.list_for_job()
    }

    /// Hands out a device that is ready. The list is for the entries of its job.
    fn hand_out(&mut self, worker: u16, device: u16, list: Vec<Entry>) -> Job
        requires ready { IsReady self.old device }
        requires empty { list.items ≡ [] }
        ensures taken { IsTaken self.old self.new worker result }
        ensures device { result.device ≡ device }
        ensures shared { IsShared self.new }
        ensures adds { Adds trace_log worker self.old self.new }
        ensures stands { StandsIn (open_by self.new worker) result }
    {
        let claimed = Snapshot::of(&*self);
        let alloc = self.alloc;
        let station = &mut self.stations[usize::from(device)];
        let (place, next) = (station.made, station.next);
        let (held, mut known) = station.hand_out(alloc, worker);
        known.copy_from_slice(self.posts.as_slice());
        self.roster.candidates.take(device);
        self.last = usize::from(device);
        Job {
            alloc,
            claimed,
            worker,
            device,
            place,
            known,
            posted: Vec::new(alloc),
            entries: list,
            held,
            next,
            spent: false,
        }
    }

    /// The lowest device that is parked and can step, as a job of the worker, or why there is none: `Done` and
    /// `Stalled` come only of a complete run, `Done` exactly if each row is at its end; `Busy` where a device is out
    /// that has a step left; `Stopped` before all else. It takes no memory, and leaves the entries and the open work of
    /// every other worker.
    pub fn claim(&mut self, worker: u16) -> Claim
        ensures claims { Claims self.old self.new worker result }
        ensures stands { ClaimStands self.new worker result }
        ensures adds { Adds trace_log worker self.old self.new }
        ensures shared { IsShared self.new }
    {
        if self.is_stopped() {
            return Claim::Stopped;
        }
        match self.lowest() {
            Some(device) => {
                let list = self.list_for_job();
                Claim::Got(self.hand_out(worker, device, list))
            }
            None => self.idle(),
        }
    }

    /// Appends exactly the job's entries, and parks its device. Without memory the job comes back, and nothing changed.
    pub fn put(&mut self, worker: u16, job: Job) -> Result<(), (Job, AllocError)>
        requires { MayPut self.old worker job }
        ensures put { OnOk result (self.new ≡ with_block self.old job.device job.held job.entries) }
        ensures adds { OnOk result (Adds trace_log worker self.old self.new) }
        ensures back { IfErr result (λ e. e.0 ≡ job) }
        ensures unchanged { OnErr result (self.new ≡ self.old) }
        ensures shared { IsShared self.new }
    {
        match self.roster.make_room(job.next) {
            Ok(()) => {}
            Err(fault) => return Err((job, fault)),
        }
        let Job {
            alloc,
            claimed,
            worker: by,
            device,
            place,
            known,
            posted,
            entries,
            held,
            next,
            spent,
        } = job;
        match self.entries.append(entries) {
            Ok(()) => {}
            Err((entries, fault)) => {
                let job = Job {
                    alloc,
                    claimed,
                    worker: by,
                    device,
                    place,
                    known,
                    posted,
                    entries,
                    held,
                    next,
                    spent,
                };
                return Err((job, fault));
            }
        }
        self.stations[usize::from(device)] = Station {
            place: Place::Parked(held),
            made: place,
            next,
            known,
        };
        self.roster.add(device, next, self.posts.as_slice());
        add_posts(&mut self.posts, &mut self.roster, posted.as_slice());
        Ok(())
    }
}
