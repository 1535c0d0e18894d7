//! A fleet: the devices of a scenario.
ghost use Rattle.std.specs.Prelude.{◌≡◌, ◌<◌, [], ℕ, Option, IfOk, None, false, true, length};
ghost use Rattle.fleet_link.specs.Traffic.{Traffic};
ghost use Rattle.fleet_link.specs.Recorded.{share_of};
ghost use Rattle.fleet_link.specs.Playing.{happened_of};
ghost use Rattle.fleet_link.specs.Serving.{AreRecorded, AreRepeated, HaveShare, IsFleet, IsRowServed};

use crate::recording::Recording;
use crate::row::PlayedRow;
use crate::slot::Slot;
use fleet_core::start_of_row;
use scenario_image::Scenario;
use std::alloc::{AllocError, Global};

/// How many bytes the recorded rows of a fleet take in an image at most, together.
const MOST_BYTES: usize = 64 << 20;

/// The devices of a scenario, each on a port, at a second of its own. Contracts see its parts.
#[derive(Drop)]
pub struct Fleet {
    pub(crate) slots: Vec<Slot>,
    /// What the clock showed at its first reading; none before that.
    pub(crate) began: Option<u64>,
    /// The second of the session.
    pub(crate) second: u64,
}

/// What is recorded of each of n rows: each has an equal part of the bytes, if they are saved, and none if they
/// are not.
fn recording_of(alloc: Global, rows: usize, saved: bool) -> Recording
    ensures steps { result.steps.items ≡ [] }
    ensures share { 0 < rows → result.share ≡ share_of rows saved }
    ensures left { result.left ≡ result.share }
    ensures complete { result.complete ≡ true }
{
    if !saved || rows == 0 {
        return Recording::new(alloc, 0);
    }
    Recording::new(alloc, MOST_BYTES / rows)
}

/// The device of a row, at second 0.
#[tactic(auto, using(crate::proofs::Started::slot_served))]
fn slot_of_row(
    alloc: Global,
    scenario: &Scenario,
    device: u16,
    played: bool,
    repeated: bool,
    saved: bool,
) -> Result<Slot, AllocError>
    requires { device < length scenario.now.rows }
    ensures served { IfOk result (λ slot. (told : Option Traffic)
        → IsRowServed scenario.now played device told slot false told) }
    ensures second { IfOk result (λ slot. slot.second ≡ 0) }
    ensures first { IfOk result (λ slot. happened_of slot.row ≡ []) }
    ensures repeated { IfOk result (λ slot. slot.row.repeated ≡ repeated) }
    ensures recorded { IfOk result (λ slot. slot.recording.complete ≡ true) }
    ensures share { IfOk result (λ slot. slot.recording.share ≡ share_of (length scenario.now.rows) saved) }
{
    let rows = scenario.rows();
    let row = PlayedRow::of_device(alloc, scenario, device, played, repeated)?;
    let device = start_of_row(scenario, device)?;
    Ok(Slot::new(device, row, recording_of(alloc, rows, saved)))
}

impl Fleet {
    /// The devices of a scenario, each at the start of its row's class, at second 0. Their rows are played, once or
    /// over and over, or are not; their steps are recorded if they are to be saved.
    fn start_rows(
        alloc: Global,
        scenario: &Scenario,
        played: bool,
        repeated: bool,
        saved: bool,
    ) -> Result<Fleet, AllocError>
        ensures fleet { (told : ℕ → Option Traffic)
            → IfOk result (λ fleet. IsFleet scenario.now played told fleet.slots.items fleet.second false told) }
        ensures second { IfOk result (λ fleet. fleet.second ≡ 0) }
        ensures recorded { IfOk result (λ fleet. AreRecorded fleet.slots.items) }
        ensures shares { IfOk result (λ fleet. HaveShare fleet.slots.items
            (share_of (length scenario.now.rows) saved)) }
        ensures repeated { IfOk result (λ fleet. AreRepeated fleet.slots.items repeated) }
        ensures began { IfOk result (λ fleet. fleet.began ≡ None) }
    {
        let rows = scenario.rows();
        let mut slots = Vec::with_capacity(alloc, rows)?;
        for device in 0..rows {
            slots.push(slot_of_row(alloc, scenario, device as u16, played, repeated, saved)?)?;
        }
        Ok(Fleet {
            slots,
            began: None,
            second: 0,
        })
    }

    /// The devices of a scenario, each at the start of its row's class, at second 0. Their rows are not played. Their
    /// steps are recorded if they are to be saved.
    pub fn start(alloc: Global, scenario: &Scenario, saved: bool) -> Result<Fleet, AllocError>
        ensures fleet { (told : ℕ → Option Traffic)
            → IfOk result (λ fleet. IsFleet scenario.now false told fleet.slots.items fleet.second false told) }
        ensures second { IfOk result (λ fleet. fleet.second ≡ 0) }
        ensures recorded { IfOk result (λ fleet. AreRecorded fleet.slots.items) }
        ensures shares { IfOk result (λ fleet. HaveShare fleet.slots.items
            (share_of (length scenario.now.rows) saved)) }
        ensures repeated { IfOk result (λ fleet. AreRepeated fleet.slots.items false) }
        ensures began { IfOk result (λ fleet. fleet.began ≡ None) }
    {
        Fleet::start_rows(alloc, scenario, false, false, saved)
    }

    /// The same, but their rows are played: what they say, but for their datagrams, happens as seconds pass.
    pub fn start_played(
        alloc: Global,
        scenario: &Scenario,
        saved: bool,
    ) -> Result<Fleet, AllocError>
        ensures fleet { (told : ℕ → Option Traffic)
            → IfOk result (λ fleet. IsFleet scenario.now true told fleet.slots.items fleet.second false told) }
        ensures second { IfOk result (λ fleet. fleet.second ≡ 0) }
        ensures recorded { IfOk result (λ fleet. AreRecorded fleet.slots.items) }
        ensures shares { IfOk result (λ fleet. HaveShare fleet.slots.items
            (share_of (length scenario.now.rows) saved)) }
        ensures repeated { IfOk result (λ fleet. AreRepeated fleet.slots.items false) }
        ensures began { IfOk result (λ fleet. fleet.began ≡ None) }
    {
        Fleet::start_rows(alloc, scenario, true, false, saved)
    }

    /// The same, but a row begins anew when all of it has happened: the second at which it ended is then its second 0.
    /// A row without a tick, whose passes would all be in one second, is played once.
    pub fn start_repeated(
        alloc: Global,
        scenario: &Scenario,
        saved: bool,
    ) -> Result<Fleet, AllocError>
        ensures fleet { (told : ℕ → Option Traffic)
            → IfOk result (λ fleet. IsFleet scenario.now true told fleet.slots.items fleet.second false told) }
        ensures second { IfOk result (λ fleet. fleet.second ≡ 0) }
        ensures recorded { IfOk result (λ fleet. AreRecorded fleet.slots.items) }
        ensures shares { IfOk result (λ fleet. HaveShare fleet.slots.items
            (share_of (length scenario.now.rows) saved)) }
        ensures repeated { IfOk result (λ fleet. AreRepeated fleet.slots.items true) }
        ensures began { IfOk result (λ fleet. fleet.began ≡ None) }
    {
        Fleet::start_rows(alloc, scenario, true, true, saved)
    }

    /// The devices, in the order of their rows.
    pub fn devices(&self) -> &[Slot]
        ensures { result.now ≡ self.now.slots.items }
    {
        self.slots.as_slice()
    }

    /// The second of the session.
    pub fn second(&self) -> u64
        ensures { result ≡ self.now.second }
    {
        self.second
    }
}
