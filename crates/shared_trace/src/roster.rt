//! Which devices may be ready, and which wait for posts.

ghost use Rattle.std.specs.Prelude.{◌≡◌, ℕ, ◌<◌, ◌≤◌, replicate, length, Some, slice_get, slice_index, IfOk, OnOk};
ghost use Rattle.device_stations.specs.declared.station.Station.{Station};
ghost use Rattle.shared_trace.specs.Roster.{IsCandidate, IsListedFor, HasRoomFor};
ghost use Rattle.shared_trace.specs.Kept.{IsRosterOf, IsAdded, IsPosted, AreCandidates, IsListedAt, KeepsLists};

use crate::candidates::Candidates;
use crate::wait_queue::WaitQueue;
use device_stations::Station;
use fleet_core::{Next, may_pass};
use std::alloc::{AllocError, Global};

/// What a trace keeps to find the lowest device that is ready: those that may be, and those that wait for posts.
#[derive(Drop)]
pub(crate) struct Roster {
    pub(crate) candidates: Candidates,
    /// Those that wait, by their groups. There is a place for each group that is posted to. A device that waits for
    /// posts to another one waits for ever.
    waiting: Vec<WaitQueue>,
}

fn empty_queues(alloc: Global, places: usize) -> Result<Vec<WaitQueue>, AllocError>
    ensures { IfOk result (λ v. length v.items ≡ places) }
{
    let mut waiting = Vec::with_capacity(alloc, places)?;
    for _added in 0..places {
        waiting.push(WaitQueue::new(alloc))?;
    }
    Ok(waiting)
}

/// Makes room for a device with this next step among those that wait.
fn make_room(waiting: &mut Vec<WaitQueue>, next: Next) -> Result<(), AllocError>
    ensures kept { KeepsLists waiting.old.items waiting.new.items }
    ensures room { OnOk result (HasRoomFor waiting.new.items next) }
{
    match next {
        Next::End | Next::Free => Ok(()),
        Next::Waits(group, _) => {
            if waiting.len() <= usize::from(group) {
                return Ok(());
            }
            let queue = &mut waiting[usize::from(group)];
            queue.make_room()
        }
    }
}

/// Lets a device wait, if its next step is a need.
fn let_wait(waiting: &mut Vec<WaitQueue>, device: u16, next: Next)
    requires room { HasRoomFor waiting.old.items next }
    ensures kept { KeepsLists waiting.old.items waiting.new.items }
    ensures listed { IsListedAt waiting.new.items device next }
{
    match next {
        Next::End | Next::Free => {}
        Next::Waits(group, count) => {
            if waiting.len() <= usize::from(group) {
                return;
            }
            let queue = &mut waiting[usize::from(group)];
            queue.add(device, count);
        }
    }
}

impl Roster {
    /// That of devices that are parked at the starts of their rows. It lists those that wait; the tables have `places`
    /// places.
    pub(crate) fn new(
        alloc: Global,
        stations: &[Station],
        places: usize,
    ) -> Result<Roster, AllocError>
        requires { length stations.now ≤ 65536 }
        ensures { IfOk result (IsRosterOf (replicate places 0) stations.now) }
    {
        let candidates = Candidates::new(alloc, stations.len())?;
        let mut waiting = empty_queues(alloc, places)?;
        for (device, station) in stations.iter().enumerate() {
            make_room(&mut waiting, station.next)?;
            let_wait(&mut waiting, device as u16, station.next);
        }
        Ok(Roster {
            candidates,
            waiting,
        })
    }

    /// Makes room for a device with this next step, which is to be parked.
    pub(crate) fn make_room(&mut self, next: Next) -> Result<(), AllocError>
        ensures candidates { self.new.candidates ≡ self.old.candidates }
        ensures kept { KeepsLists self.old.waiting.items self.new.waiting.items }
        ensures room { OnOk result (HasRoomFor self.new.waiting.items next) }
    {
        make_room(&mut self.waiting, next)
    }

    /// Adds a device that is parked, where each group has as many posts as the table says.
    pub(crate) fn add(&mut self, device: u16, next: Next, posts: &[u32])
        requires { HasRoomFor self.old.waiting.items next }
        ensures { IsAdded posts.now self.old self.new device next }
    {
        if may_pass(next, posts) {
            self.candidates.add(device);
            return;
        }
        let_wait(&mut self.waiting, device, next);
    }

    /// Wakes the devices that wait for no more than these posts to the group.
    pub(crate) fn post(&mut self, group: u8, posts: u32)
        requires { group < length self.old.waiting.items }
        ensures { IsPosted self.old self.new group posts }
    {
        let queue = &mut self.waiting[usize::from(group)];
        queue.wake(posts, &mut self.candidates);
    }
}
