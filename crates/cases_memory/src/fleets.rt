//! `commit TEXT DEVICES`: a commit for the last of these devices, after those for the others. A fleet that was refused
//! memory is spent, and still returns its entries, which are as before, the next steps and the posts.
use crate::given::{Given, number_of};
use crate::line::Line;
use crate::marks::Marks;
use fleet_core::{CommitFault, Fleet};
use std::alloc::AllocError;

pub fn commit(given: &Given, marks: &mut Marks, line: &mut Line) {
    commit_first(given, marks, line);
    if line.is_refused() {
        line.add("then");
        commit_again(given, marks, line);
    }
}

/// The commit to a fleet. One that is spent after it is asked for a commit of each device that is enabled.
fn commit_first(given: &Given, marks: &mut Marks, line: &mut Line) {
    let Ok(mut fleet) = fleet_before(given) else {
        return line.cut();
    };
    let device = last_device(given);
    commit_once(&mut fleet, device, marks, line);
    if line.is_refused() {
        commit_spent(&mut fleet, given.scenario.rows(), line);
    }
    add_shown(&fleet, device, line);
}

/// The same commit to another fleet.
fn commit_again(given: &Given, marks: &mut Marks, line: &mut Line) {
    let Ok(mut fleet) = fleet_before(given) else {
        return line.cut();
    };
    let device = last_device(given);
    commit_once(&mut fleet, device, marks, line);
    add_shown(&fleet, device, line);
}

/// The device that a word names.
fn device_of(word: &str) -> u16 {
    u16::try_from(number_of(word)).unwrap_or(0)
}

/// The device of the last commit.
fn last_device(given: &Given) -> u16 {
    let mut device = 0;
    for word in given.words.split_whitespace() {
        device = device_of(word);
    }
    device
}

/// The fleet before the last of the commits.
fn fleet_before<'a>(given: &Given<'a>) -> Result<Fleet<'a>, AllocError> {
    let mut fleet = Fleet::new(given.alloc, given.scenario)?;
    let count = given.words.split_whitespace().count();
    let mut is_before = true;
    for word in given.words.split_whitespace().take(count.saturating_sub(1)) {
        is_before = is_before && fleet.commit(1, device_of(word)).is_ok();
    }
    if is_before {
        Ok(fleet)
    } else {
        Err(AllocError)
    }
}

fn commit_once(fleet: &mut Fleet, device: u16, marks: &mut Marks, line: &mut Line) {
    marks.begin();
    let committed = fleet.commit(1, device);
    marks.end();
    match committed {
        Ok(()) => line.add("committed,"),
        Err(CommitFault::Memory) => line.refuse(),
        Err(CommitFault::Spent) => line.add("spent,"),
        Err(CommitFault::NotEnabled) => line.add("not enabled,"),
    }
}

/// Asks a fleet for a commit of each device that is enabled: adds how many of these are refused since it is
/// spent, and what comes of the others.
fn commit_spent(fleet: &mut Fleet, devices: usize, line: &mut Line) {
    let mut asked = 0u64;
    let mut refused = 0u64;
    let mut device = 0u16;
    for _ in 0..devices {
        if fleet.enabled(device) {
            asked = asked.saturating_add(1);
            if is_spent(fleet, device, line) {
                refused = refused.saturating_add(1);
            }
        }
        device = device.saturating_add(1);
    }
    line.add_spent(refused, asked);
}

/// Whether a commit is refused since the fleet is spent; else adds what comes of it.
fn is_spent(fleet: &mut Fleet, device: u16, line: &mut Line) -> bool {
    match fleet.commit(1, device) {
        Ok(()) => line.add("committed,"),
        Err(CommitFault::Memory) => line.refuse(),
        Err(CommitFault::Spent) => return true,
        Err(CommitFault::NotEnabled) => line.add("not enabled,"),
    }
    false
}

/// Adds how many entries there are, whether the device is enabled, and how many posts there are to group 1.
fn add_shown(fleet: &Fleet, device: u16, line: &mut Line) {
    line.add_count("entries", fleet.entries().len() as u64);
    if fleet.enabled(device) {
        line.add("enabled");
    }
    if fleet.next_step(device).is_none() {
        line.add("at its end");
    }
    line.add_count("posts", u64::from(fleet.posts(1)));
}
