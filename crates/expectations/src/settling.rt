//! Whether it is settled if a row that goes on is what the lines of a case say.
//!
//! The lines are taken in their order, over the places that they reach, as for a verdict. It is open where a line may
//! yet be laid at one of the places that those before it reach.
ghost use Rattle.std.specs.Prelude.{◌≡◌, ◌↔◌, IfOk, IsTrue, option_copied};
ghost use Rattle.std.specs.List.{list_any};
ghost use Rattle.expectations.specs.Inside.{is_open_at, may_be_silent, may_come, may_come_at};
ghost use Rattle.expectations.specs.Settling.{IsOpen, IsSettled};

use crate::arrival::Arrival;
use crate::expectation::{Expectation, Expected};
use crate::judging::{after, is_within, judge, start};
use crate::limits::limits_of;
use crate::verdict::Verdict;
use std::alloc::{AllocError, Global};

/// Whether something that has to arrive in time after this second, if it counts, may come now.
fn is_open_at(end: u64, within: Option<u32>, since: Option<u64>) -> bool
    ensures { result ≡ is_open_at end within since }
{
    match since {
        None => false,
        Some(since) => is_within(within, since, end),
    }
}

/// Whether so many seconds after this one, if it counts, have not passed.
fn may_be_silent(end: u64, seconds: u32, since: Option<u64>) -> bool
    ensures { result ≡ may_be_silent end seconds since }
{
    match since {
        None => false,
        Some(since) => u128::from(end) < u128::from(since) + u128::from(seconds),
    }
}

/// The same at this place, if there is one.
fn may_come_at(end: u64, seconds: u32, place: Option<&Option<u64>>) -> bool
    ensures { result ≡ may_come_at end seconds (option_copied place.entry) }
{
    match place {
        None => false,
        Some(since) => may_be_silent(end, seconds, *since),
    }
}

/// Whether something that has to arrive in time may come now, counted from one of these places.
fn is_open_at_some(end: u64, within: Option<u32>, places: &[Option<u64>]) -> bool
    ensures { result ≡ list_any (is_open_at end within) places.now }
{
    places.iter().any(|since| is_open_at(end, within, *since))
}

/// Whether a line may yet be laid at one of these places; the last of them has this number.
fn may_come(end: u64, expected: &Expected, last: usize, places: &[Option<u64>]) -> bool
    ensures { result ≡ may_come end expected.now last places.now }
{
    match expected {
        Expected::Message { within, .. } => is_open_at_some(end, *within, places),
        Expected::Silence { seconds } => may_come_at(end, *seconds, places.get(last)),
    }
}

/// Whether a line may yet be laid.
fn is_open(
    alloc: Global,
    lines: &[Expectation],
    arrivals: &[Arrival],
    end: u64,
) -> Result<bool, AllocError>
    ensures { IfOk result (λ b. IsTrue b ↔ IsOpen end lines.now arrivals.now 0) }
{
    let limits = limits_of(alloc, arrivals, end)?;
    let mut places = start(alloc, arrivals)?;
    for line in lines {
        if may_come(end, &line.expected, arrivals.len(), places.as_slice()) {
            return Ok(true);
        }
        places = after(
            alloc,
            &line.expected,
            arrivals,
            limits.as_slice(),
            places.as_slice(),
        )?;
    }
    Ok(false)
}

/// Whether the verdict on lines is settled by the datagrams that arrive up to this second: they are met, or no line may
/// yet be laid beside what arrives later. It takes as many steps as there are pairs of a line and a datagram.
pub fn is_settled(
    alloc: Global,
    lines: &[Expectation],
    arrivals: &[Arrival],
    end: u64,
) -> Result<bool, AllocError>
    ensures { IfOk result (λ b. IsTrue b ↔ IsSettled lines.now arrivals.now end) }
{
    match judge(alloc, lines, arrivals, end)? {
        Verdict::Met => Ok(true),
        Verdict::Missed { .. } => {
            let open = is_open(alloc, lines, arrivals, end)?;
            Ok(!open)
        }
    }
}
