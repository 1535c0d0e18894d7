//! Whether the datagrams of a row are what the lines of a case say.
//!
//! The lines are taken in their order. For each place of the row, before each datagram and after the last one, the
//! second is kept from which the next line counts, if the lines so far can be laid so that just the datagrams before
//! the place are passed. It is the same however they are laid.
ghost use Rattle.std.specs.Prelude.{◌≡◌, ◌∷◌, is_some, IfOk, None};
ghost use Rattle.std.specs.List.{list_any};
ghost use Rattle.expectations.specs.Inside.{after, greatest, is_hit, is_within, later, place_after_wait};
ghost use Rattle.expectations.specs.Inside.{places_reached, silent, start};
ghost use Rattle.expectations.specs.Laying.{IsVerdict};

use crate::arrival::Arrival;
use crate::expectation::{Expectation, Expected};
use crate::expecting::is_expected;
use crate::limits::limits_of;
use crate::verdict::Verdict;
use crate::what::What;
use std::alloc::{AllocError, Global};

fn greatest(a: u64, b: u64) -> u64
    ensures { result ≡ greatest a b }
{
    if a <= b { b } else { a }
}

/// At first only the place before all datagrams is reached, in second 0.
pub(crate) fn start(alloc: Global, arrivals: &[Arrival]) -> Result<Vec<Option<u64>>, AllocError>
    ensures { IfOk result (λ v. v.items ≡ start arrivals.now) }
{
    let mut places = Vec::new(alloc);
    places.push(Some(0))?;
    for _arrival in arrivals {
        places.push(None)?;
    }
    Ok(places)
}

/// The later one of two seconds, where there are two.
fn later(second: Option<u64>, other: Option<u64>) -> Option<u64>
    ensures { result ≡ later second other }
{
    match (second, other) {
        (None, other) => other,
        (second, None) => second,
        (Some(a), Some(b)) => Some(greatest(a, b)),
    }
}

/// Whether a second is at most so many seconds after another, where that is said.
pub(crate) fn is_within(within: Option<u32>, since: u64, second: u64) -> bool
    ensures { result ≡ is_within within since second }
{
    match within {
        None => true,
        Some(seconds) => second.saturating_sub(since) <= u64::from(seconds),
    }
}

/// Whether the datagram is what a line says that counts from this second on, if it counts.
fn is_hit(
    server: u16,
    what: &What,
    within: Option<u32>,
    since: Option<u64>,
    arrival: &Arrival,
) -> bool
    ensures { result ≡ is_hit server what.now within since arrival.now }
{
    match since {
        None => false,
        Some(since) => {
            is_within(within, since, arrival.second) && is_expected(server, what, arrival)
        }
    }
}

/// Where a server has to send something: each place after a datagram that is this, if a place before it was reached, of
/// which the latest counts.
fn sent(
    alloc: Global,
    server: u16,
    what: &What,
    within: Option<u32>,
    arrivals: &[Arrival],
    places: &[Option<u64>],
) -> Result<Vec<Option<u64>>, AllocError>
    ensures { IfOk result (λ v. v.items ≡ None ∷ places_reached server what.now within None places.now arrivals.now) }
{
    let mut next = Vec::new(alloc);
    next.push(None)?;
    let mut latest = None;
    let mut left = places;
    for arrival in arrivals {
        let [place, behind @ ..] = left else {
            return Ok(next);
        };
        left = behind;
        latest = later(latest, *place);
        if is_hit(server, what, within, latest, arrival) {
            next.push(Some(arrival.second))?;
        } else {
            next.push(None)?;
        }
    }
    Ok(next)
}

/// The second after so many that are silent, where these end within the limit.
fn waited(seconds: u32, since: Option<u64>, limit: u64) -> Option<u64>
    ensures { result ≡ place_after_wait seconds since limit }
{
    let since = since?;
    if since <= limit && u64::from(seconds) <= limit - since {
        Some(since + u64::from(seconds))
    } else {
        None
    }
}

/// Where nothing arrives for so many seconds: the same places, as many seconds later.
fn silent(
    alloc: Global,
    seconds: u32,
    places: &[Option<u64>],
    limits: &[u64],
) -> Result<Vec<Option<u64>>, AllocError>
    ensures { IfOk result (λ v. v.items ≡ silent seconds places.now limits.now) }
{
    let mut next = Vec::new(alloc);
    let mut left = places;
    for limit in limits {
        let [place, behind @ ..] = left else {
            return Ok(next);
        };
        left = behind;
        next.push(waited(seconds, *place, *limit))?;
    }
    Ok(next)
}

/// The places after a line.
pub(crate) fn after(
    alloc: Global,
    expected: &Expected,
    arrivals: &[Arrival],
    limits: &[u64],
    places: &[Option<u64>],
) -> Result<Vec<Option<u64>>, AllocError>
    ensures { IfOk result (λ v. v.items ≡ after expected.now arrivals.now limits.now places.now) }
{
    match expected {
        Expected::Message {
            server,
            what,
            within,
        } => sent(alloc, *server, what, *within, arrivals, places),
        Expected::Silence { seconds } => silent(alloc, *seconds, places, limits),
    }
}

/// Whether some place is reached.
fn is_reached(places: &[Option<u64>]) -> bool
    ensures { result ≡ list_any is_some places.now }
{
    places.iter().any(|place| place.is_some())
}

/// Whether the datagrams that arrive in a row, which ends in this second, are what the lines say: each line is laid
/// beside a datagram that is what it says, or beside seconds in which nothing arrives, in their order, from second 0
/// on, and each in its time after the one before it. Other datagrams may stand between them, except where it has to be
/// silent. If the lines cannot be laid so, the first one with which they cannot is returned. The work is that of one
/// comparison for each pair of a line and a datagram.
///
/// Only a lack of memory is an error.
pub fn judge(
    alloc: Global,
    lines: &[Expectation],
    arrivals: &[Arrival],
    end: u64,
) -> Result<Verdict, AllocError>
    ensures { IfOk result (λ v. IsVerdict v lines.now arrivals.now end) }
{
    let limits = limits_of(alloc, arrivals, end)?;
    let mut places = start(alloc, arrivals)?;
    for (place, line) in lines.iter().enumerate() {
        places = after(
            alloc,
            &line.expected,
            arrivals,
            limits.as_slice(),
            places.as_slice(),
        )?;
        if !is_reached(places.as_slice()) {
            return Ok(Verdict::Missed { place });
        }
    }
    Ok(Verdict::Met)
}
