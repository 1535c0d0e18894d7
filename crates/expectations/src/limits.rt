//! Up to when it may be silent at each place of a row.
ghost use Rattle.std.specs.Prelude.{◌≡◌, IfOk};
ghost use Rattle.expectations.specs.Inside.{least, limits_of};

use crate::arrival::Arrival;
use std::alloc::{AllocError, Global};

fn least(a: u64, b: u64) -> u64
    ensures { result ≡ least a b }
{
    if a <= b { a } else { b }
}

/// For each place of a row that ends in this second, before each datagram and after the last one, the earliest second
/// of what happens from there on: a datagram arrives, or the row ends.
pub(crate) fn limits_of(
    alloc: Global,
    arrivals: &[Arrival],
    end: u64,
) -> Result<Vec<u64>, AllocError>
    ensures { IfOk result (λ v. v.items ≡ limits_of end arrivals.now) }
{
    let mut limits = Vec::new(alloc);
    let mut limit = end;
    let mut place = arrivals.len();
    limits.push(end)?;
    while place > 0 {
        place -= 1;
        limit = least(arrivals[place].second, limit);
        limits.push(limit)?;
    }
    limits.reverse();
    Ok(limits)
}
