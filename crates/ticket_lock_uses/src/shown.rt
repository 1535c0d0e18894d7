//! What the program shows. Each function compares plain values itself, so that its caller has nothing to prove.
ghost use Rattle.std.specs.Thread.{IsSync};

use crate::board::Board;
use crate::claims::claim;
use crate::ends::{is_spent_while_held, taken_once};
use crate::items::Items;
use crate::parts::parted;
use crate::work::{add, two};
use std::alloc::{AllocError, Global};
use std::io;
use std::sync::Wait;
use std::thread::Threads;
use ticket_lock::{OneLeft, PassesOut, Spent, TicketLock};

/// Two threads add a hundred numbers each to one list: whether all are there. That each thread's are in order is
/// proved.
fn are_all_added<R: Threads + Wait + Sync>(rt: &R, alloc: Global) -> Result<bool, AllocError>
    requires { IsSync R.row }
{
    let numbers: Vec<u64> = (0..100).collect(alloc)?;
    let (items, first, second) = two(rt, alloc, numbers.as_slice(), numbers.as_slice())?;
    Ok(first == 100 && second == 100 && items.as_slice().len() == 200)
}

/// Takes a lock that has one ticket left, gives the list back as it is, and takes it again: whether that is refused,
/// and the lock closed with the list as it was.
fn is_last_drawn_once<R: Wait>(rt: &R, alloc: Global) -> Result<bool, AllocError> {
    let mut items = Items::new(alloc);
    items.push(1, 7)?;
    let items = taken_once(rt, alloc, items)?;
    Ok(items.as_slice() == [(1, 7)].as_slice())
}

/// Claims the place of a board of one, twice: whether the first alone had it.
fn is_claimed_once<R: Wait>(rt: &R, alloc: Global) -> Result<bool, AllocError> {
    let (lock, pass) = TicketLock::new(Board::new(alloc, 1)?, alloc)?;
    let (pass, first) = claim(rt, &lock, pass);
    let (_, second) = claim(rt, &lock, pass);
    Ok(first == Some(0) && second.is_none())
}

/// Splits the pass of a lock, and then the part with the lowest number: whether that can't be split.
fn is_split_once(alloc: Global) -> Result<bool, AllocError> {
    let (lock, pass) = TicketLock::new(Items::new(alloc), alloc)?;
    let Ok((one, two)) = pass.split(&lock) else {
        return Ok(false);
    };
    let has_numbers = one.number() == 1 && two.number() == 2;
    match one.split(&lock) {
        Ok(_) => Ok(false),
        Err((one, OneLeft)) => Ok(has_numbers && one.number() == 1),
    }
}

/// Splits the pass of a lock, and joins the lowest number to the others: whether that is the whole pass again, as where
/// the others are joined to it.
fn is_joined_to_others(alloc: Global) -> Result<bool, AllocError> {
    let (lock, pass) = TicketLock::new(Items::new(alloc), alloc)?;
    let Ok((one, two)) = pass.split(&lock) else {
        return Ok(false);
    };
    let pass = two.join(&lock, one);
    let is_first = pass.number() == 1;
    match lock.close(pass) {
        Ok(items) => Ok(is_first && items.as_slice().is_empty()),
        Err(_) => Ok(false),
    }
}

/// Adds an item, gives the list back, and takes it again: whether the pass then finds its own item.
fn is_own_found<R: Wait>(rt: &R, alloc: Global) -> Result<bool, AllocError> {
    let (lock, pass) = TicketLock::new(Items::new(alloc), alloc)?;
    let (pass, is_added) = add(rt, &lock, pass, 7);
    match lock.take(rt, pass) {
        Ok(held) => {
            let is_found = held.value().as_slice() == [(1, 7)].as_slice();
            drop(held.give());
            Ok(is_added && is_found)
        }
        Err((pass, Spent)) => {
            drop(pass);
            Ok(false)
        }
    }
}

/// Closes a lock with a pass that lacks one number, and then with all of it: whether the second time alone there is a
/// value.
fn is_closed_by_all(alloc: Global) -> Result<bool, AllocError> {
    let (lock, pass) = TicketLock::new(Items::new(alloc), alloc)?;
    let Ok((one, others)) = pass.split(&lock) else {
        return Ok(false);
    };
    let (lock, others) = match lock.close(others) {
        Ok(_) => return Ok(false),
        Err((lock, others, PassesOut)) => (lock, others),
    };
    let pass = one.join(&lock, others);
    match lock.close(pass) {
        Ok(items) => Ok(items.as_slice().is_empty()),
        Err(_) => Ok(false),
    }
}

/// Splits the pass of a lock until each part has one number, and joins the parts: whether there were 64, and the lock
/// can be closed then.
fn is_parted(alloc: Global) -> Result<bool, AllocError> {
    let (lock, pass) = TicketLock::new(Items::new(alloc), alloc)?;
    let (pass, parts) = parted(&lock, pass);
    match lock.close(pass) {
        Ok(items) => Ok(parts == 64 && items.as_slice().is_empty()),
        Err(_) => Ok(false),
    }
}

fn say<R: Print>(rt: &R, what: &str, is_so: bool) -> io::Result<()> {
    let word = if is_so { "yes" } else { "no" };
    println!(rt; "{what}: {word}")
}

/// Prints what came of each, a line each.
pub fn show<R: Threads + Wait + Sync + Print>(rt: &R, alloc: Global) -> io::Result<()>
    requires { IsSync R.row }
{
    say(
        rt,
        "two threads add all of their items",
        are_all_added(rt, alloc)?,
    )?;
    say(
        rt,
        "a pass that takes again finds its own item",
        is_own_found(rt, alloc)?,
    )?;
    say(
        rt,
        "the last ticket is drawn once",
        is_last_drawn_once(rt, alloc)?,
    )?;
    say(
        rt,
        "no ticket is left while the last one's holder is inside",
        is_spent_while_held(rt, alloc)?,
    )?;
    say(rt, "a place is claimed once", is_claimed_once(rt, alloc)?)?;
    say(
        rt,
        "a pass of one number is not split",
        is_split_once(alloc)?,
    )?;
    say(
        rt,
        "the lowest number is joined to the others",
        is_joined_to_others(alloc)?,
    )?;
    say(
        rt,
        "a lock is not closed by a pass that lacks one number",
        is_closed_by_all(alloc)?,
    )?;
    say(
        rt,
        "a pass has 64 parts, which are all of it when joined",
        is_parted(alloc)?,
    )
}
