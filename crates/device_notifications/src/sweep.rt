//! A second, and seconds: the observations have their turns, in their order, and the clock jumps over the seconds in
//! which nothing is due.

ghost use Rattle.std.specs.Prelude.{◌≡◌, ◌+◌, ◌<◌, ◌^◌, true, IfOk, OnErr, OnOk, vec_capacity, vec_len};
ghost use Rattle.device_notifications.specs.Outbox.{HasRoom, empty};
ghost use Rattle.device_notifications.specs.Outlooks.{IsKnown};
ghost use Rattle.device_notifications.specs.Progress.{Leaves, StopsIn, does_act};
ghost use Rattle.device_notifications.specs.Second.{second, seconds};

use crate::deeds::{carry_out, plan};
use crate::outbox::Outbox;
use crate::outlooks::due_within;
use device_requests::Client;
use notifier::Observations;
use std::alloc::{AllocError, Global};

/// What the observations do in the second that the clock shows: each has its turn, in their order, and those that are
/// due take their present answer. All that it allocates is there before any of them changes, a place for each datagram
/// in a list too.
fn second<T>(
    alloc: Global,
    client: &Client,
    observations: &mut Observations,
    clock: u64,
    outbox: &mut Outbox,
    list: &mut Vec<T>,
) -> Result<(), AllocError>
    requires { IsKnown client.now observations.old }
    ensures done { OnOk result (Leaves outbox.old
        (second client.now clock outbox.old.next_id observations.old.list) observations.new.list outbox.new) }
    ensures known { IsKnown client.now observations.new }
    ensures items { list.new.items ≡ list.old.items }
    ensures room { OnOk result (HasRoom outbox.new.sent (vec_len list.new) (vec_capacity list.new)) }
    ensures unchanged { OnErr result (observations.new ≡ observations.old) }
{
    let deeds = plan(alloc, client, observations, clock, outbox)?;
    outbox.reserve_in(list)?;
    carry_out(observations, clock, deeds);
    Ok(())
}

/// What the observations do in n seconds, where the clock shows `clock` before the first of them: it goes up by one,
/// then each has its turn. Returns what they send, the first message ID of which is `next_id`: exactly which
/// observations send, which datagrams, in which order, what is left of each, and the next message ID. The list then has
/// room for what the caller makes of them if they are more than one. It takes memory only if something is sent or an
/// observation is removed. If an allocation fails, its second changes no observation, and later seconds do not begin.
pub fn seconds<T>(
    alloc: Global,
    client: &Client,
    observations: &mut Observations,
    clock: u64,
    count: u32,
    next_id: u16,
    list: &mut Vec<T>,
) -> Result<Outbox, AllocError>
    requires fits { clock + count < 2 ^ 64 }
    requires known { IsKnown client.now observations.old }
    ensures done { IfOk result (λ outbox. Leaves (empty next_id)
        (seconds client.now clock count next_id observations.old.list) observations.new.list outbox) }
    ensures known { IsKnown client.now observations.new }
    ensures items { list.new.items ≡ list.old.items }
    ensures room { IfOk result (λ outbox. HasRoom outbox.sent (vec_len list.new) (vec_capacity list.new)) }
    ensures may_lack_memory { OnErr result (does_act
        (seconds client.now clock count next_id observations.old.list) observations.old.list ≡ true) }
    ensures stops { OnErr result (StopsIn client.now clock count next_id observations.old.list
        observations.new.list) }
{
    let mut outbox = Outbox::new(alloc, next_id);
    let end = clock + u64::from(count);
    let mut now = clock;
    while let Some(due) = due_within(observations, now, end) {
        second(alloc, client, observations, due, &mut outbox, list)?;
        now = due;
    }
    Ok(outbox)
}
