//! When a Confirmable notification that no acknowledgement answers is sent again, and when it is given up. After k
//! timeouts, each twice the one before it, 2^k - 1 times the first has passed.

ghost use Rattle.std.specs.Prelude.{◌≡◌, ◌||◌};
ghost use Rattle.notification_times.specs.First.{IsFirst};
ghost use Rattle.notification_times.specs.Timeouts.{is_resent, is_timed_out, max_retransmit};

use crate::first::{earlier, first_from, only_at};

/// Whether a notification that was first sent at `second` is sent again in the second that the clock shows.
#[inline]
pub fn is_resent(second: u64, first: u8, clock: u64) -> bool
    ensures { result ≡ is_resent second first clock max_retransmit }
{
    let Some(age) = clock.checked_sub(second) else {
        return false;
    };
    let timeout = u64::from(first);
    age == timeout || age == 3 * timeout || age == 7 * timeout || age == 15 * timeout
}

/// Whether the timeout that began with the last resending has passed too, so that the notification is given up.
#[inline]
pub fn is_timed_out(second: u64, first: u8, clock: u64) -> bool
    ensures { result ≡ is_timed_out second first clock }
{
    match clock.checked_sub(second) {
        Some(age) => 31 * u64::from(first) <= age,
        None => false,
    }
}

/// The first second after `now` at which a notification that was first sent at `second` is sent again, or given up.
pub fn next_resending(now: u64, second: u64, first: u8) -> Option<u64>
    ensures { IsFirst (λ clock. is_resent second first clock max_retransmit || is_timed_out second first clock)
        now
        result }
{
    let timeout = u64::from(first);
    let end = first_from(now, second, 31 * timeout);
    let from_fourth = earlier(only_at(now, second, 15 * timeout), end);
    let from_third = earlier(only_at(now, second, 7 * timeout), from_fourth);
    let from_second = earlier(only_at(now, second, 3 * timeout), from_third);
    earlier(only_at(now, second, timeout), from_second)
}
