//! The first second after this one at which something is due.

ghost use Rattle.std.specs.Prelude.{◌+◌, ◌-◌, ◌==◌, ◌||◌, ℕ, Bool, nat_le};
ghost use Rattle.notification_times.specs.First.{IsFirst};

/// The first second after `now` at which a message of `second` is `age` seconds old, or older.
pub fn first_at(now: u64, second: u64, age: u64) -> Option<u64>
    ensures { IsFirst (λ clock. nat_le age (clock - second)) now result }
{
    let next = now.checked_add(1)?;
    if age == 0 {
        return Some(next);
    }
    let reached = second.checked_add(age)?;
    Some(next.max(reached))
}

/// The second that comes `wait` seconds after this one, if that is after `now`.
pub(crate) fn only_at(now: u64, second: u64, wait: u64) -> Option<u64>
    ensures { IsFirst (λ clock. clock == second + wait) now result }
{
    let at = second.checked_add(wait)?;
    if now < at { Some(at) } else { None }
}

/// The first second after `now` that comes `wait` seconds after this one, or later.
pub(crate) fn first_from(now: u64, second: u64, wait: u64) -> Option<u64>
    ensures { IsFirst (λ clock. nat_le (second + wait) clock) now result }
{
    let next = now.checked_add(1)?;
    let at = second.checked_add(wait)?;
    Some(next.max(at))
}

/// The earlier of two seconds, if there are two: the first at which either of two things is due.
pub fn earlier(a: Option<u64>, b: Option<u64>) -> Option<u64>
    ensures { (p q : ℕ → Bool) (now : ℕ)
        → IsFirst p now a → IsFirst q now b → IsFirst (λ clock. p clock || q clock) now result }
{
    match (a, b) {
        (Some(a), Some(b)) => Some(a.min(b)),
        (Some(a), None) => Some(a),
        (None, b) => b,
    }
}
