ghost use Rattle.std.specs.Prelude.{◌≡◌, is_some};
ghost use Rattle.notifier.specs.Trigger.{is_above, is_below, crosses_gt, crosses_lt, steps_st, has_condition};
ghost use Rattle.notifier.specs.Trigger.{number_trigger, number_triggers, payload_trigger, trigger_in, is_triggered, is_over};
ghost use Rattle.notifier.specs.Trigger.{is_due};

use crate::observation::Report;

/// What a notification is triggered by (OMA LwM2M 1.1 Core, attributes).
#[derive(Clone, Copy)]
pub enum Trigger {
    /// One of two numbers is above gt, and the other is not.
    Gt,
    /// One of two numbers is below lt, and the other is not.
    Lt,
    /// Two numbers are st or more apart.
    St,
    /// The payload is another one, where there are no two numbers or no condition on them.
    Payload,
}

/// Whether a number is above a bound in thousandths.
fn is_above(gt: i64, number: i64) -> bool
    ensures { result ≡ is_above gt number }
{
    i128::from(number) * 1000 > i128::from(gt)
}

/// Whether a number is below a bound in thousandths.
fn is_below(lt: i64, number: i64) -> bool
    ensures { result ≡ is_below lt number }
{
    i128::from(number) * 1000 < i128::from(lt)
}

/// Whether one number is above a bound in thousandths and the other is not.
fn crosses_gt(gt: Option<i64>, old: i64, now: i64) -> bool
    ensures { result ≡ crosses_gt gt old now }
{
    match gt {
        Some(gt) => is_above(gt, old) != is_above(gt, now),
        None => false,
    }
}

/// Whether one number is below a bound in thousandths and the other is not.
fn crosses_lt(lt: Option<i64>, old: i64, now: i64) -> bool
    ensures { result ≡ crosses_lt lt old now }
{
    match lt {
        Some(lt) => is_below(lt, old) != is_below(lt, now),
        None => false,
    }
}

/// Whether two numbers are a step in thousandths or more apart.
fn steps_st(st: Option<i64>, old: i64, now: i64) -> bool
    ensures { result ≡ steps_st st old now }
{
    match st {
        Some(st) => i128::from(now.abs_diff(old)) * 1000 >= i128::from(st),
        None => false,
    }
}

/// Whether there is a condition on numbers.
fn has_condition(gt: Option<i64>, lt: Option<i64>, st: Option<i64>) -> bool
    ensures { result ≡ has_condition gt lt st }
{
    gt.is_some() || lt.is_some() || st.is_some()
}

/// The first condition on numbers that holds of the last report and the present number.
fn number_trigger(
    gt: Option<i64>,
    lt: Option<i64>,
    st: Option<i64>,
    old: i64,
    now: i64,
) -> Option<Trigger>
    ensures first { result ≡ number_trigger gt lt st old now }
    ensures some { is_some result ≡ number_triggers gt lt st old now }
{
    if crosses_gt(gt, old, now) {
        Some(Trigger::Gt)
    } else if crosses_lt(lt, old, now) {
        Some(Trigger::Lt)
    } else if steps_st(st, old, now) {
        Some(Trigger::St)
    } else {
        None
    }
}

/// The payload, if it is another one.
fn payload_trigger(old: &[u8], payload: &[u8]) -> Option<Trigger>
    ensures { result ≡ payload_trigger old.now payload.now }
{
    if old != payload {
        Some(Trigger::Payload)
    } else {
        None
    }
}

/// What triggers, where this number and this payload differ from the last report by more than the conditions gt, lt and
/// st (in thousandths) leave out: the first of them that holds, or the payload, where there are no two numbers or no
/// condition. `is_triggered` says when something does.
pub fn trigger_in(
    gt: Option<i64>,
    lt: Option<i64>,
    st: Option<i64>,
    old: &Report,
    number: Option<i64>,
    payload: &[u8],
) -> Option<Trigger>
    ensures first { result ≡ trigger_in gt lt st old.now.number number old.now.payload payload.now }
    ensures some { is_some result ≡ is_triggered gt lt st old.now.number number old.now.payload payload.now }
{
    match (old.number, number) {
        (Some(before), Some(number)) => {
            if has_condition(gt, lt, st) {
                number_trigger(gt, lt, st, before, number)
            } else {
                payload_trigger(old.payload.as_slice(), payload)
            }
        }
        _ => payload_trigger(old.payload.as_slice(), payload),
    }
}

/// Whether something triggers, as `trigger_in` says.
pub fn triggers(
    gt: Option<i64>,
    lt: Option<i64>,
    st: Option<i64>,
    old: &Report,
    number: Option<i64>,
    payload: &[u8],
) -> bool
    ensures { result ≡ is_triggered gt lt st old.now.number number old.now.payload payload.now }
{
    trigger_in(gt, lt, st, old, number, payload).is_some()
}

/// Whether pmax has effect and is over.
fn is_over(age: u64, pmin: u64, pmax: Option<u64>) -> bool
    ensures { result ≡ is_over age pmin pmax }
{
    match pmax {
        Some(pmax) => 0 < pmax && pmin <= pmax && pmax <= age,
        None => false,
    }
}

/// Whether an observation sends whose last message is this many seconds old, by pmin and pmax in
/// seconds. pmax has effect where it is above 0 and not below pmin.
pub fn is_due(age: u64, pmin: u64, pmax: Option<u64>, triggered: bool) -> bool
    ensures { result ≡ is_due age pmin pmax triggered }
{
    pmin <= age && (triggered || is_over(age, pmin, pmax))
}
