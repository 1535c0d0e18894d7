//! What follows of confirmable notifications, for those who observe. The calls do nothing; their contracts
//! are the laws.

ghost use Rattle.notifier.specs.Laws.{ClosedIsEvaluated, EndsAfterTheLastTimeout, IsNotEvaluated, ResendsFourTimes};

/// With a first timeout of T seconds, above 0, a notification that no acknowledgement answers is sent again T, 3T, 7T
/// and 15T seconds after its first sending, and at no other time (`times`). From 31T seconds on the observation is to
/// be removed, and not before (`end`). Until then it is not evaluated (`alone`). `Observations::turn` and `due` are by
/// the same definitions.
pub fn resends_at_doubled_timeouts()
    ensures times { ResendsFourTimes }
    ensures end { EndsAfterTheLastTimeout }
    ensures alone { IsNotEvaluated }
{}

/// An observation that is closed is evaluated in each second, is due by its present answer alone, awaits no
/// acknowledgement, and is removed by a Reset only if its last message was a NON.
pub fn closed_is_evaluated()
    ensures { ClosedIsEvaluated }
{}
