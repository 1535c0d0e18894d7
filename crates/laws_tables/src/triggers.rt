//! When an observation sends.

ghost use Rattle.laws_tables.specs.Triggers.{AreTriggered, SendsByAge, TriggersBySaying};

/// If gt, lt or st is set and there are two numbers, an observation is triggered exactly if the value crossed gt or lt
/// or changed by st, in thousandths; otherwise if the payload is another (`trigger`; nine in numbers: `examples`). It
/// sends after pmin if it is triggered or pmax has passed (`periods`).
pub fn triggers_are_said()
    ensures trigger { TriggersBySaying }
    ensures examples { AreTriggered }
    ensures periods { SendsByAge }
{}
