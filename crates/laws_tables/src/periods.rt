//! The periods of an observation.

ghost use Rattle.laws_tables.specs.Periods.{MaximumsAreSet, MinimumsAreSet};

/// The periods are those of the attribute, or otherwise of the lowest instance of Server that is of the server, of 0 to
/// 2,147,483,647 seconds; otherwise 0 and none.
pub fn periods_are_set()
    ensures minimum { MinimumsAreSet }
    ensures maximum { MaximumsAreSet }
{}
