//! What follows from the definitions, for their readers. The calls do nothing; their contracts are the laws.
ghost use Rattle.expectations.specs.Laws.{EarlierLinesAreMet, LaterArrivalsChangeNothing, OneVerdict};
ghost use Rattle.expectations.specs.Settling.{SettledVerdictsStay};

/// Where lines are met, so are the first of them.
pub fn earlier_lines()
    ensures { EarlierLinesAreMet }
{}

/// What arrives after the end of a row, in a row that goes on, leaves lines met.
pub fn later_arrivals()
    ensures { LaterArrivalsChangeNothing }
{}

/// Once a verdict is settled, what arrives later leaves it.
pub fn settled_verdicts()
    ensures { SettledVerdictsStay }
{}

/// No other verdict is one of the same lines and datagrams.
pub fn one_verdict()
    ensures { OneVerdict }
{}
