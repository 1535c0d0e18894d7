//! What holds of the lock's steps by themselves, whoever makes them and in whatever order, and of its limits.
ghost use Rattle.std.specs.Prelude.{◌≡◌, ◌+◌, ◌^◌};
ghost use Rattle.ticket_lock.specs.Moves.{Law};
ghost use Rattle.ticket_lock.specs.declared.rule.TheConstants.{NUMBERS, LAST};

use crate::logged::Logged;

/// Over every list of the lock's atomic steps from every beginning its rule holds (docs/inside/lock.md): at most one
/// pass is inside, each ticket is held once, and the value's log begins with what each pass has seen, followed by none
/// of that pass's own entries. Every call of the lock makes its steps under this rule.
pub fn steps<T: Logged>()
    ensures { Law T.log }
{}

/// A lock has the worker numbers 1 to 64, and its tickets end at 2^63 - 1.
pub fn limits()
    ensures numbers { NUMBERS ≡ 64 }
    ensures last { LAST + 1 ≡ 2 ^ 63 }
{}
