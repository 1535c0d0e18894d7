//! Ports that keep what goes through them: what is so of them holds after each call.
ghost use Rattle.std.specs.Prelude.{◌≡◌, true};
ghost use Rattle.fleet_lines.specs.Shown.{AreShown, all_shown};

use crate::tape::Tape;
use fleet_link::Ports;
use std::snapshot::Snapshot;

/// Other ports, of which each datagram that goes through is kept until it is taken.
#[derive(Drop)]
pub struct ShownPorts<P: Ports> {
    pub(crate) ports: P,
    /// The other ports before the first call. It takes no memory: contracts alone see it.
    pub(crate) began: Snapshot<P>,
    pub(crate) tape: Tape,
    ghost shows: { ∥ (tape.whole ≡ true → AreShown (P.told began.value) (P.told ports) (all_shown tape)) ∥₁ },
}
