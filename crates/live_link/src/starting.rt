//! A device of a class, which is served from its start.
ghost use Rattle.std.specs.Prelude.{◌≡◌, IfOk, OnErr};
ghost use Rattle.live_link.specs.Served.{IsServed};

use crate::seconds::Seconds;
use crate::serving::serve;
use crate::session::LiveSession;
use crate::wire::Wire;
use device_machine::{Device, Template};
use std::alloc::{AllocError, Global};

/// Puts a device of this class on a wire, at its start, for n turns, as `serve` does. It fails only where no memory is
/// left for the device; then the wire was not asked and the clock not read.
#[tactic(auto, using(crate::proofs::FromStart::served))]
pub fn serve_class<W: Wire, C: Seconds>(
    alloc: Global,
    wire: &mut W,
    clock: &mut C,
    class: &Template,
    turns: u32,
) -> Result<LiveSession, AllocError>
    ensures served { IfOk result (λ session. IsServed class.now turns session (W.told wire.old) (W.told wire.new)
        (C.read clock.old) (C.read clock.new)) }
    ensures unserved { OnErr result (W.told wire.new ≡ W.told wire.old) }
    ensures unread { OnErr result (C.read clock.new ≡ C.read clock.old) }
{
    let device = Device::start(class)?;
    Ok(serve(alloc, wire, clock, device, turns))
}
