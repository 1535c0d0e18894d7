//! The requests that come again within their lifetime.

ghost use Rattle.std.specs.Prelude.{◌≡◌, [], true, IfOk, OnErr};
ghost use Rattle.std.specs.Option.{option_copied};
ghost use Rattle.device_machine.specs.Asked.{message_with};
ghost use Rattle.device_machine.specs.Memory.{again_takes_memory};
ghost use Rattle.device_machine.specs.Reactions.{again, repeat_of};
ghost use Rattle.device_machine.specs.Records.{HaveOwnKeys};

use crate::machine::Machine;
use crate::output::Outputs;
use crate::recorded::Recorded;
use crate::reply::sent_to;
use coap_codec::{Kind, Message};
use octets::Bytes;
use std::alloc::{AllocError, Global};

/// What a repeated request gets.
pub(super) fn again(
    alloc: Global,
    server: u16,
    kind: Kind,
    reply: &Option<Bytes>,
) -> Result<Outputs, AllocError>
    ensures sends { IfOk result (λ o. o ≡ again server kind reply.now) }
    ensures may_lack_memory { OnErr result (again_takes_memory kind reply.now ≡ true) }
{
    match kind {
        Kind::Con => sent_to(alloc, server, reply),
        Kind::Non | Kind::Ack | Kind::Rst => Ok(Outputs::none(alloc)),
    }
}

impl Machine {
    /// The first receipt of a request of this type and message ID that is repeated within its lifetime.
    pub(super) fn first_of(&self, server: u16, kind: Kind, mid: u16) -> Option<&Recorded>
        ensures { option_copied result ≡ repeat_of self.now.flat server (message_with kind mid []) }
    {
        self.recorded.find(server, kind, mid)
    }

    /// No two of the recorded requests are of one server, type and message ID. It is called for that alone.
    pub(crate) fn knows_keys(&self)
        ensures { HaveOwnKeys self.now.flat.recorded }
    {
        self.recorded.knows_keys();
    }

    /// The first receipt of a request that is repeated within its lifetime.
    pub(crate) fn repeat_of(&self, server: u16, message: &Message) -> Option<&Recorded>
        ensures found { option_copied result ≡ repeat_of self.now.flat server message.now }
        ensures own_keys { HaveOwnKeys self.now.flat.recorded }
    {
        self.knows_keys();
        self.first_of(server, message.kind(), message.mid())
    }
}
