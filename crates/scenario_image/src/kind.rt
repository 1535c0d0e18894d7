ghost use Rattle.std.specs.Prelude.{◌≡◌, ◌≢◌, ◌++◌, IfErr, OnOk, OnErr};
ghost use Rattle.byte_layout.specs.declared.fault.ReadError.TheVariants.{Memory};
ghost use Rattle.byte_layout.specs.Outcome.{Gives};
ghost use Rattle.scenario_image.specs.Layout.{kind, step_kind};

use crate::step::Step;
use byte_layout::{Break, ReadError, put_u8, u8_at};
use device_machine::Event;
use std::alloc::AllocError;

/// The kind of a step.
#[derive(Clone, Copy)]
pub(crate) enum StepKind {
    /// A datagram arrives.
    Recv,
    /// Seconds pass.
    Tick,
    /// A value is put.
    Put,
    /// A download or an update of the firmware ends.
    Firmware,
    /// A post to a group.
    Post,
    /// A wait for posts.
    Need,
}

/// The number of a kind: 1 a datagram, 2 seconds, 3 a put, 4 an end of the firmware's work, 5 a post, 6 a need.
#[tactic(auto, unfolding(crate::specs::Layout::kind))]
pub(crate) fn kind_at(bytes: &[u8]) -> Result<(StepKind, &[u8]), ReadError>
    ensures read { Gives (λ x. (x.0, x.1.now)) result (kind.read bytes.now) }
    ensures no_memory { IfErr result (λ e. e ≢ Memory) }
{
    let (number, rest) = u8_at(bytes)?;
    match number {
        1 => Ok((StepKind::Recv, rest)),
        2 => Ok((StepKind::Tick, rest)),
        3 => Ok((StepKind::Put, rest)),
        4 => Ok((StepKind::Firmware, rest)),
        5 => Ok((StepKind::Post, rest)),
        6 => Ok((StepKind::Need, rest)),
        _ => Err(ReadError::Fault(Break::BadField(bytes.len()))),
    }
}

/// Writes the number of a kind.
#[tactic(auto, unfolding(crate::specs::Layout::kind))]
pub(crate) fn put_kind(out: &mut Vec<u8>, k: StepKind) -> Result<(), AllocError>
    ensures ok { OnOk result (out.new.items ≡ out.old.items ++ kind.spell k) }
    ensures err { OnErr result (out.new.items ≡ out.old.items) }
{
    let number = match k {
        StepKind::Recv => 1,
        StepKind::Tick => 2,
        StepKind::Put => 3,
        StepKind::Firmware => 4,
        StepKind::Post => 5,
        StepKind::Need => 6,
    };
    put_u8(out, number)
}

impl Step {
    /// The kind of the step.
    pub(crate) fn kind(&self) -> StepKind
        ensures { result ≡ step_kind self.now }
    {
        match self {
            Step::Event(Event::Recv { .. }) => StepKind::Recv,
            Step::Event(Event::Tick(_)) => StepKind::Tick,
            Step::Event(Event::Put { .. }) => StepKind::Put,
            Step::Event(Event::Firmware(_)) => StepKind::Firmware,
            Step::Post(_) => StepKind::Post,
            Step::Need(_, _) => StepKind::Need,
        }
    }
}
