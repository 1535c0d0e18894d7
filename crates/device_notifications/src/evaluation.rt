//! What an observation does that is evaluated.

ghost use Rattle.std.specs.Prelude.{◌≡◌, true, IfOk};
ghost use Rattle.notifier.specs.Due.{is_due_at};
ghost use Rattle.device_notifications.specs.Outlooks.{outlook_of};
ghost use Rattle.device_notifications.specs.Second.{evaluation_of};

use device_requests::{Answer, Client};
use notifier::Observation;
use std::alloc::AllocError;

/// What an observation does in a second.
#[derive(Clone, Drop)]
pub enum Evaluation {
    /// Nothing.
    Quiet,
    /// It notifies its server of this answer.
    Sends(Answer),
    /// It ends with this answer, which is no content.
    Gone(Answer),
}

/// What an observation does in the second that the clock shows, if it is due then.
pub(crate) fn judge(
    client: &Client,
    clock: u64,
    observation: &Observation,
) -> Result<Evaluation, AllocError>
    requires { is_due_at observation.now.second (outlook_of client.now observation.now) clock ≡ true }
    ensures { IfOk result (λ v. v ≡ evaluation_of client.now clock observation.now) }
{
    // The second is looked at by the contract alone.
    let _clock = clock;
    let answer = client.read(observation.server, observation.path, observation.accept)?;
    if answer.is_content() {
        return Ok(Evaluation::Sends(answer));
    }
    Ok(Evaluation::Gone(answer))
}
