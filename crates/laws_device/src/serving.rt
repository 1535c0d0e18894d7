//! What a request leaves, answered or refused.

ghost use Rattle.laws_device.specs.Serving.{ConfirmableRefusals, NonConfirmableRefusals, NonConfirmableRejects};
ghost use Rattle.laws_device.specs.Serving.{RequestsAreServed};

/// A refused request is answered by its code and token alone, with no option and no payload: a CON by an ACK with its
/// message ID, and the device's own stays (`confirmable`); a NON by a NON with the device's next message ID, which then
/// advances (`non_confirmable`); a NON with a critical option that is not recognized by nothing (`rejected`). What is
/// recorded is this request with this reply. Nothing else changes, except that a Read with Observe 0 or 1 whose options
/// and path are not refused removes the observation of its server and token.
pub fn refusals_are_bare()
    ensures confirmable { ConfirmableRefusals }
    ensures non_confirmable { NonConfirmableRefusals }
    ensures rejected { NonConfirmableRejects }
{}

/// All that a request that is not a repeat leaves, as one record: what is sent, what is recorded, the next message ID,
/// the observations, what is managed, and the clock.
pub fn requests_are_served()
    ensures { RequestsAreServed }
{}
