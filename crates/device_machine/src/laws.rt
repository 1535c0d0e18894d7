//! What follows from the tables, for their readers. The calls do nothing; their contracts are the laws.

ghost use Rattle.device_machine.specs.Laws.{AcknowledgementsClose, CancelsEnd, ConfirmableAnswers, ConfirmableRepeats};
ghost use Rattle.device_machine.specs.Laws.{NonConfirmableAnswers, NonConfirmableRejects, NonConfirmableRepeats};
ghost use Rattle.device_machine.specs.Laws.{OthersAreIgnored, RefusedChangesNothing, RegistrationsCount, ResetsEnd};
ghost use Rattle.device_machine.specs.Laws.{TicksAdd, TicksCount, TicksSendAfterPmin, TicksSendBeforePmax};
ghost use Rattle.device_machine.specs.Laws.{UpdatesClose};

/// A confirmable request that comes again within its lifetime gets the same bytes, a non-confirmable one nothing (RFC
/// 7252 section 4.5); neither changes anything, and what it asked for is not done again.
pub fn repeats()
    ensures confirmable { ConfirmableRepeats }
    ensures non_confirmable { NonConfirmableRepeats }
{}

/// A request of an account that is not a repeat gets exactly one datagram with its token, whose code is that of the
/// first rule that applies, the last of which is success: a confirmable one an acknowledgement with its message ID; a
/// non-confirmable one a message with the device's next, or nothing if a critical option is not recognized.
pub fn answers_once()
    ensures confirmable { ConfirmableAnswers }
    ensures non_confirmable { NonConfirmableAnswers }
    ensures rejected { NonConfirmableRejects }
{}

/// A refused request is recorded, may advance the next message ID, and changes nothing else, except that a Read with
/// Observe 0 or 1 whose options and path are not refused removes the observation of its server and token.
pub fn refusals_change_nothing()
    ensures { RefusedChangesNothing }
{}

/// After a Read with Observe 1 whose options and path are not refused there is no observation of its server and token;
/// after an Empty Reset there is none of its server whose last message was a NON with its message ID, or is such a CON
/// that is still open (RFC 7641 section 3.6).
pub fn ends_observations()
    ensures cancelled { CancelsEnd }
    ensures reset { ResetsEnd }
{}

/// An Empty ACK closes the observations of its server that awaited an acknowledgement with its message ID (RFC 7252
/// section 4.2), sends nothing and changes nothing else; one that no observation awaits, and an ACK that is not Empty,
/// are ignored. After a Read with Observe 0 or 1 whose options and path are not refused the observation of its server
/// and token, if there is one, is closed, whatever the answer.
pub fn closes_observations()
    ensures acknowledged { AcknowledgementsClose }
    ensures ignored { OthersAreIgnored }
    ensures updated { UpdatesClose }
{}

/// The reply to a Read that registers and is answered by 2.05 has, if there is a place, Observe 0 for a new name,
/// otherwise the number after that of the observation's last message, modulo 2^24, and the observation keeps it.
pub fn counts_registrations()
    ensures { RegistrationsCount }
{}

/// A tick of a + b seconds is one of a and then one of b: the same outputs, and the same flat state then. So each law
/// of a tick holds of each second of a longer one.
pub fn ticks_add()
    ensures { TicksAdd }
{}

/// Each datagram of a tick is, in one of its seconds, a notification of an observation that exists then and whose last
/// message was pmin seconds old or older, or the message that ends it, or its open notification once more.
pub fn notifies_after_pmin()
    ensures { TicksSendAfterPmin }
{}

/// After a tick no closed observation whose pmax applies has a last message that is pmax seconds old or older, and no
/// open one has a notification that was first sent 31 first timeouts ago or earlier.
pub fn notifies_before_pmax()
    ensures { TicksSendBeforePmax }
{}

/// Through a tick the Observe numbers of an observation's messages rise by one with each of them, modulo 2^24, and the
/// observation keeps the last; after the message that ends it there is none. A notification that is sent again keeps
/// its number, and is not sent again after the next one.
pub fn counts_notifications()
    ensures { TicksCount }
{}
