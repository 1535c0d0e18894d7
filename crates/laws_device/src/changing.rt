//! What an event changes of a device, and that all else is as before.

ghost use Rattle.laws_device.specs.Changing.{EndsAreTaken, EndsMiss, PutsMiss, PutsSetOne, RequestsAreDone};

use laws_requests::requests_change_what_they_ask;

/// A request that is not a repeat and is done changes of what is managed exactly what the table of
/// `requests_change_what_they_ask` says; of the observations, only a Read may change that of its server and token, and
/// those of other names stay as they were, in their order; the clock stays.
pub fn requests_change_a_device()
    ensures { RequestsAreDone }
{
    requests_change_what_they_ask();
}

/// A value that fits stands at its path then; every other value, and instances, attributes, observations, clock, next
/// message ID and recorded requests are as before (`set`). One that does not fit changes nothing (`missed`).
pub fn puts_set_one_value()
    ensures set { PutsSetOne }
    ensures missed { PutsMiss }
{}

/// The end of a download or an update that the table of the firmware has changes State, Update Result and Package URI
/// as the table says, and nothing else (`taken`); any other changes nothing (`missed`).
pub fn firmware_ends_by_its_table()
    ensures taken { EndsAreTaken }
    ensures missed { EndsMiss }
{}
