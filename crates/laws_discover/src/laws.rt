//! What follows from the tables of Discover, for their readers. The calls do nothing; their contracts are the laws.

ghost use Rattle.laws_discover.specs.Links.{DiscoversAreRead, LinksHaveOneReading, ParametersAreQueries};
ghost use Rattle.laws_discover.specs.Links.{PathsAreRead, WrittenBackIsTheSame};
ghost use Rattle.laws_discover.specs.Order.{LinksAscend, LinksDiffer};
ghost use Rattle.laws_discover.specs.Parameters.{FirstLinkShows, OtherLinksShow, ParametersInOrder};
ghost use Rattle.laws_discover.specs.Printed.{NoneIsValid, OnlyTheseAreRead, PrintedIsRead, PrintedSaysAgain};
ghost use Rattle.laws_discover.specs.Printed.{RequestsKeepValid};
ghost use Rattle.laws_discover.specs.Reached.{EventsKeepSound, ReachedAreSound};

use device_requests::links_what_exists;

/// What a Discover prints of an attribute is a query that says just this attribute and number, for every number that an
/// attribute may have: 0 to 2,147,483,647 seconds; below 10^18 thousandths either way for gt and lt, above 0 for st. No
/// query says another number (`only`).
pub fn printed_attributes_are_read()
    ensures read { PrintedIsRead }
    ensures only { OnlyTheseAreRead }
    ensures again { PrintedSaysAgain }
{}

/// Each attribute that is set has a number that it may have, at a level at which it stands (`start`), and every request
/// keeps it so (`requests`).
pub fn attributes_stay_valid()
    ensures start { NoneIsValid }
    ensures requests { RequestsKeepValid }
{}

/// Every event of a device keeps attributes valid, and in each state the gt, lt and st that a server set at a path
/// agree: lt is below gt, and lt + 2 st too (`event`). So it is in every state that a device reaches from its start by
/// any events, whatever its class (`reached`).
pub fn reached_attributes_are_sound()
    ensures event { EventsKeepSound }
    ensures reached { ReachedAreSound }
{}

/// The attributes of a link, sent back in a Write-Attributes, set just these (`set`); those that were set at that path
/// change nothing (`unchanged`).
pub fn shown_attributes_are_queries()
    ensures set { ParametersAreQueries }
    ensures unchanged { WrittenBackIsTheSame }
{}

/// The paths of a Discover's links ascend, so none is shown twice.
pub fn links_ascend()
    ensures ascend { LinksAscend }
    ensures differ { LinksDiffer }
{}

/// The payload of a Discover answered by 2.05 says exactly its links, with `dim` and attributes, and no other list; the
/// paths read from it are those that it shows. Of clients whose numbers are within their types.
pub fn discovers_are_read()
    ensures one { LinksHaveOneReading }
    ensures links { DiscoversAreRead }
    ensures paths { PathsAreRead }
{
    links_what_exists();
}

/// A link shows `dim` exactly if its resource is multiple and holds a part or more, with their number, and each
/// attribute that the server set at its path (`others`). The link of a resource that is the target shows besides the
/// pmin and the pmax of its instance, otherwise of its object (`first`). They stand in the order `dim`, pmin, pmax, gt,
/// lt, st, each once at most (`order`).
pub fn links_show_what_is_set()
    ensures first { FirstLinkShows }
    ensures others { OtherLinksShow }
    ensures order { ParametersInOrder }
{}
