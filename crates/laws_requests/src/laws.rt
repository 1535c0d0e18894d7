//! What follows from the tables of requests, for their readers. The calls do nothing; their contracts are the laws.

ghost use Rattle.laws_requests.specs.Acts.{ActsAreAsked};
ghost use Rattle.laws_requests.specs.Annotations.{AttributesAreSet};
ghost use Rattle.laws_requests.specs.Changes.{OperationsKeepOthers};
ghost use Rattle.laws_requests.specs.Creations.{CreatesAdd};
ghost use Rattle.laws_requests.specs.Deletions.{DeletesTake};
ghost use Rattle.laws_requests.specs.Done.{DoneIsChanged};
ghost use Rattle.laws_requests.specs.Executions.{ErrorsAreReset, ExecutesKeep, UpdatesBegin};
ghost use Rattle.laws_requests.specs.Existing.{ExistsWithin, WhatExists, WhatIsToWrite};
ghost use Rattle.laws_requests.specs.Good.{GoodIsDone, LimitsComeLast};
ghost use Rattle.laws_requests.specs.Instances.{InstancesAreReadBack, InstancesHoldGiven};
ghost use Rattle.laws_requests.specs.Multiples.{MultipleIsRead, MultipleIsReadBack, PartIsReadAmong};
ghost use Rattle.laws_requests.specs.ObjectReads.{InstanceIsShown, ObjectIsHidden, ObjectIsShown};
ghost use Rattle.laws_requests.specs.Payloads.{CreationsAreGiven, InstancesAreGiven, OtherInstanceGivesNothing};
ghost use Rattle.laws_requests.specs.Payloads.{PartsAreGiven, ResourcesAreGiven};
ghost use Rattle.laws_requests.specs.Readings.{PartIsRead};
ghost use Rattle.laws_requests.specs.ServedFormats.{DefaultIsServed, FormatsAreServed, NamedIsGiven, OthersTakeOne};
ghost use Rattle.laws_requests.specs.Understood.{CriticalIsUnderstood, FirstNames, OthersSayNothing, SegmentsName};
ghost use Rattle.laws_requests.specs.Understood.{ValuesInOrder};
ghost use Rattle.laws_requests.specs.Unread.{AnswersHideUnread, ReadsHideUnread};
ghost use Rattle.laws_requests.specs.Untimely.{StatesDecide, StatesPrecedeLimits};
ghost use Rattle.laws_requests.specs.Writes.{InstancesAreWritten, PartsAreWritten, ResourcesAreWritten};

use device_requests::refusals_have_reasons;

/// Of requests whose options, path and method are not refused. A request is done exactly if no rule refuses it
/// (`done`). It is 5.00 exactly if no rule before the limits refuses it, and the limits do (`limits`).
pub fn good_requests_are_done()
    ensures done { GoodIsDone }
    ensures limits { LimitsComeLast }
{
    refusals_have_reasons();
}

/// If the firmware does not take a Package, a Package URI or an Update in its State, the answer is 4.05, unless a rule
/// before refuses (`decide`). Such a request is never done and never 5.00, whatever would be stored (`precede`).
pub fn firmware_states_come_before_limits()
    ensures decide { StatesDecide }
    ensures precede { StatesPrecedeLimits }
{
    refusals_have_reasons();
}

/// Attributes change only by Write-Attributes and Delete, instances only by Create and Delete, and Read, Discover and
/// Write-Attributes change no instance and no value.
pub fn operations_keep_others()
    ensures { OperationsKeepOthers }
{}

/// A request that is done changes exactly what one table says for its operation at its path: Read and Discover nothing;
/// Write the values of its target; Write-Attributes the attributes of its server at its path; Create one instance, and
/// with two accounts or more one of Access Control; Execute what Update and Reset Error Code change; Delete its
/// instance and what belongs to it. All else is as before: values, instances, attributes, accounts and definitions. A
/// Write of a Package or a Package URI is in this table: State, Update Result and Package URI are then as the table of
/// the firmware says, and no Package is kept.
pub fn requests_change_what_they_ask()
    ensures { DoneIsChanged }
{}

/// An Execute changes nothing (`nothing`) but two: Reset Error Code leaves one error code, 0 (`errors`); Update takes
/// State from Downloaded to Updating, with the initial Update Result (`update`).
pub fn executes_change_little()
    ensures nothing { ExecutesKeep }
    ensures errors { ErrorsAreReset }
    ensures update { UpdatesBegin }
{}

/// A device reboots, returns to its factory settings, updates its registration or disables a server exactly after an
/// Execute of Reboot `/3/i/4`, Factory Reset `/3/i/5`, Registration Update Trigger `/1/i/8` or Disable `/1/i/4` that is
/// answered by 2.04. It does not act after any other request.
pub fn acts_are_asked()
    ensures { ActsAreAsked }
{}

/// After a Delete answered by 2.02, gone are the instance, the instances of Access Control that refer to it, their
/// values, and the attributes set at and below them; nothing else is.
pub fn deletes_take_what_belongs()
    ensures { DeletesTake }
{}

/// After a Write answered by 2.04, each full path in the target has what the payload gave to a resource that can be
/// read, nothing if Replace takes it away, and otherwise what it had; all others have what they had. Of resources
/// outside Firmware Update, whose Package and Package URI go to the firmware.
pub fn writes_are_kept()
    ensures instances { InstancesAreWritten }
    ensures resources { ResourcesAreWritten }
    ensures parts { PartsAreWritten }
{}

/// After a Create answered by 2.01, the new instance has what the payload gave to resources that can be read; with two
/// accounts or more a new instance of Access Control has the object and the instance that it refers to and the server
/// as owner, and no entry of rights; every other value and instance is as it was.
pub fn creates_add_one_instance()
    ensures { CreatesAdd }
{}

/// After a Write-Attributes answered by 2.04, the attributes of its server at its path are those before with the
/// changes that its queries spell; all others are as they were.
pub fn attributes_are_set()
    ensures { AttributesAreSet }
{}

/// If a Write of a resource instance that can be read was answered by 2.04, its payload gave one value, and a Read of
/// it by a server that may read there answers that value in each format that is served; 5.00 if that is over 1,024
/// bytes.
pub fn reads_the_part_that_was_written()
    ensures { PartIsRead }
{}

/// A Read of a multiple resource answers exactly the parts that it holds, ascending; 4.04 without parts, 5.00 over
/// 1,024 bytes (`held`). After a Write by Replace answered by 2.04, these are exactly the parts that the payload gave
/// (`written`); after a Write of one part, that part and the others that it held (`part`).
pub fn reads_multiple_resources()
    ensures held { MultipleIsRead }
    ensures written { MultipleIsReadBack }
    ensures part { PartIsReadAmong }
{}

/// After a Write of an instance answered by 2.04, each single value and part that was given to a resource that can be
/// read is held; beside given parts Replace leaves none and Partial Update all; of resources that are not named Replace
/// takes the optional writable ones away, and all else stays (`held`). A Read of each given resource answers so, in
/// each format that is served (`read`).
pub fn instances_hold_what_was_given()
    ensures held { InstancesHoldGiven }
    ensures read { InstancesAreReadBack }
{}

/// Of two devices that hold values at the same paths, and the same values where a server may read, all requests of that
/// server get the same answer (`all`), but for a Write of Package or Package URI and an Execute of Update while it may
/// not read `/5/0`. So it is of every Read, and with it of what a notification reports (`read`).
pub fn answers_hide_the_unreadable()
    ensures read { ReadsHideUnread }
    ensures all { AnswersHideUnread }
{}

/// A Read of an object answers one Object Instance for each instance on which the server has R, and for no other, by
/// ascending number; each holds exactly the values of that instance that can be read, single ones as Resources, parts
/// in Multiple Resources, by ascending number (`object`). It is 4.01 exactly if there are instances and the server has
/// R on none (`hidden`). A Read of an instance answers what its Object Instance holds (`instance`). Each is 5.00 over
/// 1,024 bytes.
pub fn reads_show_what_is_held()
    ensures instance { InstanceIsShown }
    ensures object { ObjectIsShown }
    ensures hidden { ObjectIsHidden }
{}

/// A grammar of TLV records, plain text and bytes says what a payload gives, and `instance_given`, `resource_given`,
/// `part_given` and `creation_given` are exactly that: numbers differ and are defined, each resource is open to Write,
/// or to Create, each value is valid, a mandatory multiple resource has a part, and a Create gives each mandatory
/// resource that can be read. One Object Instance of another number gives nothing (`other`).
pub fn payloads_give_what_they_say()
    ensures instances { InstancesAreGiven }
    ensures other { OtherInstanceGivesNothing }
    ensures resources { ResourcesAreGiven }
    ensures parts { PartsAreGiven }
    ensures creations { CreationsAreGiven }
{}

/// Which objects, instances, resources and parts exist (`exist`), what a Write may go to (`write`), and that what
/// exists lies in what exists (`within`).
pub fn targets_exist()
    ensures exist { WhatExists }
    ensures write { WhatIsToWrite }
    ensures within { ExistsWithin }
{}

/// Which formats a path serves, and its default (`served`). A format that is named is the one that is given (`named`);
/// the default one is served where it is named (`default`). A Create takes TLV or none, an Execute plain text or none
/// (`others`).
pub fn formats_are_served()
    ensures served { FormatsAreServed }
    ensures named { NamedIsGiven }
    ensures default { DefaultIsServed }
    ensures others { OthersTakeOne }
{}

/// Options are refused exactly if one with an odd number stands where it is not understood: not recognized, of a wrong
/// length, or again where it may stand once (`critical`). Accept, Content-Format and Observe are the numbers of the
/// first one, unless that is too long (`first`). The segments and the queries stand in their order (`values`), and one
/// to four decimal numbers name the path (`path`). Uri-Host, Uri-Port and each option with an even number that is not
/// recognized can be left out of a request, and nothing changes (`others`).
pub fn options_are_understood()
    ensures critical { CriticalIsUnderstood }
    ensures first { FirstNames }
    ensures values { ValuesInOrder }
    ensures path { SegmentsName }
    ensures others { OthersSayNothing }
{}
