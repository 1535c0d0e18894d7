//! What follows from the tables of requests, for their readers. The calls do nothing; their contracts are the laws.

ghost use Rattle.device_requests.specs.Depending.{ReadsDependOnTheirValues};
ghost use Rattle.device_requests.specs.Execute.{ArgumentsAreTested};
ghost use Rattle.device_requests.specs.Hiding.{UnreadableIsHidden, UnreadableIsRefused};
ghost use Rattle.device_requests.specs.Laws.{ChangesAreSaid, FirstLineAnswers, LinksWhatExists, RefusalIsCodeAlone};
ghost use Rattle.device_requests.specs.Laws.{RefusalKeeps};
ghost use Rattle.device_requests.specs.Laws.{RequestsKeepFrame, WrittenIsRead};
ghost use Rattle.device_requests.specs.Order.{FormatsPrecedePayloads, MethodsPrecedeObjects, OneTable};
ghost use Rattle.device_requests.specs.Order.{OnlyReadsObserve, OperationsPrecedeFormats, OptionsComeFirst};
ghost use Rattle.device_requests.specs.Order.{PathsPrecedeMethods, PayloadsPrecedeStates, RefusalsHaveReasons};
ghost use Rattle.device_requests.specs.Order.{RightsPrecedeOperations, SecurityPrecedesTargets, TargetsPrecedeRights};
ghost use Rattle.device_requests.specs.Request.{RequestsAreSaid};

/// A message is read as a request exactly if its options are understood, and the path, the operation, the formats and
/// the Observe are what its options and its method say.
pub fn requests_are_said()
    ensures { RequestsAreSaid }
{}

/// The rule of each answer is the first one that applies, of which the last is success. So each request has exactly one
/// answer.
pub fn first_line_answers()
    ensures { FirstLineAnswers }
{}

/// A refusal changes nothing (`nothing`), its answer has neither option nor payload (`alone`), and the device does not
/// act; a request whose answer is not 2.01, 2.02 or 2.04 changes nothing either (`said`); and no request changes the
/// accounts or the catalog (`frame`).
pub fn refusals_change_nothing()
    ensures nothing { RefusalKeeps }
    ensures said { ChangesAreSaid }
    ensures alone { RefusalIsCodeAlone }
    ensures frame { RequestsKeepFrame }
{}

/// Which of two neighbouring rules decides if both refuse a request, for all operations alike:
///
/// - `options`: an unrecognized critical option is `Options`, 4.02, whatever the path and the method are.
/// - `paths`: a Uri-Path that is not a path is `NoPath`, 4.04, whatever the method is.
/// - `methods`: a method that has no operation at this kind of path is `Method`, 4.05, at object 0 too, and whether or
///   not the target exists.
/// - `security`: object 0 is `Security`, 4.01, whether or not the target exists.
/// - `targets`: a target that does not exist, outside object 0, is `Target`, 4.04, whatever the rights are.
/// - `rights`: a target that exists is 4.01 without the right, whether or not it has the operation, and whatever the
///   format and the payload are.
/// - `operations`: a target that does not have the operation is `Operation`, 4.05, unless it is `Security`, `Target` or
///   `Right`, whatever the format and the payload are.
/// - `formats`: a format that is not served is `Accept`, 4.06, for a Read and otherwise `ContentFormat`, 4.15, unless
///   it is one of these or `Operation`, whatever the payload is, or the length of what would be shown.
/// - `payloads`: a payload, queries or arguments that are not valid are `Payload`, 4.00, if the target has the
///   operation, unless it is `Security`, `Target`, `Right` or the format, whatever the state of the firmware is.
pub fn refusals_come_in_order()
    ensures options { OptionsComeFirst }
    ensures paths { PathsPrecedeMethods }
    ensures methods { MethodsPrecedeObjects }
    ensures security { SecurityPrecedesTargets }
    ensures targets { TargetsPrecedeRights }
    ensures rights { RightsPrecedeOperations }
    ensures operations { OperationsPrecedeFormats }
    ensures formats { FormatsPrecedePayloads }
    ensures payloads { PayloadsPrecedeStates }
{}

/// Of requests whose options, path and method are not refused. `table`: whatever the operation, the first rule of one
/// table decides. `reason`: `Security` is only for object 0, `Target` for a target that does not exist, `Right` for a
/// right that is missing, `Operation` for a target that does not have the operation, `Accept` and `ContentFormat` for
/// the format, `Payload` for the payload, the queries or the arguments, `State` for a firmware that does not take it
/// now, `Limit` for the limits of what is stored or shown.
///
/// The outcome of a request is defined by this table. That a condition of it is OMA's is for a reader to judge, and for
/// the laws of `laws_requests`.
pub fn refusals_have_reasons()
    ensures table { OneTable }
    ensures reason { RefusalsHaveReasons }
{}

/// Only a Read whose options are understood asks anything of an observation.
pub fn only_reads_observe()
    ensures { OnlyReadsObserve }
{}

/// If a Write of a single resource that can be read, outside Firmware Update, was answered by 2.04, its payload gave
/// one value, and a Read of the resource by a server that may read there answers that value in each format that is
/// served; 5.00 if that is over 1,024 bytes.
pub fn reads_what_was_written()
    ensures { WrittenIsRead }
{}

/// The links that a Discover shows are exactly those of the paths at and below its target that
/// exist, parts left out.
pub fn links_what_exists()
    ensures { LinksWhatExists }
{}

/// A payload of an Execute passes exactly if it is a list of arguments.
pub fn arguments_are_tested()
    ensures { ArgumentsAreTested }
{}

/// If a server may not read, its Read is answered by 4.01 or 4.04, a code alone (`refused`); and a Read of an object
/// has the same answer whatever the instances hold on which the server has no R (`object`).
pub fn unreadable_is_hidden()
    ensures refused { UnreadableIsRefused }
    ensures object { UnreadableIsHidden }
{}

/// The answer to a Read depends on the instances, on the values at and below its path, and on those of Access Control:
/// where they are the same, so is the answer, whatever the other values are.
pub fn reads_depend_on_their_values()
    ensures { ReadsDependOnTheirValues }
{}
