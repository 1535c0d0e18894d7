//! What a class of devices refuses.

ghost use Rattle.laws_tables.specs.Refusals.{AccountsAreRefused, InstancesAreRefused, ObjectsAreRefused};
ghost use Rattle.laws_tables.specs.Refusals.{PathsAreRefused, ResourcesAreRefused, TimeoutsAreRefused};
ghost use Rattle.laws_tables.specs.Refusals.{ValuesAreRefused};

/// A class refuses what does not fit (`Range`), or else what stands in nothing that is there (`Missing`), or else what
/// is there (`Duplicate`), or else what has no room (`Full`), and nothing else; a clause for each kind of addition says
/// what each of the four is. The path of a value has three or four numbers (`paths`).
pub fn refusals_are_in_order()
    ensures accounts { AccountsAreRefused }
    ensures timeouts { TimeoutsAreRefused }
    ensures objects { ObjectsAreRefused }
    ensures resources { ResourcesAreRefused }
    ensures instances { InstancesAreRefused }
    ensures values { ValuesAreRefused }
    ensures paths { PathsAreRefused }
{}
