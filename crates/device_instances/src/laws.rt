//! What follows from Create and Delete, for their readers. The calls do nothing; their contracts are the laws.

ghost use Rattle.device_instances.specs.Laws.{CreatedIsThere, OthersStay, NoneElseIsNew, CreatorHasEveryRight};
ghost use Rattle.device_instances.specs.Laws.{NoValueIsLeft, NoControlIsLeft};

/// After a Create the instance exists; each other instance has the values that it had; and none is new but the one of
/// object 2 Access Control.
pub fn created()
    ensures there { CreatedIsThere }
    ensures others { OthersStay }
    ensures only { NoneElseIsNew }
{}

/// With two accounts or more the server that creates has every right on the new instance, if no older instance of
/// object 2 refers to it and object 2 is not full.
pub fn creator()
    ensures { CreatorHasEveryRight }
{}

/// After a Delete no value is left below the instance, and no instance of object 2 refers to it.
pub fn deleted()
    ensures values { NoValueIsLeft }
    ensures controls { NoControlIsLeft }
{}
