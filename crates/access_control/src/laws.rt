//! What follows from the cases of access control, for their readers. The calls do nothing; their contracts are the
//! laws.

ghost use Rattle.access_control.specs.Laws.{OneAccountHasAll, NobodyMakesControls, OwnEntryDecides};
ghost use Rattle.access_control.specs.Laws.{UncontrolledIsClosed, LowestDecides, NoneDecides};

/// A device with one account at most grants it every right.
pub fn one_account()
    ensures { OneAccountHasAll }
{}

/// With two accounts or more nobody may create or delete instances of object 2 Access Control.
pub fn control_instances()
    ensures { NobodyMakesControls }
{}

/// With two accounts or more, and outside object 2, a server's own entry in the deciding instance is its right, whoever
/// the owner is; and an instance to which no instance of object 2 refers is closed to all.
pub fn entries()
    ensures own { OwnEntryDecides }
    ensures none { UncontrolledIsClosed }
{}

/// The instance of object 2 that decides exists and refers to the object and the instance, and no lower one does; where
/// none decides, none does.
pub fn deciding()
    ensures lowest { LowestDecides }
    ensures none { NoneDecides }
{}
