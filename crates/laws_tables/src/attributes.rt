//! Which attribute has effect.

ghost use Rattle.laws_tables.specs.Levels.{LowestHasEffect, NoneHasEffect};

/// An attribute has effect on a path exactly if it stands at the lowest of those levels that begin the path and have
/// it; a level has one to three numbers. Where none has it, none has effect.
pub fn lowest_level_has_effect()
    ensures lowest { LowestHasEffect }
    ensures none { NoneHasEffect }
{}
