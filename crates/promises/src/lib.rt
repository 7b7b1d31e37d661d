// Theorems on the rules: reservations, turns, fairness, lending, admission. Each is a contract.
#![tactic(auto)]

ghost use Rattle.promises.specs.Admission.{Admits};
ghost use Rattle.promises.specs.Idle.{IdleOnlyIfUnwanted};
ghost use Rattle.promises.specs.InTurn.{InTurn};
ghost use Rattle.promises.specs.Lending.{Lends};
ghost use Rattle.promises.specs.Nearest.{NearestEachOther, EqualsKeepPace};
ghost use Rattle.promises.specs.Quarter.{QuarterLeft};
ghost use Rattle.promises.specs.Reserved.{ReservedHas};
ghost use Rattle.promises.specs.Scenes.{ScenesPlay};
ghost use Rattle.promises.specs.Nearer.{NearerEachOther};

// Who runs in a task's tick is one to whom it lends it, and the tick counts for the task.
pub fn lends() -> u8
    ensures { Lends }
{
    0
}

// A tick is nobody's only if whoever wants it is a reserved task that has had its quota.
pub fn idle_only_if_unwanted() -> u8
    ensures { IdleOnlyIfUnwanted }
{
    0
}

// A task of a good kind is made exactly if a place is free and the shares fit.
pub fn admits() -> u8
    ensures { Admits }
{
    0
}

// The scenes that docs/RULES.md marks with a star: calls and their answers, from an empty house on.
pub fn starred() -> u8
    ensures { ScenesPlay }
{
    0
}

// A reserved task that wants all along has its quota in each window.
pub fn reserved_has() -> u8
    ensures { ReservedHas }
{
    0
}

// A quarter is left to fair tasks, less a constant, as long as some fair one wants each tick and no fixed one does.
pub fn quarter_left() -> u8
    ensures { QuarterLeft }
{
    0
}

// a·w is at most b·v + 2·v + w, where two fair tasks of weights v and w that want all along had a and b ticks.
pub fn nearer_each_other() -> u8
    ensures { NearerEachOther }
{
    0
}

// And less by whatever divides both weights.
pub fn nearest_each_other() -> u8
    ensures { NearestEachOther }
{
    0
}

// Of two of one weight neither is more than two ticks ahead.
pub fn equals_keep_pace() -> u8
    ensures { EqualsKeepPace }
{
    0
}

// Of fixed tasks that want a tick it is one's of the first rank, and of these whose last tick, or whose making if it had none, is the longest ago.
pub fn in_turn() -> u8
    ensures { InTurn }
{
    0
}
