// The laws of positions, each stated by a function that does nothing else: which of two is behind is an order,
// and each step leads where its name says.
ghost use Rattle.virtual_time.specs.Laws.{BehindIsIrreflexive, BehindIsTransitive, NotBehindIsTransitive, LoweringKeepsOrder};
ghost use Rattle.virtual_time.specs.Laws.{AdvanceIsBeyond, CeilingIsNotBehind, MadeIsBeyond};

pub fn behind_is_irreflexive() -> u8
    ensures { BehindIsIrreflexive }
{
    0
}

pub fn behind_is_transitive() -> u8
    ensures { BehindIsTransitive }
{
    0
}

pub fn not_behind_is_transitive() -> u8
    ensures { NotBehindIsTransitive }
{
    0
}

pub fn lowering_keeps_order() -> u8
    ensures { LoweringKeepsOrder }
{
    0
}

pub fn advance_is_beyond() -> u8
    ensures { AdvanceIsBeyond }
{
    0
}

pub fn ceiling_is_not_behind() -> u8
    ensures { CeilingIsNotBehind }
{
    0
}

pub fn made_is_beyond() -> u8
    ensures { MadeIsBeyond }
{
    0
}
