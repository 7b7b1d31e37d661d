// The laws of windows, each stated by a function that does nothing else: which of two is served first is an order,
// a window lasts as long as it says, and it is never whole again.
ghost use Rattle.windows.specs.Laws.{WholeGoFirst, BeforeIsIrreflexive, BeforeIsTransitive, OpenUntilTheEnd, ShutAtTheEnd, NeverWholeAgain};

pub fn whole_go_first() -> u8
    ensures { WholeGoFirst }
{
    0
}

pub fn before_is_irreflexive() -> u8
    ensures { BeforeIsIrreflexive }
{
    0
}

pub fn before_is_transitive() -> u8
    ensures { BeforeIsTransitive }
{
    0
}

pub fn open_until_the_end() -> u8
    ensures { OpenUntilTheEnd }
{
    0
}

pub fn shut_at_the_end() -> u8
    ensures { ShutAtTheEnd }
{
    0
}

pub fn never_whole_again() -> u8
    ensures { NeverWholeAgain }
{
    0
}
