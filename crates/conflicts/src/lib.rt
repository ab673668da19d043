// Conflicts of LR(1) items: where they show, that without them one look ahead is enough, and how the first is found.
#![tactic(auto)]

pub mod clashes;
mod pair;

ghost use Rattle.conflicts.specs.Statements.{ClashIsFound, ClashesAreConflicts, EnoughIsNoConflict, PairsShareAStack};

/// Pairs of items are the items that are valid behind one stack.
pub fn pairs_share_a_stack() -> u8
    ensures { PairsShareAStack }
{
    0
}

/// Forms clash exactly where items conflict.
pub fn clashes_are_conflicts() -> u8
    ensures { ClashesAreConflicts }
{
    0
}

/// One look ahead is enough exactly where no items conflict.
pub fn enough_is_no_conflict() -> u8
    ensures { EnoughIsNoConflict }
{
    0
}

/// A clash is found among the pairs exactly where one look ahead is not enough.
pub fn clash_found() -> u8
    ensures { ClashIsFound }
{
    0
}
