// LR(1) items: which are valid behind a stack, as forms and texts have it, and the sets of them.
#![tactic(auto)]

ghost use Rattle.items.specs.Statements.{ClosureByFirst, ItemsComplete, ItemsGoOn, ItemsSound, SetsExact};

pub mod sets;

/// An item that is valid behind a stack stands in a form of the grammar.
pub fn items_sound() -> u8
    ensures { ItemsSound }
{
    0
}

/// An item that stands in a form is valid behind its stack.
pub fn items_complete() -> u8
    ensures { ItemsComplete }
{
    0
}

/// Where every name is of use, every valid item belongs to a text.
pub fn items_go_on() -> u8
    ensures { ItemsGoOn }
{
    0
}

/// Where every name is of use, the lookaheads that closure sets are those of FIRST.
pub fn closure_by_first() -> u8
    ensures { ClosureByFirst }
{
    0
}

/// Where every name is of use, the computed set of a stack has just the items that are valid behind it.
pub fn sets_exact() -> u8
    ensures { SetsExact }
{
    0
}
