// What is so of every grammar, whatever reads its texts: each function's contract is a theorem.
ghost use Rattle.grammar.specs.Computed.{FirstComputed, NullableComputed, UselessFound};
ghost use Rattle.grammar.specs.First.{FirstExact, NullableExact};
ghost use Rattle.grammar.specs.Statements.{GoesOn, LastRight, OneReading, SomethingComes, TwinsClash, WrongOnce};
ghost use Rattle.grammar.specs.Trees.{TreesExact};

// If one sign of lookahead is enough for a grammar, every text has one reading at most: no two derivations from the right make it.
pub fn one_reading() -> u8
    ensures { OneReading }
{
    0
}

// If every name is of use, the signs that a form begins with begin some text: what comes on the way to a text can be gone on from.
pub fn goes_on() -> u8
    ensures { GoesOn }
{
    0
}

// What begins no text begins none with more behind it, and a text has one first wrong place at most.
pub fn wrong_once() -> u8
    ensures { WrongOnce }
{
    0
}

// Where a text has begun, some sign may come next, or the text may end: the list of what may follow is not empty.
pub fn something_comes() -> u8
    ensures { SomethingComes }
{
    0
}

// Splitting a form at its last name gives back that form, with signs only behind the name, and there is one such splitting.
pub fn last_right() -> u8
    ensures { LastRight }
{
    0
}

// If every name is of use, two rules with the same sides are a conflict: no lookahead tells them apart.
pub fn twins_clash() -> u8
    ensures { TwinsClash }
{
    0
}

// Derivation trees and derivations from the right are the same: a row yields signs by a tree just if it comes to them by the tree's rules, from the last to end.
pub fn trees_exact() -> u8
    ensures { TreesExact }
{
    0
}

// A row is nullable just if it yields nothing.
pub fn nullable_exact() -> u8
    ensures { NullableExact }
{
    0
}

// If every name is of use, the FIRST signs of a part of a right side are just those that begin what it yields.
pub fn first_exact() -> u8
    ensures { FirstExact }
{
    0
}

// The computed nullable names are exact: by them a row vanishes just if it is nullable.
pub fn nullable_computed() -> u8
    ensures { NullableComputed }
{
    0
}

// The computed FIRST sets are exact: the mask of a row has just the signs that the row can open with.
pub fn first_computed() -> u8
    ensures { FirstComputed }
{
    0
}

// The search for a useless name is exact: where it finds none every name is of use, and a name that it finds is of none.
pub fn useless_found() -> u8
    ensures { UselessFound }
{
    0
}
