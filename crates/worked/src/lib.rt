// The worked examples, a function for each row: its contract is a theorem about what comes of a grammar, in which no parser occurs.
#![tactic(auto)]

ghost use Rattle.worked.specs.Table.{BracketWrong, IfsClash, NextBehindX, OtherUseless, SumRead, SumsClash, SumsReduced};

/// The grammar of sums fits, and every name is of use.
pub fn sums_reduced() -> u8
    ensures { SumsReduced }
{
    0
}

/// `x + ( x )` is read by the rules 3, 2, 3, 2, 4, 1, 0, in the order in which they end.
pub fn sum_read() -> u8
    ensures { SumRead }
{
    0
}

/// `x + )` is no text, and first wrong at place 2.
pub fn bracket_wrong() -> u8
    ensures { BracketWrong }
{
    0
}

/// Behind `x` comes `+`, or the end, and nothing else.
pub fn next_behind_x() -> u8
    ensures { NextBehindX }
{
    0
}

/// `sum = sum + sum` is due before `+`, or one has to go on; `x + x + x` has two readings.
pub fn sums_clash() -> u8
    ensures { SumsClash }
{
    0
}

/// The dangling else: `if = 0 if` is due before 1, or one has to go on; `0 0 3 1 3` has two readings.
pub fn ifs_clash() -> u8
    ensures { IfsClash }
{
    0
}

/// A name whose only rule needs it again is of no use.
pub fn other_useless() -> u8
    ensures { OtherUseless }
{
    0
}
