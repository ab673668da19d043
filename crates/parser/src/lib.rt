// Runs of an LR(1) parser: what is so of them whatever finds their moves, and of the parser that finds its moves by item sets.
#![tactic(auto)]

pub mod advance;
pub mod check;
pub mod config;
pub mod next;
mod run;

ghost use Rattle.parser.specs.Statements.{RunsAreReadings, RunsAreOneWay, RunsDoNotRepeat, StackIsBounded, MovesAreBounded};
ghost use Rattle.parser.specs.Statements.{ShiftedBeginsAText, WrongPlaceIsFirst, TextsAreRead, NextSignsAreMoves, NextSignsAreKnown};
ghost use Rattle.parser.specs.DriveStatements.{CheckIsExact, ItemsAreKept, NextIsExact, TellingIsTheReading};

/// Runs accept the texts, and what they reduce, backwards, are the readings.
pub fn runs_are_readings() -> u8
    ensures { RunsAreReadings }
{
    0
}

/// Every run is the beginning of a run that gets stuck.
pub fn runs_are_one_way() -> u8
    ensures { RunsAreOneWay }
{
    0
}

/// No run comes back to where it was.
pub fn runs_do_not_repeat() -> u8
    ensures { RunsDoNotRepeat }
{
    0
}

/// The stack is bounded by what was shifted.
pub fn stack_is_bounded() -> u8
    ensures { StackIsBounded }
{
    0
}

/// The moves are bounded by the length of the text.
pub fn moves_are_bounded() -> u8
    ensures { MovesAreBounded }
{
    0
}

/// What was shifted begins a text.
pub fn shifted_begins_a_text() -> u8
    ensures { ShiftedBeginsAText }
{
    0
}

/// Where a run is stuck the text is read, or first wrong.
pub fn wrong_place_is_first() -> u8
    ensures { WrongPlaceIsFirst }
{
    0
}

/// By a test for moves every text has a run that is stuck.
pub fn texts_are_read() -> u8
    ensures { TextsAreRead }
{
    0
}

/// What may come next are the signs with which there is a move.
pub fn next_signs_are_moves() -> u8
    ensures { NextSignsAreMoves }
{
    0
}

/// By a test for moves it is known what may come next after a text.
pub fn next_signs_are_known() -> u8
    ensures { NextSignsAreKnown }
{
    0
}

/// The silent run of the parser that is driven by item sets accepts the texts, and says of every other row where it is first wrong.
pub fn check_is_exact() -> u8
    ensures { CheckIsExact }
{
    0
}

/// The run right behind the last sign of a text tells what may come next, and says of what begins no text where it is first wrong.
pub fn next_is_exact() -> u8
    ensures { NextIsExact }
{
    0
}

/// The rules that it tells of a text one by one are the text's reading.
pub fn telling_is_the_reading() -> u8
    ensures { TellingIsTheReading }
{
    0
}

/// Between two rules the item set need not be remembered.
pub fn items_are_kept() -> u8
    ensures { ItemsAreKept }
{
    0
}
