// Item sets as a matter of forms, and reading by a table of them: what is so, whatever makes the table.
#![tactic(auto)]

ghost use Rattle.tables.specs.Statements.{StandsIsValid, SetsOnce, AtLeastSo, AlikeGoesOn, FirstIsAlone};
ghost use Rattle.tables.specs.Statements.{TableReads, TableRefuses, GoesOnce, TableIsMade};
ghost use Rattle.tables.specs.Smallest.{SmallestSo};
ghost use Rattle.tables.specs.Statements.{TableCheckIsExact, TableTellingIsTheReading, TableStackIsBounded};

/// The items that stand behind a row, in forms, are those that are valid behind it.
pub fn stands_is_valid() -> u8
    ensures { StandsIsValid }
{
    0
}

/// How many item sets there are is one number.
pub fn sets_once() -> u8
    ensures { SetsOnce }
{
    0
}

/// There are at least so many item sets just if their number is not less.
pub fn at_least_so() -> u8
    ensures { AtLeastSo }
{
    0
}

/// Rows that are alike stay so behind one more symbol.
pub fn alike_goes_on() -> u8
    ensures { AlikeGoesOn }
{
    0
}

/// The empty row is viable, and alike to no other.
pub fn first_is_alone() -> u8
    ensures { FirstIsAlone }
{
    0
}

/// By a right table a text is read in as many steps as it has signs and its reading rules, and one.
pub fn table_reads() -> u8
    ensures { TableReads }
{
    0
}

/// By a right table what is no text is refused at its first wrong place.
pub fn table_refuses() -> u8
    ensures { TableRefuses }
{
    0
}

/// Reading by a table goes in one way, whatever the table.
pub fn goes_once() -> u8
    ensures { GoesOnce }
{
    0
}

/// With steps enough, a silent run by a right table accepts the texts, and says of every other row where it is first wrong.
pub fn table_check_is_exact() -> u8
    ensures { TableCheckIsExact }
{
    0
}

/// The rules that are told by a right table one by one are the text's reading.
pub fn table_telling_is_the_reading() -> u8
    ensures { TableTellingIsTheReading }
{
    0
}

/// By a right table the sets are never more than the symbols of a stack, and one.
pub fn table_stack_is_bounded() -> u8
    ensures { TableStackIsBounded }
{
    0
}

/// The table that is made is whole and right, if there are no more item sets than the limit; and if it is given up there are more.
pub fn table_is_made() -> u8
    ensures { TableIsMade }
{
    0
}

/// The grammar whose one rule is a sign has two item sets, and its table reads its text in three steps.
pub fn smallest_so() -> u8
    ensures { SmallestSo }
{
    0
}
