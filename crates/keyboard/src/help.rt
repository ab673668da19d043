// What the program says of itself.
pub const USAGE: &str =
    "keyboard: reads grammars and texts, a line each, and prints how each text is read

usage: keyboard [FILE]      without a file, standard input is read
";

pub const LINES: &str =
    "sum = sum + one   a rule; a word that is before some = is a name, every other word a sign
it =              a rule with nothing on its right side
x + x             a text of signs, to be read as what the first rule is for
:read x + x       the same; a text may be empty here
:next x +         asks which signs may come behind these
:rules            the rules, with their numbers
:clear            away with all rules
:help             these lines
:quit             ends";
