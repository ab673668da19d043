// Rules, and which of their words are names.
ghost use Rattle.std.specs.Prelude.{◌≡◌, ◌+◌, true, [], is_ok, IfOk, length, vec_len};
ghost use Rattle.grammar.specs.Grammar.{every};
ghost use Rattle.grammar.specs.Spelling.{byte_ok};
ghost use Rattle.notation.specs.Lookups.{Added, Finds};

use crate::fault::Fault;
use crate::lexicon::Words;
use std::alloc::Global;

// The rules that a grammar may have besides the first, which is made up, and the symbols on their right sides together.
pub(crate) const RULES: usize = 63;

const SYMBOLS: usize = 127;

const NAMES: usize = 31;

pub(crate) const SIGNS: u8 = 24;

// A rule over the numbers of words.
#[derive(Drop)]
pub struct Rule {
    pub left: usize,
    pub right: Vec<usize>,
}

#[derive(Drop)]
pub struct Notation {
    pub words: Words,
    pub rules: Vec<Rule>,
    // The words on left sides, each once.
    names: Vec<usize>,
    // How many symbols all right sides have together.
    symbols: usize,
}

// The only word of a piece of text.
fn only_word(text: &str) -> Option<&str> {
    let mut words = text.split_whitespace();
    match (words.next(), words.next()) {
        (Some(word), None) => Some(word),
        _ => None,
    }
}

// The left side of a line that is a rule, and its right side.
fn sides(line: &str) -> Result<(&str, &str), Fault> {
    let (before, behind) = line.split_once('=').ok_or(Fault::LeftSide)?;
    let left = only_word(before).ok_or(Fault::LeftSide)?;
    if behind.contains('=') {
        return Err(Fault::SecondEquals);
    }
    Ok((left, behind))
}

impl Notation {
    pub fn new(heap: Global) -> Notation
        ensures { result.rules.items ≡ [] }
    {
        Notation {
            words: Words::new(heap),
            rules: Vec::new(heap),
            names: Vec::new(heap),
            symbols: 0,
        }
    }

    // The number of a name among the names, from 0 on.
    pub fn place_of_name(&self, word: usize) -> Option<usize>
        ensures { Finds 0 self.now.names.items word result }
    {
        // a row and no set: there are 31 at the most, and a set of so few costs more than it saves
        self.names.iter().position(|name| *name == word)
    }

    pub fn is_name(&self, word: usize) -> bool {
        self.place_of_name(word).is_some()
    }

    // The word of a name by its number, which is 1 for the first; 0 is the beginning, which texts of the first name are of.
    pub fn word_of_name(&self, number: usize) -> &str {
        self.names
            .get(number.saturating_sub(1))
            .map_or("?", |word| self.words.word(*word))
    }

    fn has_name(&self, word: &str) -> bool {
        self.words
            .find(word)
            .is_some_and(|number| self.is_name(number))
    }

    // Whether a rule for this word with so many symbols would still fit.
    fn room(&self, left: &str, symbols: usize) -> Result<(), Fault> {
        if self.rules.len() >= RULES {
            return Err(Fault::Rules);
        }
        if self.symbols.saturating_add(symbols) > SYMBOLS {
            return Err(Fault::Symbols);
        }
        if self.names.len() >= NAMES && !self.has_name(left) {
            return Err(Fault::Names);
        }
        Ok(())
    }

    fn enter_name(&mut self, word: usize) -> Result<(), Fault>
        ensures { self.new.rules ≡ self.old.rules }
    {
        if !self.is_name(word) {
            self.names.push(word)?;
        }
        Ok(())
    }

    fn enter_all(&mut self, heap: Global, text: &str) -> Result<Vec<usize>, Fault>
        ensures { self.new.rules ≡ self.old.rules }
    {
        let mut numbers = Vec::new(heap);
        for word in text.split_whitespace() {
            numbers.push(self.words.enter(heap, word)?)?;
        }
        Ok(numbers)
    }

    // The rule of a line, whose words are entered.
    fn entered(&mut self, heap: Global, line: &str) -> Result<Rule, Fault>
        ensures { self.new.rules ≡ self.old.rules }
    {
        let (left, behind) = sides(line)?;
        let symbols = behind.split_whitespace().count();
        self.room(left, symbols)?;
        let left = self.words.enter(heap, left)?;
        let right = self.enter_all(heap, behind)?;
        self.enter_name(left)?;
        self.symbols = self.symbols.saturating_add(symbols);
        Ok(Rule { left, right })
    }

    // A line with = is a rule, which is put behind the others. The rules that were there stay.
    pub fn add(&mut self, heap: Global, line: &str) -> Result<(), Fault>
        ensures { Added self.old.rules.items (is_ok result) self.new.rules.items }
    {
        let rule = self.entered(heap, line)?;
        self.rules.push(rule)?;
        Ok(())
    }

    // For each word the byte that spells it: names count from 33 on, signs from 0 on.
    pub fn codes(&self, heap: Global) -> Result<Vec<u8>, Fault>
        ensures { IfOk result (λ v. (vec_len v ≡ length self.now.words.all.keys) × (every byte_ok v.items ≡ true)) }
    {
        let mut codes = Vec::new(heap);
        let mut signs = 0..SIGNS;
        for word in 0..self.words.len() {
            let code = match self.place_of_name(word) {
                Some(place) => name_code(place)?,
                None => signs.next().ok_or(Fault::Signs)?,
            };
            codes.push(code)?;
        }
        Ok(codes)
    }
}

// The byte of the name at a place among the names.
fn name_code(place: usize) -> Result<u8, Fault>
    ensures { IfOk result (λ b. (b ≡ 33 + place) × (byte_ok b ≡ true)) }
{
    if place >= NAMES {
        return Err(Fault::Names);
    }
    // the one place where a name becomes its byte
    Ok(33 + place as u8)
}
