// Answers in words: rules, readings with brackets, and what is wrong with a text or a grammar.
ghost use Rattle.std.specs.Prelude.{◌≡◌, ◌∷◌, ◌++◌, IfOk, string_bytes, codes};
ghost use Rattle.std.specs.Fmt.{decimal};
ghost use Rattle.std.specs.List.{flat_map};

use crate::fault::Fault;
use crate::rules::{Notation, RULES, Rule};
use crate::said::Spelled;
use itertools::Itertools;
use std::alloc::{AllocError, Global};

impl Notation {
    // The rule of a number that the machine tells; 0 is the one that is made up.
    fn rule(&self, number: u64) -> Option<&Rule> {
        // the machine tells no more than a grammar may have, though `rules` may hold more
        if number > RULES as u64 {
            return None;
        }
        self.rules.get(number.checked_sub(1)? as usize)
    }

    pub fn rule_text(&self, heap: Global, rule: &Rule) -> Result<String, AllocError> {
        let mut text = format!(in heap; "{} =", self.words.word(rule.left))?;
        for word in &rule.right {
            write!(text, " {}", self.words.word(*word))?;
        }
        Ok(text)
    }

    // A rule that the machine tells the number of.
    fn told(&self, heap: Global, number: u64) -> Result<String, AllocError> {
        match self.rule(number) {
            Some(rule) => self.rule_text(heap, rule),
            None => format!(in heap; "the text is a {}", self.word_of_name(1)),
        }
    }

    // All rules, a line each, with their numbers.
    pub fn all_rules(&self, heap: Global) -> Result<String, AllocError> {
        let mut text = String::new(heap);
        // a loop, and no chain that is joined: the text of a rule may fail
        for (number, rule) in (1u64..).zip(&self.rules) {
            if number > 1 {
                text.push_str("\n")?;
            }
            write!(text, "{number}: {}", self.rule_text(heap, rule)?)?;
        }
        Ok(text)
    }

    // How many names are on the right side of a rule.
    fn names_in(&self, rule: &Rule) -> usize {
        rule.right
            .iter()
            .filter(|word| self.is_name(**word))
            .count()
    }

    // A rule with brackets round its right side, where for its names these parts stand.
    fn bracket(&self, heap: Global, rule: &Rule, parts: &[String]) -> Result<String, Fault> {
        let mut text = format!(in heap; "{}[", self.words.word(rule.left))?;
        // A loop, and no chain that is joined: where a part is missing, all fails.
        let mut inner = parts.iter();
        let mut gap = "";
        for word in &rule.right {
            let part = if self.is_name(*word) {
                inner.next().ok_or(Fault::Order)?.as_str()
            } else {
                self.words.word(*word)
            };
            write!(text, "{gap}{part}")?;
            gap = " ";
        }
        text.push_str("]")?;
        Ok(text)
    }

    // The last parts of the stack become one, by a rule.
    fn close(&self, heap: Global, stack: &mut Vec<String>, rule: &Rule) -> Result<(), Fault> {
        let below = stack
            .len()
            .checked_sub(self.names_in(rule))
            .ok_or(Fault::Order)?;
        let parts = stack.split_off(below)?;
        stack.push(self.bracket(heap, rule, &parts)?)?;
        Ok(())
    }

    // A reading with brackets, from the numbers of its rules in the order in which they end.
    pub fn reading(&self, heap: Global, rules: &[u64]) -> Result<String, Fault> {
        let mut stack = Vec::new(heap);
        for rule in rules.iter().filter_map(|number| self.rule(*number)) {
            self.close(heap, &mut stack, rule)?;
        }
        stack.pop().ok_or(Fault::Order)
    }

    pub fn useless(&self, heap: Global, name: u64) -> Result<String, AllocError> {
        format!(in heap;
            "{} comes to nothing, or is never reached",
            self.word_of_name(name.min(31) as usize)
        )
    }
}

impl<'a> Spelled<'a> {
    // The word of a sign that the machine tells.
    fn sign_text(&self, sign: u64) -> &'a str {
        let word = self.codes.iter().position(|code| u64::from(*code) == sign);
        word.map_or("the end", |word| self.notation.words.word(word))
    }

    // Two ways on: a rule that has come to its end, and another one, or to go on, which the machine tells as 64.
    // The numbers are those of a row that it shows: a narrower type would ask more of callers.
    pub fn clash(
        &self,
        heap: Global,
        due: u64,
        other: u64,
        ahead: u64,
    ) -> Result<String, AllocError> {
        let before = self.sign_text(ahead);
        let rule = self.notation.told(heap, due)?;
        if other >= 64 {
            return format!(in heap; "before {before} : {rule}, or go on");
        }
        let second = self.notation.told(heap, other)?;
        format!(in heap; "before {before} : {rule}, or {second}")
    }
}

// So many words of a line, side by side.
fn first_words(heap: Global, line: &str, count: usize) -> Result<String, AllocError> {
    line.split_whitespace().take(count).join(heap, " ")
}

// Where a line is no text: the words before the place may begin one, and the word at it may not come.
pub fn wrong_at(heap: Global, line: &str, place: u64) -> Result<String, AllocError> {
    let place = place as usize;
    if let Some(word) = line.split_whitespace().nth(place) {
        let text = first_words(heap, line, place.saturating_add(1))?;
        return format!(in heap; "{text} : no text goes on with {word}");
    }
    let text = first_words(heap, line, place)?;
    if text.is_empty() {
        return String::from_str(heap, "more would have to come");
    }
    format!(in heap; "{text} : more would have to come")
}

// A row that the machine shows, its numbers side by side.
pub fn row_text(heap: Global, row: &[u64]) -> Result<String, AllocError>
    ensures { IfOk result (λ s. string_bytes s ≡ codes "shows" ++ flat_map (λ n. 32 ∷ decimal n) row.now) }
{
    let mut text = String::from_str(heap, "shows")?;
    for number in row {
        write!(text, " {number}")?;
    }
    Ok(text)
}
