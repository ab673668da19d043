// The bytes of commands.
ghost use Rattle.std.specs.Prelude.{◌≡◌, ◌<◌, ◌∷◌, ◌++◌, map, IfOk, OnOk};
ghost use Rattle.grammar.specs.Spelling.{grammar_spelled};
ghost use Rattle.notation.specs.Said.{TextSaid, code_of, grammar_meant, load_said, rule_said};
ghost use Rattle.std.specs.List.{flat_map};

use crate::fault::Fault;
use crate::rules::{Notation, Rule, SIGNS};
use std::alloc::Global;
use words::rows::at_or;

// The signs that a text may have.
const LENGTH: usize = 4096;

// The first byte of the command that loads.
const LOAD: u8 = 1;

// What a command is.
#[derive(Clone, Copy, Debug, PartialEq, Eq)]
pub enum Kind {
    Load,
    Read,
    Next,
}

// The first byte of the command.
impl From<Kind> for u8 {
    ghost use Rattle.std.specs.Prelude.{◌≡◌};
    ghost use Rattle.notation.specs.Kinds.{kind_code};

    ghost from_gives = { λ kind byte. byte ≡ kind_code kind };

    fn from(kind: Kind) -> u8 {
        match kind {
            Kind::Load => LOAD,
            Kind::Read => 2,
            Kind::Next => 3,
        }
    }
}

// How many there are, in a byte.
fn byte(count: usize) -> Result<u8, Fault>
    ensures { IfOk result (λ b. b ≡ count) }
{
    match u8::try_from(count) {
        Ok(byte @ 0..=127) => Ok(byte),
        _ => Err(Fault::Symbols),
    }
}

// The byte of a word.
pub fn code(codes: &[u8], word: usize) -> u8
    ensures { result ≡ code_of codes.now word }
{
    at_or(codes, word, 0)
}

// A notation, and for each of its words the byte that spells it: computed from the words, and lent with them.
#[derive(Clone, Copy)]
pub struct Spelled<'a> {
    pub notation: &'a Notation,
    pub codes: &'a [u8],
}

impl Spelled<'_> {
    fn say_rule(&self, bytes: &mut Vec<u8>, rule: &Rule) -> Result<(), Fault>
        ensures { OnOk result (bytes.new.items ≡ bytes.old.items ++ rule_said self.now.codes.now rule.now) }
    {
        // a left side is said by the name's number, and not by its byte
        let name = code(self.codes, rule.left).saturating_sub(32);
        let count = byte(rule.right.len())?;
        bytes.extend_from_slice(&[name, count])?;
        bytes.extend(rule.right.iter().map(|word| code(self.codes, *word)))?;
        Ok(())
    }

    fn say_rules(&self, bytes: &mut Vec<u8>, rules: &[Rule]) -> Result<(), Fault>
        ensures { OnOk result (bytes.new.items ≡ bytes.old.items ++ flat_map (rule_said self.now.codes.now) rules.now) }
    {
        for rule in rules {
            self.say_rule(bytes, rule)?;
        }
        Ok(())
    }

    // The command that loads the grammar: a first rule, for the beginning, has the first name on its right side.
    pub fn load(&self, heap: Global) -> Result<Vec<u8>, Fault>
        ensures bytes { IfOk result (λ v. v.items ≡ load_said self.now.codes.now self.now.notation.now.rules.items) }
        ensures meaning { IfOk result (λ v. v.items ≡ 1 ∷ grammar_spelled (grammar_meant self.now.codes.now self.now.notation.now.rules.items)) }
    {
        let count = self.notation.rules.len();
        if count == 0 {
            return Err(Fault::NoRules);
        }
        let mut bytes = Vec::from_slice(heap, &[LOAD, byte(count + 1)?, 0, 1, 33])?;
        self.say_rules(&mut bytes, self.notation.rules.as_slice())?;
        Ok(bytes)
    }

    // The sign that a word of a text is.
    fn sign(&self, heap: Global, word: &str) -> Result<u8, Fault>
        ensures { IfOk result (λ b. b < 24) }
    {
        let Some(number) = self.notation.words.find(word) else {
            return Err(Fault::Unknown(String::from_str(heap, word)?));
        };
        let sign = code(self.codes, number);
        if sign >= SIGNS {
            return Err(Fault::Name(String::from_str(heap, word)?));
        }
        Ok(sign)
    }

    // A command of this kind, and the signs of a text behind it. Any byte may be the kind: a narrower type would ask more of callers.
    pub fn text(&self, heap: Global, kind: u8, line: &str) -> Result<Vec<u8>, Fault>
        ensures { IfOk result (λ v. TextSaid kind v.items) }
    {
        let mut bytes = Vec::from_slice(heap, &[kind])?;
        for word in line.split_whitespace() {
            if bytes.len() > LENGTH {
                return Err(Fault::Length);
            }
            bytes.push(self.sign(heap, word)?)?;
        }
        Ok(bytes)
    }
}
