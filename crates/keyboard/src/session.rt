// A session: the rules so far, the machine's memory, and an answer for each line.
use crate::help::LINES;
use notation::fault::Fault;
use notation::rules::Notation;
use notation::said::{Kind, Spelled};
use notation::shown;
use reader::refusal::Refusal;
use reader::{Told, WORDS};
use std::alloc::{AllocError, Global};

// What the machine does with one command: all numbers that it shows, and why it refuses it.
#[derive(Drop)]
struct Answer {
    shown: Vec<u64>,
    refused: Option<Refusal>,
}

#[derive(Drop)]
struct Machine {
    memory: Vec<u64>,
    // Whether it has the grammar of the rules as they are. A flag, since the grammar itself lies in the memory.
    loaded: bool,
}

#[derive(Drop)]
pub struct Session {
    notation: Notation,
    machine: Machine,
}

// As console says it: a common function would stand on the reader, and notation does not.
fn refused(heap: Global, refusal: Refusal) -> Result<String, AllocError> {
    format!(in heap; "refused, {}: {refusal}", u64::from(refusal))
}

// Why a grammar is refused, in words.
fn grammar_refused(
    heap: Global,
    spelled: &Spelled,
    refusal: Refusal,
    row: &[u64],
) -> Result<String, AllocError> {
    match (refusal, row) {
        (Refusal::Clash, [due, other, ahead]) => spelled.clash(heap, *due, *other, *ahead),
        (Refusal::Useless, [name]) => spelled.notation.useless(heap, *name),
        _ => refused(heap, refusal),
    }
}

// What the machine says of a text, in words.
fn text_answered(
    heap: Global,
    notation: &Notation,
    asked: Kind,
    line: &str,
    answer: &Answer,
) -> Result<String, Fault> {
    let shown = answer.shown.as_slice();
    let Some(refusal) = answer.refused else {
        return match asked {
            Kind::Next => Ok(shown::row_text(heap, shown)?),
            Kind::Load | Kind::Read => notation.reading(heap, shown),
        };
    };
    match (asked, shown) {
        (Kind::Read, [place]) => Ok(shown::wrong_at(heap, line, *place)?),
        _ => Ok(refused(heap, refusal)?),
    }
}

impl Machine {
    // One command, to its end. What it shows is kept in a row that grows, where `reader::run` has a lent one: a reading may have 2 to the 30 rules.
    fn ask(&mut self, heap: Global, bytes: &[u8]) -> Result<Answer, AllocError> {
        let mut shown = Vec::new(heap);
        let mut out = [0u64; 32];
        // as the machine's entry has it: 0 says the row of bytes, 1 goes on
        let mut kind = 0;
        // That each command ends is the reader's theorem; the bound only shows it here.
        for _ in 0..u64::MAX {
            let refused = match reader::step(&mut self.memory, kind, bytes, &mut out) {
                Told::Shows(n) => {
                    shown.extend(out.iter().copied().take(n as usize))?;
                    kind = 1;
                    continue;
                }
                Told::Done => None,
                Told::No(refusal) => Some(refusal),
            };
            return Ok(Answer { shown, refused });
        }
        Ok(Answer {
            shown,
            refused: Some(Refusal::Sizes),
        })
    }

    // Brings the grammar to the machine where the rules have changed; what is wrong with it comes back in words.
    fn load(&mut self, heap: Global, spelled: &Spelled) -> Result<Option<String>, Fault> {
        if self.loaded {
            return Ok(None);
        }
        let bytes = spelled.load(heap)?;
        let answer = self.ask(heap, &bytes)?;
        let Some(refusal) = answer.refused else {
            self.loaded = true;
            return Ok(None);
        };
        Ok(Some(grammar_refused(heap, spelled, refusal, &answer.shown)?))
    }
}

impl Session {
    pub fn new(heap: Global) -> Result<Session, AllocError> {
        let memory = vec![in heap; 0u64; WORDS]?;
        Ok(Session {
            notation: Notation::new(heap),
            machine: Machine {
                memory,
                loaded: false,
            },
        })
    }

    // A text, and what is asked about it.
    fn text(&mut self, heap: Global, asked: Kind, line: &str) -> Result<String, Fault> {
        if self.notation.rules.is_empty() {
            return Err(Fault::NoRules);
        }
        let codes = self.notation.codes(heap)?;
        let spelled = Spelled {
            notation: &self.notation,
            codes: &codes,
        };
        let bytes = spelled.text(heap, u8::from(asked), line)?;
        if let Some(wrong) = self.machine.load(heap, &spelled)? {
            return Ok(wrong);
        }
        let answer = self.machine.ask(heap, &bytes)?;
        text_answered(heap, &self.notation, asked, line, &answer)
    }

    // A line that begins with a colon.
    fn command(&mut self, heap: Global, line: &str) -> Result<String, Fault> {
        match line.split_once(' ').unwrap_or((line, "")) {
            (":next", text) => self.text(heap, Kind::Next, text),
            (":read", text) => self.text(heap, Kind::Read, text),
            (":rules", "") => Ok(self.notation.all_rules(heap)?),
            (":clear", "") => {
                self.notation = Notation::new(heap);
                self.machine.loaded = false;
                Ok(String::new(heap))
            }
            (":help", "") => Ok(String::from_str(heap, LINES)?),
            _ => Err(Fault::Command(String::from_str(heap, line)?)),
        }
    }

    // The answer to a line, which may be empty.
    pub fn answer(&mut self, heap: Global, line: &str) -> Result<String, Fault> {
        if line.is_empty() {
            return Ok(String::new(heap));
        }
        if line.starts_with(':') {
            return self.command(heap, line);
        }
        if line.contains('=') {
            self.notation.add(heap, line)?;
            self.machine.loaded = false;
            return Ok(String::new(heap));
        }
        self.text(heap, Kind::Read, line)
    }
}
