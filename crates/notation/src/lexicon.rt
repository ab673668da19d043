// A table of words, each once, known by its number.
ghost use Rattle.std.specs.Prelude.{◌≡◌, ◌<◌, [], map, take, length, IfOk, Some, string_bytes, codes, slice_index_or};
ghost use Rattle.notation.specs.Lookups.{Finds};

use crate::fault::Fault;
use indexmap::IndexSet;
use std::alloc::Global;

#[derive(Drop)]
pub struct Words {
    all: IndexSet<String>,
}

impl Words {
    pub fn new(heap: Global) -> Words
        ensures { result.all.keys ≡ [] }
    {
        Words {
            all: IndexSet::new(heap),
        }
    }

    pub fn len(&self) -> usize
        ensures { result ≡ length self.now.all.keys }
    {
        self.all.len()
    }

    pub fn find(&self, word: &str) -> Option<usize>
        ensures { Finds [] (map string_bytes self.now.all.keys) word.now result }
    {
        self.all.get_index_of(word)
    }

    // The number of a word, which is put at the end where it is new.
    pub fn enter(&mut self, heap: Global, word: &str) -> Result<usize, Fault>
        ensures kept { take (length self.old.all.keys) self.new.all.keys ≡ self.old.all.keys }
        ensures stands { IfOk result (λ n. Finds [] (map string_bytes self.new.all.keys) word.now (Some n)) }
    {
        // A word that is there needs no memory, and so cannot fail.
        if let Some(number) = self.find(word) {
            return Ok(number);
        }
        let (number, _) = self.all.insert_full(String::from_str(heap, word)?)?;
        Ok(number)
    }

    pub fn word(&self, number: usize) -> &str
        ensures { result.now ≡ slice_index_or (map string_bytes self.now.all.keys) number (codes "?") }
    {
        self.all.get_index(number).map_or("?", |word| word.as_str())
    }
}
