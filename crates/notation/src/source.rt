// Where a program that reads lines has them from.
ghost use Rattle.std.specs.Prelude.{◌≡◌, Ok, MatchOption, codes};
ghost use Rattle.notation.specs.declared.source.Source.TheVariants.{Help, Input};

use anyhow::anyhow;
use std::fs;

#[derive(Drop)]
pub enum Source {
    // It is asked what it does.
    Help,
    // Standard input.
    Input,
    // The text of a file.
    File(String),
}

impl Source {
    /// What the word behind the program's own name says: none, `--help`, or the path of a file.
    pub fn named(rt: &HostRuntime, program: &str, word: Option<&str>) -> anyhow::Result<Source>
        ensures { MatchOption word.entry (result ≡ Ok Input) (λ w. w.now ≡ codes "--help" → result ≡ Ok Help) }
    {
        let Some(word) = word else {
            return Ok(Source::Input);
        };
        if word == "--help" {
            return Ok(Source::Help);
        }
        match fs::read_to_string(rt, word) {
            Ok(text) => Ok(Source::File(text)),
            Err(_) => {
                eprintln!(rt; "{program}: {word} cannot be read")?;
                Err(anyhow!("a file that cannot be read"))
            }
        }
    }
}
