// Grammars and texts in words: rules as lines, the commands that spell them, and answers in words again.
#![tactic(auto)]

pub mod fault;
pub mod lexicon;
pub mod rules;
pub mod said;
pub mod shown;
pub mod source;
#[cfg(test)]
mod tests;
