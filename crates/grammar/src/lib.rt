// Grammars: what comes of them, how they are spelled, and their places by number.
#![tactic(auto)]

pub mod analysis;
pub mod prepared;
pub mod rows;
pub mod spelling;
pub mod statements;
pub mod symbol;
pub mod table;
