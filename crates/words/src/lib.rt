// Words of 64 bits, and rows of them: bits, masks, packed bytes, a countdown.
#![tactic(auto)]

pub mod bits;
pub mod countdown;
pub mod packed;
pub mod rounds;
pub mod rows;
