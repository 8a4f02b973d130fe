// The words that our programs read and write: lines that are made, the codes in them, and numbers that are asked for.
#![tactic(auto)]

pub mod asked;
pub mod codes;
pub mod line;
pub mod number;
