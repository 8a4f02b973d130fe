// Numbers of 16, 32 and 64 bits in little-endian bytes, and the refusals by name. specs/ has the words in which all
// our contracts speak of bytes.
#![tactic(auto)]

pub mod fill;
pub mod read;
pub mod refusal;
pub mod write;
