// A clerk's office: what comes in, the book's file, the lines that go out, and what is said where something fails.
// Each clerk's program hands in its own name, its book's file and its heading's mark. No contract can say what is in a
// file or on a stream; what is said here is what is certain all the same.
#![tactic(auto)]

pub mod clerk;
pub mod close;
pub mod input;
pub mod keep;
pub mod lines;
mod print;
pub mod said;
