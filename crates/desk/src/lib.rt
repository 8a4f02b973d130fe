// The desk's calls, and the same questions asked without writing. The caller keeps the state, and lends the tables,
// the book, the counts and the findings.
#![tactic(auto)]

pub mod abandon;
pub mod books;
mod closing;
pub mod end;
mod handed;
mod judging;
mod ladders;
mod lowest;
pub mod open;
pub mod state;
pub mod take;
mod verdicts;
