// What the exchanges' texts say, with no bytes at all: 1 is DCE (003), 2 is CFFEX government bond futures (004).
// A code that the rulebook does not have never counts: it is not large, never enough, on no ladder, without sanction.
#![tactic(auto)]

pub mod codes;
pub mod kinds;
pub mod ladder;
pub mod limit;
pub mod measure;
pub mod text;
