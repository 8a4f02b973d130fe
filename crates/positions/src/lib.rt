// Positions over the limit: a position log judged on a book of its own. It shares the desk's rooms and knows no
// record, count or call of the desk.
#![tactic(auto)]

pub mod books;
pub mod contracts;
pub mod judge;
mod judging;
pub mod log;
mod offences;
pub mod records;
mod sums;
