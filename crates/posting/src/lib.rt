// What is written in a book: a fresh one, its head, and a group's totals raised by a day.
#![tactic(auto)]

pub mod fresh;
pub mod head;
pub mod raise;
