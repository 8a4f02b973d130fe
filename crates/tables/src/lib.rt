// A day's tables: the contracts and the accounts. Each is judged, and searched, as its own part of a lent slice.
#![tactic(auto)]

pub mod accounts;
pub mod contracts;
