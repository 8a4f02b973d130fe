// From each ladder's lowest place to the day's findings and the book after the day. It knows no records and no cells.
#![tactic(auto)]

pub mod count;
mod findings;
pub mod ruling;
pub mod settle;
mod totals;
