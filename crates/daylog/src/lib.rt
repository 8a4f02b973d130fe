// The day log: the header before its tables, the records, and who sent them.
#![tactic(auto)]

pub mod broker;
pub mod changed;
pub mod header;
pub mod record;
