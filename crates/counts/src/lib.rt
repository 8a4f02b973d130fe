// What a record counts for, and the counts that it raises.
#![tactic(auto)]

pub mod cells;
pub mod weigh;
