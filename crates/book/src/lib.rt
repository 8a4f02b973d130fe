// The yearly book of any shape, as bytes that the caller lends, read: whether it is sound, whether it fits a day, a
// total asked for.
#![tactic(auto)]

pub mod ask;
pub mod fits;
pub mod shape;
pub mod sound;
