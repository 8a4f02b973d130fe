// Files and streams whole: what comes or goes in drops, or is cut off by a signal, is gone on with. Of a reader or a
// writer whose bytes are known the contracts say which came or went. Of the system's they cannot; what is said of those
// is what is certain all the same.
#![tactic(auto)]

pub mod beside;
pub mod input;
mod known;
pub mod names;
pub mod output;
pub mod said;

// How often a call that a signal cut off is made again before it counts as failed.
const TRIES: u32 = 1000;

// The number of the system's error for what it cannot do as it is asked: a name that cannot be one, a folder's flush.
const EINVAL: i32 = 22;
