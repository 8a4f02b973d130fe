// Why a script ends before its last step is done.
use std::io;

#[derive(Clone, Copy)]
pub(crate) enum Stop {
    // A step breaks the rules.
    BadScript,
    // A line did not go out.
    Unprinted(io::Error),
}

impl From<io::Error> for Stop {
    fn from(why: io::Error) -> Stop {
        Stop::Unprinted(why)
    }
}
