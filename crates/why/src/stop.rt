// Why the telling of a log ends before its last line.
use wire::refusal::Refusal;

#[derive(Clone, Copy)]
pub(crate) enum Stop {
    Refused(Refusal),
    // Standard output did not take a line, and that was said.
    Unwritten,
}

impl From<Refusal> for Stop {
    fn from(refusal: Refusal) -> Stop {
        Stop::Refused(refusal)
    }
}
