// The state that the caller keeps. A call that moves it answers the next one; where it refuses, the state stays.
use daylog::header::Header;

// An open day: the whole header as numbers, and the records taken.
#[derive(Clone, Copy)]
pub struct Day {
    pub head: Header,
    pub taken: u32,
}

// Of the shape of an Option, and no plainer as one: demands and specs/ name `Closed` and `Open`, and where `end` and
// `abandon` answer `Ok(State::Closed)` an `Ok(None)` would say less.
#[derive(Clone, Copy)]
pub enum State {
    Closed,
    Open(Day),
}
