// Opening a day.
ghost use Rattle.std.specs.Prelude.{◌≡◌, ◌++◌, ◌≤◌, length, drop, replicate};
ghost use Rattle.wire.specs.Outcomes.{checked};
ghost use Rattle.book.specs.Fits.{book_fault};
ghost use Rattle.places.specs.Places.{cells};
ghost use Rattle.desk.specs.Open.{kinds_for, handed_fault, open_fault, OpenGives};

use crate::state::{Day, State};
use book::fits::check_fits;
use book::sound::shape_of;
use daylog::header::{Header, check_log, header_of};
use places::cells_in;
use rules::kinds::kinds_of;
use wire::refusal::Refusal;

// The day's book: sound, of the day's rulebook, and with an earlier last date.
pub(crate) fn check_book(h: Header, book: &[u8]) -> Result<(), Refusal>
    ensures { result ≡ checked (book_fault h.rulebook h.date book.now) }
{
    check_fits(shape_of(book), h.rulebook, h.date, book)
}

// How many counts the day's rulebook has.
pub(crate) fn cells_for(h: Header) -> usize
    ensures { result ≡ cells (kinds_for h) }
{
    cells_in(kinds_of(h.rulebook as u64))
}

// The refusals of opening where no day is open, in their order.
#[tactic(auto, using(crate::proofs::HandedLaws::opening), unfolding(crate::specs::Open::handed_fault))]
fn check_handed(log: &[u8], book: &[u8], len: usize) -> Result<(), Refusal>
    ensures { result ≡ checked (handed_fault log.now book.now len) }
{
    check_log(log)?;
    let head = header_of(log);
    check_book(head, book)?;
    if len < cells_for(head) {
        return Err(Refusal::CountsShort);
    }
    Ok(())
}

// Whether an opening with so many counts is refused: asked, and nothing written.
#[tactic(auto, using(wire::proofs::ChosenLaws::chosen), unfolding(crate::specs::Open::open_fault))]
pub fn would_open(state: State, log: &[u8], book: &[u8], len: usize) -> Result<(), Refusal>
    ensures { result ≡ checked (open_fault state log.now book.now len) }
{
    let State::Closed = state else {
        return Err(Refusal::WrongState);
    };
    check_handed(log, book, len)
}

fn zero_first(c: &mut [u32], n: usize)
    requires { n ≤ length c.old }
    ensures { c.new ≡ replicate n 0 ++ drop n c.old }
{
    c[..n].fill(0);
}

// Opens a day: zeroes the rulebook's counts and no more. A refusal leaves the counts and the state.
#[tactic(auto, using(wire::proofs::ChosenLaws::chosen), unfolding(crate::specs::Open::zeroed))]
pub fn open(state: State, log: &[u8], book: &[u8], counts: &mut [u32]) -> Result<State, Refusal>
    ensures { OpenGives state log.now book.now counts.old result
        counts.new }
{
    would_open(state, log, book, counts.len())?;
    let head = header_of(log);
    zero_first(counts, cells_for(head));
    Ok(State::Open(Day { head, taken: 0 }))
}
