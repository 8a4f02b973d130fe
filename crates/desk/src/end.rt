// Ending a day.
ghost use Rattle.std.specs.Prelude.{◌≡◌, length};
ghost use Rattle.rules.specs.Kinds.{kinds_of};
ghost use Rattle.daylog.specs.Header.{tables_of};
ghost use Rattle.places.specs.Places.{book_size};
ghost use Rattle.desk.specs.End.{counts_fault, day_found, would_end};
ghost use Rattle.desk.specs.End.{DayEnds, EndGives};

use crate::closing::Closing;
use crate::handed::Handed;
use crate::state::State;
use rules::kinds::kinds_of;
use verdict::count::count_found;
use wire::refusal::Refusal;

impl Closing<'_> {
    // What the day would find, or the refusals of the cells and of the room.
    fn find_with(&self, room: usize) -> Result<usize, Refusal>
        ensures { result ≡ day_found
            (counts_fault self.now.day (tables_of self.now.log.now) self.now.counts.now room)
            (tables_of self.now.log.now) self.now.counts.now }
    {
        let lowest = self.judge_cells()?;
        let head = self.day.head;
        let found = count_found(
            kinds_of(head.rulebook as u64),
            lowest.as_bytes(),
            head.contracts as usize,
        );
        if room < 8 * found {
            return Err(Refusal::FindingsShort);
        }
        Ok(found)
    }

    // The refusals of the cells and of the room, or the day written. It asks for the book's length, which `check_lent`
    // tests: `counts_fault` has no number for a book of another length.
    fn end_with(&self, book: &mut [u8], out: &mut [u8]) -> Result<(State, usize), Refusal>
        requires { length book.old ≡ book_size (kinds_of self.now.day.head.rulebook) }
        ensures { DayEnds (counts_fault self.now.day (tables_of self.now.log.now) self.now.counts.now
            (length out.old)) self.now.day.head.date (tables_of self.now.log.now) book.old
            self.now.counts.now out.old result book.new out.new }
    {
        let lowest = self.judge_cells()?;
        let found = self.settle_day(&lowest, book, out)?;
        Ok((State::Closed, found))
    }
}

// How many findings ending the day would give: asked, and nothing written.
#[tactic(auto, using(crate::proofs::EndLaws::asking), unfolding(crate::specs::End::end_fault))]
pub fn would_end(
    state: State,
    log: &[u8],
    row: &[u8],
    book: &[u8],
    counts: &[u32],
    room: usize,
) -> Result<usize, Refusal>
    ensures { result ≡ would_end state log.now row.now book.now
        counts.now room }
{
    let State::Open(day) = state else {
        return Err(Refusal::WrongState);
    };
    let len = counts.len();
    let handed = Handed { day, log, row, len };
    handed.check_lent(book)?;
    let closing = Closing { day, log, counts };
    closing.find_with(room)
}

// Ends the day: writes the book and the findings, closes, and answers how many findings there are. A refusal leaves
// the state, the book and the findings.
#[tactic(auto, using(wire::proofs::ChosenLaws::chosen), unfolding(crate::specs::End::end_fault))]
pub fn end(
    state: State,
    log: &[u8],
    row: &[u8],
    book: &mut [u8],
    counts: &[u32],
    out: &mut [u8],
) -> Result<(State, usize), Refusal>
    ensures { EndGives state log.now row.now book.old counts.now
        out.old result book.new out.new }
{
    let State::Open(day) = state else {
        return Err(Refusal::WrongState);
    };
    let len = counts.len();
    let handed = Handed { day, log, row, len };
    handed.check_lent(book)?;
    let closing = Closing { day, log, counts };
    closing.end_with(book, out)
}
