// A day run by the calls. A refusal is kept: the calls after it are not made.
use crate::build::end_record;
use desk::abandon::abandon;
use desk::end::end;
use desk::open::open;
use desk::state::State;
use desk::take::take;
use places::{MOST_BOOK, MOST_CELLS, MOST_FINDINGS};
use wire::refusal::Refusal;
use wire::write::{put16, put32};

// The state so far, or the first refusal.
pub(crate) type Run = Result<State, Refusal>;

// What a broker lends to the calls, each as long as any call wants it.
#[derive(Drop)]
pub(crate) struct Lent {
    pub(crate) book: [u8; MOST_BOOK],
    pub(crate) counts: [u32; MOST_CELLS],
    pub(crate) findings: [u8; MOST_FINDINGS],
}

impl Lent {
    pub(crate) fn new() -> Lent {
        Lent {
            book: [0; MOST_BOOK],
            counts: [0; MOST_CELLS],
            findings: [0; MOST_FINDINGS],
        }
    }

    pub(crate) fn fresh(&mut self, rulebook: u8) {
        let _ = desk::books::fresh(&mut self.book, u64::from(rulebook));
    }

    // A book of rulebook 1 with a last date, in which group 3 has a total for kind 1 family 0.
    pub(crate) fn past(&mut self, date: u32, total: u16) {
        self.fresh(1);
        put32(&mut self.book, 6, date);
        put16(&mut self.book, 16 + 2 * (2 * 3 * 16), total);
    }

    pub(crate) fn opened(&mut self, log: &[u8]) -> Run {
        open(State::Closed, log, &self.book, &mut self.counts)
    }

    // The same record so many times.
    pub(crate) fn taken(&mut self, run: Run, log: &[u8], row: &[u8], times: u32) -> Run {
        let mut state = run?;
        for _ in 0..times {
            let (next, _) = take(state, log, row, &mut self.counts)?;
            state = next;
        }
        Ok(state)
    }

    // The day ended, after so many records: the number of findings.
    pub(crate) fn ended(&mut self, run: Run, log: &[u8], number: u32) -> Result<usize, Refusal> {
        let state = run?;
        let row = end_record(number);
        let (_, found) = end(
            state,
            log,
            &row,
            &mut self.book,
            &self.counts,
            &mut self.findings,
        )?;
        Ok(found)
    }
}

// The day abandoned.
pub(crate) fn abandoned(run: Run) -> Run {
    abandon(run?)
}
