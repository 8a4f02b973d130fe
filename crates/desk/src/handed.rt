// What a call on an open day is handed: the day, its log, a record, and how many counts are lent.
ghost use Rattle.std.specs.Prelude.{◌≡◌};
ghost use Rattle.wire.specs.Outcomes.{checked};
ghost use Rattle.desk.specs.Take.{sizes_fault, day_weighed};
ghost use Rattle.desk.specs.End.{call_fault, row_fault, lent_fault};

use crate::open::{cells_for, check_book};
use crate::state::Day;
use counts::weigh::{Plan, Reasons, weigh};
use daylog::changed::tables_changed;
use daylog::record::{end_good, record_length};
use wire::read::get32;
use wire::refusal::Refusal;

#[derive(Clone, Copy)]
pub(crate) struct Handed<'a> {
    pub(crate) day: Day,
    pub(crate) log: &'a [u8],
    pub(crate) row: &'a [u8],
    pub(crate) len: usize,
}

impl Handed<'_> {
    // The record's length, and the number of counts.
    #[tactic(auto, using(wire::proofs::ChosenLaws::chosen), unfolding(crate::specs::Take::sizes_fault))]
    fn check_sizes(&self) -> Result<(), Refusal>
        ensures { result ≡ checked (sizes_fault self.now.day self.now.row.now self.now.len) }
    {
        let head = self.day.head;
        if self.row.len() != record_length(head.version) {
            return Err(Refusal::Length);
        }
        if self.len < cells_for(head) {
            return Err(Refusal::CountsShort);
        }
        Ok(())
    }

    // A record that is taken, before the counts are looked at.
    pub(crate) fn weigh_day(&self) -> Result<(Plan, Reasons), Refusal>
        ensures { result ≡ day_weighed self.now.day self.now.log.now self.now.row.now self.now.len }
    {
        self.check_sizes()?;
        weigh(self.day.head, self.log, self.row)
    }

    // At the end: the record's length, the number of counts, the tables.
    #[tactic(auto, using(wire::proofs::ChosenLaws::chosen), unfolding(crate::specs::End::call_fault))]
    fn check_call(&self) -> Result<(), Refusal>
        ensures { result ≡ checked (call_fault self.now.day self.now.log.now self.now.row.now self.now.len) }
    {
        self.check_sizes()?;
        if tables_changed(self.day.head, self.log) {
            return Err(Refusal::Changed);
        }
        Ok(())
    }

    // The end record.
    #[tactic(auto, using(wire::proofs::ChosenLaws::chosen), unfolding(crate::specs::End::row_fault))]
    fn check_row(&self) -> Result<(), Refusal>
        ensures { result ≡ checked (row_fault self.now.day self.now.row.now) }
    {
        if !end_good(self.row) {
            return Err(Refusal::Fields);
        }
        if get32(self.row, 4) != self.day.taken {
            return Err(Refusal::OtherNumber);
        }
        Ok(())
    }

    // All that ending is handed: the record, the counts, the tables, the book.
    #[tactic(auto, using(wire::proofs::ChosenLaws::chosen), unfolding(crate::specs::End::lent_fault))]
    pub(crate) fn check_lent(&self, book: &[u8]) -> Result<(), Refusal>
        ensures { result ≡ checked (lent_fault self.now.day self.now.log.now self.now.row.now book.now self.now.len) }
    {
        self.check_call()?;
        self.check_row()?;
        check_book(self.day.head, book)
    }
}
