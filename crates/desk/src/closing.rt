// A day at its end whose call is sound: the day, its log and its counts.
ghost use Rattle.std.specs.Prelude.{◌≡◌, ℕ, ◌≤◌, ◌<◌, length, get_or, Ok};
ghost use Rattle.wire.specs.Outcomes.{answered, refused};
ghost use Rattle.rules.specs.Kinds.{kinds_of};
ghost use Rattle.daylog.specs.Header.{header_of};
ghost use Rattle.daylog.specs.GoodLog.{GoodLog};
ghost use Rattle.places.specs.Places.{cells};
ghost use Rattle.desk.specs.End.{cells_good, cells_fault};
ghost use Rattle.desk.specs.Way.{day_places};

use crate::judging::Judging;
use crate::ladders::fill_families;
use crate::lowest::LowestPlaces;
use crate::open::cells_for;
use crate::state::Day;
use daylog::header::{contracts_part, text_of};
use wire::refusal::Refusal;

#[derive(Clone, Copy)]
pub(crate) struct Closing<'a> {
    pub(crate) day: Day,
    pub(crate) log: &'a [u8],
    pub(crate) counts: &'a [u32],
    // A proof that has the struct alone is not told that a lent log's bytes are bytes.
    ghost bytes: { (j : ℕ) → get_or log.now j 0 < 256 },
    ghost own: { day.head ≡ header_of log.now },
    ghost good: { GoodLog day.head log.now },
    ghost enough: { cells (kinds_of day.head.rulebook) ≤ length counts.now },
}

impl Closing<'_> {
    // No cell stands above the number of records taken. All tests with no branch, several cells at once: where none
    // fails, `all` takes nearly twice the instructions.
    fn cells_good(&self) -> bool
        ensures { result ≡ cells_good (kinds_of self.now.day.head.rulebook) self.now.day.taken self.now.counts.now }
    {
        let mut good = true;
        for times in &self.counts[..cells_for(self.day.head)] {
            good = good & (*times <= self.day.taken);
        }
        good
    }

    // The day's lowest places, with room of its own for the contracts' families.
    fn judge(&self) -> LowestPlaces
        ensures { result ≡ day_places self.now.day.head self.now.log.now self.now.counts.now }
    {
        let text = text_of(self.day.head);
        let contracts = contracts_part(self.day.head, self.log);
        let mut room = [0u8; 32];
        let fams = &mut room[..contracts.len() / 8];
        fill_families(text, contracts, fams);
        let judging = Judging {
            text,
            fams,
            counts: self.counts,
        };
        judging.lowest_places()
    }

    // The day judged, or the refusal of a cell.
    #[tactic(auto, using(wire::proofs::ChosenLaws::chosen), unfolding(crate::specs::End::cells_fault))]
    pub(crate) fn judge_cells(&self) -> Result<LowestPlaces, Refusal>
        ensures { result ≡ answered
            (cells_fault (kinds_of self.now.day.head.rulebook) self.now.day.taken self.now.counts.now)
            (Ok (day_places self.now.day.head self.now.log.now self.now.counts.now)) refused }
    {
        if !self.cells_good() {
            return Err(Refusal::Changed);
        }
        Ok(self.judge())
    }
}
