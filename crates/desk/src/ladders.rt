// Which contract, if any, reaches each ladder's number.
ghost use Rattle.std.specs.Prelude.{◌≡◌, ◌≤◌, ◌<◌, length};
ghost use Rattle.rules.specs.Kinds.{kinds_of};
ghost use Rattle.tables.specs.Entries.{entries};
ghost use Rattle.places.specs.Places.{ladders};
ghost use Rattle.desk.specs.Way.{families_in, place_at, places_in};

use crate::judging::Judging;
use crate::lowest::LowestPlaces;
use places::{MOST_LADDERS, kind_at, ladders_in};
use rules::kinds::kinds_of;
use rules::ladder::family_of;
use rules::measure::{Times, enough_of, is_reached};
use rules::text::Text;
use tables::contracts::contract_at;
use wire::fill::fill_bytes;

// Each contract's family, by its place, which is what `fill_bytes` hands over. positions has a twin but for the reader:
// one function for both would take it as a closure, and promise of its runs what `fill_bytes` promises already.
pub(crate) fn fill_families(text: Text, contracts: &[u8], fams: &mut [u8])
    requires { length fams.old ≡ entries contracts.now }
    ensures { fams.new ≡ families_in text contracts.now }
{
    fill_bytes(fams, |k| {
        let e = contract_at(contracts, k);
        family_of(text, e.sort, e.product)
    });
}

impl Judging<'_> {
    // Goes up the contracts of the ladder's family, and stops at the first that reaches the number. Where none does it
    // is the number of contracts, as `lowest` of specs/Offences has it: the byte that is kept. The ladder is a number,
    // as in verdict: a type for it would hold its kinds. By a loop: over 32 contracts `find` takes a
    // third more instructions.
    fn place_at(&self, ladder: usize) -> usize
        requires { ladder < ladders (kinds_of self.now.text.rulebook) }
        ensures { (result ≡ place_at self.now.text (kinds_of self.now.text.rulebook) self.now.fams.now
            self.now.counts.now ladder) × (result ≤ length self.now.fams.now) }
    {
        let kinds = kinds_of(self.text.rulebook as u64);
        let number = enough_of(self.text, kind_at(kinds, ladder));
        let family = (ladder % 16) as u8;
        let from = ladder / 16 * 32;
        let n = self.fams.len();
        for c in 0..n {
            if (self.fams[c] == family) & is_reached(Times(self.counts[from + c]), number) {
                return c;
            }
        }
        n
    }

    // Each ladder's lowest place: every ladder is judged once.
    fn fill_places(&self, places: &mut [u8])
        requires { length places.old ≡ ladders (kinds_of self.now.text.rulebook) }
        ensures { places.new ≡ places_in self.now.text (kinds_of self.now.text.rulebook) self.now.fams.now
            self.now.counts.now }
    {
        fill_bytes(places, |l| self.place_at(l) as u8);
    }

    // The same, with room of its own.
    #[tactic(auto, using(crate::proofs::LowestLaws::within_most), unfolding(rules::specs::Kinds::most_kinds))]
    pub(crate) fn lowest_places(&self) -> LowestPlaces
        ensures { result ≡ places_in self.now.text (kinds_of self.now.text.rulebook) self.now.fams.now
            self.now.counts.now }
    {
        let used = ladders_in(kinds_of(self.text.rulebook as u64));
        let mut all = [0u8; MOST_LADDERS];
        self.fill_places(&mut all[..used]);
        LowestPlaces { all, used }
    }
}
