// Which contract, if any, puts each group over its limit in each family.
ghost use Rattle.std.specs.Prelude.{◌≡◌, ◌*◌, ◌≤◌, ◌<◌, length};
ghost use Rattle.rules.specs.declared.kinds.Kinds.TheVariants.{One};
ghost use Rattle.places.specs.Places.{ladders};
ghost use Rattle.positions.specs.LimitEntries.{limit_count};
ghost use Rattle.positions.specs.Offences.{over_either};
ghost use Rattle.positions.specs.Way.{families_in, ids_in};
ghost use Rattle.positions.specs.Judging.{over_by, place_by, places_by};

use crate::contracts::{Limited, limit_of};
use crate::judging::Judging;
use rules::ladder::family_of;
use rules::limit::{Held, is_over};
use rules::text::Text;
use wire::fill::{fill_bytes, fill_pairs};
use wire::read::get16;

// The family of each contract, at its place. It and `fill_ids` stand in desk too but for the entry's reader: one
// function over both would take the reader as a closure, and say of its runs what `fill_bytes` says already.
pub(crate) fn fill_families(text: Text, contracts: &[u8], fams: &mut [u8])
    requires { length fams.old ≡ limit_count contracts.now }
    ensures { fams.new ≡ families_in text contracts.now }
{
    let entries = contracts.as_chunks::<16>().0;
    fill_bytes(fams, |k| {
        let e = limit_of(&entries[k]);
        family_of(text, e.sort, e.product)
    });
}

// The contracts' ids, 16 bits each.
pub(crate) fn fill_ids(contracts: &[u8], ids: &mut [u8])
    requires { length ids.old ≡ 2 * limit_count contracts.now }
    ensures { ids.new ≡ ids_in contracts.now }
{
    let entries = contracts.as_chunks::<16>().0;
    fill_pairs(ids, |k| get16(&entries[k], 0));
}

// Whether what is held on one side or on the other is over a contract's limit.
#[tactic(auto, unfolding(crate::specs::Offences::over_either))]
fn is_over_either(text: Text, e: Limited, long: u64, short: u64) -> bool
    ensures { result ≡ over_either text e long short }
{
    let today = e.today;
    let previous = e.previous;
    is_over(text, Held(long), today, previous) | is_over(text, Held(short), today, previous)
}

impl Judging<'_> {
    // Whether the contract at place c is of the ladder's family, and its group over the limit there.
    #[tactic(auto, using(crate::proofs::OverLaws::over), unfolding(rules::specs::Kinds::kinds_in))]
    fn is_over_at(&self, ladder: usize, c: usize) -> bool
        requires { (c < length self.now.fams.now) × (ladder < ladders One) }
        ensures { result ≡ over_by self.now ladder c }
    {
        if self.fams[c] != (ladder % 16) as u8 {
            return false;
        }
        let entries = self.contracts.as_chunks::<16>().0;
        let cell = ladder / 16 * 32 + c;
        is_over_either(
            self.text,
            limit_of(&entries[c]),
            self.sums.longs[cell],
            self.sums.shorts[cell],
        )
    }

    // The ladder's lowest place: of the first contract of its family on which its group, of two accounts or more, is
    // over the limit. Where there is none, the number of contracts, as `place_at` of specs/Way has it: the byte that
    // is kept. The ladder's bound is asked here and in `is_over_at`: as in verdict, it is a number.
    #[tactic(auto, unfolding(rules::specs::Kinds::kinds_in))]
    fn place_at(&self, ladder: usize) -> usize
        requires { ladder < ladders One }
        ensures { (result ≡ place_by self.now ladder) × (result ≤ length self.now.fams.now) }
    {
        let n = self.fams.len();
        let many = 2 <= self.sizes[ladder / 16 + 1];
        if !many {
            return n;
        }
        (0..n).find(|c| self.is_over_at(ladder, *c)).unwrap_or(n)
    }

    // Each ladder's lowest place: every ladder of a group of two accounts or more is judged once.
    pub(crate) fn fill_places(&self, places: &mut [u8])
        requires { length places.old ≡ ladders One }
        ensures { places.new ≡ places_by self.now }
    {
        fill_bytes(places, |l| self.place_at(l) as u8);
    }
}
