// The day's findings, 8 bytes each, in the order group, kind, family.
ghost use Rattle.std.specs.Prelude.{◌≡◌, ◌+◌, ◌*◌, ◌≤◌, ◌<◌, length};
ghost use Rattle.wire.specs.Choice.{pick};
ghost use Rattle.wire.specs.Buffers.{put};
ghost use Rattle.places.specs.Places.{ladders};
ghost use Rattle.verdict.specs.Verdict.{verdict_of, offends, found_count, finding, found_at, findings};
ghost use Rattle.verdict.specs.Way.{sanction_for};

use crate::ruling::Ruling;
use places::{group_at, kind_at, ladders_in};
use posting::raise::{is_later_year, next_total, place_in};
use rules::kinds::Kinds;
use rules::ladder::{rung_of, sanction_of};
use wire::read::{get8, get16};
use wire::write::put16;

// A ladder's offence as it is listed.
#[derive(Clone, Copy)]
struct Finding {
    kinds: Kinds,
    ladder: usize,
    sanction: u8,
    total: u16,
    id: u16,
}

impl Finding {
    // The ladder is a number, whose bound is asked here and in `list_one`: a type for it would hold its kinds, and
    // `group_at` and `kind_at` are promised for every number.
    fn put(self, out: &mut [u8], at: usize)
        requires { (at + 8 ≤ length out.old) × (self.ladder < ladders self.kinds) }
        ensures { out.new ≡ put out.old at (finding self.kinds self.ladder self.sanction self.total self.id) }
    {
        let group = group_at(self.kinds, self.ladder) as u8;
        let kind = kind_at(self.kinds, self.ladder);
        out[at] = group;
        out[at + 1] = kind;
        out[at + 2] = (self.ladder % 16) as u8;
        out[at + 3] = self.sanction;
        put16(out, at + 4, self.total);
        put16(out, at + 6, self.id);
    }
}

impl Ruling<'_> {
    // The sanction for a ladder's new total.
    #[tactic(auto, unfolding(crate::specs::Way::sanction_for))]
    fn sanction_for(&self, ladder: usize, total: u16) -> u8
        ensures { result ≡ sanction_for self.now.shape.kinds self.now.rulebook self.now.members.now ladder total }
    {
        let kinds = self.shape.kinds;
        let member = get8(self.members, group_at(kinds, ladder) - 1) == 1;
        sanction_of(
            self.rulebook,
            kind_at(kinds, ladder),
            rung_of(total as u32),
            member,
        )
    }

    // A ladder's finding, where it has an offence, after n others; then one more is listed.
    #[tactic(auto, using(rules::proofs::KindLaws::few))]
    fn list_one(&self, out: &mut [u8], n: usize, date: u32, book: &[u8], ladder: usize) -> usize
        requires { (ladder < ladders self.now.shape.kinds) ×
            (8 * (n + pick (offends (verdict_of self.now) ladder) 1 0) ≤ length out.old) }
        ensures value { result ≡ n + pick (offends (verdict_of self.now) ladder) 1 0 }
        ensures out_after { out.new ≡ put out.old (8 * n) (found_at (verdict_of self.now) date book.now ladder) }
    {
        let place = place_in(self.places, ladder);
        if place < self.ids.len() / 2 {
            let later = is_later_year(book, date);
            let total = next_total(later, true, get16(book, 16 + 2 * ladder));
            let finding = Finding {
                kinds: self.shape.kinds,
                ladder,
                sanction: self.sanction_for(ladder, total),
                total,
                id: get16(self.ids, 2 * place),
            };
            finding.put(out, 8 * n);
            return n + 1;
        }
        n
    }

    // The findings of every ladder. A loop, and no fold: its closure would hold `out`, and what `out` has after it
    // would have to be told of the closure's runs.
    pub(crate) fn list_all(&self, date: u32, book: &[u8], out: &mut [u8])
        requires { 8 * found_count (verdict_of self.now) ≤ length out.old }
        ensures { out.new ≡ put out.old 0 (findings (verdict_of self.now) date book.now) }
    {
        let mut n = 0;
        for l in 0..ladders_in(self.shape.kinds) {
            n = self.list_one(out, n, date, book, l);
        }
    }
}
