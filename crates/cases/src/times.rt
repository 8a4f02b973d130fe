// How often is enough: times are counted on one contract, and the lots only say whether a cancel is large.
use crate::build::{cancel, log};
use crate::day::Lent;
use crate::say;
use rules::measure::{Lots, is_large};
use rules::text::Text;
use wire::refusal::Refusal;

// So many ordinary cancels of one size on contract 101, whose largest order is named.
#[derive(Clone, Copy)]
struct Cancels {
    rulebook: u8,
    largest: u32,
    lots: u32,
    times: u32,
}

impl Cancels {
    // A day of them alone, on a fresh book.
    fn day(self, lent: &mut Lent) -> Result<usize, Refusal> {
        lent.fresh(self.rulebook);
        let t = log(self.rulebook, 1, self.largest);
        let row = cancel(101, self.lots, 1);
        let open = lent.opened(&t);
        let run = lent.taken(open, &t, &row, self.times);
        lent.ended(run, &t, self.times)
    }
}

pub(crate) fn enough(rt: &HostRuntime, lent: &mut Lent) {
    let few = Cancels {
        rulebook: 1,
        largest: 1000,
        lots: 1,
        times: 499,
    };
    let enough = Cancels {
        rulebook: 1,
        largest: 1000,
        lots: 1,
        times: 500,
    };
    say::came(rt, "rulebook 1, 499 cancels, findings", few.day(lent));
    say::came(rt, "rulebook 1, 500 cancels, findings", enough.day(lent));
}

// The count of group 3, kind 2, at the first contract is number 224.
pub(crate) fn wide_count(rt: &HostRuntime, lent: &mut Lent) {
    lent.fresh(1);
    let t = log(1, 1, 1000);
    let row = cancel(101, 1, 1);
    let open = lent.opened(&t);
    let run = lent.taken(open, &t, &row, 256);
    say::accepted(rt, "256 cancels", run);
    say::answer(rt, "256 cancels, the count", lent.counts[224]);
}

// Times are not added over the contracts of a family.
pub(crate) fn on_two_contracts(rt: &HostRuntime, lent: &mut Lent) {
    lent.fresh(1);
    let t = log(1, 1, 1000);
    let first = cancel(101, 1, 1);
    let second = cancel(102, 1, 1);
    let open = lent.opened(&t);
    let run = lent.taken(open, &t, &first, 300);
    let both = lent.taken(run, &t, &second, 300);
    say::came(
        rt,
        "300 cancels on each of two futures, findings",
        lent.ended(both, &t, 600),
    );
}

// 100 cancels on bonds, whose largest order is of 9 lots.
fn bonds(lots: u32) -> Cancels {
    Cancels {
        rulebook: 2,
        largest: 9,
        lots,
        times: 100,
    }
}

// Four fifths are not rounded. Plain limit orders in rulebook 2 count for kind 3 only.
pub(crate) fn large_bonds(rt: &HostRuntime, lent: &mut Lent) {
    let large = is_large(Text { rulebook: 2 }, Lots(7), Lots(9));
    say::truth(rt, "rulebook 2, 7 lots of 9 is large", large);
    say::came(
        rt,
        "rulebook 2, 100 cancels of 7 lots of 9, findings",
        bonds(7).day(lent),
    );
    say::came(
        rt,
        "rulebook 2, 100 cancels of 8 lots of 9, findings",
        bonds(8).day(lent),
    );
}

// 400 cancels are too few for kind 2: a finding is one of kind 3.
fn too_few(lots: u32) -> Cancels {
    Cancels {
        rulebook: 1,
        largest: 1000,
        lots,
        times: 400,
    }
}

pub(crate) fn large(rt: &HostRuntime, lent: &mut Lent) {
    say::came(
        rt,
        "rulebook 1, 400 cancels of 800 lots of 1000, findings",
        too_few(800).day(lent),
    );
    say::came(
        rt,
        "rulebook 1, 400 cancels of 801 lots of 1000, findings",
        too_few(801).day(lent),
    );
}

// 500 large cancels on one contract: kind 3 counts them whether they are exempt for kind 2 or not.
fn large_ones(
    rt: &HostRuntime,
    rulebook: u8,
    t: &[u8; 48],
    row: &[u8; 20],
    family: u64,
    lent: &mut Lent,
) {
    lent.fresh(rulebook);
    let open = lent.opened(t);
    let run = lent.taken(open, t, row, 500);
    say::came(rt, "findings", lent.ended(run, t, 500));
    say::total(rt, "kind 2, total", &lent.book, 2, family);
    say::total(rt, "kind 3, total", &lent.book, 3, family);
}

pub(crate) fn exempt_for_one(rt: &HostRuntime, lent: &mut Lent) {
    let t = log(2, 1, 50);
    let row = cancel(101, 40, 1);
    say::title(rt, "rulebook 2, 500 plain limit cancels of 40 lots of 50");
    large_ones(rt, 2, &t, &row, 0, lent);
}

// Request K1: in rulebook 1 market making is exempt for kind 2 in options only.
pub(crate) fn market_making(rt: &HostRuntime, lent: &mut Lent) {
    let t = log(1, 2, 1000);
    let on_futures = cancel(101, 801, 4);
    say::title(
        rt,
        "rulebook 1, 500 market making cancels of 801 lots of 1000 on futures",
    );
    large_ones(rt, 1, &t, &on_futures, 0, lent);
    let on_option = cancel(102, 801, 4);
    say::title(
        rt,
        "rulebook 1, 500 market making cancels of 801 lots of 1000 on an option",
    );
    large_ones(rt, 1, &t, &on_option, 1, lent);
}
