// Ladders: one for each family, and one offence on it however many contracts reach the number.
use crate::build::{log, trade};
use crate::day::Lent;
use crate::say;
use wire::read::get16;

// Five self-trades on contract 101 and five on 102, which is of the type named. Before it group 3 has a total of 1 for
// kind 1 in the family of futures.
fn both_reach(rt: &HostRuntime, second: u8, lent: &mut Lent) {
    lent.past(20240304, 1);
    let t = log(1, second, 1000);
    let first = trade(101, 11, 12);
    let other = trade(102, 11, 12);
    let open = lent.opened(&t);
    let run = lent.taken(open, &t, &first, 5);
    let both = lent.taken(run, &t, &other, 5);
    say::came(rt, "findings", lent.ended(both, &t, 10));
    say::total(rt, "family 0, total", &lent.book, 1, 0);
    say::total(rt, "family 1, total", &lent.book, 1, 1);
}

pub(crate) fn futures_and_options(rt: &HostRuntime, lent: &mut Lent) {
    say::title(
        rt,
        "futures and options reached on one day, totals 1 and 0 before it",
    );
    both_reach(rt, 2, lent);
}

pub(crate) fn one_offence_a_day(rt: &HostRuntime, lent: &mut Lent) {
    say::title(
        rt,
        "two futures reached on one day, totals 1 and 0 before it",
    );
    both_reach(rt, 1, lent);
    say::answer(rt, "contract of the finding", get16(&lent.findings, 6));
}
