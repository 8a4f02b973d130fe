// Runs document 01's cases and slips, and K1's and K5's of document 02, on the library's own functions and calls, and
// prints each with what came out. The file `stdout` says what the documents say.
#![tactic(auto)]

mod build;
mod dates;
mod day;
mod example;
mod families;
mod say;
mod times;
mod year;
mod zero;

use day::Lent;
use exemptions::clause::clause_of;
use rules::ladder::family_of;
use rules::text::Text;

fn leaves(rt: &HostRuntime) {
    dates::tested(rt);
    say::answer(
        rt,
        "rulebook 2, plain limit, ordinary: clause for kind 2",
        clause_of(Text { rulebook: 2 }, 1, 2, 1, 1),
    );
    say::answer(
        rt,
        "rulebook 2, plain limit, ordinary: clause for kind 3",
        clause_of(Text { rulebook: 2 }, 1, 3, 1, 1),
    );
    say::answer(
        rt,
        "rulebook 2, stop order, hedge: clause for kind 2",
        clause_of(Text { rulebook: 2 }, 1, 2, 3, 2),
    );
    say::answer(
        rt,
        "family of DCE futures",
        family_of(Text { rulebook: 1 }, 1, 0),
    );
    say::answer(
        rt,
        "family of DCE options",
        family_of(Text { rulebook: 1 }, 2, 0),
    );
}

fn calls(rt: &HostRuntime, lent: &mut Lent) {
    dates::through_open(rt, lent);
    times::enough(rt, lent);
    times::wide_count(rt, lent);
    times::on_two_contracts(rt, lent);
    times::large_bonds(rt, lent);
    times::large(rt, lent);
    times::exempt_for_one(rt, lent);
    times::market_making(rt, lent);
    families::futures_and_options(rt, lent);
    families::one_offence_a_day(rt, lent);
    year::next_year(rt, lent);
    zero::account(rt, lent);
    example::clerk(rt, lent);
}

fn main(rt: HostRuntime) {
    let mut lent = Lent::new();
    leaves(&rt);
    calls(&rt, &mut lent);
}
