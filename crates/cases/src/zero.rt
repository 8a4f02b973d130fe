// An account number of zero is nobody's: not in the table, not in a record.
use crate::build::{small_log, trade};
use crate::day::Lent;
use crate::say;

fn trade_between(rt: &HostRuntime, name: &str, buyer: u32, seller: u32, lent: &mut Lent) {
    let t = small_log(20240305, 11);
    let row = trade(101, buyer, seller);
    let open = lent.opened(&t);
    let run = lent.taken(open, &t, &row, 1);
    say::accepted(rt, name, run);
}

pub(crate) fn account(rt: &HostRuntime, lent: &mut Lent) {
    lent.fresh(1);
    let t = small_log(20240305, 0);
    say::accepted(rt, "account 0 in the table", lent.opened(&t));
    trade_between(rt, "a trade of 0 with 12", 0, 12, lent);
    trade_between(rt, "a trade of 11 with 0", 11, 0, lent);
    trade_between(rt, "a trade of 11 with 12", 11, 12, lent);
}
