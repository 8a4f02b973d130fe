// A later year clears the totals when its day ends, and not when it opens.
use crate::build::small_log;
use crate::day::{Lent, abandoned};
use crate::say;

fn opened_only(rt: &HostRuntime, log: &[u8], lent: &mut Lent) {
    let run = lent.opened(log);
    say::accepted(rt, "a day of the next year, open", run);
    say::total(rt, "total", &lent.book, 1, 0);
    say::accepted(rt, "abandon", abandoned(run));
    say::total(rt, "total", &lent.book, 1, 0);
}

fn opened_again(rt: &HostRuntime, log: &[u8], lent: &mut Lent) {
    let run = lent.opened(log);
    say::came(
        rt,
        "opened again and ended, findings",
        lent.ended(run, log, 0),
    );
    say::total(rt, "total", &lent.book, 1, 0);
}

pub(crate) fn next_year(rt: &HostRuntime, lent: &mut Lent) {
    lent.past(20231229, 4);
    let t = small_log(20240102, 11);
    opened_only(rt, &t, lent);
    opened_again(rt, &t, lent);
}
