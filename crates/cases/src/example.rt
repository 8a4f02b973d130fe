// The worked example of "The clerk's program", by the calls: the three lines that the clerk reads.
use crate::build::{small_log, trade};
use crate::day::Lent;
use crate::say;
use wire::read::{get8, get16, get32};

fn field(rt: &HostRuntime, n: u16, end: &str) {
    say::part(rt, n);
    say::part(rt, end);
}

// group, kind, family, total, sanction, contract of a finding's eight bytes. office and words say the same for the
// clerk; the cases stand on neither, and test by other code.
fn finding(rt: &HostRuntime, s: &[u8]) {
    field(rt, get8(s, 0).into(), " ");
    field(rt, get8(s, 1).into(), " ");
    field(rt, get8(s, 2).into(), " ");
    field(rt, get16(s, 4), " ");
    field(rt, get8(s, 3).into(), " ");
    field(rt, get16(s, 6), "\n");
}

// Behind the date.
fn text_of(rulebook: u8) -> &'static str {
    if rulebook == 1 { " DCE\n" } else { " CFX\n" }
}

// Of a day with one finding.
fn lines(rt: &HostRuntime, log: &[u8; 40], findings: &[u8], found: usize) {
    say::part(rt, "AXD ");
    say::part(rt, get32(log, 6));
    say::part(rt, text_of(get8(log, 3)));
    finding(rt, findings);
    say::part(rt, "findings ");
    say::part(rt, found);
    say::part(rt, "\n");
}

pub(crate) fn clerk(rt: &HostRuntime, lent: &mut Lent) {
    lent.past(20240304, 1);
    let t = small_log(20240305, 11);
    let between = trade(101, 11, 12);
    let own = trade(101, 12, 12);
    let open = lent.opened(&t);
    let four = lent.taken(open, &t, &between, 4);
    let five = lent.taken(four, &t, &own, 1);
    let over = lent.ended(five, &t, 5);
    say::accepted(rt, "the worked example", over);
    lines(rt, &t, &lent.findings, over.unwrap_or(0));
}
