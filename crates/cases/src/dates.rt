// Dates at the ends of the calendar, by the test itself and by opening a day.
use crate::build::small_log;
use crate::day::Lent;
use crate::say;
use calendar::is_day;

// The first leap day and the last day, and the days outside the calendar.
const ENDS: [u32; 4] = [20000229, 20991231, 19991231, 21000101];

pub(crate) fn tested(rt: &HostRuntime) {
    for date in ENDS {
        say::truth(rt, format_args!("{date} is a date"), is_day(date));
    }
}

fn open_on(rt: &HostRuntime, name: &str, date: u32, lent: &mut Lent) {
    lent.fresh(1);
    let log = small_log(date, 11);
    say::accepted(rt, name, lent.opened(&log));
}

pub(crate) fn through_open(rt: &HostRuntime, lent: &mut Lent) {
    open_on(rt, "open on 20000229", 20000229, lent);
    open_on(rt, "open on 20991231", 20991231, lent);
    open_on(rt, "open on 19991231", 19991231, lent);
    open_on(rt, "open on 21000101", 21000101, lent);
}
