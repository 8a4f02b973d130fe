// Tells why a record of the day log on standard input did not count: `why` of every record that was spared, `why 3` of
// the third record. It has no book of its own to lose: the day is judged on a fresh one.
#![tactic(auto)]

mod asked;
mod day;
mod line;
mod record;
mod stop;

use files::said::say;
use office::input::{TABLES, read_tables};

fn main(rt: HostRuntime) {
    let Some(asked) = asked::by_words(&rt) else {
        say(&rt, b"usage: why [NUMBER] <day.axd\n");
        return;
    };
    let mut room = [0u8; TABLES];
    let log = read_tables(&rt, b"why", &mut room);
    day::tell(&rt, asked, log);
}
