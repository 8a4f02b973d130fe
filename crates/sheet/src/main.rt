// Prints the table of exemptions as a page of words, a line an entry, to be read aloud and ticked off. Words such as
// `--rulebook 1` narrow it.
#![tactic(auto)]

mod page;
mod request;

use files::said::{fail, say};

fn tell_usage(rt: &HostRuntime) {
    say(
        rt,
        b"usage: sheet [--rulebook N] [--type N] [--kind N] [--instruction N] [--purpose N]\n",
    );
}

fn main(rt: HostRuntime) {
    match request::by_words(&rt) {
        Some(asked) if page::has_entry(asked) => {
            if let Err(why) = page::print(&rt, asked) {
                fail(&rt, b"sheet: standard output cannot be written", &why);
            }
        }
        _ => tell_usage(&rt),
    }
}
