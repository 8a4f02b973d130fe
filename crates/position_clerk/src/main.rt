// The clerk's program for positions: judges the position log on standard input against `positions.axq` in the working
// folder, prints the day's findings and writes the book back. Nothing is printed before the outcome is known.
#![tactic(auto)]

ghost use Rattle.std.specs.Prelude.{◌≡◌, length};

use office::clerk::Clerk;
use office::close::{Day, close};
use office::input::fill_from_input;
use office::keep::read_book;
use positions::books::{BOOK, FINDINGS};
use positions::judge::judge;
use positions::log::MOST_LOG;

// A byte more than the longest: a file that is longer is no book, and a log that is longer is refused by its length.
const FILE: usize = BOOK + 1;

const LOG: usize = MOST_LOG + 1;

const CLERK: Clerk = Clerk {
    who: b"position_clerk",
    file: b"positions.axq",
    mark: b"AXP ",
};

// The clerk has a `run` and a `main` like these, and says there why they are not one.
fn run(rt: &HostRuntime, log: &[u8], old: &[u8], book: &mut [u8]) {
    let mut findings = [0u8; FINDINGS];
    let judged = judge(log, book, &mut findings);
    let day = judged.map(|found| Day {
        log,
        old,
        new: book,
        findings: &findings,
        found,
    });
    close(rt, CLERK, day);
}

// Room for a log.
fn room() -> [u8; LOG]
    ensures { 266769 ≡ length result }
{
    [0; LOG]
}

// A position log is read whole before it is judged.
fn main(rt: HostRuntime) {
    let mut last = [0u8; FILE];
    let old = read_book(&rt, CLERK, &mut last);
    let mut log = room();
    let got = fill_from_input(&rt, CLERK.who, &mut log);
    // A log that could not be read to its end may have more: it counts as none, and is refused.
    let end = got.whole().unwrap_or(0);
    let mut copy = [0u8; FILE];
    let book = &mut copy[..old.len()];
    book.copy_from_slice(old);
    run(&rt, &log[..end], old, book);
}
