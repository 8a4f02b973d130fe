// The clerk's program: judges the day log on standard input against `book.axb` in the working folder, prints the day's
// findings and writes the book back. The desk decides; nothing is printed before the outcome is known.
#![tactic(auto)]

mod day;

use office::clerk::Clerk;
use office::close::{Day, close};
use office::input::{TABLES, read_tables};
use office::keep::{FILE, read_book};
use places::MOST_FINDINGS;

const CLERK: Clerk = Clerk {
    who: b"clerk",
    file: b"book.axb",
    mark: b"AXD ",
};

// `position_clerk` has a `run` and a `main` like these. One `run` for both would take the judging as a closure that
// holds log, book and findings; one `main` would have to be told how much of the log is read first.
fn run(rt: &HostRuntime, log: &[u8], old: &[u8], book: &mut [u8]) {
    let mut findings = [0u8; MOST_FINDINGS];
    let judged = day::judge_day(rt, log, book, &mut findings);
    let day = judged.map(|found| Day {
        log,
        old,
        new: book,
        findings: &findings,
        found,
    });
    close(rt, CLERK, day);
}

// Only the header and its tables are read before the day is judged, and a log that is cut off there is judged too.
fn main(rt: HostRuntime) {
    let mut room = [0u8; FILE];
    let old = read_book(&rt, CLERK, &mut room);
    let mut tables = [0u8; TABLES];
    let log = read_tables(&rt, CLERK.who, &mut tables);
    let mut copy = [0u8; FILE];
    let book = &mut copy[..old.len()];
    book.copy_from_slice(old);
    run(&rt, log, old, book);
}
