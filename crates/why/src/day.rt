// The day of a log: opened on a fresh book, and its records taken one by one, up to the end record.
ghost use Rattle.std.specs.Prelude.{◌≤◌};

use crate::asked::Asked;
use crate::record::{is_asked, write_line};
use crate::stop::Stop;
use daylog::header::header_of;
use daylog::record::record_length;
use desk::open::open;
use desk::state::State;
use desk::take::take;
use files::said::say;
use office::close::refuse;
use office::input::{END, TURNS, fill_from_input};
use office::lines::{write_count, write_heading};
use places::{MOST_BOOK, MOST_CELLS, book_size};
use rules::kinds::kinds_of;
use wire::read::get8;
use wire::refusal::Refusal;

// The longest record.
const ROW: usize = 24;

#[tactic(auto, using(rules::proofs::KindLaws::kinds_most), unfolding(rules::specs::Kinds::most_kinds))]
fn fresh_size(rulebook: u64) -> usize
    ensures { result ≤ 12304 }
{
    book_size(kinds_of(rulebook))
}

// A book that cannot be made stays zeros: opening refuses such a log before it looks at the book.
fn open_on(
    book: &mut [u8],
    rulebook: u64,
    log: &[u8],
    counts: &mut [u32],
) -> Result<State, Refusal> {
    let _ = desk::books::fresh(book, rulebook);
    open(State::Closed, log, book, counts)
}

fn open_day(log: &[u8], counts: &mut [u32]) -> Result<State, Refusal> {
    let rulebook = header_of(log).rulebook as u64;
    let size = fresh_size(rulebook);
    let mut book = [0u8; MOST_BOOK];
    open_on(&mut book[0..size], rulebook, log, counts)
}

// Takes the records, of a row's length each, and writes the lines of those that are asked for: how many, where all
// went well.
fn take_all(
    rt: &HostRuntime,
    asked: Asked,
    start: State,
    log: &[u8],
    row: &mut [u8],
    counts: &mut [u32],
) -> Result<u32, Stop> {
    let mut state = start;
    let mut lines = 0;
    for turn in 0..TURNS {
        let got = fill_from_input(rt, b"why", row);
        if got.count < row.len() {
            return Err(Stop::Refused(Refusal::Length));
        }
        if get8(row, 0) == END {
            return Ok(lines);
        }
        let (next, why) = take(state, log, row, counts)?;
        state = next;
        if is_asked(asked, turn + 1, row, why) {
            write_line(rt, turn + 1, log, row)?;
            lines += 1;
        }
    }
    Err(Stop::Refused(Refusal::Full))
}

fn finish(rt: &HostRuntime, asked: Asked, told: Result<u32, Stop>) {
    match told {
        Err(Stop::Unwritten) => {}
        Err(Stop::Refused(refusal)) => {
            refuse(rt, b"why", refusal.number());
        }
        Ok(lines) => {
            if asked == Asked::Spared {
                write_count(rt, b"why", b"spared ", lines as u64);
            } else if lines == 0 {
                say(rt, b"why: the log has no such record\n");
            }
        }
    }
}

#[tactic(auto, using(wire::proofs::ChoiceLaws::pick_le), unfolding(daylog::specs::Records::record_length))]
fn row_size(log: &[u8]) -> usize
    ensures { result ≤ 24 }
{
    record_length(header_of(log).version)
}

fn tell_open(rt: &HostRuntime, asked: Asked, state: State, log: &[u8], counts: &mut [u32]) {
    if write_heading(rt, b"why", b"AXD ", log) < 0 {
        return;
    }
    let size = row_size(log);
    let mut row = [0u8; ROW];
    let told = take_all(rt, asked, state, log, &mut row[0..size], counts);
    finish(rt, asked, told);
}

// Tells of the record with the number asked for, or of all that were spared.
pub(crate) fn tell(rt: &HostRuntime, asked: Asked, log: &[u8]) {
    let mut counts = [0u32; MOST_CELLS];
    match open_day(log, &mut counts) {
        Err(refusal) => {
            refuse(rt, b"why", refusal.number());
        }
        Ok(state) => tell_open(rt, asked, state, log, &mut counts),
    }
}
