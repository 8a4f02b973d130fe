// The steps that make a call on the library, each with the line it prints.
use crate::line::{Told, of_bytes, of_numbers, print};
use crate::script::bytes_from;
use crate::setup::Setup;
use desk::state::State;
use std::io;
use wire::read::{get8, get32, get64};
use wire::refusal::Refusal;

pub(crate) fn is_call(one: &[u8]) -> bool {
    matches!(get8(one, 0), b'f' | b'o' | b't' | b'm' | b'e' | b'a' | b'q')
}

// A record of at most 64 bytes; taken at least once. By letter, as the script's grammar has the limits.
pub(crate) fn within_limits(one: &[u8]) -> bool {
    match get8(one, 0) {
        b't' | b'e' => one.len() <= 69,
        b'm' => (one.len() <= 73) & (1 <= get32(one, 1)),
        _ => true,
    }
}

fn fresh(one: &[u8], book: &mut [u8]) -> Result<Told, Refusal> {
    desk::books::fresh(book, get64(one, 1))?;
    Ok(Told::Nothing)
}

fn open(
    state: &mut State,
    tables: &[u8],
    book: &[u8],
    counts: &mut [u32],
) -> Result<Told, Refusal> {
    *state = desk::open::open(*state, tables, book, counts)?;
    Ok(Told::Nothing)
}

// Up to so many times the same record, up to the first refusal: the last call tells its clauses.
fn take_times(
    state: &mut State,
    tables: &[u8],
    row: &[u8],
    counts: &mut [u32],
    times: u32,
) -> Result<Told, Refusal> {
    let mut told = Told::Nothing;
    for _ in 0..times {
        let (next, why) = desk::take::take(*state, tables, row, counts)?;
        *state = next;
        told = Told::Reasons(why);
    }
    Ok(told)
}

fn end(
    state: &mut State,
    tables: &[u8],
    row: &[u8],
    book: &mut [u8],
    counts: &[u32],
    findings: &mut [u8],
) -> Result<Told, Refusal> {
    let (next, found) = desk::end::end(*state, tables, row, book, counts, findings)?;
    *state = next;
    Ok(Told::Findings(found))
}

fn abandon(state: &mut State) -> Result<Told, Refusal> {
    *state = desk::abandon::abandon(*state)?;
    Ok(Told::Nothing)
}

fn ask(one: &[u8], book: &[u8]) -> Result<Told, Refusal> {
    let asked = desk::books::ask(book, get64(one, 1), get64(one, 9), get64(one, 17))?;
    Ok(Told::Total(asked))
}

// Makes the call on the parts in use. A refusal keeps the state that it was made in. Each letter is one call, and picks
// none after it; in a table of functions all would need one type, though each takes other parts.
fn make(one: &[u8], setup: &mut Setup) -> Result<Told, Refusal> {
    let state = &mut setup.state;
    let tables = setup.tables.as_slice();
    let book = setup.book.as_mut_slice();
    let counts = setup.counts.as_mut_slice();
    let findings = setup.findings.as_mut_slice();
    match get8(one, 0) {
        b'f' => fresh(one, book),
        b'o' => open(state, tables, book, counts),
        b't' => take_times(state, tables, bytes_from(one, 5), counts, 1),
        b'm' => take_times(state, tables, bytes_from(one, 9), counts, get32(one, 1)),
        b'e' => end(state, tables, bytes_from(one, 5), book, counts, findings),
        b'q' => ask(one, book),
        _ => abandon(state),
    }
}

// Makes the call and prints its line, or says why it did not go out.
pub(crate) fn call(rt: &HostRuntime, one: &[u8], setup: &mut Setup) -> io::Result<()> {
    let made = make(one, setup);
    let sums = [
        of_bytes(setup.book.as_slice()),
        of_numbers(setup.counts.as_slice()),
        of_bytes(setup.findings.as_slice()),
    ];
    print(rt, one, made, Some(setup.state), &sums)
}
