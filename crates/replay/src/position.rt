// The steps on the book of positions: set up, made fresh, judged on and asked. They look at no state.
use crate::line::{Told, of_bytes, print};
use crate::script::{bytes_from, get_length};
use crate::setup::{Setup, write_bytes};
use crate::stop::Stop;
use positions::books::{ask, fresh};
use positions::judge::judge;
use std::io;
use wire::read::{get8, get64};
use wire::refusal::Refusal;

pub(crate) fn is_on_positions(one: &[u8]) -> bool {
    matches!(get8(one, 0), b'A' | b'j' | b'g' | b'p' | b'r')
}

fn print_on_book(
    rt: &HostRuntime,
    one: &[u8],
    made: Result<Told, Refusal>,
    book: &[u8],
) -> io::Result<()> {
    print(rt, one, made, None, &[of_bytes(book)])
}

// g: whether its line went out, as in those below.
fn make_fresh(rt: &HostRuntime, one: &[u8], book: &mut [u8]) -> io::Result<()> {
    let made = fresh(book, get64(one, 1)).map(|()| Told::Nothing);
    print_on_book(rt, one, made, book)
}

// p
fn judge_log(rt: &HostRuntime, one: &[u8], book: &mut [u8], findings: &mut [u8]) -> io::Result<()> {
    let made = judge(bytes_from(one, 5), book, findings).map(Told::Findings);
    print(rt, one, made, None, &[of_bytes(book), of_bytes(findings)])
}

// r
fn ask_book(rt: &HostRuntime, one: &[u8], book: &[u8]) -> io::Result<()> {
    let asked = ask(book, get64(one, 1), get64(one, 9), get64(one, 17));
    print_on_book(rt, one, asked.map(Told::Total), book)
}

// A call on the parts in use: whether its line went out. One arm a letter, as in call.rt and for the same reason.
fn call(rt: &HostRuntime, one: &[u8], book: &mut [u8], findings: &mut [u8]) -> io::Result<()> {
    match get8(one, 0) {
        b'g' => make_fresh(rt, one, book),
        b'p' => judge_log(rt, one, book, findings),
        _ => ask_book(rt, one, book),
    }
}

// A log of at most 300,000 bytes.
fn within_limits(one: &[u8]) -> bool {
    (get8(one, 0) != b'p') || (one.len() <= 300005)
}

// A of n zero bytes, j of bytes that stay within the book, or a call.
pub(crate) fn step(rt: &HostRuntime, one: &[u8], setup: &mut Setup) -> Result<(), Stop> {
    let letter = get8(one, 0);
    if letter == b'A' {
        return setup.positions.set(get_length(one, 1), 0);
    }
    let book = setup.positions.as_mut_slice();
    if letter == b'j' {
        return write_bytes(one, book);
    }
    if !within_limits(one) {
        return Err(Stop::BadScript);
    }
    call(rt, one, book, setup.findings.as_mut_slice())?;
    Ok(())
}
