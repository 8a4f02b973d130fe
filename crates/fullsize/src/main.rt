// The desk at full size: 32 contracts, 512 accounts, 1,000,000 records taken; then a day ended in which every ladder
// of all 128 groups has an offence. bench/run times it beside plain Rust.
#![tactic(auto)]

ghost use Rattle.std.specs.Prelude.{◌≤◌};

use counts::weigh::Reasons;
use daylog::header::header_of;
use desk::books::fresh;
use desk::end::end;
use desk::open::open;
use desk::state::{Day, State};
use desk::take::take;
use exemptions::clause::Clauses;
use places::{MOST_BOOK, MOST_CELLS, MOST_FINDINGS};
use std::fmt::Display;
use wire::refusal::Refusal;
use wire::write::{put8, put16, put32};

// "AXD", the rulebook, version 1, 5 March 2024. positions_full says which lines stand there too; its `head` and its
// `contracts` make another log, with longer entries.
fn head(t: &mut [u8], rulebook: u8) {
    put8(t, 0, b'A');
    put8(t, 1, b'X');
    put8(t, 2, b'D');
    put8(t, 3, rulebook);
    put16(t, 4, 1);
    put32(t, 6, 20240305);
    put16(t, 10, 32);
    put16(t, 12, 512);
}

// Contracts 1 to 32: futures with a largest order of 1000, two to a product.
fn contracts(t: &mut [u8]) {
    for k in 0..32 {
        let at = 16 + 8 * k;
        put16(t, at, (k + 1) as u16);
        put8(t, at + 2, 1);
        put8(t, at + 3, (k / 2) as u8);
        put32(t, at + 4, 1000);
    }
}

// Accounts 7, 14, .. in groups of four.
fn accounts(t: &mut [u8]) {
    for k in 0..512 {
        let at = 272 + 8 * k;
        put32(t, at, (7 * (k + 1)) as u32);
        put8(t, at + 4, (k / 4 + 1) as u8);
        put8(t, at + 5, 1);
    }
}

fn next(seed: u32) -> u32 {
    seed.wrapping_mul(1664525).wrapping_add(1013904223)
}

// A record by the seed: every fourth is a trade, the others are cancels, for every purpose.
fn draw(row: &mut [u8], seed: u32) {
    let trade = seed / 16777216 % 4 == 0;
    put16(row, 2, (seed / 65536 % 32 + 1) as u16);
    put32(row, 4, 7 * (seed / 4096 % 512 + 1));
    put32(row, 12, seed / 1024 % 1000 + 1);
    put8(row, 16, 1);
    put8(row, 17, (seed / 256 % 4 + 1) as u8);
    if trade {
        put8(row, 0, 1);
        put32(row, 8, 7 * (seed / 2048 % 512 + 1));
        put8(row, 18, 1);
        put8(row, 19, (seed / 64 % 4 + 1) as u8);
    } else {
        put8(row, 0, 2);
        put32(row, 8, 0);
        put8(row, 18, 0);
        put8(row, 19, 0);
    }
}

// The sum of a record's clauses.
fn clauses_in(why: Reasons) -> u64 {
    u64::from(order_sum(why.first)) + u64::from(order_sum(why.second))
}

fn order_sum(order: Clauses) -> u16
    ensures { result ≤ 765 }
{
    u16::from(order.own) + u16::from(order.frequent) + u16::from(order.over)
}

// A refusal on the way, and the sum of the clauses before it.
#[derive(Clone, Copy)]
struct Stopped {
    refusal: Refusal,
    clauses: u64,
}

// So many records taken: the sum of all clauses.
fn run(start: State, t: &[u8], c: &mut [u32], n: u32) -> Result<u64, Stopped> {
    let mut row = [0u8; 20];
    let mut state = start;
    let mut seed = 1;
    let mut clauses: u64 = 0;
    for _ in 0..n {
        seed = next(seed);
        draw(&mut row, seed);
        let (after, why) = take(state, t, &row, c).map_err(|refusal| Stopped { refusal, clauses })?;
        state = after;
        clauses = clauses.wrapping_add(clauses_in(why));
    }
    Ok(clauses)
}

fn total(c: &[u32]) -> u64 {
    c.iter()
        .fold(0, |sum: u64, n| sum.wrapping_add(u64::from(*n)))
}

// Every cell at its number in rulebook 2.
fn fill_cells(c: &mut [u32]) {
    for (i, cell) in c.iter_mut().enumerate() {
        *cell = number_of(i / 32 % 3);
    }
}

fn number_of(kind: usize) -> u32 {
    match kind {
        0 => 5,
        1 => 500,
        _ => 100,
    }
}

fn checksum(s: &[u8]) -> u32 {
    s.iter().fold(0, |h, x| step(h, *x))
}

fn step(h: u32, x: u8) -> u32 {
    ((u64::from(h) * 257 + u64::from(x) + 1) % 4294967291) as u32
}

// A number and what follows it, each a write of its own: println! gathers the whole line first, and where standard
// output fails inside it other bytes would go out.
fn say<N: Display + Drop>(rt: &HostRuntime, number: N, end: &str) {
    let _ = print!(rt; "{number}");
    let _ = print!(rt; "{end}");
}

fn say_run(rt: &HostRuntime, refusal: u32, c: &[u32], clauses: u64) {
    say(rt, refusal, " ");
    say(rt, total(c), " ");
    say(rt, clauses, "\n");
}

// A 0 for no refusal, the sum of the counts and that of the clauses. A refusal, which never comes here, is said by its
// number: that of opening alone, one of a record in place of the 0.
fn take_all(rt: &HostRuntime, t: &[u8], b: &[u8], c: &mut [u32]) {
    match open(State::Closed, t, b, c) {
        Ok(state) => match run(state, t, c, 1000000) {
            Ok(clauses) => say_run(rt, 0, c, clauses),
            Err(stopped) => say_run(rt, stopped.refusal.number(), c, stopped.clauses),
        },
        Err(refusal) => say(rt, refusal.number(), "\n"),
    }
}

// A day of 500 records by hand, ended: the number of findings, and checksums of findings and book.
fn end_full(rt: &HostRuntime, t: &[u8], b: &mut [u8], c: &[u32], out: &mut [u8]) {
    let mut row = [0u8; 20];
    put8(&mut row, 0, 3);
    put32(&mut row, 4, 500);
    let head = header_of(t);
    let state = State::Open(Day { head, taken: 500 });
    match end(state, t, &row, b, c, out) {
        Ok((_, n)) => {
            say(rt, n, " ");
            say(rt, checksum(out), " ");
            say(rt, checksum(b), "\n");
        }
        Err(refusal) => say(rt, refusal.number(), "\n"),
    }
}

fn main(rt: HostRuntime) {
    let mut t = [0u8; 4368];
    head(&mut t, 1);
    contracts(&mut t);
    accounts(&mut t);
    let mut b = [0u8; MOST_BOOK];
    let mut c = [0u32; MOST_CELLS];
    let _ = fresh(&mut b, 1);
    take_all(&rt, &t, &b, &mut c);
    head(&mut t, 2);
    let _ = fresh(&mut b, 2);
    fill_cells(&mut c);
    let mut out = [0u8; MOST_FINDINGS];
    end_full(&rt, &t, &mut b, &c, &mut out);
}
