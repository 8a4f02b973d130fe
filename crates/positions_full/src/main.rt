// Positions at full size: the longest position log, judged as often as the first word says, or 3 times without one.
// bench/run times it beside plain Rust; bench/positions.rs says how the log is made and what is printed.
#![tactic(auto)]

use positions::books::{BOOK, FINDINGS, fresh};
use positions::judge::judge;
use positions::log::MOST_LOG;
use std::fmt::Display;
use wire::refusal::Refusal;
use wire::write::{put8, put16, put32};
use words::asked::{count_words, word_at};
use words::number::number_in;

const DATE: u32 = 20240305;

// "AXP", rulebook 2, version 1, the date, 32 contracts, 512 accounts, 16,384 records.
fn head(log: &mut [u8]) {
    put8(log, 0, b'A');
    put8(log, 1, b'X');
    put8(log, 2, b'P');
    put8(log, 3, 2);
    put16(log, 4, 1);
    put32(log, 6, DATE);
    put16(log, 10, 32);
    put16(log, 12, 512);
    put16(log, 14, 16384);
}

// Contracts 1 to 32: futures, two to a product. This and `head` are no twins of fullsize's: another log, and entries of
// another length with other fields.
fn contracts(log: &mut [u8]) {
    for k in 0..32 {
        let at = 16 + 16 * k;
        put16(log, at, (k + 1) as u16);
        put8(log, at + 2, 1);
        put8(log, at + 3, (k % 16) as u8);
        put32(log, at + 4, 2700000);
        put32(log, at + 8, 2600000);
    }
}

// Accounts 7, 14, .. in groups of four. These lines, `next`, `step` and `say` stand in fullsize too: a program cannot
// take them from another, and in a library each would need a contract and a definition that say its few lines again.
fn accounts(log: &mut [u8]) {
    for j in 0..512 {
        let at = 528 + 8 * j;
        put32(log, at, (7 * (j + 1)) as u32);
        put8(log, at + 4, (j / 4 + 1) as u8);
        put8(log, at + 5, 1);
    }
}

fn next(seed: u32) -> u32 {
    seed.wrapping_mul(1664525).wrapping_add(1013904223)
}

fn lots(seed: u32) -> u32 {
    seed / 4096 % 1000001
}

// Every account holds something of every contract: the long lots are drawn first, then the short ones.
fn records(log: &mut [u8]) {
    let mut seed = 1;
    for k in 0..16384 {
        let at = 4624 + 16 * k;
        let long = next(seed);
        let short = next(long);
        put16(log, at, (k / 512 + 1) as u16);
        put32(log, at + 4, (7 * (k % 512 + 1)) as u32);
        put32(log, at + 8, lots(long));
        put32(log, at + 12, lots(short));
        seed = short;
    }
}

// A fresh book each time, as judging writes it. The date is written anew too: so no check of the log can be taken out
// of the loop and made once for all.
fn judge_again(log: &mut [u8], findings: &mut [u8]) -> Result<usize, Refusal> {
    let mut book = [0u8; BOOK];
    let _ = fresh(&mut book, 2);
    put32(log, 6, DATE);
    judge(log, &mut book, findings)
}

// The last judging's answer, or the first refusal.
fn judge_all(log: &mut [u8], findings: &mut [u8], times: u32) -> Result<usize, Refusal> {
    let mut found = 0;
    for _ in 0..times {
        found = judge_again(log, findings)?;
    }
    Ok(found)
}

fn step(h: u32, x: u8) -> u32 {
    ((u64::from(h) * 257 + u64::from(x) + 1) % 4294967291) as u32
}

// Of the bytes of the findings that were found.
fn checksum(findings: &[u8], found: usize) -> u32 {
    let bytes = found.saturating_mul(8);
    findings.iter().take(bytes).fold(0, |h, x| step(h, *x))
}

// A number and what follows it, each a write of its own: println! gathers the whole line first, and where standard
// output fails inside it other bytes would go out.
fn say<N: Display + Drop>(rt: &HostRuntime, number: N, end: &str) {
    let _ = print!(rt; "{number}");
    let _ = print!(rt; "{end}");
}

fn run(rt: &HostRuntime, log: &mut [u8], times: u32) {
    let mut findings = [0u8; FINDINGS];
    match judge_all(log, &mut findings, times) {
        Ok(found) => {
            say(rt, found, " ");
            say(rt, checksum(&findings, found), "\n");
        }
        Err(refusal) => {
            let _ = print!(rt; "refused ");
            say(rt, refusal.number(), "\n");
        }
    }
}

// How often to judge: a few times where nothing is said, as the gate runs it. 0, as `number_in` has it, is no number.
fn times_asked(rt: &HostRuntime) -> u32 {
    if count_words(rt) < 2 {
        return 3;
    }
    let mut word = [0u8; 6];
    number_in(word_at(rt, 1, &mut word))
}

fn main(rt: HostRuntime) {
    let times = times_asked(&rt);
    if (times == 0) | (100000 < times) {
        files::said::say(
            &rt,
            b"usage: positions_full [how often to judge, from 1 to 100000]\n",
        );
        return;
    }
    let mut log = [0u8; MOST_LOG];
    head(&mut log);
    contracts(&mut log);
    accounts(&mut log);
    records(&mut log);
    run(&rt, &mut log, times);
}
