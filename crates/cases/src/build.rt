// The bytes that the cases hand to the calls: logs of one or two contracts, and records. A number for a rulebook, a
// type or a purpose is the byte that stands there.
use wire::write::{put8, put16, put32};

// "AXD", the rulebook, version 1, the date, so many contracts, two accounts. fullsize has a `head` too, and a loop of
// what `account` writes: a program cannot take them from another, and they make another log.
fn head(t: &mut [u8], rulebook: u8, date: u32, contracts: u16) {
    put8(t, 0, b'A');
    put8(t, 1, b'X');
    put8(t, 2, b'D');
    put8(t, 3, rulebook);
    put16(t, 4, 1);
    put32(t, 6, date);
    put16(t, 10, contracts);
    put16(t, 12, 2);
}

fn contract(t: &mut [u8], at: u8, id: u16, kind: u8, largest: u32) {
    let from = usize::from(at);
    put16(t, from, id);
    put8(t, from + 2, kind);
    put32(t, from + 4, largest);
}

// A client's account in group 3.
fn account(t: &mut [u8], at: u8, number: u32) {
    let from = usize::from(at);
    put32(t, from, number);
    put8(t, from + 4, 3);
    put8(t, from + 5, 1);
}

// Contract 101, futures, and the accounts `first` and 12 of group 3.
pub(crate) fn small_log(date: u32, first: u32) -> [u8; 40] {
    let mut t = [0u8; 40];
    head(&mut t, 1, date, 1);
    contract(&mut t, 16, 101, 1, 1000);
    account(&mut t, 24, first);
    account(&mut t, 32, 12);
    t
}

// 5 March 2024: contract 101, futures, and 102 of the type named; accounts 11 and 12 of group 3.
pub(crate) fn log(rulebook: u8, second: u8, largest: u32) -> [u8; 48] {
    let mut t = [0u8; 48];
    head(&mut t, rulebook, 20240305, 2);
    contract(&mut t, 16, 101, 1, largest);
    contract(&mut t, 24, 102, second, largest);
    account(&mut t, 32, 11);
    account(&mut t, 40, 12);
    t
}

// A trade of one lot, both orders plain limit and ordinary.
pub(crate) fn trade(contract: u16, buyer: u32, seller: u32) -> [u8; 20] {
    let mut row = [0u8; 20];
    put8(&mut row, 0, 1);
    put16(&mut row, 2, contract);
    put32(&mut row, 4, buyer);
    put32(&mut row, 8, seller);
    put32(&mut row, 12, 1);
    put8(&mut row, 16, 1);
    put8(&mut row, 17, 1);
    put8(&mut row, 18, 1);
    put8(&mut row, 19, 1);
    row
}

// A cancel of account 11: plain limit, of a purpose.
pub(crate) fn cancel(contract: u16, lots: u32, purpose: u8) -> [u8; 20] {
    let mut row = [0u8; 20];
    put8(&mut row, 0, 2);
    put16(&mut row, 2, contract);
    put32(&mut row, 4, 11);
    put32(&mut row, 12, lots);
    put8(&mut row, 16, 1);
    put8(&mut row, 17, purpose);
    row
}

pub(crate) fn end_record(taken: u32) -> [u8; 20] {
    let mut row = [0u8; 20];
    put8(&mut row, 0, 3);
    put32(&mut row, 4, taken);
    row
}
