// The line after a call: its letter, the refusal's number, the state, the buffers' checksums, and what else it told.
// Calls on the book of positions look at no state and no counts, and their lines have none; the exemption test, which
// is no call, has a line of its own.
ghost use Rattle.std.specs.Prelude.{◌<◌};

use book::ask::Asked;
use counts::weigh::Reasons;
use desk::state::{Day, State};
use files::output::put;
use itoa::Buffer;
use std::io;
use wire::refusal::Refusal;

// What an accepted call tells besides the state.
#[derive(Clone, Copy)]
pub(crate) enum Told {
    Nothing,
    Reasons(Reasons),
    Findings(usize),
    Total(Asked),
}

pub(crate) fn bad(rt: &HostRuntime) -> io::Result<()> {
    put(rt, b"bad script\n")
}

// Each part of a line is a write of its own, by `put` and itoa: println! gathers the whole line first, and where
// standard output fails on the way other bytes of it would have gone out.
fn say(rt: &HostRuntime, n: u64) -> io::Result<()> {
    let mut digits = Buffer::new();
    put(rt, b" ")?;
    put(rt, digits.format(n).as_bytes())
}

fn say_all(rt: &HostRuntime, numbers: &[u64]) -> io::Result<()> {
    for n in numbers {
        say(rt, *n)?;
    }
    Ok(())
}

// The exemption test's line.
pub(crate) fn print_clause(rt: &HostRuntime, clause: u8) -> io::Result<()> {
    put(rt, b"x")?;
    say(rt, u64::from(clause))?;
    put(rt, b"\n")
}

fn say_day(rt: &HostRuntime, day: Day) -> io::Result<()> {
    let head = day.head;
    let numbers = [
        u64::from(head.rulebook),
        u64::from(head.version),
        u64::from(head.date),
        u64::from(head.contracts),
        u64::from(head.accounts),
        u64::from(head.spare),
        u64::from(day.taken),
    ];
    put(rt, b" open")?;
    say_all(rt, &numbers)
}

fn say_state(rt: &HostRuntime, state: State) -> io::Result<()> {
    match state {
        State::Closed => put(rt, b" closed"),
        State::Open(day) => say_day(rt, day),
    }
}

// Each kind's clauses, of the first order and of the second.
fn say_reasons(rt: &HostRuntime, why: Reasons) -> io::Result<()> {
    let first = why.first;
    let second = why.second;
    let clauses = [
        first.own,
        second.own,
        first.frequent,
        second.frequent,
        first.over,
        second.over,
    ];
    say_all(rt, &clauses.map(u64::from))
}

fn say_told(rt: &HostRuntime, told: Told) -> io::Result<()> {
    match told {
        Told::Nothing => Ok(()),
        Told::Reasons(why) => say_reasons(rt, why),
        Told::Findings(n) => say(rt, n as u64),
        Told::Total(asked) => say_all(rt, &[u64::from(asked.total), u64::from(asked.rung)]),
    }
}

// A checksum with one byte more. `step` in fullsize and positions_full says the same: no program takes it from another.
fn mix(h: u32, x: u8) -> u32
    ensures { result < 4294967291 }
{
    ((u64::from(h) * 257 + u64::from(x) + 1) % 4294967291) as u32
}

// The same for a number's four bytes, the low one first.
fn mix_number(h: u32, v: u32) -> u32
    ensures { result < 4294967291 }
{
    let [first, second, third, last] = v.to_le_bytes();
    mix(mix(mix(mix(h, first), second), third), last)
}

pub(crate) fn of_bytes(bytes: &[u8]) -> u64 {
    u64::from(bytes.iter().fold(0, |h, x| mix(h, *x)))
}

pub(crate) fn of_numbers(numbers: &[u32]) -> u64 {
    u64::from(numbers.iter().fold(0, |h, v| mix_number(h, *v)))
}

// The whole line of a call, or why it did not go out. Its number is 0 for an accepted call.
pub(crate) fn print(
    rt: &HostRuntime,
    one: &[u8],
    made: Result<Told, Refusal>,
    state: Option<State>,
    sums: &[u64],
) -> io::Result<()> {
    put(rt, one.get(..1).unwrap_or(&[]))?;
    say(
        rt,
        made.err().map_or(0, |refusal| u64::from(refusal.number())),
    )?;
    if let Some(state) = state {
        say_state(rt, state)?;
    }
    say_all(rt, sums)?;
    say_told(rt, made.unwrap_or(Told::Nothing))?;
    put(rt, b"\n")
}
