// Replays a script of calls on the library and prints a line after each: for support and for tests. A script's steps
// set up the state and the buffers, make a call or ask the exemption test; one that breaks the rules gets `bad script`
// and ends there.
#![tactic(auto)]

mod buffer;
mod call;
mod exemption;
mod line;
mod position;
mod script;
mod setup;
mod stop;

use files::input::fill;
use files::said::fail;
use script::step_size;
use setup::Setup;
use std::io;
use stop::Stop;

const MOST_SCRIPT: usize = 1000000;

// A step of which `one` has all the bytes: one on the book of positions, a call, or a change of the setup.
fn step(rt: &HostRuntime, one: &[u8], setup: &mut Setup) -> Result<(), Stop> {
    if position::is_on_positions(one) {
        return position::step(rt, one, setup);
    }
    if !call::is_call(one) {
        return setup::change(rt, one, setup);
    }
    if !call::within_limits(one) {
        return Err(Stop::BadScript);
    }
    call::call(rt, one, setup)?;
    Ok(())
}

// Each step in turn, on what those before it set up. By `while`, since how long a step is stands in its own bytes.
fn steps(rt: &HostRuntime, script: &[u8], setup: &mut Setup) -> Result<(), Stop> {
    let mut rest = script;
    while !rest.is_empty() {
        let size = step_size(rest).ok_or(Stop::BadScript)?;
        step(rt, &rest[..size], setup)?;
        rest = &rest[size..];
    }
    Ok(())
}

fn replay(rt: &HostRuntime, script: &[u8]) -> Result<(), Stop> {
    if MOST_SCRIPT < script.len() {
        return Err(Stop::BadScript);
    }
    steps(rt, script, &mut Setup::new())
}

fn unprinted(rt: &HostRuntime, why: &io::Error) {
    fail(rt, b"replay: standard output cannot be written", why);
}

fn say_why(rt: &HostRuntime, stop: Stop) {
    match stop {
        Stop::BadScript => {
            if let Err(why) = line::bad(rt) {
                unprinted(rt, &why);
            }
        }
        Stop::Unprinted(why) => unprinted(rt, &why),
    }
}

// Room for a script, and for a byte more that shows one too long. In `main` itself the check runs out of stack on so
// long an array.
fn room() -> [u8; 1000001] {
    [0; 1000001]
}

fn main(rt: HostRuntime) {
    let mut all = room();
    let got = fill(&mut rt.stdin(), &mut all);
    if let Some(why) = &got.failed {
        fail(&rt, b"replay: standard input cannot be read", why);
        return;
    }
    if let Err(stop) = replay(&rt, &all[..got.count]) {
        say_why(&rt, stop);
    }
}
