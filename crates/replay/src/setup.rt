// What a script has set up: the state, and each buffer with how much of it is in use; and the steps that change it.
use crate::buffer::Buffer;
use crate::exemption;
use crate::script::{bytes_from, get_length};
use crate::stop::Stop;
use daylog::header::Header;
use desk::state::{Day, State};
use wire::read::{get8, get16, get32};

// More of each than any call wants, so that a script can lend too much.
const MOST_COUNTS: usize = 20000;

const MOST_FINDINGS: usize = 70000;

const MOST_BOOK: usize = 20000;

const MOST_TABLES: usize = 8192;

const MOST_POSITIONS: usize = 8000;

#[derive(Drop)]
pub(crate) struct Setup {
    pub(crate) state: State,
    pub(crate) counts: Buffer<u32, MOST_COUNTS>,
    pub(crate) findings: Buffer<u8, MOST_FINDINGS>,
    pub(crate) book: Buffer<u8, MOST_BOOK>,
    pub(crate) tables: Buffer<u8, MOST_TABLES>,
    // The book of positions.
    pub(crate) positions: Buffer<u8, MOST_POSITIONS>,
}

impl Setup {
    // No day is open and every buffer is empty.
    pub(crate) fn new() -> Setup {
        Setup {
            state: State::Closed,
            counts: Buffer::new(),
            findings: Buffer::new(),
            book: Buffer::new(),
            tables: Buffer::new(),
            positions: Buffer::new(),
        }
    }
}

// S: a day open by hand. Byte 1 of the step is byte 3 of a header.
fn day_of(one: &[u8]) -> Day {
    let head = Header {
        rulebook: get8(one, 1),
        version: get16(one, 2),
        date: get32(one, 4),
        contracts: get16(one, 8),
        accounts: get16(one, 10),
        spare: get16(one, 12),
    };
    Day {
        head,
        taken: get32(one, 14),
    }
}

// c: count i is v.
fn set_count(one: &[u8], counts: &mut [u32]) -> Result<(), Stop> {
    let count = counts.get_mut(get_length(one, 1)).ok_or(Stop::BadScript)?;
    *count = get32(one, 5);
    Ok(())
}

// The step's bytes into a book, or nothing where they go past its end.
pub(crate) fn write_bytes(one: &[u8], book: &mut [u8]) -> Result<(), Stop> {
    let bytes = bytes_from(one, 9);
    let rest = book.get_mut(get_length(one, 1)..).ok_or(Stop::BadScript)?;
    let part = rest.get_mut(..bytes.len()).ok_or(Stop::BadScript)?;
    part.copy_from_slice(bytes);
    Ok(())
}

fn move_to(setup: &mut Setup, state: State) -> Result<(), Stop> {
    setup.state = state;
    Ok(())
}

// A step that is no call: what it sets up, or asks of the rules. Its letter is one that a script has. By a match: each
// letter sets up another part from other bytes of the step, and no arm picks the step after it.
pub(crate) fn change(rt: &HostRuntime, one: &[u8], setup: &mut Setup) -> Result<(), Stop> {
    match get8(one, 0) {
        b'N' => move_to(setup, State::Closed),
        b'S' => move_to(setup, State::Open(day_of(one))),
        b'C' => setup.counts.set(get_length(one, 1), get32(one, 5)),
        b'c' => set_count(one, setup.counts.as_mut_slice()),
        b'F' => setup.findings.set(get_length(one, 1), get8(one, 5)),
        b'B' => setup.book.set(get_length(one, 1), 0),
        b'b' => write_bytes(one, setup.book.as_mut_slice()),
        b'T' => setup.tables.set_to(bytes_from(one, 5)),
        b'x' => exemption::ask(rt, one),
        _ => Err(Stop::BadScript),
    }
}
