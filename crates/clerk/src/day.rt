// One day of the desk, from standard input: opened, its records taken, ended.
ghost use Rattle.std.specs.Prelude.{◌≤◌, length, IfOk};

use daylog::header::header_of;
use daylog::record::record_length;
use desk::end::end;
use desk::open::open;
use desk::state::State;
use desk::take::take;
use files::input::Got;
use office::input::{END, TURNS};
use places::MOST_CELLS;
use wire::refusal::Refusal;

// The bytes read at once: 3,276 whole records of 20 bytes or 2,730 of 24, so that none straddles two pieces.
const PIECE: usize = 65520;

fn fill_from_input(rt: &HostRuntime, buf: &mut [u8]) -> Got
    ensures { result.count ≤ length buf.new }
{
    office::input::fill_from_input(rt, b"clerk", buf)
}

// Takes the whole records of a piece, up to an end record: the state after them, and the bytes from there on. By
// `while`, and no `chunks_exact`, since it hands out the bytes that are left where the end record begins.
fn take_rows<'a>(
    start: State,
    log: &[u8],
    rows: &'a [u8],
    size: usize,
    counts: &mut [u32],
) -> Result<(State, &'a [u8]), Refusal>
    requires { 1 ≤ size }
    ensures { IfOk result (λ passed. length passed.1.now ≤ length rows.now) }
{
    let mut state = start;
    let mut rest = rows;
    while size <= rest.len() && rest[0] != END {
        let (next, _) = take(state, log, &rest[..size], counts)?;
        state = next;
        rest = &rest[size..];
    }
    Ok((state, rest))
}

// Whether anything follows an end record of a size, which has `left` bytes from its own first on in its piece. A
// piece that is not full is the last; after a read that failed nobody can tell, and the log counts as cut off.
fn is_followed(rt: &HostRuntime, size: usize, left: usize, piece: Got) -> bool {
    if (left != size) | piece.failed.is_some() {
        return true;
    }
    if piece.count < PIECE {
        return false;
    }
    let mut one = [0u8; 1];
    let next = fill_from_input(rt, &mut one);
    (next.count != 0) | next.failed.is_some()
}

// Reads the records piece by piece, as the log is never held whole, and answers the number of findings. Bytes after
// the end record are a refusal only where the end itself is accepted. Log, book, counts and findings go one by one, as
// the desk takes them: a record needs two of them, and a struct would be taken apart at each call.
fn take_all(
    rt: &HostRuntime,
    start: State,
    log: &[u8],
    size: usize,
    book: &mut [u8],
    counts: &mut [u32],
    findings: &mut [u8],
) -> Result<usize, Refusal>
    requires { 1 ≤ size }
{
    let mut piece = [0u8; PIECE];
    let mut state = start;
    for _ in 0..TURNS {
        let got = fill_from_input(rt, &mut piece);
        let (next, rest) = take_rows(state, log, &piece[..got.count], size, counts)?;
        if size <= rest.len() {
            let (_, found) = end(next, log, &rest[..size], book, counts, findings)?;
            if is_followed(rt, size, rest.len(), got) {
                return Err(Refusal::Length);
            }
            return Ok(found);
        }
        if got.count < PIECE {
            return Err(Refusal::Length);
        }
        state = next;
    }
    Err(Refusal::Full)
}

// Opening comes before the records, so a bad book wins over a log that is cut off further on.
#[tactic(auto, using(wire::proofs::ChoiceLaws::pick_least), unfolding(daylog::specs::Records::record_length))]
pub(crate) fn judge_day(
    rt: &HostRuntime,
    log: &[u8],
    book: &mut [u8],
    findings: &mut [u8],
) -> Result<usize, Refusal> {
    let mut counts = [0u32; MOST_CELLS];
    let state = open(State::Closed, log, book, &mut counts)?;
    let size = record_length(header_of(log).version);
    take_all(rt, state, log, size, book, &mut counts, findings)
}
