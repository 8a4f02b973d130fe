// How a script is cut into steps, and what is read from one step's bytes.
ghost use Rattle.std.specs.Prelude.{◌<◌, ◌≤◌, length, IfSome};

use wire::read::{get8, get32};

// A number of 32 bits as a length.
pub(crate) fn get_length(s: &[u8], at: usize) -> usize
    ensures { result ≤ 4294967295 }
{
    get32(s, at) as usize
}

// The bytes from a place on, or none.
pub(crate) fn bytes_from(s: &[u8], from: usize) -> &[u8] {
    s.get(from..).unwrap_or(&[])
}

// The bytes that the step at the start of `rest` takes by its letter and its number of bytes; none for an unknown
// letter. Letters and no enum: making one would be this match again, and each step still reads its own numbers from the
// bytes.
fn wanted(rest: &[u8]) -> Option<usize>
    ensures { IfSome result (λ size. (0 < size) × (size ≤ 4294967304)) }
{
    match get8(rest, 0) {
        b'N' | b'o' | b'a' => Some(1),
        b'B' | b'A' => Some(5),
        b'F' => Some(6),
        b'x' => Some(7),
        b'C' | b'c' | b'f' | b'g' => Some(9),
        b'S' => Some(18),
        b'q' | b'r' => Some(25),
        b'T' | b't' | b'e' | b'p' => Some(5 + get_length(rest, 1)),
        b'b' | b'm' | b'j' => Some(9 + get_length(rest, 5)),
        _ => None,
    }
}

// The size of the step at the start of `rest`; none for an unknown letter and where the step is cut off.
pub(crate) fn step_size(rest: &[u8]) -> Option<usize>
    ensures { IfSome result (λ size. (0 < size) × (size ≤ length rest.now)) }
{
    let size = wanted(rest)?;
    if rest.len() < size {
        return None;
    }
    Some(size)
}
