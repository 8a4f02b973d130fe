// Which entries the program's words ask for.
ghost use Rattle.std.specs.Prelude.{◌<◌};

use words::asked::{count_words, word_at};
use words::number::number_in;

// The code of each list that entries are asked for by; any code, where there is none.
#[derive(Clone, Copy, Default)]
pub(crate) struct Asked {
    pub(crate) rulebook: Option<u8>,
    pub(crate) sort: Option<u8>,
    pub(crate) kind: Option<u8>,
    pub(crate) instruction: Option<u8>,
    pub(crate) purpose: Option<u8>,
}

// The word at a place as a code: one digit and no more, and not 0, which no list has.
#[tactic(auto, using(words::proofs::NumberLaws::one_digit))]
fn code_at(rt: &HostRuntime, place: usize) -> Option<u8> {
    let mut room = [0u8; 1];
    let digit = number_in(word_at(rt, place, &mut room));
    if digit == 0 {
        return None;
    }
    Some(digit as u8)
}

// What was asked for, and the code that one more word names.
fn narrowed(asked: Asked, word: &[u8], code: u8) -> Option<Asked> {
    let mut next = asked;
    if word == b"--rulebook".as_slice() {
        next.rulebook = Some(code);
    } else if word == b"--type".as_slice() {
        next.sort = Some(code);
    } else if word == b"--kind".as_slice() {
        next.kind = Some(code);
    } else if word == b"--instruction".as_slice() {
        next.instruction = Some(code);
    } else if word == b"--purpose".as_slice() {
        next.purpose = Some(code);
    } else {
        return None;
    }
    Some(next)
}

// The same with a pair of the program's words, a list's name and a code; pairs count from 0.
fn narrowed_by(rt: &HostRuntime, asked: Asked, pair: usize) -> Option<Asked>
    requires { pair < 6 }
{
    let code = code_at(rt, 2 * pair + 2)?;
    let mut room = [0u8; 16];
    narrowed(asked, word_at(rt, 2 * pair + 1, &mut room), code)
}

// What all the words ask for: at most five pairs, as there are five lists. The program's own name is counted too.
pub(crate) fn by_words(rt: &HostRuntime) -> Option<Asked> {
    let count = count_words(rt);
    if 11 < count {
        return None;
    }
    let mut asked = Asked::default();
    for pair in 0..count / 2 {
        asked = narrowed_by(rt, asked, pair)?;
    }
    Some(asked)
}
