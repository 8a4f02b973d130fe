// Which records the program's words ask for.
use words::asked::{count_words, word_at};
use words::number::number_in;

// No Option of a number: all that were spared is a choice too, and not the lack of one.
#[derive(Clone, Copy, PartialEq, Eq)]
pub(crate) enum Asked {
    // Each that was spared.
    Spared,
    // The record of this number, from 1.
    Number(u32),
}

// No word, or one word that is a number. The program's own name is counted too.
pub(crate) fn by_words(rt: &HostRuntime) -> Option<Asked> {
    let count = count_words(rt);
    if count < 2 {
        return Some(Asked::Spared);
    }
    let mut room = [0u8; 9];
    let number = number_in(word_at(rt, 1, &mut room));
    if (count != 2) | (number == 0) {
        return None;
    }
    Some(Asked::Number(number))
}
