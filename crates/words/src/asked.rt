// The words that a program was started with. Its own name is the first of them.
ghost use Rattle.std.specs.Prelude.{◌≤◌, length};

use std::env::{Env, FillError};

// Puts the word at a place, counted from 0, in the room, and answers it: no bytes where there is no such word, and
// where it is longer than the room. No Option: it promises bytes, and its callers refuse none as they refuse
// wrong ones.
pub fn word_at<'a>(rt: &HostRuntime, place: usize, room: &'a mut [u8]) -> &'a [u8]
    ensures { length result.now ≤ length room.old }
{
    let len = rt.arg(place, room).unwrap_or(0);
    &room[..len]
}

fn has_word(rt: &HostRuntime, place: usize) -> bool {
    let mut word = [0u8; 1];
    !matches!(rt.arg(place, &mut word), Err(FillError::NotPresent))
}

pub fn count_words(rt: &HostRuntime) -> usize {
    (0..usize::MAX)
        .find(|place| !has_word(rt, *place))
        .unwrap_or(usize::MAX)
}
