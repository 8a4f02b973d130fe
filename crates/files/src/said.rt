// What is said on standard error where a call of the system failed: some words, a colon and the system's reason.
use std::io;
use std::io::{Cursor, Print, Write};

// Room for the longest reason, with the number that the system has for it.
const ROOM: usize = 128;

// The words as they are. Where standard error does not take them there is nobody left to tell.
pub fn say(rt: &HostRuntime, words: &[u8]) {
    let _ = Print::write_all(&rt.stderr(), words);
}

// A reason's own words: those before the last bracket and the space in front of it, if there is one.
fn own_words(text: &[u8]) -> &[u8] {
    match text.iter().rposition(|x| *x == b'(') {
        Some(bracket) => &text[..bracket.saturating_sub(1)],
        None => text,
    }
}

// A reason of the system's ends in its number, as " (os error 2)", which is left out.
fn say_reason(rt: &HostRuntime, text: &[u8], is_numbered: bool) {
    say(rt, if is_numbered { own_words(text) } else { text });
}

// As much of a room as was written, which ends at a place.
fn say_written(rt: &HostRuntime, room: &[u8], at: u64, is_numbered: bool) {
    if let Some(text) = room.get(..at as usize) {
        say_reason(rt, text, is_numbered);
    }
}

// A line: the words, and why a call failed.
pub fn fail(rt: &HostRuntime, words: &[u8], why: &io::Error) {
    let mut text = Cursor::new([0u8; ROOM]);
    let _ = write!(text, "{why}");
    say(rt, words);
    say(rt, b": ");
    say_written(
        rt,
        text.get_ref(),
        text.position(),
        why.raw_os_error().is_some(),
    );
    say(rt, b"\n");
}
