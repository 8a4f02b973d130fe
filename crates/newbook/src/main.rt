// Makes a fresh book in the working folder, for the rulebook that its first word names: `book.axb`, or with the word
// `positions` after it `positions.axq`. It never touches a file that is there.
#![tactic(auto)]

use files::names::{create, remove};
use files::output::{flush_folder, put, store};
use files::said::say;
use office::said::{ROOM, fail, message};
use places::{MOST_BOOK, book_size};
use positions::books::BOOK;
use rules::kinds::kinds_of;
use std::io;
use wire::refusal::Refusal;
use words::asked::{count_words, word_at};
use words::number::number_in;

// The rulebook that the first word names: one digit and no more. Anything else is 0, which no rulebook has: no Option,
// since a fresh book refuses 0 where it refuses 3.
fn rulebook_asked(rt: &HostRuntime) -> u64 {
    let mut room = [0u8; 1];
    number_in(word_at(rt, 1, &mut room)) as u64
}

fn is_positions_asked(rt: &HostRuntime) -> bool {
    let mut room = [0u8; 9];
    word_at(rt, 2, &mut room) == b"positions".as_slice()
}

// The file is made only where the name is free, so what is taken away after a failure is our own. Whether it went, and
// no Result: what went wrong is said where it happens.
fn make(rt: &HostRuntime, file: &[u8], book: &[u8]) -> bool {
    let made = match create(rt, file) {
        Ok(made) => made,
        Err(why) => {
            fail(rt, b"newbook", file, b" cannot be made", &why);
            return false;
        }
    };
    let mut room = [0u8; ROOM];
    let unwritten = message(&mut room, b"newbook", file, b" cannot be written");
    if store(rt, made, book, unwritten.as_bytes()) < 0 {
        remove(rt, file);
        return false;
    }
    let mut room = [0u8; ROOM];
    let unflushed = message(
        &mut room,
        b"newbook",
        file,
        b" is made, its folder cannot be flushed to disk",
    );
    flush_folder(rt, unflushed.as_bytes());
    true
}

fn put_made(rt: &HostRuntime, file: &[u8]) -> io::Result<()> {
    put(rt, b"made ")?;
    put(rt, file)?;
    put(rt, b"\n")
}

fn tell_made(rt: &HostRuntime, file: &[u8]) {
    if let Err(why) = put_made(rt, file) {
        fail(
            rt,
            b"newbook",
            file,
            b" is made, standard output cannot be written",
            &why,
        );
    }
}

fn tell_usage(rt: &HostRuntime) {
    say(
        rt,
        b"usage: newbook 1 (DCE) or newbook 2 (CFFEX bonds), and with the word positions the book of positions\n",
    );
}

// Makes the file of a book that was made fresh, or says how to ask.
fn finish(rt: &HostRuntime, fresh: Result<(), Refusal>, file: &[u8], book: &[u8]) {
    match fresh {
        Ok(()) => {
            if make(rt, file, book) {
                tell_made(rt, file);
            }
        }
        Err(_) => tell_usage(rt),
    }
}

fn make_in(rt: &HostRuntime, rulebook: u64, book: &mut [u8]) {
    let fresh = desk::books::fresh(book, rulebook);
    finish(rt, fresh, b"book.axb", book);
}

#[tactic(auto, using(rules::proofs::KindLaws::kinds_most), unfolding(rules::specs::Kinds::most_kinds))]
fn make_offences(rt: &HostRuntime, rulebook: u64) {
    let size = book_size(kinds_of(rulebook));
    let mut book = [0u8; MOST_BOOK];
    make_in(rt, rulebook, &mut book[0..size]);
}

fn make_positions(rt: &HostRuntime, rulebook: u64) {
    let mut book = [0u8; BOOK];
    let fresh = positions::books::fresh(&mut book, rulebook);
    finish(rt, fresh, b"positions.axq", &book);
}

// The program's own name is counted too.
fn main(rt: HostRuntime) {
    let rulebook = rulebook_asked(&rt);
    let count = count_words(&rt);
    if count == 2 {
        make_offences(&rt, rulebook);
    } else if (count == 3) & is_positions_asked(&rt) {
        make_positions(&rt, rulebook);
    } else {
        tell_usage(&rt);
    }
}
