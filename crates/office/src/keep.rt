// The book's file, in the working folder: read, and replaced by a rename, so that it is always the old book or the new
// one. What can fail here answers whether it went, and no Result: what went wrong is said where it happens, in its
// words.
ghost use Rattle.std.specs.Prelude.{◌≤◌, length};

use crate::clerk::Clerk;
use crate::said::{ROOM, fail};
use files::beside::make_beside;
use files::input::read_plain;
use files::names::{remove, rename};
use files::output::{DONE, flush_folder, store};
use places::MOST_BOOK;

// A byte more than the longest book: a file that is longer is no book.
pub const FILE: usize = MOST_BOOK + 1;

// Reads the book and answers its bytes: all the room where the file is longer, and none where it is not there or cannot
// be read: no Result, as `read_plain` says.
pub fn read_book<'a>(rt: &HostRuntime, clerk: Clerk, room: &'a mut [u8]) -> &'a [u8]
    ensures { length result.now ≤ length room.old }
{
    let mut said = [0u8; ROOM];
    let unread = clerk.message(&mut said, b" cannot be read");
    read_plain(rt, clerk.file, room, unread.as_bytes())
}

// Makes the new book ready in a file of this clerk's own, beside the book: `name` ends in XXXXXX, which is made up. It
// is done before anything is printed, so that a full disk is said instead of findings.
pub(crate) fn make_ready(rt: &HostRuntime, clerk: Clerk, name: &mut [u8], new: &[u8]) -> bool {
    let mut said = [0u8; ROOM];
    let unwritten = clerk.message(
        &mut said,
        b" is left as it was, the file beside it cannot be written",
    );
    match make_beside(rt, name, clerk.file) {
        Err(why) => {
            clerk.fail(
                rt,
                b" is left as it was, no file can be made beside it",
                &why,
            );
            false
        }
        Ok(made) => {
            let is_stored = store(rt, made, new, unwritten.as_bytes()) == DONE;
            if !is_stored {
                remove(rt, name);
            }
            is_stored
        }
    }
}

// Whether the book's file has these bytes now.
fn holds(rt: &HostRuntime, clerk: Clerk, book: &[u8]) -> bool {
    let mut now = [0u8; FILE];
    read_book(rt, clerk, &mut now) == book
}

// Whether the folder could be flushed; if not, it is said.
fn see_folder(rt: &HostRuntime, clerk: Clerk) -> bool {
    let mut said = [0u8; ROOM];
    let unflushed = clerk.message(
        &mut said,
        b" is the new book, its folder cannot be flushed to disk",
    );
    flush_folder(rt, unflushed.as_bytes()) == DONE
}

// A rename that answered an error may have been made all the same: what the book is is looked at, and then said.
fn look_again(rt: &HostRuntime, clerk: Clerk, old: &[u8], new: &[u8]) {
    if holds(rt, clerk, new) {
        clerk.warn(rt, b" is the new book all the same\n");
        see_folder(rt, clerk);
        return;
    }
    if holds(rt, clerk, old) {
        clerk.warn(rt, b" is left as it was\n");
        return;
    }
    clerk.warn(rt, b" is neither the book as it was nor the new one\n");
}

// The book's file is the one that was made ready; a last look tells whether another's rename followed in the same
// moment, from a clerk that had looked before this one's.
fn settle(rt: &HostRuntime, clerk: Clerk, new: &[u8]) -> bool {
    let is_flushed = see_folder(rt, clerk);
    if holds(rt, clerk, new) {
        return is_flushed;
    }
    clerk.warn(
        rt,
        b" is not this day's book when looked at again: run the day again\n",
    );
    false
}

// Puts the file that was made ready in the book's place, if the book is still what the day was judged on. Whether all
// of it went; if not, it was said.
pub(crate) fn replace(rt: &HostRuntime, clerk: Clerk, name: &[u8], old: &[u8], new: &[u8]) -> bool {
    if !holds(rt, clerk, old) {
        clerk.warn(
            rt,
            b" is not what this day was judged on: it is left as it is, without this day\n",
        );
        remove(rt, name);
        return false;
    }
    if let Err(why) = rename(rt, name, clerk.file) {
        fail(
            rt,
            clerk.who,
            b"the new book cannot be renamed to ",
            clerk.file,
            &why,
        );
        look_again(rt, clerk, old, new);
        remove(rt, name);
        return false;
    }
    settle(rt, clerk, new)
}
