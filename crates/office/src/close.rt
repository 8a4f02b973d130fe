// How a clerk's run ends: with the day's findings and the new book, or with a refusal.
ghost use Rattle.std.specs.Prelude.{◌≡◌, ◌++◌, take, codes, length};
ghost use Rattle.files.specs.Status.{Status};

use crate::clerk::Clerk;
use crate::keep::{make_ready, replace};
use crate::lines::write_count;
use crate::print::print_day;
use files::names::remove;
use files::output::{DONE, FAILED};
use wire::refusal::Refusal;
use words::line::Line;

// Room for the name of a file beside the book.
const NAME: usize = 64;

// A day that was judged: its log, the book before it and after it, and room for findings, of which so many were found.
// The number stands beside the room, since a caller's may be more than the room has: then all of the room is printed.
#[derive(Clone, Copy)]
pub struct Day<'a> {
    pub log: &'a [u8],
    pub old: &'a [u8],
    pub new: &'a [u8],
    pub findings: &'a [u8],
    pub found: usize,
}

// The name of a file beside the book, in a room that is lent. Its last six letters are made up when the file is made.
fn name_beside<'a>(room: &'a mut [u8], file: &[u8]) -> &'a mut [u8]
    ensures { result.now ≡ take (length room.old) (file.now ++ codes ".new.XXXXXX") }
{
    let mut name = Line::new(room);
    name.add_text(file);
    name.add_text(b".new.XXXXXX");
    name.into_bytes()
}

// The new book is ready, in a file of that name, before the findings go out, and takes the old one's place after them:
// where they cannot be printed, the day may be run again. Whether all of it went; if not, it was said.
fn finish_by(rt: &HostRuntime, clerk: Clerk, day: Day, name: &mut [u8]) -> bool {
    if !make_ready(rt, clerk, name, day.new) {
        return false;
    }
    match print_day(rt, clerk.mark, day.log, day.findings, day.found) {
        Ok(()) => replace(rt, clerk, name, day.old, day.new),
        Err(why) => {
            clerk.fail(
                rt,
                b" is left as it was, standard output cannot be written",
                &why,
            );
            remove(rt, name);
            false
        }
    }
}

// Prints the day's findings and puts the new book in the old one's place. -1 where something failed, and then it was
// said: a status, and no Result, as `files::output::DONE` says.
pub fn finish(rt: &HostRuntime, clerk: Clerk, day: Day) -> i32
    ensures { Status result }
{
    let mut room = [0u8; NAME];
    let name = name_beside(&mut room, clerk.file);
    if finish_by(rt, clerk, day, name) {
        DONE
    } else {
        FAILED
    }
}

// Prints the refusal alone. -1 where that failed, and then it was said. It takes any number, as it always did: a
// Refusal would ask more of callers.
pub fn refuse(rt: &HostRuntime, who: &[u8], number: u32) -> i32
    ensures { Status result }
{
    write_count(rt, who, b"refused ", number as u64)
}

// The end of a run: of a day that was judged its findings and the new book, of one that was refused the refusal. It
// answers as `finish` and `refuse` do.
pub fn close(rt: &HostRuntime, clerk: Clerk, day: Result<Day, Refusal>) -> i32
    ensures { Status result }
{
    match day {
        Ok(day) => finish(rt, clerk, day),
        Err(refusal) => refuse(rt, clerk.who, refusal.number()),
    }
}
