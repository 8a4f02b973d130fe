// Writing: all of a buffer, and seen on the disk where that is asked for.
ghost use Rattle.std.specs.Prelude.{◌≡◌, ◌≤◌, length, take, IsOk};
ghost use Rattle.std.specs.Io.{WritesAtMost};
ghost use Rattle.std.specs.Io.KnownBytes.{Appends, WriteAppends};
ghost use Rattle.files.specs.Status.{Status};

use crate::input::Got;
use crate::said::fail;
use crate::{EINVAL, TRIES};
use std::fs::File;
use std::io;
use std::io::{ErrorKind, Write, writer};

// What a call answers, in the system's own way. They stay numbers and no Result: `Status` says which they may be, and
// the edits failed_is_minus_two and done_is_one put other numbers here.
pub const DONE: i32 = 0;

pub const FAILED: i32 = -1;

// One write; where a signal cut it off before a byte went, it is made again. It is written beside `read_some`, since a
// function over both calls would have to tell in its contract of a closure's runs.
fn write_some<W: Write>(to: &mut W, part: &[u8]) -> io::Result<usize>
    ensures count { WritesAtMost result part.now }
    ensures bytes { WriteAppends (W.contents to.old) (W.contents to.new) result part.now }
{
    for _ in 1..TRIES {
        match to.write(part) {
            Err(e) if e.kind() == ErrorKind::Interrupted => {}
            Ok(count) => return Ok(count),
            Err(e) => return Err(e),
        }
    }
    to.write(part)
}

// How many of the bytes went, from the first on: all, or fewer where a write failed, and then why. std's write_all
// tells no count. `fill` goes the same way, and stands apart for the reason that `write_some` does.
#[tactic(auto, using(crate::proofs::Parts::more_added))]
pub fn put_all<W: Write>(to: &mut W, bytes: &[u8]) -> Got
    ensures count { result.count ≤ length bytes.now }
    ensures bytes { Appends (W.contents to.old) (W.contents to.new) (take result.count bytes.now) }
{
    let mut done = 0;
    while done < bytes.len() {
        match write_some(to, &bytes[done..]) {
            Ok(0) => break,
            Ok(count) => done += count,
            Err(why) => return Got::cut_off(done, why),
        }
    }
    Got {
        count: done,
        failed: None,
    }
}

// Whether all of the bytes went, and if not, why.
fn went(put: Got, bytes: &[u8]) -> io::Result<()>
    ensures { put.count ≡ length bytes.now → IsOk result }
{
    if put.count == bytes.len() {
        return Ok(());
    }
    Err(put.failed.unwrap_or(io::Error::from(ErrorKind::WriteZero)))
}

// Puts the whole text on standard output. None is always taken.
pub fn put(rt: &HostRuntime, text: &[u8]) -> io::Result<()>
    ensures { length text.now ≡ 0 → IsOk result }
{
    went(put_all(&mut writer(rt), text), text)
}

// What a call answers that came to this; where it failed the words are said, and why.
fn status(rt: &HostRuntime, words: &[u8], done: io::Result<()>) -> i32
    ensures { Status result }
{
    match done {
        Ok(()) => DONE,
        Err(e) => {
            fail(rt, words, &e);
            FAILED
        }
    }
}

fn write_and_flush(file: &mut File, bytes: &[u8]) -> io::Result<()> {
    went(put_all(file, bytes), bytes)?;
    file.sync_all()
}

// Writes all the bytes, sees them on the disk and closes the file; where a step fails the words are said, and why.
pub fn store(rt: &HostRuntime, mut file: File, bytes: &[u8], words: &[u8]) -> i32
    ensures { Status result }
{
    status(rt, words, write_and_flush(&mut file, bytes))
}

// A file system that flushes no folders keeps them by itself.
fn flush(folder: &File) -> io::Result<()> {
    match folder.sync_all() {
        Err(e) if e.raw_os_error() == Some(EINVAL) => Ok(()),
        flushed => flushed,
    }
}

fn flush_working_folder(rt: &HostRuntime) -> io::Result<()> {
    flush(&File::open(rt, ".")?)
}

// Sees on the disk which files the working folder names; where that fails the words are said, and why.
pub fn flush_folder(rt: &HostRuntime, words: &[u8]) -> i32
    ensures { Status result }
{
    status(rt, words, flush_working_folder(rt))
}
