// Reading: a buffer is filled whatever the size of the drops in which the bytes come.
ghost use Rattle.std.specs.Prelude.{◌≡◌, ◌≤◌, length, take, Ok, Err, IfOk, MatchOption};
ghost use Rattle.std.specs.Io.{ReadsAtMost};
ghost use Rattle.std.specs.Io.KnownBytes.{Consumes, ReadConsumes};

use crate::TRIES;
use crate::known::{known_of, text_of};
use crate::said::{fail, say};
use std::fs::File;
use std::io;
use std::io::{ErrorKind, Read};

// How many bytes came or went, and why a call failed after them, if one did. Fewer than asked for, and no failure, is
// the end of what can be read. No Result says it: what came before a failure counts, and is told with it.
#[derive(Clone, Copy)]
pub struct Got {
    pub count: usize,
    pub failed: Option<io::Error>,
}

impl Got {
    pub(crate) fn cut_off(count: usize, why: io::Error) -> Self
        ensures { result.count ≡ count }
    {
        Got {
            count,
            failed: Some(why),
        }
    }

    // The count, where no call failed after it.
    pub fn whole(self) -> io::Result<usize>
        ensures { MatchOption self.failed (result ≡ Ok self.count) (λ e. result ≡ Err e) }
    {
        match self.failed {
            Some(e) => Err(e),
            None => Ok(self.count),
        }
    }
}

// One read; where a signal cut it off before a byte came, it is made again.
fn read_some<R: Read>(from: &mut R, part: &mut [u8]) -> io::Result<usize>
    ensures count { ReadsAtMost result part.new }
    ensures bytes { ReadConsumes (R.remaining from.old) (R.remaining from.new) result part.new }
{
    for _ in 1..TRIES {
        match from.read(part) {
            Err(e) if e.kind() == ErrorKind::Interrupted => {}
            read => return read,
        }
    }
    from.read(part)
}

// Reads until the buffer is full, the input ends or a read fails. What came stands at the buffer's start, and no more
// than that was taken. Of std's readers read_exact loses the count at a failure, and read_to_end wants a heap.
#[tactic(auto, using(crate::proofs::Parts::more_taken))]
pub fn fill<R: Read>(from: &mut R, buf: &mut [u8]) -> Got
    ensures count { result.count ≤ length buf.new }
    ensures bytes { Consumes (R.remaining from.old) (R.remaining from.new) (take result.count buf.new) }
{
    let mut done = 0;
    while done < buf.len() {
        match read_some(from, &mut buf[done..]) {
            Ok(0) => break,
            Ok(count) => done += count,
            Err(why) => return Got::cut_off(done, why),
        }
    }
    Got {
        count: done,
        failed: None,
    }
}

// Whether there is a plain file of that name. Where there is something else, or the system does not tell, the words
// are said, and why.
fn is_plain(rt: &HostRuntime, path: &[u8], words: &[u8]) -> bool {
    match known_of(rt, path) {
        Ok(known) if known.is_file() => return true,
        Ok(_) => {
            say(rt, words);
            say(rt, b": it is no plain file\n");
        }
        Err(e) if e.kind() == ErrorKind::NotFound => {}
        Err(e) => fail(rt, words, &e),
    }
    false
}

// What a file has, as far as the buffer goes; nothing where it cannot be read.
fn fill_by_name(rt: &HostRuntime, path: &[u8], buf: &mut [u8]) -> io::Result<usize>
    ensures { IfOk result (λ n. n ≤ length buf.new) }
{
    let mut file = File::open(rt, text_of(path)?)?;
    fill(&mut file, buf).whole()
}

// Reads the file of that name as far as the room goes, and answers the bytes that came: none where there is no such
// file, and none where it cannot be read or is no plain file: then the words are said, and why. Nobody is waited for.
// No Result: it promises bytes, and what went wrong is said already.
pub fn read_plain<'a>(rt: &HostRuntime, path: &[u8], room: &'a mut [u8], words: &[u8]) -> &'a [u8]
    ensures { length result.now ≤ length room.old }
{
    if !is_plain(rt, path, words) {
        return &room[..0];
    }
    let read = fill_by_name(rt, path, room);
    if let Err(e) = &read {
        fail(rt, words, e);
    }
    &room[..read.unwrap_or(0)]
}
