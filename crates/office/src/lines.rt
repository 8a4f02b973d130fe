// Lines of a program that has nothing to undo: where standard output does not take one, that is said, and the answer
// is -1: a status, and no Result, as `files::output::DONE` says.
ghost use Rattle.files.specs.Status.{Status};

use crate::print::{print_count, print_heading};
use crate::said::fail;
use files::output::{DONE, put};
use std::io;

fn done_if(rt: &HostRuntime, who: &[u8], taken: io::Result<()>) -> i32
    ensures { Status result }
{
    match taken {
        Ok(()) => DONE,
        Err(why) => fail(rt, who, b"standard output", b" cannot be written", &why),
    }
}

// A line that is made already.
pub fn write(rt: &HostRuntime, who: &[u8], line: &[u8]) -> i32
    ensures { Status result }
{
    done_if(rt, who, put(rt, line))
}

// The heading of a log, after its mark.
pub fn write_heading(rt: &HostRuntime, who: &[u8], mark: &[u8], log: &[u8]) -> i32
    ensures { Status result }
{
    done_if(rt, who, print_heading(rt, mark, log))
}

// A word, with the space after it, and a number.
pub fn write_count(rt: &HostRuntime, who: &[u8], word: &[u8], n: u64) -> i32
    ensures { Status result }
{
    done_if(rt, who, print_count(rt, word, n))
}
