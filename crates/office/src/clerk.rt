// Whose office it is: a program, with its book's file and its heading's mark, and what it says of that file.
ghost use Rattle.files.specs.Status.{Status};

use crate::said::{ROOM, fail, message};
use files::said::say;
use std::io;
use words::line::Line;

// The program's name, its book's file in the working folder, and the mark of its log's heading with the space after it.
#[derive(Clone, Copy)]
pub struct Clerk<'a> {
    pub who: &'a [u8],
    pub file: &'a [u8],
    pub mark: &'a [u8],
}

impl Clerk<'_> {
    pub(crate) fn message<'a>(self, room: &'a mut [u8], words: &[u8]) -> Line<'a> {
        message(room, self.who, self.file, words)
    }

    // It answers as `said::fail` does.
    pub(crate) fn fail(self, rt: &HostRuntime, words: &[u8], why: &io::Error) -> i32
        ensures { Status result }
    {
        fail(rt, self.who, self.file, words, why)
    }

    // Says it by itself: the words have the line's end.
    pub(crate) fn warn(self, rt: &HostRuntime, words: &[u8]) {
        let mut room = [0u8; ROOM];
        say(rt, self.message(&mut room, words).as_bytes());
    }
}
