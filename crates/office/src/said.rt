// What is said on standard error: who says it, what of, and the words after that. The three go by themselves, since
// programs that are no clerk's say something too; what a clerk says of its book goes by its `Clerk`.
ghost use Rattle.std.specs.Prelude.{◌≡◌, ◌++◌, take, codes, length};
ghost use Rattle.files.specs.Status.{Status};

use files::output::FAILED;
use std::io;
use words::line::Line;

// Room for the longest that a program here says.
pub const ROOM: usize = 128;

// The message in a room that is lent, of any length: some calls are handed one to say if they fail.
pub fn message<'a>(room: &'a mut [u8], who: &[u8], of: &[u8], words: &[u8]) -> Line<'a>
    ensures said { result.bytes ≡ take (length room.old) (who.now ++ codes ": " ++ of.now ++ words.now) }
    ensures size { result.room ≡ length room.old }
{
    let mut line = Line::new(room);
    line.add_text(who);
    line.add_text(b": ");
    line.add_text(of);
    line.add_text(words);
    line
}

// Says it with the reason why a call failed, and answers as such a call does: a status, and no Result, as
// `files::output::DONE` says.
pub fn fail(rt: &HostRuntime, who: &[u8], of: &[u8], words: &[u8], why: &io::Error) -> i32
    ensures { Status result }
{
    let mut room = [0u8; ROOM];
    let line = message(&mut room, who, of, words);
    files::said::fail(rt, line.as_bytes(), why);
    FAILED
}
