// What comes on standard input: bytes, and of a day log first its header with the tables.
ghost use Rattle.std.specs.Prelude.{◌≤◌, length, IfSome};

use crate::said::fail;
use daylog::header::header_of;
use files::input::{Got, fill};

// The longest header with tables: 32 contracts and 512 accounts.
pub const TABLES: usize = 4368;

// The type of the end record, which ends a day log's reading: the byte as it comes, and no enum, since any byte may
// come, and `end_good` of daylog tests the record itself.
pub const END: u8 = 3;

// More turns than that takes: each takes a record or is the last, and the 1,000,001st record is refused.
pub const TURNS: u32 = 1000001;

// Standard input that cannot be read counts as cut off there, and the clerk is told why.
pub fn fill_from_input(rt: &HostRuntime, who: &[u8], buf: &mut [u8]) -> Got
    ensures { result.count ≤ length buf.new }
{
    let got = fill(&mut rt.stdin(), buf);
    if let Some(why) = &got.failed {
        fail(rt, who, b"standard input", b" cannot be read", why);
    }
    got
}

// The bytes of the two tables, or none where the header's numbers allow none.
fn tables_size(head: &[u8]) -> Option<usize>
    ensures { IfSome result (λ size. size ≤ 4352) }
{
    let h = header_of(head);
    let contracts = h.contracts as usize;
    let accounts = h.accounts as usize;
    if 32 < contracts {
        return None;
    }
    if 512 < accounts {
        return None;
    }
    if (contracts == 0) | (accounts == 0) {
        return None;
    }
    Some(8 * contracts + 8 * accounts)
}

// Reads the header and its tables, as far as they are there, and answers the bytes that came: none into a room that is
// not just the longest's. No Result: it promises bytes, and opening refuses a log that is cut off.
pub fn read_tables<'a>(rt: &HostRuntime, who: &[u8], room: &'a mut [u8]) -> &'a [u8]
    ensures { length result.now ≤ length room.old }
{
    if room.len() != TABLES {
        return &room[..0];
    }
    let head = fill_from_input(rt, who, &mut room[..16]);
    if head.count < 16 {
        return &room[..head.count];
    }
    // Without tables opening refuses by the header alone.
    let end = 16 + tables_size(room).unwrap_or(0);
    let tables = fill_from_input(rt, who, &mut room[16..end]);
    &room[..16 + tables.count]
}
