// The 16 bytes before the totals.
ghost use Rattle.std.specs.Prelude.{◌≡◌};
ghost use Rattle.wire.specs.Buffers.{put_in};
ghost use Rattle.book.specs.Layout.{head_of};

use book::shape::MARK;
use wire::write::{put16, put32};

// Writes a book's head for its mark's letter, a rulebook and a last date, where there is room for it.
pub fn put_head(b: &mut [u8], letter: u8, rulebook: u8, date: u32)
    ensures { b.new ≡ put_in b.old 0 (head_of letter rulebook date) }
{
    if b.len() < 16 {
        return;
    }
    b[..2].copy_from_slice(&MARK);
    b[2] = letter;
    b[3] = rulebook;
    put16(b, 4, 1);
    put32(b, 6, date);
    put16(b, 10, 0);
    put32(b, 12, 0);
}
